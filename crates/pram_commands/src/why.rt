//! An answer, and what became of the processors.
ghost use Rattle.std.specs.Prelude.{◌≡◌, ℕ, false, true, string_bytes, IfOk};
ghost use Rattle.pram_commands.specs.Did.{tells};
ghost use Rattle.naming.specs.Writing.{writing};
ghost use Rattle.pram_commands.specs.Inner.Puts.{HasAnswered, PutsAnswer};
ghost use Rattle.naming.specs.Names.{AreNames};
ghost use Rattle.pram_commands.specs.Why.{Explaining, Follows, IsExplained, told_steps};
ghost use Rattle.pram_rows.specs.Causes.{AreReasons};
ghost use Rattle.pram_step.specs.Runs.{IsAnswer};

use command_data::Style;
use naming::{Spelled, origin_of, print_styled, rounds_text};
use pram_job::Job;
use pram_rows::{Why, answer_with_why, why_after, why_text};
use pram_step::RunAnswer;
use pram_streams::{PrintFault, Sink, put};
use std::alloc::{AllocError, Global};

/// Prints an answer in a style. Nothing is printed before memory for it and for what became of the
/// processors was found.
pub(crate) fn put_told<O: Sink>(
    alloc: Global,
    out: &mut O,
    style: Style,
    spelled: &Spelled,
    answer: &RunAnswer,
) -> Result<(), PrintFault>
    requires output { O.has_failed out.old ≡ false }
    requires names { AreNames spelled.now.text.items spelled.now.job spelled.now.names }
    ensures { HasAnswered style spelled.now.text.items spelled.now.job
        (writing O.Sink out.old out.new)
        answer.now result }
{
    let back = following(alloc, style.why, spelled, answer)?;
    put_both(
        alloc,
        out,
        &Told {
            style,
            spelled,
            answer,
            back: back.as_str(),
        },
    )
}

/// Prints the answer of a job of the machine, and what became of its processors. Nothing is printed
/// before memory for both was found.
pub(crate) fn put_explained<O: Sink>(
    alloc: Global,
    out: &mut O,
    style: Style,
    spelled: &Spelled,
) -> Result<RunAnswer, PrintFault>
    requires asked { style.why ≡ true }
    requires output { O.has_failed out.old ≡ false }
    requires names { AreNames spelled.now.text.items spelled.now.job spelled.now.names }
    ensures { let read = spelled.now in
        PutsAnswer (Explaining style (IsAnswer read.job) read.text.items read.job) ⊥
        (writing O.Sink out.old out.new) tells result }
{
    let (answer, why) = answer_with_why(alloc, &spelled.job)?;
    let back = explained(alloc, spelled, &answer, &why)?;
    put_both(
        alloc,
        out,
        &Told {
            style,
            spelled,
            answer: &answer,
            back: back.as_str(),
        },
    )?;
    Ok(answer)
}

/// An answer, the style that it is told in, and the lines that follow it.
#[derive(Drop)]
struct Told<'a> {
    style: Style,
    spelled: &'a Spelled,
    answer: &'a RunAnswer,
    back: &'a str,
}

fn put_both<O: Sink>(alloc: Global, out: &mut O, told: &Told<'_>) -> Result<(), PrintFault>
    requires output { O.has_failed out.old ≡ false }
    requires names { let read = told.now.spelled.now in
        AreNames read.text.items read.job read.names }
    requires follows { let read = told.now.spelled.now in
        Follows told.now.style.why read.text.items read.names read.job told.now.answer.now
        told.now.back.now }
    ensures { let read = told.now.spelled.now in
        HasAnswered told.now.style read.text.items read.job (writing O.Sink out.old out.new)
        told.now.answer.now result }
{
    print_styled(alloc, out, told.style.csv, told.spelled, told.answer)?;
    put(out, told.back.as_bytes())?;
    Ok(())
}

// What follows an answer: nothing, or if it is asked for, what became of the processors.
fn following(
    alloc: Global,
    why: bool,
    spelled: &Spelled,
    answer: &RunAnswer,
) -> Result<String, AllocError>
    requires { AreNames spelled.now.text.items spelled.now.job spelled.now.names }
    ensures { IfOk result (λ back. Follows why spelled.now.text.items spelled.now.names
        spelled.now.job answer.now (string_bytes back)) }
{
    if !why {
        return Ok(String::new(alloc));
    }
    let steps = told_steps(&spelled.job, answer);
    let told = why_after(alloc, &spelled.job, steps, answer)?;
    explained(alloc, spelled, answer, &told)
}

// What became of the processors, and why, and in which rounds.
fn explained(
    alloc: Global,
    spelled: &Spelled,
    answer: &RunAnswer,
    why: &Why,
) -> Result<String, AllocError>
    requires names { AreNames spelled.now.text.items spelled.now.job spelled.now.names }
    requires why { (steps : ℕ) × AreReasons spelled.now.job steps answer.now why.now }
    ensures { IfOk result (λ back. IsExplained spelled.now.text.items spelled.now.names
        spelled.now.job answer.now why.now (string_bytes back)) }
{
    let origin = origin_of(spelled.text.as_slice(), &spelled.names);
    let mut back = why_text(alloc, origin, spelled, why)?;
    let rounds = rounds_text(alloc, spelled, answer, why)?;
    back.push_str(rounds.as_str())?;
    Ok(back)
}

// The steps that an answer speaks of.
fn told_steps(job: &Job, answer: &RunAnswer) -> u32
    ensures { result ≡ told_steps job.now answer.now }
{
    match answer {
        RunAnswer::Final(_) | RunAnswer::Conflict(_) => job.steps(),
        RunAnswer::Unfinished { step } => *step,
    }
}
