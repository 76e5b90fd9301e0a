//! In which rounds of the loops around its line a processor is lost, or two clash.
ghost use Rattle.std.specs.Prelude.{◌≡◌, ℕ, ◌-◌, ◌<◌, string_bytes, slice_get};
ghost use Rattle.std.specs.Prelude.{IfOk, IfSome};
ghost use Rattle.pram_machine.specs.Machine.{counter as counter_of};
ghost use Rattle.pram_rows.specs.Causes.{AreReasons};
ghost use Rattle.pram_step.specs.Runs.{IsReached, IsStateAfter};
ghost use Rattle.pardo_program.specs.Lawful.{IsProgram, IsStatement, bounds_of};
ghost use Rattle.pardo_flat.specs.Flat.{flat};
ghost use Rattle.pardo_flat.specs.Layouts.{program_layout};
ghost use Rattle.pardo_answers.specs.Traces.{lines_before};
ghost use Rattle.naming.specs.Inner.Rounds.{IsLawfulFlat};
ghost use Rattle.naming.specs.Names.{AreNames};
ghost use Rattle.naming.specs.Rounds.{AreClashRounds, AreRounds, lost_rounds, round_of};
ghost use Rattle.naming.specs.Rounds.{round_told, rounds_around, rounds_before, variable_value};

use crate::names::Naming;
use crate::texts::Spelled;
use pardo_flat::{Flattened, Layout, flatten};
use pardo_text::{Line, Program, Statement, laws as text_laws};
use pram_job::Job;
use pram_rows::{Lost, Why};
use pram_step::{Arrival, RunAnswer, State, counter, go_to, laws};
use std::alloc::{AllocError, Global};

/// The lines that tell in which rounds of loops a processor is lost, and in which two clash. The
/// steps before that are made once more.
pub fn rounds_text(
    alloc: Global,
    spelled: &Spelled,
    answer: &RunAnswer,
    why: &Why,
) -> Result<String, AllocError>
    requires names { AreNames spelled.now.text.items spelled.now.job spelled.now.names }
    requires why { (steps : ℕ) × AreReasons spelled.now.job steps answer.now why.now }
    ensures { IfOk result (λ rounds. AreRounds spelled.now.names spelled.now.job answer.now
        why.now.fates.lost (string_bytes rounds)) }
{
    text_laws::programs_are_lawful();
    let Some(naming) = &spelled.names else {
        return Ok(String::new(alloc));
    };
    let mut rounds = clash_rounds(alloc, naming, &spelled.job, answer)?;
    let lost = lost_rounds(alloc, naming, &spelled.job, why.fates.lost)?;
    rounds.push_str(lost.as_str())?;
    Ok(rounds)
}

// The rounds of a conflict, where the answer is that.
fn clash_rounds(
    alloc: Global,
    naming: &Naming,
    job: &Job,
    answer: &RunAnswer,
) -> Result<String, AllocError>
    requires { IsLawfulFlat naming.now.program }
    ensures { IfOk result (λ rounds.
        AreClashRounds naming.now job.now answer.now (string_bytes rounds)) }
{
    match answer {
        RunAnswer::Conflict(fault) => rounds_before(alloc, naming, job, fault.step, fault.first),
        RunAnswer::Final(_) | RunAnswer::Unfinished { .. } => Ok(String::new(alloc)),
    }
}

// The rounds of one that is lost, if one is.
fn lost_rounds(
    alloc: Global,
    naming: &Naming,
    job: &Job,
    lost: Option<Lost>,
) -> Result<String, AllocError>
    requires lawful { IsLawfulFlat naming.now.program }
    requires lost { IfSome lost (λ one.
        IsReached job.now (one.step - 1) × (one.processor < job.now.procs)) }
    ensures { IfOk result (λ rounds.
        string_bytes rounds ≡ lost_rounds naming.now job.now lost) }
{
    match lost {
        Some(
            Lost {
                step,
                processor,
                ..
            },
        ) => rounds_before(alloc, naming, job, step, processor),
        None => Ok(String::new(alloc)),
    }
}

// The rounds in which a processor makes a step, if that is reached.
fn rounds_before(
    alloc: Global,
    naming: &Naming,
    job: &Job,
    step: u32,
    processor: u32,
) -> Result<String, AllocError>
    requires { IsLawfulFlat naming.now.program }
    ensures { IfOk result (λ rounds. IsReached job.now (step - 1) → processor < job.now.procs →
        string_bytes rounds ≡ rounds_before naming.now job.now step processor) }
{
    if processor >= job.procs() {
        return Ok(String::new(alloc));
    }
    let made = step.saturating_sub(1);
    let state = match go_to(alloc, job, made, made)? {
        Arrival::Reached(state) => state,
        Arrival::Disputed(fault) => {
            // Its step is one of these.
            let _ = fault;
            return Ok(String::new(alloc));
        }
        Arrival::TooFar => return Ok(String::new(alloc)),
    };
    let layout = flat_layout(alloc, naming.program())?;
    let at = line_of(naming, job, &state, processor);
    let view = LoopView {
        program: naming.program(),
        layout: &layout,
        state: &state,
        step,
        processor,
    };
    rounds_around(alloc, &view, at)
}

// The place of the line where a processor is.
fn line_of(naming: &Naming, job: &Job, state: &State, processor: u32) -> usize
    requires within { processor < job.now.procs }
    requires state { (t : ℕ) × IsStateAfter job.now t state.now }
    ensures { result ≡ lines_before naming.now.places (counter_of job.now state.now processor) }
{
    laws::states_have_all_places();
    job.limits_hold();
    lines_before(naming.places.as_slice(), counter(job, state, processor))
}

// Where the values of a program lie that was compiled.
fn flat_layout(alloc: Global, program: &Program) -> Result<Layout, AllocError>
    requires { IsLawfulFlat program.now }
    ensures { IfOk result (λ layout. layout ≡ program_layout (flat program.now)) }
{
    match flatten(alloc, program)? {
        Flattened::Same => Layout::of(alloc, program),
        Flattened::Flat(flat) => Layout::of(alloc, &flat.program),
        Flattened::TooWide(_) => unreachable!(),
    }
}

fn lines_before(places: &[u32], at: u32) -> usize
    ensures { result ≡ lines_before places.now at }
{
    let begun = places.iter().filter(|place| **place <= at).count();
    begun.saturating_sub(1)
}

/// What the rounds of a processor before a step are told by.
#[derive(Clone, Copy)]
struct LoopView<'a> {
    program: &'a Program,
    layout: &'a Layout,
    state: &'a State,
    step: u32,
    processor: u32,
}

// The rounds of the loops around the line at a place.
fn rounds_around(alloc: Global, view: &LoopView<'_>, at: usize) -> Result<String, AllocError>
    requires lawful { IsProgram view.now.program.now }
    requires layout { view.now.layout.now ≡ program_layout (flat view.now.program.now) }
    ensures { IfOk result (λ rounds. string_bytes rounds ≡ rounds_around
        (variable_value view.now.program.now view.now.state.now view.now.processor)
        view.now.program.now view.now.step at) }
{
    let mut rounds = String::new(alloc);
    for begin in 0..at {
        let round = round_of(alloc, view, at, begin)?;
        rounds.push_str(round.as_str())?;
    }
    Ok(rounds)
}

// The round of the loop that begins in a line, if it begins one, and does not end before a place.
fn round_of(
    alloc: Global,
    view: &LoopView<'_>,
    at: usize,
    begin: usize,
) -> Result<String, AllocError>
    requires lawful { IsProgram view.now.program.now }
    requires layout { view.now.layout.now ≡ program_layout (flat view.now.program.now) }
    ensures { IfOk result (λ round. string_bytes round ≡ round_of
        (variable_value view.now.program.now view.now.state.now view.now.processor)
        view.now.step at (slice_get view.now.program.now.lines begin)) }
{
    let Some(line) = view.program.lines().get(begin) else {
        return Ok(String::new(alloc));
    };
    round_told(alloc, view, at, line)
}

fn round_told(
    alloc: Global,
    view: &LoopView<'_>,
    at: usize,
    line: &Line,
) -> Result<String, AllocError>
    requires lawful { IsStatement (bounds_of view.now.program.now) line.now.statement }
    requires layout { view.now.layout.now ≡ program_layout (flat view.now.program.now) }
    ensures { IfOk result (λ round. string_bytes round ≡ round_told
        (variable_value view.now.program.now view.now.state.now view.now.processor)
        view.now.step at line.now.number line.now.statement) }
{
    match &line.statement {
        Statement::For(nest, _, _, _, end) if at <= *end => {
            let (step, number) = (view.step, line.number);
            let value = variable_value(view, *nest);
            format!(in alloc; "round step={step} line={number} value={value}\n")
        }
        _ => Ok(String::new(alloc)),
    }
}

// What the processor holds of the variable of the loop that stands in so many others.
fn variable_value(view: &LoopView<'_>, nest: usize) -> u32
    requires nest { nest < view.now.program.now.loops }
    requires layout { view.now.layout.now ≡ program_layout (flat view.now.program.now) }
    ensures { result ≡ variable_value view.now.program.now view.now.state.now view.now.processor
        nest }
{
    let cells = view.layout.loop_variable(nest);
    let cell = cells.base as usize + view.processor as usize;
    view.state.places().get(cell).copied().unwrap_or(0)
}
