//! The commands, and which of them is asked for.
ghost use Rattle.std.specs.Prelude.{◌≡◌, ◌↔◌, false, OnOk, IsErrOf, IsTrue};
ghost use Rattle.std.specs.Io.KnownBytes.{Appends};
ghost use Rattle.pram_streams.specs.Transfer.{AppendsBeginning};
ghost use Rattle.pram_commands.specs.Costs.{conflict_of};
ghost use Rattle.pram_commands.specs.Did.{Did, ending, ends_with, status_of, tells_status};
ghost use Rattle.naming.specs.Writing.{writing};
ghost use Rattle.pram_commands.specs.Inner.Puts.{printed_as, status_result};
ghost use Rattle.pram_commands.specs.Inputs.{AreReady, taking};
ghost use Rattle.pram_commands.specs.Line.{command_alone, command_on_threads};

mod alone;
mod on_threads;
mod under;

use crate::sources::Sources;
pub use alone::{
    check, compile, cost, cost_by_lines, plain, replay, steps, sweep, take_answer, trace,
};
use command_data::{AskAlone, AskOnThreads};
use naming::{Spelled, print_told};
pub use on_threads::{run, watch};
use pram_cost::Cost;
use pram_rows::Window;
use pram_step::RunAnswer;
use pram_streams::{PrintFault, Sink, Source};
use refusals::{CONFLICT, CommandFault, DONE, UNFINISHED};
use std::alloc::Global;
use std::rt::Clock;
use std::sync::Wait;
use std::thread::Threads;
use under::{Told, under_model};

/// Does what the thread that calls is asked alone, and answers the status of its answer.
pub fn do_alone<J: Source, P: Source, O: Sink>(
    alloc: Global,
    ask: AskAlone,
    sources: &mut Sources<J, P>,
    out: &mut O,
) -> Result<u8, CommandFault>
    requires { AreReady J.Source P.Source O.Sink sources.old out.old }
    ensures { Did (command_alone ask) (taking J.Source P.Source sources.old sources.new)
        (writing O.Sink out.old out.new) tells_status result }
{
    match ask {
        AskAlone::Check { model: None } => {
            check(alloc, sources, out)?;
            Ok(DONE)
        }
        AskAlone::Compile => {
            compile(alloc, sources, out)?;
            Ok(DONE)
        }
        AskAlone::Plain { style, model: None } => ended(plain(alloc, style, sources, out)),
        AskAlone::Cost {
            lines: false,
            model: None,
        } => {
            let cost = cost(alloc, sources, out)?;
            Ok(cost_status(&cost))
        }
        AskAlone::Cost {
            lines: true,
            model: None,
        } => {
            let cost = cost_by_lines(alloc, sources, out)?;
            Ok(cost_status(&cost))
        }
        AskAlone::Check { model: Some(pram) } => under_model(
            alloc,
            pram,
            Told::Summary,
            sources,
            out,
        ),
        AskAlone::Plain {
            style,
            model: Some(pram),
        } => under_model(alloc, pram, Told::Answer(style), sources, out),
        AskAlone::Cost {
            lines,
            model: Some(pram),
        } => under_model(alloc, pram, Told::Costs { lines }, sources, out),
        AskAlone::Sweep => {
            let cost = sweep(alloc, sources, out)?;
            Ok(cost_status(&cost))
        }
        AskAlone::Steps { from, to, alone } => {
            ended(steps(alloc, Window { from, to }, alone, sources, out))
        }
        AskAlone::Trace { alone } => ended(trace(alloc, alone, sources, out)),
        AskAlone::Replay { workers, alone } => {
            ended(replay(alloc, workers, alone, sources, out))
        }
    }
}

/// Does what is asked on threads, and answers the status of its answer.
pub(crate) fn do_on_threads<
    R: Threads + Wait + Clock + Eprint + Sync,
    J: Source,
    P: Source,
    O: Sink,
>(
    rt: &R,
    alloc: Global,
    ask: AskOnThreads<'_>,
    sources: &mut Sources<J, P>,
    out: &mut O,
) -> Result<u8, CommandFault>
    requires { AreReady J.Source P.Source O.Sink sources.old out.old }
    ensures { Did (command_on_threads ask.entry) (taking J.Source P.Source sources.old sources.new)
        (writing O.Sink out.old out.new) tells_status result }
{
    match ask {
        AskOnThreads::Run(ask) => ended(run(rt, alloc, ask, sources, out)),
        AskOnThreads::Watch(ask) => ended(watch(rt, alloc, ask, sources, out)),
    }
}

// The status in place of an answer.
fn ended(done: Result<RunAnswer, CommandFault>) -> Result<u8, CommandFault>
    ensures { result ≡ status_result done }
{
    match done {
        Ok(answer) => Ok(answer_status(&answer)),
        Err(fault) => Err(fault),
    }
}

fn answer_status(answer: &RunAnswer) -> u8
    ensures { result ≡ status_of answer.now }
{
    match answer {
        RunAnswer::Final(_) => DONE,
        RunAnswer::Conflict(_) => CONFLICT,
        RunAnswer::Unfinished { .. } => UNFINISHED,
    }
}

/// The status of a run that was counted.
pub(crate) fn cost_status(cost: &Cost) -> u8
    ensures { result ≡ ends_with (conflict_of cost.now) }
{
    match cost.conflict {
        None => DONE,
        Some(_) => CONFLICT,
    }
}

// Prints the answer after rows, unless they are to stand alone.
fn print_ending<O: Sink>(
    alloc: Global,
    out: &mut O,
    spelled: &Spelled,
    answer: &RunAnswer,
    alone: bool,
) -> Result<(), PrintFault>
    requires { O.has_failed out.old ≡ false }
    ensures ok { OnOk result (Appends (O.taken out.old) (O.taken out.new)
        (ending alone spelled.now.names answer.now spelled.now.job.steps)) }
    ensures beginning { AppendsBeginning (O.taken out.old) (O.taken out.new)
        (ending alone spelled.now.names answer.now spelled.now.job.steps) }
    ensures failed { IsTrue (O.has_failed out.new) ↔ IsErrOf result PrintFault.Device }
{
    if alone {
        return Ok(());
    }
    print_told(alloc, out, spelled, answer)
}

// What a command answers that prints as its last act.
fn printed<A>(put: Result<A, PrintFault>) -> Result<A, CommandFault>
    ensures { result ≡ printed_as put }
{
    match put {
        Ok(done) => Ok(done),
        Err(PrintFault::Device) => Err(CommandFault::OutDevice),
        Err(PrintFault::Memory) => Err(CommandFault::Memory),
    }
}
