//! The commands that start threads: `run` and `watch`.
ghost use Rattle.std.specs.Prelude.{◌≡◌, ⊤, false, true};
ghost use Rattle.pram_commands.specs.Did.{Answering, Did, tells};
ghost use Rattle.naming.specs.Writing.{writing};
ghost use Rattle.pram_commands.specs.Inner.Puts.{PutsAnswer};
ghost use Rattle.pram_commands.specs.Inputs.{AreReady, taking};
ghost use Rattle.naming.specs.Names.{AreNames};
ghost use Rattle.pram_commands.specs.Threads.{SomeRunEndsIn, TellsSights, running, watching};
ghost use Rattle.pram_commands.specs.Why.{Explaining};
ghost use Rattle.command_data.specs.CellLists.{parts_of};

use crate::commands::printed;
use crate::drafted::put_drafted;
use crate::inputs::{Unrun, no_plan, take_inputs, take_unrun};
use crate::printing::{Printing, PrintingReads, outcome, take_back};
use crate::sources::{Drafted, Inputs, Refused, Sources};
use crate::threads::{Watched, run_job};
use command_data::{AskRun, AskWatch, Manner, Telling};
use naming::cells_in;
use pram_run::ReadsNothing;
use pram_step::RunAnswer;
use pram_streams::{PrintFault, Sink, Source};
use refusals::CommandFault;
use std::alloc::Global;
use std::rt::Clock;
use std::sync::Wait;
use std::thread::Threads;

/// Reads a job, then its plan, runs the plan's workers on threads in this manner, and prints the
/// job's answer as soon as a worker knows it: threads that are kept from going on hold back the
/// return of the call, and not what is printed. Where it is asked for, what became of the
/// processors is found before that, on the plain machine. Where progress is asked for, that is one
/// thread more. Without plan, pace and progress a program's steps are not counted before it is run.
/// Workers whose threads are refused take no part; where the others do not come to the
/// end, that is out of memory.
pub fn run<R: Threads + Wait + Clock + Eprint + Sync, J: Source, P: Source, O: Sink>(
    rt: &R,
    alloc: Global,
    ask: AskRun,
    sources: &mut Sources<J, P>,
    out: &mut O,
) -> Result<RunAnswer, CommandFault>
    requires { AreReady J.Source P.Source O.Sink sources.old out.old }
    ensures { Did (running ask.style ask.manner.workers.count)
        (taking J.Source P.Source sources.old sources.new)
        (writing O.Sink out.old out.new) tells result }
{
    if sources.unplanned && is_straight(ask.manner) {
        return run_unplanned(rt, alloc, ask, sources, out);
    }
    let inputs = take_inputs(alloc, ask.manner.workers, sources)?;
    printed(put_run(rt, alloc, ask, &inputs, out))
}

// Nobody waits, and nobody is told how far the run is.
fn is_straight(manner: Manner) -> bool {
    manner.pace.is_none() && manner.progress == Telling::Silent
}

// Does what `run` does where no plan is named: of a program nobody counts the steps before.
fn run_unplanned<R: Threads + Wait + Clock + Eprint + Sync, J: Source, P: Source, O: Sink>(
    rt: &R,
    alloc: Global,
    ask: AskRun,
    sources: &mut Sources<J, P>,
    out: &mut O,
) -> Result<RunAnswer, CommandFault>
    requires ready { AreReady J.Source P.Source O.Sink sources.old out.old }
    requires unplanned { sources.old.unplanned ≡ true }
    ensures { Did (running ask.style ask.manner.workers.count)
        (taking J.Source P.Source sources.old sources.new)
        (writing O.Sink out.old out.new) tells result }
{
    let unrun = take_unrun(alloc, &mut sources.job, &mut sources.text)?;
    let plan = no_plan(alloc, ask.manner.workers)?;
    match unrun {
        Unrun::Whole(spelled) => {
            let inputs = Inputs { spelled, plan };
            printed(put_run(rt, alloc, ask, &inputs, out))
        }
        Unrun::Drafted(text, draft) => {
            let drafted = Drafted { text, draft, plan };
            match put_drafted(rt, alloc, ask, drafted, out) {
                Ok((_, put)) => printed(put),
                Err(Refused { fault, text }) => {
                    sources.text = Some(text);
                    Err(fault)
                }
            }
        }
    }
}

// Runs a job by its plan, and prints its answer.
fn put_run<R: Threads + Wait + Clock + Eprint + Sync, O: Sink>(
    rt: &R,
    alloc: Global,
    ask: AskRun,
    inputs: &Inputs,
    out: &mut O,
) -> Result<RunAnswer, PrintFault>
    requires output { O.has_failed out.old ≡ false }
    requires names { let read = inputs.now.spelled in
        AreNames read.text.items read.job read.names }
    ensures { let read = inputs.now.spelled in PutsAnswer (Explaining ask.style
        (SomeRunEndsIn read.text.items read.job inputs.now.plan) read.text.items read.job) ⊥
        (writing O.Sink out.old out.new) tells result }
{
    let listener = Printing {
        alloc,
        style: ask.style,
        spelled: &inputs.spelled,
        out,
    };
    let watched = Watched {
        inputs,
        cells: &[],
        rounds: 0,
    };
    let reader = ReadsNothing { listener };
    let (ended, (out, put)) = run_job(rt, alloc, &watched, ask.manner, reader);
    take_back(out);
    outcome(put, ended)
}

/// Does what `run` does, with a reader beside the workers; what each read told is printed before
/// the answer, in order, while the reader goes on: each round as it is read where there is a pace,
/// and else 2,048 reads at once. The cells are judged after the job and its plan, and the reader
/// keeps the workers' pace. Where a thread is refused, it reads once the other workers have come to
/// the end; where they do not, that is out of memory, and nothing is printed.
pub fn watch<R: Threads + Wait + Clock + Eprint + Sync, J: Source, P: Source, O: Sink>(
    rt: &R,
    alloc: Global,
    ask: AskWatch<'_>,
    sources: &mut Sources<J, P>,
    out: &mut O,
) -> Result<RunAnswer, CommandFault>
    requires { AreReady J.Source P.Source O.Sink sources.old out.old }
    ensures { Did (watching ask.entry.manner.workers.count
        (parts_of ask.entry.cells.text.now) ask.entry.rounds)
        (taking J.Source P.Source sources.old sources.new)
        (writing O.Sink out.old out.new) tells result }
{
    let inputs = take_inputs(alloc, ask.manner.workers, sources)?;
    let cells = cells_in(alloc, ask.cells.text(), &inputs.spelled)?;
    let watched = Watched {
        inputs: &inputs,
        cells: cells.as_slice(),
        rounds: ask.rounds,
    };
    printed(put_watch(rt, alloc, &watched, ask.manner, out))
}

// Prints the reads of a watch as they are made, and its answer as soon as it is known.
fn put_watch<R: Threads + Wait + Clock + Eprint + Sync, O: Sink>(
    rt: &R,
    alloc: Global,
    watched: &Watched<'_>,
    manner: Manner,
    out: &mut O,
) -> Result<RunAnswer, PrintFault>
    requires output { O.has_failed out.old ≡ false }
    requires names { let read = watched.now.inputs.now.spelled in
        AreNames read.text.items read.job read.names }
    ensures { let inputs = watched.now.inputs.now in let read = inputs.spelled in
        PutsAnswer (Answering (TellsSights read.names read.job inputs.plan watched.now.cells.now
        watched.now.rounds) read.text.items read.job) ⊤
        (writing O.Sink out.old out.new) tells result }
{
    let reader = PrintingReads {
        alloc,
        spelled: &watched.inputs.spelled,
        out,
        printed: Ok(()),
    };
    let (ended, (out, put)) = run_job(rt, alloc, watched, manner, reader);
    take_back(out);
    outcome(put, ended)
}
