//! The work of a line.
ghost use Rattle.std.specs.Prelude.{◌≡◌, ◌⊎◌, false, IfOk, IfErr};
ghost use Rattle.naming.specs.Writing.{writing};
ghost use Rattle.refusals.specs.Faults.{fault_status};
ghost use Rattle.pram_commands.specs.Inputs.{AreReady, reading};
ghost use Rattle.command_data.specs.declared.line.Ask.TheVariants.{Alone};
ghost use Rattle.pram_commands.specs.Served.{Served};

use crate::commands::{do_alone, do_on_threads};
use crate::sources::{Console, Sources};
use command_data::{Ask, AskAlone, Line};
use pram_streams::{Sink, Source};
use refusals::{CommandFault, Explanation, MEMORY, Reasons, tell_fault, tell_notes};
use std::alloc::Global;
use std::rt::Clock;
use std::sync::Wait;
use std::thread::Threads;

/// Does what the line asks, and answers the exit status. The job and the plan come from the sources
/// in place of the line's files; where the line names no plan, that source has no bytes. Refusals
/// are told on the console's `err`, and how far a run is on the runtime's standard error; where
/// either fails, the status stays. It waits for threads at `run` and `watch` alone: `serve_alone`
/// does the others.
pub fn serve<R: Threads + Wait + Clock + Eprint + Sync, J: Source, P: Source, O: Sink, E: Sink>(
    rt: &R,
    alloc: Global,
    line: &Line<'_>,
    sources: &mut Sources<J, P>,
    console: &mut Console<O, E>,
) -> u8
    requires ready { AreReady J.Source P.Source O.Sink sources.old console.old.out }
    requires err { E.has_failed console.old.err ≡ false }
    ensures { Served line.now (reading J.Source P.Source sources.old sources.new)
        (writing O.Sink console.old.out console.new.out) result }
{
    match line.ask {
        Ask::Alone(ask) => serve_alone(alloc, line, ask, sources, console),
        Ask::OnThreads(ask) => {
            let done = do_on_threads(rt, alloc, ask, sources, &mut console.out);
            status_after(alloc, line, done, hints_of(sources), console)
        }
    }
}

/// Does what `serve` does where the thread that calls is asked alone, and always returns.
pub fn serve_alone<J: Source, P: Source, O: Sink, E: Sink>(
    alloc: Global,
    line: &Line<'_>,
    ask: AskAlone,
    sources: &mut Sources<J, P>,
    console: &mut Console<O, E>,
) -> u8
    requires alone { line.now.ask ≡ Alone ask }
    requires ready { AreReady J.Source P.Source O.Sink sources.old console.old.out }
    requires err { E.has_failed console.old.err ≡ false }
    ensures { Served line.now (reading J.Source P.Source sources.old sources.new)
        (writing O.Sink console.old.out console.new.out) result }
{
    let done = do_alone(alloc, ask, sources, &mut console.out);
    status_after(alloc, line, done, hints_of(sources), console)
}

// What sources tell of a line that was served, or was not.
#[derive(Clone, Copy)]
struct Hints<'a> {
    reasons: Reasons,
    text: &'a [u8],
}

fn hints_of<J: Source, P: Source>(sources: &Sources<J, P>) -> Hints<'_> {
    Hints {
        reasons: Reasons {
            job: sources.job.reason(),
            plan: sources.plan.reason(),
        },
        text: match &sources.text {
            Some(text) => text.as_slice(),
            None => b"",
        },
    }
}

// The status of what was done, or of its refusal, which is told.
fn status_after<O: Sink, E: Sink>(
    alloc: Global,
    line: &Line<'_>,
    done: Result<u8, CommandFault>,
    hints: Hints<'_>,
    console: &mut Console<O, E>,
) -> u8
    requires { E.has_failed console.old.err ≡ false }
    ensures done { IfOk done (λ status. result ≡ status) }
    ensures told { IfErr done (λ fault. (result ≡ MEMORY) ⊎ (result ≡ fault_status fault)) }
    ensures out { console.new.out ≡ console.old.out }
{
    let fault = match done {
        Ok(status) => {
            if console.notes {
                tell_notes(alloc, line, hints.text, console.look, &mut console.err);
            }
            return status;
        }
        Err(fault) => fault,
    };
    let explanation = Explanation {
        line: *line,
        fault,
        reasons: hints.reasons,
        text: hints.text,
    };
    let look = if console.explains {
        Some(console.look)
    } else {
        None
    };
    tell_fault(alloc, &explanation, look, &mut console.err)
}
