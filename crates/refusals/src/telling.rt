//! What is told of a fault of a line.
ghost use Rattle.std.specs.Prelude.{◌≡◌, ◌≢◌, ◌⊎◌, false};
ghost use Rattle.refusals.specs.Faults.{fault_status};
ghost use Rattle.refusals.specs.Inner.Named.{fault_names, named_in};
ghost use Rattle.refusals.specs.Refusals.{refusal_status};
ghost use Rattle.refusals.specs.declared.fault.CommandFault.TheVariants.{Memory};

use crate::explanation::{Explanation, explain};
use crate::fault::CommandFault;
use crate::refusal::{MEMORY, Refusal, tell_first};
use command_data::Line;
use pardo_explain::Look;
use pram_streams::Sink;
use std::alloc::Global;

/// Tells why a line was not done, and where a look is given a sentence after that, which has this
/// look, and gives the status. Where there is no memory to tell it, it tells that. Where the sink
/// fails, the status stays.
pub fn tell_fault<E: Sink>(
    alloc: Global,
    explanation: &Explanation<'_>,
    explains: Option<Look>,
    err: &mut E,
) -> u8
    requires { E.has_failed err.old ≡ false }
    ensures { (result ≡ MEMORY) ⊎ (result ≡ fault_status explanation.now.fault) }
{
    let Explanation {
        line,
        fault,
        reasons,
        text,
    } = *explanation;
    let (status, takes) = tell_first(alloc, refusal_of(&line, fault), err);
    if takes && let Some(look) = explains {
        let told = Explanation {
            line,
            fault: told_of(fault, status),
            reasons,
            text,
        };
        explain(alloc, &told, look, err);
    }
    status
}

// The fault that was told with this status: where there was no memory to tell another one, that.
fn told_of(fault: CommandFault, status: u8) -> CommandFault
    ensures memory { status ≡ MEMORY → result ≡ Memory }
    ensures told { status ≢ MEMORY → result ≡ fault }
{
    if status == MEMORY {
        return CommandFault::Memory;
    }
    fault
}

// What is told of a fault of a line.
fn refusal_of<'a>(line: &Line<'a>, fault: CommandFault) -> Refusal<'a>
    ensures status { refusal_status result ≡ fault_status fault }
    ensures names { named_in result ≡ fault_names line.now fault }
{
    match fault {
        CommandFault::Text { line, kind } => Refusal::Text { line, kind },
        CommandFault::Program(refusal) => Refusal::Program(refusal),
        CommandFault::Plan { row, kind } => Refusal::Plan { row, kind },
        CommandFault::OutsideCell { cell } => Refusal::Cell(cell),
        CommandFault::OutsidePlace { at } => Refusal::Place(line.ask.place(at)),
        CommandFault::OutsideStep { step } => Refusal::Step(step),
        CommandFault::JobDevice => Refusal::File(line.file),
        CommandFault::PlanDevice => Refusal::File(line.plan.unwrap_or("")),
        CommandFault::OutDevice => Refusal::Output,
        CommandFault::JobTooLarge => Refusal::Size(line.file),
        CommandFault::PlanTooLarge => Refusal::Size(line.plan.unwrap_or("")),
        CommandFault::Memory => Refusal::Memory,
    }
}
