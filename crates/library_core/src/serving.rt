//! A command over texts in memory.
ghost use Rattle.std.specs.Prelude.{◌≡◌, IfErr, IfOk};
ghost use Rattle.pram_commands.specs.Line.{command_alone};
ghost use Rattle.library_core.specs.Serving.{IsUndone, PrintsAll, in_memory};

use crate::output::Output;
use command_data::AskAlone;
use pram_commands::{Sources, do_alone};
use pram_streams::FromRead;
use refusals::CommandFault;
use std::alloc::Global;

/// What a command printed, and its status.
#[derive(Drop)]
pub(crate) struct Served {
    pub bytes: Vec<u8>,
    pub status: u8,
}

/// Does what is asked, on a text and a plan in place of files.
pub(crate) fn serve(
    alloc: Global,
    ask: AskAlone,
    text: &[u8],
    plan: &[u8],
) -> Result<Served, CommandFault>
    ensures done { IfOk result (λ served. PrintsAll (command_alone ask) text.now plan.now
        served.bytes.items served.status) }
    ensures undone { IfErr result (IsUndone (command_alone ask) text.now plan.now) }
{
    let mut sources = Sources {
        job: FromRead::new(text),
        plan: FromRead::new(plan),
        text: None,
        unplanned: false,
    };
    let mut output = Output::new(alloc);
    match do_alone(alloc, ask, &mut sources, &mut output) {
        Ok(status) => Ok(Served {
            bytes: output.into_bytes(),
            status,
        }),
        Err(fault) => Err(in_memory(fault)),
    }
}

/// A fault where sources and output lie in memory: a device fails where there is no memory for more
/// alone, and calls name no cells.
pub(crate) fn in_memory(fault: CommandFault) -> CommandFault
    ensures { result ≡ in_memory fault }
{
    match fault {
        CommandFault::JobDevice | CommandFault::PlanDevice | CommandFault::OutDevice => {
            CommandFault::Memory
        }
        CommandFault::OutsideCell { .. } | CommandFault::OutsidePlace { .. } => {
            CommandFault::Memory
        }
        _ => fault,
    }
}
