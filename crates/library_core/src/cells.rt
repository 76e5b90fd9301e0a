//! The final memory, in numbers.
ghost use Rattle.std.specs.Prelude.{[], IfErr, IfOk};
ghost use Rattle.library_core.specs.Calls.{IsCall};
ghost use Rattle.library_core.specs.Cells.{AreCells, IsTextsAnswer, MeansNoJob};
ghost use Rattle.library_core.specs.Serving.{IsUndone};
ghost use Rattle.pram_commands.specs.Plain.{checking};

use crate::answer::Answer;
use crate::serving::in_memory;
use crate::telling::{refuse, show};
use pram_commands::take_answer;
use pram_step::RunAnswer;
use pram_streams::FromRead;
use refusals::{CONFLICT, CommandFault, DONE};
use std::alloc::Global;

/// Puts the cells after the last step of a text's job to the front of the buffer, as many as there
/// is room for, and gives the status. A conflict has none. The time is that of running the job.
pub fn tell_cells(alloc: Global, text: &[u8], cells: &mut [u32], answer: &mut Answer) -> u32
    ensures { IsCall (AreCells text.now) (MeansNoJob text.now) cells.old cells.new answer.old
        answer.new result }
{
    match answer_of(alloc, text) {
        Ok(RunAnswer::Final(found)) => show(found.as_slice(), DONE, cells, answer),
        Ok(RunAnswer::Conflict(_)) => show(&[], CONFLICT, cells, answer),
        Ok(RunAnswer::Unfinished { .. }) => unreachable!(),
        Err(fault) => refuse(alloc, fault, text, answer),
    }
}

fn answer_of(alloc: Global, text: &[u8]) -> Result<RunAnswer, CommandFault>
    ensures answer { IfOk result (IsTextsAnswer text.now) }
    ensures undone { IfErr result (IsUndone checking text.now []) }
{
    match take_answer(alloc, &mut FromRead::new(text)) {
        Ok(answer) => Ok(answer),
        Err(fault) => Err(in_memory(fault)),
    }
}
