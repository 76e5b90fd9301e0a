//! What a board tells at the end of a run.
ghost use Rattle.std.specs.Prelude.{◌≡◌, IfOk};
ghost use Rattle.pram_run.specs.Inner.Hearing.{HasTold};
ghost use Rattle.pram_run.specs.Obeyed.{HasLooked};
ghost use Rattle.pram_step.specs.declared.answer.RunAnswer.{RunAnswer};

use pram_board::{Board, Seat};
use pram_job::Job;
use pram_step::{Cells, RunAnswer};
use std::alloc::{AllocError, Global};

/// The job's answer, as far as the board tells it.
pub(crate) fn answer(
    alloc: Global,
    job: &Job,
    board: &Board,
    seat: &mut Seat,
) -> Result<RunAnswer, AllocError>
    requires job { board.now.task.job ≡ job.now }
    requires seat { seat.old.desk ≡ board.now }
    ensures told { IfOk result (HasTold board.now.task seat.old seat.new) }
    ensures looked { HasLooked seat.old seat.new }
    ensures some { (answer : RunAnswer) × HasTold board.now.task seat.old seat.new answer }
{
    let progress = board.progress(seat);
    if progress.conflict.is_some() {
        let fault = board.fault(alloc, seat);
        seat.facts();
        return Ok(RunAnswer::Conflict(fault?));
    }
    if progress.step < job.steps() {
        seat.facts();
        return Ok(RunAnswer::Unfinished {
            step: progress.step,
        });
    }
    let cells = board.memory(alloc, seat);
    seat.facts();
    Ok(RunAnswer::Final(Cells::new(cells?)))
}
