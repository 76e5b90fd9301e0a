//! Boards with their sizes.
ghost use Rattle.std.specs.Prelude.{◌≡◌, ◌≤◌, IfOk};
ghost use Rattle.pram_board.specs.Seats.{IsOpened};
ghost use Rattle.pram_words.specs.declared.layout.Form.TheVariants.{Wide};
ghost use Rattle.library_boards.specs.Grains.{IsGrainAsked, grain_or_default};

use pram_board::{Board, Seat};
use pram_job::Job;
use std::alloc::{AllocError, Global};

/// A board with its sizes, which all that take part in the work on it keep alive.
#[derive(Drop)]
pub struct Shared {
    pub board: Board,
    pub workers: u32,
    pub cells: u32,
    pub steps: u32,
    pub ghost workers_are: { board.task.layout.workers ≡ workers },
    pub ghost cells_are: { board.task.job.cells ≡ cells },
    pub ghost steps_are: { board.task.job.steps ≡ steps },
}

/// A new board, with blocks of so many processors, or at 0 of as many as the board chooses.
pub(crate) fn new_board(
    alloc: Global,
    job: &Job,
    workers: u32,
    grain: u32,
) -> Result<(Board, Seat), AllocError>
    requires some { 1 ≤ workers }
    requires most { workers ≤ 64 }
    requires grain { IsGrainAsked grain }
    ensures { IfOk result (IsOpened job.now (Wide (grain_or_default grain job.now.procs)) workers) }
{
    if grain == 0 {
        Board::open_wide(alloc, job, workers)
    } else {
        Board::open_with_blocks(alloc, job, workers, grain)
    }
}
