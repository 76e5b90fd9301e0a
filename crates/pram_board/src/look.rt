//! Looks at a board beside its workers.
ghost use Rattle.std.specs.Prelude.{◌≡◌, ◌<◌, ◌^◌, ◌==◌, if◌then◌else◌, Some, None};

use crate::board::Board;
use crate::seat::Seat;
use walkx::{Op, ReadOp, Reader, Reading, seen_step};

/// How far the steps of a board are finished.
#[derive(Clone, Copy, Debug, PartialEq, Eq)]
pub struct Progress {
    /// All steps up to this one are finished.
    pub step: u32,
    /// The step that is against the rule, if it was found already.
    pub conflict: Option<u32>,
}

impl Board {
    ghost use Rattle.std.specs.Prelude.{◌≡◌, ◌<◌, IfSome};
    ghost use Rattle.pram_board.specs.Seats.{HasSeen, IsLater, KnowsConflict, Progressed, WasRead};

    /// The finished step, by one load of the root and then one of word 0. It is no step below those
    /// that the seat has seen.
    pub fn progress(&self, seat: &mut Seat) -> Progress
        requires { seat.old.desk ≡ self.now }
        ensures progressed { Progressed self.now.task seat.old seat.new result }
        ensures knows { HasSeen self.now.task.layout seat.new.record_of result.step }
        ensures conflict { IfSome result.conflict
            (λ step. KnowsConflict self.now.task.layout seat.new.record_of) }
        ensures later { IsLater self.now seat.old seat.new }
    {
        self.facts();
        let root = self.step(seat, Op::Load(self.task.layout.node_word(1)));
        let named = self.step(seat, Op::Load(self.task.layout.conflict_word()));
        Progress {
            step: seen_step(root, named),
            conflict: named_step(named),
        }
    }

    /// What a cell held after a step, which is no step below those that the seat has seen. It takes
    /// at most five loads, whatever other seats do. Once the seat has heard that step t is against
    /// the rule, it is what the cell held after step t - 1.
    pub fn read(&self, seat: &mut Seat, cell: u32) -> Reading
        requires desk { seat.old.desk ≡ self.now }
        requires cell { cell < self.now.task.job.cells }
        ensures read { WasRead self.now.task seat.old seat.new cell result }
        ensures later { IsLater self.now seat.old seat.new }
    {
        self.facts();
        let mut reader = Reader::new(cell);
        loop {
            match reader.ask(&self.task.layout) {
                ReadOp::Over(reading) => return reading,
                ReadOp::Load(word) => {
                    let answer = self.step(seat, Op::Load(word));
                    reader.tell(&self.task.job, &self.task.layout, answer);
                }
            }
        }
    }
}

// The step that word 0 names, if it does.
fn named_step(named: u64) -> Option<u32>
    requires { named < 2 ^ 32 }
    ensures { result ≡ (if named == 0 then None else Some named) }
{
    if named == 0 { None } else { Some(named as u32) }
}
