//! Who reads beside the workers of a run, and hears how it ended.
ghost use Rattle.std.specs.Prelude.{◌≡◌, ◌≤◌, ℕ, List, vec_capacity, vec_len};
ghost use Rattle.pram_board.specs.declared.task.Task.{Task};
ghost use Rattle.pram_board.specs.Seats.{SeatData};
ghost use Rattle.pram_run.specs.Heard.{Ended};
ghost use Rattle.pram_run.specs.Inner.Obeying.{IsContinued};
ghost use Rattle.pram_run.specs.Watching.{most_waiting};

use crate::shared::Shared;
use crate::sight::Sight;
use pram_board::Seat;
use pram_step::RunAnswer;
use std::alloc::AllocError;
use stop_plan::Gate;

/// Hears once how a run ended, maybe while threads of it still go on.
pub trait Listener: Drop {
    type Heard;

    // What it asks for before it hears.
    ghost can_hear: { Self → Type 0 };

    // What comes of it where it heard this.
    ghost hears: { Self → Ended → Self.Heard → Type 0 };

    fn hear(self, ended: &Result<RunAnswer, AllocError>) -> Self::Heard
        requires { can_hear self }
        ensures { hears self ended.now result };
}

/// Who reads beside workers, and then hears how the run ended. A scope says nothing of a `&mut`
/// that its closure holds: a sink is handed in within such a value, and handed back by what it
/// gives when it hears.
pub trait Reads: Listener {
    ghost can_read: { Self → Type 0 };

    // What comes of reading from a seat to a later one, of a task, cells and rounds.
    ghost reads: { Self → Task → List ℕ → ℕ → SeatData → SeatData → Self → Type 0 };

    /// Reads from the seat, and keeps what waits in the list, which has room for it.
    fn read<G: Gate>(self, shared: &Shared<'_, G>, seat: &mut Seat, sights: &mut Vec<Sight>) -> Self
        requires reader { can_read self }
        requires seat { seat.old.desk ≡ shared.now.board.now }
        requires empty { vec_len sights.old ≡ 0 }
        requires room { most_waiting shared.now ≤ vec_capacity sights.old }
        ensures reads { reads self shared.now.board.now.task
            shared.now.cells.now shared.now.rounds seat.old seat.new result }
        ensures goes_on { IsContinued seat.old seat.new }
        ensures can_hear { Self.can_hear result };
}

/// A listener that reads nothing.
#[derive(Drop)]
pub struct ReadsNothing<L> {
    pub listener: L,
}

impl<L: Listener> Listener for ReadsNothing<L> {
    type Heard = L::Heard;

    ghost can_hear = { λ reader. L.can_hear reader.listener };

    ghost hears = { λ reader ended heard. L.hears reader.listener ended heard };

    fn hear(self, ended: &Result<RunAnswer, AllocError>) -> L::Heard {
        self.listener.hear(ended)
    }
}

impl<L: Listener> Reads for ReadsNothing<L> {
    ghost can_read = { λ reader. L.can_hear reader.listener };

    ghost reads = { λ reader _ _ _ before later after. (later ≡ before) × (after ≡ reader) };

    fn read<G: Gate>(
        self,
        _shared: &Shared<'_, G>,
        _seat: &mut Seat,
        _sights: &mut Vec<Sight>,
    ) -> Self {
        self
    }
}
