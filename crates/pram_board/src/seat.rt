//! Seats.
use crate::task::View;
use std::marker::Model;

/// The right to use a board, from one thread at a time. Contracts see with it the record of the
/// atomic steps that were made by it; the record takes no memory.
#[derive(Drop)]
pub struct Seat {
    pub(crate) seat: atomic_table::Seat<(), View>,
}

impl Model for Seat {
    ghost use Rattle.std.specs.Prelude.{◌≡◌, true, []};
    ghost use Rattle.lawful_walk.specs.Moments.{Sound};
    ghost use Rattle.pram_board.specs.Seats.{SeatData, coded_seat};

    ghost Value = { SeatData };

    ghost coded = { coded_seat };

    ghost view = { λ s. record {
      desk = record { id = s.seat.table_id; task = s.seat.me.0.task };
      record_of = s.seat.me.0.heard;
    } };

    ghost invariant = { λ s. (s.seat.me.0.live ≡ true) × (s.seat.me.1 ≡ [])
        × Sound s.seat.me.0.task.job s.seat.me.0.task.layout s.seat.me.0.heard };
}

impl Seat {
    ghost use Rattle.lawful_walk.specs.Moments.{Sound};
    ghost use Rattle.pram_board.specs.Seats.{WorkersStayKnown};

    /// What the seat has heard is sound: each part of its record agrees with itself and with the
    /// plain machine. The call does nothing.
    pub fn facts(&self)
        ensures { Sound self.now.desk.task.job self.now.desk.task.layout self.now.record_of }
    {
        // A read of the field brings what the type keeps.
        let _ = &self.seat;
    }

    /// A seat that is later than another one knows each worker that this one knew. The call does
    /// nothing.
    #[tactic(auto, using(crate::proofs::Remembering::still_knows))]
    pub fn workers_stay_known()
        ensures { WorkersStayKnown }
    {}
}
