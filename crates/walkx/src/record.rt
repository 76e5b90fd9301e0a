//! What a seat remembers.
use std::marker::Model;

/// A record of atomic steps with their answers. It stands in contracts and views alone: no value of
/// it is ever made.
pub struct Recorded {
    never: u8,
}

impl Model for Recorded {
    ghost use Rattle.walkx.specs.Records.{Record, empty};
    ghost use Rattle.walkx.specs.Codes.{coded_record};

    ghost Value = { Record };

    ghost coded = { coded_record };

    ghost view = { λ _. empty };
}
