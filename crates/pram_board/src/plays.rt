//! The rule of the board, and what each kind of atomic step tells its seat.
use crate::task::{Task, View};
use atomic_table::{Join, Play, Split, TableRule};

/// The words stand, and bear out the record of each seat.
pub(crate) struct Law;

impl TableRule<(), View, Task> for Law {
    ghost use Rattle.pram_board.specs.Rules.{Holds, opened};

    ghost holds = { Holds };

    ghost first = { opened };
}

/// A load is in the record.
pub(crate) struct Loads;

impl Play<(), View> for Loads {
    ghost use Rattle.pram_board.specs.Rules.{Loaded};

    ghost then = { Loaded };
}

/// A store is in the record.
pub(crate) struct Stores;

impl Play<(), View> for Stores {
    ghost use Rattle.pram_board.specs.Rules.{Stored};

    ghost then = { Stored };
}

/// A max is in the record.
pub(crate) struct Raises;

impl Play<(), View> for Raises {
    ghost use Rattle.pram_board.specs.Rules.{RaisedWord};

    ghost then = { RaisedWord };
}

/// A swap is in the record.
pub(crate) struct Swaps;

impl Play<(), View> for Swaps {
    ghost use Rattle.pram_board.specs.Rules.{Swapped};

    ghost then = { Swapped };
}

/// Both seats begin with the record of the one that is split.
pub(crate) struct Shares;

impl Split<View> for Shares {
    ghost left = { λ v. v };

    ghost right = { λ v. v };
}

/// The seat that stays has both records; of the other nothing is known.
pub(crate) struct Unites;

impl Join<View> for Unites {
    ghost use Rattle.pram_board.specs.Rules.{united, idle_view};

    ghost both = { united };

    ghost spent = { idle_view };
}
