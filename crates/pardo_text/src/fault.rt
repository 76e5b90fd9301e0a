//! Why a text is no program.
ghost use Rattle.std.specs.Prelude.{◌≡◌};
ghost use Rattle.pardo_text.specs.declared.fault.PardoKind.TheVariants.{Memory};

use std::alloc::{AllocError, AllocFailed};

/// The first bad line of a text, counted from 1, and what is wrong with it.
#[derive(Clone, Copy, Debug, PartialEq, Eq)]
pub struct PardoFault {
    pub line: u64,
    pub kind: PardoKind,
}

/// What is wrong with a line.
#[derive(Clone, Copy, Debug, PartialEq, Eq)]
pub enum PardoKind {
    /// A byte of the line is not allowed.
    NotAscii,
    /// A character begins no token.
    BadSymbol,
    /// A header line is wrong, missing or repeated.
    BadHeader,
    /// The line has none of the forms that it may have.
    BadLine,
    /// A name is used that is not known here.
    UnknownName,
    /// A name is declared that is known here.
    DuplicateName,
    /// A name is used where one of its kind must not stand.
    WrongKind,
    /// A number is outside its limits, or a divisor is 0.
    OutOfLimits,
    /// An array is given too many values, or too few without `...`.
    WrongLength,
    /// The line brings the cells to more than 65,536.
    TooManyCells,
    /// An `else` or `end` belongs to nothing.
    BadBlock,
    /// More than 32 brackets are open.
    TooDeep,
    /// The text ends, and a block is open.
    OpenBlock,
    /// The text ends without a line of code.
    NoCode,
    /// Out of memory; the line is 0.
    Memory,
}

impl<T: Drop> From<AllocFailed<T>> for PardoKind {
    ghost from_gives = { λ _ kind. kind ≡ Memory };

    fn from(_failed: AllocFailed<T>) -> PardoKind {
        PardoKind::Memory
    }
}

impl From<AllocError> for PardoKind {
    ghost from_gives = { λ _ kind. kind ≡ Memory };

    fn from(_error: AllocError) -> PardoKind {
        PardoKind::Memory
    }
}
