//! Why a text is no job.
ghost use Rattle.std.specs.Prelude.{◌≡◌};
ghost use Rattle.pram_text.specs.declared.fault.TextKind.TheVariants.{Memory};

use std::alloc::{AllocError, AllocFailed};

/// What is wrong with a line.
#[derive(Clone, Copy, Debug, PartialEq, Eq)]
pub enum TextKind {
    /// A byte of the line is not allowed.
    NotAscii,
    /// A header line is wrong, missing or repeated.
    BadHeader,
    /// A word that must be a number is not all digits.
    BadNumber,
    /// A number is outside its limits, or a start value has no cell.
    OutOfLimits,
    /// No lawful label and no name of an instruction stands where one must.
    UnknownInstruction,
    /// The number of operands is wrong.
    WrongOperands,
    /// An operand that must be a register is none of `r0` to `r3`; or, in version 3, one that must
    /// be a register or a number is neither, or one that must name an array names none.
    BadRegister,
    /// An earlier line defined the label.
    DuplicateLabel,
    /// No line defines the label of a jump.
    UnknownLabel,
    /// No instruction follows the line `code`.
    NoCode,
    /// 4,096 instructions stand before the line.
    TooLong,
    /// Out of memory; the line is 0.
    Memory,
}

/// The first bad line of a text, counted from 1, and what is wrong with it.
#[derive(Clone, Copy, Debug, PartialEq, Eq)]
pub struct TextFault {
    pub line: u64,
    pub kind: TextKind,
}

impl From<AllocError> for TextKind {
    ghost from_gives = { λ _ kind. kind ≡ Memory };

    fn from(_error: AllocError) -> TextKind {
        TextKind::Memory
    }
}

impl<T: Drop> From<AllocFailed<T>> for TextKind {
    ghost from_gives = { λ _ kind. kind ≡ Memory };

    fn from(_failed: AllocFailed<T>) -> TextKind {
        TextKind::Memory
    }
}

impl From<AllocError> for TextFault {
    ghost from_gives = { λ _ fault. fault ≡ record { line = 0; kind = Memory } };

    fn from(_error: AllocError) -> TextFault {
        TextFault {
            line: 0,
            kind: TextKind::Memory,
        }
    }
}

impl<T: Drop> From<AllocFailed<T>> for TextFault {
    ghost from_gives = { λ _ fault. fault ≡ record { line = 0; kind = Memory } };

    fn from(_failed: AllocFailed<T>) -> TextFault {
        TextFault {
            line: 0,
            kind: TextKind::Memory,
        }
    }
}
