//! Why a text is no exercise.
ghost use Rattle.std.specs.Prelude.{◌≡◌};
ghost use Rattle.exercise_text.specs.declared.fault.ExerciseKind.TheVariants.{Memory};

use crate::key::Key;
use std::alloc::{AllocError, AllocFailed};

/// A line of a text, counted from 1, and what is wrong with it. What a text lacks is a fault of its
/// last line.
#[derive(Clone, Copy, Debug, PartialEq, Eq)]
pub struct ExerciseFault {
    pub line: u64,
    pub kind: ExerciseKind,
}

/// What is wrong with a line.
#[derive(Clone, Copy, Debug, PartialEq, Eq)]
pub enum ExerciseKind {
    /// A byte of the line is not allowed.
    NotAscii,
    /// The first line is not `exercise 1`.
    BadHeader,
    /// The line begins with no word of an exercise.
    UnknownKey,
    /// The line is not what its first word asks for, or is indented and belongs to no part.
    BadLine,
    /// Something stands a second time that may stand once.
    Duplicate,
    /// The text ends without this.
    Missing(Key),
    /// An input says nothing of what is wanted, and there is no reference.
    NoAnswer,
    /// Out of memory; the line is 0.
    Memory,
}

impl<T: Drop> From<AllocFailed<T>> for ExerciseKind {
    ghost from_gives = { λ _ kind. kind ≡ Memory };

    fn from(_failed: AllocFailed<T>) -> ExerciseKind {
        ExerciseKind::Memory
    }
}

impl From<AllocError> for ExerciseKind {
    ghost from_gives = { λ _ kind. kind ≡ Memory };

    fn from(_error: AllocError) -> ExerciseKind {
        ExerciseKind::Memory
    }
}
