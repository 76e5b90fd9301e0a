//! What is said of a submission, and of an exercise that cannot be judged by.
ghost use Rattle.std.specs.Prelude.{◌≡◌, ◌⊎◌, false};
ghost use Rattle.exercise_judge.specs.Verdicts.{IsCertain};
ghost use Rattle.exercise_judge.specs.Wrongs.{IsNoMemory};
ghost use Rattle.exercise_judge.specs.declared.verdict.Wrong.TheVariants.{Memory, Program};

use pardo_job::{JobFault, JobKind, Refusal};
use pardo_text::{PardoFault, PardoKind};
use pram_cost::{Pram, Sharing};
use std::alloc::{AllocError, AllocFailed};

/// What bounds a submission.
#[derive(Clone, Copy, Debug, PartialEq, Eq)]
pub enum Bar {
    Time,
    Operations,
    Steps,
    Lines,
}

/// The first thing that is wrong with a submission under an input. Lines are those of its text,
/// counted from 1; a place is told as an answer tells it, `A[3]`, and is empty where the cell is no
/// array's.
#[derive(Debug, Drop)]
pub enum Wrong {
    /// It does not have this line of the exercise.
    Missing(Vec<u8>),
    /// It is no program, or one that is no job; or it never ends.
    Program(Refusal),
    /// Two processors write to one place against the rule.
    Conflict {
        line: u64,
        place: Vec<u8>,
        first: u32,
        second: u32,
    },
    /// A place holds another value at the end than the one that is wanted.
    Value {
        place: Vec<u8>,
        held: u32,
        wanted: u32,
    },
    /// It takes more than is allowed.
    Bar {
        bar: Bar,
        took: u64,
        most: u64,
    },
    /// It needs a stronger model than is allowed: two processors meet so at a place first.
    Model {
        needs: Pram,
        allowed: Pram,
        sharing: Sharing,
        line: u64,
        place: Vec<u8>,
        first: u32,
        second: u32,
    },
    /// A processor is gone: the least of those that are, and in which line it left.
    Gone {
        processor: u32,
        line: u64,
    },
    /// A wanted name has another number of places at the end: none where nothing has this name.
    Places {
        name: Vec<u8>,
        has: u64,
        wanted: u64,
    },
    /// Out of memory.
    Memory,
}

/// What is said of a submission.
#[derive(Debug, Drop)]
pub enum Verdict {
    Passed,
    /// The input, counted from 1, whether it is hidden, and what is wrong.
    Failed {
        input: usize,
        hidden: bool,
        wrong: Wrong,
    },
}

/// Why an exercise cannot be judged by: the line of the input, and what is wrong with it.
#[derive(Debug, Drop)]
pub struct Unfit {
    pub line: u64,
    pub kind: UnfitKind,
}

/// What is wrong with an input.
#[derive(Debug, Drop)]
pub enum UnfitKind {
    /// The header as it is set is bad in this line, as the part counts lines.
    Given(PardoFault),
    /// The wanted values are bad.
    Answer(PardoFault),
    /// A bar has no value.
    Bar(PardoFault),
    /// The reference is no program, or one that is no job, or never ends; its lines are counted
    /// after those of the header.
    Reference(Refusal),
    /// The reference ends in a conflict.
    Conflict,
    /// A word of the input sets no name that the header declares, or no array or scalar has this
    /// wanted name.
    Unknown(Vec<u8>),
    /// The reference ends with other values than the input says.
    Contradiction,
    /// Out of memory.
    Memory,
}

impl From<AllocError> for Wrong {
    ghost from_gives = { λ _ wrong. wrong ≡ Memory };

    fn from(_error: AllocError) -> Wrong {
        Wrong::Memory
    }
}

impl<T: Drop> From<AllocFailed<T>> for Wrong {
    ghost from_gives = { λ _ wrong. wrong ≡ Memory };

    fn from(_failed: AllocFailed<T>) -> Wrong {
        Wrong::Memory
    }
}

impl From<AllocError> for UnfitKind {
    ghost use Rattle.exercise_judge.specs.declared.verdict.UnfitKind.TheVariants.{Memory};

    ghost from_gives = { λ _ kind. kind ≡ Memory };

    fn from(_error: AllocError) -> UnfitKind {
        UnfitKind::Memory
    }
}

impl<T: Drop> From<AllocFailed<T>> for UnfitKind {
    ghost use Rattle.exercise_judge.specs.declared.verdict.UnfitKind.TheVariants.{Memory};

    ghost from_gives = { λ _ kind. kind ≡ Memory };

    fn from(_failed: AllocFailed<T>) -> UnfitKind {
        UnfitKind::Memory
    }
}

/// What a refusal of a submission's text says: out of memory it says nothing of the text.
pub(crate) fn wrong_of(refusal: Refusal) -> Wrong
    ensures certain { IsCertain result → result ≡ Program refusal }
    ensures wrong { (result ≡ Memory) ⊎ ((result ≡ Program refusal) × IsNoMemory refusal) }
{
    if is_memory(refusal) {
        Wrong::Memory
    } else {
        Wrong::Program(refusal)
    }
}

/// Whether a refusal says only that memory ran out.
pub(crate) fn is_memory(refusal: Refusal) -> bool
    ensures { result ≡ false → IsNoMemory refusal }
{
    match refusal {
        Refusal::Text(PardoFault { kind, .. }) => kind == PardoKind::Memory,
        Refusal::Job(JobFault { kind, .. }) => kind == JobKind::Memory,
    }
}
