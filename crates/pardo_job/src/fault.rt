//! Why a program is no job.
ghost use Rattle.std.specs.Prelude.{◌≡◌};
ghost use Rattle.pardo_job.specs.declared.fault.JobKind.TheVariants.{Memory};
ghost use Rattle.pardo_job.specs.declared.fault.Refusal.TheVariants.{Text, Job};

use pardo_text::PardoFault;
use std::alloc::{AllocError, AllocFailed};

/// What is wrong with a line of a program.
#[derive(Clone, Copy, Debug, PartialEq, Eq)]
pub enum JobKind {
    /// Three registers are too few for an expression.
    TooDeep,
    /// The line brings the code to more instructions than a job has at most.
    TooLong,
    /// The program stands at the line after as many steps as are made at most.
    Endless,
    /// Out of memory; the line is 0.
    Memory,
    /// The first line that hidden lines come before: with a variable for each of the most the
    /// program has too many cells.
    TooManyCells,
}

/// The first line of a program that is wrong, as its text counts lines, and what is wrong with it.
#[derive(Clone, Copy, Debug, PartialEq, Eq)]
pub struct JobFault {
    pub line: u64,
    pub kind: JobKind,
}

/// Why a text is refused.
#[derive(Clone, Copy, Debug, PartialEq, Eq)]
pub enum Refusal {
    /// It spells no program.
    Text(PardoFault),
    /// The program is no job.
    Job(JobFault),
}

impl From<AllocError> for JobKind {
    ghost from_gives = { λ _ kind. kind ≡ Memory };

    fn from(_error: AllocError) -> JobKind {
        JobKind::Memory
    }
}

impl<T: Drop> From<AllocFailed<T>> for JobKind {
    ghost from_gives = { λ _ kind. kind ≡ Memory };

    fn from(_failed: AllocFailed<T>) -> JobKind {
        JobKind::Memory
    }
}

impl From<AllocError> for JobFault {
    ghost from_gives = { λ _ fault. fault ≡ record { line = 0; kind = Memory } };

    fn from(_error: AllocError) -> JobFault {
        JobFault {
            line: 0,
            kind: JobKind::Memory,
        }
    }
}

impl<T: Drop> From<AllocFailed<T>> for JobFault {
    ghost from_gives = { λ _ fault. fault ≡ record { line = 0; kind = Memory } };

    fn from(_failed: AllocFailed<T>) -> JobFault {
        JobFault {
            line: 0,
            kind: JobKind::Memory,
        }
    }
}

impl From<PardoFault> for Refusal {
    ghost from_gives = { λ fault refusal. refusal ≡ Text fault };

    fn from(fault: PardoFault) -> Refusal {
        Refusal::Text(fault)
    }
}

impl From<JobFault> for Refusal {
    ghost from_gives = { λ fault refusal. refusal ≡ Job fault };

    fn from(fault: JobFault) -> Refusal {
        Refusal::Job(fault)
    }
}
