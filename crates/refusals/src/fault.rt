//! Why a command was not done.
ghost use Rattle.std.specs.Prelude.{◌≡◌};
ghost use Rattle.refusals.specs.declared.fault.CommandFault.TheVariants.{Memory};

use pardo_job::Refusal;
use pram_text::TextKind;
use std::alloc::AllocError;
use stop_plan::PlanKind;

/// Why a command was not done.
#[derive(Clone, Copy, Debug, PartialEq, Eq)]
pub enum CommandFault {
    /// The job's text spells no job. The kind is never `Memory`.
    Text { line: u64, kind: TextKind },
    /// The job's text is a program that is refused. The kind is never `Memory`.
    Program(Refusal),
    /// The plan's text spells no plan. The kind is never `Memory`.
    Plan { row: u64, kind: PlanKind },
    /// The job has no such cell, which is the first of its kind that a watch names.
    OutsideCell { cell: u32 },
    /// The part of this number of what a watch names, counted from 0, is no place of the program;
    /// it is the first of its kind.
    OutsidePlace { at: usize },
    /// The job has no such step, with which the window of a `steps` begins.
    OutsideStep { step: u32 },
    /// The job's source failed.
    JobDevice,
    /// The plan's source failed.
    PlanDevice,
    /// The sink failed.
    OutDevice,
    /// The job's source has more than `MOST` bytes.
    JobTooLarge,
    /// The plan's source has more than `MOST` bytes.
    PlanTooLarge,
    /// Out of memory.
    Memory,
}

impl From<AllocError> for CommandFault {
    ghost from_gives = { λ _ made. made ≡ Memory };

    fn from(_error: AllocError) -> CommandFault {
        CommandFault::Memory
    }
}
