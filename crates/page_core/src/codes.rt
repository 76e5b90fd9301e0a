//! The codes of what is told.
ghost use Rattle.std.specs.Prelude.{◌≡◌};
ghost use Rattle.page_core.specs.Texts.{coded};

/// How a call ended: what is told begins with its code, and with the kind and the line of a fault.
#[repr(C)]
#[derive(Clone, Copy)]
pub struct Status {
    pub code: u32,
    pub fault: u32,
    pub line: u64,
}

/// A code alone.
pub(crate) fn coded(code: u32) -> Status
    ensures { result ≡ coded code }
{
    Status {
        code,
        fault: 0,
        line: 0,
    }
}

/// The status where it is told.
pub(crate) const TOLD: Status = Status {
    code: DONE,
    fault: 0,
    line: 0,
};

/// What was asked for is told.
pub const DONE: u32 = 0;

/// The text bears a fault.
pub const NO_JOB: u32 = 1;

/// Out of memory.
pub const MEMORY: u32 = 2;

/// The text has more than `TEXT_MOST` bytes.
pub const TEXT_TOO_LONG: u32 = 3;

/// A buffer is too small for what is to be told.
pub const NO_ROOM: u32 = 4;

/// A step is against the rule.
pub const CONFLICT: u32 = 5;

/// The last step is not finished.
pub const UNFINISHED: u32 = 6;

/// The job has no such step.
pub const NO_STEP: u32 = 7;

/// More steps would have to be made than the caller allows.
pub const TOO_FAR: u32 = 8;

/// There is no board for so many workers.
pub const BAD_WORKERS: u32 = 9;

/// An event is unknown.
pub const BAD_EVENT: u32 = 10;

/// The text is none of the language that was asked for.
pub const OTHER_LANGUAGE: u32 = 11;

/// How many bytes a text has at most.
pub const TEXT_MOST: usize = 16_777_216;

/// How many workers a board has at most.
pub const WORKERS_MOST: u32 = 64;

// What cells are for.

/// A shared variable.
pub const SCALAR: u64 = 0;

/// A shared array.
pub const ARRAY: u64 = 1;

/// A private variable.
pub const PRIVATE: u64 = 2;

/// The variable of a loop.
pub const LOOP: u64 = 3;

/// Which processors are in an `if`.
pub const MASK: u64 = 4;

/// A part of a long line.
pub const KEPT: u64 = 5;
