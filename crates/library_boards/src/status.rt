//! How a call of another language ended: the statuses of the program.

/// What was asked for is done.
pub const DONE: u32 = 0;

/// The job ended in a conflict.
pub const CONFLICT: u32 = 1;

/// The text is refused.
pub const REFUSED: u32 = 2;

/// Not at the end yet.
pub const UNFINISHED: u32 = 3;

/// The call itself is wrong.
pub const FAILED: u32 = 4;

/// Out of memory.
pub const MEMORY: u32 = 5;
