//! The limits of programs.

/// How many cells the variables, loops and masks of a program have at most.
pub const MAX_CELLS: u32 = 1_048_576;

/// How many processors there are at most.
pub const MAX_PROCS: u32 = 65_536;

/// How many brackets are open at once at most.
pub const MAX_OPEN: usize = 32;
