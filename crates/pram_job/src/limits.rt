//! The limits of jobs.

/// How many cells a memory has at most.
pub const MAX_CELLS: u32 = 1_048_576;

/// How many processors there are at most.
pub const MAX_PROCS: u32 = 65_536;

/// How many instructions a job has at most.
pub const MAX_CODE: usize = 4_096;

/// How many registers a processor has.
pub const REGISTERS: u8 = 4;
