//! Limits of what is compiled.

/// How many steps are made at most to find out when a program is over.
pub const MAX_STEPS: u32 = 1_048_576;

/// How many steps of processors these are at most: 2^30.
pub const MAX_WORK: u32 = 1_073_741_824;
