//! The codes that are told of exercises alone. The others are those of `page_core`.

/// The text spells no exercise.
pub const NO_EXERCISE: u32 = 12;

/// The exercise cannot be judged by: an input of it is bad.
pub const UNFIT: u32 = 13;

/// The submission meets all inputs.
pub const PASSED: u32 = 14;

/// An input is not met.
pub const FAILED: u32 = 15;

/// The exercise has no input in this line.
pub const NO_INPUT: u32 = 16;
