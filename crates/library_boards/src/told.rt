//! What is told of a member, in numbers.

/// How far the steps are finished, of how many; the step that is against the rule, or 0 where none
/// is known; and how many cells there are.
#[repr(C)]
#[derive(Clone, Copy)]
pub struct ProgressTold {
    pub step: u32,
    pub steps: u32,
    pub conflict: u32,
    pub cells: u32,
}

/// What a cell held after a step.
#[repr(C)]
#[derive(Clone, Copy)]
pub struct ReadingTold {
    pub step: u32,
    pub value: u32,
}

/// The first step that is against the rule, the least cell that is disputed in it, and its two
/// processors.
#[repr(C)]
#[derive(Clone, Copy)]
pub struct FaultTold {
    pub step: u32,
    pub cell: u32,
    pub first: u32,
    pub second: u32,
}

/// After which step all processors had stopped.
#[repr(C)]
#[derive(Clone, Copy)]
pub struct StopTold {
    pub step: u32,
}
