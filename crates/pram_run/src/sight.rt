//! What a reader beside the workers saw.

/// What a cell holds after a step.
#[derive(Clone, Copy, Debug, PartialEq, Eq)]
pub struct Sight {
    /// The cell.
    pub cell: u32,
    /// The step, which is finished.
    pub step: u32,
    /// What the cell holds after it.
    pub value: u32,
}
