//! How a job goes on threads.
use crate::block::Block;
use crate::workers::Workers;

/// How standard error is told how far the workers are.
#[derive(Clone, Copy, Debug, PartialEq, Eq)]
pub enum Telling {
    /// Not at all.
    Silent,
    /// By one line after the other.
    Lines,
    /// By one line, which is written anew each time, and wiped at the end.
    OneLine,
}

/// How a job goes on threads: with so many workers; how standard error is told how far they
/// are; the pause before each tick of a worker, in microseconds, where there is one, since else
/// they do not wait; and the board's block, where the board is not to choose it.
#[derive(Clone, Copy, Debug, PartialEq, Eq)]
pub struct Manner {
    pub workers: Workers,
    pub progress: Telling,
    pub pace: Option<u32>,
    pub block: Option<Block>,
}
