//! What comes of a script.
use crate::operation::Ended;
use walk_memory::Memo;

/// What comes of a script.
#[derive(Clone, Copy, Debug, PartialEq, Eq)]
pub(crate) enum Next {
    /// The worker begins at this node.
    Begins(u32),
    /// The worker makes a turn at this node in this phase.
    Turns(u32, u64),
    /// The worker enters the block of this leaf in this phase.
    Enters(u32, u64),
    /// At this leaf in this phase it has done the task of the processor of this rank, and knows
    /// this of it.
    Worked(u32, u64, u32, Memo),
    /// The worker is over.
    Stops(Ended),
}
