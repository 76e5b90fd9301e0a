//! What the words of a board are.

/// What a word of a board is.
#[derive(Clone, Copy, Debug, PartialEq, Eq)]
pub enum Word {
    /// The step of the conflict, or 0.
    Conflict,
    /// The last phase that is finished below a node.
    Node(u32),
    /// A part of the request of a processor, stamped: 0 is the data place plus 1, or 0 for none; 1
    /// the data value; 2 the next counter.
    Asked(u32, u32),
    /// The node where a worker stands.
    Position(u32),
    /// The first (0) or the second (1) of the two stamped words of a place.
    Stored(u32, u32),
    /// The claims to a cell, stamped.
    Claim(u32),
    /// A word of this number that belongs to nothing, and always holds 0.
    Spare(u32),
}
