//! Atomic steps.

/// How a worker ended.
#[derive(Clone, Copy, Debug, PartialEq, Eq)]
pub enum Ended {
    /// The last step is finished.
    Done,
    /// This step is against the rule.
    Conflict(u32),
}

/// Which script of a worker is in progress.
#[derive(Clone, Copy, Debug, PartialEq, Eq)]
pub enum Activity {
    /// It comes back, and loads its own position.
    Back,
    /// It begins, and looks for the phase.
    Begin,
    /// It makes a turn in this phase.
    Turn(u64),
    /// In this phase it does the task of the processor of this rank in its leaf's block, in the
    /// wide form, or marks the leaf, the rank being that after the last one's.
    Part(u64, u32),
    /// It is over.
    Over(Ended),
}

/// What a worker asks of the words: one atomic step on the word of this number, or nothing more.
#[derive(Clone, Copy, Debug, PartialEq, Eq)]
pub enum Op {
    /// The word is heard.
    Load(u32),
    /// The word becomes this.
    Store(u32, u64),
    /// The word becomes this if it is less; the word before is heard.
    Max(u32, u64),
    /// If the word is the first of the two, it becomes the second; the word before is heard.
    Swap(u32, u64, u64),
    /// The worker is over.
    Over(Ended),
}

/// What a reader asks of the words.
#[derive(Clone, Copy, Debug, PartialEq, Eq)]
pub enum ReadOp {
    /// The word is heard.
    Load(u32),
    /// The reader is over.
    Over(Reading),
}

/// What a reader answers.
#[derive(Clone, Copy, Debug, PartialEq, Eq)]
pub enum Reading {
    /// The cell holds this value after this step.
    At { step: u32, value: u32 },
}
