//! How the job of a program ends, and in which lines of the program's text.
use pram_step::RunAnswer;

/// In which lines of a program's text its job ended. Lines count from 1.
#[derive(Debug, Drop)]
pub struct Lines {
    /// The line in which each processor left by an index out of range, if it did.
    pub gone: Vec<Option<u64>>,
    /// The line of the conflict, or 0.
    pub disputed: u64,
}

/// How a job ended, and in which lines.
#[derive(Debug, Drop)]
pub struct Ended {
    pub answer: RunAnswer,
    pub lines: Lines,
}
