//! What a board is about, and what a seat knows.
use pram_job::Job;
use pram_words::Layout;
use walkx::Recorded;

/// A job, and the layout of its board.
#[derive(Drop)]
pub struct Task {
    /// The board's own copy.
    pub job: Job,
    /// That of the job, in the board's form.
    pub layout: Layout,
}

/// What a seat knows: a record of its steps and the task that they are part of; of a seat that was
/// joined to another nothing. It stands in contracts alone: no value of it is ever made.
pub struct View {
    /// Whether the seat was not joined to another.
    pub live: bool,
    /// What the seat's board is about.
    pub task: Task,
    /// The seat's steps with their answers.
    pub heard: Recorded,
}
