//! Events, what they show, and what bodies are doing.
use walkx::{Activity, Op};

/// What happens to the body of this number. With a number that no body has, nothing happens.
#[derive(Clone, Copy, Debug, PartialEq, Eq)]
pub enum Event {
    /// It makes one atomic step, unless it is stopped or over.
    Go(usize),
    /// It is stopped, and its private state is lost.
    Stop(usize),
    /// It comes back as the worker of its number, whatever it was.
    Back(usize),
}

/// The atomic step that was made, with the whole word before it and after it; no step, 0 and 0
/// where none was made.
#[derive(Clone, Copy, Debug, PartialEq, Eq)]
pub struct Effect {
    pub op: Option<Op>,
    pub before: u64,
    pub after: u64,
}

/// What a body is doing.
#[derive(Clone, Copy, Debug, PartialEq, Eq)]
pub enum Standing {
    /// It walks as this worker. With no node it stands at the worker's first leaf. It has made so
    /// many atomic steps of the script in progress.
    Walks {
        worker: u32,
        node: Option<u32>,
        activity: Activity,
        heard: u32,
    },
    /// It is stopped, and was this worker.
    Stopped {
        worker: u32,
    },
}
