//! The steps that are shown.
ghost use Rattle.std.specs.Prelude.{◌≤◌};

use pram_job::Job;

/// The steps from one to another, counted from 1, as far as the job has them.
#[derive(Clone, Copy, Debug, PartialEq, Eq)]
pub struct Window {
    pub from: u32,
    pub to: u32,
}

impl Window {
    /// All steps of any job.
    pub const ALL: Window = Window {
        from: 1,
        to: u32::MAX,
    };
}

/// The steps of a job that are shown: those after so many, up to this one.
#[derive(Drop)]
pub(crate) struct Span<'a> {
    pub job: &'a Job,
    pub first: u32,
    pub end: u32,
    pub ghost ordered: { first ≤ end },
    pub ghost within: { end ≤ job.now.steps },
}
