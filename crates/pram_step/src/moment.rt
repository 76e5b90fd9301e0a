//! Where a job is after some of its steps.
ghost use Rattle.pram_step.specs.Runs.{IsStateAfter};

use crate::state::State;
use pram_job::Job;

/// A job, and its state after so many steps.
#[derive(Drop)]
pub struct Moment<'a> {
    pub job: &'a Job,
    pub state: &'a State,
    pub made: u32,
    pub ghost after: { IsStateAfter job.now made state.now },
}
