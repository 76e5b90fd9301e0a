//! A whole run, and its answer.
ghost use Rattle.std.specs.Prelude.{◌≡◌, IfOk};
ghost use Rattle.pram_step.specs.Runs.{IsOutcome, IsAnswer};
ghost use Rattle.pram_step.specs.declared.run.Outcome.TheVariants.{Conflict};

use crate::answer::{Fault, RunAnswer};
use crate::state::State;
use crate::walks::{Nobody, Walked, walk};
use pram_job::Job;
use std::alloc::{AllocError, Global};

/// How the plain machine ended.
#[derive(Debug, Drop)]
pub enum Outcome {
    /// All steps were made, and lead to this state.
    Final(State),
    /// This step, counted from 1, is the first that is against the rule. Its least disputed cell,
    /// and two processors.
    Conflict {
        step: u32,
        cell: u32,
        first: u32,
        second: u32,
    },
}

impl From<Fault> for Outcome {
    ghost from_gives = { λ f outcome. outcome ≡ Conflict f.step f.cell f.first f.second };

    fn from(fault: Fault) -> Self {
        Outcome::Conflict {
            step: fault.step,
            cell: fault.cell,
            first: fault.first,
            second: fault.second,
        }
    }
}

/// Runs the job on the plain machine, processor after processor and step after step.
///
/// It takes memory once. A step costs time in the number of processors that have not stopped, and
/// once one changes nothing the outcome is there at once, whatever number of steps is left.
pub fn run_plain(alloc: Global, job: &Job) -> Result<Outcome, AllocError>
    ensures { IfOk result (IsOutcome job.now) }
{
    match walk(alloc, job, job.steps(), &mut Nobody)? {
        Walked::Through(state) => Ok(Outcome::Final(state)),
        Walked::Disputed(fault) => Ok(Outcome::from(fault)),
    }
}

/// The answer of the job: the cells after its last step, or its first conflict. It costs what
/// `run_plain` does.
pub fn plain_answer(alloc: Global, job: &Job) -> Result<RunAnswer, AllocError>
    ensures { IfOk result (IsAnswer job.now) }
{
    match walk(alloc, job, job.steps(), &mut Nobody)? {
        Walked::Through(state) => Ok(RunAnswer::Final(state.into_cells(job))),
        Walked::Disputed(fault) => Ok(RunAnswer::Conflict(fault)),
    }
}
