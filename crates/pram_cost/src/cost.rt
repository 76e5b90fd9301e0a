//! What a run costs.
ghost use Rattle.std.specs.Prelude.{◌≡◌, ℕ, ◌+◌, ◌*◌, length, IfOk};
ghost use Rattle.pram_cost.specs.Costs.{IsCost, IsCostOf, IsLength};
ghost use Rattle.pram_cost.specs.Tallies.{HasCounted};
ghost use Rattle.pram_cost.specs.Models.{IsWeakestModel};
ghost use Rattle.pram_job.specs.Job.{JobData};
ghost use Rattle.pram_step.specs.Walks.{IsWalked, begun};

use crate::found::Accesses;
use crate::meeting::Meetings;
use crate::moment::Moment;
use crate::pram::Pram;
use crate::work::Work;
use pram_job::Job;
use pram_step::{Fault, Observer, Sight, Walked, walk};
use std::alloc::{AllocError, Global};

/// What a run costs: all steps of a job, or those up to its first conflict, that one counted too.
#[derive(Clone, Copy, Debug, PartialEq, Eq)]
pub struct Cost {
    /// How many steps the run has.
    pub steps: u32,
    /// How many processors there are.
    pub procs: u32,
    /// What the steps do.
    pub work: Work,
    /// Where processors first meet at a cell.
    pub meetings: Meetings,
    /// The conflict in the last of these steps, if the run ends with one.
    pub conflict: Option<Fault>,
}

impl Cost {
    /// Steps times processors.
    pub fn product(&self) -> u64
        ensures { result ≡ self.now.steps * self.now.procs }
    {
        u64::from(self.steps) * u64::from(self.procs)
    }

    /// The weakest model of the PRAM that accepts all steps of the run.
    pub fn needs(&self) -> Pram
        ensures { (job : JobData) → IsCost job self.now → IsWeakestModel job self.now.steps result }
    {
        if self.meetings.other_value.is_some() {
            Pram::PriorityCrcw
        } else if self.meetings.same_write.is_some() {
            Pram::CommonCrcw
        } else if self.meetings.same_read.is_some() {
            Pram::Crew
        } else {
            Pram::Erew
        }
    }

    // That of no step.
    fn of_no_step(job: &Job) -> Cost
        ensures { IsCostOf job.now 0 result }
    {
        Cost {
            steps: 0,
            procs: job.procs(),
            work: Work::NONE,
            meetings: Meetings::NONE,
            conflict: None,
        }
    }

    // That after the steps that come next.
    fn after(self, moment: &Moment<'_>, marks: &mut [u32]) -> Cost
        requires cost { IsCostOf moment.now.sight.job.now moment.now.sight.made self }
        requires marks { length marks.old ≡ moment.now.sight.job.now.cells }
        ensures { IsCostOf moment.now.sight.job.now
            (moment.now.sight.made + moment.now.sight.times) result }
    {
        Cost {
            steps: self.steps + moment.sight.times,
            procs: self.procs,
            work: self.work.after(moment),
            meetings: self.meetings.after(moment, marks),
            conflict: None,
        }
    }
}

/// What the run of a job costs.
///
/// It takes time in the number of processors that run in each step, beside the steps themselves,
/// and soon after a step that changes nothing the cost is there, whatever number of steps is left.
/// Memory is taken for the cells and the processors alone.
pub fn cost_of(alloc: Global, job: &Job) -> Result<Cost, AllocError>
    ensures { IfOk result (IsCost job.now) }
{
    let mut tally = Tally::new(alloc, job)?;
    let walked = walk(alloc, job, job.steps(), &mut tally)?;
    Ok(tally.into_cost(conflict_of(&walked)))
}

// The conflict to which all steps of a job come, if they do.
fn conflict_of(walked: &Walked) -> Option<Fault>
    ensures { (job : JobData) → IsWalked job job.steps walked.now →
        IsLength job (begun job.steps walked.now) result }
{
    match walked {
        Walked::Through(_) => None,
        Walked::Disputed(fault) => Some(*fault),
    }
}

/// One who counts what the steps of a job cost.
#[derive(Drop)]
pub struct Tally {
    cost: Cost,
    accesses: Accesses,
    marks: Vec<u32>,
}

impl Tally {
    /// No step was counted.
    pub fn new(alloc: Global, job: &Job) -> Result<Self, AllocError>
        ensures { IfOk result (HasCounted job.now 0) }
    {
        let marks = vec![in alloc; 0; job.cells() as usize]?;
        Ok(Tally {
            cost: Cost::of_no_step(job),
            accesses: Accesses::new(alloc),
            marks,
        })
    }

    /// What a run costs, where all its steps were counted, on the job or on one that differs from
    /// it in the number of steps alone. The conflict is that of the run, if it has one.
    pub fn into_cost(self, conflict: Option<Fault>) -> Cost
        ensures { (job : JobData) (n steps : ℕ) → HasCounted (record job { steps = n }) steps self →
            IsLength job steps conflict → IsCost job result }
    {
        Cost {
            conflict,
            ..self.cost
        }
    }
}

impl Observer for Tally {
    ghost has_seen = { HasCounted };

    fn look(&mut self, sight: &Sight<'_>) -> Result<(), AllocError> {
        self.accesses.find(sight)?;
        let moment = Moment {
            sight: *sight,
            accesses: &self.accesses,
        };
        self.cost = self.cost.after(&moment, &mut self.marks);
        Ok(())
    }
}
