//! How often each instruction of a job is executed.
ghost use Rattle.std.specs.Prelude.{◌≡◌, ◌≢◌, ◌+◌, ◌*◌, ◌<◌, ◌^◌, IfOk};
ghost use Rattle.pram_cost.specs.Profiled.{HasProfiled, tally_at};
ghost use Rattle.pram_cost.specs.Tallies.{HasCounted};
ghost use Rattle.pram_cost.specs.Inner.Groups.{IsGroup};
ghost use Rattle.pram_cost.specs.Inner.Tallied.{AreTallied, tallied_more};
ghost use Rattle.pram_step.specs.Inner.Passes.{bound};
ghost use Rattle.pram_step.specs.Walks.{IsSight};

use crate::cost::Tally;
use crate::group::{Group, group_from};
use pram_job::Job;
use pram_step::{Observer, Sight};
use std::alloc::{AllocError, Global};

/// How often an instruction is executed.
#[derive(Clone, Copy, Debug, PartialEq, Eq)]
pub struct Executed {
    /// The steps in which some processor executes it.
    pub steps: u32,
    /// The times that one does.
    pub times: u64,
    /// The most processors that do in one step.
    pub most: u32,
}

/// The same so far, and how many processors execute it in the last of these steps.
#[derive(Clone, Copy)]
pub(crate) struct Tallied {
    pub executed: Executed,
    pub last: u32,
    pub now: u32,
}

impl Tallied {
    const NONE: Tallied = Tallied {
        executed: Executed {
            steps: 0,
            times: 0,
            most: 0,
        },
        last: 0,
        now: 0,
    };

    // So many processors more execute it, in this step and as many as follow it in the same state.
    #[inline(always)]
    fn counted(self, step: u32, times: u32, more: u32) -> Tallied
        requires steps { self.last ≢ step → self.executed.steps + times < 2 ^ 32 }
        requires executed { self.executed.times + times * more < 2 ^ 64 }
        requires now { self.last ≡ step → self.now + more < 2 ^ 32 }
        ensures { result ≡ tallied_more step times more self }
    {
        let Executed {
            steps,
            times: executed,
            most,
        } = self.executed;
        let (steps, now) = if self.last == step {
            (steps, self.now + more)
        } else {
            (steps + times, more)
        };
        Tallied {
            executed: Executed {
                steps,
                times: executed + u64::from(times) * u64::from(more),
                most: most.max(now),
            },
            last: step,
            now,
        }
    }
}

/// One who counts how often each instruction of a job is executed.
#[derive(Drop)]
pub struct Profile {
    rows: Vec<Tallied>,
}

impl Profile {
    // No step was seen.
    fn new(alloc: Global, job: &Job) -> Result<Self, AllocError>
        ensures { IfOk result (λ profile. HasProfiled job.now 0 profile.rows.items) }
    {
        let rows = vec![in alloc; Tallied::NONE; job.code().len()]?;
        Ok(Profile { rows })
    }

    /// How often the instruction with this index is executed.
    pub fn at(&self, index: usize) -> Executed
        ensures { result ≡ (tally_at self.now.rows.items index).executed }
    {
        match self.rows.get(index) {
            Some(row) => row.executed,
            None => Tallied::NONE.executed,
        }
    }
}

/// One who counts what the steps of a job cost, and how often each instruction is executed.
#[derive(Drop)]
pub struct Measure {
    pub tally: Tally,
    pub profile: Profile,
}

impl Measure {
    /// No step was seen.
    pub fn new(alloc: Global, job: &Job) -> Result<Self, AllocError>
        ensures { IfOk result (λ measure. HasCounted job.now 0 measure.tally
            × HasProfiled job.now 0 measure.profile.rows.items) }
    {
        let tally = Tally::new(alloc, job)?;
        let profile = Profile::new(alloc, job)?;
        Ok(Measure { tally, profile })
    }
}

impl Observer for Measure {
    ghost has_seen = { λ job n measure.
        HasCounted job n measure.tally × HasProfiled job n measure.profile.rows.items };

    fn look(&mut self, sight: &Sight<'_>) -> Result<(), AllocError> {
        count(&mut self.profile.rows, sight);
        self.tally.look(sight)
    }
}

// Counts what each that runs executes in the steps that come next.
#[inline(always)]
fn count(rows: &mut [Tallied], sight: &Sight<'_>)
    requires sight { IsSight sight.now }
    requires before { HasProfiled sight.now.job.now sight.now.made rows.old }
    ensures { HasProfiled sight.now.job.now (sight.now.made + sight.now.times) rows.new }
{
    let mut taken = 0;
    while taken < sight.running.len() {
        let group = group_from(sight, taken);
        take_up(rows, sight, group);
        taken = group.end;
    }
}

// Counts what the processors of a group execute, after those before them.
#[inline(always)]
fn take_up(rows: &mut [Tallied], sight: &Sight<'_>, group: Group)
    requires sight { IsSight sight.now }
    requires group { IsGroup sight.now group.from group }
    requires before { AreTallied sight.now
        (bound sight.now.job.now sight.now.running.now group.from) rows.old }
    ensures { AreTallied sight.now
        (bound sight.now.job.now sight.now.running.now group.end) rows.new }
{
    sight.job.limits_hold();
    let index = group.index as usize;
    if index < rows.len() {
        let more = (group.end - group.from) as u32;
        rows[index] = rows[index].counted(sight.made + 1, sight.times, more);
    }
}
