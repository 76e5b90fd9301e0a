//! What each processor executed last.
ghost use Rattle.std.specs.Prelude.{◌≡◌, ◌+◌, ℕ, ◌<◌, IfOk, MatchBool, IsSome};
ghost use Rattle.pram_machine.specs.Machine.{AllStopped};
ghost use Rattle.pram_step.specs.Last.{AreLast};
ghost use Rattle.pram_step.specs.Walks.{IsSeenUntil, IsSight};

use crate::asking::counter;
use crate::laws;
use crate::walks::{Observer, Sight};
use pram_job::Job;
use std::alloc::{AllocError, Global};

/// The last step in which a processor ran, and the index of the instruction that it executed then.
/// The step is 0 where it never ran.
#[repr(C)]
#[derive(Clone, Copy, Debug, PartialEq, Eq)]
pub struct LastRow {
    pub step: u32,
    pub index: u32,
}

const NEVER: LastRow = LastRow { step: 0, index: 0 };

/// One who notes what each processor executed last.
#[derive(Debug, Drop)]
pub struct LastRows {
    pub rows: Vec<LastRow>,
}

impl LastRows {
    /// None has executed anything.
    pub fn new(alloc: Global, job: &Job) -> Result<Self, AllocError>
        ensures { IfOk result (λ last. AreLast job.now 0 last.rows.items) }
    {
        let rows = vec![in alloc; NEVER; job.procs() as usize]?;
        Ok(LastRows { rows })
    }
}

impl Observer for LastRows {
    ghost has_seen = { λ job t last. AreLast job t last.rows.items };

    #[inline(always)]
    fn look(&mut self, sight: &Sight<'_>) -> Result<(), AllocError> {
        note(&mut self.rows, sight);
        Ok(())
    }
}

// Notes what each that runs executes in the steps that come next.
#[inline(always)]
fn note(rows: &mut [LastRow], sight: &Sight<'_>)
    requires sight { IsSight sight.now }
    requires last { AreLast sight.now.job.now sight.now.made rows.old }
    ensures { AreLast sight.now.job.now (sight.now.made + sight.now.times) rows.new }
{
    laws::states_have_all_places();
    sight.job.limits_hold();
    let step = sight.made + sight.times;
    for processor in sight.running {
        let index = counter(sight.job, sight.state, *processor);
        if (index as usize) < sight.job.code().len() {
            rows[*processor as usize] = LastRow { step, index };
        }
    }
}

/// One who looks on until all processors have stopped, for another.
#[derive(Debug, Drop)]
pub struct UntilStopped<O> {
    pub observer: O,
    /// After how many steps they had stopped.
    pub stopped: Option<u32>,
}

impl<O: Observer> Observer for UntilStopped<O> {
    ghost has_seen = { λ job t until.
        IsSeenUntil job t until.stopped (λ n. O.has_seen job n until.observer) };

    #[inline(always)]
    fn look(&mut self, sight: &Sight<'_>) -> Result<(), AllocError> {
        let None = self.stopped else {
            return Ok(());
        };
        if all_stopped(sight) {
            self.stopped = Some(sight.made);
            return Ok(());
        }
        self.observer.look(sight)?;
        Ok(())
    }
}

// Whether all processors have stopped.
#[inline(always)]
fn all_stopped(sight: &Sight<'_>) -> bool
    requires { IsSight sight.now }
    ensures { MatchBool result (AllStopped sight.now.job.now sight.now.state.now)
        (AllStopped sight.now.job.now sight.now.state.now → ⊥) }
{
    laws::states_have_all_places();
    sight.job.limits_hold();
    for processor in sight.running {
        let index = counter(sight.job, sight.state, *processor);
        if (index as usize) < sight.job.code().len() {
            return false;
        }
    }
    true
}
