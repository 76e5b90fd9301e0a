//! All accesses of a step, found in one pass over the processors.
ghost use Rattle.std.specs.Prelude.{◌≡◌, ◌+◌, ◌<◌, length, OnOk};
ghost use Rattle.pram_cost.specs.Inner.Found.{AreFound, of_kind};
ghost use Rattle.pram_cost.specs.Inner.Groups.{IsGroup};
ghost use Rattle.pram_machine.specs.Machine.{place_count};
ghost use Rattle.pram_step.specs.Inner.Passes.{bound};
ghost use Rattle.pram_step.specs.Walks.{IsSight};

use crate::access::{Visit, visit_of};
use crate::group::{Group, group_from};
use crate::meeting::Sharing;
use pram_job::{Instr, Job};
use pram_machine::Fetched;
use pram_step::{Sight, State, laws};
use std::alloc::{AllocError, Global};

/// A processor, the cell that it goes to, and the value that it writes there; of a read that is 0.
#[derive(Clone, Copy)]
pub(crate) struct Access {
    pub processor: u32,
    pub cell: u32,
    pub value: u32,
}

/// The accesses of a step, each kind in the order of the processors, and how many processors run.
#[derive(Drop)]
pub(crate) struct Accesses {
    pub running: u32,
    pub reads: Vec<Access>,
    pub writes: Vec<Access>,
}

impl Accesses {
    /// None.
    pub(crate) fn new(alloc: Global) -> Self {
        Accesses {
            running: 0,
            reads: Vec::new(alloc),
            writes: Vec::new(alloc),
        }
    }

    /// Finds those of each of the steps that come next. Memory is taken only where a step has more
    /// accesses than each before it.
    pub(crate) fn find(&mut self, sight: &Sight<'_>) -> Result<(), AllocError>
        requires { IsSight sight.now }
        ensures { OnOk result (AreFound sight.now.job.now sight.now.state.now
            sight.now.job.now.procs self.new) }
    {
        self.running = 0;
        self.reads.clear();
        self.writes.clear();
        let mut taken = 0;
        while taken < sight.running.len() {
            let group = group_from(sight, taken);
            self.take_group(sight, group)?;
            taken = group.end;
        }
        Ok(())
    }

    // Takes up what the processors of a group do, after those before them. Only where their
    // instruction loads or stores is each of them looked at.
    #[inline(always)]
    fn take_group(&mut self, sight: &Sight<'_>, group: Group) -> Result<(), AllocError>
        requires sight { IsSight sight.now }
        requires group { IsGroup sight.now group.from group }
        requires before { AreFound sight.now.job.now sight.now.state.now
            (bound sight.now.job.now sight.now.running.now group.from) self.old }
        ensures { OnOk result (AreFound sight.now.job.now sight.now.state.now
            (bound sight.now.job.now sight.now.running.now group.end) self.new) }
    {
        sight.job.limits_hold();
        let Some(fetched) = Fetched::at(sight.job, group.index) else {
            return Ok(());
        };
        match *fetched.instr {
            Instr::Ld(..) => self.take_each(sight, group),
            Instr::St(..) => self.take_each(sight, group),
            _ => {
                self.running += (group.end - group.from) as u32;
                Ok(())
            }
        }
    }

    // Takes up what each processor of a group does.
    fn take_each(&mut self, sight: &Sight<'_>, group: Group) -> Result<(), AllocError>
        requires sight { IsSight sight.now }
        requires group { IsGroup sight.now group.from group }
        requires before { AreFound sight.now.job.now sight.now.state.now
            (bound sight.now.job.now sight.now.running.now group.from) self.old }
        ensures { OnOk result (AreFound sight.now.job.now sight.now.state.now
            (bound sight.now.job.now sight.now.running.now group.end) self.new) }
    {
        laws::states_have_all_places();
        sight.job.limits_hold();
        for taken in group.from..group.end {
            self.take_up(sight.job, sight.state, sight.running[taken])?;
        }
        Ok(())
    }

    // Takes up what a processor does, after those before it.
    #[inline(always)]
    fn take_up(&mut self, job: &Job, state: &State, processor: u32) -> Result<(), AllocError>
        requires processor { processor < job.now.procs }
        requires places { length state.now ≡ place_count job.now }
        requires before { AreFound job.now state.now processor self.old }
        ensures { OnOk result (AreFound job.now state.now (processor + 1) self.new) }
    {
        job.limits_hold();
        match visit_of(job, state, processor) {
            Visit::Stopped => Ok(()),
            Visit::Elsewhere => {
                self.running += 1;
                Ok(())
            }
            Visit::Reads(cell) => {
                self.running += 1;
                self.reads.push(Access {
                    processor,
                    cell,
                    value: 0,
                })?;
                Ok(())
            }
            Visit::Writes(cell, value) => {
                self.running += 1;
                self.writes.push(Access {
                    processor,
                    cell,
                    value,
                })?;
                Ok(())
            }
        }
    }

    /// Those that may be such a meeting.
    #[inline(always)]
    pub(crate) fn of_kind(&self, sharing: Sharing) -> &[Access]
        ensures { result.now ≡ of_kind sharing self.now }
    {
        match sharing {
            Sharing::SameRead => self.reads.as_slice(),
            Sharing::SameWrite | Sharing::OtherValue => self.writes.as_slice(),
        }
    }
}
