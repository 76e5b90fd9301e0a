//! The processors that run.
ghost use Rattle.std.specs.Prelude.{◌≡◌, ◌≤◌, length, take, vec_len, OnOk};
ghost use Rattle.std.specs.Bool.{OnTrue};
ghost use Rattle.pram_machine.specs.Machine.{place_count};
ghost use Rattle.pram_step.specs.Inner.Passes.{AllIdle};
ghost use Rattle.pram_step.specs.Running.{AreRunning};

use pram_job::Job;
use pram_job::places::counters_at;
use pram_machine::request_in;
use std::alloc::{AllocError, Global};

/// The processors that run, in order, and room for all of them.
#[derive(Debug, Drop)]
pub(crate) struct Running {
    processors: Vec<u32>,
    count: usize,
    ghost few: { count ≤ vec_len processors },
}

impl Running {
    /// Room for none.
    pub(crate) fn new(alloc: Global) -> Self {
        Running {
            processors: Vec::new(alloc),
            count: 0,
        }
    }

    /// Makes room for each processor, where there is none.
    pub(crate) fn make_room(&mut self, alloc: Global, job: &Job) -> Result<(), AllocError>
        ensures { OnOk result (vec_len self.new.processors ≡ job.now.procs) }
    {
        let procs = job.procs() as usize;
        if self.processors.len() != procs {
            self.count = 0;
            self.processors = vec![in alloc; 0; procs]?;
        }
        Ok(())
    }

    /// Finds them.
    pub(crate) fn find(&mut self, job: &Job, places: &[u32])
        requires room { vec_len self.old.processors ≡ job.now.procs }
        requires places { length places.now ≡ place_count job.now }
        ensures room { vec_len self.new.processors ≡ job.now.procs }
        ensures found { AreRunning job.now places.now
            (take self.new.count self.new.processors.items) }
    {
        self.count = list_running(job, places, &mut self.processors);
    }

    /// Whether they change nothing any more. It is looked at where it is due, and then those that
    /// have stopped are left out.
    #[inline(always)]
    pub(crate) fn rest(&mut self, job: &Job, places: &[u32], due: bool) -> bool
        requires room { vec_len self.old.processors ≡ job.now.procs }
        requires places { length places.now ≡ place_count job.now }
        requires found { AreRunning job.now places.now
            (take self.old.count self.old.processors.items) }
        ensures room { vec_len self.new.processors ≡ job.now.procs }
        ensures found { AreRunning job.now places.now
            (take self.new.count self.new.processors.items) }
        ensures idle { OnTrue result (AllIdle job.now places.now) }
    {
        if !due {
            return false;
        }
        if are_idle(job, places, self.as_slice()) {
            return true;
        }
        if has_stopped(job, places, self.as_slice()) {
            self.find(job, places);
        }
        false
    }

    /// The processors, in order.
    pub(crate) fn as_slice(&self) -> &[u32]
        ensures { result.now ≡ take self.now.count self.now.processors.items }
    {
        &self.processors[..self.count]
    }
}

/// Whether one of these processors has stopped.
fn has_stopped(job: &Job, places: &[u32], running: &[u32]) -> bool
    requires places { length places.now ≡ place_count job.now }
    requires running { AreRunning job.now places.now running.now }
{
    let counters = counters_at(job.cells(), job.procs());
    for processor in running {
        if places[(counters + *processor) as usize] as usize >= job.code().len() {
            return true;
        }
    }
    false
}

/// Whether no processor that runs changes anything: each asks for its own counter as it is.
fn are_idle(job: &Job, places: &[u32], running: &[u32]) -> bool
    requires places { length places.now ≡ place_count job.now }
    requires running { AreRunning job.now places.now running.now }
    ensures { OnTrue result (AllIdle job.now places.now) }
{
    job.limits_hold();
    let counters = counters_at(job.cells(), job.procs());
    for processor in running {
        let at = counters + *processor;
        if request_in(job, places, *processor, at).next != places[at as usize] {
            return false;
        }
    }
    true
}

/// Lists the processors that run, and answers how many they are.
fn list_running(job: &Job, places: &[u32], list: &mut [u32]) -> usize
    requires room { length list.old ≡ job.now.procs }
    requires places { length places.now ≡ place_count job.now }
    ensures count { result ≤ length list.new }
    ensures found { AreRunning job.now places.now (take result list.new) }
{
    let mut count = 0;
    for processor in 0..job.procs() {
        if (places[job.counter_place(processor) as usize] as usize) < job.code().len() {
            list[count] = processor;
            count += 1;
        }
    }
    count
}
