//! A look over the processors.
ghost use Rattle.std.specs.Prelude.{◌≡◌, ◌<◌, count_by, MatchOption};
ghost use Rattle.std.specs.List.{range_with_len};
ghost use Rattle.pram_rows.specs.Fates.{IsFirstRunning};
ghost use Rattle.pram_machine.specs.Machine.{AllStopped, out_of_range, counter as counter_of};
ghost use Rattle.pram_step.specs.Last.{AreLast};
ghost use Rattle.pram_step.specs.Running.{SameCounters, is_running};
ghost use Rattle.pram_step.specs.Runs.{state_after};

use pram_job::Job;
use pram_step::{LastRow, State, counter};

/// Where the processors of a job stand after so many steps, and what each executed last.
#[derive(Drop)]
pub(crate) struct Standing<'a> {
    pub job: &'a Job,
    pub state: &'a State,
    pub steps: u32,
    pub last: &'a [LastRow],
    pub ghost counters: { SameCounters job.now (state_after job.now steps) state.now },
    pub ghost rows: { AreLast job.now steps last.now },
}

/// The counter of a processor.
pub(crate) fn counter_in(standing: &Standing<'_>, processor: u32) -> u32
    requires { processor < standing.now.job.now.procs }
    ensures { result ≡ counter_of standing.now.job.now
        (state_after standing.now.job.now standing.now.steps) processor }
{
    counter(standing.job, standing.state, processor)
}

/// Whether a processor runs.
fn is_running(standing: &Standing<'_>, processor: u32) -> bool
    requires { processor < standing.now.job.now.procs }
    ensures { result ≡ is_running standing.now.job.now
        (state_after standing.now.job.now standing.now.steps) processor }
{
    (counter_in(standing, processor) as usize) < standing.job.code().len()
}

/// How many processors run.
pub(crate) fn count_running(standing: &Standing<'_>) -> u32
    ensures { result ≡ count_by (is_running standing.now.job.now
        (state_after standing.now.job.now standing.now.steps))
        (range_with_len 0 standing.now.job.now.procs) }
{
    let mut count = 0;
    for processor in 0..standing.job.procs() {
        if is_running(standing, processor) {
            count += 1;
        }
    }
    count
}

/// The least processor that runs.
pub(crate) fn first_running(standing: &Standing<'_>) -> Option<u32>
    ensures { MatchOption result
        (AllStopped standing.now.job.now (state_after standing.now.job.now standing.now.steps))
        (IsFirstRunning standing.now.job.now
        (state_after standing.now.job.now standing.now.steps)) }
{
    for processor in 0..standing.job.procs() {
        if is_running(standing, processor) {
            return Some(processor);
        }
    }
    None
}

/// The counter that says that an address was out of range.
pub(crate) fn out_of_range(standing: &Standing<'_>) -> u32
    ensures { result ≡ out_of_range standing.now.job.now }
{
    standing.job.limits_hold();
    standing.job.code().len() as u32 + 1
}
