//! The run of a job until it is over.
ghost use Rattle.std.specs.Prelude.{◌≡◌, ◌<◌, length, slice_index, IfOk, IfNone, IfSome, None};
ghost use Rattle.pram_machine.specs.Machine.{AllStopped, out_of_range, place_count};
ghost use Rattle.pram_step.specs.Last.{AreLast};
ghost use Rattle.pram_step.specs.Runs.{IsFirstConflict};
ghost use Rattle.pardo_job.specs.Ends.{AreGone, IsDisputedIn, gone_in};
ghost use Rattle.pardo_job.specs.Inner.Endings.{IsLong, IsRest, IsBoundedRun, IsSeenBy, IsThrough};
ghost use Rattle.pardo_job.specs.Leaving.{GoneIn};
ghost use Rattle.pardo_job.specs.Refusals.{FirstRunningStandsAt, most_steps};

use crate::limits::{MAX_STEPS, MAX_WORK};
use pram_job::Job;
use pram_step::{
    Fault, LastRow, LastRows, Observer, Sight, State, UntilStopped, Walked, counter, laws, walk,
};
use std::alloc::{AllocError, Global};

/// How the run of a job ends.
#[derive(Drop)]
pub(crate) enum Run {
    /// All processors have stopped.
    Stopped(Rest),
    /// A step is against the rule; and what each processor executed last, in that step or before.
    Disputed(Fault, Vec<LastRow>),
    /// After as many steps as are made at most some processors run, and the first of them stands
    /// at this instruction.
    Endless(u32),
}

/// All processors have stopped after so many steps, in this state; and what each executed last.
#[derive(Drop)]
pub(crate) struct Rest {
    pub steps: u32,
    pub state: State,
    pub last: Vec<LastRow>,
}

/// One who notes what each processor executed last, beside another.
#[derive(Drop)]
struct Both<O> {
    last: LastRows,
    other: O,
}

impl<O: Observer> Observer for Both<O> {
    ghost has_seen = { λ job t both.
        AreLast job t both.last.rows.items × O.has_seen job t both.other };

    #[inline(always)]
    fn look(&mut self, sight: &Sight<'_>) -> Result<(), AllocError> {
        self.last.look(sight)?;
        self.other.look(sight)
    }
}

/// Runs a job until it is over. The observer sees its steps, that of a conflict too.
pub(crate) fn run_of<O: Observer + Drop>(
    alloc: Global,
    job: &Job,
    other: O,
) -> Result<(Run, O), AllocError>
    requires { O.has_seen job.now 0 other }
    ensures run { IfOk result (λ ran. IsBoundedRun job.now ran.0) }
    ensures seen { IfOk result (λ ran. IsSeenBy ran.0 (λ n. O.has_seen job.now n ran.1)) }
{
    laws::states_have_all_places();
    job.limits_hold();
    let last = LastRows::new(alloc, job)?;
    let mut until = UntilStopped {
        observer: Both { last, other },
        stopped: None,
    };
    let walked = walk(alloc, job, most_steps(job), &mut until)?;
    let UntilStopped {
        observer: Both {
            last: LastRows { rows: last },
            other,
        },
        stopped,
    } = until;
    match walked {
        Walked::Disputed(fault) => Ok((Run::Disputed(fault, last), other)),
        Walked::Through(state) => Ok((run_through(job, stopped, state, last), other)),
    }
}

// How many steps of a job are made at most.
#[tactic(auto, unfolding(crate::specs::Refusals::most_steps))]
fn most_steps(job: &Job) -> u32
    ensures { result ≡ most_steps job.now }
{
    MAX_STEPS.min(MAX_WORK / job.procs())
}

// The run, where as many steps were made as are made at most.
fn run_through(job: &Job, stopped: Option<u32>, state: State, last: Vec<LastRow>) -> Run
    requires { IsThrough job.now stopped state last.items }
    ensures run { IsBoundedRun job.now result }
    ensures long { IsLong job.now stopped result }
{
    match stopped {
        Some(steps) => Run::Stopped(Rest { steps, state, last }),
        None => run_to_the_most(job, state, last),
    }
}

// The run, where some processor had not stopped before the most steps were made.
fn run_to_the_most(job: &Job, state: State, last: Vec<LastRow>) -> Run
    requires { IsThrough job.now None state last.items }
    ensures run { IsBoundedRun job.now result }
    ensures long { IsLong job.now None result }
{
    laws::states_have_all_places();
    job.limits_hold();
    match first_running(job, &state) {
        Some(index) => Run::Endless(index),
        None => Run::Stopped(Rest {
            steps: most_steps(job),
            state,
            last,
        }),
    }
}

// The instruction that the first processor stands at which has not stopped.
fn first_running(job: &Job, state: &State) -> Option<u32>
    requires { length state.now ≡ place_count job.now }
    ensures none { IfNone result (AllStopped job.now state.now) }
    ensures some { IfSome result (FirstRunningStandsAt job.now state.now) }
{
    for processor in 0..job.procs() {
        let index = counter(job, state, processor);
        if (index as usize) < job.code().len() {
            return Some(index);
        }
    }
    None
}

/// The line in which each processor left, if it did. These are the numbers of the lines that the
/// instructions came from.
pub(crate) fn gone_lines(
    alloc: Global,
    job: &Job,
    rest: &Rest,
    numbers: &[u64],
) -> Result<Vec<Option<u64>>, AllocError>
    requires { IsRest job.now rest.now }
    ensures { IfOk result (λ gone. AreGone job.now (slice_index numbers.now) rest.now.steps
        (gone_in gone.items)) }
{
    let mut gone = Vec::with_capacity(alloc, job.procs() as usize)?;
    for processor in 0..job.procs() {
        gone.push(gone_line(job, rest, numbers, processor))?;
    }
    Ok(gone)
}

// The line in which a processor left, if it did.
fn gone_line(job: &Job, rest: &Rest, numbers: &[u64], processor: u32) -> Option<u64>
    requires rest { IsRest job.now rest.now }
    requires processor { processor < job.now.procs }
    ensures { GoneIn job.now (slice_index numbers.now) rest.now.steps processor result }
{
    laws::states_have_all_places();
    job.limits_hold();
    if counter(job, &rest.state, processor) != out_of_range(job) {
        return None;
    }
    let last = rest.last.as_slice();
    Some(line_at(numbers, last[processor as usize].index))
}

// The counter that says that an address was out of range.
fn out_of_range(job: &Job) -> u32
    ensures { result ≡ out_of_range job.now }
{
    job.limits_hold();
    job.code().len() as u32 + 1
}

/// The line of a conflict: that of the instruction which its first processor executed last.
pub(crate) fn disputed_line(job: &Job, fault: Fault, last: &[LastRow], numbers: &[u64]) -> u64
    requires conflict { IsFirstConflict job.now fault }
    requires last { AreLast job.now fault.step last.now }
    ensures { IsDisputedIn job.now (slice_index numbers.now) fault result }
{
    line_at(numbers, last[fault.first as usize].index)
}

/// The number of the line that an instruction came from, or 0.
pub(crate) fn line_at(numbers: &[u64], index: u32) -> u64
    ensures { result ≡ slice_index numbers.now index }
{
    numbers.get(index as usize).copied().unwrap_or(0)
}
