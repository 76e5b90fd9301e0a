//! What becomes of the processors of a job.
ghost use Rattle.std.specs.Prelude.{◌≡◌, ◌≤◌, IfOk, IfSome};
ghost use Rattle.pram_rows.specs.Fates.{AreFates, IsEnd, IsFirstLostOrNone};
ghost use Rattle.pram_rows.specs.Inner.Losses.{earlier, if_before};
ghost use Rattle.pram_machine.specs.Machine.{AllStopped};
ghost use Rattle.pram_step.specs.Running.{IsStop};
ghost use Rattle.pram_step.specs.Runs.{IsAnswer, IsStateAfter, state_after};
ghost use Rattle.pram_step.specs.Walks.{IsWalked};

use crate::looks::{Standing, count_running, counter_in, first_running, out_of_range};
use pram_job::Job;
use pram_step::{
    LastRow, LastRows, Nobody, RunAnswer, Span, State, Walked, counter, laws, walk, walk_in,
};
use std::alloc::{AllocError, Global};

/// What became of the processors.
#[derive(Clone, Copy, Debug, PartialEq, Eq)]
pub struct Fates {
    /// How they are at the end; nothing where a step was against the rule.
    pub end: Option<End>,
    /// The first one that named a cell that there is not.
    pub lost: Option<Lost>,
}

/// How the processors are after all steps.
#[derive(Clone, Copy, Debug, PartialEq, Eq)]
pub enum End {
    /// Some still run: how many, the least of them, and the index of the instruction that it stands
    /// at.
    Running { count: u32, first: u32, index: u32 },
    /// All had stopped after this step, and not before it.
    Stopped { step: u32 },
}

/// A processor that named a cell that there is not, by the instruction of this index.
#[derive(Clone, Copy, Debug, PartialEq, Eq)]
pub struct Lost {
    /// The step, counted from 1.
    pub step: u32,
    pub processor: u32,
    pub index: u32,
}

/// What becomes of the processors of a job in so many steps, or in those before its first conflict.
///
/// It takes the time of the steps on the plain machine, and of a look at each processor that runs
/// in each.
pub fn fates_after(alloc: Global, job: &Job, steps: u32) -> Result<Fates, AllocError>
    ensures { IfOk result (AreFates job.now steps) }
{
    laws::start_is_a_state();
    laws::states_have_all_places();
    job.limits_hold();
    let mut state = State::start(alloc, job)?;
    let mut last = LastRows::new(alloc, job)?;
    let span = Span { from: 0, to: steps };
    match walk_in(alloc, job, &mut state, span, &mut last)? {
        None => {
            let standing = Standing {
                job,
                state: &state,
                steps,
                last: last.rows.as_slice(),
            };
            Ok(Fates {
                end: Some(end_of(&standing)),
                lost: first_lost(&standing),
            })
        }
        Some(fault) => {
            let standing = Standing {
                job,
                state: &state,
                steps: fault.step,
                last: last.rows.as_slice(),
            };
            Ok(Fates {
                end: None,
                lost: if_before(first_lost(&standing), fault.step),
            })
        }
    }
}

/// The answer of a job, and what becomes of its processors in all its steps.
///
/// Where all of them run to the end the steps are made once for both, and else once for each.
pub fn answer_with_fates(alloc: Global, job: &Job) -> Result<(RunAnswer, Fates), AllocError>
    ensures answer { IfOk result (λ told. IsAnswer job.now told.0) }
    ensures fates { IfOk result (λ told. AreFates job.now job.now.steps told.1) }
{
    let walked = walk(alloc, job, job.steps(), &mut Nobody)?;
    let known = known_fates(job, &walked);
    let answer = answer_of(job, walked);
    match known {
        Some(fates) => Ok((answer, fates)),
        None => {
            let fates = fates_after(alloc, job, job.steps())?;
            Ok((answer, fates))
        }
    }
}

// The answer of a job, by what its steps come to.
fn answer_of(job: &Job, walked: Walked) -> RunAnswer
    requires { IsWalked job.now job.now.steps walked }
    ensures { IsAnswer job.now result }
{
    match walked {
        Walked::Through(state) => RunAnswer::Final(state.into_cells(job)),
        Walked::Disputed(fault) => RunAnswer::Conflict(fault),
    }
}

// What becomes of the processors, if all of them run after all steps.
fn known_fates(job: &Job, walked: &Walked) -> Option<Fates>
    requires { IsWalked job.now job.now.steps walked.now }
    ensures { IfSome result (AreFates job.now job.now.steps) }
{
    match walked {
        Walked::Through(state) => fates_of_running(job, state),
        Walked::Disputed(_) => None,
    }
}

// What becomes of the processors, if all of them run in this state, that after all steps.
fn fates_of_running(job: &Job, state: &State) -> Option<Fates>
    requires { IsStateAfter job.now job.now.steps state.now }
    ensures { IfSome result (AreFates job.now job.now.steps) }
{
    laws::states_have_all_places();
    job.limits_hold();
    for processor in 0..job.procs() {
        if counter(job, state, processor) as usize >= job.code().len() {
            return None;
        }
    }
    Some(Fates {
        end: Some(End::Running {
            count: job.procs(),
            first: 0,
            index: counter(job, state, 0),
        }),
        lost: None,
    })
}

// How the processors are.
fn end_of(standing: &Standing<'_>) -> End
    ensures { IsEnd standing.now.job.now standing.now.steps result }
{
    match first_running(standing) {
        Some(first) => End::Running {
            count: count_running(standing),
            first,
            index: counter_in(standing, first),
        },
        None => End::Stopped {
            step: last_step(standing),
        },
    }
}

// The last step that some processor executed, where all have stopped.
fn last_step(standing: &Standing<'_>) -> u32
    requires { AllStopped standing.now.job.now
        (state_after standing.now.job.now standing.now.steps) }
    ensures within { result ≤ standing.now.steps }
    ensures stop { IsStop standing.now.job.now result }
{
    standing.job.limits_hold();
    let mut step = 0;
    for processor in 0..standing.job.procs() {
        step = step.max(standing.last[processor as usize].step);
    }
    step
}

// The first processor that named a cell that there is not.
fn first_lost(standing: &Standing<'_>) -> Option<Lost>
    ensures { IsFirstLostOrNone standing.now.job.now standing.now.steps result }
{
    standing.job.limits_hold();
    let outside = out_of_range(standing);
    let mut lost = None;
    for processor in 0..standing.job.procs() {
        if counter_in(standing, processor) == outside {
            let LastRow { step, index } = standing.last[processor as usize];
            lost = earlier(
                lost,
                Lost {
                    step,
                    processor,
                    index,
                },
            );
        }
    }
    lost
}

// That one, or the other if that is of an earlier step.
fn earlier(found: Option<Lost>, other: Lost) -> Option<Lost>
    ensures { result ≡ earlier found other }
{
    match found {
        Some(first) if first.step <= other.step => found,
        _ => Some(other),
    }
}

// That one, if it is of a step before this one.
fn if_before(found: Option<Lost>, step: u32) -> Option<Lost>
    ensures { result ≡ if_before found step }
{
    match found {
        Some(lost) if lost.step < step => found,
        _ => None,
    }
}
