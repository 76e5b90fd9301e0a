//! A moment of the plain machine: its state after so many steps.
ghost use Rattle.std.specs.Prelude.{◌≡◌, ◌≤◌, IfErr, IfOk};
ghost use Rattle.pram_text.specs.Text.{Spells};
ghost use Rattle.pram_step.specs.Runs.{IsStateAfter};
ghost use Rattle.page_core.specs.Findings.{IsKeptBehind, count_written};
ghost use Rattle.page_core.specs.Moments.{IsNotReached, IsStateTold};

use crate::finding::Finding;
use crate::machine::copy;
use crate::text::{Refusal, take_job};
use pram_job::Job;
use pram_step::{Arrival, State, go_to, laws};
use std::alloc::Global;

/// A job, and its state after so many of its steps.
#[derive(Drop)]
pub struct Reached {
    pub job: Job,
    pub step: u32,
    pub state: State,
    ghost after: { IsStateAfter job step state },
    ghost within: { step ≤ job.steps },
}

/// The job of a text, and its state after so many steps; or why there is none. At most `most`
/// steps are made.
pub fn go(alloc: Global, text: &[u8], step: u32, most: u32) -> Result<Reached, Finding>
    ensures job { IfOk result (λ r. Spells text.now r.job) }
    ensures step { IfOk result (λ r. r.step ≡ step) }
    ensures none { IfErr result (IsNotReached text.now step most) }
    ensures unwritten { IfErr result (λ f. count_written f ≡ 0) }
{
    let job = match take_job(alloc, text) {
        Ok(job) => job,
        Err(refusal) => return Err(Finding::Refused(refusal)),
    };
    if step > job.steps() {
        return Err(Finding::NoStep);
    }
    match go_to(alloc, &job, step, most) {
        Err(_) => Err(Finding::Refused(Refusal::Memory)),
        Ok(Arrival::TooFar) => Err(Finding::TooFar),
        Ok(Arrival::Disputed(fault)) => Err(Finding::Conflict { fault, count: 0 }),
        Ok(Arrival::Reached(state)) => Ok(Reached { job, step, state }),
    }
}

/// The places of a state are copied to the front of the buffer, if it has room for them: the
/// cells, then four registers a processor, then a counter a processor.
pub fn tell_state(reached: &Reached, places: &mut [u32]) -> Finding
    ensures state { IsStateTold reached.now.job reached.now.step places.old places.new result }
    ensures behind { IsKeptBehind (count_written result) places.old places.new }
{
    reached.job.limits_hold();
    laws::states_have_all_places();
    let count = reached.state.places().len() as u64;
    if copy(reached.state.places(), places) {
        Finding::Done {
            step: reached.step,
            count,
        }
    } else {
        Finding::NoRoom { needed: count }
    }
}
