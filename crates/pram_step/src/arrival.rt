//! What is there after so many steps.
ghost use Rattle.std.specs.Prelude.{◌+◌, ◌<◌, ◌^◌, IfOk, OnOk};
ghost use Rattle.pram_step.specs.Arrivals.{IsArrival, IsStepMade};
ghost use Rattle.pram_step.specs.Runs.{IsStateAfter};

use crate::answer::Fault;
use crate::laws;
use crate::pass::{Course, Room, make_steps};
use crate::state::{State, StepFault, step};
use crate::walks::{Nobody, Span};
use pram_job::Job;
use std::alloc::{AllocError, Global};

/// What is there after so many steps.
#[derive(Debug, Drop)]
pub enum Arrival {
    /// This state.
    Reached(State),
    /// No state: this step was against the rule.
    Disputed(Fault),
    /// More steps would have to be made than the caller allows.
    TooFar,
}

/// Goes so many steps from the start. At most `most` steps are made, and none after one that
/// changes nothing: a machine whose processors have all stopped makes none.
pub fn go_to(alloc: Global, job: &Job, steps: u32, most: u32) -> Result<Arrival, AllocError>
    ensures { IfOk result (IsArrival job.now steps most) }
{
    laws::start_is_a_state();
    let mut state = State::start(alloc, job)?;
    let mut room = Room::of(alloc, job)?;
    let span = Span {
        from: 0,
        to: steps.min(most),
    };
    match make_steps(job, &mut state, &mut room, span, &mut Nobody)? {
        Course::Disputed(fault) => Ok(Arrival::Disputed(fault)),
        Course::Settled => Ok(Arrival::Reached(state)),
        Course::Made => {
            if most < steps {
                Ok(Arrival::TooFar)
            } else {
                Ok(Arrival::Reached(state))
            }
        }
    }
}

/// Makes the step after so many. Where it is against the rule, the state stays, and the fault is
/// answered.
pub fn make_step(
    alloc: Global,
    job: &Job,
    state: &mut State,
    made: u32,
) -> Result<Option<Fault>, AllocError>
    requires after { IsStateAfter job.now made state.old }
    requires fits { made + 1 < 2 ^ 32 }
    ensures { IfOk result (IsStepMade job.now made state.new) }
{
    laws::next_is_a_state();
    laws::states_have_all_places();
    job.limits_hold();
    match step(alloc, job, state) {
        Ok(()) => Ok(None),
        Err(StepFault::Memory) => Err(AllocError),
        Err(
            StepFault::Conflict {
                cell,
                first,
                second,
            },
        ) => Ok(Some(Fault {
            step: made + 1,
            cell,
            first,
            second,
        })),
    }
}
