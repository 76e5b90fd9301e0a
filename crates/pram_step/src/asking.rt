//! Where a processor stands, and what it asks for, in a state that the job reaches.
ghost use Rattle.std.specs.Prelude.{◌≡◌, ℕ, ◌<◌, length, IfSome};
ghost use Rattle.pram_machine.specs.Instructions.{request_in};
ghost use Rattle.pram_machine.specs.Machine.{IsDataPlace, counter as counter_of, place_count};
ghost use Rattle.pram_step.specs.Runs.{IsStateAfter};

use crate::laws;
use crate::state::{State, request};
use pram_job::Job;
use pram_machine::Request;

/// A processor's counter.
pub fn counter(job: &Job, state: &State, processor: u32) -> u32
    requires processor { processor < job.now.procs }
    requires places { length state.now ≡ place_count job.now }
    ensures { result ≡ counter_of job.now state.now processor }
{
    state.get(job.counter_place(processor))
}

/// What a processor asks for in a state that the job reaches. Its data goes to a cell, or to a
/// register of its own.
pub fn request_after(job: &Job, state: &State, processor: u32) -> Request
    requires processor { processor < job.now.procs }
    requires reached { (t : ℕ) × IsStateAfter job.now t state.now }
    ensures request { result ≡ request_in job.now state.now processor }
    ensures own { IfSome result.put (λ w. IsDataPlace job.now processor w.0) }
{
    laws::requests_have_shape();
    laws::states_have_all_places();
    laws::counters_stay_within();
    job.limits_hold();
    request(job, state, processor)
}
