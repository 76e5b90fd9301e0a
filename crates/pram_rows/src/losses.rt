//! In which step a processor is lost.
ghost use Rattle.std.specs.Prelude.{◌≡◌, ◌≢◌, ◌<◌, IfOk, MatchOption};
ghost use Rattle.pram_machine.specs.Machine.{counter, out_of_range};
ghost use Rattle.pram_rows.specs.Fates.{IsLostIn};
ghost use Rattle.pram_step.specs.Runs.{IsReached, state_after};

use crate::fates::Lost;
use crate::looks::{Standing, counter_in, out_of_range};
use pram_job::Job;
use pram_step::{LastRow, LastRows, Walked, laws, walk};
use std::alloc::{AllocError, Global};

/// The one of so many steps in which a processor is lost, and by which instruction; nothing where
/// it is not, or one of them is against the rule.
pub(crate) fn lost_by(
    alloc: Global,
    job: &Job,
    steps: u32,
    processor: u32,
) -> Result<Option<Lost>, AllocError>
    requires { processor < job.now.procs }
    ensures { IfOk result (λ lost. MatchOption lost (IsReached job.now steps
        → counter job.now (state_after job.now steps) processor ≢ out_of_range job.now)
        (λ lost. (lost.processor ≡ processor) × IsReached job.now steps
        × IsLostIn job.now steps lost)) }
{
    laws::states_have_all_places();
    job.limits_hold();
    let mut last = LastRows::new(alloc, job)?;
    match walk(alloc, job, steps, &mut last)? {
        Walked::Disputed(_) => Ok(None),
        Walked::Through(state) => {
            let standing = Standing {
                job,
                state: &state,
                steps,
                last: last.rows.as_slice(),
            };
            Ok(lost_in(&standing, processor))
        }
    }
}

// The step in which a processor was lost, if it was.
fn lost_in(standing: &Standing<'_>, processor: u32) -> Option<Lost>
    requires { processor < standing.now.job.now.procs }
    ensures { MatchOption result
        (counter standing.now.job.now (state_after standing.now.job.now standing.now.steps)
        processor ≢ out_of_range standing.now.job.now)
        (λ lost. (lost.processor ≡ processor)
        × IsLostIn standing.now.job.now standing.now.steps lost) }
{
    standing.job.limits_hold();
    if counter_in(standing, processor) != out_of_range(standing) {
        return None;
    }
    let LastRow { step, index } = standing.last[processor as usize];
    Some(Lost {
        step,
        processor,
        index,
    })
}
