//! The answer of a job.
ghost use Rattle.std.specs.Bool.{OnFalse};
ghost use Rattle.std.specs.Prelude.{◌≡◌, ◌≤◌, ◌↔◌, IfOk, IsTrue, length, take};
ghost use Rattle.pram_step.specs.Arrivals.{IsArrival};
ghost use Rattle.page_core.specs.Findings.{IsKeptBehind, count_written};
ghost use Rattle.page_core.specs.Moments.{IsAnswerFound};

use crate::finding::Finding;
use crate::text::{Refusal, take_job};
use pram_job::Job;
use pram_step::{Arrival, go_to, laws};
use std::alloc::{AllocError, Global};

/// The answer of a text: the cells after the last step are written to the front of the buffer; or
/// the first conflict. At most `most` steps are made; a machine whose processors have all stopped
/// makes none.
pub fn answer(alloc: Global, text: &[u8], most: u32, cells: &mut [u32]) -> Finding
    ensures found { IsAnswerFound text.now most cells.old cells.new result }
    ensures behind { IsKeptBehind (count_written result) cells.old cells.new }
{
    laws::states_have_all_places();
    let job = match take_job(alloc, text) {
        Ok(job) => job,
        Err(refusal) => return Finding::Refused(refusal),
    };
    match go_to_end(alloc, &job, most) {
        Err(_) => Finding::Refused(Refusal::Memory),
        Ok(Arrival::TooFar) => Finding::TooFar,
        Ok(Arrival::Disputed(fault)) => Finding::Conflict { fault, count: 0 },
        Ok(Arrival::Reached(state)) => {
            let count = job.cells() as usize;
            if copy(&state.places()[..count], cells) {
                Finding::Done {
                    step: job.steps(),
                    count: count as u64,
                }
            } else {
                Finding::NoRoom {
                    needed: count as u64,
                }
            }
        }
    }
}

/// Copies the values to the front of the buffer, if it has room for them.
pub(crate) fn copy(values: &[u32], buffer: &mut [u32]) -> bool
    ensures room { IsTrue result ↔ (length values.now ≤ length buffer.old) }
    ensures copied { IsTrue result → take (length values.now) buffer.new ≡ values.now }
    ensures behind { IsTrue result → IsKeptBehind (length values.now) buffer.old buffer.new }
    ensures kept { OnFalse result (buffer.new ≡ buffer.old) }
{
    if values.len() > buffer.len() {
        return false;
    }
    buffer[..values.len()].copy_from_slice(values);
    true
}

// The state after the last step.
fn go_to_end(alloc: Global, job: &Job, most: u32) -> Result<Arrival, AllocError>
    ensures { IfOk result (IsArrival job.now job.now.steps most) }
{
    go_to(alloc, job, job.steps(), most)
}
