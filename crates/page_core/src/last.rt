//! What each processor executed last.
ghost use Rattle.std.specs.Prelude.{◌≡◌, ◌≤◌, length, IfOk, OnErr};
ghost use Rattle.page_core.specs.Findings.{IsKeptBehind, count_written};
ghost use Rattle.page_core.specs.Last.{AreLastAfter, AreLastFound};

use crate::finding::Finding;
use crate::text::{Refusal, take_job};
use pram_job::Job;
pub use pram_step::LastRow;
use pram_step::{LastRows, Walked, walk};
use std::alloc::{AllocError, Global};

/// What each processor executed last in so many steps, or in those up to the first conflict, that
/// one too. No more than `most` steps are made.
pub fn last(alloc: Global, text: &[u8], step: u32, most: u32, rows: &mut [LastRow]) -> Finding
    ensures found { AreLastFound text.now step most rows.old rows.new result }
    ensures behind { IsKeptBehind (count_written result) rows.old rows.new }
{
    let job = match take_job(alloc, text) {
        Ok(job) => job,
        Err(refusal) => return Finding::Refused(refusal),
    };
    if step > job.steps() {
        return Finding::NoStep;
    }
    if rows.len() < job.procs() as usize {
        return Finding::NoRoom {
            needed: u64::from(job.procs()),
        };
    }
    if step > most {
        return Finding::TooFar;
    }
    match tell_last(alloc, &job, step, rows) {
        Ok(finding) => finding,
        Err(_) => Finding::Refused(Refusal::Memory),
    }
}

// What each executed last in so many steps.
fn tell_last(
    alloc: Global,
    job: &Job,
    step: u32,
    rows: &mut [LastRow],
) -> Result<Finding, AllocError>
    requires within { step ≤ job.now.steps }
    requires room { job.now.procs ≤ length rows.old }
    ensures last { IfOk result (AreLastAfter job.now step rows.new) }
    ensures behind { IfOk result (λ f. IsKeptBehind (count_written f) rows.old rows.new) }
    ensures unwritten { OnErr result (rows.new ≡ rows.old) }
{
    let mut last = LastRows::new(alloc, job)?;
    let walked = walk(alloc, job, step, &mut last)?;
    let procs = job.procs() as usize;
    rows[..procs].copy_from_slice(&last.rows.as_slice()[..procs]);
    let count = procs as u64;
    match walked {
        Walked::Through(_) => Ok(Finding::Done { step, count }),
        Walked::Disputed(fault) => Ok(Finding::Conflict { fault, count }),
    }
}
