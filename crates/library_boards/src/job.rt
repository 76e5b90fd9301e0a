//! The job of a text.
ghost use Rattle.std.specs.Prelude.{◌≡◌, true, false, IfErr, IfOk};
ghost use Rattle.pardo_answers.specs.Language.{is_program};
ghost use Rattle.pardo_job.specs.Refusals.{most_steps};
ghost use Rattle.library_boards.specs.Jobs.{IsDraftedJob, IsJobOf, IsMachineJob, IsNoJob};
ghost use Rattle.library_boards.specs.Jobs.{IsUncountedJobOf};

use pardo_answers::is_program;
use pardo_job::limits::{MAX_STEPS, MAX_WORK};
use pardo_job::{Refusal, compile, draft_in};
use pram_job::Job;
use pram_text::{TextFault, read_job};
use std::alloc::{AllocError, Global};

/// Why there is no board for a text.
#[derive(Clone, Copy)]
pub enum OpenFault {
    /// It is a text of the machine, and spells no job.
    Text(TextFault),
    /// It is a program, and has no job.
    Program(Refusal),
    /// Out of memory.
    Memory,
}

impl From<AllocError> for OpenFault {
    ghost use Rattle.library_boards.specs.declared.job.OpenFault.TheVariants.{Memory};

    ghost from_gives = { λ _ fault. fault ≡ Memory };

    fn from(_error: AllocError) -> OpenFault {
        OpenFault::Memory
    }
}

/// The job of a text, of the machine or of a program, or why it has none. The time is that of
/// reading the text; a program is run once, to find its steps.
pub fn job_of(alloc: Global, text: &[u8]) -> Result<Job, OpenFault>
    ensures job { IfOk result (IsJobOf text.now) }
    ensures none { IfErr result (IsNoJob text.now) }
{
    if is_program(text) {
        program_job(alloc, text)
    } else {
        machine_job(alloc, text)
    }
}

fn program_job(alloc: Global, text: &[u8]) -> Result<Job, OpenFault>
    requires { is_program text.now ≡ true }
    ensures job { IfOk result (IsJobOf text.now) }
    ensures none { IfErr result (IsNoJob text.now) }
{
    match compile(alloc, text) {
        Ok((_, compiled)) => {
            let (job, _, _) = compiled.into_parts();
            Ok(job)
        }
        Err(refusal) => Err(OpenFault::Program(refusal)),
    }
}

pub(crate) fn machine_job(alloc: Global, text: &[u8]) -> Result<Job, OpenFault>
    requires { is_program text.now ≡ false }
    ensures job { IfOk result (IsMachineJob text.now) }
    ensures none { IfErr result (IsNoJob text.now) }
{
    match read_job(alloc, text) {
        Ok(job) => Ok(job),
        Err(fault) => Err(OpenFault::Text(fault)),
    }
}

/// The job of a text, where a program has as many steps as one may take: nothing is run. A program
/// that never ends is not refused.
pub fn uncounted_job_of(alloc: Global, text: &[u8]) -> Result<Job, OpenFault>
    ensures job { IfOk result (IsUncountedJobOf text.now) }
    ensures none { IfErr result (IsNoJob text.now) }
{
    if is_program(text) {
        drafted_job(alloc, text)
    } else {
        machine_job(alloc, text)
    }
}

fn drafted_job(alloc: Global, text: &[u8]) -> Result<Job, OpenFault>
    requires { is_program text.now ≡ true }
    ensures job { IfOk result (IsDraftedJob text.now) }
    ensures none { IfErr result (IsNoJob text.now) }
{
    match draft_in(alloc, text) {
        Ok(draft) => Ok(longest(draft.job)),
        Err(refusal) => Err(OpenFault::Program(refusal)),
    }
}

// The job with as many steps as a program may take.
#[tactic(auto, unfolding(pardo_job::specs::Refusals::most_steps))]
pub(crate) fn longest(job: Job) -> Job
    ensures { result ≡ record job { steps = most_steps job } }
{
    job.limits_hold();
    let steps = MAX_STEPS.min(MAX_WORK / job.procs());
    job.with_steps(steps)
}
