//! Boards that start with values that a caller gives.
ghost use Rattle.std.specs.Prelude.{◌≡◌, ◌≢◌, ◌≤◌, IfErr, IfOk};
ghost use Rattle.library_boards.specs.Givens.{IsGivenJob, IsGivenStatus};
ghost use Rattle.library_boards.specs.Grains.{IsGrainAsked};
ghost use Rattle.library_boards.specs.Members.{IsOpenedAt, IsOpenedFor};
ghost use Rattle.library_boards.specs.declared.status.TheConstants.{DONE, MEMORY};

use crate::calls::{fault_status, is_grain, put_on_heap};
use crate::given::{Given, GivenFault, given_job_of};
use crate::member::Member;
use crate::status::{FAILED, MEMORY, REFUSED};
use pram_job::Job;
use std::alloc::Global;

/// A reader at a new board for the job of a text, where arrays start with what is given, or the
/// status that says why there is none. A program has as many steps as one may take: nothing is run.
#[tactic(auto, using(crate::proofs::Seated::opened_for))]
pub fn open_with(
    alloc: Global,
    text: &[u8],
    workers: u32,
    grain: u32,
    given: &[Given<'_>],
) -> Result<Box<Member, Global>, u32>
    ensures opened { IfOk result (λ boxed.
        IsOpenedFor (IsGivenJob text.now given.now) workers grain boxed.value) }
    ensures status { IfErr result (IsGivenStatus text.now given.now workers grain) }
    ensures undone { IfErr result (λ status. status ≢ DONE) }
{
    if workers < 1 || workers > 64 || !is_grain(grain) {
        return Err(FAILED);
    }
    match given_job_of(alloc, text, given) {
        Ok(job) => opened(alloc, &job, workers, grain),
        Err(GivenFault::Text(fault)) => Err(fault_status(fault)),
        Err(GivenFault::Unfit(_)) => Err(REFUSED),
    }
}

fn opened(alloc: Global, job: &Job, workers: u32, grain: u32) -> Result<Box<Member, Global>, u32>
    requires some { 1 ≤ workers }
    requires most { workers ≤ 64 }
    requires grain { IsGrainAsked grain }
    ensures opened { IfOk result (λ boxed. IsOpenedAt job.now workers grain boxed.value) }
    ensures memory { IfErr result (λ status. status ≡ MEMORY) }
{
    match Member::of_job(alloc, job, workers, grain) {
        Ok(member) => put_on_heap(alloc, member),
        Err(_) => Err(MEMORY),
    }
}
