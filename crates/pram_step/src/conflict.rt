//! Which step is against the rule, and who disputes what in it.
ghost use Rattle.std.specs.Prelude.{◌≡◌, ◌≢◌, ℕ, length, IfOk, MatchBool};
ghost use Rattle.pram_step.specs.Disputes.{Forbids};
ghost use Rattle.pram_step.specs.Steps.{IsVerdict};
ghost use Rattle.pram_step.specs.Runs.{AreConflicting, IsFault};

use crate::answer::{Dispute, Fault};
use crate::stores::{Stores, judge_all, take_up};
use pram_job::{Job, Rule};
use pram_machine::{Put, Request};
use std::alloc::{AllocError, Global};

/// What two of these requests dispute, one request being of each processor, in their order: the
/// least disputed cell, its least writer, and the least writer that may not write beside that one.
/// With rule priority there is none. It costs time in the number of processors, and memory for a
/// mark of each cell and a store of each processor.
pub fn dispute(
    alloc: Global,
    job: &Job,
    requests: &[Request],
) -> Result<Option<Dispute>, AllocError>
    requires { length requests.now ≡ job.now.procs }
    ensures { IfOk result (IsVerdict job.now requests.now) }
{
    let mut stores = Stores::new(alloc);
    stores.make_room(alloc, job)?;
    let mut count = 0;
    for processor in 0..job.procs() {
        let put = Put::of(job, requests[processor as usize].put);
        count = take_up(job, &mut stores.asked, count, processor, put);
    }
    let asked = &stores.asked[..count as usize];
    Ok(judge_all(job, asked, &mut stores.marks))
}

/// The first conflict of a job, from its step and all requests of that step. It costs what
/// `dispute` does.
pub fn fault_of(
    alloc: Global,
    job: &Job,
    step: u32,
    requests: &[Request],
) -> Result<Fault, AllocError>
    requires { AreConflicting job.now step requests.now }
    ensures { IfOk result (IsFault job.now) }
{
    let Some(found) = dispute(alloc, job, requests)? else {
        unreachable!()
    };
    Ok(found.in_step(step))
}

/// Whether the rule forbids that two processors write these values to one cell.
pub(crate) fn is_forbidden(rule: Rule, first: u32, second: u32) -> bool
    ensures { MatchBool result ((i j : ℕ) → i ≢ j → Forbids rule i first j second)
        ((i j : ℕ) → i ≢ j → Forbids rule i first j second → ⊥) }
{
    match rule {
        Rule::Common => first != second,
        Rule::Priority => false,
        Rule::Crew => true,
    }
}
