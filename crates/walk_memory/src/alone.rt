//! A processor that neither reads a cell nor stores goes on alone.
ghost use Rattle.std.specs.Prelude.{◌≡◌, ◌≢◌, ◌<◌, ℕ, false, true, slice_get, IfSome, Some, suc};
ghost use Rattle.pram_machine.specs.Turns.{request_of};
ghost use Rattle.walk_memory.specs.Inner.Posts.{processor_of};
ghost use Rattle.walk_memory.specs.Lanes.{lane};
ghost use Rattle.walk_memory.specs.Memory.{goes_alone, gone_on, is_load, one_alone, own_alone};
ghost use Rattle.walk_memory.specs.Memory.{steps_left};
ghost use Rattle.walk_memory.specs.Turned.{stepped, IsShaped};
ghost use Rattle.walk_memory.specs.Together.{goes_as_far};

use crate::asked::{fetch, is_due, is_load, turn_by, turn_of};
use crate::block::Block;
use crate::memo::{Own, Stand, store_of};
use crate::post::Leaf;
use crate::row_walk::fetch_at;
use crate::rows::is_common;
use crate::turn_in::put_in;
use pram_job::{Instr, Job};
use pram_machine::Turn;

/// Processor i, of lane k, goes on as far as it can, up to the step in which its words are due. One
/// that has stopped goes on to the end.
#[inline(never)]
pub(crate) fn go_on(job: &Job, i: u32, block: &mut Block, k: usize)
    requires processor { i < job.now.procs }
    requires lane { k < 64 }
    ensures same { lane block.new k ≡ gone_on job.now i (lane block.old k) }
    ensures others { (j : ℕ) → j ≢ k → lane block.new j ≡ lane block.old j }
{
    let steps = job.steps();
    let left = steps_left(block, k);
    for _ in 0..left {
        if block.has_store(k) || steps <= block.step[k] {
            return;
        }
        match fetch_at(job, block.counter[k]) {
            None => {
                stand_after(block, k, steps);
                return;
            }
            Some(instr) => {
                if !go_one(job, i, block, k, instr) {
                    return;
                }
            }
        }
    }
}

// More than the steps up to the one in which its words are due.
#[inline(always)]
fn steps_left(block: &Block, k: usize) -> u64
    requires { k < 64 }
    ensures { result ≡ suc (steps_left (lane block.now k)) }
{
    let due = u64::from(block.settled[k]) + 64;
    due.saturating_sub(u64::from(block.step[k])) + 1
}

// So many steps are gone.
#[inline(always)]
fn stand_after(block: &mut Block, k: usize, steps: u32)
    requires { k < 64 }
    ensures same { lane block.new k ≡ record (lane block.old k) { step = steps } }
    ensures others { (j : ℕ) → j ≢ k → lane block.new j ≡ lane block.old j }
{
    block.standing.end = 0;
    block.step[k] = steps;
}

// One step by its instruction, if it can.
#[inline(always)]
fn go_one(job: &Job, i: u32, block: &mut Block, k: usize, instr: &Instr) -> bool
    requires processor { i < job.now.procs }
    requires lane { k < 64 }
    requires step { (lane block.old k).step < job.now.steps }
    requires instr { slice_get job.now.code (lane block.old k).own.counter ≡ Some instr.now }
    ensures value { result ≡ goes_alone job.now i (lane block.old k) }
    ensures on { result ≡ true → lane block.new k ≡ one_alone job.now i (lane block.old k) }
    ensures not { result ≡ false → lane block.new k ≡ lane block.old k }
    ensures others { (j : ℕ) → j ≢ k → lane block.new j ≡ lane block.old j }
{
    job.limits_hold();
    let step = block.step[k] + 1;
    if is_due(block.settled[k], step) || is_load(instr) {
        return false;
    }
    let turn = turn_of(job, i, &block.own(k), instr, 0);
    let store = store_of(job, turn);
    if store.is_some() && !is_common(job) {
        return false;
    }
    step_on(job, i, block, k, turn);
    true
}

// The turn is taken, and a step is gone.
#[inline(always)]
fn step_on(job: &Job, i: u32, block: &mut Block, k: usize, turn: Turn)
    requires processor { i < job.now.procs }
    requires lane { k < 64 }
    requires step { (lane block.old k).step < job.now.steps }
    requires shape { IsShaped job.now i turn }
    ensures same { lane block.new k ≡ stepped job.now i (lane block.old k) (request_of turn) }
    ensures others { (j : ℕ) → j ≢ k → lane block.new j ≡ lane block.old j }
{
    job.limits_hold();
    block.standing.end = 0;
    put_in(job, i, &mut block.registers, k, turn);
    block.counter[k] = turn.next;
    block.step[k] += 1;
    let acted = block.acted[k];
    block.set_store(k, acted, store_of(job, turn));
}

/// One step, if it can and stands there.
#[inline(always)]
pub(crate) fn go_one_at(job: &Job, i: u32, block: &mut Block, k: usize, stand: Stand<'_>)
    requires processor { i < job.now.procs }
    requires lane { k < 64 }
    requires stand { slice_get job.now.code stand.counter ≡ Some stand.instr.now }
    ensures far { goes_as_far job.now i (lane block.old k) (lane block.new k) }
    ensures others { (j : ℕ) → j ≢ k → lane block.new j ≡ lane block.old j }
{
    let steps = job.steps();
    if block.counter[k] == stand.counter && !block.has_store(k) && block.step[k] < steps {
        go_one(job, i, block, k, stand.instr);
    }
}

/// Lane k has nothing to do alone: it has a store to carry out, or is at the end, or stands at this
/// load.
#[inline(always)]
pub(crate) fn rests(job: &Job, block: &Block, k: usize, load: Option<u32>) -> bool
    requires lane { k < 64 }
    requires load { IfSome load (λ counter. is_load (slice_get job.now.code counter) ≡ true) }
    ensures { result ≡ true → (i : ℕ) → gone_on job.now i (lane block.now k) ≡ lane block.now k }
{
    if block.has_store(k) || job.steps() <= block.step[k] {
        return true;
    }
    match load {
        Some(counter) => block.counter[k] == counter,
        None => false,
    }
}

/// So many steps, reading nothing.
pub fn own_alone(leaf: &Leaf, told: Own, more: u32) -> Own
    ensures { result ≡ own_alone leaf.now.job (processor_of leaf.now) more told }
{
    let mut own = told;
    for _ in 0..more {
        match fetch(leaf, own.counter) {
            None => return own,
            Some(instr) => {
                let turn = turn_by(leaf, &own, instr, 0);
                own.take(leaf, turn);
            }
        }
    }
    own
}
