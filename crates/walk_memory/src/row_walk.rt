//! Processors of a row that all stand at one instruction go on alone as one.
ghost use Rattle.std.specs.Prelude.{◌≡◌, ◌+◌, ◌-◌, ◌*◌, ◌/◌, ◌%◌, ◌<◌, ◌≤◌, ℕ, IsTrue, true, false};
ghost use Rattle.std.specs.Prelude.{IfSome, MatchOption, None, Some, nat_lt, slice_get};
ghost use Rattle.std.specs.Prelude.{is_some, slice_index, slice_index_or};
ghost use Rattle.pram_words.specs.Words.{grain};
ghost use Rattle.walk_memory.specs.AsOne.{GoesUnsettled, StandTogether};
ghost use Rattle.walk_memory.specs.Inner.Posts.{processor_of};
ghost use Rattle.walk_memory.specs.Lanes.{lane};
ghost use Rattle.walk_memory.specs.Memory.{gone_on};
ghost use Rattle.walk_memory.specs.Rows.{AllIn, AllRest, FarIn, RestIn, lane_as, reach_at};
ghost use Rattle.walk_memory.specs.Together.{goes_as_far};
ghost use Rattle.walk_memory.specs.Blocks.{has_rank, processor_at};

use crate::as_one::Together;
use crate::asked::{is_due, is_load};
use crate::block::Block;
use crate::post::{Leaf, Post};
use crate::rows::{all_have, go_by_form, is_common, set_in};
use crate::span::{LANES, Span};
use crate::standing::{is_of, remember, remembered};
use pram_job::{Instr, Job};

/// The lanes of a block's processors in their row.
#[inline(always)]
pub(crate) fn span_of(post: &Post) -> Span
    requires { post.now.layout.leaves ≤ post.now.node }
    ensures row { result.first ≡ 64 * (processor_at post.now.layout post.now.node 0 / 64) }
    ensures start { result.first + result.start ≡ processor_at post.now.layout post.now.node 0 }
    ensures ranks { (rank : ℕ) → has_rank post.now.layout post.now.node rank
        ≡ nat_lt rank (result.end - result.start) }
{
    post.limits_hold();
    let first = post.first_processor();
    let len = post.block_len();
    let start = first % 64;
    Span {
        first: first - start,
        start: start as usize,
        end: (start + len) as usize,
    }
}

/// Those of the processors of a block of this length from the leaf's on.
#[inline(always)]
pub(crate) fn lanes_from(leaf: &Leaf, len: u32) -> Span
    requires { (rank : ℕ) → has_rank leaf.now.layout leaf.now.node rank ≡ nat_lt rank len }
    ensures row { result.first ≡ 64 * (processor_of leaf.now / 64) }
    ensures start { result.start ≡ processor_of leaf.now % 64 }
    ensures end { result.end + leaf.now.rank ≡ result.start + len }
    ensures some { leaf.now.rank < len }
{
    let _ = leaf.job();
    lanes_to(leaf, len)
}

/// Those of the processors from the leaf's on, up to this rank of its block.
#[inline(always)]
pub(crate) fn lanes_to(leaf: &Leaf, end: u32) -> Span
    requires later { leaf.now.rank ≤ end }
    requires within { end ≤ grain leaf.now.layout }
    ensures row { result.first ≡ 64 * (processor_of leaf.now / 64) }
    ensures start { result.start ≡ processor_of leaf.now % 64 }
    ensures end { result.end + leaf.now.rank ≡ result.start + end }
{
    let i = leaf.processor();
    let start = i % 64;
    Span {
        first: i - start,
        start: start as usize,
        end: (start + (end - leaf.rank())) as usize,
    }
}

/// All go on as far as they can, if they stand together all the way: up to which phase they then
/// have nothing to do. Else all have gone on by some steps.
#[inline(never)]
pub(crate) fn go_far(job: &Job, phase: u64, lanes: Span, block: &mut Block) -> Option<u64>
    ensures far { AllIn lanes.start lanes.end (λ k. goes_as_far job.now (lanes.first + k)
        (lane block.old k) (lane block.new k)) }
    ensures before { (k : ℕ) → k < lanes.start → lane block.new k ≡ lane block.old k }
    ensures after { (k : ℕ) → lanes.end ≤ k → lane block.new k ≡ lane block.old k }
    ensures rest { IfSome result (λ reach. RestIn job.now lanes phase reach block.new) }
{
    let start = together_at(block, lanes, phase)?;
    let gone = go_steps(job, lanes, start, block);
    stand_from(block, lanes, start, gone.0);
    remember(block, lanes, gone.0, phase);
    gone.1
}

// Where all stand, if they stand together, and none acted in a later phase. Mostly the block
// remembers it.
#[inline(always)]
fn together_at(block: &Block, lanes: Span, phase: u64) -> Option<Together>
    ensures lanes { IfSome result (λ at. AllIn lanes.start lanes.end (λ k.
        lane_as at block.now k ≡ lane block.now k)) }
    ensures acted { IfSome result (λ _. AllIn lanes.start lanes.end (λ k.
        slice_index block.now.acted k ≤ phase)) }
    ensures some { IfSome result (λ _. lanes.start < lanes.end) }
{
    match remembered(block, lanes, phase) {
        Some(at) => Some(at),
        None => all_at(block, lanes, phase),
    }
}

// The same by their rows.
#[inline(always)]
fn all_at(block: &Block, lanes: Span, phase: u64) -> Option<Together>
    ensures lanes { IfSome result (λ at. AllIn lanes.start lanes.end (λ k.
        lane_as at block.now k ≡ lane block.now k)) }
    ensures acted { IfSome result (λ _. AllIn lanes.start lanes.end (λ k.
        slice_index block.now.acted k ≤ phase)) }
    ensures some { IfSome result (λ _. lanes.start < lanes.end) }
{
    if lanes.end <= lanes.start {
        return None;
    }
    let counter = block.counter[lanes.start];
    let step = block.step[lanes.start];
    let settled = block.settled[lanes.start];
    let stored = block.stored[lanes.start];
    if !all_equal(&block.counter, lanes, counter) {
        return None;
    }
    if !all_equal(&block.step, lanes, step) {
        return None;
    }
    if !all_equal(&block.settled, lanes, settled) {
        return None;
    }
    if !all_so(&block.stored, lanes, stored) {
        return None;
    }
    if !none_later(&block.acted, lanes, phase) {
        return None;
    }
    Some(Together {
        counter,
        step,
        settled,
        stored,
    })
}

/// All are this, if so.
#[inline(always)]
pub(crate) fn all_equal(x: &[u32; LANES], lanes: Span, value: u32) -> bool
    ensures { IsTrue result → AllIn lanes.start lanes.end (λ k. slice_index x.now k ≡ value) }
{
    let mut all = true;
    for k in lanes.start..lanes.end {
        all &= x[k] == value;
    }
    all
}

/// The same.
#[inline(always)]
pub(crate) fn all_so(x: &[bool; LANES], lanes: Span, value: bool) -> bool
    ensures { IsTrue result → AllIn lanes.start lanes.end
        (λ k. slice_index_or x.now k false ≡ value) }
{
    let mut all = true;
    for k in lanes.start..lanes.end {
        all &= x[k] == value;
    }
    all
}

// None is above this, if so. Mostly all are the same, which a loop finds that is vector code.
#[inline(always)]
fn none_later(x: &[u64; LANES], lanes: Span, phase: u64) -> bool
    requires { lanes.start < lanes.end }
    ensures { IsTrue result → AllIn lanes.start lanes.end (λ k. slice_index x.now k ≤ phase) }
{
    let first = x[lanes.start];
    if all_of_phase(x, lanes, first) {
        first <= phase
    } else {
        none_above(x, lanes, phase)
    }
}

// All are this, if so.
#[inline(always)]
fn all_of_phase(x: &[u64; LANES], lanes: Span, phase: u64) -> bool
    ensures { IsTrue result → AllIn lanes.start lanes.end (λ k. slice_index x.now k ≡ phase) }
{
    let mut all = true;
    for k in lanes.start..lanes.end {
        all &= x[k] == phase;
    }
    all
}

// None is above this, if so.
#[inline(always)]
fn none_above(x: &[u64; LANES], lanes: Span, phase: u64) -> bool
    ensures { IsTrue result → AllIn lanes.start lanes.end (λ k. slice_index x.now k ≤ phase) }
{
    let mut none = true;
    for k in lanes.start..lanes.end {
        none &= x[k] <= phase;
    }
    none
}

// All stand there now. Where no step was made they do already.
#[inline(always)]
fn stand_from(block: &mut Block, lanes: Span, start: Together, at: Together)
    requires { at.step ≡ start.step → AllIn lanes.start lanes.end (λ k.
        lane_as at block.old k ≡ lane block.old k) }
    ensures there { AllIn lanes.start lanes.end (λ k. lane block.new k ≡ lane_as at block.old k) }
    ensures before { (k : ℕ) → k < lanes.start → lane block.new k ≡ lane block.old k }
    ensures after { (k : ℕ) → lanes.end ≤ k → lane block.new k ≡ lane block.old k }
{
    if at.step == start.step {
        return;
    }
    stand_at(block, lanes, at);
}

// All stand there now.
#[inline(always)]
fn stand_at(block: &mut Block, lanes: Span, at: Together)
    ensures there { AllIn lanes.start lanes.end (λ k. lane block.new k ≡ lane_as at block.old k) }
    ensures before { (k : ℕ) → k < lanes.start → lane block.new k ≡ lane block.old k }
    ensures after { (k : ℕ) → lanes.end ≤ k → lane block.new k ≡ lane block.old k }
{
    block.standing.end = 0;
    set_in(&mut block.counter, lanes, at.counter);
    set_in(&mut block.step, lanes, at.step);
    set_in(&mut block.settled, lanes, at.settled);
    so_in(&mut block.stored, lanes, at.stored);
}

/// Each of these lanes is so.
#[inline(always)]
pub(crate) fn so_in(to: &mut [bool; LANES], lanes: Span, value: bool)
    ensures there { AllIn lanes.start lanes.end (λ k. slice_index_or to.new k false ≡ value) }
    ensures before { (k : ℕ) → k < lanes.start →
        slice_index_or to.new k false ≡ slice_index_or to.old k false }
    ensures after { (k : ℕ) → lanes.end ≤ k →
        slice_index_or to.new k false ≡ slice_index_or to.old k false }
{
    for k in lanes.start..lanes.end {
        to[k] = value;
    }
}

// Steps alone of all, as many as they can make together, for 64 steps at most: where they then
// stand, and up to which phase they have nothing to do, if they rest there.
#[inline(always)]
fn go_steps(job: &Job, lanes: Span, start: Together, block: &mut Block) -> (Together, Option<u64>)
    ensures far { FarIn job.now lanes start result.0 block.old block.new }
    ensures rest { IfSome result.1 (λ reach. (reach ≡ reach_at result.0)
        × AllRest job.now lanes result.0 block.new) }
{
    let mut at = start;
    for _ in 0..64u32 {
        if job.steps() < at.step {
            return (at, None);
        }
        if at.stored {
            return (at, Some(reach_at(at)));
        }
        if at.step == job.steps() {
            return (at, None);
        }
        let Some(instr) = fetch_at(job, at.counter) else {
            return (at, None);
        };
        if rests_at(job, lanes, block, at, instr) {
            return (at, Some(reach_at(at)));
        }
        match go_by_form(job, lanes, at, block, instr) {
            Some(next) => at = next,
            None => return (at, None),
        }
    }
    (at, None)
}

/// The instruction at a counter, if there is one.
#[inline(always)]
pub(crate) fn fetch_at(job: &Job, counter: u32) -> Option<&Instr>
    ensures { MatchOption result (slice_get job.now.code counter ≡ None)
        (λ instr. slice_get job.now.code counter ≡ Some instr.now) }
{
    job.code().get(counter as usize)
}

// Up to which phase those have nothing to do that stand there.
#[inline(always)]
fn reach_at(at: Together) -> u64
    ensures { result ≡ reach_at at }
{
    let last = 3 * u64::from(at.step);
    if at.stored {
        last.saturating_sub(2)
    } else {
        last
    }
}

// None goes on alone from there, if so: all stand at a load, before a step in which they settle, or,
// but under common, at a store of their own. Else it is no load, and no such step.
#[inline(always)]
fn rests_at(job: &Job, lanes: Span, block: &Block, at: Together, instr: &Instr) -> bool
    requires stand { StandTogether job.now at instr.now }
    ensures rest { result ≡ true → AllIn lanes.start lanes.end (λ k.
        gone_on job.now (lanes.first + k) (lane_as at block.now k) ≡ lane_as at block.now k) }
    ensures goes { result ≡ false → GoesUnsettled at instr.now }
{
    job.limits_hold();
    if is_load(instr) {
        return true;
    }
    if is_due(at.settled, at.step + 1) {
        return true;
    }
    all_store(job, lanes, block, at, instr)
}

// Under crew and priority, each stands at a store of its own, if so.
#[inline(always)]
fn all_store(job: &Job, lanes: Span, block: &Block, at: Together, instr: &Instr) -> bool
    requires stand { StandTogether job.now at instr.now }
    ensures { result ≡ true → AllIn lanes.start lanes.end (λ k.
        gone_on job.now (lanes.first + k) (lane_as at block.now k) ≡ lane_as at block.now k) }
{
    job.limits_hold();
    match *instr {
        Instr::St(ref place, b) => {
            let _ = b;
            if is_common(job) {
                return false;
            }
            all_have(job, lanes, block, place)
        }
        _ => false,
    }
}

/// Each of these lanes has a store of this step, if so.
#[inline(always)]
pub(crate) fn all_stored(block: &Block, lanes: Span, step: u32) -> bool
    ensures { IsTrue result → AllIn lanes.start lanes.end (λ k. ((lane block.now k).step ≡ step)
        × (is_some (lane block.now k).store ≡ true)) }
{
    let standing = block.standing;
    if is_of(standing, lanes) {
        return standing.at.step == step && standing.at.stored;
    }
    all_equal(&block.step, lanes, step) && all_so(&block.stored, lanes, true)
}
