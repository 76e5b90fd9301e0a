//! Processors of a block that do not stand together go on alone.
ghost use Rattle.std.specs.Prelude.{◌≡◌, ◌+◌, ◌<◌, ◌≤◌, ℕ, true, IfSome, Some, slice_get};
ghost use Rattle.walk_memory.specs.Apart.{GetAsFar};
ghost use Rattle.walk_memory.specs.Lanes.{lane};
ghost use Rattle.walk_memory.specs.Memory.{gone_on, is_load};
ghost use Rattle.walk_memory.specs.Stands.{GivesInstr};
ghost use Rattle.walk_memory.specs.Rows.{AllIn};

use crate::alone::{go_on, go_one_at, rests};
use crate::asked::{is_due, is_load};
use crate::block::Block;
use crate::memo::{Formed, Stand};
use crate::row_walk::fetch_at;
use crate::rows::is_common;
use crate::span::Span;
use pram_job::{Instr, Job, Place};

/// Each of these goes on as far as it can: those that stand at one instruction in lockstep, and then
/// each by itself.
#[inline(never)]
pub(crate) fn go_apart(job: &Job, lanes: Span, block: &mut Block)
    requires { AllIn lanes.start lanes.end (λ k. lanes.first + k < job.now.procs) }
    ensures gone { AllIn lanes.start lanes.end (λ k. lane block.new k
        ≡ gone_on job.now (lanes.first + k) (lane block.old k)) }
    ensures before { (k : ℕ) → k < lanes.start → lane block.new k ≡ lane block.old k }
    ensures after { (k : ℕ) → lanes.end ≤ k → lane block.new k ≡ lane block.old k }
{
    let mut load = None;
    for k in lanes.start..lanes.end {
        if !rests(job, block, k, load) {
            let from = Span {
                first: lanes.first,
                start: k,
                end: lanes.end,
            };
            load = go_together(job, from, block);
            go_on(job, lanes.first + k as u32, block, k);
        }
    }
}

// The first of these goes on, and with it those after it that stand where it does: the load that it
// then stands at, if it does.
fn go_together(job: &Job, lanes: Span, block: &mut Block) -> Option<u32>
    requires some { lanes.start < lanes.end }
    requires procs { AllIn lanes.start lanes.end (λ k. lanes.first + k < job.now.procs) }
    ensures far { GetAsFar job.now lanes block.old block.new }
    ensures load { IfSome result (λ counter. is_load (slice_get job.now.code counter) ≡ true) }
{
    for _ in 0..64u32 {
        let stand = stand_in(job, block, lanes.start)?;
        if is_load(stand.instr) {
            return Some(stand.counter);
        }
        if !has_company(block, lanes, stand.counter) {
            return None;
        }
        go_by_form(job, lanes, block, stand);
    }
    None
}

// One of the two after the first of these stands there, too.
#[inline(always)]
fn has_company(block: &Block, lanes: Span, counter: u32) -> bool {
    stands_in(block, lanes, lanes.start + 1, counter)
        || stands_in(block, lanes, lanes.start + 2, counter)
}

// Lane k is one of these, and stands there.
#[inline(always)]
fn stands_in(block: &Block, lanes: Span, k: usize, counter: u32) -> bool {
    k < lanes.end && block.counter[k] == counter
}

// The instruction that lane k stands at, if it can go on alone or stands at a load.
#[inline(always)]
fn stand_in<'a>(job: &'a Job, block: &Block, k: usize) -> Option<Stand<'a>>
    requires { k < 64 }
    ensures { IfSome result (λ stand. slice_get job.now.code stand.counter
        ≡ Some stand.instr.now) }
{
    if block.has_store(k) || job.steps() <= block.step[k] {
        return None;
    }
    if is_due(block.settled[k], block.step[k] + 1) {
        return None;
    }
    let counter = block.counter[k];
    let instr = fetch_at(job, counter)?;
    if matches!(*instr, Instr::St(_, _)) && !is_common(job) {
        return None;
    }
    Some(Stand { counter, instr })
}

// A step of each that stands there. Each form that has a row in these three functions has a loop of
// its own, in which no other is looked at.
fn go_by_form(job: &Job, lanes: Span, block: &mut Block, stand: Stand<'_>)
    requires procs { AllIn lanes.start lanes.end (λ k. lanes.first + k < job.now.procs) }
    requires stand { slice_get job.now.code stand.counter ≡ Some stand.instr.now }
    ensures { GetAsFar job.now lanes block.old block.new }
{
    match *stand.instr {
        Instr::Set(r, k) => go_each(job, lanes, block, &stand.by(|| Instr::Set(r, k))),
        Instr::Pid(r) => go_each(job, lanes, block, &stand.by(|| Instr::Pid(r))),
        Instr::Jz(r, index) => go_each(job, lanes, block, &stand.by(|| Instr::Jz(r, index))),
        Instr::Jmp(index) => go_each(job, lanes, block, &stand.by(|| Instr::Jmp(index))),
        Instr::Lt(r, a, b) => go_each(job, lanes, block, &stand.by(|| Instr::Lt(r, a, b))),
        Instr::Eq(r, a, b) => go_each(job, lanes, block, &stand.by(|| Instr::Eq(r, a, b))),
        Instr::St(Place::Cell(a), b) => go_each(
            job,
            lanes,
            block,
            &stand.by(|| Instr::St(Place::Cell(a), b)),
        ),
        Instr::St(Place::Named(array, a), b) => go_each(
            job,
            lanes,
            block,
            &stand.by(|| Instr::St(Place::Named(array, a), b)),
        ),
        _ => go_by_sum(job, lanes, block, stand),
    }
}

// Of these, those of arithmetic.
#[inline(always)]
fn go_by_sum(job: &Job, lanes: Span, block: &mut Block, stand: Stand<'_>)
    requires procs { AllIn lanes.start lanes.end (λ k. lanes.first + k < job.now.procs) }
    requires stand { slice_get job.now.code stand.counter ≡ Some stand.instr.now }
    ensures { GetAsFar job.now lanes block.old block.new }
{
    match *stand.instr {
        Instr::Add(r, a, b) => go_each(job, lanes, block, &stand.by(|| Instr::Add(r, a, b))),
        Instr::Sub(r, a, b) => go_each(job, lanes, block, &stand.by(|| Instr::Sub(r, a, b))),
        Instr::Mul(r, a, b) => go_each(job, lanes, block, &stand.by(|| Instr::Mul(r, a, b))),
        Instr::Div(r, a, b) => go_each(job, lanes, block, &stand.by(|| Instr::Div(r, a, b))),
        Instr::Rem(r, a, b) => go_each(job, lanes, block, &stand.by(|| Instr::Rem(r, a, b))),
        _ => go_by_bits(job, lanes, block, stand),
    }
}

// And those of bits, and the rest.
#[inline(always)]
fn go_by_bits(job: &Job, lanes: Span, block: &mut Block, stand: Stand<'_>)
    requires procs { AllIn lanes.start lanes.end (λ k. lanes.first + k < job.now.procs) }
    requires stand { slice_get job.now.code stand.counter ≡ Some stand.instr.now }
    ensures { GetAsFar job.now lanes block.old block.new }
{
    match *stand.instr {
        Instr::Shl(r, a, b) => go_each(job, lanes, block, &stand.by(|| Instr::Shl(r, a, b))),
        Instr::Shr(r, a, b) => go_each(job, lanes, block, &stand.by(|| Instr::Shr(r, a, b))),
        Instr::And(r, a, b) => go_each(job, lanes, block, &stand.by(|| Instr::And(r, a, b))),
        Instr::Or(r, a, b) => go_each(job, lanes, block, &stand.by(|| Instr::Or(r, a, b))),
        Instr::Xor(r, a, b) => go_each(job, lanes, block, &stand.by(|| Instr::Xor(r, a, b))),
        instr => go_each(job, lanes, block, &stand.by(|| instr)),
    }
}

// The same. A loop in a function of its own has what it uses in registers.
#[inline(never)]
fn go_each<F: Fn() -> Instr>(job: &Job, lanes: Span, block: &mut Block, by: &Formed<'_, F>)
    requires procs { AllIn lanes.start lanes.end (λ k. lanes.first + k < job.now.procs) }
    requires stand { slice_get job.now.code by.now.stand.counter ≡ Some by.now.stand.instr.now }
    requires form { GivesInstr F.Fn by.now.form by.now.stand.instr.now }
    ensures { GetAsFar job.now lanes block.old block.new }
{
    let instr = (by.form)();
    let counter = by.stand.counter;
    for k in lanes.start..lanes.end {
        let stand = Stand {
            counter,
            instr: &instr,
        };
        go_one_at(job, lanes.first + k as u32, block, k, stand);
    }
}
