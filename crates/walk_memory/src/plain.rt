//! Loads of which little is to be done.
ghost use Rattle.std.specs.Prelude.{◌≡◌, ◌≢◌, ◌<◌, ◌≤◌, ℕ, IfSome, IsTrue, slice_index, slice_set};
ghost use Rattle.walk_memory.specs.Lanes.{entries, lane};
ghost use Rattle.walk_memory.specs.Memory.{at_start};
ghost use Rattle.walk_memory.specs.Stands.{IsStand};
ghost use Rattle.walk_memory.specs.Plain.{LoadsPlainly, loaded};
ghost use Rattle.walk_memory.specs.Rows.{AllIn, Written};

use crate::block::Block;
use crate::load_in::Loads;
use crate::memo::{Memo, Stand};
use crate::post::Leaf;
use crate::row_walk::{all_equal, so_in};
use crate::rows::{cells_of, copy_in, put_values, set_in};
use crate::span::{LANES, Span};
use crate::standing::{remember_done, stand_before};
use pram_job::Instr;

/// The loads of these lanes, if all load plainly by the instruction that the leaf's stands at.
#[inline(never)]
pub(crate) fn plain_loads(
    leaf: &Leaf,
    block: &Block,
    lanes: Span,
    stand: Stand<'_>,
) -> Option<Loads>
    requires { IsStand leaf.now stand.counter stand.instr.now }
    ensures { IfSome result (λ loads. AllIn lanes.start lanes.end (λ k. LoadsPlainly leaf.now
        (lane block.now k) loads.register (slice_index loads.cells k))) }
{
    let Instr::Ld(register, ref place) = *stand.instr else {
        return None;
    };
    let job = leaf.job();
    job.limits_hold();
    if !stand_before(leaf, block, lanes, stand.counter) {
        return None;
    }
    if !all_equal(&block.told_counter, lanes, stand.counter + 1) {
        return None;
    }
    if !all_told(&block.told, &block.registers, lanes, register) {
        return None;
    }
    let cells = cells_of(job, lanes, block, place)?;
    Some(Loads { register, cells })
}

/// There are some, and the last one stands at this counter. It costs little to look where few do.
#[inline(always)]
pub(crate) fn last_stands(block: &Block, lanes: Span, counter: u32) -> bool
    ensures { IsTrue result → lanes.start < lanes.end }
{
    lanes.start < lanes.end && block.counter[lanes.end - 1] == counter
}

// Their words tell their registers but for this one, if so.
#[inline(always)]
fn all_told(told: &[[u32; LANES]; 4], own: &[[u32; LANES]; 4], lanes: Span, r: u8) -> bool
    ensures { IsTrue result → AllIn lanes.start lanes.end (λ k. (value : ℕ) →
        slice_set (entries told.now k) r value ≡ slice_set (entries own.now k) r value) }
{
    if !is_told(told, own, lanes, r, 0) {
        return false;
    }
    if !is_told(told, own, lanes, r, 1) {
        return false;
    }
    if !is_told(told, own, lanes, r, 2) {
        return false;
    }
    is_told(told, own, lanes, r, 3)
}

// They tell register s, or it is r, if so.
#[inline(always)]
fn is_told(told: &[[u32; LANES]; 4], own: &[[u32; LANES]; 4], lanes: Span, r: u8, s: u8) -> bool
    requires { s < 4 }
    ensures { IsTrue result → s ≢ r → AllIn lanes.start lanes.end (λ k.
        slice_index (entries told.now k) s ≡ slice_index (entries own.now k) s) }
{
    s == r || all_same(&told[s as usize], &own[s as usize], lanes)
}

// Each of these lanes has the same in both, if so.
#[inline(always)]
fn all_same(x: &[u32; LANES], y: &[u32; LANES], lanes: Span) -> bool
    ensures { IsTrue result → AllIn lanes.start lanes.end (λ k.
        slice_index x.now k ≡ slice_index y.now k) }
{
    let mut all = true;
    for k in lanes.start..lanes.end {
        all &= x[k] == y[k];
    }
    all
}

/// The register of each of these took its lane's value.
#[inline(always)]
pub(crate) fn take_loads(leaf: &Leaf, block: &mut Block, lanes: Span, r: u8, values: &[u32; LANES])
    requires { r < 4 }
    ensures there { AllIn lanes.start lanes.end (λ k. lane block.new k
        ≡ loaded leaf.now (lane block.old k) r (slice_index values.now k)) }
    ensures before { (k : ℕ) → k < lanes.start → lane block.new k ≡ lane block.old k }
    ensures after { (k : ℕ) → lanes.end ≤ k → lane block.new k ≡ lane block.old k }
{
    put_loads(leaf, block, lanes, r, values);
    remember_done(block, lanes, leaf.step(), leaf.phase());
}

// The same, by their rows.
#[inline(always)]
fn put_loads(leaf: &Leaf, block: &mut Block, lanes: Span, r: u8, values: &[u32; LANES])
    requires { r < 4 }
    ensures there { AllIn lanes.start lanes.end (λ k. lane block.new k
        ≡ loaded leaf.now (lane block.old k) r (slice_index values.now k)) }
    ensures before { (k : ℕ) → k < lanes.start → lane block.new k ≡ lane block.old k }
    ensures after { (k : ℕ) → lanes.end ≤ k → lane block.new k ≡ lane block.old k }
{
    block.standing.end = 0;
    phase_in(&mut block.acted, lanes, leaf.phase());
    set_in(&mut block.step, lanes, leaf.step());
    set_in(&mut block.settled, lanes, leaf.step());
    copy_in(&mut block.counter, lanes, &block.told_counter);
    put_values(&mut block.registers, lanes, r, values);
    put_values(&mut block.told, lanes, r, values);
    so_in(&mut block.stored, lanes, false);
}

/// Each of these lanes takes this phase.
#[inline(always)]
pub(crate) fn phase_in(to: &mut [u64; LANES], lanes: Span, phase: u64)
    ensures { Written lanes.start lanes.end (λ k. phase) to.old to.new }
{
    for k in lanes.start..lanes.end {
        to[k] = phase;
    }
}

/// What was known of it is forgotten.
#[inline(never)]
pub fn forget(block: &mut Block, k: usize)
    requires { k < 64 }
    ensures same { lane block.new k ≡ at_start }
    ensures others { (j : ℕ) → j ≢ k → lane block.new j ≡ lane block.old j }
{
    block.set(k, &Memo::at_start());
}
