//! Claims of which little is to be done.
ghost use Rattle.std.specs.Prelude.{◌≡◌, ◌+◌, ◌-◌, ◌^◌, ◌<◌, ◌≤◌, ℕ, IfSome, IsTrue, false};
ghost use Rattle.std.specs.Prelude.{slice_index};
ghost use Rattle.pram_words.specs.Words.{grain};
ghost use Rattle.walk_memory.specs.Lanes.{lane};
ghost use Rattle.walk_memory.specs.Memory.{is_due};
ghost use Rattle.walk_memory.specs.Stands.{IsStand};
ghost use Rattle.walk_memory.specs.Plain.{AllClaimBy, ClaimsPlainly, claimed, claimed_all};
ghost use Rattle.walk_memory.specs.Rows.{AllIn};

use crate::as_one::Together;
use crate::asked::is_due;
use crate::block::Block;
use crate::load_in::Claims;
use crate::memo::{Memory, Stand};
use crate::plain::phase_in;
use crate::post::Leaf;
use crate::row_walk::{lanes_to, so_in};
use crate::rows::{cells_of, copy_held, copy_in, count_in, is_common, set_in};
use crate::span::{LANES, Span};
use crate::standing::{is_of, remember, stand_before};
use pram_job::Instr;

/// The claims of these lanes, if all claim plainly by the instruction that the leaf's stands at.
#[inline(never)]
pub(crate) fn plain_claims(
    leaf: &Leaf,
    block: &Block,
    lanes: Span,
    stand: Stand<'_>,
) -> Option<Claims>
    requires { IsStand leaf.now stand.counter stand.instr.now }
    ensures { IfSome result (λ claims. AllIn lanes.start lanes.end (λ k. ClaimsPlainly leaf.now
        (lane block.now k) (slice_index claims.cells k) claims.operand)) }
{
    let Instr::St(ref place, b) = *stand.instr else {
        return None;
    };
    let job = leaf.job();
    job.limits_hold();
    if is_common(job) || !none_due(block, lanes, leaf.step()) {
        return None;
    }
    if !stand_before(leaf, block, lanes, stand.counter) {
        return None;
    }
    let cells = cells_of(job, lanes, block, place)?;
    Some(Claims { operand: b, cells })
}

// The words of none are due in this step, if so.
#[inline(always)]
fn none_due(block: &Block, lanes: Span, step: u32) -> bool
    ensures { IsTrue result → AllIn lanes.start lanes.end (λ k.
        is_due (slice_index block.now.settled k) step ≡ false) }
{
    let standing = block.standing;
    if is_of(standing, lanes) {
        return !is_due(standing.at.settled, step);
    }
    none_due_in(&block.settled, lanes, step)
}

// The same by their row.
#[inline(always)]
fn none_due_in(x: &[u32; LANES], lanes: Span, step: u32) -> bool
    ensures { IsTrue result → AllIn lanes.start lanes.end (λ k.
        is_due (slice_index x.now k) step ≡ false) }
{
    let mut none = true;
    for k in lanes.start..lanes.end {
        none &= !is_due(x[k], step);
    }
    none
}

impl Memory {
    /// The processors from the leaf's on, up to this rank of its block, made their claims.
    #[inline(always)]
    pub fn take_claims(&mut self, leaf: &Leaf, end: u32, claims: &Claims)
        requires later { leaf.now.rank ≤ end }
        requires within { end ≤ grain leaf.now.layout }
        requires plain { AllClaimBy leaf.now end self.old claims.now }
        ensures { self.new ≡ claimed_all leaf.now (end - leaf.now.rank) claims.now self.old }
    {
        leaf.job().limits_hold();
        let lanes = lanes_to(leaf, end);
        let q = (lanes.first / 64) as usize;
        match &mut self.blocks {
            Some(blocks) => {
                if q < blocks.len() {
                    claim_in(leaf, &mut blocks[q], lanes, claims);
                }
            }
            None => {}
        }
    }
}

// These lanes made their claims. Where they stood together, they still do.
#[inline(always)]
fn claim_in(leaf: &Leaf, block: &mut Block, lanes: Span, claims: &Claims)
    requires { AllIn lanes.start lanes.end (λ k. slice_index block.old.counter k + 1 < 2 ^ 32) }
    ensures there { AllIn lanes.start lanes.end (λ k. lane block.new k ≡ claimed leaf.now
        (lane block.old k) (slice_index claims.now.cells k) claims.now.operand) }
    ensures before { (k : ℕ) → k < lanes.start → lane block.new k ≡ lane block.old k }
    ensures after { (k : ℕ) → lanes.end ≤ k → lane block.new k ≡ lane block.old k }
{
    let standing = block.standing;
    claim_rows(leaf, block, lanes, claims);
    if is_of(standing, lanes) {
        let at = Together {
            counter: block.counter[lanes.start],
            step: leaf.step(),
            stored: true,
            ..standing.at
        };
        remember(block, lanes, at, leaf.phase());
    }
}

// The same by their rows.
#[inline(always)]
fn claim_rows(leaf: &Leaf, block: &mut Block, lanes: Span, claims: &Claims)
    requires { AllIn lanes.start lanes.end (λ k. slice_index block.old.counter k + 1 < 2 ^ 32) }
    ensures there { AllIn lanes.start lanes.end (λ k. lane block.new k ≡ claimed leaf.now
        (lane block.old k) (slice_index claims.now.cells k) claims.now.operand) }
    ensures before { (k : ℕ) → k < lanes.start → lane block.new k ≡ lane block.old k }
    ensures after { (k : ℕ) → lanes.end ≤ k → lane block.new k ≡ lane block.old k }
{
    block.standing.end = 0;
    phase_in(&mut block.acted, lanes, leaf.phase());
    set_in(&mut block.step, lanes, leaf.step());
    count_in(&mut block.counter, lanes);
    so_in(&mut block.stored, lanes, true);
    copy_in(&mut block.cell, lanes, &claims.cells);
    copy_held(&mut block.value, lanes, &block.registers, claims.operand);
}
