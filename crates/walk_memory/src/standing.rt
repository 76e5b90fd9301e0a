//! A block remembers some lanes that stand together.
ghost use Rattle.std.specs.Prelude.{◌≡◌, ◌<◌, ◌≤◌, ℕ, IfSome, IsTrue, slice_index, suc};
ghost use Rattle.pram_words.specs.Phases.{kind_at};
ghost use Rattle.pram_words.specs.declared.phases.Kind.{Kind};
ghost use Rattle.walk_memory.specs.Inner.Posts.{step_of};
ghost use Rattle.walk_memory.specs.Lanes.{lane};
ghost use Rattle.walk_memory.specs.Rows.{AllIn, lane_as};
ghost use Rattle.walk_memory.specs.Standing.{IsDone, IsThere};

use crate::as_one::{Standing, Together};
use crate::block::Block;
use crate::post::Leaf;
use crate::row_walk::all_equal;
use crate::span::Span;

/// It is of these lanes.
#[inline(always)]
pub(crate) fn is_of(standing: Standing, lanes: Span) -> bool
    ensures start { IsTrue result → standing.start ≡ lanes.start }
    ensures end { IsTrue result → standing.end ≡ lanes.end }
    ensures some { IsTrue result → lanes.start < lanes.end }
{
    lanes.start < lanes.end && standing.start == lanes.start && standing.end == lanes.end
}

/// Where all stand, if the block remembers that they stand together, and none acted in a later
/// phase.
#[inline(always)]
pub(crate) fn remembered(block: &Block, lanes: Span, phase: u64) -> Option<Together>
    ensures lanes { IfSome result (λ at. AllIn lanes.start lanes.end (λ k.
        lane_as at block.now k ≡ lane block.now k)) }
    ensures acted { IfSome result (λ _. AllIn lanes.start lanes.end (λ k.
        slice_index block.now.acted k ≤ phase)) }
    ensures some { IfSome result (λ _. lanes.start < lanes.end) }
{
    let standing = block.standing;
    if is_of(standing, lanes) && standing.acted <= phase {
        Some(standing.at)
    } else {
        None
    }
}

/// The block remembers that these all stand there, and that none acted in a later phase than this.
#[inline(always)]
pub(crate) fn remember(block: &mut Block, lanes: Span, at: Together, acted: u64)
    requires { AllIn lanes.start lanes.end (λ k. IsThere at acted (lane block.old k)) }
    ensures { (k : ℕ) → lane block.new k ≡ lane block.old k }
{
    block.standing = Standing {
        start: lanes.start,
        end: lanes.end,
        at,
        acted,
    };
}

/// These settled in this step and phase, and have no store: the block remembers where they stand, if
/// they stand together.
#[inline(always)]
pub(crate) fn remember_done(block: &mut Block, lanes: Span, step: u32, phase: u64)
    requires { AllIn lanes.start lanes.end (λ k. IsDone step phase (lane block.old k)) }
    ensures { (k : ℕ) → lane block.new k ≡ lane block.old k }
{
    if lanes.start == lanes.end {
        return;
    }
    let counter = block.counter[lanes.start];
    if all_equal(&block.counter, lanes, counter) {
        let at = Together {
            counter,
            step,
            settled: step,
            stored: false,
        };
        remember(block, lanes, at, phase);
    }
}

/// All are known before the leaf's step, and stand at this counter, if so.
#[inline(always)]
pub(crate) fn stand_before(leaf: &Leaf, block: &Block, lanes: Span, counter: u32) -> bool
    requires { kind_at leaf.now.phase ≡ Kind.Compute }
    ensures before { IsTrue result → AllIn lanes.start lanes.end (λ k.
        suc (slice_index block.now.step k) ≡ step_of leaf.now) }
    ensures there { IsTrue result → AllIn lanes.start lanes.end (λ k.
        slice_index block.now.counter k ≡ counter) }
{
    let step = leaf.step() - 1;
    let standing = block.standing;
    if is_of(standing, lanes) {
        return standing.at.step == step && standing.at.counter == counter;
    }
    all_equal(&block.step, lanes, step) && all_equal(&block.counter, lanes, counter)
}
