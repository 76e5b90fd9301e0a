//! Stores that are remembered: each is carried out by its lane's cell and value.
ghost use Rattle.std.specs.Prelude.{◌≡◌, ◌≢◌, ◌<◌, ℕ, List, slice_set};
ghost use Rattle.pram_words.specs.Phases.{kind_at};
ghost use Rattle.walk_memory.specs.declared.memo.Memo.{Memo};
ghost use Rattle.walkx.specs.Driving.{IsNextPart, Plays, learns};
ghost use Rattle.walk_memory.specs.Inner.Posts.{processor_of};
ghost use Rattle.walk_memory.specs.Lanes.{lane};
ghost use Rattle.walk_memory.specs.Memory.{FitsMemo, memo_of};
ghost use Rattle.walkx.specs.Parts.{does_wide};
ghost use Rattle.walkx.specs.Passing.{TakesUpIf};
ghost use Rattle.walk_memory.specs.Plain.{HasStore};

use crate::left::{Left, Stopped};
use crate::steps::Steps;
use crate::turns::settle;
use crate::wide_store::carry_store;
use pram_words::Kind;
use walk_memory::{Block, Leaf};

/// The second pass of a lane's processor, where it is known what it does in it; else nothing is
/// done.
#[inline(always)]
pub(crate) fn carry_known<S: Steps>(
    steps: &mut S,
    leaf: &Leaf,
    block: &mut Block,
    k: usize,
) -> Result<bool, Stopped>
    requires lane { k < 64 }
    requires second { kind_at leaf.now.phase ≡ Kind.Verify }
    requires memo { FitsMemo leaf.now.job (lane block.old k) }
    requires next { IsNextPart (S.stands leaf.now) steps.old
        (does_wide leaf.now (lane block.old k)) }
    ensures others { (j : ℕ) → j ≢ k → lane block.new j ≡ lane block.old j }
    ensures takes { (memory : List Memo) → memo_of memory (processor_of leaf.now)
        ≡ lane block.old k → TakesUpIf (S.stands leaf.now) leaf.now steps.old memory steps.new
        (slice_set memory (processor_of leaf.now) (lane block.new k)) result }
{
    if block.stored[k] && block.step[k] == leaf.step() {
        settle(carry_lane(steps, leaf, block, k))?;
        return Ok(true);
    }
    Ok(block.memo(k).is_past(leaf.phase()))
}

// The same, where its store is remembered.
#[inline(always)]
fn carry_lane<S: Steps>(steps: &mut S, leaf: &Leaf, block: &mut Block, k: usize) -> Result<(), Left>
    requires lane { k < 64 }
    requires store { HasStore leaf.now (lane block.old k) }
    requires memo { FitsMemo leaf.now.job (lane block.old k) }
    requires next { IsNextPart (S.stands leaf.now) steps.old
        (does_wide leaf.now (lane block.old k)) }
    ensures others { (j : ℕ) → j ≢ k → lane block.new j ≡ lane block.old j }
    ensures plays { Plays (S.stands leaf.now) steps.old (does_wide leaf.now (lane block.old k))
        steps.new (learns result (lane block.new k)) }
{
    let phase = leaf.phase();
    carry_store(steps, leaf, (block.cell[k], block.value[k]))?;
    block.carry(k, phase);
    Ok(())
}
