//! Parts of a task.
ghost use Rattle.pram_words.specs.declared.layout.Form.TheVariants.{Compact};
ghost use Rattle.std.specs.Prelude.{◌≡◌, ℕ, ◌+◌, ◌^◌, ◌<◌, ◌≤◌, ◌==◌, IfOk};
ghost use Rattle.pram_words.specs.Words.{most_asked};
ghost use Rattle.walkx.specs.Driving.{IsNextPart, Plays};
ghost use Rattle.walkx.specs.declared.operation.Op.TheVariants.{Swap};
ghost use Rattle.walk_memory.specs.Inner.Posts.{IsPairAt};
ghost use Rattle.walkx.specs.Parts.{both_of, hears_request, swap_of, writes};

use crate::judging::{is_late, is_of};
use crate::left::Left;
use crate::operation::Op;
use crate::steps::Steps;
use pram_words::{first_is_older, payload, stamped};
use walk_memory::Leaf;

/// Part j of the request, as long as it is of the step.
#[inline(always)]
pub(crate) fn hear_part<S: Steps>(steps: &mut S, leaf: &Leaf, j: u32) -> Result<u32, Left>
    requires compact { leaf.now.layout.form ≡ Compact }
    requires part { j < 3 }
    requires next { IsNextPart (S.stands leaf.now) steps.old (hears_request leaf.now j) }
    ensures most { IfOk result (λ v. v ≤ most_asked leaf.now.layout leaf.now.job j) }
    ensures plays { Plays (S.stands leaf.now) steps.old (hears_request leaf.now j) steps.new
        result }
{
    let found = steps.make(Op::Load(leaf.request_word(j)))?;
    if is_of(leaf, found) {
        Ok(payload(found))
    } else {
        Err(Left::Late)
    }
}

/// Both words of a place, the first of which is this.
#[inline(always)]
pub(crate) fn hear_both<S: Steps>(
    steps: &mut S,
    leaf: &Leaf,
    place: u32,
    word: u32,
) -> Result<(u64, u64), Left>
    requires word { IsPairAt leaf.now.layout place word }
    requires next { IsNextPart (S.stands leaf.now) steps.old (both_of leaf.now place) }
    ensures plays { Plays (S.stands leaf.now) steps.old (both_of leaf.now place) steps.new result }
{
    let first = steps.load(word)?;
    let second = steps.load(word + 1)?;
    Ok((first, second))
}

/// A place is written, unless it was written in the step or later.
#[inline(always)]
pub(crate) fn write_place<S: Steps>(
    steps: &mut S,
    leaf: &Leaf,
    place: u32,
    word: u32,
    value: u32,
) -> Result<(), Left>
    requires word { IsPairAt leaf.now.layout place word }
    requires next { IsNextPart (S.stands leaf.now) steps.old (writes leaf.now place value) }
    ensures plays { Plays (S.stands leaf.now) steps.old (writes leaf.now place value) steps.new
        result }
{
    let (first, second) = hear_both(steps, leaf, place, word)?;
    if is_late(leaf, first, second) {
        return Ok(());
    }
    let (at, old, new) = older_swap(leaf, word, value, first, second);
    steps.swap(at, old, new)?;
    Ok(())
}

/// How the older of the two words is swapped for the value: that word, what it held, and what it is
/// to hold.
#[inline(always)]
pub(crate) fn older_swap(
    leaf: &Leaf,
    word: u32,
    value: u32,
    first: u64,
    second: u64,
) -> (u32, u64, u64)
    requires { word + 1 < 2 ^ 32 }
    ensures { (place : ℕ) → IsPairAt leaf.now.layout place word →
        Swap result.0 result.1 result.2 ≡ swap_of leaf.now place value first second }
{
    let new = stamped(leaf.step(), value);
    if first_is_older(first, second) {
        (word, first, new)
    } else {
        (word + 1, second, new)
    }
}

/// There is no data place.
#[inline(always)]
pub(crate) fn is_none(place: u32) -> bool
    ensures { result ≡ (place == 0) }
{
    place == 0
}
