//! The apply tasks: a request is heard and carried out.
ghost use Rattle.pram_words.specs.declared.layout.Form.TheVariants.{Compact};
ghost use Rattle.std.specs.Prelude.{◌≡◌, ◌≤◌};
ghost use Rattle.pram_words.specs.Words.{counters_of};
ghost use Rattle.walkx.specs.Driving.{Ends, IsDue, IsNextPart, Plays};
ghost use Rattle.walkx.specs.Parts.{applies, carries_out, writes_data};

use crate::claim::ready;
use crate::left::Left;
use crate::parts::{hear_part, is_none, write_place};
use crate::steps::Steps;
use walk_memory::Leaf;

/// The data of a request is written, if there is any.
#[inline(always)]
pub(crate) fn write_data<S: Steps>(
    steps: &mut S,
    leaf: &Leaf,
    place: u32,
    value: u32,
) -> Result<(), Left>
    requires place { place ≤ counters_of leaf.now.layout }
    requires next { IsNextPart (S.stands leaf.now) steps.old (writes_data leaf.now place value) }
    ensures plays { Plays (S.stands leaf.now) steps.old (writes_data leaf.now place value)
        steps.new result }
{
    if is_none(place) {
        return Ok(());
    }
    let word = leaf.place_word(place - 1);
    write_place(steps, leaf, place - 1, word, value)
}

/// A request is carried out: its data, if there is any, and the next counter.
#[inline(always)]
pub(crate) fn carry<S: Steps>(
    steps: &mut S,
    leaf: &Leaf,
    place: u32,
    value: u32,
    count: u32,
) -> Result<(), Left>
    requires place { place ≤ counters_of leaf.now.layout }
    requires next { IsNextPart (S.stands leaf.now) steps.old
        (carries_out leaf.now place value count) }
    ensures plays { Plays (S.stands leaf.now) steps.old (carries_out leaf.now place value count)
        steps.new result }
{
    write_data(steps, leaf, place, value)?;
    let counter = leaf.counter_place();
    write_place(steps, leaf, counter, leaf.counter_word(), count)
}

/// The request of the processor is heard, and carried out by the rule.
#[inline(always)]
pub(crate) fn apply<S: Steps>(steps: &mut S, leaf: &Leaf) -> Result<(), Left>
    requires compact { leaf.now.layout.form ≡ Compact }
    requires due { IsDue (S.stands leaf.now) steps.old (applies leaf.now.job.rule leaf.now) }
    ensures ends { Ends (S.stands leaf.now) steps.old (applies leaf.now.job.rule leaf.now)
        steps.new result }
{
    let place = hear_part(steps, leaf, 0)?;
    let value = hear_part(steps, leaf, 1)?;
    let count = hear_part(steps, leaf, 2)?;
    let ready = ready(steps, leaf, place)?;
    carry(steps, leaf, ready, value, count)
}
