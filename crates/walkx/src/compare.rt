//! The verify tasks: what stands in a place, or in a claim, is compared.
ghost use Rattle.pram_words.specs.declared.layout.Form.TheVariants.{Compact};
ghost use Rattle.std.specs.Prelude.{◌≡◌, ◌≢◌, ◌<◌, ◌≤◌};
ghost use Rattle.pram_words.specs.Words.{counters_of, places_of};
ghost use Rattle.walkx.specs.Driving.{Ends, IsDue, IsNextPart, Plays};
ghost use Rattle.walkx.specs.Parts.{compares, compares_claim, compares_claims, compares_data};
ghost use Rattle.walkx.specs.Parts.{compares_place, either_differs, reports_if};

use crate::judging::{claim_for, claim_look, differs, is_cell, reporting};
use crate::left::Left;
use crate::parts::{hear_both, hear_part, is_none};
use crate::steps::Steps;
use pram_job::Rule;
use walk_memory::Leaf;

/// The step is reported, if it is against the rule.
#[inline(always)]
pub(crate) fn report_if<S: Steps>(steps: &mut S, leaf: &Leaf, conflict: bool) -> Result<(), Left>
    requires next { IsNextPart (S.stands leaf.now) steps.old (reports_if leaf.now conflict) }
    ensures plays { Plays (S.stands leaf.now) steps.old (reports_if leaf.now conflict) steps.new
        result }
{
    if conflict {
        steps.make(reporting(leaf))?;
    }
    Ok(())
}

// A value is compared with what a place holds.
#[inline(always)]
fn compare_place<S: Steps>(steps: &mut S, leaf: &Leaf, place: u32, value: u32) -> Result<(), Left>
    requires place { place < places_of leaf.now.layout }
    requires next { IsNextPart (S.stands leaf.now) steps.old (compares_place leaf.now place value) }
    ensures plays { Plays (S.stands leaf.now) steps.old (compares_place leaf.now place value)
        steps.new result }
{
    let word = leaf.place_word(place);
    let (first, second) = hear_both(steps, leaf, place, word)?;
    report_if(steps, leaf, either_differs(leaf, value, first, second))
}

/// The value of the request is compared with what its data place holds, if there is one.
#[inline(always)]
pub(crate) fn compare_data<S: Steps>(steps: &mut S, leaf: &Leaf, place: u32) -> Result<(), Left>
    requires compact { leaf.now.layout.form ≡ Compact }
    requires place { place ≤ counters_of leaf.now.layout }
    requires next { IsNextPart (S.stands leaf.now) steps.old (compares_data leaf.now place) }
    ensures plays { Plays (S.stands leaf.now) steps.old (compares_data leaf.now place) steps.new
        result }
{
    if is_none(place) {
        return Ok(());
    }
    let value = hear_part(steps, leaf, 1)?;
    compare_place(steps, leaf, place - 1, value)
}

/// The verify task of the rule common.
#[inline(always)]
pub(crate) fn compare<S: Steps>(steps: &mut S, leaf: &Leaf) -> Result<(), Left>
    requires compact { leaf.now.layout.form ≡ Compact }
    requires due { IsDue (S.stands leaf.now) steps.old (compares leaf.now) }
    ensures ends { Ends (S.stands leaf.now) steps.old (compares leaf.now) steps.new result }
{
    let place = hear_part(steps, leaf, 0)?;
    compare_data(steps, leaf, place)
}

/// The claim to the cell of a data place is compared with the processor's own.
#[inline(always)]
pub(crate) fn compare_claim<S: Steps>(steps: &mut S, leaf: &Leaf, place: u32) -> Result<(), Left>
    requires rule { leaf.now.job.rule ≢ Rule.Common }
    requires next { IsNextPart (S.stands leaf.now) steps.old (compares_claim leaf.now place) }
    ensures plays { Plays (S.stands leaf.now) steps.old (compares_claim leaf.now place) steps.new
        result }
{
    if !is_cell(leaf, place) {
        return Ok(());
    }
    let found = steps.make(claim_look(leaf, place - 1))?;
    report_if(steps, leaf, differs(leaf, claim_for(leaf), found))
}

/// The verify task of the rule crew.
#[inline(always)]
pub(crate) fn compare_claims<S: Steps>(steps: &mut S, leaf: &Leaf) -> Result<(), Left>
    requires compact { leaf.now.layout.form ≡ Compact }
    requires rule { leaf.now.job.rule ≢ Rule.Common }
    requires due { IsDue (S.stands leaf.now) steps.old (compares_claims leaf.now) }
    ensures ends { Ends (S.stands leaf.now) steps.old (compares_claims leaf.now) steps.new result }
{
    let place = hear_part(steps, leaf, 0)?;
    compare_claim(steps, leaf, place)
}

/// One of the two words is of the step and has another payload.
#[inline(always)]
pub(crate) fn either_differs(leaf: &Leaf, value: u32, first: u64, second: u64) -> bool
    ensures { result ≡ either_differs leaf.now value (first, second) }
{
    differs(leaf, value, first) || differs(leaf, value, second)
}
