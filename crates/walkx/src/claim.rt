//! Claims to cells.
ghost use Rattle.pram_words.specs.declared.layout.Form.TheVariants.{Compact};
ghost use Rattle.std.specs.Prelude.{◌≡◌, ◌≢◌, ◌≤◌, IfOk};
ghost use Rattle.walkx.specs.Driving.{Ends, IsDue, IsNextPart, Plays};
ghost use Rattle.walkx.specs.Parts.{claims_cell, claims_data, owns, readies};

use crate::judging::{claim_look, claiming, is_cell, is_past, owner_place};
use crate::left::Left;
use crate::parts::hear_part;
use crate::steps::Steps;
use pram_job::Rule;
use walk_memory::Leaf;

/// The cell of a data place is claimed, if it is one.
#[inline(always)]
pub(crate) fn claim_data<S: Steps>(steps: &mut S, leaf: &Leaf, place: u32) -> Result<(), Left>
    requires rule { leaf.now.job.rule ≢ Rule.Common }
    requires next { IsNextPart (S.stands leaf.now) steps.old (claims_data leaf.now place) }
    ensures plays { Plays (S.stands leaf.now) steps.old (claims_data leaf.now place) steps.new
        result }
{
    if is_cell(leaf, place) {
        steps.make(claiming(leaf, place - 1))?;
    }
    Ok(())
}

/// The data place that is to be written: that of a cell whose claim is not the processor's own is
/// left out.
#[inline(always)]
pub(crate) fn owned<S: Steps>(steps: &mut S, leaf: &Leaf, place: u32) -> Result<u32, Left>
    requires rule { leaf.now.job.rule ≢ Rule.Common }
    requires next { IsNextPart (S.stands leaf.now) steps.old (owns leaf.now place) }
    ensures most { IfOk result (λ p. p ≤ place) }
    ensures plays { Plays (S.stands leaf.now) steps.old (owns leaf.now place) steps.new result }
{
    if !is_cell(leaf, place) {
        return Ok(place);
    }
    let found = steps.make(claim_look(leaf, place - 1))?;
    if is_past(leaf, found) {
        return Err(Left::Late);
    }
    Ok(owner_place(leaf, place, found))
}

/// The data place that is to be written by the rule.
#[inline(always)]
pub(crate) fn ready<S: Steps>(steps: &mut S, leaf: &Leaf, place: u32) -> Result<u32, Left>
    requires next { IsNextPart (S.stands leaf.now) steps.old (readies leaf.now.job.rule leaf.now
        place) }
    ensures most { IfOk result (λ p. p ≤ place) }
    ensures plays { Plays (S.stands leaf.now) steps.old (readies leaf.now.job.rule leaf.now place)
        steps.new result }
{
    match leaf.rule() {
        Rule::Common => Ok(place),
        Rule::Priority => owned(steps, leaf, place),
        Rule::Crew => {
            claim_data(steps, leaf, place)?;
            Ok(place)
        }
    }
}

/// The cell of the request is claimed.
#[inline(always)]
pub(crate) fn claim_cell<S: Steps>(steps: &mut S, leaf: &Leaf) -> Result<(), Left>
    requires compact { leaf.now.layout.form ≡ Compact }
    requires rule { leaf.now.job.rule ≢ Rule.Common }
    requires due { IsDue (S.stands leaf.now) steps.old (claims_cell leaf.now) }
    ensures ends { Ends (S.stands leaf.now) steps.old (claims_cell leaf.now) steps.new result }
{
    let place = hear_part(steps, leaf, 0)?;
    claim_data(steps, leaf, place)
}
