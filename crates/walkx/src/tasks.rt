//! The task of a phase, by the form of the board, the kind of the phase and the rule of writing.
ghost use Rattle.pram_words.specs.declared.layout.Form.TheVariants.{Compact};
ghost use Rattle.std.specs.Prelude.{◌≡◌, true};
ghost use Rattle.pram_words.specs.Phases.{kind_at};
ghost use Rattle.walkx.specs.Driving.{Ends, IsDue, IsNextPart, Plays, learns};
ghost use Rattle.walk_memory.specs.Memory.{FitsMemo, is_past};
ghost use Rattle.walkx.specs.Parts.{does_compact, does_wide, does_wide_in};
ghost use Rattle.walkx.specs.Passing.{Passes, idle};

use crate::carry::apply;
use crate::claim::claim_cell;
use crate::compare::{compare, compare_claims};
use crate::left::Left;
use crate::request::compute;
use crate::steps::Steps;
use crate::wide_own::own;
use crate::wide_store::{carry_store, store};
use pram_job::Rule;
use pram_words::Kind;
use walk_memory::{Leaf, Memo};

/// The task of the phase in the compact form.
#[inline(always)]
pub(crate) fn compact_task<S: Steps>(steps: &mut S, leaf: &Leaf) -> Result<(), Left>
    requires compact { leaf.now.layout.form ≡ Compact }
    requires due { IsDue (S.stands leaf.now) steps.old (does_compact leaf.now) }
    ensures ends { Ends (S.stands leaf.now) steps.old (does_compact leaf.now) steps.new result }
{
    match (leaf.kind(), leaf.rule()) {
        (Kind::Compute, _) => compute(steps, leaf),
        (Kind::Apply, Rule::Common) => apply(steps, leaf),
        (Kind::Apply, Rule::Priority) => claim_cell(steps, leaf),
        (Kind::Apply, Rule::Crew) => apply(steps, leaf),
        (Kind::Verify, Rule::Common) => compare(steps, leaf),
        (Kind::Verify, Rule::Priority) => apply(steps, leaf),
        (Kind::Verify, Rule::Crew) => compare_claims(steps, leaf),
    }
}

/// The task of the phase in the wide form, which has no second phase, for a processor of which this
/// is known: what is then known of it.
#[inline(always)]
pub(crate) fn wide_task<S: Steps>(steps: &mut S, leaf: &Leaf, memo: &mut Memo) -> Result<(), Left>
    requires memo { FitsMemo leaf.now.job memo.old }
    requires next { IsNextPart (S.stands leaf.now) steps.old (does_wide leaf.now memo.old) }
    ensures idle { Passes (idle leaf.now memo.old) steps.old steps.new memo.new }
    ensures plays { Plays (S.stands leaf.now) steps.old (does_wide leaf.now memo.old) steps.new
        (learns result memo.new) }
{
    match leaf.kind() {
        Kind::Compute => own(steps, leaf, memo),
        Kind::Apply => Err(Left::Late),
        Kind::Verify => second_pass(steps, leaf, memo),
    }
}

/// The second one: the processor's store, remembered or worked out, is carried out.
#[inline(always)]
pub(crate) fn second_pass<S: Steps>(steps: &mut S, leaf: &Leaf, memo: &mut Memo) -> Result<(), Left>
    requires second { kind_at leaf.now.phase ≡ Kind.Verify }
    requires memo { FitsMemo leaf.now.job memo.old }
    requires next { IsNextPart (S.stands leaf.now) steps.old
        (does_wide_in Kind.Verify leaf.now memo.old) }
    ensures past { is_past leaf.now.phase memo.old ≡ true →
        (memo.new ≡ memo.old) × (steps.new ≡ steps.old) }
    ensures plays { Plays (S.stands leaf.now) steps.old
        (does_wide_in Kind.Verify leaf.now memo.old) steps.new (learns result memo.new) }
{
    let write = store(steps, leaf, memo)?;
    carry_store(steps, leaf, write)?;
    memo.carry(leaf);
    Ok(())
}
