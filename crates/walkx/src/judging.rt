//! What is told of words at a leaf, and the operations of its tasks.
ghost use Rattle.std.specs.Prelude.{◌≡◌, ◌≢◌, ◌↔◌, IsTrue, ◌-◌, ◌<◌, ◌≤◌, ◌==◌, nat_lt};
ghost use Rattle.pram_words.specs.Stamps.{payload_of, stamp_of};
ghost use Rattle.walk_memory.specs.Inner.Posts.{IsCell, IsLeafPost, processor_of, step_of};
ghost use Rattle.walkx.specs.Inner.Posts.{part_raised};
ghost use Rattle.walkx.specs.Parts.{claim_loaded, claim_raised, differs_from, is_cell_part};
ghost use Rattle.walkx.specs.Parts.{owner_place, report_made};
ghost use Rattle.walkx.specs.Tasks.{claim_of, is_late};

use crate::operation::Op;
use pram_job::Rule;
use pram_words::{payload, stamp, stamped};
use walk_memory::Leaf;

/// Part j of the processor's request is raised to this payload of the step.
#[inline(always)]
pub(crate) fn raise(leaf: &Leaf, j: u32, payload: u32) -> Op
    requires { j < 3 }
    ensures { result ≡ part_raised leaf.now j payload }
{
    Op::Max(leaf.request_word(j), stamped(leaf.step(), payload))
}

/// The processor's claim.
#[inline(always)]
pub(crate) fn claim_for(leaf: &Leaf) -> u32
    ensures { result ≡ claim_of leaf.now.job (processor_of leaf.now) }
{
    leaf.job().procs() - leaf.processor()
}

/// Whether a data place plus 1, or 0 for none, is that of a cell.
#[inline(always)]
pub(crate) fn is_cell(leaf: &Leaf, part: u32) -> bool
    ensures value { result ≡ is_cell_part leaf.now.job part }
    ensures cell { IsTrue result ↔ ((1 ≤ part) × (part - 1 < leaf.now.job.cells)) }
    ensures claims { IsTrue result → leaf.now.job.rule ≢ Rule.Common → IsCell leaf.now.layout
        (part - 1) }
    ensures limits { IsLeafPost leaf.now }
{
    let cells = leaf.cells();
    part != 0 && part - 1 < cells
}

/// The word is of the step.
#[inline(always)]
pub(crate) fn is_of(leaf: &Leaf, word: u64) -> bool
    ensures value { result ≡ (stamp_of word == step_of leaf.now) }
    ensures limits { IsLeafPost leaf.now }
{
    stamp(word) == leaf.step()
}

/// One of the two words was written in the step or later.
#[inline(always)]
pub(crate) fn is_late(leaf: &Leaf, first: u64, second: u64) -> bool
    ensures { result ≡ is_late (step_of leaf.now) first second }
{
    let first_late = u64::from(leaf.step()) << 32;
    first_late <= first || first_late <= second
}

/// A cell is claimed for the processor.
#[inline(always)]
pub(crate) fn claiming(leaf: &Leaf, cell: u32) -> Op
    requires { IsCell leaf.now.layout cell }
    ensures { result ≡ claim_raised leaf.now cell }
{
    let word = leaf.claim_word(cell);
    Op::Max(word, stamped(leaf.step(), claim_for(leaf)))
}

/// The claim to a cell is loaded.
#[inline(always)]
pub(crate) fn claim_look(leaf: &Leaf, cell: u32) -> Op
    requires { IsCell leaf.now.layout cell }
    ensures { result ≡ claim_loaded leaf.now cell }
{
    Op::Load(leaf.claim_word(cell))
}

/// The step is reported as against the rule.
#[inline(always)]
pub(crate) fn reporting(leaf: &Leaf) -> Op
    ensures { result ≡ report_made leaf.now }
{
    Op::Swap(leaf.layout().conflict_word(), 0, u64::from(leaf.step()))
}

/// The claim is the processor's own.
#[inline(always)]
pub(crate) fn is_own(leaf: &Leaf, claim: u64) -> bool
    ensures { result ≡ (payload_of claim == claim_of leaf.now.job (processor_of leaf.now)) }
{
    payload(claim) == claim_for(leaf)
}

/// The word is of a later step.
#[inline(always)]
pub(crate) fn is_past(leaf: &Leaf, word: u64) -> bool
    ensures { result ≡ nat_lt (step_of leaf.now) (stamp_of word) }
{
    leaf.step() < stamp(word)
}

/// The word is of the step and has another payload.
#[inline(always)]
pub(crate) fn differs(leaf: &Leaf, value: u32, word: u64) -> bool
    ensures { result ≡ differs_from leaf.now value word }
{
    is_of(leaf, word) && payload(word) != value
}

/// The data place of a request to a cell, if the claim to the cell is the processor's own.
#[inline(always)]
pub(crate) fn owner_place(leaf: &Leaf, place: u32, claim: u64) -> u32
    ensures value { result ≡ owner_place leaf.now place claim }
    ensures most { result ≤ place }
{
    if is_own(leaf, claim) { place } else { 0 }
}
