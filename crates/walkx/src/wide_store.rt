//! The second pass of the wide form: a processor's store is remembered, or worked out anew, and
//! carried out by the rule.
ghost use Rattle.std.specs.Prelude.{◌≡◌, ◌≢◌, ◌<◌, true, length, IfOk, IfSome, Some, Err};
ghost use Rattle.pram_job.specs.Job.{IsInstr};
ghost use Rattle.pram_words.specs.Phases.{kind_at};
ghost use Rattle.walkx.specs.Driving.{Ends, IsDue, IsNextPart, Leads, Plays};
ghost use Rattle.walk_memory.specs.Inner.Posts.{IsCellOf, IsLeafPost};
ghost use Rattle.walk_memory.specs.Memory.{FitsMemo, is_past};
ghost use Rattle.walkx.specs.Scripts.{Script};
ghost use Rattle.walkx.specs.Walk.{Then};
ghost use Rattle.walkx.specs.WideParts.{carried_until, crew_until, kept_as, owned_written};
ghost use Rattle.walkx.specs.WideParts.{priority_store, priority_until, store_by, store_carried};
ghost use Rattle.walkx.specs.WideParts.{store_left, store_loaded, stores_of, swaps, write_left};

use crate::compare::{either_differs, report_if};
use crate::judging::{claim_for, claim_look, differs, is_late, is_own, is_past};
use crate::left::{Left, Stopped};
use crate::parts::{hear_both, older_swap, write_place};
use crate::steps::Steps;
use crate::turns::settle;
use crate::wide_request::load_memo;
use pram_job::{Instr, Rule};
use pram_words::Kind;
use walk_memory::{Leaf, Memo, Own, fetch, is_load, store_of, turn_by};

// The processor's store, worked out from its own places.
#[inline(never)]
fn load_store<S: Steps>(steps: &mut S, leaf: &Leaf) -> Result<(u32, u32), Left>
    requires next { IsNextPart (S.stands leaf.now) steps.old (store_loaded leaf.now) }
    ensures cell { IfOk result (λ write. IsCellOf leaf.now write.0) }
    ensures plays { Plays (S.stands leaf.now) steps.old (store_loaded leaf.now) steps.new result }
{
    let known = load_memo(steps, leaf)?;
    match fetch(leaf, known.own.counter) {
        None => Err(Left::Late),
        Some(instr) => store_by(leaf, &known.own, instr),
    }
}

// That of its instruction, if it is a store and there is such a cell; else nothing is left of the
// task.
#[inline(always)]
fn store_by(leaf: &Leaf, own: &Own, instr: &Instr) -> Result<(u32, u32), Left>
    requires counter { own.now.counter < length leaf.now.job.code }
    requires instr { IsInstr leaf.now.job.cells (length leaf.now.job.code) instr.now }
    ensures value { result ≡ store_by leaf.now own.now (Some instr.now) }
    ensures cell { IfOk result (λ write. IsCellOf leaf.now write.0) }
{
    if is_load(instr) {
        return Err(Left::Late);
    }
    kept(leaf, store_of(leaf.job(), turn_by(leaf, own, instr, 0)))
}

/// The processor's store: remembered, or worked out.
#[inline(always)]
pub(crate) fn store<S: Steps>(steps: &mut S, leaf: &Leaf, memo: &Memo) -> Result<(u32, u32), Left>
    requires second { kind_at leaf.now.phase ≡ Kind.Verify }
    requires memo { FitsMemo leaf.now.job memo.now }
    requires next { IsNextPart (S.stands leaf.now) steps.old (stores_of leaf.now memo.now) }
    ensures cell { IfOk result (λ write. IsCellOf leaf.now write.0) }
    ensures past { is_past leaf.now.phase memo.now ≡ true →
        (result ≡ Err Left.Late) × (steps.new ≡ steps.old) }
    ensures plays { Plays (S.stands leaf.now) steps.old (stores_of leaf.now memo.now) steps.new
        result }
{
    if memo.has_store(leaf.step()) {
        kept(leaf, memo.store)
    } else if memo.is_past(leaf.phase()) {
        Err(Left::Late)
    } else {
        load_store(steps, leaf)
    }
}

// This store, if there is one; else nothing is left of the task.
#[inline(always)]
#[tactic(auto, using(walk_memory::proofs::ClaimWords::cell_of))]
fn kept(leaf: &Leaf, store: Option<(u32, u32)>) -> Result<(u32, u32), Left>
    requires { IfSome store (λ write. write.0 < leaf.now.job.cells) }
    ensures value { result ≡ kept_as store }
    ensures cell { IfOk result (λ write. IsCellOf leaf.now write.0) }
    ensures limits { IsLeafPost leaf.now }
{
    let _ = leaf.cells();
    store.ok_or(Left::Late)
}

/// A cell is written, unless it was written in the step or later: whether another value of the step
/// was found there, be it heard, or in place of the word that was to be swapped.
#[inline(always)]
pub(crate) fn swap<S: Steps>(
    steps: &mut S,
    leaf: &Leaf,
    cell: u32,
    value: u32,
) -> Result<bool, Left>
    requires cell { IsCellOf leaf.now cell }
    requires next { IsNextPart (S.stands leaf.now) steps.old (swaps leaf.now cell value) }
    ensures plays { Plays (S.stands leaf.now) steps.old (swaps leaf.now cell value) steps.new
        result }
{
    let word = leaf.cell_word(cell);
    let (first, second) = hear_both(steps, leaf, cell, word)?;
    if is_late(leaf, first, second) {
        return Ok(either_differs(leaf, value, first, second));
    }
    let (at, old, new) = older_swap(leaf, word, value, first, second);
    let found = steps.swap(at, old, new)?;
    Ok(differs(leaf, value, found))
}

/// A store is carried out by the rule.
#[inline(always)]
pub(crate) fn carry_store<S: Steps>(
    steps: &mut S,
    leaf: &Leaf,
    write: (u32, u32),
) -> Result<(), Left>
    requires cell { IsCellOf leaf.now write.0 }
    requires next { IsNextPart (S.stands leaf.now) steps.old
        (store_carried leaf.now.job.rule leaf.now write) }
    ensures plays { Plays (S.stands leaf.now) steps.old
        (store_carried leaf.now.job.rule leaf.now write) steps.new result }
{
    let other = carry_until(steps, leaf, write, leaf.rule())?;
    if other {
        report_store(steps, leaf, write)?;
        return Ok(());
    }
    Ok(())
}

/// The same up to the report of another's write: whether one is due. A caller that knows the rule
/// gets code for that rule alone.
#[inline(always)]
pub fn carry_until<S: Steps>(
    steps: &mut S,
    leaf: &Leaf,
    write: (u32, u32),
    rule: Rule,
) -> Result<bool, Left>
    requires rule { rule ≡ leaf.now.job.rule }
    requires cell { IsCellOf leaf.now write.0 }
    requires next { IsNextPart (S.stands leaf.now) steps.old (carried_until rule leaf.now write) }
    ensures plays { Plays (S.stands leaf.now) steps.old (carried_until rule leaf.now write)
        steps.new result }
{
    match rule {
        Rule::Common => swap(steps, leaf, write.0, write.1),
        Rule::Priority => write_first(steps, leaf, write),
        Rule::Crew => write_looked(steps, leaf, write),
    }
}

/// And what is left of it where one is due: the report, and the write, where there was none yet.
#[inline(always)]
pub fn report_store<S: Steps>(steps: &mut S, leaf: &Leaf, write: (u32, u32)) -> Result<(), Stopped>
    requires cell { IsCellOf leaf.now write.0 }
    requires due { IsDue (S.stands leaf.now) steps.old
        (store_left leaf.now.job.rule leaf.now write) }
    ensures { (last : Script Then) → Leads (S.stands leaf.now) steps.old
        (store_left leaf.now.job.rule leaf.now write last) (λ done. last) steps.new result }
{
    settle(finish_store(steps, leaf, write))
}

// The same.
#[inline(always)]
fn finish_store<S: Steps>(steps: &mut S, leaf: &Leaf, write: (u32, u32)) -> Result<(), Left>
    requires cell { IsCellOf leaf.now write.0 }
    requires due { IsDue (S.stands leaf.now) steps.old
        (store_left leaf.now.job.rule leaf.now write) }
    ensures ends { Ends (S.stands leaf.now) steps.old
        (store_left leaf.now.job.rule leaf.now write) steps.new result }
{
    report_if(steps, leaf, true)?;
    write_last(steps, leaf, write)
}

// The write, if there was none yet.
#[inline(always)]
fn write_last<S: Steps>(steps: &mut S, leaf: &Leaf, write: (u32, u32)) -> Result<(), Left>
    requires cell { IsCellOf leaf.now write.0 }
    requires due { IsDue (S.stands leaf.now) steps.old
        (write_left leaf.now.job.rule leaf.now write) }
    ensures ends { Ends (S.stands leaf.now) steps.old
        (write_left leaf.now.job.rule leaf.now write) steps.new result }
{
    let (cell, value) = write;
    match leaf.rule() {
        Rule::Common => Ok(()),
        Rule::Priority => Ok(()),
        Rule::Crew => write_place(steps, leaf, cell, leaf.cell_word(cell), value),
    }
}

// Under the rule crew all claims stand: another's is to be reported before the write.
#[inline(always)]
fn write_looked<S: Steps>(steps: &mut S, leaf: &Leaf, write: (u32, u32)) -> Result<bool, Left>
    requires rule { leaf.now.job.rule ≢ Rule.Common }
    requires cell { IsCellOf leaf.now write.0 }
    requires next { IsNextPart (S.stands leaf.now) steps.old (crew_until leaf.now write) }
    ensures plays { Plays (S.stands leaf.now) steps.old (crew_until leaf.now write) steps.new
        result }
{
    let (cell, value) = write;
    let found = steps.make(claim_look(leaf, cell))?;
    if differs(leaf, claim_for(leaf), found) {
        return Ok(true);
    }
    write_place(steps, leaf, cell, leaf.cell_word(cell), value)?;
    Ok(false)
}

// Under the rule priority none is ever due.
#[inline(always)]
fn write_first<S: Steps>(steps: &mut S, leaf: &Leaf, write: (u32, u32)) -> Result<bool, Left>
    requires rule { leaf.now.job.rule ≢ Rule.Common }
    requires cell { IsCellOf leaf.now write.0 }
    requires next { IsNextPart (S.stands leaf.now) steps.old (priority_until leaf.now write) }
    ensures plays { Plays (S.stands leaf.now) steps.old (priority_until leaf.now write) steps.new
        result }
{
    carry_priority(steps, leaf, write)?;
    Ok(false)
}

// The one whose claim stands writes. A later claim means late.
#[inline(always)]
fn carry_priority<S: Steps>(steps: &mut S, leaf: &Leaf, write: (u32, u32)) -> Result<(), Left>
    requires rule { leaf.now.job.rule ≢ Rule.Common }
    requires cell { IsCellOf leaf.now write.0 }
    requires next { IsNextPart (S.stands leaf.now) steps.old (priority_store leaf.now write) }
    ensures plays { Plays (S.stands leaf.now) steps.old (priority_store leaf.now write) steps.new
        result }
{
    let found = steps.make(claim_look(leaf, write.0))?;
    if is_past(leaf, found) {
        return Err(Left::Late);
    }
    write_owned(steps, leaf, write, found)
}

// The store is carried out, if the claim that was found is the processor's own.
#[inline(always)]
fn write_owned<S: Steps>(
    steps: &mut S,
    leaf: &Leaf,
    write: (u32, u32),
    found: u64,
) -> Result<(), Left>
    requires cell { IsCellOf leaf.now write.0 }
    requires next { IsNextPart (S.stands leaf.now) steps.old (owned_written leaf.now write found) }
    ensures plays { Plays (S.stands leaf.now) steps.old (owned_written leaf.now write found)
        steps.new result }
{
    let (cell, value) = write;
    if is_own(leaf, found) {
        write_place(steps, leaf, cell, leaf.cell_word(cell), value)
    } else {
        Ok(())
    }
}
