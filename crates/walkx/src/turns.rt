//! Turns.
ghost use Rattle.std.specs.Prelude.{◌≡◌, ◌+◌, ◌-◌, ◌*◌, ◌%◌, ◌<◌, ◌≤◌, ◌&&◌, ◌==◌};
ghost use Rattle.std.specs.Prelude.{nat_le, nat_lt, IfOk, Option, None};
ghost use Rattle.pram_words.specs.Words.{number_of};
ghost use Rattle.pram_words.specs.declared.words.Word.TheVariants.{Node, Position};
ghost use Rattle.walk_memory.specs.Inner.Posts.{IsLeafPost, IsPost};
ghost use Rattle.walkx.specs.Inner.Posts.{then_marks, then_raises};
ghost use Rattle.walk_memory.specs.Memory.{FitsMemo, at_start};
ghost use Rattle.walk_memory.specs.Blocks.{IsWide, has_rank, last_phase};
ghost use Rattle.walkx.specs.Walk.{bounded_mark, empty_mark, way_down};
ghost use Rattle.walkx.specs.Driving.{IsHere, Leads, Reaches, learns_all, settled_or_late};
ghost use Rattle.walkx.specs.Rests.{entered, has_worked, inner_marks, inner_of, leads, leaves_up};
ghost use Rattle.walkx.specs.Rests.{moves, part_rest, turn_of};

use crate::left::{Left, Stopped};
use crate::operation::Op;
use crate::steps::Steps;
use crate::tasks::{compact_task, wide_task};
use pram_words::{Form, left, parent, right};
use walk_memory::{Memo, Post};

/// What comes of a turn.
#[derive(Clone, Copy, Debug, PartialEq, Eq)]
pub enum Turned {
    /// The root is finished.
    Finished,
    /// The next turn is at this node.
    To(u32),
    /// The worker enters the block of the leaf, as it does in the wide form.
    Enters,
}

/// A node of the wide form is marked, where nothing is left to do up to this phase. The root's mark
/// is bounded by the end of the step, and before it the root is raised over that end where it may
/// be, whatever comes of this.
#[inline(always)]
pub fn mark<S: Steps>(steps: &mut S, post: &Post, reach: u64) -> Result<Turned, Stopped>
    requires wide { IsWide post.now.layout.form }
    requires phase { post.now.phase ≤ 3 * post.now.job.steps }
    requires here { IsHere (S.stands post.now) steps.old (then_raises post.now reach) }
    ensures reaches { Reaches (S.stands post.now) steps.old (then_raises post.now reach)
        (leads post.now) steps.new result }
{
    if jumps(post, reach) {
        steps.make(jumping(post, reach))?;
    }
    raise(steps, post, bounded(post, reach))
}

// The node is raised to this mark.
#[inline(always)]
fn raise<S: Steps>(steps: &mut S, post: &Post, mark: u64) -> Result<Turned, Stopped>
    requires here { IsHere (S.stands post.now) steps.old (then_marks post.now mark) }
    ensures reaches { Reaches (S.stands post.now) steps.old (then_marks post.now mark)
        (leads post.now) steps.new result }
{
    steps.make(marking(post, mark))?;
    Ok(Turned::To(post.node))
}

// The worker's position becomes this node.
#[inline(always)]
fn stand<S: Steps>(steps: &mut S, post: &Post, to: u32) -> Result<Turned, Stopped>
    requires here { IsHere (S.stands post.now) steps.old (moves post.now to) }
    ensures reaches { Reaches (S.stands post.now) steps.old (moves post.now to) (leads post.now)
        steps.new result }
{
    steps.make(standing(post, to))?;
    Ok(Turned::To(to))
}

// The task at a leaf of the compact form, and its mark.
#[inline(always)]
fn whole<S: Steps>(steps: &mut S, post: &Post) -> Result<Turned, Stopped>
    requires leaf { IsLeafPost post.now }
    requires compact { post.now.layout.form ≡ Form.Compact }
    requires here { IsHere (S.stands post.now) steps.old (part_rest post.now at_start) }
    ensures reaches { Reaches (S.stands post.now) steps.old (part_rest post.now at_start)
        (leads post.now) steps.new result }
{
    settle(compact_task(steps, &post.leaf()))?;
    raise(steps, post, post.phase)
}

/// The task of a processor of a block, of which this is known: what is then known of it.
#[inline(always)]
pub fn part<S: Steps>(steps: &mut S, post: &Post, memo: &mut Memo) -> Result<(), Stopped>
    requires leaf { IsLeafPost post.now }
    requires wide { IsWide post.now.layout.form }
    requires memo { FitsMemo post.now.job memo.old }
    requires here { IsHere (S.stands post.now) steps.old (part_rest post.now memo.old) }
    ensures reaches { Reaches (S.stands post.now) steps.old (part_rest post.now memo.old)
        (has_worked post.now) steps.new (learns_all result memo.new) }
{
    settle(wide_task(steps, &post.leaf(), memo))
}

// The turn at an unfinished inner node.
#[inline(always)]
fn inner<S: Steps>(steps: &mut S, post: &Post) -> Result<Turned, Stopped>
    requires inner { post.now.node < post.now.layout.leaves }
    requires phase { post.now.phase ≤ 3 * post.now.job.steps }
    requires here { IsHere (S.stands post.now) steps.old (inner_of post.now) }
    ensures reaches { Reaches (S.stands post.now) steps.old (inner_of post.now) (leads post.now)
        steps.new result }
{
    let first = steps.make(looking(post, left(post.node)))?;
    let second = steps.make(looking(post, right(post.node)))?;
    if both_finished(post, first, second) {
        mark_inner(steps, post, first, second)
    } else {
        stand(steps, post, down(post, first, second))
    }
}

// An inner node is marked, whose children hold these phases.
#[inline(always)]
fn mark_inner<S: Steps>(
    steps: &mut S,
    post: &Post,
    first: u64,
    second: u64,
) -> Result<Turned, Stopped>
    requires phase { post.now.phase ≤ 3 * post.now.job.steps }
    requires here { IsHere (S.stands post.now) steps.old (inner_marks post.now first second) }
    ensures reaches { Reaches (S.stands post.now) steps.old (inner_marks post.now first second)
        (leads post.now) steps.new result }
{
    match post.layout.form() {
        Form::Compact => raise(steps, post, post.phase),
        Form::Wide(_) => mark(steps, post, first.min(second)),
    }
}

// The turn at a finished node.
#[inline(always)]
fn leave<S: Steps>(steps: &mut S, post: &Post) -> Result<Turned, Stopped>
    requires here { IsHere (S.stands post.now) steps.old (leaves_up post.now) }
    ensures reaches { Reaches (S.stands post.now) steps.old (leaves_up post.now) (leads post.now)
        steps.new result }
{
    if is_root(post) {
        Ok(Turned::Finished)
    } else {
        stand(steps, post, parent(post.node))
    }
}

// A turn up to the task at a leaf of the compact form: what came of the turn, or none where that
// task is next.
#[inline(always)]
fn enter<S: Steps>(steps: &mut S, post: &Post) -> Result<Option<Turned>, Stopped>
    requires first { post.now.rank ≡ 0 }
    requires phase { post.now.phase ≤ 3 * post.now.job.steps }
    requires here { IsHere (S.stands post.now) steps.old (turn_of post.now) }
    ensures leads { Leads (S.stands post.now) steps.old (turn_of post.now) (entered post.now)
        steps.new result }
    ensures leaf { IfOk result (λ turned. turned ≡ None → IsLeafPost post.now
        × (post.now.layout.form ≡ Form.Compact)) }
{
    let found = steps.make(looking(post, post.node))?;
    if is_finished(post, found) {
        Ok(Some(leave(steps, post)?))
    } else if !is_leaf(post) {
        Ok(Some(inner(steps, post)?))
    } else if has_rank(post, 0) {
        Ok(match post.layout.form() {
            Form::Compact => None,
            Form::Wide(_) => Some(Turned::Enters),
        })
    } else {
        Ok(Some(raise(steps, post, empty_mark(post))?))
    }
}

/// A turn.
#[inline(always)]
pub fn turn<S: Steps>(steps: &mut S, post: &Post) -> Result<Turned, Stopped>
    requires first { post.now.rank ≡ 0 }
    requires phase { post.now.phase ≤ 3 * post.now.job.steps }
    requires here { IsHere (S.stands post.now) steps.old (turn_of post.now) }
    ensures reaches { Reaches (S.stands post.now) steps.old (turn_of post.now) (leads post.now)
        steps.new result }
{
    match enter(steps, post)? {
        Some(turned) => Ok(turned),
        None => whole(steps, post),
    }
}

/// What a task came to, late or not.
#[inline(always)]
pub(crate) fn settle(done: Result<(), Left>) -> Result<(), Stopped>
    ensures { result ≡ settled_or_late done }
{
    match done {
        Err(Left::Held) => Err(Stopped),
        _ => Ok(()),
    }
}

// ---- marks

// This one, but at the root the last phase of the step at most.
#[inline(always)]
fn bounded(post: &Post, mark: u64) -> u64
    requires { post.now.phase ≤ 3 * post.now.job.steps }
    ensures { result ≡ bounded_mark post.now.node post.now.phase mark }
{
    if is_root(post) {
        mark.min(post.last_phase())
    } else {
        mark
    }
}

// That of a leaf without processors.
#[inline(always)]
fn empty_mark(post: &Post) -> u64
    requires { post.now.phase ≤ 3 * post.now.job.steps }
    ensures { result ≡ empty_mark post.now.job post.now.layout post.now.node post.now.phase }
{
    match post.layout.form() {
        Form::Compact => post.phase,
        Form::Wide(_) => bounded(post, 3 * u64::from(post.job.steps())),
    }
}

// ---- operations

#[inline(always)]
fn marking(post: &Post, mark: u64) -> Op
    ensures { result ≡ Op.Max (number_of post.now.layout (Node post.now.node)) mark }
{
    Op::Max(post.layout.node_word(post.node), mark)
}

#[inline(always)]
fn jumping(post: &Post, reach: u64) -> Op
    requires { 1 ≤ post.now.phase }
    ensures { result ≡ Op.Swap (number_of post.now.layout (Node post.now.node))
        (post.now.phase - 1) reach }
{
    Op::Swap(post.layout.node_word(post.node), post.phase - 1, reach)
}

#[inline(always)]
fn standing(post: &Post, to: u32) -> Op
    ensures { result ≡ Op.Store (number_of post.now.layout (Position post.now.worker)) to }
{
    Op::Store(post.layout.position_word(post.worker), u64::from(to))
}

#[inline(always)]
fn looking(post: &Post, node: u32) -> Op
    requires some { 1 ≤ node }
    requires most { node < 2 * post.now.layout.leaves }
    ensures { result ≡ Op.Load (number_of post.now.layout (Node node)) }
{
    Op::Load(post.layout.node_word(node))
}

// ---- tests

#[inline(always)]
fn is_finished(post: &Post, found: u64) -> bool
    ensures { result ≡ nat_le post.now.phase found }
{
    post.phase <= found
}

#[inline(always)]
fn both_finished(post: &Post, first: u64, second: u64) -> bool
    ensures { result ≡ (nat_le post.now.phase first && nat_le post.now.phase second) }
{
    post.phase <= first && post.phase <= second
}

// Before it is marked the node is raised over the end of the step, as the root is in the first pass
// of the wide form.
#[inline(always)]
fn jumps(post: &Post, reach: u64) -> bool
    requires { post.now.phase ≤ 3 * post.now.job.steps }
    ensures { result ≡ ((post.now.node == 1) && ((post.now.phase % 3 == 1)
        && nat_lt (last_phase post.now.phase) reach)) }
{
    is_root(post) && post.phase % 3 == 1 && post.last_phase() < reach
}

#[inline(always)]
fn is_leaf(post: &Post) -> bool
    ensures { result ≡ nat_le post.now.layout.leaves post.now.node }
{
    post.layout.leaves() <= post.node
}

/// The leaf's block has a processor of this rank.
#[inline(always)]
pub fn has_rank(post: &Post, rank: u32) -> bool
    requires leaf { post.now.layout.leaves ≤ post.now.node }
    requires rank { rank ≤ 64 }
    ensures value { result ≡ has_rank post.now.layout post.now.node rank }
    ensures limits { IsPost post.now }
{
    let layout = post.layout;
    let first = layout.grain() * (post.node - layout.leaves());
    rank < layout.grain() && first + rank < layout.procs()
}

#[inline(always)]
fn is_root(post: &Post) -> bool
    ensures { result ≡ (post.now.node == 1) }
{
    post.node == 1
}

// The child to which the worker goes, its children holding these phases.
#[inline(always)]
fn down(post: &Post, first: u64, second: u64) -> u32
    requires { post.now.node < post.now.layout.leaves }
    ensures { result ≡ way_down post.now.layout post.now.worker post.now.node post.now.phase first
        second }
{
    let node = post.node;
    if post.phase <= first {
        right(node)
    } else if post.phase <= second {
        left(node)
    } else if post.layout.goes_right(post.worker, node) {
        right(node)
    } else {
        left(node)
    }
}
