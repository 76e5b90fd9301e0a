//! The scripts back and begin.
ghost use Rattle.std.specs.Prelude.{◌≡◌, ◌*◌, ◌%◌, ◌≤◌, ◌==◌};
ghost use Rattle.pram_words.specs.Phases.{next_phase};
ghost use Rattle.pram_words.specs.Words.{Admits, number_of};
ghost use Rattle.pram_words.specs.declared.words.Word.TheVariants.{Conflict, Node, Position};
ghost use Rattle.walk_memory.specs.Inner.Posts.{IsPost};
ghost use Rattle.walkx.specs.Scripts.{ends};
ghost use Rattle.walkx.specs.Walk.{begins, turns};
ghost use Rattle.walkx.specs.Driving.{IsHere, Reaches};
ghost use Rattle.walkx.specs.Rests.{back_of, begin_of, after_conflict, conflict_rest, then_of};

use crate::left::Stopped;
use crate::next::Next;
use crate::operation::{Ended, Op};
use crate::steps::Steps;
use walk_memory::Post;

/// A worker that comes back stands where its position word says.
#[inline(always)]
pub(crate) fn back<S: Steps>(steps: &mut S, post: &Post) -> Result<Next, Stopped>
    requires here { IsHere (S.stands post.now) steps.old (back_of post.now) }
    ensures { Reaches (S.stands post.now) steps.old (back_of post.now) then_of steps.new result }
{
    let found = steps.make(position_look(post))?;
    Ok(at_node(post, found))
}

/// The root shows the last phase that is finished everywhere. After a third pass a conflict is
/// looked for.
#[inline(always)]
pub(crate) fn begin<S: Steps>(steps: &mut S, post: &Post) -> Result<Next, Stopped>
    requires here { IsHere (S.stands post.now) steps.old (begin_of post.now) }
    ensures reaches { Reaches (S.stands post.now) steps.old (begin_of post.now) then_of steps.new
        result }
{
    let root = steps.make(root_look(post))?;
    if is_whole(root) {
        look_for_conflict(steps, post, root)
    } else {
        Ok(next_turn(post, root))
    }
}

// A conflict is looked for, the root being this.
#[inline(always)]
fn look_for_conflict<S: Steps>(steps: &mut S, post: &Post, root: u64) -> Result<Next, Stopped>
    requires root { root ≤ 3 * post.now.job.steps }
    requires here { IsHere (S.stands post.now) steps.old (conflict_rest post.now root) }
    ensures reaches { Reaches (S.stands post.now) steps.old (conflict_rest post.now root) then_of
        steps.new result }
{
    let conflict = steps.make(conflict_look(post))?;
    Ok(begun(post, root, conflict))
}

// ---- operations

#[inline(always)]
fn position_look(post: &Post) -> Op
    ensures value { result ≡ Op.Load (number_of post.now.layout (Position post.now.worker)) }
    ensures limits { IsPost post.now }
{
    Op::Load(post.layout.position_word(post.worker))
}

#[inline(always)]
fn root_look(post: &Post) -> Op
    ensures value { result ≡ Op.Load (number_of post.now.layout (Node 1)) }
    ensures limits { IsPost post.now }
{
    Op::Load(post.layout.node_word(1))
}

#[inline(always)]
fn conflict_look(post: &Post) -> Op
    ensures value { result ≡ Op.Load (number_of post.now.layout Conflict) }
    ensures limits { IsPost post.now }
{
    Op::Load(post.layout.conflict_word())
}

// ---- what comes of them

// The phase was the third one of a step, or none was finished yet.
#[inline(always)]
fn is_whole(root: u64) -> bool
    ensures { result ≡ (root % 3 == 0) }
{
    root % 3 == 0
}

// The worker stands where its position word says.
#[inline(always)]
#[tactic(auto, using(walk_memory::proofs::Boards::position_most))]
fn at_node(post: &Post, found: u64) -> Next
    requires { Admits post.now.layout post.now.job (number_of post.now.layout
        (Position post.now.worker)) found }
    ensures { then_of result ≡ begins found }
{
    post.limits_hold();
    Next::Begins(found as u32)
}

// The next phase, the root being this.
#[inline(always)]
fn next_turn(post: &Post, root: u64) -> Next
    requires { root ≤ 3 * post.now.job.steps }
    ensures { then_of result ≡ turns post.now.node (next_phase post.now.layout.form root) }
{
    Next::Turns(post.node, post.layout.next_phase(root))
}

// What follows the conflict, the root being this.
#[inline(always)]
#[tactic(auto, using(walk_memory::proofs::Boards::conflict_most))]
fn begun(post: &Post, root: u64, conflict: u64) -> Next
    requires root { root ≤ 3 * post.now.job.steps }
    requires conflict { Admits post.now.layout post.now.job (number_of post.now.layout Conflict)
        conflict }
    ensures { ends (then_of result) ≡ after_conflict post.now root conflict }
{
    let last = 3 * u64::from(post.job.steps());
    if conflict != 0 {
        Next::Stops(Ended::Conflict(conflict as u32))
    } else if root == last {
        Next::Stops(Ended::Done)
    } else {
        next_turn(post, root)
    }
}
