//! The script of an activity.
ghost use Rattle.std.specs.Prelude.{◌≡◌};
ghost use Rattle.walkx.specs.Driving.{IsHere, Reaches};
ghost use Rattle.walkx.specs.Rests.{IsBlockPost, IsWithin, block_of, leads, script_in, then_of};
ghost use Rattle.walk_memory.specs.Memory.{FitsMemory};

use crate::begins::{back, begin};
use crate::left::Stopped;
use crate::next::Next;
use crate::operation::Activity;
use crate::steps::Steps;
use crate::turns::{Turned, has_rank, mark, part, turn};
use walk_memory::{Memory, Post};

/// The script of an activity, at the node and in the phase where the worker stands.
#[inline(always)]
pub(crate) fn play<S: Steps>(
    steps: &mut S,
    post: &Post,
    activity: Activity,
    memory: &Memory,
) -> Result<Next, Stopped>
    requires within { IsWithin post.now activity }
    requires memory { FitsMemory post.now.job memory.now }
    requires here { IsHere (S.stands post.now) steps.old
        (script_in post.now activity memory.now) }
    ensures reaches { Reaches (S.stands post.now) steps.old
        (script_in post.now activity memory.now) then_of steps.new result }
{
    match activity {
        Activity::Back => back(steps, post),
        Activity::Begin => begin(steps, post),
        Activity::Turn(_) => Ok(after(post, turn(steps, post)?)),
        Activity::Part(_, _) => in_block(steps, post, memory),
        Activity::Over(_) => begin(steps, post),
    }
}

// In a block: the task of a processor, or the mark.
#[inline(always)]
fn in_block<S: Steps>(steps: &mut S, post: &Post, memory: &Memory) -> Result<Next, Stopped>
    requires block { IsBlockPost post.now }
    requires memory { FitsMemory post.now.job memory.now }
    requires here { IsHere (S.stands post.now) steps.old (block_of post.now memory.now) }
    ensures reaches { Reaches (S.stands post.now) steps.old (block_of post.now memory.now) then_of
        steps.new result }
{
    if has_rank(post, post.rank) {
        let mut memo = memory.memo(post.processor());
        part(steps, post, &mut memo)?;
        Ok(Next::Worked(post.node, post.phase, post.rank, memo))
    } else {
        Ok(after(post, mark(steps, post, memory.reach(post))?))
    }
}

// What comes of a turn.
#[inline(always)]
fn after(post: &Post, turned: Turned) -> Next
    ensures { then_of result ≡ leads post.now turned }
{
    match turned {
        Turned::Finished => Next::Begins(1),
        Turned::To(node) => Next::Turns(node, post.phase),
        Turned::Enters => Next::Enters(post.node, post.phase),
    }
}
