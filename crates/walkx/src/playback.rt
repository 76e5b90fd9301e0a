//! The driver of a worker that is asked and told.
ghost use Rattle.std.specs.Prelude.{length};
ghost use Rattle.walkx.specs.Inner.Heard.{newest};
ghost use Rattle.walk_memory.specs.Memory.{FitsMemory};
ghost use Rattle.walkx.specs.Playing.{ScriptComesTo};
ghost use Rattle.walkx.specs.Rests.{IsWithin, script_in};
ghost use Rattle.walkx.specs.Scripts.{heard_in, rest};
ghost use Rattle.walkx.specs.Walk.{AllAdmitted};

use crate::left::Stopped;
use crate::next::Next;
use crate::operation::{Activity, Ended, Op};
use crate::scripts::play;
use crate::steps::Steps;
use walk_memory::{Memory, Post};

/// Plays back the answers that were heard in a script, and is held at the first operation that has
/// none.
#[derive(Drop)]
pub(crate) struct Playback<'a> {
    pub heard: &'a [u64],
    pub played: usize,
    /// Where it is held.
    pub held_op: Op,
}

impl<'a> Steps for Playback<'a> {
    ghost use Rattle.walkx.specs.Playing.{stands_back};

    ghost stands = { stands_back };

    #[inline(always)]
    fn make(&mut self, op: Op) -> Result<u64, Stopped> {
        if self.played < self.heard.len() {
            let answer = self.heard[self.played];
            self.played += 1;
            Ok(answer)
        } else {
            self.held_op = op;
            Err(Stopped)
        }
    }

    #[inline(always)]
    fn load(&mut self, word: u32) -> Result<u64, Stopped> {
        self.make(Op::Load(word))
    }

    #[inline(always)]
    fn swap(&mut self, word: u32, old: u64, new: u64) -> Result<u64, Stopped> {
        self.make(Op::Swap(word, old, new))
    }
}

/// What the script of an activity comes to with these answers, or the operation that has none yet.
#[inline(always)]
pub(crate) fn play_back(
    post: &Post,
    activity: Activity,
    memory: &Memory,
    heard: &[u64],
) -> Result<Next, Op>
    requires within { IsWithin post.now activity }
    requires memory { FitsMemory post.now.job memory.now }
    requires admitted { AllAdmitted post.now.job post.now.layout (heard_in (script_in post.now
        activity memory.now) (newest (length heard.now) heard.now)) }
    ensures { ScriptComesTo (rest (script_in post.now activity memory.now)
        (newest (length heard.now) heard.now)) result }
{
    let mut steps = Playback {
        heard,
        played: 0,
        held_op: Op::Over(Ended::Done),
    };
    match play(&mut steps, post, activity, memory) {
        Ok(next) => Ok(next),
        Err(_) => Err(steps.held_op),
    }
}
