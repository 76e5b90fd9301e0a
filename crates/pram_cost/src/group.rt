//! Processors that stand at one instruction, one after another in the list of those that run: what
//! goes by the instruction alone is done for all of them at once.
ghost use Rattle.std.specs.Prelude.{◌<◌, length};
ghost use Rattle.pram_cost.specs.Inner.Groups.{IsGroup};
ghost use Rattle.pram_step.specs.Walks.{IsSight};

use pram_step::{Sight, counter, laws};

/// The processors of these places in the list, up to the end, which stand at the instruction with
/// this index.
#[derive(Clone, Copy, Drop)]
pub(crate) struct Group {
    pub from: usize,
    pub end: usize,
    pub index: u32,
}

/// The group that begins at this place in the list.
#[inline(always)]
pub(crate) fn group_from(sight: &Sight<'_>, from: usize) -> Group
    requires sight { IsSight sight.now }
    requires left { from < length sight.now.running.now }
    ensures { IsGroup sight.now from result }
{
    laws::states_have_all_places();
    sight.job.limits_hold();
    let index = counter(sight.job, sight.state, sight.running[from]);
    for end in from + 1..sight.running.len() {
        if counter(sight.job, sight.state, sight.running[end]) != index {
            return Group { from, end, index };
        }
    }
    Group {
        from,
        end: sight.running.len(),
        index,
    }
}
