//! Claims of which little is to be done: each is one operation.
ghost use Rattle.walk_memory.specs.Inner.Posts.{processor_of};
ghost use Rattle.walk_memory.specs.Memory.{memo_of};
ghost use Rattle.walk_memory.specs.Plain.{ClaimsPlainly, claimed};
ghost use Rattle.walkx.specs.Driving.{IsNextPart};
ghost use Rattle.walkx.specs.Parts.{does_wide};
ghost use Rattle.walkx.specs.Passing.{PlaysUp};

use crate::judging::claiming;
use crate::left::Stopped;
use crate::steps::Steps;
use pram_job::Operand;
use walk_memory::{Leaf, Memory};

/// The first pass of the leaf's processor, where it claims this cell plainly, for a store of this
/// operand: a value that nobody reads.
#[inline(always)]
pub(crate) fn claim_plainly<S: Steps>(
    memory: &Memory,
    steps: &mut S,
    leaf: &Leaf,
    write: (u32, Operand),
) -> Result<Option<u32>, Stopped>
    requires plain { ClaimsPlainly leaf.now (memo_of memory.now (processor_of leaf.now)) write.0
        write.1 }
    requires next { IsNextPart (S.stands leaf.now) steps.old
        (does_wide leaf.now (memo_of memory.now (processor_of leaf.now))) }
    ensures { PlaysUp (S.stands leaf.now) leaf.now steps.old
        (memo_of memory.now (processor_of leaf.now)) (λ found. claimed leaf.now
        (memo_of memory.now (processor_of leaf.now)) write.0 write.1) steps.new result }
{
    let _ = memory;
    let _ = leaf.job();
    steps.make(claiming(leaf, write.0))?;
    Ok(Some(0))
}
