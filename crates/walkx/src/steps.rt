//! What a walk is played by.
ghost use Rattle.walk_memory.specs.Inner.Posts.{PostData};
ghost use Rattle.walkx.specs.declared.operation.Op.TheVariants.{Load, Swap};
ghost use Rattle.walkx.specs.Driving.{IsNextPart, Makes, Standing, makes};

use crate::left::Stopped;
use crate::operation::Op;

/// Who makes the operations of a script.
pub trait Steps {
    /// Where it stands in the script of a turn.
    ghost stands: { PostData → Standing Self };

    /// Makes the script's next operation, and gives its answer; `Stopped` where the walk is held
    /// there.
    fn make(&mut self, op: Op) -> Result<u64, Stopped>
        requires { (at : PostData) × IsNextPart (stands at) self.old (makes op) }
        ensures { Makes stands self.old op self.new result };

    /// The same, where it is a load: what it found.
    fn load(&mut self, word: u32) -> Result<u64, Stopped>
        requires { (at : PostData) × IsNextPart (stands at) self.old (makes (Load word)) }
        ensures { Makes stands self.old (Load word) self.new result };

    /// The same, where it is a swap.
    fn swap(&mut self, word: u32, old: u64, new: u64) -> Result<u64, Stopped>
        requires { (at : PostData) × IsNextPart (stands at) self.old (makes (Swap word old new)) }
        ensures { Makes stands self.old (Swap word old new) self.new result };
}
