//! Loads of which little is to be done: each is a look at its cell, and a write of its register.
ghost use Rattle.std.specs.Prelude.{◌<◌};
ghost use Rattle.walkx.specs.Driving.{IsNextPart};
ghost use Rattle.walkx.specs.Parts.{does_wide};
ghost use Rattle.walkx.specs.Passing.{LoadsUp};
ghost use Rattle.walk_memory.specs.Inner.Posts.{processor_of};
ghost use Rattle.walk_memory.specs.Memory.{memo_of};
ghost use Rattle.walk_memory.specs.Plain.{LoadsPlainly};

use crate::left::{Left, Stopped};
use crate::parts::write_place;
use crate::request::read_place;
use crate::steps::Steps;
use crate::turns::settle;
use walk_memory::{Leaf, Memory};

/// The first pass of the leaf's processor, where it loads this cell plainly: what it loaded, or none
/// where the worker was late.
#[inline(always)]
pub(crate) fn load_plainly<S: Steps>(
    memory: &Memory,
    steps: &mut S,
    leaf: &Leaf,
    register: u8,
    cell: u32,
) -> Result<Option<u32>, Stopped>
    requires four { register < 4 }
    requires plain { LoadsPlainly leaf.now (memo_of memory.now (processor_of leaf.now)) register
        cell }
    requires next { IsNextPart (S.stands leaf.now) steps.old
        (does_wide leaf.now (memo_of memory.now (processor_of leaf.now))) }
    ensures { LoadsUp (S.stands leaf.now) leaf.now steps.old
        (memo_of memory.now (processor_of leaf.now)) register steps.new result }
{
    let _ = memory;
    let value = match read_place(steps, leaf, cell, leaf.cell_word(cell)) {
        Ok(value) => value,
        Err(Left::Late) => return Ok(None),
        Err(Left::Held) => return Err(Stopped),
    };
    let place = leaf.register_place(register);
    let done = write_place(steps, leaf, place, leaf.register_word(register), value);
    settle(done)?;
    Ok(Some(value))
}
