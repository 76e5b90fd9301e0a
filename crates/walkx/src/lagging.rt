//! Loads of processors whose words do not tell what they are: each writes those that do not, too.
ghost use Rattle.std.specs.Prelude.{◌≡◌, ◌+◌, ◌^◌, ◌<◌, Some, slice_index};
ghost use Rattle.walk_memory.specs.Lagging.{load_landed, load_taken};
ghost use Rattle.walk_memory.specs.Lanes.{lane};
ghost use Rattle.walk_memory.specs.Stands.{LoadsKnown};
ghost use Rattle.walkx.specs.Driving.{IsNextPart, Plays};
ghost use Rattle.walkx.specs.Parts.{does_wide};
ghost use Rattle.walkx.specs.Passing.{PlaysUp};
ghost use Rattle.walkx.specs.WideParts.{counter_landed, own_landed};
ghost use Rattle.walkx.specs.WideParts.{register_due, register_landed};

use crate::land_at::Taking;
use crate::left::{Left, Stopped};
use crate::request::read_place;
use crate::steps::Steps;
use crate::turns::settle;
use crate::wide_own::write_if;
use walk_memory::{Block, Leaf, LoadIn};

/// The first pass of the leaf's processor, where it loads this, by its lane: what it loaded, or
/// none where the worker was late.
#[inline(always)]
pub(crate) fn load_lagging<S: Steps>(
    steps: &mut S,
    leaf: &Leaf,
    block: &Block,
    load: LoadIn,
) -> Result<Option<u32>, Stopped>
    requires loads { LoadsKnown leaf.now (lane block.now load.lane) load.register load.cell }
    requires next { IsNextPart (S.stands leaf.now) steps.old
        (does_wide leaf.now (lane block.now load.lane)) }
    ensures { PlaysUp (S.stands leaf.now) leaf.now steps.old (lane block.now load.lane)
        (load_landed leaf.now (lane block.now load.lane) load.register) steps.new result }
{
    let job = leaf.job();
    job.limits_hold();
    let value = match read_place(steps, leaf, load.cell, leaf.cell_word(load.cell)) {
        Ok(value) => value,
        Err(Left::Late) => return Ok(None),
        Err(Left::Held) => return Err(Stopped),
    };
    let lane = load.lane;
    let register = load.register;
    let taking = Taking {
        lane,
        register,
        value,
    };
    let done = land_load(steps, leaf, block, taking);
    settle(done)?;
    Ok(Some(value))
}

// Those of its words are written that no longer tell what it is once the register took its value,
// and that of the register, which tells the step.
#[inline(always)]
fn land_load<S: Steps>(
    steps: &mut S,
    leaf: &Leaf,
    block: &Block,
    taking: Taking,
) -> Result<(), Left>
    requires counter { slice_index block.now.counter taking.lane + 1 < 2 ^ 32 }
    requires next { IsNextPart (S.stands leaf.now) steps.old (own_landed leaf.now
        (load_taken (lane block.now taking.lane) taking.register taking.value)
        (Some taking.register)) }
    ensures { Plays (S.stands leaf.now) steps.old (own_landed leaf.now
        (load_taken (lane block.now taking.lane) taking.register taking.value)
        (Some taking.register)) steps.new result }
{
    land_register(steps, leaf, block, taking, 0)?;
    land_register(steps, leaf, block, taking, 1)?;
    land_register(steps, leaf, block, taking, 2)?;
    land_register(steps, leaf, block, taking, 3)?;
    land_counter(steps, leaf, block, taking)
}

// The word of a register, if it is to be written.
#[inline(always)]
fn land_register<S: Steps>(
    steps: &mut S,
    leaf: &Leaf,
    block: &Block,
    taking: Taking,
    r: u8,
) -> Result<(), Left>
    requires register { r < 4 }
    requires next { IsNextPart (S.stands leaf.now) steps.old (register_landed leaf.now
        (load_taken (lane block.now taking.lane) taking.register taking.value)
        (Some taking.register) r) }
    ensures { Plays (S.stands leaf.now) steps.old (register_landed leaf.now
        (load_taken (lane block.now taking.lane) taking.register taking.value)
        (Some taking.register) r) steps.new result }
{
    let (due, value) = register_of(block, taking, r);
    let write = (leaf.register_place(r), leaf.register_word(r), value);
    write_if(steps, leaf, due, write)
}

// Whether it is to be written, and what the register then is.
#[inline(always)]
fn register_of(block: &Block, taking: Taking, r: u8) -> (bool, u32)
    requires { r < 4 }
    ensures due { result.0 ≡ register_due (load_taken (lane block.now taking.lane)
        taking.register taking.value) (Some taking.register) r }
    ensures value { result.1 ≡ slice_index (load_taken (lane block.now taking.lane)
        taking.register taking.value).own.registers r }
{
    if taking.register == r {
        return (true, taking.value);
    }
    let k = taking.lane;
    let value = block.registers[r as usize][k];
    (value != block.told[r as usize][k], value)
}

// That of the counter.
#[inline(always)]
fn land_counter<S: Steps>(
    steps: &mut S,
    leaf: &Leaf,
    block: &Block,
    taking: Taking,
) -> Result<(), Left>
    requires counter { slice_index block.now.counter taking.lane + 1 < 2 ^ 32 }
    requires next { IsNextPart (S.stands leaf.now) steps.old (counter_landed leaf.now
        (load_taken (lane block.now taking.lane) taking.register taking.value)
        (Some taking.register)) }
    ensures { Plays (S.stands leaf.now) steps.old (counter_landed leaf.now
        (load_taken (lane block.now taking.lane) taking.register taking.value)
        (Some taking.register)) steps.new result }
{
    let k = taking.lane;
    let value = block.counter[k] + 1;
    let due = value != block.told_counter[k];
    write_if(
        steps,
        leaf,
        due,
        (leaf.counter_place(), leaf.counter_word(), value),
    )
}
