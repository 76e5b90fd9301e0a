//! The first pass of a processor whose step is known, where its lane lies.
ghost use Rattle.std.specs.Prelude.{◌≡◌, ◌≢◌, ◌<◌, ℕ, OnOk, None, Some};
ghost use Rattle.std.specs.Prelude.{length};
ghost use Rattle.walkx.specs.Driving.{IsNextPart, Plays};
ghost use Rattle.walk_memory.specs.Lanes.{lane};
ghost use Rattle.walk_memory.specs.Memory.{cell_named};
ghost use Rattle.walkx.specs.Passing.{Passes, idle};
ghost use Rattle.walkx.specs.Places.{DoneInLane, tells_all, tells_counter, tells_register};
ghost use Rattle.walkx.specs.Places.{wide_in_lane};
ghost use Rattle.walk_memory.specs.Stands.{LoadsKnown, StandsKnown};
ghost use Rattle.walkx.specs.WideParts.{counter_due, counter_landed, own_landed};
ghost use Rattle.walkx.specs.WideParts.{register_due, register_landed};

use crate::land_at::Landing;
use crate::left::Left;
use crate::request::read_place;
use crate::steps::Steps;
use crate::wide_own::{claim_store, settles_by, write_if};
use pram_job::Instr;
use pram_machine::cell_named;
use walk_memory::{
    Block, Leaf, LoadIn, forget, load_of, set_entry, take_turn, take_value, turn_by,
};

/// The first pass of the leaf's processor, by its instruction.
#[inline(always)]
pub(crate) fn own_in<S: Steps>(
    steps: &mut S,
    leaf: &Leaf,
    block: &mut Block,
    k: usize,
    instr: &Instr,
) -> Result<(), Left>
    requires lane { k < 64 }
    requires stands { StandsKnown leaf.now (lane block.old k) instr.now }
    requires next { IsNextPart (S.stands leaf.now) steps.old (wide_in_lane leaf.now block.old k) }
    ensures idle { Passes (idle leaf.now (lane block.old k)) steps.old steps.new
        (lane block.new k) }
    ensures done { DoneInLane (S.stands leaf.now) leaf.now steps.old block.old k steps.new block.new
        result }
{
    match load_of(leaf, block, k, instr) {
        Some(load) => load_in(steps, leaf, block, load),
        None => decide_in(steps, leaf, block, k, instr),
    }
}

// The first pass, where it loads this: that goes into a register, and the processor settles.
#[inline(always)]
fn load_in<S: Steps>(
    steps: &mut S,
    leaf: &Leaf,
    block: &mut Block,
    load: LoadIn,
) -> Result<(), Left>
    requires loads { LoadsKnown leaf.now (lane block.old load.lane) load.register load.cell }
    requires next { IsNextPart (S.stands leaf.now) steps.old
        (wide_in_lane leaf.now block.old load.lane) }
    ensures { DoneInLane (S.stands leaf.now) leaf.now steps.old block.old load.lane steps.new
        block.new result }
{
    let value = match read_place(steps, leaf, load.cell, leaf.cell_word(load.cell)) {
        Ok(value) => value,
        Err(why) => {
            forget(block, load.lane);
            return Err(why);
        }
    };
    take_value(leaf, block, load, value);
    let tells = Some(load.register);
    land_in(
        steps,
        leaf,
        block,
        Landing {
            lane: load.lane,
            tells,
        },
    )
}

// The first pass, where it reads no cell: a store is claimed, and in a load, and 64 steps after it
// last did, it settles.
#[inline(always)]
fn decide_in<S: Steps>(
    steps: &mut S,
    leaf: &Leaf,
    block: &mut Block,
    k: usize,
    instr: &Instr,
) -> Result<(), Left>
    requires lane { k < 64 }
    requires stands { StandsKnown leaf.now (lane block.old k) instr.now }
    requires none { cell_named leaf.now.job (lane block.old k).own (Some instr.now) ≡ None }
    requires next { IsNextPart (S.stands leaf.now) steps.old (wide_in_lane leaf.now block.old k) }
    ensures idle { Passes (idle leaf.now (lane block.old k)) steps.old steps.new
        (lane block.new k) }
    ensures done { DoneInLane (S.stands leaf.now) leaf.now steps.old block.old k steps.new block.new
        result }
{
    let _ = leaf.job();
    let turn = turn_by(leaf, &block.own(k), instr, 0);
    claim_store(steps, leaf, turn)?;
    let settles = settles_by(leaf, block.settled[k], instr);
    take_turn(leaf, block, k, turn);
    if settles {
        land_in(
            steps,
            leaf,
            block,
            Landing {
                lane: k,
                tells: None,
            },
        )
    } else {
        Ok(())
    }
}

// Those of the lane's words are written that no longer tell what it is, and the one that tells the
// step: a register, or the counter.
#[inline(always)]
fn land_in<S: Steps>(
    steps: &mut S,
    leaf: &Leaf,
    block: &mut Block,
    landing: Landing,
) -> Result<(), Left>
    requires next { IsNextPart (S.stands leaf.now) steps.old
        (own_landed leaf.now (lane block.old landing.lane) landing.tells) }
    ensures others { (j : ℕ) → j ≢ landing.lane → lane block.new j ≡ lane block.old j }
    ensures told { OnOk result
        (lane block.new landing.lane ≡ tells_all (lane block.old landing.lane)) }
    ensures plays { Plays (S.stands leaf.now) steps.old
        (own_landed leaf.now (lane block.old landing.lane) landing.tells) steps.new result }
{
    let _ = block.own(landing.lane);
    for r in 0..4u8 {
        land_register_in(steps, leaf, block, landing, r)?;
    }
    land_counter_in(steps, leaf, block, landing)
}

// The word of a register, if it is to be written.
#[inline(always)]
fn land_register_in<S: Steps>(
    steps: &mut S,
    leaf: &Leaf,
    block: &mut Block,
    landing: Landing,
    r: u8,
) -> Result<(), Left>
    requires register { r < 4 }
    requires next { IsNextPart (S.stands leaf.now) steps.old
        (register_landed leaf.now (lane block.old landing.lane) landing.tells r) }
    ensures others { (j : ℕ) → j ≢ landing.lane → lane block.new j ≡ lane block.old j }
    ensures told { lane block.new landing.lane ≡ tells_register (lane block.old landing.lane) r }
    ensures four { length (lane block.new landing.lane).told.registers ≡ 4 }
    ensures plays { Plays (S.stands leaf.now) steps.old
        (register_landed leaf.now (lane block.old landing.lane) landing.tells r) steps.new result }
{
    let k = landing.lane;
    let due = register_due_in(block, landing, r);
    let value = block.registers[r as usize][k];
    set_entry(&mut block.told, r as usize, k, value);
    let write = (leaf.register_place(r), leaf.register_word(r), value);
    write_if(steps, leaf, due, write)
}

// It is: it no longer tells what the register is, or it tells the step.
#[inline(always)]
fn register_due_in(block: &Block, landing: Landing, r: u8) -> bool
    requires { r < 4 }
    ensures { result ≡ register_due (lane block.now landing.lane) landing.tells r }
{
    let (r, k) = (r as usize, landing.lane);
    let register_tells = match landing.tells {
        Some(register) => register as usize == r,
        None => false,
    };
    register_tells || block.registers[r][k] != block.told[r][k]
}

// That of the counter.
#[inline(always)]
fn land_counter_in<S: Steps>(
    steps: &mut S,
    leaf: &Leaf,
    block: &mut Block,
    landing: Landing,
) -> Result<(), Left>
    requires next { IsNextPart (S.stands leaf.now) steps.old
        (counter_landed leaf.now (lane block.old landing.lane) landing.tells) }
    ensures others { (j : ℕ) → j ≢ landing.lane → lane block.new j ≡ lane block.old j }
    ensures told { lane block.new landing.lane ≡ tells_counter (lane block.old landing.lane) }
    ensures plays { Plays (S.stands leaf.now) steps.old
        (counter_landed leaf.now (lane block.old landing.lane) landing.tells) steps.new result }
{
    let k = landing.lane;
    let due = counter_due_in(block, landing);
    let value = block.counter[k];
    block.standing.end = 0;
    block.settled[k] = block.step[k];
    block.told_counter[k] = value;
    let write = (leaf.counter_place(), leaf.counter_word(), value);
    write_if(steps, leaf, due, write)
}

// It is to be written.
#[inline(always)]
fn counter_due_in(block: &Block, landing: Landing) -> bool
    ensures { result ≡ counter_due (lane block.now landing.lane) landing.tells }
{
    let k = landing.lane;
    landing.tells.is_none() || block.counter[k] != block.told_counter[k]
}
