//! The turn of a processor, where its lane lies.
ghost use Rattle.std.specs.Prelude.{◌≡◌, ◌≢◌, ◌<◌, ℕ, MatchOption, None, Some, IfSome, IsTrue, length, suc};
ghost use Rattle.pram_machine.specs.Instructions.{gives};
ghost use Rattle.pram_machine.specs.Turns.{request_of};
ghost use Rattle.pram_words.specs.Phases.{kind_at};
ghost use Rattle.walk_memory.specs.Inner.Posts.{processor_of, step_of};
ghost use Rattle.walk_memory.specs.Lanes.{entries, lane};
ghost use Rattle.walk_memory.specs.Memory.{cell_named, registers_after};
ghost use Rattle.walk_memory.specs.Stands.{LoadsKnown, StandsKnown};
ghost use Rattle.walk_memory.specs.Turned.{turned, IsShaped};

use crate::asked::fetch;
use crate::block::Block;
use crate::entries::set_entry;
use crate::load_in::LoadIn;
use crate::memo::store_of;
use crate::post::Leaf;
use pram_job::{Instr, Job};
use pram_machine::{Put, Turn, cell_named};
use pram_words::Kind;

/// The instruction that the leaf's processor stands at, where it is known before the step.
#[inline(always)]
pub fn known_in<'a>(leaf: &Leaf<'a>, block: &Block, k: usize) -> Option<&'a Instr>
    requires lane { k < 64 }
    requires first { kind_at leaf.now.phase ≡ Kind.Compute }
    ensures { IfSome result (λ instr. StandsKnown leaf.now (lane block.now k) instr.now) }
{
    let memo = block.memo(k);
    if memo.is_before(leaf.step()) {
        fetch(leaf, memo.own.counter)
    } else {
        None
    }
}

/// It is known before the step, and stands at this counter.
#[inline(always)]
pub fn stands_in(leaf: &Leaf, block: &Block, k: usize, counter: u32) -> bool
    requires lane { k < 64 }
    ensures before { IsTrue result → suc (lane block.now k).step ≡ step_of leaf.now }
    ensures there { IsTrue result → (lane block.now k).own.counter ≡ counter }
{
    let memo = block.memo(k);
    memo.is_before(leaf.step()) && memo.own.counter == counter
}

/// What it loads, if it loads.
#[inline(always)]
pub fn load_of(leaf: &Leaf, block: &Block, k: usize, instr: &Instr) -> Option<LoadIn>
    requires lane { k < 64 }
    requires stands { StandsKnown leaf.now (lane block.now k) instr.now }
    ensures { MatchOption result
        (cell_named leaf.now.job (lane block.now k).own (Some instr.now) ≡ None)
        (λ load. (load.lane ≡ k) × LoadsKnown leaf.now (lane block.now k) load.register load.cell) }
{
    let own = block.own(k);
    let cell = cell_named(leaf.job(), instr, &own.registers)?;
    match *instr {
        Instr::Ld(register, _) => Some(LoadIn {
            lane: k,
            register,
            cell,
        }),
        _ => unreachable!(),
    }
}

/// The register took this value.
#[inline(always)]
pub fn take_value(leaf: &Leaf, block: &mut Block, load: LoadIn, value: u32)
    requires { (lane block.old load.lane).own.counter < length leaf.now.job.code }
    ensures same { lane block.new load.lane ≡ turned leaf.now (lane block.old load.lane)
        (gives leaf.now.job (processor_of leaf.now) (lane block.old load.lane).own.counter
        load.register value) }
    ensures others { (j : ℕ) → j ≢ load.lane → lane block.new j ≡ lane block.old j }
{
    let _ = leaf.job();
    let k = load.lane;
    block.standing.end = 0;
    block.acted[k] = leaf.phase();
    block.step[k] = leaf.step();
    block.counter[k] += 1;
    set_entry(&mut block.registers, load.register as usize, k, value);
    block.stored[k] = false;
}

/// The turn is taken.
#[inline(always)]
pub fn take_turn(leaf: &Leaf, block: &mut Block, k: usize, turn: Turn)
    requires lane { k < 64 }
    requires shape { IsShaped leaf.now.job (processor_of leaf.now) turn }
    ensures same { lane block.new k ≡ turned leaf.now (lane block.old k) (request_of turn) }
    ensures others { (j : ℕ) → j ≢ k → lane block.new j ≡ lane block.old j }
{
    block.standing.end = 0;
    put_in(leaf.job(), leaf.processor(), &mut block.registers, k, turn);
    block.counter[k] = turn.next;
    block.step[k] = leaf.step();
    block.set_store(k, leaf.phase(), store_of(leaf.job(), turn));
}

/// Its register is written, if it writes one.
#[inline(always)]
pub(crate) fn put_in(job: &Job, i: u32, registers: &mut [[u32; 64]; 4], k: usize, turn: Turn)
    requires processor { i < job.now.procs }
    requires lane { k < 64 }
    requires shape { IsShaped job.now i turn }
    ensures same { entries registers.new k ≡ registers_after job.now i (entries registers.old k)
        (request_of turn).put }
    ensures others { (j : ℕ) → j ≢ k → entries registers.new j ≡ entries registers.old j }
{
    if let Put::Register(place, value) = turn.put {
        let r = (place - job.register_place(i, 0)) as usize;
        set_entry(registers, r, k, value);
    }
}
