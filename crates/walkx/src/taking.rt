//! Tasks of a block's processors, with what is remembered of them.
ghost use Rattle.std.specs.Prelude.{◌≡◌};
ghost use Rattle.pram_words.specs.Phases.{kind_at};
ghost use Rattle.walkx.specs.Driving.{IsNextPart};
ghost use Rattle.walk_memory.specs.Inner.Posts.{processor_of};
ghost use Rattle.walk_memory.specs.Memory.{FitsMemo, memo_of};
ghost use Rattle.walkx.specs.Parts.{does_wide};
ghost use Rattle.walk_memory.specs.Stands.{IsStand};
ghost use Rattle.walkx.specs.Passing.{LoadsUp, PlaysUp, TakesUp, TakesUpIf};
ghost use Rattle.walk_memory.specs.Lagging.{LagsBy, load_landed};
ghost use Rattle.walk_memory.specs.Plain.{ClaimsBy, LoadsBy, claimed_of};

use crate::claim_plain::claim_plainly;
use crate::lagging::load_lagging;
use crate::left::Stopped;
use crate::own_in::own_in;
use crate::plain::load_plainly;
use crate::steps::Steps;
use crate::stores::carry_known;
use crate::tasks::wide_task;
use crate::turns::settle;
use pram_job::Instr;
use pram_words::Kind;
use walk_memory::{Claims, Leaf, LoadIn, Loads, Memory, known_in, stands_in};

/// The task of a processor of a block, with what is remembered of it, whether it asks something
/// or not.
#[inline(always)]
pub fn take_up<S: Steps>(memory: &mut Memory, steps: &mut S, leaf: &Leaf) -> Result<(), Stopped>
    requires memo { FitsMemo leaf.now.job (memo_of memory.old (processor_of leaf.now)) }
    requires next { IsNextPart (S.stands leaf.now) steps.old
        (does_wide leaf.now (memo_of memory.old (processor_of leaf.now))) }
    ensures { TakesUp (S.stands leaf.now) leaf.now steps.old memory.old steps.new memory.new
        result }
{
    if take_known(memory, steps, leaf)? {
        return Ok(());
    }
    take_copied(memory, steps, leaf)
}

// In the first pass, where the processor is past it or its step is known, that is done where its
// lane lies; else nothing is.
#[inline(always)]
fn take_known<S: Steps>(memory: &mut Memory, steps: &mut S, leaf: &Leaf) -> Result<bool, Stopped>
    requires next { IsNextPart (S.stands leaf.now) steps.old
        (does_wide leaf.now (memo_of memory.old (processor_of leaf.now))) }
    ensures { TakesUpIf (S.stands leaf.now) leaf.now steps.old memory.old steps.new memory.new
        result }
{
    match leaf.kind() {
        Kind::Compute => take_first(memory, steps, leaf),
        _ => Ok(false),
    }
}

// The same, in the first pass.
#[inline(always)]
fn take_first<S: Steps>(memory: &mut Memory, steps: &mut S, leaf: &Leaf) -> Result<bool, Stopped>
    requires first { kind_at leaf.now.phase ≡ Kind.Compute }
    requires next { IsNextPart (S.stands leaf.now) steps.old
        (does_wide leaf.now (memo_of memory.old (processor_of leaf.now))) }
    ensures { TakesUpIf (S.stands leaf.now) leaf.now steps.old memory.old steps.new memory.new
        result }
{
    let i = leaf.processor() as usize;
    match &mut memory.blocks {
        Some(blocks) => {
            if i / 64 < blocks.len() {
                if blocks[i / 64].memo(i % 64).is_past(leaf.phase()) {
                    return Ok(true);
                }
                if let Some(instr) = known_in(leaf, &blocks[i / 64], i % 64) {
                    let done = own_in(steps, leaf, &mut blocks[i / 64], i % 64, instr);
                    settle(done)?;
                    return Ok(true);
                }
            }
            Ok(false)
        }
        None => Ok(false),
    }
}

// Its task by a copy of what is known of it.
#[inline(never)]
fn take_copied<S: Steps>(memory: &mut Memory, steps: &mut S, leaf: &Leaf) -> Result<(), Stopped>
    requires memo { FitsMemo leaf.now.job (memo_of memory.old (processor_of leaf.now)) }
    requires next { IsNextPart (S.stands leaf.now) steps.old
        (does_wide leaf.now (memo_of memory.old (processor_of leaf.now))) }
    ensures { TakesUp (S.stands leaf.now) leaf.now steps.old memory.old steps.new memory.new
        result }
{
    let i = leaf.processor();
    let mut memo = memory.memo(i);
    let done = wide_task(steps, leaf, &mut memo);
    memory.put(i, &memo);
    settle(done)
}

/// As `take_up`, in the second pass, where it is known what the leaf's processor does in it; else
/// nothing is done.
#[inline(always)]
pub fn carry<S: Steps>(memory: &mut Memory, steps: &mut S, leaf: &Leaf) -> Result<bool, Stopped>
    requires memo { FitsMemo leaf.now.job (memo_of memory.old (processor_of leaf.now)) }
    requires next { IsNextPart (S.stands leaf.now) steps.old
        (does_wide leaf.now (memo_of memory.old (processor_of leaf.now))) }
    ensures { TakesUpIf (S.stands leaf.now) leaf.now steps.old memory.old steps.new memory.new
        result }
{
    match leaf.kind() {
        Kind::Verify => carry_second(memory, steps, leaf),
        _ => Ok(false),
    }
}

// The same, in the second pass.
#[inline(always)]
fn carry_second<S: Steps>(memory: &mut Memory, steps: &mut S, leaf: &Leaf) -> Result<bool, Stopped>
    requires second { kind_at leaf.now.phase ≡ Kind.Verify }
    requires memo { FitsMemo leaf.now.job (memo_of memory.old (processor_of leaf.now)) }
    requires next { IsNextPart (S.stands leaf.now) steps.old
        (does_wide leaf.now (memo_of memory.old (processor_of leaf.now))) }
    ensures { TakesUpIf (S.stands leaf.now) leaf.now steps.old memory.old steps.new memory.new
        result }
{
    let i = leaf.processor() as usize;
    match &mut memory.blocks {
        Some(blocks) => {
            if i / 64 < blocks.len() {
                let block = &mut blocks[i / 64];
                return carry_known(steps, leaf, block, i % 64);
            }
            Ok(false)
        }
        None => Ok(false),
    }
}

/// As `take_up`, where the leaf's processor is known to stand at this instruction of the first
/// pass, which is the one at this counter; else nothing is done. A caller that knows the
/// instruction's form gets code for that form alone.
#[inline(always)]
pub fn take_up_at<S: Steps>(
    memory: &mut Memory,
    steps: &mut S,
    leaf: &Leaf,
    counter: u32,
    instr: &Instr,
) -> Result<bool, Stopped>
    requires stand { IsStand leaf.now counter instr.now }
    requires memo { FitsMemo leaf.now.job (memo_of memory.old (processor_of leaf.now)) }
    requires next { IsNextPart (S.stands leaf.now) steps.old
        (does_wide leaf.now (memo_of memory.old (processor_of leaf.now))) }
    ensures { TakesUpIf (S.stands leaf.now) leaf.now steps.old memory.old steps.new memory.new
        result }
{
    let i = leaf.processor() as usize;
    match &mut memory.blocks {
        Some(blocks) => {
            if i / 64 < blocks.len() && stands_in(leaf, &blocks[i / 64], i % 64, counter) {
                let done = own_in(steps, leaf, &mut blocks[i / 64], i % 64, instr);
                settle(done)?;
                return Ok(true);
            }
            Ok(false)
        }
        None => Ok(false),
    }
}

/// As `take_up`, where the leaf's processor loads plainly: what it loaded, or none where the worker
/// was late. The caller remembers it.
#[inline(always)]
pub fn take_load<S: Steps>(
    memory: &Memory,
    steps: &mut S,
    leaf: &Leaf,
    loads: &Loads,
) -> Result<Option<u32>, Stopped>
    requires plain { LoadsBy leaf.now memory.now loads.now }
    requires next { IsNextPart (S.stands leaf.now) steps.old
        (does_wide leaf.now (memo_of memory.now (processor_of leaf.now))) }
    ensures { LoadsUp (S.stands leaf.now) leaf.now steps.old
        (memo_of memory.now (processor_of leaf.now)) loads.now.register steps.new result }
{
    let cell = loads.cells[(leaf.processor() % 64) as usize];
    load_plainly(memory, steps, leaf, loads.register, cell)
}

/// As `take_load`, where the leaf's processor is known to load this, whatever its words tell.
#[inline(always)]
pub fn take_lagging<S: Steps>(
    memory: &Memory,
    steps: &mut S,
    leaf: &Leaf,
    loads: &Loads,
) -> Result<Option<u32>, Stopped>
    requires known { LagsBy leaf.now memory.now loads.now }
    requires next { IsNextPart (S.stands leaf.now) steps.old
        (does_wide leaf.now (memo_of memory.now (processor_of leaf.now))) }
    ensures { PlaysUp (S.stands leaf.now) leaf.now steps.old
        (memo_of memory.now (processor_of leaf.now)) (load_landed leaf.now
        (memo_of memory.now (processor_of leaf.now)) loads.now.register) steps.new result }
{
    let i = leaf.processor();
    let lane = (i % 64) as usize;
    let register = loads.register;
    let cell = loads.cells[lane];
    match memory.block(i / 64) {
        Some(block) => load_lagging(
            steps,
            leaf,
            block,
            LoadIn {
                lane,
                register,
                cell,
            },
        ),
        None => unreachable!(),
    }
}

/// As `take_load`, where the leaf's processor claims plainly: a value that nobody reads.
#[inline(always)]
pub fn take_claim<S: Steps>(
    memory: &Memory,
    steps: &mut S,
    leaf: &Leaf,
    claims: &Claims,
) -> Result<Option<u32>, Stopped>
    requires plain { ClaimsBy leaf.now memory.now claims.now }
    requires next { IsNextPart (S.stands leaf.now) steps.old
        (does_wide leaf.now (memo_of memory.now (processor_of leaf.now))) }
    ensures { PlaysUp (S.stands leaf.now) leaf.now steps.old
        (memo_of memory.now (processor_of leaf.now)) (λ found. claimed_of leaf.now claims.now
        memory.now (processor_of leaf.now)) steps.new result }
{
    let k = (leaf.processor() % 64) as usize;
    claim_plainly(memory, steps, leaf, (claims.cells[k], claims.operand))
}
