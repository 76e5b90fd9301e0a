//! The compute task.
ghost use Rattle.std.specs.Prelude.{◌≡◌, ◌<◌, ◌^◌, length, IfOk, IfSome};
ghost use Rattle.std.specs.Prelude.{None, Some};
ghost use Rattle.pram_job.specs.Job.{IsInstr};
ghost use Rattle.pram_machine.specs.Instructions.{HasShape, cell_read, decided, place_part};
ghost use Rattle.pram_machine.specs.Machine.{register_place};
ghost use Rattle.pram_words.specs.Words.{places_of};
ghost use Rattle.walk_memory.specs.Inner.Posts.{IsLeafPost, IsPairAt, processor_of};
ghost use Rattle.walkx.specs.Driving.{Ends, IsDue, IsNextPart, Plays};
ghost use Rattle.walkx.specs.Parts.{computes, decides_at, executes_at, raises, raises_part, reads};
ghost use Rattle.walkx.specs.Parts.{reads_cell_of, reads_operands};

use crate::judging::{is_late, raise};
use crate::left::Left;
use crate::parts::hear_both;
use crate::steps::Steps;
use pram_job::Instr;
use pram_machine::{
    Found, Request, Sources, cell_read, decided, goes_to, place_part, sources_of, value_part,
};
use pram_words::newer_payload;
use walk_memory::{Leaf, fetch};

/// What a place held before the step.
#[inline(always)]
pub(crate) fn read_place<S: Steps>(
    steps: &mut S,
    leaf: &Leaf,
    place: u32,
    word: u32,
) -> Result<u32, Left>
    requires word { IsPairAt leaf.now.layout place word }
    requires next { IsNextPart (S.stands leaf.now) steps.old (reads leaf.now place) }
    ensures plays { Plays (S.stands leaf.now) steps.old (reads leaf.now place) steps.new result }
{
    let (first, second) = hear_both(steps, leaf, place, word)?;
    if is_late(leaf, first, second) {
        Err(Left::Late)
    } else {
        Ok(newer_payload(first, second))
    }
}

/// What a register of the processor held before the step.
#[inline(always)]
pub(crate) fn read_register<S: Steps>(steps: &mut S, leaf: &Leaf, r: u8) -> Result<u32, Left>
    requires register { r < 4 }
    requires next { IsNextPart (S.stands leaf.now) steps.old (reads leaf.now (register_place
        leaf.now.job (processor_of leaf.now) r)) }
    ensures plays { Plays (S.stands leaf.now) steps.old (reads leaf.now (register_place leaf.now.job
        (processor_of leaf.now) r)) steps.new result }
{
    let place = leaf.register_place(r);
    read_place(steps, leaf, place, leaf.register_word(r))
}

/// What the registers that an instruction reads held before the step, and 0 for each that it has
/// not.
#[inline(always)]
pub(crate) fn read_operands<S: Steps>(
    steps: &mut S,
    leaf: &Leaf,
    instr: Instr,
) -> Result<(u32, u32), Left>
    requires instr { IsInstr leaf.now.job.cells (length leaf.now.job.code) instr }
    requires next { IsNextPart (S.stands leaf.now) steps.old (reads_operands leaf.now instr) }
    ensures plays { Plays (S.stands leaf.now) steps.old (reads_operands leaf.now instr) steps.new
        result }
{
    match sources_of(instr) {
        Sources::None => Ok((0, 0)),
        Sources::One(r) => {
            let a = read_register(steps, leaf, r)?;
            Ok((a, 0))
        }
        Sources::Two(r, s) => {
            let a = read_register(steps, leaf, r)?;
            let b = read_register(steps, leaf, s)?;
            Ok((a, b))
        }
    }
}

/// What the cell that an instruction reads held before the step, and 0 where it reads none.
#[inline(always)]
pub(crate) fn read_cell<S: Steps>(
    steps: &mut S,
    leaf: &Leaf,
    instr: Instr,
    a: u32,
) -> Result<u32, Left>
    requires instr { IsInstr leaf.now.job.cells (length leaf.now.job.code) instr }
    requires next { IsNextPart (S.stands leaf.now) steps.old (reads_cell_of leaf.now instr a) }
    ensures plays { Plays (S.stands leaf.now) steps.old (reads_cell_of leaf.now instr a) steps.new
        result }
{
    match cell_of(leaf, instr, a) {
        Some(cell) => read_place(steps, leaf, cell, leaf.cell_word(cell)),
        None => Ok(0),
    }
}

/// Part j of the request is raised to this payload.
#[inline(always)]
pub(crate) fn raise_part<S: Steps>(
    steps: &mut S,
    leaf: &Leaf,
    j: u32,
    payload: u32,
) -> Result<(), Left>
    requires part { j < 3 }
    requires next { IsNextPart (S.stands leaf.now) steps.old (raises_part leaf.now j payload) }
    ensures plays { Plays (S.stands leaf.now) steps.old (raises_part leaf.now j payload) steps.new
        result }
{
    steps.make(raise(leaf, j, payload))?;
    Ok(())
}

/// The request is raised.
#[inline(always)]
pub(crate) fn raise_request<S: Steps>(
    steps: &mut S,
    leaf: &Leaf,
    request: Request,
) -> Result<(), Left>
    requires place { place_part request < 2 ^ 32 }
    requires due { IsDue (S.stands leaf.now) steps.old (raises leaf.now request) }
    ensures ends { Ends (S.stands leaf.now) steps.old (raises leaf.now request) steps.new result }
{
    raise_part(steps, leaf, 0, place_part(request))?;
    raise_part(steps, leaf, 1, value_part(request))?;
    raise_part(steps, leaf, 2, request.next)
}

/// What the instruction at the counter asks for.
#[inline(always)]
pub(crate) fn decide<S: Steps>(
    steps: &mut S,
    leaf: &Leaf,
    counter: u32,
    instr: Instr,
) -> Result<Request, Left>
    requires counter { counter < length leaf.now.job.code }
    requires instr { IsInstr leaf.now.job.cells (length leaf.now.job.code) instr }
    requires next { IsNextPart (S.stands leaf.now) steps.old (decides_at leaf.now counter instr) }
    ensures shape { IfOk result (λ asked. HasShape leaf.now.job (processor_of leaf.now) asked) }
    ensures fits { IfOk result (λ asked. place_part asked < 2 ^ 32) }
    ensures plays { Plays (S.stands leaf.now) steps.old (decides_at leaf.now counter instr)
        steps.new result }
{
    let (a, b) = read_operands(steps, leaf, instr)?;
    let value = read_cell(steps, leaf, instr, a)?;
    Ok(request(leaf, counter, instr, Found { a, b, value }))
}

/// The instruction at the counter is computed, and its request raised.
#[inline(always)]
pub(crate) fn execute<S: Steps>(
    steps: &mut S,
    leaf: &Leaf,
    counter: u32,
    instr: Instr,
) -> Result<(), Left>
    requires counter { counter < length leaf.now.job.code }
    requires instr { IsInstr leaf.now.job.cells (length leaf.now.job.code) instr }
    requires due { IsDue (S.stands leaf.now) steps.old (executes_at leaf.now counter (Some instr)) }
    ensures ends { Ends (S.stands leaf.now) steps.old (executes_at leaf.now counter (Some instr))
        steps.new result }
{
    let request = decide(steps, leaf, counter, instr)?;
    raise_request(steps, leaf, request)
}

/// The compute task.
#[inline(always)]
pub(crate) fn compute<S: Steps>(steps: &mut S, leaf: &Leaf) -> Result<(), Left>
    requires due { IsDue (S.stands leaf.now) steps.old (computes leaf.now) }
    ensures ends { Ends (S.stands leaf.now) steps.old (computes leaf.now) steps.new result }
{
    let place = leaf.counter_place();
    let counter = read_place(steps, leaf, place, leaf.counter_word())?;
    match fetch(leaf, counter) {
        None => raise_request(steps, leaf, goes_to(counter)),
        Some(instr) => execute(steps, leaf, counter, *instr),
    }
}

// The cell that an instruction reads, if it reads one.
#[inline(always)]
fn cell_of(leaf: &Leaf, instr: Instr, a: u32) -> Option<u32>
    requires { IsInstr leaf.now.job.cells (length leaf.now.job.code) instr }
    ensures value { result ≡ cell_read leaf.now.job instr a }
    ensures below { IfSome result (λ cell. cell < places_of leaf.now.layout) }
{
    cell_read(leaf.job(), instr, a)
}

// The request of an instruction, these having been found.
#[inline(always)]
#[tactic(auto, using(walk_memory::proofs::Boards::place_shape))]
fn request(leaf: &Leaf, counter: u32, instr: Instr, found: Found) -> Request
    requires counter { counter < length leaf.now.job.code }
    requires instr { IsInstr leaf.now.job.cells (length leaf.now.job.code) instr }
    ensures value { result ≡ decided leaf.now.job (processor_of leaf.now) counter instr found.a
        found.b found.value }
    ensures shape { HasShape leaf.now.job (processor_of leaf.now) result }
    ensures fits { place_part result < 2 ^ 32 }
    ensures limits { IsLeafPost leaf.now }
{
    decided(leaf.job(), leaf.processor(), counter, instr, found)
}
