//! The first pass of the wide form: what is a processor's own is written, and a store claimed.
ghost use Rattle.std.specs.Prelude.{◌≡◌, ◌<◌, ◌||◌, suc, false, slice_get};
ghost use Rattle.std.specs.Prelude.{IfSome, Ok, None, Some};
ghost use Rattle.pram_machine.specs.Instructions.{goes_to};
ghost use Rattle.pram_machine.specs.Turns.{request_of};
ghost use Rattle.pram_words.specs.Phases.{kind_at};
ghost use Rattle.walkx.specs.Driving.{IsNextPart, Plays, learns};
ghost use Rattle.walk_memory.specs.Inner.Posts.{IsCell, IsPairAt, processor_of, step_of};
ghost use Rattle.walk_memory.specs.Memory.{cell_named, cell_next, is_due, is_load, settles_in};
ghost use Rattle.walk_memory.specs.Stands.{IsStand};
ghost use Rattle.walkx.specs.Passing.{Passes, idle_in, if_so};
ghost use Rattle.walk_memory.specs.Turned.{IsShaped};
ghost use Rattle.walkx.specs.WideParts.{claimed_cell, counter_due, counter_landed, does_own};
ghost use Rattle.walkx.specs.WideParts.{does_own_by, learned, own_landed, own_written};
ghost use Rattle.walkx.specs.WideParts.{register_due, register_landed, store_claimed, writes_if};

use crate::judging::claiming;
use crate::left::Left;
use crate::parts::write_place;
use crate::request::read_place;
use crate::steps::Steps;
use crate::wide_request::know;
use pram_job::{Instr, Rule};
use pram_machine::{Put, Turn, cell_named};
use pram_words::Kind;
use walk_memory::{Leaf, Memo, fetch, is_due, is_load, turn_by};

// A place of the processor's own, of which this is the first word, is written, if it is to be.
#[inline(always)]
pub(crate) fn write_if<S: Steps>(
    steps: &mut S,
    leaf: &Leaf,
    so: bool,
    write: (u32, u32, u32),
) -> Result<(), Left>
    requires word { IsPairAt leaf.now.layout write.0 write.1 }
    requires next { IsNextPart (S.stands leaf.now) steps.old
        (writes_if leaf.now so write.0 write.2) }
    ensures plays { Plays (S.stands leaf.now) steps.old (writes_if leaf.now so write.0 write.2)
        steps.new result }
{
    let (place, word, value) = write;
    if so {
        write_place(steps, leaf, place, word, value)
    } else {
        Ok(())
    }
}

// A register is to be written: it is no longer what its words tell, or tells the step.
#[inline(always)]
fn register_due(taken: &Memo, tells: Option<u8>, r: u8) -> bool
    requires { r < 4 }
    ensures { result ≡ register_due taken.now tells r }
{
    let register_tells = match tells {
        Some(register) => register == r,
        None => false,
    };
    register_tells || taken.own.registers[r as usize] != taken.told.registers[r as usize]
}

// Then it is written.
#[inline(always)]
fn land_register<S: Steps>(
    steps: &mut S,
    leaf: &Leaf,
    taken: &Memo,
    tells: Option<u8>,
    r: u8,
) -> Result<(), Left>
    requires register { r < 4 }
    requires next { IsNextPart (S.stands leaf.now) steps.old
        (register_landed leaf.now taken.now tells r) }
    ensures plays { Plays (S.stands leaf.now) steps.old
        (register_landed leaf.now taken.now tells r) steps.new result }
{
    let value = taken.own.registers[r as usize];
    let write = (leaf.register_place(r), leaf.register_word(r), value);
    write_if(steps, leaf, register_due(taken, tells, r), write)
}

// The same of the counter.
#[inline(always)]
fn counter_due(taken: &Memo, tells: Option<u8>) -> bool
    ensures { result ≡ counter_due taken.now tells }
{
    tells.is_none() || taken.own.counter != taken.told.counter
}

// Then it is written.
#[inline(always)]
fn land_counter<S: Steps>(
    steps: &mut S,
    leaf: &Leaf,
    taken: &Memo,
    tells: Option<u8>,
) -> Result<(), Left>
    requires next { IsNextPart (S.stands leaf.now) steps.old
        (counter_landed leaf.now taken.now tells) }
    ensures plays { Plays (S.stands leaf.now) steps.old (counter_landed leaf.now taken.now tells)
        steps.new result }
{
    let write = (leaf.counter_place(), leaf.counter_word(), taken.own.counter);
    write_if(steps, leaf, counter_due(taken, tells), write)
}

// Of a processor that settles, and took its turn in what is known, those places are written that
// are no longer what its words tell, and the one that tells the step.
#[inline(always)]
fn land_own<S: Steps>(
    steps: &mut S,
    leaf: &Leaf,
    taken: &Memo,
    tells: Option<u8>,
) -> Result<(), Left>
    requires next { IsNextPart (S.stands leaf.now) steps.old
        (own_landed leaf.now taken.now tells) }
    ensures plays { Plays (S.stands leaf.now) steps.old (own_landed leaf.now taken.now tells)
        steps.new result }
{
    land_register(steps, leaf, taken, tells, 0)?;
    land_register(steps, leaf, taken, tells, 1)?;
    land_register(steps, leaf, taken, tells, 2)?;
    land_register(steps, leaf, taken, tells, 3)?;
    land_counter(steps, leaf, taken, tells)
}

// It settles by a turn in which it read nothing, or goes on without.
#[inline(always)]
fn settle_own<S: Steps>(
    steps: &mut S,
    leaf: &Leaf,
    known: &Memo,
    turn: Turn,
    settles: bool,
) -> Result<(), Left>
    requires shape { IsShaped leaf.now.job (processor_of leaf.now) turn }
    requires reads { cell_next leaf.now.job known.now.own ≡ None }
    requires settles { settles ≡ settles_in leaf.now.job (step_of leaf.now) known.now.settled
        known.now.own }
    requires next { IsNextPart (S.stands leaf.now) steps.old
        (own_written leaf.now known.now (request_of turn)) }
    ensures none { settles ≡ false → (result ≡ Ok tt) × (steps.new ≡ steps.old) }
    ensures plays { Plays (S.stands leaf.now) steps.old
        (own_written leaf.now known.now (request_of turn)) steps.new result }
{
    if settles {
        let mut taken = *known;
        taken.own.take(leaf, turn);
        land_own(steps, leaf, &taken, None)
    } else {
        Ok(())
    }
}

// The store of a turn is claimed. Under common no store is.
#[inline(always)]
pub(crate) fn claim_store<S: Steps>(steps: &mut S, leaf: &Leaf, turn: Turn) -> Result<(), Left>
    requires shape { IsShaped leaf.now.job (processor_of leaf.now) turn }
    requires next { IsNextPart (S.stands leaf.now) steps.old
        (store_claimed leaf.now.job.rule leaf.now (request_of turn)) }
    ensures none { claimed_cell leaf.now.job.rule leaf.now.job (request_of turn) ≡ None →
        (result ≡ Ok tt) × (steps.new ≡ steps.old) }
    ensures plays { Plays (S.stands leaf.now) steps.old
        (store_claimed leaf.now.job.rule leaf.now (request_of turn)) steps.new result }
{
    match claimed(leaf, turn) {
        None => Ok(()),
        Some(cell) => {
            steps.make(claiming(leaf, cell))?;
            Ok(())
        }
    }
}

/// The first pass, for a processor that is known before the step, by its instruction.
#[inline(always)]
pub(crate) fn own_by<S: Steps>(
    steps: &mut S,
    leaf: &Leaf,
    memo: &mut Memo,
    instr: &Instr,
) -> Result<(), Left>
    requires stand { IsStand leaf.now memo.old.own.counter instr.now }
    requires next { IsNextPart (S.stands leaf.now) steps.old
        (does_own_by leaf.now memo.old (Some instr.now)) }
    ensures idle { suc memo.old.step ≡ step_of leaf.now →
        Passes (idle_in Kind.Compute leaf.now memo.old) steps.old steps.new memo.new }
    ensures plays { Plays (S.stands leaf.now) steps.old
        (does_own_by leaf.now memo.old (Some instr.now)) steps.new (learns result memo.new) }
{
    match cell_named(leaf.job(), instr, &memo.own.registers) {
        Some(cell) => own_loaded(steps, leaf, memo, instr, cell),
        None => own_decided(steps, leaf, memo, instr),
    }
}

// The same, where it reads this cell: what it loads goes into a register, and it settles.
#[inline(always)]
fn own_loaded<S: Steps>(
    steps: &mut S,
    leaf: &Leaf,
    memo: &mut Memo,
    instr: &Instr,
    cell: u32,
) -> Result<(), Left>
    requires stand { IsStand leaf.now memo.old.own.counter instr.now }
    requires cell { cell_named leaf.now.job memo.old.own (Some instr.now) ≡ Some cell }
    requires below { cell < leaf.now.job.cells }
    requires next { IsNextPart (S.stands leaf.now) steps.old
        (does_own_by leaf.now memo.old (Some instr.now)) }
    ensures plays { Plays (S.stands leaf.now) steps.old
        (does_own_by leaf.now memo.old (Some instr.now)) steps.new (learns result memo.new) }
{
    let _ = leaf.job();
    let value = match read_place(steps, leaf, cell, leaf.cell_word(cell)) {
        Ok(value) => value,
        Err(why) => {
            memo.forget();
            return Err(why);
        }
    };
    match *instr {
        Instr::Ld(register, _) => {
            memo.own.load(leaf, register, value);
            land_own(steps, leaf, memo, Some(register))?;
            memo.land(leaf);
            Ok(())
        }
        _ => unreachable!(),
    }
}

// The same, where it reads no cell: a store is claimed, and in a load, and 64 steps after it last
// did, it settles.
#[inline(always)]
fn own_decided<S: Steps>(
    steps: &mut S,
    leaf: &Leaf,
    memo: &mut Memo,
    instr: &Instr,
) -> Result<(), Left>
    requires stand { IsStand leaf.now memo.old.own.counter instr.now }
    requires none { cell_named leaf.now.job memo.old.own (Some instr.now) ≡ None }
    requires next { IsNextPart (S.stands leaf.now) steps.old
        (does_own_by leaf.now memo.old (Some instr.now)) }
    ensures idle { suc memo.old.step ≡ step_of leaf.now →
        Passes (idle_in Kind.Compute leaf.now memo.old) steps.old steps.new memo.new }
    ensures plays { Plays (S.stands leaf.now) steps.old
        (does_own_by leaf.now memo.old (Some instr.now)) steps.new (learns result memo.new) }
{
    let _ = leaf.job();
    let turn = turn_by(leaf, &memo.own, instr, 0);
    claim_store(steps, leaf, turn)?;
    let settles = settles_by(leaf, memo.settled, instr);
    settle_own(steps, leaf, memo, turn, settles)?;
    memo.take_up(leaf, turn, settles);
    Ok(())
}

/// The first pass.
#[inline(always)]
pub(crate) fn own<S: Steps>(steps: &mut S, leaf: &Leaf, memo: &mut Memo) -> Result<(), Left>
    requires first { kind_at leaf.now.phase ≡ Kind.Compute }
    requires next { IsNextPart (S.stands leaf.now) steps.old (does_own leaf.now memo.old) }
    ensures idle { Passes (idle_in Kind.Compute leaf.now memo.old) steps.old steps.new memo.new }
    ensures plays { Plays (S.stands leaf.now) steps.old (does_own leaf.now memo.old) steps.new
        (learns result memo.new) }
{
    if memo.is_past(leaf.phase()) {
        return Ok(());
    }
    know(steps, leaf, memo)?;
    match fetch(leaf, memo.own.counter) {
        None => {
            stay(leaf, memo);
            Ok(())
        }
        Some(instr) => own_by(steps, leaf, memo, instr),
    }
}

/// What is known after a step of a processor that has stopped.
#[inline(always)]
pub(crate) fn stay(leaf: &Leaf, memo: &mut Memo)
    requires first { kind_at leaf.now.phase ≡ Kind.Compute }
    requires none { slice_get leaf.now.job.code memo.old.own.counter ≡ None }
    ensures { memo.new ≡ learned leaf.now memo.old (goes_to memo.old.own.counter) }
{
    memo.acted = leaf.phase();
    memo.step = leaf.step();
    memo.store = None;
}

/// Whether the task of a processor that is known before the step asks nothing, by its instruction.
/// Then this is what is known after it.
#[inline(always)]
pub(crate) fn passes_by(leaf: &Leaf, memo: &mut Memo, instr: &Instr) -> bool
    requires before { suc memo.old.step ≡ step_of leaf.now }
    requires stand { IsStand leaf.now memo.old.own.counter instr.now }
    ensures idle { idle_in Kind.Compute leaf.now memo.old ≡ if_so result memo.new }
    ensures other { result ≡ false → memo.new ≡ memo.old }
{
    let _ = leaf.job();
    if settles_by(leaf, memo.settled, instr) {
        return false;
    }
    let turn = turn_by(leaf, &memo.own, instr, 0);
    if claimed(leaf, turn).is_some() {
        return false;
    }
    memo.take_up(leaf, turn, false);
    true
}

// It settles in the step, by its instruction, having last settled in that step.
#[inline(always)]
pub(crate) fn settles_by(leaf: &Leaf, since: u32, instr: &Instr) -> bool
    ensures { result ≡ (is_load (Some instr.now) || is_due since (step_of leaf.now)) }
{
    is_load(instr) || is_due(since, leaf.step())
}

// The cell that the turn claims, if it claims one.
#[inline(always)]
fn claimed(leaf: &Leaf, turn: Turn) -> Option<u32>
    requires { IsShaped leaf.now.job (processor_of leaf.now) turn }
    ensures value { result ≡ claimed_cell leaf.now.job.rule leaf.now.job (request_of turn) }
    ensures below { IfSome result (λ cell. cell < leaf.now.job.cells) }
    ensures cell { IfSome result (λ cell. IsCell leaf.now.layout cell) }
{
    match (leaf.rule(), turn.put) {
        (Rule::Priority | Rule::Crew, Put::Cell(cell, _)) => Some(cell),
        _ => None,
    }
}
