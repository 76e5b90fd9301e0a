//! The turns of a step. Processors that stand at the same instruction take theirs together, as far
//! as no other stands between them: it is looked up once for all of them. Registers and counters
//! are each one processor's own, so they are written at once; stores to cells wait for the end.
ghost use Rattle.std.specs.Prelude.{◌≡◌, ◌<◌, ◌≤◌, All, length, slice_index, suc, IfSome};
ghost use Rattle.pram_machine.specs.Machine.{IsDataPlace, counter, counter_place, place_count};
ghost use Rattle.pram_machine.specs.Turns.{put_of, request_of, IsSorted};
ghost use Rattle.pram_step.specs.Inner.Passes.{TurnsGoOn, IsMove, IsPassed, IsUnderWay};
ghost use Rattle.pram_step.specs.Running.{AreRunning};
ghost use Rattle.pram_step.specs.Inner.Passes.{StandsNext};

use crate::stores::{Store, take_up};
use pram_job::{Instr, Job, Place};
use pram_machine::{Fetched, Put, Turn};

/// How far the turns of a step are.
#[derive(Clone, Copy)]
pub(crate) struct Turns {
    /// How many of the processors that run have had theirs.
    pub taken: usize,
    /// How many stores these ask for.
    pub stores: u32,
}

/// Takes the turn of each processor that runs, and what it asks to store. Answers how many stores
/// are asked for.
#[inline(always)]
pub(crate) fn pass(job: &Job, places: &mut [u32], running: &[u32], asked: &mut [Store]) -> u32
    requires places { length places.old ≡ place_count job.now }
    requires running { AreRunning job.now places.old running.now }
    requires asked { length asked.old ≡ job.now.procs }
    ensures passed { IsPassed job.now places.old job.now.procs places.new asked.new result }
    ensures few { result ≤ job.now.procs }
{
    job.limits_hold();
    let mut turns = Turns {
        taken: 0,
        stores: 0,
    };
    while turns.taken < running.len() {
        turns = take_next(job, places, running, asked, turns);
    }
    turns.stores
}

/// Takes the turn of the next processor, and those of all after it that stand at the same
/// instruction.
#[inline(always)]
fn take_next(
    job: &Job,
    places: &mut [u32],
    running: &[u32],
    asked: &mut [Store],
    turns: Turns,
) -> Turns
    requires left { turns.taken < length running.now }
    requires begun { IsUnderWay job.now running.now places.old asked.old turns }
    ensures { TurnsGoOn job.now running.now places.old asked.old turns places.new asked.new result }
{
    match followed(job, places, running, turns) {
        Some(at) => take_form(Stand { at, turns }, places, running, asked),
        None => take_apart(job, places, running, asked, turns),
    }
}

/// How many processors have their turns one by one before it is asked again whether neighbours
/// stand together.
const APART: usize = 8;

/// Takes the turns of the next processors one by one, each by the instruction that it stands at.
#[inline(always)]
fn take_apart(
    job: &Job,
    places: &mut [u32],
    running: &[u32],
    asked: &mut [Store],
    turns: Turns,
) -> Turns
    requires left { turns.taken < length running.now }
    requires begun { IsUnderWay job.now running.now places.old asked.old turns }
    ensures { TurnsGoOn job.now running.now places.old asked.old turns places.new asked.new result }
{
    let end = running.len().min(turns.taken + APART);
    let mut turns = take_single(job, places, running, asked, turns);
    while turns.taken < end {
        turns = take_single(job, places, running, asked, turns);
    }
    turns
}

/// Takes the turn of the next processor.
#[inline(always)]
fn take_single(
    job: &Job,
    places: &mut [u32],
    running: &[u32],
    asked: &mut [Store],
    turns: Turns,
) -> Turns
    requires left { turns.taken < length running.now }
    requires begun { IsUnderWay job.now running.now places.old asked.old turns }
    ensures { TurnsGoOn job.now running.now places.old asked.old turns places.new asked.new result }
{
    job.limits_hold();
    let counter = places[job.counter_place(running[turns.taken]) as usize];
    match Fetched::at(job, counter) {
        Some(at) => take_one(at, places, running, asked, turns),
        None => Turns {
            taken: turns.taken + 1,
            stores: turns.stores,
        },
    }
}

/// The instruction of the next processor, where the one after it stands there too, so that a loop
/// pays.
#[inline(always)]
fn followed<'m>(job: &'m Job, places: &[u32], running: &[u32], turns: Turns) -> Option<Fetched<'m>>
    requires left { turns.taken < length running.now }
    requires running { All (λ i. i < job.now.procs) running.now }
    requires places { length places.now ≡ place_count job.now }
    ensures { IfSome result (λ at. (at.job ≡ job.entry) × (counter job.now places.now
        (slice_index running.now turns.taken) ≡ at.counter)) }
{
    job.limits_hold();
    let counter = places[job.counter_place(running[turns.taken]) as usize];
    let after = *running.get(turns.taken + 1)?;
    if places[job.counter_place(after) as usize] == counter {
        Fetched::at(job, counter)
    } else {
        None
    }
}

/// The instruction that the next processor stands at, and how far the turns are.
#[derive(Clone, Copy)]
struct Stand<'m> {
    at: Fetched<'m>,
    turns: Turns,
}

/// Takes the turns of the next processors that stand at this instruction. Each form that has a row
/// here has a loop of its own, in which no other is looked at.
#[inline(always)]
fn take_form(stand: Stand<'_>, places: &mut [u32], running: &[u32], asked: &mut [Store]) -> Turns
    requires { StandsNext stand.at.job.now running.now places.old asked.old stand.turns
        stand.at.counter }
    ensures { TurnsGoOn stand.entry.at.job.now running.now places.old asked.old stand.entry.turns
        places.new asked.new result }
{
    match *stand.at.instr {
        Instr::Set(r, k) => take_as(stand, Instr::Set(r, k), places, running, asked),
        Instr::Pid(r) => take_as(stand, Instr::Pid(r), places, running, asked),
        Instr::Jz(r, index) => take_as(stand, Instr::Jz(r, index), places, running, asked),
        Instr::Jmp(index) => take_as(stand, Instr::Jmp(index), places, running, asked),
        Instr::Add(r, a, b) => take_as(stand, Instr::Add(r, a, b), places, running, asked),
        Instr::Sub(r, a, b) => take_as(stand, Instr::Sub(r, a, b), places, running, asked),
        Instr::Mul(r, a, b) => take_as(stand, Instr::Mul(r, a, b), places, running, asked),
        Instr::Shl(r, a, b) => take_as(stand, Instr::Shl(r, a, b), places, running, asked),
        Instr::Shr(r, a, b) => take_as(stand, Instr::Shr(r, a, b), places, running, asked),
        Instr::Div(r, a, b) => take_as(stand, Instr::Div(r, a, b), places, running, asked),
        Instr::Rem(r, a, b) => take_as(stand, Instr::Rem(r, a, b), places, running, asked),
        Instr::And(r, a, b) => take_as(stand, Instr::And(r, a, b), places, running, asked),
        Instr::Or(r, a, b) => take_as(stand, Instr::Or(r, a, b), places, running, asked),
        Instr::Xor(r, a, b) => take_as(stand, Instr::Xor(r, a, b), places, running, asked),
        Instr::Lt(r, a, b) => take_as(stand, Instr::Lt(r, a, b), places, running, asked),
        Instr::Eq(r, a, b) => take_as(stand, Instr::Eq(r, a, b), places, running, asked),
        Instr::Ld(r, Place::Cell(a)) => {
            take_as(stand, Instr::Ld(r, Place::Cell(a)), places, running, asked)
        }
        Instr::Ld(r, Place::Named(array, a)) => {
            take_as(
                stand,
                Instr::Ld(r, Place::Named(array, a)),
                places,
                running,
                asked,
            )
        }
        Instr::St(Place::Cell(a), b) => {
            take_as(stand, Instr::St(Place::Cell(a), b), places, running, asked)
        }
        Instr::St(Place::Named(array, a), b) => {
            take_as(
                stand,
                Instr::St(Place::Named(array, a), b),
                places,
                running,
                asked,
            )
        }
        instr => take_as(stand, instr, places, running, asked),
    }
}

/// Takes them by this instruction, the same one by a name that tells its form.
#[inline(always)]
fn take_as(
    stand: Stand<'_>,
    instr: Instr,
    places: &mut [u32],
    running: &[u32],
    asked: &mut [Store],
) -> Turns
    requires same { instr ≡ stand.at.instr.now }
    requires stands { StandsNext stand.at.job.now running.now places.old asked.old stand.turns
        stand.at.counter }
    ensures { TurnsGoOn stand.entry.at.job.now running.now places.old asked.old stand.entry.turns
        places.new asked.new result }
{
    take(stand.at.with(&instr), places, running, asked, stand.turns)
}

/// Takes the turns of the next processors that stand at this instruction, up to one that does not.
#[inline(always)]
fn take(
    fetched: Fetched<'_>,
    places: &mut [u32],
    running: &[u32],
    asked: &mut [Store],
    turns: Turns,
) -> Turns
    requires left { turns.taken < length running.now }
    requires begun { IsUnderWay fetched.job.now running.now places.old asked.old turns }
    requires here { counter fetched.job.now places.old (slice_index running.now turns.taken)
        ≡ fetched.counter }
    ensures { TurnsGoOn fetched.entry.job.now running.now places.old asked.old turns
        places.new asked.new result }
{
    let job = fetched.job;
    let mut turns = take_one(fetched, places, running, asked, turns);
    while turns.taken < running.len() {
        let place = job.counter_place(running[turns.taken]);
        if places[place as usize] != fetched.counter {
            return turns;
        }
        turns = take_one(fetched, places, running, asked, turns);
    }
    turns
}

/// Takes the turn of the next processor alone, which stands at this instruction.
#[inline(always)]
fn take_one(
    fetched: Fetched<'_>,
    places: &mut [u32],
    running: &[u32],
    asked: &mut [Store],
    turns: Turns,
) -> Turns
    requires left { turns.taken < length running.now }
    requires begun { IsUnderWay fetched.job.now running.now places.old asked.old turns }
    requires here { counter fetched.job.now places.old (slice_index running.now turns.taken)
        ≡ fetched.counter }
    ensures next { result.taken ≡ suc turns.taken }
    ensures on { TurnsGoOn fetched.entry.job.now running.now places.old asked.old turns
        places.new asked.new result }
{
    let job = fetched.job;
    job.limits_hold();
    let processor = running[turns.taken];
    let at = job.counter_place(processor);
    let turn = fetched.turn(places, processor);
    move_on(job, places, processor, at, turn);
    Turns {
        taken: turns.taken + 1,
        stores: take_up(job, asked, turns.stores, processor, turn.put),
    }
}

/// Writes what a processor asks for to its own register and counter.
#[inline(always)]
fn move_on(job: &Job, places: &mut [u32], processor: u32, at: u32, turn: Turn)
    requires processor { processor < job.now.procs }
    requires places { length places.old ≡ place_count job.now }
    requires counter { at ≡ counter_place job.now processor }
    requires own { IfSome (put_of turn.put) (λ w. IsDataPlace job.now processor w.0) }
    requires sorted { IsSorted job.now turn.put }
    ensures { IsMove job.now processor (request_of turn) places.old places.new }
{
    places[at as usize] = turn.next;
    if let Put::Register(place, value) = turn.put {
        places[place as usize] = value;
    }
}
