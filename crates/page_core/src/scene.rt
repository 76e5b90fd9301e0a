//! A board after events, and what each event did.
ghost use Rattle.std.specs.Prelude.{◌≡◌, ℕ, ◌-◌, ◌≤◌, IfErr, IfOk, OnErr, length};
ghost use Rattle.pram_world.specs.Runs.{Run};
ghost use Rattle.page_core.specs.Events.{IsBoardAfter, IsHindered, IsHinderedFrom, IsRunFrom};
ghost use Rattle.page_core.specs.Findings.{IsKeptBehind};
ghost use Rattle.page_core.specs.Scenes.{AreShown, IsBoardTold, IsNoted, IsWatched};
ghost use Rattle.page_core.specs.Scenes.{bodies_told, count_shown, glance_of, hindered_as};
ghost use Rattle.page_core.specs.Scenes.{row_after_event, words_told};

use crate::board::{Event, Hindrance, make, open};
use crate::bodies::{BodyRow, write_bodies};
use crate::codes::{BAD_EVENT, BAD_WORKERS, NO_ROOM, Status, TOLD, coded};
use crate::rows::{EventRow, event_row};
use crate::text::{Refusal, tell_refusal};
use crate::words::{WordRow, write_words};
use pram_world::{Effect, World};
use std::alloc::Global;
use walkx::seen_step;

/// What a scene has: how many words, bodies and rows were told (or, without room, how many words
/// and bodies there are), the leaves of the tree, the last finished phase `root`, the finished
/// steps of the machine, and the step of the conflict or 0. `at` is the number of an unknown event.
#[repr(C)]
#[derive(Clone, Copy)]
pub struct Scene {
    pub status: Status,
    pub root: u64,
    pub at: u64,
    pub words: u32,
    pub bodies: u32,
    pub rows: u32,
    pub leaves: u32,
    pub finished: u32,
    pub conflict: u32,
}

const NO_SCENE: Scene = Scene {
    status: TOLD,
    root: 0,
    at: 0,
    words: 0,
    bodies: 0,
    rows: 0,
    leaves: 0,
    finished: 0,
    conflict: 0,
};

/// The scene where there is no board.
pub fn hindered(hindrance: Hindrance) -> Scene
    ensures { result ≡ hindered_as hindrance }
{
    match hindrance {
        Hindrance::BadWorkers => Scene {
            status: coded(BAD_WORKERS),
            ..NO_SCENE
        },
        Hindrance::BadEvent(at) => Scene {
            status: coded(BAD_EVENT),
            at,
            ..NO_SCENE
        },
        Hindrance::Refused(refusal) => Scene {
            status: tell_refusal(refusal),
            ..NO_SCENE
        },
    }
}

/// What a scene has to show: the board of a job and so many workers after events, and what the
/// events did from `from` on.
#[derive(Drop)]
pub struct Query<'a> {
    pub text: &'a [u8],
    pub workers: u32,
    pub events: &'a [Event],
    pub from: usize,
}

/// How many events are told where there are so many rows.
pub fn shown(query: &Query<'_>, rows: usize) -> usize
    ensures { result ≡ count_shown (length query.now.events.now) query.now.from rows }
{
    rows.min(query.events.len().saturating_sub(query.from))
}

/// The board that is asked for; and what as many events did as `rows` has room for.
pub fn watched(alloc: Global, query: &Query<'_>, rows: &mut [EventRow]) -> Result<World, Hindrance>
    ensures watched { IfOk result (λ world. IsWatched query.now.text.now query.now.workers
        query.now.events.now query.now.from rows.new world) }
    ensures hindered { IfErr result
        (λ h. IsHindered query.now.text.now query.now.workers query.now.events.now h) }
    ensures rows { IsKeptBehind (length query.now.events.now - query.now.from) rows.old rows.new }
{
    let (events, from) = (query.events, query.from);
    let mut world = match open(alloc, query.text, query.workers) {
        Ok(world) => world,
        Err(hindrance) => return Err(hindrance),
    };
    match watch(&mut world, events, from, rows) {
        Err(hindrance) => Err(hindrance),
        Ok(()) => Ok(world),
    }
}

/// The words and the bodies of a board, so many rows being written.
pub fn tell_board(
    world: &World,
    shown: usize,
    words: &mut [WordRow],
    bodies: &mut [BodyRow],
) -> Result<Scene, Hindrance>
    ensures told { IfOk result (λ told. IsBoardTold world.now shown words.new bodies.new told) }
    ensures memory { IfErr result (λ h. h ≡ Hindrance.Refused Refusal.Memory) }
    ensures words { IfOk result (λ told. IsKeptBehind (words_told told) words.old words.new) }
    ensures bodies { IfOk result (λ told. IsKeptBehind (bodies_told told) bodies.old bodies.new) }
    ensures kept { OnErr result ((words.new ≡ words.old) × (bodies.new ≡ bodies.old)) }
{
    let count = small(world.count())?;
    let seen = glance(world, count, small(shown)?);
    if words.len() < world.layout().length() as usize || bodies.len() < world.count() {
        return Ok(Scene {
            status: coded(NO_ROOM),
            ..seen
        });
    }
    write_words(world, words);
    write_bodies(world, bodies);
    Ok(seen)
}

/// A number that 32 bits hold. No memory has room for more bodies or rows.
pub(crate) fn small(count: usize) -> Result<u32, Hindrance>
    ensures small { IfOk result (λ number. number ≡ count) }
    ensures large { IfErr result (λ h. h ≡ Hindrance.Refused Refusal.Memory) }
{
    match u32::try_from(count) {
        Ok(number) => Ok(number),
        Err(_) => Err(Hindrance::Refused(Refusal::Memory)),
    }
}

// What the board shows at a glance.
fn glance(world: &World, bodies: u32, rows: u32) -> Scene
    requires { bodies ≡ length world.now.bodies }
    ensures { result ≡ glance_of world.now rows }
{
    world.facts();
    let leaves = world.layout().leaves();
    let root = world.load(world.layout().node_word(1));
    let named = world.load(world.layout().conflict_word());
    Scene {
        root,
        words: world.layout().length(),
        bodies,
        rows,
        leaves,
        finished: seen_step(root, named),
        conflict: named as u32,
        ..NO_SCENE
    }
}

/// All events, one after the other; what those from `from` on did is put into the rows.
pub(crate) fn watch(
    world: &mut World,
    events: &[Event],
    from: usize,
    rows: &mut [EventRow],
) -> Result<(), Hindrance>
    ensures run { (r : Run) → r.world ≡ world.old
        → IfOk result (λ _. IsRunFrom r events.now world.new) }
    ensures shown { (r : Run) → r.world ≡ world.old
        → IfOk result (λ _. AreShown r events.now from rows.new) }
    ensures hindered { (r : Run) → r.world ≡ world.old
        → IfErr result (λ hindrance. IsHinderedFrom r events.now hindrance) }
    ensures rows { IsKeptBehind (length events.now - from) rows.old rows.new }
{
    for number in 0..events.len() {
        let event = events[number];
        let bodies = world.count();
        let effect = make(world, number, event)?;
        let made = Made {
            number,
            event,
            bodies: small(bodies)?,
            effect,
        };
        note(world, made, from, rows);
    }
    Ok(())
}

// An event that was made: its number, how many bodies there were before, and its effect.
#[derive(Drop)]
struct Made {
    number: usize,
    event: Event,
    bodies: u32,
    effect: Effect,
}

// What an event did is put into its row, if there is one.
fn note(world: &World, made: Made, from: usize, rows: &mut [EventRow])
    ensures { IsNoted (row_after_event world.now made.event made.bodies made.effect) from
        made.number
        rows.old rows.new }
{
    if from <= made.number && made.number - from < rows.len() {
        rows[made.number - from] = event_row(world, made.event, made.bodies, made.effect);
    }
}

/// The board after all these events.
pub(crate) fn after(
    alloc: Global,
    text: &[u8],
    workers: u32,
    events: &[Event],
) -> Result<World, Hindrance>
    ensures after { IfOk result (λ world. IsBoardAfter text.now workers events.now world) }
    ensures hindered { IfErr result (λ h. IsHindered text.now workers events.now h) }
{
    let query = Query {
        text,
        workers,
        events,
        from: 0,
    };
    match watched(alloc, &query, &mut []) {
        Ok(world) => Ok(world),
        Err(hindrance) => Err(hindrance),
    }
}
