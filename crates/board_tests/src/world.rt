//! Workers of a world that are lost and come back, or have a twin; and each public call once.
ghost use Rattle.std.specs.Prelude.{◌≡◌, IfOk};

use crate::jobs::answer_text;
use crate::worker::{Bench, WRITTEN, sees_the_older_value};
use pram_job::Job;
use pram_text::read_job;
use pram_words::Layout;
use pram_world::{Effect, Event, World, laws};
use std::alloc::{AllocError, Global};
use std::process::Abort;
use std::test::Fail;
use walkx::{Ended, Op};

const SWAP: &[u8] = b"pram 1\ncells 2\nprocs 2\nsteps 5\ninit 0 7\ninit 1 9\ncode\n\
    pid r0\nset r1 1\nsub r1 r1 r0\nld r2 r1\nst r0 r2\n";

// A world of two workers.
fn world(alloc: Global, job: &Job) -> Result<World, AllocError>
    ensures { IfOk result (λ w. w.layout.workers ≡ 2) }
{
    World::new(alloc, job, 2)
}

// Lets a body make so many steps, and tells whether it is over before.
fn go(world: &mut World, body: usize, steps: u32) -> bool {
    for _ in 0..steps {
        if !world.is_going(body) {
            return true;
        }
        world.event(Event::Go(body));
    }
    false
}

// How a body ended, and what the words say.
fn end_text(alloc: Global, world: &World, end: Option<Ended>) -> Result<String, AllocError> {
    let answer = world.outcome()?;
    let answer = answer_text(alloc, &answer)?;
    format!(in alloc; "{end:?} {answer}")
}

/// Worker 0 is lost after so many steps, and comes back once worker 1 is over: how both ended.
/// Nothing where it was over before.
pub fn lost(alloc: Global, job: &Job, steps: u32) -> Result<Option<String>, AllocError> {
    let mut lost = world(alloc, job)?;
    if go(&mut lost, 0, steps) {
        return Ok(None);
    }
    lost.event(Event::Stop(0));
    let stopped = lost.finish(0);
    let other = lost.finish(1);
    let other = end_text(alloc, &lost, other)?;
    lost.event(Event::Back(0));
    let back = lost.finish(0);
    Ok(Some(format!(in alloc; "{stopped:?}, {other}, {back:?}")?))
}

// Two bodies take turns.
fn take_turns(world: &mut World, first: usize, second: usize, steps: u32) {
    for _ in 0..steps {
        world.event(Event::Go(first));
        world.event(Event::Go(second));
    }
}

/// Worker 0 and its twin take turns, until worker 0 is lost after so many steps: how its twin
/// ended. Nothing where it was over before.
pub fn twin(alloc: Global, job: &Job, steps: u32) -> Result<Option<String>, AllocError> {
    let mut twins = world(alloc, job)?;
    let twin = twins.twin(0)?;
    take_turns(&mut twins, 0, twin, steps);
    if !twins.is_going(0) {
        return Ok(None);
    }
    twins.event(Event::Stop(0));
    let end = twins.finish(twin);
    Ok(Some(end_text(alloc, &twins, end)?))
}

#[test]
fn twins_take_turns(rt: HostRuntime) -> Result<(), Fail> {
    let job = read_job(rt.alloc(), SWAP)?;
    let mut world = world(rt.alloc(), &job)?;
    assert!(rt; world.twin(0)? == 2);
    for _ in 0..2000 {
        world.run_events(&[Event::Go(0), Event::Go(2)]);
    }
    assert!(rt; !world.is_going(0) && !world.is_going(2));
    let end = end_text(rt.alloc(), &world, None)?;
    assert!(rt; end.as_str() == "None [9, 7]");
    Ok(())
}

const NOTHING: Effect = Effect {
    op: None,
    before: 0,
    after: 0,
};

const LOAD: Effect = Effect {
    op: Some(Op::Load(1)),
    before: 0,
    after: 0,
};

#[test]
fn events_and_effects(rt: HostRuntime) -> Result<(), Fail> {
    let job = read_job(rt.alloc(), SWAP)?;
    let layout = Layout::new(&job, 2);
    let mut world = World::new(rt.alloc(), &job, 2)?;
    assert!(rt; world.event(Event::Go(2)) == NOTHING);
    assert!(rt; world.event(Event::Go(0)) == LOAD);
    assert!(rt; world.event(Event::Stop(0)) == NOTHING);
    assert!(rt; world.event(Event::Go(0)) == NOTHING);
    assert!(rt; world.finish(7).is_none());
    assert!(rt; world.load(layout.node_word(1)) == 0);
    let end = end_text(rt.alloc(), &world, None)?;
    assert!(rt; end.as_str() == "None unfinished 0");
    Ok(())
}

#[test]
fn a_world_tells_its_words_and_its_laws(rt: HostRuntime) -> Result<(), Fail> {
    let job = read_job(rt.alloc(), SWAP)?;
    let world = World::new(rt.alloc(), &job, 2)?;
    world.layout().limits_hold();
    assert!(rt; world.place_words(1) == (9, 9));
    world.facts();
    laws::every_interleaving();
    laws::every_read_is_lawful();
    laws::every_body_is_bounded();
    Ok(())
}

// The words of a world, as a reader loads them.
fn words_of(alloc: Global, world: &World) -> Result<Vec<u64>, AllocError> {
    let mut words = Vec::new(alloc);
    for k in 0..world.layout().length() {
        words.push(world.load(k))?;
    }
    Ok(words)
}

#[test]
fn a_read_between_two_steps_sees_the_older_one(rt: HostRuntime) -> Result<(), Fail> {
    let job = read_job(rt.alloc(), WRITTEN.as_bytes())?;
    let layout = Layout::new(&job, 1);
    let mut world = World::new(rt.alloc(), &job, 1)?;
    world.run_events(&[Event::Go(0); 53]);
    let words = words_of(rt.alloc(), &world)?;
    sees_the_older_value(&rt, &Bench { job, layout }, words.as_slice());
    Ok(())
}
