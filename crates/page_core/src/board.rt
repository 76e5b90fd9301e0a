//! A board after events.
ghost use Rattle.std.specs.Prelude.{◌≡◌, ◌↔◌, [], IfErr, IfOk, IsTrue, OnOk};
ghost use Rattle.page_core.specs.Events.{IsBoardAfter, IsHindered, IsKnown, IsEventMade, IsNotMade};
ghost use Rattle.page_core.specs.Events.{act_of_event, effect_by};
ghost use Rattle.pram_world.specs.Worlds.{world_after};

use crate::codes::WORKERS_MOST;
use crate::text::{Refusal, take_job};
use pram_world::{Effect, Event as WorldEvent, World};
use std::alloc::{AllocError, Global};

/// What happens. Kind 0 is an atomic step of the body of this number, 1 its loss, 2 its return; 3
/// is one body more, a twin of the worker of this number.
#[repr(C)]
#[derive(Clone, Copy)]
pub struct Event {
    pub kind: u32,
    pub body: u32,
}

/// Why there is no board after the events.
#[derive(Clone, Copy)]
pub enum Hindrance {
    /// The text gives no job, or the call is out of memory.
    Refused(Refusal),
    /// There is no board for so many workers.
    BadWorkers,
    /// The event of this number is unknown.
    BadEvent(u64),
}

// An effect where no atomic step is made.
const NO_EFFECT: Effect = Effect {
    op: None,
    before: 0,
    after: 0,
};

/// The board before any event.
pub(crate) fn open(alloc: Global, text: &[u8], workers: u32) -> Result<World, Hindrance>
    ensures opened { IfOk result (λ world. IsBoardAfter text.now workers [] world) }
    ensures hindered { IfErr result (λ hindrance. IsHindered text.now workers [] hindrance) }
{
    if workers < 1 || workers > WORKERS_MOST {
        return Err(Hindrance::BadWorkers);
    }
    let job = match take_job(alloc, text) {
        Ok(job) => job,
        Err(refusal) => return Err(Hindrance::Refused(refusal)),
    };
    match World::new(alloc, &job, workers) {
        Ok(world) => Ok(world),
        Err(_) => Err(Hindrance::Refused(Refusal::Memory)),
    }
}

/// Makes the event of this number.
pub(crate) fn make(world: &mut World, number: usize, event: Event) -> Result<Effect, Hindrance>
    ensures made { IfOk result (λ effect. IsEventMade world.old event world.new effect) }
    ensures hindered { IfErr result (λ hindrance. IsNotMade world.old number event hindrance) }
{
    if !is_known(world, event) {
        return Err(Hindrance::BadEvent(number as u64));
    }
    match happen(world, event) {
        Ok(effect) => Ok(effect),
        Err(_) => Err(Hindrance::Refused(Refusal::Memory)),
    }
}

// What an event that is known does.
fn happen(world: &mut World, event: Event) -> Result<Effect, AllocError>
    requires { IsKnown world.old event }
    ensures world { OnOk result (world.new ≡ world_after world.old (act_of_event event)) }
    ensures effect { IfOk result (λ effect. effect ≡ effect_by world.old (act_of_event event)) }
{
    let body = event.body as usize;
    match event.kind {
        0 => Ok(world.event(WorldEvent::Go(body))),
        1 => Ok(world.event(WorldEvent::Stop(body))),
        2 => Ok(world.event(WorldEvent::Back(body))),
        _ => {
            world.twin(event.body)?;
            Ok(NO_EFFECT)
        }
    }
}

// Whether there is a body, or a worker, of an event's number.
fn is_known(world: &World, event: Event) -> bool
    ensures { IsTrue result ↔ IsKnown world.now event }
{
    if event.kind < 3 {
        (event.body as usize) < world.count()
    } else {
        event.kind == 3 && event.body < world.layout().workers()
    }
}
