//! A step: the turns of the processors that run, and then their stores. Where it agrees it is one
//! pass over them.
ghost use Rattle.std.specs.Prelude.{◌≡◌, ◌*◌, ◌-◌, ◌≤◌, length, IfErr, IfOk, OnOk, OnErr};
ghost use Rattle.pram_machine.specs.Machine.{place_count};
ghost use Rattle.pram_machine.specs.Instructions.{requests_in};
ghost use Rattle.pram_step.specs.Steps.{IsDispute};
ghost use Rattle.pram_step.specs.Inner.Marks.{HasRoom};
ghost use Rattle.pram_step.specs.Inner.Passes.{IsAdvance, IsMade, IsWithoutStores};
ghost use Rattle.pram_step.specs.Inner.Courses.{GoesTo, IsRoom};
ghost use Rattle.pram_step.specs.Inner.Courses.{begun_on_course, listed_processors};
ghost use Rattle.pram_step.specs.Runs.{IsStateAfter};
ghost use Rattle.pram_step.specs.Running.{AreRunning, Repeats};

use crate::answer::{Dispute, Fault};
use crate::laws;
use crate::lockstep::pass;
use crate::running::Running;
use crate::state::State;
use crate::stores::{Stores, judge_all, write_stores};
use crate::walks::{Observer, Sight, Span};
use pram_job::Job;
use std::alloc::{AllocError, Global};

/// What comes of some steps from the start.
#[derive(Clone, Copy)]
pub(crate) enum Course {
    /// They were made.
    Made,
    /// They were made, and later ones change nothing.
    Settled,
    /// One of them is against the rule.
    Disputed(Fault),
}

/// After so many steps each it is looked at whether processors have stopped or stand still.
const PAUSE: u32 = 32;

/// Room for what a step needs beside the places.
#[derive(Debug, Drop)]
pub(crate) struct Room {
    pub running: Running,
    pub stores: Stores,
}

impl Room {
    /// Room for nothing.
    pub(crate) fn new(alloc: Global) -> Self {
        Room {
            running: Running::new(alloc),
            stores: Stores::new(alloc),
        }
    }

    /// Room for the processors and the cells of a job.
    pub(crate) fn of(alloc: Global, job: &Job) -> Result<Self, AllocError>
        ensures { IfOk result (IsRoom job.now) }
    {
        let mut room = Room::new(alloc);
        room.make(alloc, job)?;
        Ok(room)
    }

    /// Makes it, where there is none.
    pub(crate) fn make(&mut self, alloc: Global, job: &Job) -> Result<(), AllocError>
        ensures { OnOk result (IsRoom job.now self.new) }
    {
        self.running.make_room(alloc, job)?;
        self.stores.make_room(alloc, job)
    }
}

/// Makes the steps of the span, or those up to the first that is against the rule. Where no
/// processor changes anything the later steps change nothing either, so they are left out. The
/// observer sees each step before it is made.
pub(crate) fn make_steps<O: Observer>(
    job: &Job,
    state: &mut State,
    room: &mut Room,
    span: Span,
    observer: &mut O,
) -> Result<Course, AllocError>
    requires within { span.from ≤ span.to }
    requires after { IsStateAfter job.now span.from state.old }
    requires room { IsRoom job.now room.old }
    requires seen { O.has_seen job.now span.from observer.old }
    ensures course { IfOk result (GoesTo job.now span.to state.new) }
    ensures seen { IfOk result (λ course.
        O.has_seen job.now (begun_on_course span.to course) observer.new) }
{
    laws::states_have_all_places();
    job.limits_hold();
    room.running.find(job, state.places());
    for made in span.from..span.to {
        observe(
            job,
            state,
            room,
            Span {
                from: made,
                to: made + 1,
            },
            observer,
        )?;
        if let Err(dispute) = state.advance(job, room) {
            return Ok(Course::Disputed(dispute.in_step(made + 1)));
        }
        if room
            .running
            .rest(job, state.places(), made % PAUSE == PAUSE - 1)
        {
            observe(
                job,
                state,
                room,
                Span {
                    from: made + 1,
                    to: span.to,
                },
                observer,
            )?;
            return Ok(Course::Settled);
        }
    }
    if room.running.rest(job, state.places(), true) {
        Ok(Course::Settled)
    } else {
        Ok(Course::Made)
    }
}

// The observer sees the steps of the span, if there are any. Each begins in this state.
#[inline(always)]
fn observe<O: Observer>(
    job: &Job,
    state: &State,
    room: &Room,
    span: Span,
    observer: &mut O,
) -> Result<(), AllocError>
    requires within { span.from ≤ span.to }
    requires after { IsStateAfter job.now span.from state.now }
    requires repeats { Repeats job.now span.from (span.to - span.from) state.now }
    requires running { AreRunning job.now state.now (listed_processors room.now) }
    requires seen { O.has_seen job.now span.from observer.old }
    ensures { OnOk result (O.has_seen job.now span.to observer.new) }
{
    if span.from == span.to {
        return Ok(());
    }
    observer.look(&Sight {
        job,
        state,
        made: span.from,
        times: span.to - span.from,
        running: room.running.as_slice(),
    })
}

/// Makes a step where it agrees. Otherwise the places are as before, and the dispute is answered:
/// what the pass may change is kept here.
pub(crate) fn attempt(
    job: &Job,
    places: &mut [u32],
    room: &mut Room,
    kept: &mut [u32],
) -> Result<(), Dispute>
    requires places { length places.old ≡ place_count job.now }
    requires room { IsRoom job.now room.old }
    requires kept { length kept.old ≡ 5 * job.now.procs }
    ensures made { OnOk result (IsMade job.now places.old places.new) }
    ensures dispute { IfErr result (IsDispute job.now (requests_in job.now places.old)) }
    ensures unchanged { OnErr result (places.new ≡ places.old) }
{
    let cells = job.cells() as usize;
    kept.copy_from_slice(&places[cells..]);
    room.running.find(job, places);
    match advance(job, places, room.running.as_slice(), &mut room.stores) {
        Ok(()) => Ok(()),
        Err(dispute) => {
            places[cells..].copy_from_slice(kept);
            Err(dispute)
        }
    }
}

/// Makes a step where it agrees. Otherwise it answers the dispute, and no store is made: only the
/// cells are as before.
#[inline(always)]
pub(crate) fn advance(
    job: &Job,
    places: &mut [u32],
    running: &[u32],
    stores: &mut Stores,
) -> Result<(), Dispute>
    requires places { length places.old ≡ place_count job.now }
    requires running { AreRunning job.now places.old running.now }
    requires stores { HasRoom job.now stores.old }
    ensures made { OnOk result (IsAdvance job.now running.now places.old places.new) }
    ensures dispute { IfErr result (IsDispute job.now (requests_in job.now places.old)) }
    ensures turns { OnErr result (IsWithoutStores job.now places.old places.new) }
    ensures stores { HasRoom job.now stores.new }
{
    job.limits_hold();
    let count = pass(job, places, running, &mut stores.asked);
    let asked = &stores.asked[..count as usize];
    match judge_all(job, asked, &mut stores.marks) {
        Some(dispute) => Err(dispute),
        None => {
            write_stores(places, asked);
            Ok(())
        }
    }
}
