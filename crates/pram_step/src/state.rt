//! The places of the machine, and a step.
ghost use Rattle.std.specs.Prelude.{◌≡◌, ◌*◌, ◌<◌, length, take, slice_index, vec_len};
ghost use Rattle.std.specs.Prelude.{IfOk, OnOk, OnErr, IfErr};
ghost use Rattle.pram_machine.specs.Machine.{place_count, start};
ghost use Rattle.pram_machine.specs.Instructions.{request_in, requests_in};
ghost use Rattle.pram_step.specs.declared.state.StepFault.TheVariants.{Conflict, Memory};
ghost use Rattle.pram_step.specs.Steps.{Agrees, IsDispute, IsStepFault, next_state, IsNext};
ghost use Rattle.pram_step.specs.Inner.Passes.{IsAdvance, IsWithoutStores};
ghost use Rattle.pram_step.specs.Inner.Courses.{IsRoom, listed_processors};
ghost use Rattle.pram_step.specs.Running.{AreRunning};

use crate::answer::{Cells, Dispute};
use crate::pass::{Room, advance, attempt};
use pram_job::Job;
use pram_machine::{Request, request_in};
use std::alloc::{AllocError, Global};
use std::marker::Model;

/// What each place of the machine holds: the cells, then four registers of each processor, then the
/// counter of each.
///
/// Contracts see it as this list. It keeps room for the stores of a step, which its first step
/// takes.
#[derive(Debug, Drop)]
pub struct State {
    places: Vec<u32>,
    room: Room,
    kept: Vec<u32>,
}

impl Model for State {
    ghost use Rattle.std.specs.Prelude.{List, ℕ};

    ghost Value = { List ℕ };

    ghost view = { λ s. s.places.items };
}

impl State {
    /// The state before the first step.
    pub fn start(alloc: Global, job: &Job) -> Result<Self, AllocError>
        ensures { IfOk result (λ state. state ≡ start job.now) }
    {
        let mut places = Vec::with_capacity(alloc, (job.cells() + 5 * job.procs()) as usize)?;
        places.extend_from_slice(job.init())?;
        places.resize((job.cells() + 5 * job.procs()) as usize, 0)?;
        Ok(State {
            places,
            room: Room::new(alloc),
            kept: Vec::new(alloc),
        })
    }

    /// What a place holds.
    pub fn get(&self, place: u32) -> u32
        requires { place < length self.now }
        ensures { result ≡ slice_index self.now place }
    {
        self.places[place as usize]
    }

    /// What the places hold, in order.
    pub fn places(&self) -> &[u32]
        ensures { result.now ≡ self.now }
    {
        self.places.as_slice()
    }

    /// What the cells hold. Takes no memory.
    pub fn into_cells(self, job: &Job) -> Cells
        ensures { result ≡ take job.now.cells self }
    {
        let State { mut places, .. } = self;
        places.truncate(job.cells() as usize);
        Cells::new(places)
    }

    /// Makes a step where it agrees, these being the processors that run. Otherwise it answers the
    /// dispute, and no store is made: only the cells are as before.
    #[inline(always)]
    pub(crate) fn advance(&mut self, job: &Job, room: &mut Room) -> Result<(), Dispute>
        requires places { length self.old ≡ place_count job.now }
        requires running { AreRunning job.now self.old (listed_processors room.old) }
        requires room { IsRoom job.now room.old }
        ensures made { OnOk result
            (IsAdvance job.now (listed_processors room.new) self.old self.new) }
        ensures dispute { IfErr result (IsDispute job.now (requests_in job.now self.old)) }
        ensures turns { OnErr result (IsWithoutStores job.now self.old self.new) }
        ensures room { IsRoom job.now room.new }
    {
        advance(
            job,
            &mut self.places,
            room.running.as_slice(),
            &mut room.stores,
        )
    }
}

/// What a processor asks for in this state. It reads the state alone, and takes no memory.
pub fn request(job: &Job, state: &State, processor: u32) -> Request
    requires processor { processor < job.now.procs }
    requires places { length state.now ≡ place_count job.now }
    ensures { result ≡ request_in job.now state.now processor }
{
    request_in(job, &state.places, processor, job.counter_place(processor))
}

/// Why a step was not made.
#[derive(Clone, Copy, Debug, PartialEq, Eq)]
pub enum StepFault {
    /// The step is against the rule.
    Conflict { cell: u32, first: u32, second: u32 },
    /// There was no memory for the stores of the step.
    Memory,
}

/// Makes a step of the machine. After a fault the state is as before.
///
/// It costs time in the number of processors, whatever the number of cells is. The first step of a
/// state takes memory for the stores and for a mark of each cell, later ones of the same job take
/// none.
pub fn step(alloc: Global, job: &Job, state: &mut State) -> Result<(), StepFault>
    requires { length state.old ≡ place_count job.now }
    ensures agrees { OnOk result (Agrees job.now (requests_in job.now state.old)) }
    ensures next { OnOk result (state.new ≡ next_state job.now state.old) }
    ensures written { OnOk result
        (IsNext job.now (requests_in job.now state.old) state.old state.new) }
    ensures len { length state.new ≡ length state.old }
    ensures conflict { IfErr result (IsStepFault job.now (requests_in job.now state.old)) }
    ensures unchanged { OnErr result (state.new ≡ state.old) }
{
    state.room.make(alloc, job)?;
    make_room(alloc, job, &mut state.kept)?;
    attempt(job, &mut state.places, &mut state.room, &mut state.kept)?;
    Ok(())
}

/// Makes room for the registers and counters of all processors, where there is none.
fn make_room(alloc: Global, job: &Job, kept: &mut Vec<u32>) -> Result<(), AllocError>
    ensures { OnOk result (vec_len kept.new ≡ 5 * job.now.procs) }
{
    let own = 5 * job.procs() as usize;
    if kept.len() != own {
        *kept = vec![in alloc; 0; own]?;
    }
    Ok(())
}

impl From<AllocError> for StepFault {
    ghost from_gives = { λ _ fault. fault ≡ Memory };

    fn from(_error: AllocError) -> Self {
        StepFault::Memory
    }
}

impl From<Dispute> for StepFault {
    ghost from_gives = { λ d fault. fault ≡ Conflict d.cell d.first d.second };

    fn from(dispute: Dispute) -> Self {
        StepFault::Conflict {
            cell: dispute.cell,
            first: dispute.first,
            second: dispute.second,
        }
    }
}
