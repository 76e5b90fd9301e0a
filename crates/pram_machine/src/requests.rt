//! What a processor asks for in a step.
ghost use Rattle.std.specs.Prelude.{◌≡◌, ◌+◌, ◌^◌, ◌<◌, ◌≤◌, length, map, None, Some};
ghost use Rattle.std.specs.Prelude.{slice_get, slice_index, MatchOption};
ghost use Rattle.pram_machine.specs.Machine.{counter, counter_place, place_count, register};
ghost use Rattle.pram_machine.specs.Machine.{register_place};
ghost use Rattle.pram_machine.specs.Instructions.{place_part, value_part, request_in};
ghost use Rattle.pram_machine.specs.Turns.{IsTurnOf};

use crate::instructions::{Held, decide, jumps};
use crate::turn::Turn;
use pram_job::{Instr, Job};

/// What a processor asks for in a step: at most one data write, and the index of its next
/// instruction.
#[derive(Clone, Copy, Debug, PartialEq, Eq)]
pub struct Request {
    /// The place that the data write goes to, and the value.
    pub put: Option<(u32, u32)>,
    /// The processor's counter after the step.
    pub next: u32,
}

/// The first word of a request: its data place plus 1, or 0 where it has no data.
pub fn place_part(request: Request) -> u32
    requires { place_part request < 2 ^ 32 }
    ensures { result ≡ place_part request }
{
    match request.put {
        Some((place, _)) => place + 1,
        None => 0,
    }
}

/// The second word of a request: its data value, or 0 where it has no data.
pub fn value_part(request: Request) -> u32
    ensures { result ≡ value_part request }
{
    match request.put {
        Some((_, value)) => value,
        None => 0,
    }
}

/// What a processor asks for where the machine's places hold this, its counter being there.
pub fn request_in(job: &Job, places: &[u32], processor: u32, at: u32) -> Request
    requires processor { processor < job.now.procs }
    requires places { length places.now ≡ place_count job.now }
    requires counter { at ≡ counter_place job.now processor }
    ensures { result ≡ request_in job.now places.now processor }
{
    turn_in(job, places, processor, at).request()
}

/// Its turn: the same, its data told apart.
#[inline(always)]
#[tactic(auto, unfolding(crate::specs::Instructions::request_in))]
fn turn_in(job: &Job, places: &[u32], processor: u32, at: u32) -> Turn
    requires processor { processor < job.now.procs }
    requires places { length places.now ≡ place_count job.now }
    requires counter { at ≡ counter_place job.now processor }
    ensures { IsTurnOf job.now (request_in job.now places.now processor) result }
{
    let counter = places[at as usize];
    match Fetched::at(job, counter) {
        Some(fetched) => fetched.turn(places, processor),
        None => jumps(counter),
    }
}

/// An instruction of a job, and its index.
#[derive(Clone, Copy)]
pub struct Fetched<'m> {
    pub job: &'m Job,
    pub counter: u32,
    pub instr: &'m Instr,
    ghost stands: { slice_get job.now.code counter ≡ Some instr.now },
}

impl<'m> Fetched<'m> {
    /// The instruction with this index, if there is one.
    #[inline(always)]
    pub fn at(job: &'m Job, counter: u32) -> Option<Self>
        ensures { MatchOption result (length job.now.code ≤ counter)
            (λ fetched. (fetched.job ≡ job.entry) × (fetched.counter ≡ counter)) }
    {
        let instr = job.code().get(counter as usize)?;
        Some(Fetched {
            job,
            counter,
            instr,
        })
    }

    /// This instruction, by a name that tells its form.
    #[inline(always)]
    pub fn with(self, instr: &'m Instr) -> Self
        requires { instr.now ≡ self.instr.now }
        ensures job { result.job ≡ self.entry.job }
        ensures counter { result.counter ≡ self.entry.counter }
    {
        Fetched {
            job: self.job,
            counter: self.counter,
            instr,
        }
    }

    /// The turn of a processor that stands there.
    #[inline(always)]
    #[tactic(auto, unfolding(crate::specs::Instructions::request_in))]
    pub fn turn(self, places: &[u32], processor: u32) -> Turn
        requires processor { processor < self.job.now.procs }
        requires places { length places.now ≡ place_count self.job.now }
        requires counter { counter self.job.now places.now processor ≡ self.counter }
        ensures { IsTurnOf self.entry.job.now
            (request_in self.entry.job.now places.now processor) result }
    {
        let job = self.job;
        job.limits_hold();
        let held = Registers {
            job,
            places,
            processor,
            base: job.register_place(processor, 0),
        };
        decide(job, processor, self.counter, self.instr, &held)
    }
}

/// The operands and the cell of a processor, in the machine's places.
#[derive(Clone, Copy)]
struct Registers<'m> {
    job: &'m Job,
    places: &'m [u32],
    processor: u32,
    /// The place of its first register.
    base: u32,
    ghost is_processor: { processor < job.now.procs },
    ghost all_places: { length places.now ≡ place_count job.now },
    ghost is_base: { base ≡ register_place job.now processor 0 },
}

impl Registers<'_> {
    /// What a register holds.
    #[inline(always)]
    fn register(&self, r: u8) -> u32
        requires { r < 4 }
        ensures { result ≡ slice_index self.now.places.now
            (register_place self.now.job.now self.now.processor r) }
    {
        self.job.limits_hold();
        self.places[(self.base + u32::from(r)) as usize]
    }
}

impl Held for Registers<'_> {
    ghost operand = { λ h rs. slice_index (map (register h.job.now h.places.now h.processor) rs) };

    ghost cell = { λ h cell. elim cell [ None ↦ 0 | Some c ↦ slice_index h.places.now c ] };

    ghost cells = { λ h. h.job.now.cells };

    #[inline(always)]
    fn first(&self, r: u8) -> u32 {
        self.register(r)
    }

    #[inline(always)]
    fn second(&self, r: u8) -> u32 {
        self.register(r)
    }

    #[inline(always)]
    fn cell(&self, address: u32) -> u32 {
        self.places[address as usize]
    }
}
