//! Which processors run in a state, and which cells they read and write in the step after it.
ghost use Rattle.std.specs.Prelude.{◌≡◌, ◌<◌, length, IfSome};
ghost use Rattle.pram_cost.specs.Accesses.{cell_read_by, write_by};
ghost use Rattle.pram_step.specs.Running.{is_running};
ghost use Rattle.pram_cost.specs.Inner.Found.{IsVisit};
ghost use Rattle.pram_machine.specs.Machine.{counter as counter_of, place_count};

use pram_job::{Instr, Job};
use pram_machine::{Fetched, Put, Sources, cell_read, sources_of};
use pram_step::{State, counter, request};

/// Whether a processor runs: its counter is the index of an instruction, which it executes in the
/// step.
pub fn is_running(job: &Job, state: &State, processor: u32) -> bool
    requires processor { processor < job.now.procs }
    requires places { length state.now ≡ place_count job.now }
    ensures { result ≡ is_running job.now state.now processor }
{
    (counter(job, state, processor) as usize) < job.code().len()
}

/// The cell that a processor reads in the step after a state.
pub fn read_of(job: &Job, state: &State, processor: u32) -> Option<u32>
    requires processor { processor < job.now.procs }
    requires places { length state.now ≡ place_count job.now }
    ensures value { result ≡ cell_read_by job.now state.now processor }
    ensures within { IfSome result (λ cell. cell < job.now.cells) }
{
    let instr = *job.code().get(counter(job, state, processor) as usize)?;
    match sources_of(instr) {
        Sources::None => cell_read(job, instr, 0),
        Sources::One(register) | Sources::Two(register, _) => {
            let address = state.get(job.register_place(processor, register));
            cell_read(job, instr, address)
        }
    }
}

/// The cell that a processor writes in the step after a state, and the value. A register is no
/// cell.
pub fn write_of(job: &Job, state: &State, processor: u32) -> Option<(u32, u32)>
    requires processor { processor < job.now.procs }
    requires places { length state.now ≡ place_count job.now }
    ensures { result ≡ write_by job.now state.now processor }
{
    match request(job, state, processor).put {
        Some((place, value)) if place < job.cells() => Some((place, value)),
        _ => None,
    }
}

/// What a processor does in a step.
#[derive(Clone, Copy)]
pub(crate) enum Visit {
    /// It has stopped before it.
    Stopped,
    /// It runs, and goes to no cell.
    Elsewhere,
    /// It reads this cell.
    Reads(u32),
    /// It writes this cell, and this value.
    Writes(u32, u32),
}

/// What a processor does in the step after a state.
#[inline(always)]
pub(crate) fn visit_of(job: &Job, state: &State, processor: u32) -> Visit
    requires processor { processor < job.now.procs }
    requires places { length state.now ≡ place_count job.now }
    ensures { IsVisit job.now state.now processor result }
{
    match Fetched::at(job, counter(job, state, processor)) {
        Some(fetched) => visit_by(fetched, state, processor),
        None => Visit::Stopped,
    }
}

// What it does by the instruction at which it stands. Only where that loads or stores is more of it
// looked at than its name.
#[inline(always)]
fn visit_by(fetched: Fetched<'_>, state: &State, processor: u32) -> Visit
    requires processor { processor < fetched.job.now.procs }
    requires places { length state.now ≡ place_count fetched.job.now }
    requires here { counter_of fetched.job.now state.now processor ≡ fetched.counter }
    ensures { IsVisit fetched.entry.job.now state.now processor result }
{
    match *fetched.instr {
        Instr::Ld(..) => match read_of(fetched.job, state, processor) {
            Some(cell) => Visit::Reads(cell),
            None => Visit::Elsewhere,
        },
        Instr::St(..) => match stored(fetched, state, processor) {
            Some((cell, value)) => Visit::Writes(cell, value),
            None => Visit::Elsewhere,
        },
        _ => Visit::Elsewhere,
    }
}

// The cell that a processor writes by the instruction at which it stands, and the value.
#[inline(always)]
fn stored(fetched: Fetched<'_>, state: &State, processor: u32) -> Option<(u32, u32)>
    requires processor { processor < fetched.job.now.procs }
    requires places { length state.now ≡ place_count fetched.job.now }
    requires here { counter_of fetched.job.now state.now processor ≡ fetched.counter }
    ensures value { result ≡ write_by fetched.entry.job.now state.now processor }
    ensures within { IfSome result (λ a. a.0 < fetched.entry.job.now.cells) }
{
    match fetched.turn(state.places(), processor).put {
        Put::Cell(cell, value) => Some((cell, value)),
        Put::Nothing | Put::Register(..) => None,
    }
}
