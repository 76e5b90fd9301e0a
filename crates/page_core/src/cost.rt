//! What a run costs, and the model that it needs.
ghost use Rattle.std.specs.Prelude.{◌≡◌, IfErr, IfOk};
ghost use Rattle.pram_cost.specs.Costs.{IsCost};
ghost use Rattle.pram_cost.specs.Models.{strength};
ghost use Rattle.pram_job.specs.Job.{JobData};
ghost use Rattle.page_core.specs.Costs.{IsCostOfRun, IsCostTold, meeting_row, no_cost};
ghost use Rattle.page_core.specs.Texts.{IsRefused, OfJob};

use crate::codes::{Status, TOLD};
use crate::text::{Refusal, take_job, tell_refusal};
use pram_cost::{Cost, Meeting, Pram, cost_of};
use std::alloc::Global;

/// The first step in which two processors meet at a cell, the cell, and the two. The step is 0
/// where none do.
#[repr(C)]
#[derive(Clone, Copy)]
pub struct MeetingRow {
    pub step: u32,
    pub cell: u32,
    pub first: u32,
    pub second: u32,
}

/// What the run of a text's job costs. `needs` is the weakest model that accepts all of its steps:
/// 0 for EREW, 1 for CREW, 2 for CRCW common and 3 for CRCW priority. The meetings rule out EREW,
/// CREW, and CRCW common.
#[repr(C)]
#[derive(Clone, Copy)]
pub struct CostTold {
    pub status: Status,
    pub executed: u64,
    pub steps: u32,
    pub procs: u32,
    pub most: u32,
    pub reading: u32,
    pub writing: u32,
    pub needs: u32,
    pub same_read: MeetingRow,
    pub same_write: MeetingRow,
    pub other_value: MeetingRow,
}

/// What the run of a text's job costs: all of its steps, or those up to its first conflict. None is
/// made after one that changes nothing.
pub fn cost(alloc: Global, text: &[u8]) -> CostTold
    ensures { IsCostTold text.now result }
{
    match cost_of_run(alloc, text) {
        Ok(cost) => tell_cost(cost),
        Err(refusal) => refused_cost(refusal),
    }
}

fn cost_of_run(alloc: Global, text: &[u8]) -> Result<Cost, Refusal>
    ensures cost { IfOk result (λ cost. OfJob text.now (λ job. IsCost job cost)) }
    ensures refused { IfErr result (λ refusal. IsRefused text.now refusal) }
{
    let job = take_job(alloc, text)?;
    match cost_of(alloc, &job) {
        Ok(cost) => Ok(cost),
        Err(_) => Err(Refusal::Memory),
    }
}

fn tell_cost(cost: Cost) -> CostTold
    ensures { (job : JobData) → IsCost job cost → IsCostOfRun job result }
{
    CostTold {
        status: TOLD,
        executed: cost.work.executed,
        steps: cost.steps,
        procs: cost.procs,
        most: cost.work.most,
        reading: cost.work.reading,
        writing: cost.work.writing,
        needs: number_of_model(cost.needs()),
        same_read: tell_meeting(cost.meetings.same_read),
        same_write: tell_meeting(cost.meetings.same_write),
        other_value: tell_meeting(cost.meetings.other_value),
    }
}

fn refused_cost(refusal: Refusal) -> CostTold
    ensures { result ≡ no_cost refusal }
{
    CostTold {
        status: tell_refusal(refusal),
        executed: 0,
        steps: 0,
        procs: 0,
        most: 0,
        reading: 0,
        writing: 0,
        needs: 0,
        same_read: tell_meeting(None),
        same_write: tell_meeting(None),
        other_value: tell_meeting(None),
    }
}

/// The models from the weakest to the strongest.
pub fn number_of_model(pram: Pram) -> u32
    ensures { result ≡ strength pram }
{
    match pram {
        Pram::Erew => 0,
        Pram::Crew => 1,
        Pram::CommonCrcw => 2,
        Pram::PriorityCrcw => 3,
    }
}

fn tell_meeting(meeting: Option<Meeting>) -> MeetingRow
    ensures { result ≡ meeting_row meeting }
{
    match meeting {
        None => MeetingRow {
            step: 0,
            cell: 0,
            first: 0,
            second: 0,
        },
        Some(
            Meeting {
                step,
                cell,
                first,
                second,
                ..
            },
        ) => MeetingRow {
            step,
            cell,
            first,
            second,
        },
    }
}
