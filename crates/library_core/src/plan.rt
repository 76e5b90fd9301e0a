//! The rows of a plan, in numbers.
ghost use Rattle.std.specs.Prelude.{◌≡◌, ◌≤◌, IfErr, IfOk, map};
ghost use Rattle.stop_plan.specs.Plan.{PlanData};
ghost use Rattle.stop_plan.specs.Records.{SpellsPlan, records_of};
ghost use Rattle.library_core.specs.Calls.{IsCall};
ghost use Rattle.library_core.specs.Plans.{AreRows, IsBadPlan, IsNoPlan, number_of_act, row_told};

use crate::answer::Answer;
use crate::request::{RequestFault, WORKERS_MOST, is_bad_count};
use crate::serving::in_memory;
use crate::telling::{refuse, refuse_request, show};
use command_data::Workers;
use pram_commands::take_plan;
use pram_streams::FromRead;
use refusals::{CommandFault, DONE};
use std::alloc::{AllocError, Global};
use stop_plan::{Act, Plan, Row};

/// A row of a plan, as C sees it. The act is 0 for `go`, 1 for `sleep`, 2 for `back` and 3 for
/// `stop`.
#[repr(C)]
#[derive(Clone, Copy)]
pub struct PlanRow {
    pub worker: u32,
    pub act: u32,
    pub ticks: u32,
}

/// Puts the rows of the plan that a text spells for so many workers to the front of the buffer, as
/// many as there is room for, and gives the status. Time and memory are linear in the text.
pub fn tell_plan(
    alloc: Global,
    text: &[u8],
    workers: u32,
    rows: &mut [PlanRow],
    answer: &mut Answer,
) -> u32
    ensures { IsCall (AreRows workers text.now) (IsNoPlan workers text.now) rows.old rows.new
        answer.old answer.new result }
{
    if is_bad_count(workers) {
        return refuse_request(RequestFault::Workers, answer);
    }
    match rows_of(alloc, text, workers) {
        Ok(found) => show(found.as_slice(), DONE, rows, answer),
        Err(fault) => refuse(alloc, fault, b"", answer),
    }
}

fn rows_of(alloc: Global, text: &[u8], workers: u32) -> Result<Vec<PlanRow>, CommandFault>
    requires some { 1 ≤ workers }
    requires most { workers ≤ WORKERS_MOST }
    ensures rows { IfOk result (λ rows. (plan : PlanData) × SpellsPlan workers
        (records_of text.now) plan × (rows.items ≡ map row_told plan.rows)) }
    ensures bad { IfErr result (IsBadPlan workers text.now) }
{
    let workers = Workers { count: workers };
    match take_plan(alloc, &mut FromRead::new(text), workers) {
        Ok(plan) => Ok(numbers(alloc, &plan)?),
        Err(fault) => Err(in_memory(fault)),
    }
}

fn numbers(alloc: Global, plan: &Plan) -> Result<Vec<PlanRow>, AllocError>
    ensures { IfOk result (λ rows. rows.items ≡ map row_told plan.now.rows) }
{
    let mut rows = Vec::new(alloc);
    for row in plan.rows() {
        rows.push(row_told(*row))?;
    }
    Ok(rows)
}

fn row_told(row: Row) -> PlanRow
    ensures { result ≡ row_told row }
{
    PlanRow {
        worker: row.worker,
        act: number_of_act(row.act),
        ticks: row.ticks,
    }
}

fn number_of_act(act: Act) -> u32
    ensures { result ≡ number_of_act act }
{
    match act {
        Act::Go => 0,
        Act::Sleep => 1,
        Act::Back => 2,
        Act::Stop => 3,
    }
}
