//! What the processors ask for in a step.
ghost use Rattle.std.specs.Prelude.{◌≡◌, ℕ, ◌<◌, ◌≤◌, IfOk, IfSome, OnErr, length};
ghost use Rattle.pram_machine.specs.Machine.{IsDataPlace, place_count};
ghost use Rattle.pram_step.specs.Runs.{IsStateAfter};
ghost use Rattle.page_core.specs.Findings.{IsKeptBehind, count_written};
ghost use Rattle.page_core.specs.Requests.{AreRequestsAfter, AreRequestsTold, AreRequestRows};
ghost use Rattle.page_core.specs.Requests.{cell_part, held_part, row_in, processor_status};
ghost use Rattle.page_core.specs.Requests.{target_of_put};

use crate::finding::Finding;
use crate::moment::Reached;
use crate::text::Refusal;
use pram_cost::read_of;
use pram_job::Job;
use pram_step::{State, counter, laws, make_step, request_after};
use std::alloc::{AllocError, Global};

/// What a processor asks for. `status` is 0 where `counter` is the number of its instruction, 1 if
/// it has halted, 2 if an address was out of range. `reads` is the cell that it reads plus 1, or 0,
/// and `held` what that cell holds. It writes `value` to nothing (`target` 0), to the cell `number`
/// (1) or to its own register `number` (2), and goes on to `next`.
#[repr(C)]
#[derive(Clone, Copy)]
pub struct RequestRow {
    pub counter: u32,
    pub status: u32,
    pub reads: u32,
    pub held: u32,
    pub target: u32,
    pub number: u32,
    pub value: u32,
    pub next: u32,
}

/// What a data write goes to: nothing (0), a cell (1) or a register (2), with its number, and the
/// value.
#[derive(Clone, Copy)]
pub struct Target {
    pub kind: u32,
    pub number: u32,
    pub value: u32,
}

/// Tells what each processor asks for in a state that the job reaches, and whether the next step is
/// against the rule.
pub fn requests(alloc: Global, reached: Reached, rows: &mut [RequestRow]) -> Finding
    ensures requests { AreRequestsTold reached.job reached.step rows.old rows.new result }
    ensures behind { IsKeptBehind (count_written result) rows.old rows.new }
{
    if reached.step == reached.job.steps() {
        return Finding::NoStep;
    }
    let procs = reached.job.procs();
    if rows.len() < procs as usize {
        return Finding::NoRoom {
            needed: u64::from(procs),
        };
    }
    match tell_requests(alloc, reached, rows) {
        Ok(finding) => finding,
        Err(_) => Finding::Refused(Refusal::Memory),
    }
}

// The requests in this state, and whether they agree.
fn tell_requests(
    alloc: Global,
    reached: Reached,
    rows: &mut [RequestRow],
) -> Result<Finding, AllocError>
    requires within { reached.step < reached.job.steps }
    requires room { reached.job.procs ≤ length rows.old }
    ensures requests { IfOk result (AreRequestsAfter reached.job reached.step rows.new) }
    ensures behind { IfOk result (λ f. IsKeptBehind (count_written f) rows.old rows.new) }
    ensures unwritten { OnErr result (rows.new ≡ rows.old) }
{
    let Reached {
        job,
        step,
        mut state,
    } = reached;
    let asked = all_rows(alloc, &job, &state)?;
    let conflict = make_step(alloc, &job, &mut state, step)?;
    rows[..asked.len()].copy_from_slice(asked.as_slice());
    let count = asked.len() as u64;
    match conflict {
        None => Ok(Finding::Done { step, count }),
        Some(fault) => Ok(Finding::Conflict { fault, count }),
    }
}

// The request of each processor.
fn all_rows(alloc: Global, job: &Job, state: &State) -> Result<Vec<RequestRow>, AllocError>
    requires { (t : ℕ) × IsStateAfter job.now t state.now }
    ensures rows { IfOk result (λ rows. AreRequestRows job.now state.now rows.items) }
    ensures each { IfOk result (λ rows. length rows.items ≡ job.now.procs) }
{
    let mut rows = Vec::with_capacity(alloc, job.procs() as usize)?;
    for processor in 0..job.procs() {
        rows.push(row(job, state, processor))?;
    }
    Ok(rows)
}

fn row(job: &Job, state: &State, processor: u32) -> RequestRow
    requires processor { processor < job.now.procs }
    requires reached { (t : ℕ) × IsStateAfter job.now t state.now }
    ensures { result ≡ row_in job.now state.now processor }
{
    job.limits_hold();
    laws::states_have_all_places();
    let counter = counter(job, state, processor);
    let request = request_after(job, state, processor);
    let reads = read_of(job, state, processor);
    let target = aim(job, processor, request.put);
    RequestRow {
        counter,
        status: status(job, counter),
        reads: part_of_cell(job, reads),
        held: held(job, state, reads),
        target: target.kind,
        number: target.number,
        value: target.value,
        next: request.next,
    }
}

// Whether a counter is the number of an instruction, or why the processor has stopped.
fn status(job: &Job, counter: u32) -> u32
    ensures { result ≡ processor_status job.now counter }
{
    let instructions = job.code().len();
    if (counter as usize) < instructions {
        0
    } else if counter as usize == instructions {
        1
    } else {
        2
    }
}

// The cell plus 1, or 0 for none.
fn part_of_cell(job: &Job, cell: Option<u32>) -> u32
    requires { IfSome cell (λ c. c < job.now.cells) }
    ensures { result ≡ cell_part cell }
{
    job.limits_hold();
    match cell {
        None => 0,
        Some(cell) => cell + 1,
    }
}

// What the cell holds, or 0 for none.
fn held(job: &Job, state: &State, cell: Option<u32>) -> u32
    requires cell { IfSome cell (λ c. c < job.now.cells) }
    requires places { length state.now ≡ place_count job.now }
    ensures { result ≡ held_part state.now cell }
{
    job.limits_hold();
    match cell {
        None => 0,
        Some(cell) => state.get(cell),
    }
}

// What a data write goes to.
fn aim(job: &Job, processor: u32, put: Option<(u32, u32)>) -> Target
    requires processor { processor < job.now.procs }
    requires place { IfSome put (λ w. IsDataPlace job.now processor w.0) }
    ensures { result ≡ target_of_put job.now processor put }
{
    job.limits_hold();
    let cells = job.cells();
    match put {
        None => Target {
            kind: 0,
            number: 0,
            value: 0,
        },
        Some((place, value)) if place < cells => Target {
            kind: 1,
            number: place,
            value,
        },
        Some((place, value)) => Target {
            kind: 2,
            number: place - job.register_place(processor, 0),
            value,
        },
    }
}
