//! What steps do: how many processors run, and how many go to cells.
ghost use Rattle.std.specs.Prelude.{◌≡◌, ◌≤◌, ℕ, if◌then◌else◌, IfOk, OnErr};
ghost use Rattle.pram_step.specs.Runs.{IsStateAfter};
ghost use Rattle.pram_step.specs.Walks.{IsWalked, begun};
ghost use Rattle.page_core.specs.Findings.{IsKeptBehind, count_written};
ghost use Rattle.page_core.specs.Steps.{AreStepsAfter, AreStepsFound, AreStepsTo};
ghost use Rattle.page_core.specs.Steps.{first_counter, step_row};

use crate::finding::Finding;
use crate::moment::{Reached, go};
use crate::text::Refusal;
use pram_cost::{is_running, read_of, write_of};
use pram_job::Job;
use pram_step::{Observer, Sight, Stage, State, Walked, counter, laws, walk_on};
use std::alloc::{AllocError, Global};
use std::marker::{Brand, PhantomData};

/// How many processors run in a step, how many of them read a cell, and how many write one. `at` is
/// the index of the instruction of the first that runs; where none does, the number of all.
#[repr(C)]
#[derive(Clone, Copy)]
pub struct StepRow {
    pub running: u32,
    pub reading: u32,
    pub writing: u32,
    pub at: u32,
}

/// What the steps after these do, a row each: as many as there is room for, up to the last one, or
/// up to the first conflict, that one too. At most `most` steps are made before them.
pub fn steps(alloc: Global, text: &[u8], from: u32, most: u32, rows: &mut [StepRow]) -> Finding
    ensures found { AreStepsFound text.now from most rows.old rows.new result }
    ensures behind { IsKeptBehind (count_written result) rows.old rows.new }
{
    let reached = match go(alloc, text, from, most) {
        Ok(reached) => reached,
        Err(finding) => return finding,
    };
    match tell_steps(alloc, reached, rows) {
        Ok(finding) => finding,
        Err(_) => Finding::Refused(Refusal::Memory),
    }
}

// What the steps after a state do.
fn tell_steps(alloc: Global, reached: Reached, rows: &mut [StepRow]) -> Result<Finding, AllocError>
    ensures steps { IfOk result (AreStepsAfter reached.job reached.step rows.old rows.new) }
    ensures behind { IfOk result (λ f. IsKeptBehind (count_written f) rows.old rows.new) }
    ensures unwritten { OnErr result (rows.new ≡ rows.old) }
{
    let Reached { job, step, state } = reached;
    job.limits_hold();
    let to = step + rows.len().min((job.steps() - step) as usize) as u32;
    let stage = Stage {
        job: &job,
        state,
        made: step,
    };
    let (walked, made) = rows_to::<Brand>(alloc, stage, to)?;
    rows[..made.len()].copy_from_slice(made.as_slice());
    let count = made.len() as u64;
    match walked {
        Walked::Through(_) => Ok(Finding::Done { step: to, count }),
        Walked::Disputed(fault) => Ok(Finding::Conflict { fault, count }),
    }
}

/// The step after which rows begin.
trait Begin {
    ghost from: { ℕ };
}

impl Begin for Brand {
    ghost from = { 0 };
}

// The rows of the steps after a stage, up to so many steps in all.
fn rows_to<B: Begin>(
    alloc: Global,
    stage: Stage<'_>,
    to: u32,
) -> Result<(Walked, Vec<StepRow>), AllocError>
    requires from { stage.made ≡ B.from }
    requires within { stage.made ≤ to }
    ensures walked { IfOk result (λ r. IsWalked stage.entry.job.now to r.0) }
    ensures rows { IfOk result (λ r.
        AreStepsTo stage.entry.job.now B.from (begun to r.0) r.1.items) }
{
    let mut noted = StepRows::<B> {
        rows: Vec::new(alloc),
        of: PhantomData,
    };
    let walked = walk_on(alloc, stage, to, &mut noted)?;
    Ok((walked, noted.rows))
}

/// One who notes what steps do.
#[derive(Drop)]
struct StepRows<B: Begin> {
    rows: Vec<StepRow>,
    of: PhantomData<B>,
}

impl<B: Begin> Observer for StepRows<B> {
    ghost has_seen = { λ job t noted. AreStepsTo job B.from t noted.rows.items };

    fn look(&mut self, sight: &Sight<'_>) -> Result<(), AllocError> {
        let row = row(sight.job, sight.state);
        self.rows
            .resize(self.rows.len() + sight.times as usize, row)
    }
}

// What the step after a state does.
fn row(job: &Job, state: &State) -> StepRow
    requires { (t : ℕ) × IsStateAfter job.now t state.now }
    ensures { result ≡ step_row job.now state.now }
{
    job.limits_hold();
    laws::states_have_all_places();
    let mut row = StepRow {
        running: 0,
        reading: 0,
        writing: 0,
        at: first_counter(job, state),
    };
    for processor in 0..job.procs() {
        row = StepRow {
            running: row.running + one_if(is_running(job, state, processor)),
            reading: row.reading + one_if(read_of(job, state, processor).is_some()),
            writing: row.writing + one_if(write_of(job, state, processor).is_some()),
            ..row
        };
    }
    row
}

// Where the first processor stands that runs; after the last instruction where none does.
fn first_counter(job: &Job, state: &State) -> u32
    requires { (t : ℕ) × IsStateAfter job.now t state.now }
    ensures { result ≡ first_counter job.now state.now }
{
    job.limits_hold();
    laws::states_have_all_places();
    for processor in 0..job.procs() {
        if is_running(job, state, processor) {
            return counter(job, state, processor);
        }
    }
    job.code().len() as u32
}

// 1 where it holds.
fn one_if(holds: bool) -> u32
    ensures { result ≡ (if holds then 1 else 0) }
{
    if holds { 1 } else { 0 }
}
