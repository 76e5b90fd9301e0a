//! The run of a program.
ghost use Rattle.std.specs.Prelude.{◌≡◌, IfOk, IfErr};
ghost use Rattle.pram_cost.specs.Costs.{IsLength};
ghost use Rattle.pram_job.specs.Job.{JobData};
ghost use Rattle.pram_step.specs.Runs.{IsAnswer};
ghost use Rattle.pardo_job.specs.Compiled.{IsWhole};
ghost use Rattle.pardo_job.specs.Drafts.{ArePlacesOf, IsDraft};
ghost use Rattle.pardo_job.specs.Refusals.{IsProgramFault, IsProgramRefusal};
ghost use Rattle.pardo_answers.specs.Runs.{IsTextRun, IsRunOf};

use crate::line_costs::{Costs, costs_of, rounds_of};
use pardo_job::{Draft, Ended, JobFault, Refusal, counted_lines, draft_in, finish, loop_ends};
use pardo_text::Program;
use pram_cost::Measure;
use pram_job::Job;
use pram_step::{Fault, RunAnswer};
use std::alloc::Global;

/// A program, its job with as many steps as it needs, the number of the text's line that each
/// instruction came from, how the job ends, and what its run costs.
#[derive(Drop)]
pub struct Run {
    pub program: Program,
    pub job: Job,
    pub numbers: Vec<u64>,
    pub ended: Ended,
    pub costs: Costs,
}

/// The run of the program that a text spells, or why there is none. The program is run once.
pub fn run_program(alloc: Global, text: &[u8]) -> Result<Run, Refusal>
    ensures run { IfOk result (IsTextRun text.now) }
    ensures refused { IfErr result (IsProgramRefusal text.now) }
{
    let draft = draft_in(alloc, text)?;
    let run = finish_costed(alloc, draft)?;
    Ok(run)
}

/// The run of the program of a draft, or why there is none. The program is run once.
pub fn finish_costed(alloc: Global, draft: Draft) -> Result<Run, JobFault>
    requires draft { IsDraft draft.program draft.job draft.numbers.items }
    requires places { ArePlacesOf draft.program draft.places.items }
    ensures run { IfOk result (IsRunOf draft.program) }
    ensures refused { IfErr result (λ fault. IsProgramFault draft.program fault.line fault.kind) }
{
    let places = draft.places.as_slice();
    let counted = counted_lines(alloc, &draft.program, places)?;
    let ends = loop_ends(alloc, &draft.program, places)?;
    let measure = Measure::new(alloc, &draft.job)?;
    let (program, compiled, measure) = finish(alloc, draft, measure)?;
    let (job, numbers, ended) = compiled.into_parts();
    let cost = measure.tally.into_cost(conflict_of(&ended.answer));
    let lines = costs_of(alloc, counted.as_slice(), &measure.profile)?;
    let rounds = rounds_of(ends.as_slice(), &measure.profile)?;
    Ok(Run {
        program,
        job,
        numbers,
        ended,
        costs: Costs {
            cost,
            lines,
            rounds,
        },
    })
}

// The conflict in which a job ends that has as many steps as it needs.
fn conflict_of(answer: &RunAnswer) -> Option<Fault>
    ensures { (job : JobData) → IsAnswer job answer.now → IsWhole job →
        IsLength job job.steps result }
{
    match answer {
        RunAnswer::Final(_) => None,
        RunAnswer::Conflict(fault) => Some(*fault),
        RunAnswer::Unfinished { .. } => None,
    }
}
