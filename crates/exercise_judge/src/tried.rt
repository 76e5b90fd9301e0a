//! What is found of a submission under an input.
ghost use Rattle.std.specs.Prelude.{◌≡◌, ◌≤◌, ℕ, List, cond, is_some};
ghost use Rattle.pardo_job.specs.Ends.{gone_in};
ghost use Rattle.pardo_answers.specs.Runs.{IsTextRun};
ghost use Rattle.exercise_judge.specs.Tries.{AreFigures, IsTried, gone_count};

use crate::judging::{gone_in, judge_run, submitted_run};
use crate::trial::Trial;
use crate::verdict::Wrong;
use pardo_answers::{Run, total_operations, total_time};
use pardo_job::Lines;
use pram_cost::Pram;
use std::alloc::Global;

/// What a run took: how many processors are gone at its end, the time and the operations of its
/// counted lines, the steps of the machine, and the weakest model that accepts it.
#[derive(Clone, Copy, Debug, PartialEq, Eq)]
pub struct Figures {
    pub gone: u32,
    pub time: u64,
    pub operations: u64,
    pub steps: u32,
    pub needs: Pram,
}

/// What is found of a submission under an input: the first thing that is wrong, if something is,
/// and the figures of the run, if there is one.
#[derive(Debug, Drop)]
pub struct Tried {
    pub wrong: Option<Wrong>,
    pub figures: Option<Figures>,
}

/// Tries a submission under an input. Its text is run once at most.
pub fn try_trial(alloc: Global, trial: &Trial, submission: &[u8]) -> Tried
    ensures { IsTried trial.now submission.now result }
{
    let run = match submitted_run(alloc, trial, submission) {
        Ok(run) => run,
        Err(wrong) => {
            return Tried {
                wrong: Some(wrong),
                figures: None,
            };
        }
    };
    let figures = Some(figures_of(&run));
    match judge_run(alloc, trial, &run, submission) {
        Ok(()) => Tried {
            wrong: None,
            figures,
        },
        Err(wrong) => Tried {
            wrong: Some(wrong),
            figures,
        },
    }
}

// What a run took.
fn figures_of(run: &Run) -> Figures
    ensures { (text : List ℕ) → IsTextRun text run.now → AreFigures text result }
{
    let lines = run.costs.lines.as_slice();
    Figures {
        gone: gone_count(&run.ended.lines, run.job.procs()),
        time: total_time(lines),
        operations: total_operations(lines),
        steps: run.job.steps(),
        needs: run.costs.cost.needs(),
    }
}

// How many of so many processors are gone.
fn gone_count(lines: &Lines, procs: u32) -> u32
    ensures { result ≡ gone_count procs (gone_in lines.now.gone.items) }
{
    let mut count: u32 = 0;
    for processor in 0..procs {
        count += one_if_gone(gone_in(lines, processor));
    }
    count
}

fn one_if_gone(line: Option<u64>) -> u32
    ensures one { result ≡ cond (is_some line) 1 0 }
    ensures most { result ≤ 1 }
{
    match line {
        None => 0,
        Some(_) => 1,
    }
}
