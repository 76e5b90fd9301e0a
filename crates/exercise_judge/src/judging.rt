//! A submission is judged.
ghost use Rattle.std.specs.Prelude.{◌≡◌, ◌≢◌, ◌⊎◌, ◌<◌, ℕ, List, IfErr, IfOk, IfSome, MatchOption};
ghost use Rattle.std.specs.Prelude.{None, Some, false};
ghost use Rattle.pram_job.specs.Job.{JobData};
ghost use Rattle.pram_cost.specs.Beyond.{IsBeyond};
ghost use Rattle.pram_cost.specs.Costs.{IsCost};
ghost use Rattle.pram_cost.specs.Models.{AcceptsSteps};
ghost use Rattle.pram_step.specs.declared.answer.RunAnswer.TheVariants.{Final};
ghost use Rattle.pardo_job.specs.Ends.{gone_in};
ghost use Rattle.pardo_answers.specs.Costs.{operations_in, time_in};
ghost use Rattle.pardo_answers.specs.Runs.{IsTextRun};
ghost use Rattle.exercise_text.specs.Submissions.{judged_text, missing_line};
ghost use Rattle.exercise_judge.specs.Trials.{KeepsBar, Meets};
ghost use Rattle.exercise_judge.specs.Tries.{IsRunless};
ghost use Rattle.exercise_judge.specs.Verdicts.{IsCertain, IsVerdictOn, Judges};
ghost use Rattle.exercise_judge.specs.Wrongs.{AllowsLess, IsBeyondIn, IsConflictIn, IsLeastGone};
ghost use Rattle.exercise_judge.specs.Wrongs.{IsWrong, IsWrongIn};
ghost use Rattle.exercise_judge.specs.declared.verdict.Bar.TheVariants.{Operations, Time};
ghost use Rattle.exercise_judge.specs.declared.verdict.Wrong.TheVariants.{Gone, Memory};

use crate::check::check_values;
use crate::place::place_text;
use crate::trial::Trial;
use crate::verdict::{Bar, Verdict, Wrong, wrong_of};
use exercise_text::{code_lines, judged_text, missing_line};
use pardo_answers::{Costs, Run, run_program, total_operations, total_time};
use pardo_job::Lines;
use pram_cost::{Beyond, Pram};
use pram_step::RunAnswer;
use std::alloc::{AllocError, Global};

/// Judges a submission by the trials of an exercise, in their order, until one is not met. Its text
/// is run once at most for each.
pub fn judge(alloc: Global, trials: &[Trial], submission: &[u8]) -> Verdict
    ensures { IsVerdictOn trials.now submission.now result }
{
    let mut input: usize = 0;
    for trial in trials {
        input += 1;
        if let Err(wrong) = judge_trial(alloc, trial, submission) {
            let hidden = trial.hidden;
            return Verdict::Failed {
                input,
                hidden,
                wrong,
            };
        }
    }
    Verdict::Passed
}

/// Judges a submission by one trial: nothing, where it is met, or the first thing that is wrong.
pub fn judge_trial(alloc: Global, trial: &Trial, submission: &[u8]) -> Result<(), Wrong>
    ensures judged { Judges result (Meets trial.now submission.now) }
    ensures wrong { IfErr result (IsWrong trial.now submission.now) }
{
    let run = submitted_run(alloc, trial, submission)?;
    judge_run(alloc, trial, &run, submission)
}

/// The run of a submission under a trial, or why there is none.
pub(crate) fn submitted_run(alloc: Global, trial: &Trial, submission: &[u8]) -> Result<Run, Wrong>
    ensures given { IfOk result (λ run. missing_line trial.now.header submission.now ≡ None) }
    ensures run { IfOk result (IsTextRun (judged_text trial.now.header submission.now)) }
    ensures unmet { IfErr result (λ wrong. IsCertain wrong → ¬ Meets trial.now submission.now) }
    ensures wrong { IfErr result (IsWrong trial.now submission.now) }
    ensures runless { IfErr result IsRunless }
{
    if let Some(line) = missing_line(trial.header.as_slice(), submission) {
        return Err(Wrong::Missing(Vec::from_slice(alloc, line)?));
    }
    let text = judged_text(alloc, trial.header.as_slice(), submission)?;
    match run_program(alloc, text.as_slice()) {
        Ok(run) => Ok(run),
        Err(refusal) => Err(wrong_of(refusal)),
    }
}

/// Judges a run of the submission by a trial.
pub(crate) fn judge_run(
    alloc: Global,
    trial: &Trial,
    run: &Run,
    submission: &[u8],
) -> Result<(), Wrong>
    requires given { missing_line trial.now.header submission.now ≡ None }
    requires run { IsTextRun (judged_text trial.now.header submission.now) run.now }
    ensures judged { Judges result (Meets trial.now submission.now) }
    ensures wrong { IfErr result (IsWrong trial.now submission.now) }
{
    check_run(alloc, trial, run, submission)
}

// Whether a run of the submission meets the trial.
fn check_run(alloc: Global, trial: &Trial, run: &Run, submission: &[u8]) -> Result<(), Wrong>
    requires given { missing_line trial.now.header submission.now ≡ None }
    requires run { IsTextRun (judged_text trial.now.header submission.now) run.now }
    ensures judged { Judges result (Meets trial.now submission.now) }
    ensures wrong { IfErr result (IsWrongIn trial.now submission.now run.now) }
{
    let cells = cells_of(alloc, run)?;
    check_values(alloc, run.program.arrays(), cells, trial.wanted.as_slice())?;
    check_there(trial.may_leave, run)?;
    check_costs(trial, &run.costs)?;
    check_bar(Bar::Steps, wide(trial.steps), u64::from(run.job.steps()))?;
    check_bar(Bar::Lines, trial.lines, code_lines(submission))?;
    check_model(alloc, trial.model, run)
}

// What the cells hold at the end of a run that has no conflict.
fn cells_of(alloc: Global, run: &Run) -> Result<&[u32], Wrong>
    ensures ok { IfOk result (λ cells. run.now.ended.answer ≡ Final cells.now) }
    ensures err { IfErr result (λ wrong. IsCertain wrong →
        (cells : List ℕ) → run.now.ended.answer ≢ Final cells) }
    ensures wrong { IfErr result (λ wrong. (wrong ≡ Memory) ⊎ IsConflictIn run.now wrong) }
{
    match &run.ended.answer {
        RunAnswer::Final(cells) => Ok(cells.as_slice()),
        RunAnswer::Conflict(fault) => {
            let place = place_text(alloc, run.program.arrays(), fault.cell as usize)?;
            Err(Wrong::Conflict {
                line: run.ended.lines.disputed,
                place,
                first: fault.first,
                second: fault.second,
            })
        }
        RunAnswer::Unfinished { .. } => Err(Wrong::Memory),
    }
}

// Whether all processors are there at the end, or may leave.
fn check_there(may_leave: bool, run: &Run) -> Result<(), Wrong>
    ensures judged { Judges result (may_leave ≡ false → (i : ℕ) → i < run.now.job.procs →
        gone_in run.now.ended.lines.gone.items i ≡ None) }
    ensures wrong { IfErr result (λ wrong. (may_leave ≡ false) × ((processor : ℕ) × (line : ℕ)
        × (wrong ≡ Gone processor line) × IsLeastGone run.now.job.procs
        (gone_in run.now.ended.lines.gone.items) processor line)) }
{
    if may_leave {
        return Ok(());
    }
    match first_gone(&run.ended.lines, run.job.procs()) {
        None => Ok(()),
        Some((processor, line)) => Err(Wrong::Gone { processor, line }),
    }
}

// The least of so many processors that is gone, and the line in which it left.
fn first_gone(lines: &Lines, procs: u32) -> Option<(u32, u64)>
    ensures { MatchOption result ((i : ℕ) → i < procs → gone_in lines.now.gone.items i ≡ None)
        (λ gone. IsLeastGone procs (gone_in lines.now.gone.items) gone.0 gone.1) }
{
    for processor in 0..procs {
        if let Some(line) = gone_in(lines, processor) {
            return Some((processor, line));
        }
    }
    None
}

/// The line in which a processor left, if it did.
pub(crate) fn gone_in(lines: &Lines, processor: u32) -> Option<u64>
    ensures { result ≡ gone_in lines.now.gone.items processor }
{
    lines.gone.get(processor as usize).copied().unwrap_or(None)
}

// A bar of 64 bits.
fn wide(most: Option<u32>) -> Option<u64>
    ensures { result ≡ most }
{
    match most {
        None => None,
        Some(most) => Some(u64::from(most)),
    }
}

fn check_bar(bar: Bar, most: Option<u64>, took: u64) -> Result<(), Wrong>
    ensures judged { Judges result (KeepsBar most took) }
    ensures wrong { IfErr result (AllowsLess bar most took) }
{
    match most {
        Some(most) if took > most => Err(Wrong::Bar { bar, took, most }),
        _ => Ok(()),
    }
}

// Whether the time and the operations are within their bars.
fn check_costs(trial: &Trial, costs: &Costs) -> Result<(), Wrong>
    ensures judged { Judges result (KeepsBar trial.now.time (time_in costs.now.lines.items)
        × KeepsBar trial.now.operations (operations_in costs.now.lines.items)) }
    ensures wrong { IfErr result (λ wrong.
        AllowsLess Time trial.now.time (time_in costs.now.lines.items) wrong
        ⊎ AllowsLess Operations trial.now.operations (operations_in costs.now.lines.items) wrong) }
{
    let lines = costs.lines.as_slice();
    check_bar(Bar::Time, wide(trial.time), total_time(lines))?;
    check_bar(
        Bar::Operations,
        wide(trial.operations),
        total_operations(lines),
    )
}

// Whether the model accepts all steps of a run.
fn check_model(alloc: Global, model: Option<Pram>, run: &Run) -> Result<(), Wrong>
    ensures judged { (job : JobData) → IsCost job run.now.costs.cost → Judges result
        (IfSome model (λ allowed. AcceptsSteps allowed job run.now.costs.cost.steps)) }
    ensures wrong { IsCost run.now.job run.now.costs.cost → IfErr result (λ wrong. (wrong ≡ Memory)
        ⊎ ((allowed : Pram) × (model ≡ Some allowed) × IsBeyondIn allowed run.now wrong)) }
{
    let Some(allowed) = model else {
        return Ok(());
    };
    match run.costs.cost.beyond(allowed) {
        None => Ok(()),
        Some(beyond) => Err(model_needed(alloc, run, allowed, beyond)?),
    }
}

fn model_needed(
    alloc: Global,
    run: &Run,
    allowed: Pram,
    beyond: Beyond,
) -> Result<Wrong, AllocError>
    ensures { IsCost run.now.job run.now.costs.cost →
        IsBeyond allowed run.now.job run.now.costs.cost.steps beyond →
        IfOk result (IsBeyondIn allowed run.now) }
{
    let meeting = beyond.meeting;
    let numbers = run.numbers.as_slice();
    Ok(Wrong::Model {
        needs: run.costs.cost.needs(),
        allowed,
        sharing: beyond.sharing,
        line: numbers.get(meeting.counter as usize).copied().unwrap_or(0),
        place: place_text(alloc, run.program.arrays(), meeting.cell as usize)?,
        first: meeting.first,
        second: meeting.second,
    })
}
