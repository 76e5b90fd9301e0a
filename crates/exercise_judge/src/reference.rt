//! What the reference of an exercise ends with.
ghost use Rattle.std.specs.Prelude.{◌≡◌, ◌≢◌, ◌++◌, ℕ, List, IfErr, IfOk, MatchOption};
ghost use Rattle.text_lines.specs.Lines.{words_of};
ghost use Rattle.pardo_answers.specs.Runs.{IsTextRun};
ghost use Rattle.pram_step.specs.declared.answer.RunAnswer.TheVariants.{Final};
ghost use Rattle.exercise_judge.specs.Trials.{AreEnds};
ghost use Rattle.exercise_judge.specs.Verdicts.{HasNone};

use crate::verdict::{UnfitKind, is_memory};
use exercise_text::{Wanted, wanted_at_end};
use pardo_answers::{Run, run_program};
use pram_step::RunAnswer;
use std::alloc::Global;

/// What the names hold at the end of the reference.
pub(crate) fn wanted_by_reference(
    alloc: Global,
    header: &[u8],
    reference: &[u8],
    names: &[u8],
) -> Result<Vec<Wanted>, UnfitKind>
    ensures ends { IfOk result (λ wanted. AreEnds (header.now ++ reference.now)
        (words_of names.now) wanted.items) }
    ensures none { IfErr result (λ kind.
        HasNone kind (AreEnds (header.now ++ reference.now) (words_of names.now))) }
{
    let mut text = Vec::from_slice(alloc, header)?;
    text.extend_from_slice(reference)?;
    match run_program(alloc, text.as_slice()) {
        Ok(run) => wanted_by_run(alloc, &run, names),
        Err(refusal) if is_memory(refusal) => Err(UnfitKind::Memory),
        Err(refusal) => Err(UnfitKind::Reference(refusal)),
    }
}

// What they hold at the end of the run of a text.
fn wanted_by_run(alloc: Global, run: &Run, names: &[u8]) -> Result<Vec<Wanted>, UnfitKind>
    ensures ends { (text : List ℕ) → IsTextRun text run.now →
        IfOk result (λ wanted. AreEnds text (words_of names.now) wanted.items) }
    ensures none { (text : List ℕ) → IsTextRun text run.now →
        IfErr result (λ kind. HasNone kind (AreEnds text (words_of names.now))) }
{
    match final_cells(run) {
        Some(cells) => Ok(wanted_at_end(alloc, names, run.program.arrays(), cells)?),
        None => Err(UnfitKind::Conflict),
    }
}

// What the cells hold at the end of a run, if it has no conflict.
fn final_cells(run: &Run) -> Option<&[u32]>
    ensures { MatchOption result ((cells : List ℕ) → run.now.ended.answer ≢ Final cells)
        (λ cells. run.now.ended.answer ≡ Final cells.now) }
{
    match &run.ended.answer {
        RunAnswer::Final(cells) => Some(cells.as_slice()),
        RunAnswer::Conflict(_) => None,
        RunAnswer::Unfinished { .. } => None,
    }
}
