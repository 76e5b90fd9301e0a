//! What is found of a submission.
ghost use Rattle.std.specs.Prelude.{◌≡◌, List, ℕ, Ok};
ghost use Rattle.exercise_text.specs.Reading.{exercise_of};
ghost use Rattle.page_core.specs.Submissions.{IsFinding};

use crate::codes::TEXT_MOST;
use crate::entries::{NoExercise, take_exercise};
use exercise_judge::{Exercise, Unfit, Verdict, judge, trials_of};
use std::alloc::Global;

/// What is found of a submission to an exercise.
#[derive(Drop)]
pub enum Finding {
    /// There is no exercise.
    NoExercise(NoExercise),
    /// The submission has more than `TEXT_MOST` bytes.
    TextTooLong,
    /// The exercise cannot be judged by.
    Unfit(Unfit),
    /// It is judged.
    Judged(Verdict),
}

/// Judges a submission to the exercise that a text spells.
pub fn found(alloc: Global, exercise: &[u8], submission: &[u8]) -> Finding
    ensures { IsFinding exercise.now submission.now result }
{
    if submission.len() > TEXT_MOST {
        return Finding::TextTooLong;
    }
    match take_exercise(alloc, exercise) {
        Ok(exercise) => found_by(alloc, &exercise, submission),
        Err(why) => Finding::NoExercise(why),
    }
}

fn found_by(alloc: Global, exercise: &Exercise, submission: &[u8]) -> Finding
    ensures { (text : List ℕ) → exercise_of text ≡ Ok exercise.now →
        IsFinding text submission.now result }
{
    match trials_of(alloc, exercise) {
        Ok(trials) => Finding::Judged(judge(alloc, trials.as_slice(), submission)),
        Err(unfit) => Finding::Unfit(unfit),
    }
}
