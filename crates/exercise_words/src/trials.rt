//! The trials that a text spells.
ghost use Rattle.std.specs.Prelude.{IfErr, IfOk};
ghost use Rattle.exercise_words.specs.Records.{HasNoTrials, HasTrials};

use exercise_judge::{
    ExerciseFault, ExerciseKind, Trial, Unfit, UnfitKind, read_exercise, trials_of,
};
use std::alloc::Global;

/// Why a text gives no trials.
#[derive(Drop)]
pub enum NoTrials {
    /// It is no exercise.
    Fault(ExerciseFault),
    /// Nothing can be judged by it.
    Unfit(Unfit),
    /// Memory ran out.
    Memory,
}

/// The trials of the exercise that a text spells. Its reference, if it has one, is run once for
/// each input.
pub fn trials_in(alloc: Global, text: &[u8]) -> Result<Vec<Trial>, NoTrials>
    ensures trials { IfOk result (λ trials. HasTrials text.now trials.items) }
    ensures why { IfErr result (HasNoTrials text.now) }
{
    match read_exercise(alloc, text) {
        Ok(exercise) => match trials_of(alloc, &exercise) {
            Ok(trials) => Ok(trials),
            Err(
                Unfit {
                    kind: UnfitKind::Memory,
                    ..
                },
            ) => Err(NoTrials::Memory),
            Err(unfit) => Err(NoTrials::Unfit(unfit)),
        },
        Err(fault) if fault.kind == ExerciseKind::Memory => Err(NoTrials::Memory),
        Err(fault) => Err(NoTrials::Fault(fault)),
    }
}
