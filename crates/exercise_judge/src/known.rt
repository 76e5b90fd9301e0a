//! Whether an exercise names what there is.
ghost use Rattle.std.specs.Prelude.{◌≡◌, ◌≢◌, IfErr, None, OnOk};
ghost use Rattle.text_lines.specs.Lines.{words_of};
ghost use Rattle.exercise_text.specs.Sets.{unknown_word};
ghost use Rattle.exercise_judge.specs.Trials.{HaveValues};
ghost use Rattle.exercise_judge.specs.Verdicts.{IsOfExercise};

use crate::verdict::UnfitKind;
use exercise_text::{Wanted, unknown_word};
use std::alloc::{AllocError, Global};

/// Whether each word of an input sets a name that the header declares.
pub(crate) fn check_words(alloc: Global, header: &[u8], words: &[u8]) -> Result<(), UnfitKind>
    ensures known { OnOk result (unknown_word header.now (words_of words.now) ≡ None) }
    ensures unknown { IfErr result (λ kind. IsOfExercise kind →
        unknown_word header.now (words_of words.now) ≢ None) }
{
    match unknown_word(header, words) {
        None => Ok(()),
        Some(word) => Err(unknown(alloc, word)?),
    }
}

/// Whether each wanted name has values.
pub(crate) fn check_known(alloc: Global, wanted: &[Wanted]) -> Result<(), UnfitKind>
    ensures known { OnOk result (HaveValues wanted.now) }
    ensures unknown { IfErr result (λ kind. IsOfExercise kind → ¬ HaveValues wanted.now) }
{
    for want in wanted {
        if want.values.is_empty() {
            return Err(unknown(alloc, want.name.as_slice())?);
        }
    }
    Ok(())
}

fn unknown(alloc: Global, word: &[u8]) -> Result<UnfitKind, AllocError> {
    Ok(UnfitKind::Unknown(Vec::from_slice(alloc, word)?))
}
