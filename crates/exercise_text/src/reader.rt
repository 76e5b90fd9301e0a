//! Reads a text line by line.
ghost use Rattle.std.specs.Prelude.{◌≡◌, ◌≢◌, Ok, IfOk, IfErr};
ghost use Rattle.exercise_text.specs.Reading.{IsExerciseRefusal, exercise_after, exercise_of};
ghost use Rattle.exercise_text.specs.Reading.{begins_exercise};
ghost use Rattle.exercise_text.specs.Reading.{no_entry};
ghost use Rattle.text_lines.specs.TextLines.{left_of, taken_of};

use crate::draft::Draft;
use crate::exercise::Exercise;
use crate::fault::{ExerciseFault, ExerciseKind};
use std::alloc::Global;
use text_lines::{TextLines, is_word, two_words};

/// The exercise that a text spells, or the first line that is wrong, and what is wrong with it, or
/// what the text lacks.
///
/// The time is linear in the text.
#[tactic(auto, unfolding(crate::specs::Reading::exercise_of))]
pub fn read_exercise(alloc: Global, text: &[u8]) -> Result<Exercise, ExerciseFault>
    ensures exercise { IfOk result (λ exercise. exercise_of text.now ≡ Ok exercise) }
    ensures refused { IfErr result (IsExerciseRefusal (exercise_of text.now)) }
{
    let mut lines = TextLines::new(text);
    match lines.take_line() {
        Some(line) if is_header(line) => read_rest(alloc, lines),
        _ => Err(refusal(1, ExerciseKind::BadHeader)),
    }
}

// The exercise whose first line was taken.
fn read_rest(alloc: Global, lines: TextLines<'_>) -> Result<Exercise, ExerciseFault>
    ensures exercise { IfOk result (λ exercise.
        exercise_after no_entry (taken_of lines.entry) (left_of lines.entry) ≡ Ok exercise) }
    ensures refused { IfErr result (IsExerciseRefusal
        (exercise_after no_entry (taken_of lines.entry) (left_of lines.entry))) }
{
    let mut lines = lines;
    let mut draft = Draft::new(alloc);
    while let Some(line) = lines.take_line() {
        if let Err(kind) = draft.take_line(lines.number(), line) {
            return Err(refusal(lines.number(), kind));
        }
    }
    match draft.into_exercise() {
        Ok(exercise) => exercise.finished(lines.number()),
        Err(_) => Err(refusal(0, ExerciseKind::Memory)),
    }
}

fn is_header(line: &[u8]) -> bool
    ensures { result ≡ begins_exercise line.now }
{
    match two_words(line) {
        None => false,
        Some((first, second)) => is_word(first, "exercise") && is_word(second, "1"),
    }
}

// The fault of a line. Out of memory it is no line's.
fn refusal(line: u64, kind: ExerciseKind) -> ExerciseFault
    ensures kind { result.kind ≡ kind }
    ensures line { kind ≢ ExerciseKind.Memory → result.line ≡ line }
    ensures memory { kind ≡ ExerciseKind.Memory → result.line ≡ 0 }
{
    let line = if kind == ExerciseKind::Memory {
        0
    } else {
        line
    };
    ExerciseFault { line, kind }
}
