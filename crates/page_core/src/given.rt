//! A submission with the header of an exercise as an input sets it.
ghost use Rattle.std.specs.Prelude.{◌≡◌, ◌==◌, ◌&&◌, List, ℕ, IfErr, IfOk, Ok, find};
ghost use Rattle.std.specs.Option.{option_map};
ghost use Rattle.exercise_text.specs.Keys.{is_input};
ghost use Rattle.exercise_text.specs.Reading.{exercise_of};
ghost use Rattle.text_lines.specs.Lines.{words_of};
ghost use Rattle.exercise_text.specs.declared.key.Key.TheVariants.{Given as GivenKey};
ghost use Rattle.exercise_text.specs.Headers.{header_as_set};
ghost use Rattle.exercise_judge.specs.Trials.{part_in};
ghost use Rattle.page_core.specs.Given.{CannotBeSet, IsGivenText, IsGivenTold, IsNoGiven};
ghost use Rattle.page_core.specs.Given.{input_at, no_given_told};
ghost use Rattle.page_core.specs.Put.{IsTailKept, exercise_bytes_told};

use crate::codes::{MEMORY, TEXT_MOST, TEXT_TOO_LONG};
use crate::entries::{NoExercise, take_exercise, tell_no_exercise};
use crate::exercise_codes::{NO_INPUT, UNFIT};
use crate::put::{ExerciseTold, counted, put_text};
use exercise_judge::{Entry, Exercise, Key, part_in};
use exercise_text::{header_as_set, judged_text};
use pardo_text::PardoKind;
use std::alloc::Global;

/// Why there is no such text.
#[derive(Clone, Copy)]
pub enum NoGiven {
    /// There is no exercise.
    NoExercise(NoExercise),
    /// The submission has more than `TEXT_MOST` bytes.
    TextTooLong,
    /// No input stands in this line of the exercise.
    NoInput,
    /// The header cannot be set so.
    Unfit,
    /// Out of memory.
    Memory,
}

/// Puts the text that is judged with the input in line `line` to the front of the buffer.
pub fn given(
    alloc: Global,
    exercise: &[u8],
    submission: &[u8],
    line: u64,
    to: &mut [u8],
) -> ExerciseTold
    ensures told { IsGivenTold exercise.now submission.now line to.old to.new result }
    ensures bytes { IsTailKept (exercise_bytes_told result) to.old to.new }
{
    match given_text(alloc, exercise, submission, line) {
        Ok(text) => put_text(text.as_slice(), to),
        Err(why) => tell_no_given(why),
    }
}

fn given_text(
    alloc: Global,
    exercise: &[u8],
    submission: &[u8],
    line: u64,
) -> Result<Vec<u8>, NoGiven>
    ensures given { IfOk result (λ text.
        IsGivenText exercise.now submission.now line text.items) }
    ensures none { IfErr result (IsNoGiven exercise.now submission.now line) }
{
    if submission.len() > TEXT_MOST {
        return Err(NoGiven::TextTooLong);
    }
    match take_exercise(alloc, exercise) {
        Ok(exercise) => text_with(alloc, &exercise, submission, line),
        Err(why) => Err(NoGiven::NoExercise(why)),
    }
}

fn text_with(
    alloc: Global,
    exercise: &Exercise,
    submission: &[u8],
    line: u64,
) -> Result<Vec<u8>, NoGiven>
    ensures given { (text : List ℕ) → exercise_of text ≡ Ok exercise.now →
        IfOk result (λ given. IsGivenText text submission.now line given.items) }
    ensures none { (text : List ℕ) → exercise_of text ≡ Ok exercise.now →
        IfErr result (IsNoGiven text submission.now line) }
{
    let Some(input) = input_at(exercise.entries(), line) else {
        return Err(NoGiven::NoInput);
    };
    let header = set_header(alloc, exercise, input)?;
    match judged_text(alloc, header.as_slice(), submission) {
        Ok(text) => Ok(text),
        Err(_) => Err(NoGiven::Memory),
    }
}

// The header as the input sets it.
fn set_header(alloc: Global, exercise: &Exercise, input: &Entry) -> Result<Vec<u8>, NoGiven>
    ensures set { IfOk result (λ header. header_as_set (part_in GivenKey exercise.now)
        (words_of input.now.text) ≡ Ok header.items) }
    ensures none { IfErr result (CannotBeSet exercise.now input.now) }
{
    match header_as_set(alloc, part_in(exercise, Key::Given), input.text()) {
        Ok(header) => Ok(header),
        Err(fault) if fault.kind == PardoKind::Memory => Err(NoGiven::Memory),
        Err(_) => Err(NoGiven::Unfit),
    }
}

// The input in this line.
fn input_at(entries: &[Entry], line: u64) -> Option<&Entry>
    ensures { option_map (λ entry. entry.now) result ≡ input_at line entries.now }
{
    entries.iter().find(|entry| is_input_at(entry, line))
}

fn is_input_at(entry: &Entry, line: u64) -> bool
    ensures { result ≡ (is_input entry.now.key && (entry.now.number == line)) }
{
    entry.key().is_input() && entry.number() == line
}

fn tell_no_given(why: NoGiven) -> ExerciseTold
    ensures told { result ≡ no_given_told why }
    ensures bytes { exercise_bytes_told result ≡ 0 }
{
    match why {
        NoGiven::NoExercise(why) => tell_no_exercise(why),
        NoGiven::TextTooLong => counted(TEXT_TOO_LONG, 0, 0),
        NoGiven::NoInput => counted(NO_INPUT, 0, 0),
        NoGiven::Unfit => counted(UNFIT, 0, 0),
        NoGiven::Memory => counted(MEMORY, 0, 0),
    }
}
