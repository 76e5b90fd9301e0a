//! Why an exercise cannot be judged by, in words.
ghost use Rattle.std.specs.Prelude.{◌≡◌, ◌++◌, IfOk, OnErr, OnOk};
ghost use Rattle.exercise_words.specs.Words.{AddsWords, AddsPrintable, IsAtLine, IsFaultSaid};
ghost use Rattle.exercise_words.specs.Words.{IsUnfitSaid, at_line};

use crate::parts::{front_of, push_at_line};
use crate::shown::push_shown;
use exercise_judge::{ExerciseFault, ExerciseKind, Unfit, UnfitKind};
use pardo_job::Refusal;
use pram_streams::push_labelled;
use refusals::sentences::of_program;
use std::alloc::{AllocError, Global};

/// Adds why an exercise cannot be judged by: the part of a sentence, on one line, without a stop. A
/// byte that cannot be printed is shown as `?`.
pub fn push_unfit(text: &mut Vec<u8>, unfit: &Unfit) -> Result<(), AllocError>
    ensures said { OnOk result (AddsWords text.old.items text.new.items
        (IsUnfitSaid unfit.now.line unfit.now.kind)) }
    ensures printable { OnOk result (AddsPrintable text.old.items text.new.items) }
    ensures err { OnErr result (text.new.items ≡ text.old.items) }
{
    let words = unfit_words(*text.allocator(), unfit)?;
    push_shown(text, words.as_slice())
}

/// Adds why a text is no exercise: the part of a sentence, on one line, without a stop.
pub fn push_exercise_fault(text: &mut Vec<u8>, fault: &ExerciseFault) -> Result<(), AllocError>
    ensures said { OnOk result (AddsWords text.old.items text.new.items
        (IsFaultSaid fault.now.line fault.now.kind)) }
    ensures printable { OnOk result (AddsPrintable text.old.items text.new.items) }
    ensures err { OnErr result (text.new.items ≡ text.old.items) }
{
    let words = fault_words(*text.allocator(), *fault)?;
    push_shown(text, words.as_slice())
}

fn unfit_words(alloc: Global, unfit: &Unfit) -> Result<Vec<u8>, AllocError>
    ensures { IfOk result (λ words. IsUnfitSaid unfit.now.line unfit.now.kind words.items) }
{
    let line = unfit.line;
    match &unfit.kind {
        UnfitKind::Given(fault) => {
            words_in(
                alloc,
                line,
                b" of the header as it is set: ",
                Refusal::Text(*fault),
            )
        }
        UnfitKind::Answer(fault) => {
            let place = b" of the header as the answer sets it: ";
            words_in(alloc, line, place, Refusal::Text(*fault))
        }
        UnfitKind::Bar(fault) => {
            let sentence = of_program(Refusal::Text(*fault)).1;
            words_at(alloc, line, b"a bar has no value: ", sentence.as_bytes())
        }
        UnfitKind::Reference(refusal) => {
            words_in(alloc, line, b" of the header and the reference: ", *refusal)
        }
        UnfitKind::Conflict => words_at(alloc, line, b"the reference ends in a conflict", b""),
        UnfitKind::Unknown(word) => {
            words_at(alloc, line, b"nothing is named ", front_of(word.as_slice()))
        }
        UnfitKind::Contradiction => {
            let sentence = b"the reference ends with other values than are wanted here";
            words_at(alloc, line, sentence, b"")
        }
        UnfitKind::Memory => Vec::from_slice(alloc, b"out of memory"),
    }
}

// Two words on a line.
fn words_at(alloc: Global, line: u64, sentence: &[u8], more: &[u8]) -> Result<Vec<u8>, AllocError>
    ensures { IfOk result (λ words. words.items ≡ at_line line ++ sentence.now ++ more.now) }
{
    let mut words = Vec::new(alloc);
    push_at_line(&mut words, line)?;
    words.extend_from_slice(sentence)?;
    words.extend_from_slice(more)?;
    Ok(words)
}

// What is wrong in a line of a text that an input makes.
fn words_in(alloc: Global, line: u64, place: &[u8], refusal: Refusal) -> Result<Vec<u8>, AllocError>
    ensures { IfOk result (λ words. IsAtLine line words.items) }
{
    let (number, sentence) = of_program(refusal);
    let mut said = Vec::new(alloc);
    push_labelled(&mut said, b"in line ", number)?;
    said.extend_from_slice(place)?;
    words_at(alloc, line, said.as_slice(), sentence.as_bytes())
}

fn fault_words(alloc: Global, fault: ExerciseFault) -> Result<Vec<u8>, AllocError>
    ensures { IfOk result (λ words. IsFaultSaid fault.line fault.kind words.items) }
{
    match fault.kind {
        ExerciseKind::Memory => Vec::from_slice(alloc, b"out of memory"),
        ExerciseKind::Missing(key) => {
            let word = key.word().as_bytes();
            words_at(alloc, fault.line, b"the text ends without a line ", word)
        }
        kind => words_at(alloc, fault.line, sentence_on(kind).as_bytes(), b""),
    }
}

fn sentence_on(kind: ExerciseKind) -> &'static str {
    match kind {
        ExerciseKind::NotAscii => "a character here is neither printable ASCII nor a tab",
        ExerciseKind::BadHeader => "the first line must be exercise 1",
        ExerciseKind::UnknownKey => "the line begins with no word of an exercise",
        ExerciseKind::BadLine =>
            "the line lacks what its first word asks for, or belongs to no part",
        ExerciseKind::Duplicate => "this may stand once, and an earlier line has it",
        ExerciseKind::NoAnswer =>
            "the input does not say what is wanted, and there is no reference",
        ExerciseKind::Missing(_) => "something is missing",
        ExerciseKind::Memory => "out of memory",
    }
}
