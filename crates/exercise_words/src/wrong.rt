//! What is wrong with a submission, in words.
ghost use Rattle.std.specs.Prelude.{◌≡◌, IfOk, OnErr, OnOk};
ghost use Rattle.exercise_words.specs.Words.{AddsWords, AddsPrintable, IsAtLine, IsMissingSaid};
ghost use Rattle.exercise_words.specs.Words.{IsShownSaid, IsWrongSaid, allowed_words};
ghost use Rattle.exercise_words.specs.Words.{around_number, bar_words};
ghost use Rattle.exercise_words.specs.Words.{conflict_words, deed_of, gone_words, refused_line};
ghost use Rattle.exercise_words.specs.Words.{model_words, places_words, value_words};

use crate::parts::{front_of, named, push_at_line, push_meeting};
use crate::shown::push_shown;
use crate::veiled::veiled_words;
use exercise_judge::{Bar, Trial, Wrong};
use exercise_text::judged_text;
use pardo_job::Refusal;
use pram_cost::{Pram, Sharing};
use pram_streams::push_labelled;
use refusals::sentences::of_program;
use refusals::{CommandFault, locate};
use std::alloc::{AllocError, Global};

/// Adds what is wrong with a submission by a trial, whose input may be hidden: the part of a
/// sentence, on one line, without a stop. A byte that cannot be printed is shown as `?`.
///
/// The time is that of reading the submission, and of what is said.
pub fn push_wrong(
    text: &mut Vec<u8>,
    wrong: &Wrong,
    hidden: bool,
    trial: &Trial,
    submission: &[u8],
) -> Result<(), AllocError>
    ensures said { OnOk result (AddsWords text.old.items text.new.items
        (IsWrongSaid hidden wrong.now)) }
    ensures printable { OnOk result (AddsPrintable text.old.items text.new.items) }
    ensures err { OnErr result (text.new.items ≡ text.old.items) }
{
    let words = wrong_words(*text.allocator(), wrong, hidden, trial, submission)?;
    push_shown(text, words.as_slice())
}

fn wrong_words(
    alloc: Global,
    wrong: &Wrong,
    hidden: bool,
    trial: &Trial,
    submission: &[u8],
) -> Result<Vec<u8>, AllocError>
    ensures { IfOk result (λ words. IsWrongSaid hidden wrong.now words.items) }
{
    if hidden {
        veiled_words(alloc, wrong)
    } else {
        shown_words(alloc, wrong, trial, submission)
    }
}

// Where the input is shown.
fn shown_words(
    alloc: Global,
    wrong: &Wrong,
    trial: &Trial,
    submission: &[u8],
) -> Result<Vec<u8>, AllocError>
    ensures { IfOk result (λ words. IsShownSaid wrong.now words.items) }
{
    match wrong {
        Wrong::Missing(line) => missing_words(alloc, line.as_slice()),
        Wrong::Program(refusal) => refusal_words(alloc, *refusal, trial, submission),
        Wrong::Conflict {
            line,
            place,
            first,
            second,
        } => conflict_words(alloc, place.as_slice(), *line, (*first, *second)),
        Wrong::Value {
            place,
            held,
            wanted,
        } => value_words(alloc, place.as_slice(), *held, *wanted),
        Wrong::Bar { bar, took, most } => bar_words(alloc, *bar, *took, *most),
        Wrong::Model {
            needs,
            allowed,
            sharing,
            line,
            place,
            first,
            second,
        } => {
            let mut words = model_words(alloc, *needs, *allowed)?;
            let deed = deed_of(*sharing).as_bytes();
            push_meeting(&mut words, deed, place.as_slice(), *line, (*first, *second))?;
            Ok(words)
        }
        Wrong::Gone { processor, line } => gone_words(alloc, *processor, *line),
        Wrong::Places { name, has, wanted } => places_words(alloc, name.as_slice(), *has, *wanted),
        Wrong::Memory => Vec::from_slice(alloc, b"out of memory"),
    }
}

/// The name that the line declares is told, or what else the line begins with.
pub(crate) fn missing_words(alloc: Global, line: &[u8]) -> Result<Vec<u8>, AllocError>
    ensures { IfOk result (λ words. IsMissingSaid line.now words.items) }
{
    let mut words = Vec::from_slice(alloc, b"the line \"")?;
    words.extend_from_slice(front_of(line).trim_ascii())?;
    words.extend_from_slice(b"\" is missing")?;
    Ok(words)
}

fn refusal_words(
    alloc: Global,
    refusal: Refusal,
    trial: &Trial,
    submission: &[u8],
) -> Result<Vec<u8>, AllocError>
    ensures { IfOk result (λ words. IsAtLine (refused_line refusal) words.items) }
{
    let text = judged_text(alloc, trial.header.as_slice(), submission)?;
    let mut words = Vec::new(alloc);
    push_at_line(&mut words, line_of(refusal))?;
    match locate(alloc, CommandFault::Program(refusal), text.as_slice())? {
        Some(found) => words.extend_from_slice(found.sentence.as_slice())?,
        None => words.extend_from_slice(of_program(refusal).1.as_bytes())?,
    }
    Ok(words)
}

/// The line that is refused.
pub(crate) fn line_of(refusal: Refusal) -> u64
    ensures { result ≡ refused_line refusal }
{
    match refusal {
        Refusal::Text(fault) => fault.line,
        Refusal::Job(fault) => fault.line,
    }
}

fn conflict_words(
    alloc: Global,
    place: &[u8],
    line: u64,
    pair: (u32, u32),
) -> Result<Vec<u8>, AllocError>
    ensures { IfOk result (λ words.
        words.items ≡ conflict_words place.now line pair.0 pair.1) }
{
    let mut words = Vec::new(alloc);
    push_meeting(&mut words, b" write ", place, line, pair)?;
    words.extend_from_slice(b", against the rule")?;
    Ok(words)
}

fn value_words(alloc: Global, place: &[u8], held: u32, wanted: u32) -> Result<Vec<u8>, AllocError>
    ensures { IfOk result (λ words. words.items ≡ value_words place.now held wanted) }
{
    let mut words = Vec::from_slice(alloc, named(place))?;
    push_labelled(&mut words, b" holds ", u64::from(held))?;
    push_labelled(&mut words, b", wanted ", u64::from(wanted))?;
    Ok(words)
}

fn gone_words(alloc: Global, processor: u32, line: u64) -> Result<Vec<u8>, AllocError>
    ensures { IfOk result (λ words. words.items ≡ gone_words processor line) }
{
    let mut words = Vec::new(alloc);
    push_labelled(&mut words, b"processor ", u64::from(processor))?;
    push_labelled(&mut words, b" is gone in line ", line)?;
    Ok(words)
}

fn places_words(alloc: Global, name: &[u8], has: u64, wanted: u64) -> Result<Vec<u8>, AllocError>
    ensures { IfOk result (λ words. words.items ≡ places_words name.now has wanted) }
{
    let mut words = Vec::from_slice(alloc, name)?;
    push_labelled(&mut words, b" has length ", has)?;
    push_labelled(&mut words, b", wanted ", wanted)?;
    Ok(words)
}

fn bar_words(alloc: Global, bar: Bar, took: u64, most: u64) -> Result<Vec<u8>, AllocError>
    ensures { IfOk result (λ words. words.items ≡ bar_words bar took most) }
{
    let (before, after) = around(bar);
    let mut words = Vec::new(alloc);
    push_labelled(&mut words, before.as_bytes(), took)?;
    words.extend_from_slice(after.as_bytes())?;
    push_labelled(&mut words, b", ", most)?;
    words.extend_from_slice(allowed_words(most).as_bytes())?;
    Ok(words)
}

// What stands before the number that a submission takes, and behind it.
fn around(bar: Bar) -> (&'static str, &'static str)
    ensures before { result.0.now ≡ (around_number bar).0 }
    ensures after { result.1.now ≡ (around_number bar).1 }
{
    match bar {
        Bar::Time => ("it takes time ", ""),
        Bar::Operations => ("it takes ", " operations"),
        Bar::Steps => ("it takes ", " steps of the machine"),
        Bar::Lines => ("it has ", " lines of code"),
    }
}

fn allowed_words(most: u64) -> &'static str
    ensures { result.now ≡ allowed_words most }
{
    if most == 1 {
        " is allowed"
    } else {
        " are allowed"
    }
}

/// Which model is needed, and which one is allowed.
pub(crate) fn model_words(alloc: Global, needs: Pram, allowed: Pram) -> Result<Vec<u8>, AllocError>
    ensures { IfOk result (λ words. words.items ≡ model_words needs allowed) }
{
    let mut words = Vec::from_slice(alloc, b"it needs ")?;
    words.extend_from_slice(needs.name().as_bytes())?;
    words.extend_from_slice(b", ")?;
    words.extend_from_slice(allowed.name().as_bytes())?;
    words.extend_from_slice(b" is allowed: ")?;
    Ok(words)
}

/// What two processors do with a place.
pub(crate) fn deed_of(sharing: Sharing) -> &'static str
    ensures { result.now ≡ deed_of sharing }
{
    match sharing {
        Sharing::SameRead => " read ",
        Sharing::SameWrite => " write ",
        Sharing::OtherValue => " write different values to ",
    }
}
