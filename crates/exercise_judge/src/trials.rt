//! The trials of an exercise.
ghost use Rattle.std.specs.Prelude.{◌≡◌, ◌≢◌, ℕ, List, IfErr, IfOk, Ok, OnOk, false, true};
ghost use Rattle.text_lines.specs.Lines.{words_of};
ghost use Rattle.exercise_text.specs.declared.key.Key.TheVariants.{Given as GivenKey};
ghost use Rattle.exercise_text.specs.Headers.{header_as_set};
ghost use Rattle.exercise_text.specs.Values.{WantedData};
ghost use Rattle.exercise_judge.specs.Trials.{AddsTrial, HaveValues, AreSaid, AreTrials, AreWanted};
ghost use Rattle.exercise_judge.specs.Trials.{IsBar, IsReferenced, IsTrial, part_in};
ghost use Rattle.exercise_judge.specs.Verdicts.{HasNone, IsOfExercise, IsUnfit};
ghost use Rattle.exercise_text.specs.Keys.{is_input};
ghost use Rattle.pardo_text.specs.declared.fault.PardoKind.TheVariants.{Memory};

use crate::known::{check_known, check_words};
use crate::reference::wanted_by_reference;
use crate::trial::Trial;
use crate::verdict::{Unfit, UnfitKind};
use exercise_text::{
    Entry, Exercise, Key, Wanted, answer_in, header_as_set, read_header, value_by, wanted_at_start,
};
use pardo_text::{PardoFault, PardoKind};
use std::alloc::Global;

/// The trials of the inputs of an exercise, in their order. Its reference, if it has one, is run
/// once for each.
pub fn trials_of(alloc: Global, exercise: &Exercise) -> Result<Vec<Trial>, Unfit>
    ensures trials { IfOk result (λ trials. AreTrials exercise.now trials.items) }
    ensures unfit { IfErr result (IsUnfit exercise.now) }
{
    let mut trials = Vec::new(alloc);
    for entry in exercise.entries() {
        if let Err(kind) = push_trial(alloc, exercise, entry, &mut trials) {
            let line = entry.number();
            return Err(Unfit { line, kind });
        }
    }
    Ok(trials)
}

// Adds the trial of an entry, if it is an input.
fn push_trial(
    alloc: Global,
    exercise: &Exercise,
    entry: &Entry,
    trials: &mut Vec<Trial>,
) -> Result<(), UnfitKind>
    ensures adds { OnOk result
        (AddsTrial exercise.now entry.now trials.old.items trials.new.items) }
    ensures none { IfErr result (λ kind. (is_input entry.now.key ≡ true)
        × HasNone kind (IsTrial exercise.now entry.now)) }
{
    if entry.key().is_input() {
        trials.push(trial_of(alloc, exercise, entry)?)?;
    }
    Ok(())
}

/// The trial of an input. Behind `->` a wanted name may be left out: it is then wanted to hold what
/// it starts with.
pub fn trial_of(alloc: Global, exercise: &Exercise, input: &Entry) -> Result<Trial, UnfitKind>
    ensures trial { IfOk result (IsTrial exercise.now input.now) }
    ensures none { IfErr result (λ kind. HasNone kind (IsTrial exercise.now input.now)) }
{
    check_words(alloc, part_in(exercise, Key::Given), input.text())?;
    let header = given_header(alloc, exercise, input)?;
    let wanted = known_wanted(alloc, exercise, input, header.as_slice())?;
    let time = bar_of(alloc, exercise, header.as_slice(), Key::Time)?;
    let operations = bar_of(alloc, exercise, header.as_slice(), Key::Operations)?;
    let steps = bar_of(alloc, exercise, header.as_slice(), Key::Steps)?;
    Ok(Trial {
        header,
        wanted,
        time,
        operations,
        steps,
        lines: exercise.most_lines(),
        model: exercise.model(),
        may_leave: exercise.may_leave(),
        hidden: input.is_hidden(),
    })
}

// The header as the input sets it.
fn given_header(alloc: Global, exercise: &Exercise, input: &Entry) -> Result<Vec<u8>, UnfitKind>
    ensures header { IfOk result (λ header. header_as_set (part_in GivenKey exercise.now)
        (words_of input.now.text) ≡ Ok header.items) }
    ensures none { IfErr result (λ kind. HasNone kind (λ header. header_as_set
        (part_in GivenKey exercise.now) (words_of input.now.text) ≡ Ok header)) }
{
    header_as_set(alloc, part_in(exercise, Key::Given), input.text()).map_err(given_fault)
}

fn given_fault(fault: PardoFault) -> UnfitKind
    ensures { IsOfExercise result → fault.kind ≢ Memory }
{
    if fault.kind == PardoKind::Memory {
        UnfitKind::Memory
    } else {
        UnfitKind::Given(fault)
    }
}

fn answer_fault(fault: PardoFault) -> UnfitKind
    ensures { IsOfExercise result → fault.kind ≢ Memory }
{
    if fault.kind == PardoKind::Memory {
        UnfitKind::Memory
    } else {
        UnfitKind::Answer(fault)
    }
}

fn bar_fault(fault: PardoFault) -> UnfitKind
    ensures { IsOfExercise result → fault.kind ≢ Memory }
{
    if fault.kind == PardoKind::Memory {
        UnfitKind::Memory
    } else {
        UnfitKind::Bar(fault)
    }
}

/// What a part of an exercise says, and nothing where it has none.
pub fn part_in(exercise: &Exercise, key: Key) -> &[u8]
    ensures { result.now ≡ part_in key exercise.now }
{
    exercise.text(key).unwrap_or(b"")
}

// What is wanted, if each wanted name has values, and the reference ends with them.
fn known_wanted(
    alloc: Global,
    exercise: &Exercise,
    input: &Entry,
    header: &[u8],
) -> Result<Vec<Wanted>, UnfitKind>
    ensures wanted { IfOk result (λ wanted. AreWanted exercise.now input.now header.now wanted.items
        × HaveValues wanted.items × IsReferenced exercise.now header.now wanted.items) }
    ensures none { IfErr result (λ kind. HasNone kind (λ wanted.
        AreWanted exercise.now input.now header.now wanted × HaveValues wanted
        × IsReferenced exercise.now header.now wanted)) }
{
    let wanted = wanted_of(alloc, exercise, input, header)?;
    check_known(alloc, wanted.as_slice())?;
    if answer_in(input.text()).is_none() {
        return Ok(wanted);
    }
    check_reference(alloc, exercise, header, wanted.as_slice())?;
    Ok(wanted)
}

// Whether the reference, if there is one, ends with what is wanted.
fn check_reference(
    alloc: Global,
    exercise: &Exercise,
    header: &[u8],
    wanted: &[Wanted],
) -> Result<(), UnfitKind>
    ensures ends { OnOk result (IsReferenced exercise.now header.now wanted.now) }
    ensures none { IfErr result (λ kind. IsOfExercise kind →
        ¬ IsReferenced exercise.now header.now wanted.now) }
{
    let Some(reference) = exercise.text(Key::Reference) else {
        return Ok(());
    };
    let ends = wanted_by_reference(alloc, header, reference, part_in(exercise, Key::Want))?;
    if are_same(wanted, ends.as_slice()) {
        Ok(())
    } else {
        Err(UnfitKind::Contradiction)
    }
}

fn are_same(wanted: &[Wanted], ends: &[Wanted]) -> bool
    ensures same { result ≡ true → wanted.now ≡ ends.now }
    ensures other { result ≡ false → wanted.now ≢ ends.now }
{
    if wanted.len() != ends.len() {
        return false;
    }
    for at in 0..wanted.len() {
        if !is_same(&wanted[at], &ends[at]) {
            return false;
        }
    }
    true
}

fn is_same(want: &Wanted, end: &Wanted) -> bool
    ensures same { result ≡ true → want.now ≡ end.now }
    ensures other { result ≡ false → want.now ≢ end.now }
{
    want.name.as_slice() == end.name.as_slice() && want.values.as_slice() == end.values.as_slice()
}

fn wanted_of(
    alloc: Global,
    exercise: &Exercise,
    input: &Entry,
    header: &[u8],
) -> Result<Vec<Wanted>, UnfitKind>
    ensures wanted { IfOk result (λ wanted.
        AreWanted exercise.now input.now header.now wanted.items) }
    ensures none { IfErr result (λ kind.
        HasNone kind (AreWanted exercise.now input.now header.now)) }
{
    let names = part_in(exercise, Key::Want);
    match answer_in(input.text()) {
        None => wanted_by_reference(alloc, header, part_in(exercise, Key::Reference), names),
        Some(words) => wanted_by_words(alloc, header, words, names),
    }
}

fn wanted_by_words(
    alloc: Global,
    header: &[u8],
    words: &[u8],
    names: &[u8],
) -> Result<Vec<Wanted>, UnfitKind>
    ensures said { IfOk result (λ wanted. AreSaid header.now (words_of words.now)
        (words_of names.now) wanted.items) }
    ensures none { IfErr result (λ kind.
        HasNone kind (AreSaid header.now (words_of words.now) (words_of names.now))) }
{
    match said_by(alloc, header, words, names) {
        Ok(wanted) => Ok(wanted),
        Err(fault) => Err(answer_fault(fault)),
    }
}

// What the names start with in the header as the words set it.
fn said_by(
    alloc: Global,
    header: &[u8],
    words: &[u8],
    names: &[u8],
) -> Result<Vec<Wanted>, PardoFault>
    ensures said { IfOk result (λ wanted. AreSaid header.now (words_of words.now)
        (words_of names.now) wanted.items) }
    ensures none { IfErr result (λ fault. fault.kind ≢ Memory → (wanted : List WantedData) →
        ¬ AreSaid header.now (words_of words.now) (words_of names.now) wanted) }
{
    let set = header_as_set(alloc, header, words)?;
    let program = read_header(alloc, set.as_slice(), b"0")?;
    match wanted_at_start(alloc, names, program.arrays()) {
        Ok(wanted) => Ok(wanted),
        Err(_) => Err(PardoFault {
            line: 0,
            kind: PardoKind::Memory,
        }),
    }
}

fn bar_of(
    alloc: Global,
    exercise: &Exercise,
    header: &[u8],
    key: Key,
) -> Result<Option<u32>, UnfitKind>
    ensures bar { IfOk result (IsBar exercise.now header.now key) }
    ensures none { IfErr result (λ kind. HasNone kind (IsBar exercise.now header.now key)) }
{
    let Some(bar) = exercise.bar(key) else {
        return Ok(None);
    };
    Ok(Some(value_by(alloc, header, bar).map_err(bar_fault)?))
}
