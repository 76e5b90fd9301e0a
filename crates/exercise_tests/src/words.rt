//! What is said of submissions and exercises in words.
use crate::submissions::{GOOD, SUMS};
use exercise_judge::{ExerciseFault, ExerciseKind, Unfit, UnfitKind, Wrong};
use exercise_words::{
    NOT_PASSED, NoTrials, push_exercise_fault, push_unfit, push_wrong, said_of, trials_in,
};
use pardo_job::{JobFault, JobKind, Refusal};
use std::alloc::{AllocError, Global};
use std::rt::HostRuntime;
use std::str::from_utf8;
use std::test::Fail;

// what stands in the place of what in the submission, and what is wrong then
const SUBMISSIONS: &str = "\
const n = 16 => ; => the line \"const n\" is missing
procs i<n => ; => the line \"procs i < n\" is missing
x := => x = => line 10: an assignment is `:=`; `=` compares
A[i] := A[i] + x => A[0] := x => processors 1 and 2 write A[0] in line 13, against the rule
A[i] + x~end~end => A[i] + x~end~end~x := A[i + 1] => processor 3 is gone in line 16
A[i] + x => A[i] + x + k => A[2] holds 18, wanted 17
(1 << k)] => (1 << k)] + A[0] - A[0] => it needs CREW, EREW is allowed: processors 1 and 2 read A[0] in line 10";

// the same where the first input is hidden
const HIDDEN: &str = "\
const n = 16 => ; => the line \"const n\" is missing
x := => x = => line 10: something is missing here, left over, or in the wrong place
A[i] := A[i] + x => A[0] := x => two processors write one place in line 13, against the rule
A[i] + x~end~end => A[i] + x~end~end~x := A[i + 1] => a processor is gone in line 16
A[i] + x => A[i] + x + k => a value is not the one that is wanted
code => code~; more~x := 1~x := 1 => it has too many lines of code
(1 << k)] => (1 << k)] + A[0] - A[0] => it needs CREW, EREW is allowed: two processors read one place in line 10";

// the same of the exercise
const EXERCISES: &str = "\
time <= 6 * lg(n) + 4 => time <= 2 => it takes time 4, 2 are allowed
operations <= 9 * n * lg(n) => operations <= 1 => it takes 10 operations, 1 is allowed
steps <= 60 * lg(n) + 100 => steps <= 9 => it takes 71 steps of the machine, 9 are allowed
lines <= 8 => lines <= 5 => it has 8 lines of code, 5 are allowed
n=2 A=7,9 => n=0 => line 27: in line 4 of the header as it is set: a number is outside its limits, or something is divided by 0
A=7,16 => A=7 => line 27: in line 5 of the header as the answer sets it: the array gets too many values, or too few without ...
time <= 6 * lg(n) + 4 => time <= m => line 26: a bar has no value: a name here is not known
for k => for K => line 26: in line 10 of the header and the reference: a name here is not known
if i = 0 => if 1 => line 26: the reference ends in a conflict
want A => want A B => line 26: nothing is named B
-> A=7 => -> B=7 => line 27: nothing is named B
title prefix => title é => line 2: a character here is neither printable ASCII nor a tab
title => titel => line 2: the line begins with no word of an exercise
exercise 1 => exercise 2 => line 1: the first line must be exercise 1
want A => want => line 9: the line lacks what its first word asks for, or belongs to no part
model EREW => want A => line 9: this may stand once, and an earlier line has it
title prefix => task prefix => line 30: the text ends without a line title";

// What is wrong with a submission, or with the exercise.
fn said(alloc: Global, exercise: &[u8], submission: &[u8]) -> Result<Vec<u8>, AllocError> {
    let mut text = Vec::new(alloc);
    match trials_in(alloc, exercise) {
        Ok(trials) => return Ok(said_of(alloc, trials.as_slice(), submission)?.what),
        Err(NoTrials::Fault(fault)) => push_exercise_fault(&mut text, &fault)?,
        Err(NoTrials::Unfit(unfit)) => push_unfit(&mut text, &unfit)?,
        Err(NoTrials::Memory) => return Err(AllocError),
    }
    Ok(text)
}

fn change(alloc: Global, text: &str, old: &str, new: &str) -> Result<String, Fail> {
    let text = text.replace(alloc, old, new)?;
    Ok(text.replace(alloc, "~", "\n")?)
}

#[test]
fn submissions_are_told_in_words(rt: HostRuntime) -> Result<(), Fail> {
    let alloc = rt.alloc();
    for row in SUBMISSIONS.lines() {
        let (old, rest) = row.split_once(" => ").expect(&rt, row);
        let (new, wanted) = rest.split_once(" => ").expect(&rt, row);
        let submission = change(alloc, GOOD, old, new)?;
        let found = said(alloc, SUMS.as_bytes(), submission.as_bytes())?;
        let found = from_utf8(found.as_slice())?;
        let is_said = found == wanted;
        assert!(rt; is_said, "{row} but {found}");
    }
    Ok(())
}

#[test]
fn of_hidden_inputs_the_kind_is_told(rt: HostRuntime) -> Result<(), Fail> {
    let alloc = rt.alloc();
    let exercise = SUMS.replace(alloc, "input n=4", "hidden n=4")?;
    for row in HIDDEN.lines() {
        let (old, rest) = row.split_once(" => ").expect(&rt, row);
        let (new, wanted) = rest.split_once(" => ").expect(&rt, row);
        let submission = change(alloc, GOOD, old, new)?;
        let found = said(alloc, exercise.as_bytes(), submission.as_bytes())?;
        let found = from_utf8(found.as_slice())?;
        let is_said = found == wanted;
        assert!(rt; is_said, "{row} but {found}");
    }
    Ok(())
}

#[test]
fn submissions_have_fields(rt: HostRuntime) -> Result<(), Fail> {
    let alloc = rt.alloc();
    let Ok(trials) = trials_in(alloc, SUMS.as_bytes()) else {
        return Ok(assert!(rt; false));
    };
    let good = change(alloc, GOOD, "~", "\n")?;
    let right = said_of(alloc, trials.as_slice(), good.as_bytes())?;
    assert!(rt; right.passed && right.input.is_empty() && right.what.is_empty());
    assert!(rt; right.status() == 0 && right.yes_or_no() == b"yes".as_slice());
    let bad = change(alloc, GOOD, "A[i] + x", "A[i] + x + k")?;
    let wrong = said_of(alloc, trials.as_slice(), bad.as_bytes())?;
    assert!(rt; wrong.status() == NOT_PASSED && wrong.yes_or_no() == b"no".as_slice());
    assert!(rt; wrong.input.as_slice() == b"1".as_slice());
    Ok(())
}

#[test]
fn exercises_are_told_in_words(rt: HostRuntime) -> Result<(), Fail> {
    let alloc = rt.alloc();
    let submission = change(alloc, GOOD, "~", "\n")?;
    for row in EXERCISES.lines() {
        let (old, rest) = row.split_once(" => ").expect(&rt, row);
        let (new, wanted) = rest.split_once(" => ").expect(&rt, row);
        let exercise = change(alloc, SUMS, old, new)?;
        let found = said(alloc, exercise.as_bytes(), submission.as_bytes())?;
        let found = from_utf8(found.as_slice())?;
        let is_said = found == wanted;
        assert!(rt; is_said, "{row} but {found}");
    }
    Ok(())
}

#[test]
fn faults_of_a_run_are_told_in_words(rt: HostRuntime) -> Result<(), Fail> {
    let alloc = rt.alloc();
    let Ok(trials) = trials_in(alloc, SUMS.as_bytes()) else {
        return Ok(assert!(rt; false));
    };
    let Some(trial) = trials.as_slice().first() else {
        return Ok(assert!(rt; false));
    };
    let endless = Refusal::Job(JobFault {
        line: 8,
        kind: JobKind::Endless,
    });
    let mut text = Vec::new(alloc);
    push_wrong(
        &mut text,
        &Wrong::Program(endless),
        false,
        trial,
        GOOD.as_bytes(),
    )?;
    push_wrong(&mut text, &Wrong::Memory, false, trial, GOOD.as_bytes())?;
    let told = from_utf8(text.as_slice())?;
    let sentence = "line 8: the program is still here after 1,048,576 steps, or 2^30 in all";
    assert!(rt; told.strip_prefix(sentence) == Some("out of memory"));
    Ok(())
}

#[test]
fn faults_without_a_text_are_told_in_words(rt: HostRuntime) -> Result<(), Fail> {
    let alloc = rt.alloc();
    let mut text = Vec::new(alloc);
    let unanswered = ExerciseFault {
        line: 3,
        kind: ExerciseKind::NoAnswer,
    };
    push_exercise_fault(&mut text, &unanswered)?;
    text.push(b'|')?;
    let memory = ExerciseFault {
        line: 0,
        kind: ExerciseKind::Memory,
    };
    push_exercise_fault(&mut text, &memory)?;
    text.push(b'|')?;
    let unfit = Unfit {
        line: 9,
        kind: UnfitKind::Memory,
    };
    push_unfit(&mut text, &unfit)?;
    let told = from_utf8(text.as_slice())?;
    let wanted = "line 3: the input does not say what is wanted, and there is no reference\
                  |out of memory|out of memory";
    assert!(rt; told == wanted);
    Ok(())
}

#[test]
fn what_cannot_be_printed_is_shown(rt: HostRuntime) -> Result<(), Fail> {
    let alloc = rt.alloc();
    let mut text = Vec::new(alloc);
    let word = Vec::from_slice(alloc, b"\n\xc8A\x7f=5")?;
    let kind = UnfitKind::Unknown(word);
    push_unfit(&mut text, &Unfit { line: 7, kind })?;
    let told = from_utf8(text.as_slice())?;
    assert!(rt; told == "line 7: nothing is named ??A?");
    Ok(())
}
