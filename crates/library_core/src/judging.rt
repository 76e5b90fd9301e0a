//! A submission, judged by an exercise.
ghost use Rattle.std.specs.Prelude.{◌≡◌, ◌==◌, IfErr, IfOk, OnOk};
ghost use Rattle.std.specs.List.{position};
ghost use Rattle.std.specs.Io.KnownBytes.{Appends};
ghost use Rattle.csv.specs.Writing.{text_written};
ghost use Rattle.exercise_words.specs.Records.{HasNoTrials};
ghost use Rattle.pram_streams.specs.Records.{IsBetweenRecords};
ghost use Rattle.library_core.specs.Calls.{IsCall, IsEndingStatus, RefusesOrNot};
ghost use Rattle.library_core.specs.Judging.{IsExerciseFault, IsRecord, TellsVerdict};
ghost use Rattle.library_core.specs.Judging.{judging_fault, record_of};
ghost use Rattle.library_core.specs.Telling.{IsThisOrMemory};

use crate::answer::{ANSWER_SIZE, Answer};
use crate::fault::CallFault;
use crate::serving::Served;
use crate::telling::{show, tell};
use csv::Writer;
use exercise_judge::Trial;
use exercise_words::{
    NoTrials, Said, fault_name, push_exercise_fault, push_unfit, said_of, trials_in, unfit_name,
};
use pardo_explain::Diagnosis;
use refusals::{CommandFault, FAILED};
use std::alloc::{AllocError, Global};
use std::io::Write;

/// Puts the record of what is said of a submission to the front of the output, as much as there is
/// room for, and gives the status. The submission is run once at most for each input of the
/// exercise, and so is its reference, if it has one.
pub fn tell_verdict(
    alloc: Global,
    exercise: &[u8],
    submission: &[u8],
    out: &mut [u8],
    answer: &mut Answer,
) -> u32
    ensures { IsCall (TellsVerdict exercise.now submission.now) (IsExerciseFault exercise.now)
        out.old out.new answer.old answer.new result }
{
    match judged(alloc, exercise, submission) {
        Ok(served) => show(served.bytes.as_slice(), served.status, out, answer),
        Err(why) => refuse_unjudged(alloc, &why, answer),
    }
}

// The record of a submission, and the status; or why it was not judged.
fn judged(alloc: Global, exercise: &[u8], submission: &[u8]) -> Result<Served, NoTrials>
    ensures told { IfOk result (λ served. TellsVerdict exercise.now submission.now
        served.bytes.items served.status) }
    ensures ending { IfOk result (λ served. IsEndingStatus served.status) }
    ensures why { IfErr result (HasNoTrials exercise.now) }
{
    let trials = trials_in(alloc, exercise)?;
    match record_of(alloc, trials.as_slice(), submission) {
        Ok(served) => Ok(served),
        Err(AllocError) => Err(NoTrials::Memory),
    }
}

// The record of a submission, and the status.
fn record_of(alloc: Global, trials: &[Trial], submission: &[u8]) -> Result<Served, AllocError>
    ensures told { IfOk result (λ served. IsRecord trials.now submission.now served.bytes.items
        served.status) }
    ensures ending { IfOk result (λ served. IsEndingStatus served.status) }
{
    let said = said_of(alloc, trials, submission)?;
    let mut writer = Writer::from_writer(Vec::new(alloc));
    write_record(&mut writer, &said)?;
    match writer.into_inner() {
        Ok(bytes) => Ok(Served {
            bytes,
            status: said.status(),
        }),
        Err(_) => Err(AllocError),
    }
}

// The csv writer puts quotes where what is wrong has some, or a comma.
fn write_record<W: Write + Drop>(writer: &mut Writer<W>, said: &Said) -> Result<(), AllocError>
    requires { IsBetweenRecords writer.old }
    ensures { OnOk result (Appends (text_written W.contents writer.old)
        (text_written W.contents writer.new) (record_of said.now)) }
{
    let fields = [
        said.yes_or_no(),
        said.input.as_slice(),
        said.what.as_slice(),
    ];
    match writer.write_fields(&fields) {
        Ok(()) => Ok(()),
        Err(_) => Err(AllocError),
    }
}

// Ends a call that judged nothing, and gives its status.
fn refuse_unjudged(alloc: Global, why: &NoTrials, answer: &mut Answer) -> u32
    ensures ending { ¬ IsEndingStatus result }
    ensures refused { RefusesOrNot (IsThisOrMemory (judging_fault why.now)) answer.old answer.new
        result }
{
    if answer.size != ANSWER_SIZE {
        return u32::from(FAILED);
    }
    let fault = fault_of(why);
    match found_in(alloc, why) {
        Ok(found) => tell(fault, kind_of(why).as_bytes(), found.as_ref(), answer),
        Err(AllocError) => tell(CallFault::Command(CommandFault::Memory), b"", None, answer),
    }
}

fn fault_of(why: &NoTrials) -> CallFault
    ensures { result ≡ judging_fault why.now }
{
    match why {
        NoTrials::Fault(fault) => CallFault::Exercise(*fault),
        NoTrials::Unfit(unfit) => CallFault::Unfit(unfit.line),
        NoTrials::Memory => CallFault::Command(CommandFault::Memory),
    }
}

fn kind_of(why: &NoTrials) -> &'static str {
    match why {
        NoTrials::Fault(fault) => fault_name(fault.kind),
        NoTrials::Unfit(unfit) => unfit_name(&unfit.kind),
        NoTrials::Memory => "",
    }
}

// What is wrong with an exercise, in a sentence.
fn found_in(alloc: Global, why: &NoTrials) -> Result<Option<Diagnosis>, AllocError> {
    let mut words = Vec::new(alloc);
    match why {
        NoTrials::Fault(fault) => push_exercise_fault(&mut words, fault)?,
        NoTrials::Unfit(unfit) => push_unfit(&mut words, unfit)?,
        NoTrials::Memory => return Ok(None),
    }
    Ok(Some(Diagnosis {
        line: 0,
        column: 0,
        sentence: Vec::from_slice(alloc, behind_line(words.as_slice()))?,
        shown: Vec::new(alloc),
        margin: Vec::new(alloc),
    }))
}

// What is said behind the line, which is told beside it.
fn behind_line(words: &[u8]) -> &[u8] {
    match words.split_at(colon_in(words).unwrap_or(words.len())).1 {
        [b':', b' ', sentence @ ..] => sentence,
        _ => words,
    }
}

// Where the first `:` stands.
fn colon_in(words: &[u8]) -> Option<usize>
    ensures { result ≡ position (λ byte. byte == 58) words.now }
{
    words.iter().position(|&byte| byte == b':')
}
