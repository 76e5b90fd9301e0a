//! Submissions, judged by an exercise.
ghost use Rattle.std.specs.Prelude.{◌≡◌, ◌⊎◌, ℕ, List, [], IfErr, IfOk, OnOk, false, map};
ghost use Rattle.std.specs.Io.KnownBytes.{Appends};
ghost use Rattle.csv.specs.Writing.{text_written};
ghost use Rattle.exercise_words.specs.Records.{AreRecords, AreRecorded, IsSaidOf};
ghost use Rattle.exercise_words.specs.Records.{header_and_records};
ghost use Rattle.exercise_words.specs.Records.{file_record};
ghost use Rattle.naming.specs.Writing.{writing};
ghost use Rattle.pram_streams.specs.Records.{IsBetweenRecords};
ghost use Rattle.refusals.specs.declared.refusal.TheConstants.{MEMORY};
ghost use Rattle.command_answers.specs.Judging.{AnswersJudging, ByExercise, reason_status};
ghost use Rattle.command_answers.specs.Judging.{unjudged_status};
ghost use Rattle.command_answers.specs.Setting.{FileGives};

use crate::setting::taken;
use crate::sweep::{Records, greater, print_records};
use command_line::Judging;
use csv::Writer;
use exercise_judge::{ExerciseFault, Trial, Unfit};
use exercise_words::{
    NoTrials, Said, fault_name, push_exercise_fault, push_unfit, said_of, trials_in, unfit_name,
};
use pram_commands::{Console, DONE, Folder, REFUSED, Refusal, Unset, tell, tell_unset};
use pram_streams::{Reason, Sink, put};
use std::alloc::{AllocError, Global};
use std::io::Write;

/// Why no submission was judged.
#[derive(Drop)]
pub(crate) enum Unjudged<'a> {
    /// The exercise's file failed, or memory ran out.
    Unset(Unset<'a>),
    /// The text gives no trials.
    Exercise(NoTrials),
}

impl<'a> From<AllocError> for Unjudged<'a> {
    ghost use Rattle.std.specs.Prelude.{◌≡◌};
    ghost use Rattle.pram_streams.specs.declared.device.Reason.TheVariants.{Unknown};
    ghost use Rattle.refusals.specs.declared.refusal.Refusal.TheVariants.{Memory};
    ghost use Rattle.command_answers.specs.declared.judging.Unjudged.TheVariants.{Unset};

    ghost from_gives = { λ _ made. made ≡ Unset (record { refusal = Memory; reason = Unknown }) };

    fn from(_error: AllocError) -> Unjudged<'a> {
        Unjudged::Unset(Unset {
            refusal: Refusal::Memory,
            reason: Reason::Unknown,
        })
    }
}

impl<'a> From<Unset<'a>> for Unjudged<'a> {
    ghost use Rattle.std.specs.Prelude.{◌≡◌};
    ghost use Rattle.command_answers.specs.declared.judging.Unjudged.TheVariants.{Unset};

    ghost from_gives = { λ unset made. made ≡ Unset unset };

    fn from(unset: Unset<'a>) -> Unjudged<'a> {
        Unjudged::Unset(unset)
    }
}

/// Judges submissions: all of their records are made before one is printed.
pub(crate) fn answer_judging<F: Folder, O: Sink, E: Sink>(
    alloc: Global,
    folder: &F,
    judging: &Judging<'_>,
    console: &mut Console<O, E>,
) -> u8
    requires out { O.has_failed console.old.out ≡ false }
    requires err { E.has_failed console.old.err ≡ false }
    ensures { AnswersJudging (F.holds folder.now) judging.now.exercise.now
        (map (λ file. file.now) judging.now.files.items)
        (writing O.Sink console.old.out console.new.out) result }
{
    console.explains |= judging.explain;
    match judged(alloc, folder, judging.exercise, judging.files.as_slice()) {
        Ok(records) => print_records(alloc, &records, console),
        Err(unjudged) => tell_unjudged(alloc, judging.exercise, &unjudged, console),
    }
}

// The records of submissions in files, or why there are none.
fn judged<'a, F: Folder>(
    alloc: Global,
    folder: &F,
    file: &'a str,
    files: &[&'a str],
) -> Result<Records, Unjudged<'a>>
    ensures judged { IfOk result (λ records. AreRecorded (FileGives (F.holds folder.now)) file.now
        (map (λ file. file.now) files.now) records.bytes.items records.status) }
    ensures refused { IfErr result (ByExercise (F.holds folder.now) file.now) }
{
    let text = taken(alloc, folder, file)?;
    match trials_in(alloc, text.as_slice()) {
        Ok(trials) => Ok(records_of(alloc, folder, trials.as_slice(), files)?),
        Err(reason) => Err(Unjudged::Exercise(reason)),
    }
}

// The records of these files, after a header.
fn records_of<F: Folder>(
    alloc: Global,
    folder: &F,
    trials: &[Trial],
    files: &[&str],
) -> Result<Records, AllocError>
    ensures { IfOk result (λ made. (records : List ℕ) × AreRecords (FileGives (F.holds folder.now))
        trials.now (map (λ file. file.now) files.now) records made.status
        × (made.bytes.items ≡ header_and_records records)) }
{
    let header = Vec::from_slice(alloc, b"file,passed,input,what\n")?;
    let mut writer = Writer::from_writer(header);
    let mut status = DONE;
    for &file in files {
        let said = said_of_file(alloc, folder, trials, file)?;
        write_record(&mut writer, file, &said)?;
        status = greater(status, said.status());
    }
    match writer.into_inner() {
        Ok(bytes) => Ok(Records { bytes, status }),
        Err(_) => Err(AllocError),
    }
}

// Writes the record of a file: the csv writer puts quotes where they are needed.
fn write_record<W: Write + Drop>(
    writer: &mut Writer<W>,
    file: &str,
    said: &Said,
) -> Result<(), AllocError>
    requires { IsBetweenRecords writer.old }
    ensures between { OnOk result (IsBetweenRecords writer.new) }
    ensures text { OnOk result (Appends (text_written W.contents writer.old)
        (text_written W.contents writer.new) (file_record file.now said.now)) }
{
    let fields = [
        file.as_bytes(),
        said.yes_or_no(),
        said.input.as_slice(),
        said.what.as_slice(),
    ];
    match writer.write_fields(&fields) {
        Ok(()) => Ok(()),
        Err(_) => Err(AllocError),
    }
}

// What is said of the submission in a file. One that cannot be read, or takes all memory, has not
// passed.
fn said_of_file<F: Folder>(
    alloc: Global,
    folder: &F,
    trials: &[Trial],
    file: &str,
) -> Result<Said, AllocError>
    ensures { IfOk result (IsSaidOf (FileGives (F.holds folder.now)) trials.now file.now) }
{
    match taken(alloc, folder, file) {
        Ok(submission) => match said_of(alloc, trials, submission.as_slice()) {
            Ok(said) => Ok(said),
            Err(AllocError) => { Ok(not_judged(alloc, Vec::from_slice(alloc, b"out of memory")?)) }
        },
        Err(unset) => Ok(not_judged(alloc, unread_words(alloc, &unset)?)),
    }
}

// A submission that was not judged has no input.
fn not_judged(alloc: Global, what: Vec<u8>) -> Said
    ensures passed { result.passed ≡ false }
    ensures input { result.input.items ≡ [] }
{
    Said {
        passed: false,
        input: Vec::new(alloc),
        what,
    }
}

// Why a file could not be read.
fn unread_words(alloc: Global, unset: &Unset<'_>) -> Result<Vec<u8>, AllocError> {
    let words = format!(in alloc; "{unset}")?;
    Vec::from_slice(alloc, words.as_str().trim_end().as_bytes())
}

// Tells why no submission was judged, and where it explains a sentence after that.
fn tell_unjudged<O: Sink, E: Sink>(
    alloc: Global,
    file: &str,
    unjudged: &Unjudged<'_>,
    console: &mut Console<O, E>,
) -> u8
    requires { E.has_failed console.old.err ≡ false }
    ensures status { (result ≡ MEMORY) ⊎ (result ≡ unjudged_status unjudged.now) }
    ensures out { console.new.out ≡ console.old.out }
{
    match unjudged {
        Unjudged::Unset(unset) => tell_unset(alloc, unset, console.explains, &mut console.err),
        Unjudged::Exercise(reason) => tell_reason(alloc, file, reason, console),
    }
}

// Tells why a text gives no trials.
fn tell_reason<O: Sink, E: Sink>(
    alloc: Global,
    file: &str,
    reason: &NoTrials,
    console: &mut Console<O, E>,
) -> u8
    requires { E.has_failed console.old.err ≡ false }
    ensures status { (result ≡ MEMORY) ⊎ (result ≡ reason_status reason.now) }
    ensures out { console.new.out ≡ console.old.out }
{
    let words = match reason {
        NoTrials::Fault(fault) => fault_words(alloc, file, fault, console.explains),
        NoTrials::Unfit(unfit) => unfit_words(alloc, file, unfit, console.explains),
        NoTrials::Memory => Err(AllocError),
    };
    match words {
        Ok(words) => {
            let _ = put(&mut console.err, words.as_slice());
            REFUSED
        }
        Err(AllocError) => tell(alloc, Refusal::Memory, &mut console.err),
    }
}

fn fault_words(
    alloc: Global,
    file: &str,
    fault: &ExerciseFault,
    explains: bool,
) -> Result<Vec<u8>, AllocError> {
    let mut words = line_words(alloc, fault.line, fault_name(fault.kind))?;
    if explains {
        push_file(&mut words, file)?;
        push_exercise_fault(&mut words, fault)?;
        words.push(b'\n')?;
    }
    Ok(words)
}

fn unfit_words(
    alloc: Global,
    file: &str,
    unfit: &Unfit,
    explains: bool,
) -> Result<Vec<u8>, AllocError> {
    let mut words = line_words(alloc, unfit.line, unfit_name(&unfit.kind))?;
    if explains {
        push_file(&mut words, file)?;
        push_unfit(&mut words, unfit)?;
        words.push(b'\n')?;
    }
    Ok(words)
}

// What is wrong with a line of an exercise.
fn line_words(alloc: Global, line: u64, kind: &str) -> Result<Vec<u8>, AllocError> {
    let words = format!(in alloc; "exercise line={line} kind={kind}\n")?;
    Vec::from_slice(alloc, words.as_bytes())
}

fn push_file(words: &mut Vec<u8>, file: &str) -> Result<(), AllocError> {
    words.extend_from_slice(file.as_bytes())?;
    words.extend_from_slice(b": ")
}
