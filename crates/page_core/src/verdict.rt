//! What is said of a submission, in numbers and bytes.
ghost use Rattle.std.specs.Prelude.{◌≡◌, ◌++◌, length};
ghost use Rattle.page_core.specs.declared.exercise_codes.TheConstants.{FAILED as failed_code};
ghost use Rattle.page_core.specs.declared.exercise_codes.TheConstants.{PASSED as passed_code};
ghost use Rattle.page_core.specs.Submissions.{IsFailed, IsMet};
ghost use Rattle.page_core.specs.Put.{IsTailKept};
ghost use Rattle.page_core.specs.Verdicts.{IsFindingPut, IsVerdictTold, bar_code, finding_text};
ghost use Rattle.page_core.specs.Verdicts.{finding_told, of_code, refusal_code, refusal_line};
ghost use Rattle.page_core.specs.Verdicts.{unfit_told, verdict_bytes};
ghost use Rattle.page_core.specs.Verdicts.{code_of_fault, part_fault, sharing_code};
ghost use Rattle.page_core.specs.Verdicts.{text_shown, unfit_text, wrong_shown, wrong_text};
ghost use Rattle.page_core.specs.Verdicts.{wrong_told};

use crate::codes::{MEMORY, NO_ROOM, TEXT_TOO_LONG};
use crate::cost::number_of_model;
use crate::entries::NoExercise;
use crate::exercise_codes::{FAILED, NO_EXERCISE, PASSED, UNFIT};
use crate::program::{number_of_job_kind, number_of_text_kind};
use crate::submission::{Finding, found};
use exercise_judge::{Bar, ExerciseKind, Unfit, UnfitKind, Verdict, Wrong};
use pardo_job::Refusal;
use pardo_text::PardoFault;
use pram_cost::Sharing;
use std::alloc::Global;

/// What is said of a submission. Where it fails, `input` is the number of the input, from 1, `kind`
/// is what is wrong, 1 to 8 in the order of `Wrong`, and `bytes` is the length of its text: the
/// line that is missing, a place, or a name. A fault is that of a program, in line `line`; a bar is
/// told by the number of its key, and models as `needs` of a cost; `sharing` is 0 to 2 in the order
/// of `Sharing`; `first` is a processor that is gone; a length is `took`, and `most` is wanted. Of
/// a hidden input, where `hidden` is 1, only kind, line, fault, bar, models and `sharing` are told.
/// Where the exercise cannot be judged by, `kind` is 1 to 7 in the order of `UnfitKind`, `line` is
/// that of the input, `within` that of the part with the fault, and the text is the unknown word.
#[repr(C)]
#[derive(Clone, Copy)]
pub struct VerdictTold {
    pub line: u64,
    pub within: u64,
    pub input: u64,
    pub bytes: u64,
    pub took: u64,
    pub most: u64,
    pub code: u32,
    pub kind: u32,
    pub fault: u32,
    pub bar: u32,
    pub held: u32,
    pub wanted: u32,
    pub first: u32,
    pub second: u32,
    pub needs: u32,
    pub allowed: u32,
    pub sharing: u32,
    pub hidden: u32,
}

/// Judges a submission to an exercise: passed only where it meets all inputs, failed only where it
/// meets those before this one. A text goes to the front of the buffer.
pub fn verdict(alloc: Global, exercise: &[u8], submission: &[u8], words: &mut [u8]) -> VerdictTold
    ensures passed { result.code ≡ passed_code → IsMet exercise.now submission.now }
    ensures failed { result.code ≡ failed_code →
        IsFailed exercise.now submission.now result.input }
    ensures told { IsVerdictTold exercise.now submission.now words.old words.new result }
    ensures words { IsTailKept (verdict_bytes result) words.old words.new }
{
    let finding = found(alloc, exercise, submission);
    put_finding(&finding, words)
}

fn put_finding(finding: &Finding, words: &mut [u8]) -> VerdictTold
    ensures told { IsFindingPut finding.now words.old words.new result }
    ensures words { IsTailKept (verdict_bytes result) words.old words.new }
{
    let text = finding_text(finding);
    let count = text.len();
    if count > words.len() {
        return VerdictTold {
            bytes: count as u64,
            ..of_code(NO_ROOM)
        };
    }
    words[..count].copy_from_slice(text);
    tell_finding(finding)
}

fn finding_text(finding: &Finding) -> &[u8]
    ensures { result.now ≡ finding_text finding.now }
{
    match finding {
        Finding::Judged(Verdict::Failed { hidden, wrong, .. }) => text_shown(*hidden, wrong),
        Finding::Unfit(unfit) => unfit_text(&unfit.kind),
        _ => b"",
    }
}

fn wrong_text(wrong: &Wrong) -> &[u8]
    ensures { result.now ≡ wrong_text wrong.now }
{
    match wrong {
        Wrong::Missing(line) => line.as_slice(),
        Wrong::Conflict { place, .. } => place.as_slice(),
        Wrong::Value { place, .. } => place.as_slice(),
        Wrong::Model { place, .. } => place.as_slice(),
        Wrong::Places { name, .. } => name.as_slice(),
        _ => b"",
    }
}

fn unfit_text(kind: &UnfitKind) -> &[u8]
    ensures { result.now ≡ unfit_text kind.now }
{
    match kind {
        UnfitKind::Unknown(word) => word.as_slice(),
        _ => b"",
    }
}

fn of_code(code: u32) -> VerdictTold
    ensures { result ≡ of_code code }
{
    VerdictTold {
        line: 0,
        within: 0,
        input: 0,
        bytes: 0,
        took: 0,
        most: 0,
        code,
        kind: 0,
        fault: 0,
        bar: 0,
        held: 0,
        wanted: 0,
        first: 0,
        second: 0,
        needs: 0,
        allowed: 0,
        sharing: 0,
        hidden: 0,
    }
}

fn tell_finding(finding: &Finding) -> VerdictTold
    ensures { result ≡ finding_told finding.now }
{
    match finding {
        Finding::NoExercise(NoExercise::TextTooLong) => of_code(TEXT_TOO_LONG),
        Finding::NoExercise(NoExercise::Bad(fault)) => of_code(code_of_fault(fault.kind)),
        Finding::TextTooLong => of_code(TEXT_TOO_LONG),
        Finding::Unfit(unfit) => tell_unfit(unfit),
        Finding::Judged(Verdict::Passed) => of_code(PASSED),
        Finding::Judged(
            Verdict::Failed {
                input,
                hidden,
                wrong,
            },
        ) => VerdictTold {
            input: *input as u64,
            bytes: text_shown(*hidden, wrong).len() as u64,
            ..wrong_shown(*hidden, wrong)
        },
    }
}

// Under a hidden input only the kind of what is wrong, and its line.
fn wrong_shown(hidden: bool, wrong: &Wrong) -> VerdictTold
    ensures { result ≡ wrong_shown hidden wrong.now }
{
    let told = tell_wrong(wrong);
    if !hidden {
        return told;
    }
    VerdictTold {
        took: 0,
        most: 0,
        held: 0,
        wanted: 0,
        first: 0,
        second: 0,
        hidden: 1,
        ..told
    }
}

fn text_shown(hidden: bool, wrong: &Wrong) -> &[u8]
    ensures { result.now ≡ text_shown hidden wrong.now }
{
    if hidden { b"" } else { wrong_text(wrong) }
}

// What is wrong with a submission; out of memory is a code of its own.
fn tell_wrong(wrong: &Wrong) -> VerdictTold
    ensures { result ≡ wrong_told wrong.now }
{
    match wrong {
        Wrong::Missing(_) => VerdictTold {
            kind: 1,
            ..of_code(FAILED)
        },
        Wrong::Program(refusal) => VerdictTold {
            kind: 2,
            fault: number_of_refusal(*refusal),
            line: line_of_refusal(*refusal),
            ..of_code(FAILED)
        },
        Wrong::Conflict {
            line,
            first,
            second,
            ..
        } => VerdictTold {
            kind: 3,
            line: *line,
            first: *first,
            second: *second,
            ..of_code(FAILED)
        },
        Wrong::Value { held, wanted, .. } => VerdictTold {
            kind: 4,
            held: *held,
            wanted: *wanted,
            ..of_code(FAILED)
        },
        Wrong::Bar { bar, took, most } => VerdictTold {
            kind: 5,
            bar: number_of_bar(*bar),
            took: *took,
            most: *most,
            ..of_code(FAILED)
        },
        Wrong::Model {
            needs,
            allowed,
            sharing,
            line,
            first,
            second,
            ..
        } => VerdictTold {
            kind: 6,
            needs: number_of_model(*needs),
            allowed: number_of_model(*allowed),
            sharing: number_of_sharing(*sharing),
            line: *line,
            first: *first,
            second: *second,
            ..of_code(FAILED)
        },
        Wrong::Gone { processor, line } => VerdictTold {
            kind: 7,
            first: *processor,
            line: *line,
            ..of_code(FAILED)
        },
        Wrong::Places { has, wanted, .. } => VerdictTold {
            kind: 8,
            took: *has,
            most: *wanted,
            ..of_code(FAILED)
        },
        Wrong::Memory => of_code(MEMORY),
    }
}

fn code_of_fault(kind: ExerciseKind) -> u32
    ensures { result ≡ code_of_fault kind }
{
    if kind == ExerciseKind::Memory {
        MEMORY
    } else {
        NO_EXERCISE
    }
}

// Why an exercise cannot be judged by; out of memory is a code of its own.
fn tell_unfit(unfit: &Unfit) -> VerdictTold
    ensures { result ≡ unfit_told unfit.now.line unfit.now.kind }
{
    let line = unfit.line;
    match &unfit.kind {
        UnfitKind::Given(fault) => VerdictTold {
            kind: 1,
            ..part_fault(line, *fault)
        },
        UnfitKind::Answer(fault) => VerdictTold {
            kind: 2,
            ..part_fault(line, *fault)
        },
        UnfitKind::Bar(fault) => VerdictTold {
            kind: 3,
            ..part_fault(line, *fault)
        },
        UnfitKind::Reference(refusal) => VerdictTold {
            kind: 4,
            line,
            fault: number_of_refusal(*refusal),
            within: line_of_refusal(*refusal),
            ..of_code(UNFIT)
        },
        UnfitKind::Conflict => VerdictTold {
            kind: 5,
            line,
            ..of_code(UNFIT)
        },
        UnfitKind::Unknown(word) => VerdictTold {
            kind: 6,
            line,
            bytes: word.len() as u64,
            ..of_code(UNFIT)
        },
        UnfitKind::Contradiction => VerdictTold {
            kind: 7,
            line,
            ..of_code(UNFIT)
        },
        UnfitKind::Memory => of_code(MEMORY),
    }
}

fn part_fault(line: u64, fault: PardoFault) -> VerdictTold
    ensures { result ≡ part_fault line fault }
{
    VerdictTold {
        line,
        fault: number_of_text_kind(fault.kind),
        within: fault.line,
        ..of_code(UNFIT)
    }
}

fn number_of_refusal(refusal: Refusal) -> u32
    ensures { result ≡ refusal_code refusal }
{
    match refusal {
        Refusal::Text(fault) => number_of_text_kind(fault.kind),
        Refusal::Job(fault) => number_of_job_kind(fault.kind),
    }
}

fn line_of_refusal(refusal: Refusal) -> u64
    ensures { result ≡ refusal_line refusal }
{
    match refusal {
        Refusal::Text(fault) => fault.line,
        Refusal::Job(fault) => fault.line,
    }
}

fn number_of_sharing(sharing: Sharing) -> u32
    ensures { result ≡ sharing_code sharing }
{
    match sharing {
        Sharing::SameRead => 0,
        Sharing::SameWrite => 1,
        Sharing::OtherValue => 2,
    }
}

// The number of the key of a bar.
fn number_of_bar(bar: Bar) -> u32
    ensures { result ≡ bar_code bar }
{
    match bar {
        Bar::Time => 5,
        Bar::Operations => 6,
        Bar::Steps => 7,
        Bar::Lines => 8,
    }
}
