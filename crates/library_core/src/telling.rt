//! How a call ends: items at the front of a buffer, or why there are none.
ghost use Rattle.std.specs.Prelude.{◌≡◌, ◌⊎◌};
ghost use Rattle.library_core.specs.Answers.{IsFilled, front_of};
ghost use Rattle.library_core.specs.Calls.{IsCall, IsEndingStatus, RefusesOrNot};
ghost use Rattle.library_core.specs.Faults.{IsColumn, line_told, status_of_call_fault, subject_of};
ghost use Rattle.library_core.specs.Telling.{AreThese, IsNever, IsRequest, IsThisOrMemory};
ghost use Rattle.library_core.specs.declared.fault.CallFault.TheVariants.{Command};

use crate::answer::{ANSWER_SIZE, Answer, NOTHING, Told, fill};
use crate::fault::{CallFault, diagnosis_of, kind_of};
use crate::request::RequestFault;
use pardo_explain::Diagnosis;
use refusals::{CommandFault, FAILED};
use std::alloc::{AllocError, Global};

/// Ends a call that was done with these items, and gives its status.
pub fn show<T: Copy>(items: &[T], status: u8, buffer: &mut [T], answer: &mut Answer) -> u32
    requires { IsEndingStatus status }
    ensures { IsCall (AreThese items.now status) IsNever buffer.old buffer.new answer.old answer.new
        result }
{
    if answer.size != ANSWER_SIZE {
        return u32::from(FAILED);
    }
    put_front(items, buffer);
    let told = Told {
        subject: NOTHING,
        length: items.len() as u64,
        line: 0,
        column: 0,
        kind: b"",
        sentence: b"",
    };
    fill(&told, answer);
    u32::from(status)
}

/// Ends a call whose request is wrong, and gives its status.
pub fn refuse_request(fault: RequestFault, answer: &mut Answer) -> u32
    ensures ending { ¬ IsEndingStatus result }
    ensures refused { RefusesOrNot (IsRequest fault) answer.old answer.new result }
{
    if answer.size != ANSWER_SIZE {
        return u32::from(FAILED);
    }
    tell(CallFault::Request(fault), b"", None, answer)
}

/// Ends a call of what was not done, and gives its status. Where there is no memory to tell why,
/// that is told. A text that is refused is read again.
pub fn refuse(alloc: Global, fault: CommandFault, text: &[u8], answer: &mut Answer) -> u32
    ensures ending { ¬ IsEndingStatus result }
    ensures refused { RefusesOrNot (IsThisOrMemory (Command fault)) answer.old answer.new result }
{
    refuse_fault(alloc, CallFault::Command(fault), text, answer)
}

/// Does that of any fault.
pub(crate) fn refuse_fault(alloc: Global, fault: CallFault, text: &[u8], answer: &mut Answer) -> u32
    ensures ending { ¬ IsEndingStatus result }
    ensures refused { RefusesOrNot (IsThisOrMemory fault) answer.old answer.new result }
{
    if answer.size != ANSWER_SIZE {
        return u32::from(FAILED);
    }
    match explained(alloc, fault, text) {
        Ok((kind, found)) => tell(fault, kind.as_bytes(), found.as_ref(), answer),
        Err(AllocError) => tell(CallFault::Command(CommandFault::Memory), b"", None, answer),
    }
}

// The kind, and where a text is wrong.
fn explained(
    alloc: Global,
    fault: CallFault,
    text: &[u8],
) -> Result<(String, Option<Diagnosis>), AllocError> {
    Ok((kind_of(alloc, fault)?, diagnosis_of(alloc, fault, text)?))
}

/// Tells a fault, its kind and where it was found, and gives the status.
pub(crate) fn tell(
    fault: CallFault,
    kind: &[u8],
    found: Option<&Diagnosis>,
    answer: &mut Answer,
) -> u32
    ensures status { result ≡ status_of_call_fault fault }
    ensures ending { ¬ IsEndingStatus result }
    ensures placed { IsColumn fault answer.new.column }
    ensures told { IsFilled (subject_of fault) 0 (line_told fault) answer.old answer.new }
{
    let told = Told {
        subject: fault.subject(),
        length: 0,
        line: fault.line(),
        column: column_told(fault, found),
        kind,
        sentence: match found {
            Some(diagnosis) => diagnosis.sentence.as_slice(),
            None => fault.sentence().as_bytes(),
        },
    };
    fill(&told, answer);
    u32::from(fault.status())
}

// The column of a text that was found.
fn column_told(fault: CallFault, found: Option<&Diagnosis>) -> u32
    ensures { IsColumn fault result }
{
    match (fault, found) {
        (
            CallFault::Command(CommandFault::Program(_) | CommandFault::Text { .. }),
            Some(diagnosis),
        ) => u32::try_from(diagnosis.column).unwrap_or(0),
        _ => 0,
    }
}

/// Puts the items to the front of a buffer, as many as there is room for.
pub(crate) fn put_front<T: Copy>(items: &[T], buffer: &mut [T])
    ensures { buffer.new ≡ front_of items.now buffer.old }
{
    if items.len() > buffer.len() {
        buffer.copy_from_slice(&items[..buffer.len()]);
    } else {
        buffer[..items.len()].copy_from_slice(items);
    }
}
