//! Why a call was not done.
ghost use Rattle.std.specs.Prelude.{◌≡◌, ◌<◌};
ghost use Rattle.library_core.specs.Calls.{IsEndingStatus};
ghost use Rattle.library_core.specs.Faults.{command_line, command_subject, line_told, program_line};
ghost use Rattle.library_core.specs.Faults.{status_of_call_fault, subject_of};
ghost use Rattle.refusals.specs.Faults.{fault_status};

use crate::answer::{EXERCISE, OUT_OF_MEMORY, PLAN, PROGRAM, REQUEST, SETTING, SIZE, STEP, TEXT};
use crate::request::RequestFault;
use exercise_text::ExerciseFault;
use pardo_explain::Diagnosis;
use pardo_job::Refusal;
use pardo_text::SetKind;
use refusals::{CommandFault, FAILED, MEMORY, REFUSED, locate, sentences};
use std::alloc::{AllocError, Global};

/// A setting that is wrong, or does not fit the text: which one, counted from 1, and why.
#[derive(Clone, Copy)]
pub struct Misset {
    pub number: u64,
    pub kind: SetKind,
}

/// Why a call was not done.
#[derive(Clone, Copy)]
pub enum CallFault {
    /// Its request is wrong.
    Request(RequestFault),
    /// What it asks for was not done.
    Command(CommandFault),
    /// A name cannot be set so.
    Setting(Misset),
    /// A text is no exercise.
    Exercise(ExerciseFault),
    /// Nothing can be judged by the input in this line of an exercise.
    Unfit(u64),
}

impl CallFault {
    /// The status of a call with this fault.
    pub fn status(self) -> u8
        ensures status { result ≡ status_of_call_fault self }
        ensures ending { ¬ IsEndingStatus result }
    {
        match self {
            CallFault::Request(_) => FAILED,
            CallFault::Command(fault) => command_status(fault),
            CallFault::Setting(_) | CallFault::Exercise(_) | CallFault::Unfit(_) => REFUSED,
        }
    }

    /// What was refused.
    pub fn subject(self) -> u32
        ensures { result ≡ subject_of self }
    {
        match self {
            CallFault::Request(_) => REQUEST,
            CallFault::Command(fault) => command_subject(fault),
            CallFault::Setting(_) => SETTING,
            CallFault::Exercise(_) | CallFault::Unfit(_) => EXERCISE,
        }
    }

    /// The line of the text or of the exercise, the row of the plan, or the number of the setting,
    /// from 1; 0 where there is none.
    pub fn line(self) -> u64
        ensures { result ≡ line_told self }
    {
        match self {
            CallFault::Request(_) => 0,
            CallFault::Command(fault) => command_line(fault),
            CallFault::Setting(fault) => fault.number,
            CallFault::Exercise(fault) => fault.line,
            CallFault::Unfit(line) => line,
        }
    }

    /// What is wrong.
    pub fn sentence(self) -> &'static str {
        match self {
            CallFault::Request(fault) => request_sentence(fault),
            CallFault::Command(fault) => command_sentence(fault),
            CallFault::Setting(fault) => setting_sentence(fault.kind),
            CallFault::Exercise(_) | CallFault::Unfit(_) => "nothing can be judged by the exercise",
        }
    }
}

/// The name of what is wrong with a text, a plan or a setting, and else nothing.
pub(crate) fn kind_of(alloc: Global, fault: CallFault) -> Result<String, AllocError> {
    match fault {
        CallFault::Request(_) | CallFault::Exercise(_) | CallFault::Unfit(_) => {
            Ok(String::new(alloc))
        }
        CallFault::Command(fault) => command_kind(alloc, fault),
        CallFault::Setting(fault) => {
            let kind = fault.kind;
            format!(in alloc; "{kind:?}")
        }
    }
}

/// Where a text is wrong, if that is the fault.
pub(crate) fn diagnosis_of(
    alloc: Global,
    fault: CallFault,
    text: &[u8],
) -> Result<Option<Diagnosis>, AllocError> {
    match fault {
        CallFault::Command(fault) if !text.is_empty() => locate(alloc, fault, text),
        _ => Ok(None),
    }
}

fn command_kind(alloc: Global, fault: CommandFault) -> Result<String, AllocError> {
    match fault {
        CommandFault::Text { kind, .. } => format!(in alloc; "{kind:?}"),
        CommandFault::Program(Refusal::Text(fault)) => {
            let kind = fault.kind;
            format!(in alloc; "{kind:?}")
        }
        CommandFault::Program(Refusal::Job(fault)) => {
            let kind = fault.kind;
            format!(in alloc; "{kind:?}")
        }
        CommandFault::Plan { kind, .. } => format!(in alloc; "{kind:?}"),
        _ => Ok(String::new(alloc)),
    }
}

fn command_status(fault: CommandFault) -> u8
    ensures status { result ≡ fault_status fault }
    ensures ending { ¬ IsEndingStatus result }
{
    match fault {
        CommandFault::Text { .. } | CommandFault::Program(_) | CommandFault::Plan { .. } => REFUSED,
        CommandFault::OutsideCell { .. }
        | CommandFault::OutsidePlace { .. }
        | CommandFault::OutsideStep { .. } => REFUSED,
        CommandFault::JobDevice | CommandFault::PlanDevice | CommandFault::OutDevice => FAILED,
        CommandFault::JobTooLarge | CommandFault::PlanTooLarge => FAILED,
        CommandFault::Memory => MEMORY,
    }
}

fn command_subject(fault: CommandFault) -> u32
    ensures { result ≡ command_subject fault }
{
    match fault {
        CommandFault::Text { .. } => TEXT,
        CommandFault::Program(_) => PROGRAM,
        CommandFault::Plan { .. } => PLAN,
        CommandFault::OutsideStep { .. } => STEP,
        CommandFault::JobTooLarge | CommandFault::PlanTooLarge => SIZE,
        _ => OUT_OF_MEMORY,
    }
}

fn command_line(fault: CommandFault) -> u64
    ensures { result ≡ command_line fault }
{
    match fault {
        CommandFault::Text { line, .. } => line,
        CommandFault::Program(Refusal::Text(fault)) => fault.line,
        CommandFault::Program(Refusal::Job(fault)) => fault.line,
        CommandFault::Plan { row, .. } => row,
        _ => 0,
    }
}

fn command_sentence(fault: CommandFault) -> &'static str {
    match fault {
        CommandFault::Text { kind, .. } => sentences::of_text(kind),
        CommandFault::Program(refusal) => sentences::of_program(refusal).1,
        CommandFault::Plan { row, kind } => sentences::of_plan(row, kind),
        CommandFault::OutsideStep { .. } =>
            "the job does not have the first step that is to be shown",
        CommandFault::JobTooLarge | CommandFault::PlanTooLarge => sentences::TOO_LARGE,
        _ => "out of memory",
    }
}

fn request_sentence(fault: RequestFault) -> &'static str {
    match fault {
        RequestFault::Size => "the size of the request is not that of its struct",
        RequestFault::Reserved => "a field of the request that is reserved is not 0",
        RequestFault::Flag => "a field of the request that is 0 or 1 is neither",
        RequestFault::Window => "the last step that is to be shown comes before the first one",
        RequestFault::Workers => "there must be from 1 to 64 workers",
        RequestFault::Grain => "a leaf must have a power of two up to 64 of processors",
    }
}

fn setting_sentence(kind: SetKind) -> &'static str {
    match kind {
        SetKind::BadSetting => "a setting is NAME=V or NAME=V,V,..",
        _ => sentences::of_setting(kind),
    }
}
