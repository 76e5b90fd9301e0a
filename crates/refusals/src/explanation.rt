//! Why a line was not done, in a sentence.
ghost use Rattle.std.specs.Prelude.{◌≡◌, codes, false, IfOk};
ghost use Rattle.std.specs.Io.KnownBytes.{Appends};
ghost use Rattle.pardo_explain.specs.Diagnoses.{diagnosis_text};
ghost use Rattle.refusals.specs.declared.fault.CommandFault.TheVariants.{Memory};

use crate::fault::CommandFault;
use crate::sentences;
use crate::words::{begins_as_machine, start_of};
use command_data::Line;
use pardo_explain::{
    Diagnosis, Look, Wrapped, diagnose, line_at, point_at, push_diagnosis, wrapped_bound,
};
use pardo_job::{JobFault, JobKind, Refusal};
use pram_streams::{Reason, Sink, put};
use pram_text::TextKind;
use std::alloc::{AllocError, Global};
use std::fmt;

/// What explains that memory ran out, and needs none.
pub(crate) const MEMORY_SENTENCE: &str = "out of memory, or the system refused a thread\n";

/// Why the sources of a line failed, where they did.
#[derive(Clone, Copy, Debug, PartialEq, Eq)]
pub struct Reasons {
    pub job: Reason,
    pub plan: Reason,
}

/// Why a line was not done, for people; with the job's text, where it was refused and is at hand.
#[derive(Clone, Copy, Debug, PartialEq, Eq)]
pub struct Explanation<'a> {
    pub line: Line<'a>,
    pub fault: CommandFault,
    pub reasons: Reasons,
    pub text: &'a [u8],
}

impl<'a> Explanation<'a> {
    // The file that the fault is of, if it is one's.
    fn file(&self) -> Option<&'a str> {
        match self.fault {
            CommandFault::Plan { .. } | CommandFault::PlanDevice | CommandFault::PlanTooLarge => {
                Some(shown(self.line.plan.unwrap_or("")))
            }
            CommandFault::OutDevice | CommandFault::Memory => None,
            _ => Some(self.job()),
        }
    }

    fn job(&self) -> &'a str {
        shown(self.line.file)
    }

    // What part of the file it is of, if it is of one, and the number of that.
    fn place(&self) -> Option<(&'static str, u64)> {
        match self.fault {
            CommandFault::Text { line, .. } => Some(("line", line)),
            CommandFault::Program(refusal) => Some(("line", sentences::of_program(refusal).0)),
            CommandFault::Plan { row, .. } => Some(("row", row)),
            _ => None,
        }
    }

    // What is wrong; the name of what is not there follows it.
    fn sentence(&self) -> &'static str {
        match self.fault {
            CommandFault::Text { kind, .. } => sentences::of_text(kind),
            CommandFault::Program(refusal) => sentences::of_program(refusal).1,
            CommandFault::Plan { row, kind } => sentences::of_plan(row, kind),
            CommandFault::OutsideCell { .. } => "the job has no cell ",
            CommandFault::OutsidePlace { .. } => "it has no place ",
            CommandFault::OutsideStep { .. } => "the job has no step ",
            CommandFault::JobDevice => sentences::of_file(self.reasons.job),
            CommandFault::PlanDevice => sentences::of_file(self.reasons.plan),
            CommandFault::JobTooLarge | CommandFault::PlanTooLarge => sentences::TOO_LARGE,
            CommandFault::OutDevice => "standard output takes no more",
            CommandFault::Memory => "out of memory, or the system refused a thread",
        }
    }
}

impl fmt::Display for Explanation<'_> {
    fn fmt<W: fmt::Write>(&self, f: &mut fmt::Formatter<W>) -> fmt::Result {
        if let Some(file) = self.file() {
            f.write_str(file)?;
            if let Some((part, number)) = self.place() {
                write!(f, ", {part} {number}")?;
            }
            f.write_str(": ")?;
        }
        f.write_str(self.sentence())?;
        match self.fault {
            CommandFault::OutsideCell { cell: number }
            | CommandFault::OutsideStep { step: number } => { writeln!(f, "{number}") }
            CommandFault::OutsidePlace { at } => writeln!(f, "{}", self.line.ask.place(at)),
            _ => f.write_str("\n"),
        }
    }
}

/// The name of a file, as people are told it.
pub(crate) fn shown(name: &str) -> &str {
    if name == "-" { "standard input" } else { name }
}

/// Tells the sentence. Where there is no memory for it, or the sink fails, that is all; that memory
/// ran out is told without any.
pub(crate) fn explain<E: Sink>(
    alloc: Global,
    explanation: &Explanation<'_>,
    look: Look,
    err: &mut E,
)
    requires { E.has_failed err.old ≡ false }
    ensures memory { explanation.now.fault ≡ Memory → E.has_failed err.new ≡ false
        → Appends (E.taken err.old) (E.taken err.new)
        (codes "out of memory, or the system refused a thread\n") }
{
    match explanation.fault {
        CommandFault::Memory => {
            let _ = put(err, MEMORY_SENTENCE.as_bytes());
        }
        _ => tell_sentence(alloc, explanation, look, err),
    }
}

// Tells the sentence, if there is memory for it.
fn tell_sentence<E: Sink>(alloc: Global, explanation: &Explanation<'_>, look: Look, err: &mut E)
    requires { E.has_failed err.old ≡ false }
{
    let text = match diagnosis_of(alloc, explanation) {
        Ok(Some(found)) => diagnosis_told(alloc, look, explanation.job(), &found),
        Ok(None) => sentence_told(alloc, explanation),
        Err(AllocError) => Err(AllocError),
    };
    if let Ok(text) = text {
        let _ = put(err, text.as_slice());
    }
}

fn sentence_told(alloc: Global, explanation: &Explanation<'_>) -> Result<Vec<u8>, AllocError> {
    let text = format!(in alloc; "{explanation}")?;
    Vec::from_slice(alloc, text.as_bytes())
}

// What is told of where a text is wrong.
fn diagnosis_told(
    alloc: Global,
    look: Look,
    file: &str,
    found: &Diagnosis,
) -> Result<Vec<u8>, AllocError>
    ensures { IfOk result (λ text. text.items ≡ diagnosis_text look file.now found.now) }
{
    let mut text = Vec::new(alloc);
    push_diagnosis(&mut text, look, file.as_bytes(), found)?;
    Ok(text)
}

// Where the job's text is wrong, if that is the fault, and the text is at hand.
fn diagnosis_of(
    alloc: Global,
    explanation: &Explanation<'_>,
) -> Result<Option<Diagnosis>, AllocError> {
    if explanation.text.is_empty() {
        return Ok(None);
    }
    locate(alloc, explanation.fault, explanation.text)
}

// The sentence on a program that is refused; of one without an end with the bound that wraps.
fn with_cause(
    alloc: Global,
    sentence: &str,
    refusal: Refusal,
    text: &[u8],
) -> Result<String, AllocError> {
    if let Refusal::Job(
        JobFault {
            kind: JobKind::Endless,
            ..
        },
    ) = refusal
        && let Some(Wrapped { line, value }) = wrapped_bound(alloc, text)
    {
        return format!(in alloc; "{sentence}: in line {line} a bound is {value}");
    }
    String::from_str(alloc, sentence)
}

/// Where a text is wrong, if that is the fault. A text that begins neither as one of the machine
/// nor as a program is looked at as a program.
pub fn locate(
    alloc: Global,
    fault: CommandFault,
    text: &[u8],
) -> Result<Option<Diagnosis>, AllocError> {
    match fault {
        CommandFault::Program(Refusal::Text(fault)) => match diagnose(alloc, text)? {
            Some((found, diagnosis)) if found == fault => Ok(Some(diagnosis)),
            _ => Ok(None),
        },
        CommandFault::Program(refusal) => {
            let (number, sentence) = sentences::of_program(refusal);
            let line = line_at(text, number);
            let start = start_of(TextKind::BadHeader, line, text);
            let told = with_cause(alloc, sentence, refusal, text)?;
            Ok(Some(point_at(alloc, number, line, start, told.as_str())?))
        }
        CommandFault::Text { line: number, kind } => {
            if !begins_as_machine(text)
                && let Some((found, diagnosis)) = diagnose(alloc, text)?
                && found.line == number
            {
                return Ok(Some(diagnosis));
            }
            let line = line_at(text, number);
            let start = start_of(kind, line, text);
            let sentence = sentences::of_text(kind);
            Ok(Some(point_at(alloc, number, line, start, sentence)?))
        }
        _ => Ok(None),
    }
}
