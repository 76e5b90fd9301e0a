//! The exit statuses, and what standard error tells of a line that was not done.
ghost use Rattle.std.specs.Prelude.{◌≡◌, ◌≢◌, ◌⊎◌, codes, false, true};
ghost use Rattle.std.specs.Io.KnownBytes.{Appends};
ghost use Rattle.refusals.specs.Refusals.{TakesTold, refusal_status, refusal_text};

use pardo_job::{JobFault, Refusal as ProgramRefusal};
use pardo_text::{PardoFault, SetKind};
use pram_streams::{Sink, put};
use pram_text::TextKind;
use std::alloc::{AllocError, Global};
use std::fmt;
use stop_plan::PlanKind;

/// The line was done, or help was asked for.
pub const DONE: u8 = 0;

/// The job ended in a conflict.
pub const CONFLICT: u8 = 1;

/// The job, its plan, a cell or a place to be watched, or a step to be shown is refused.
pub const REFUSED: u8 = 2;

/// The workers stopped before the job's end.
pub const UNFINISHED: u8 = 3;

/// The words make no line, or a file or the output failed.
pub const FAILED: u8 = 4;

/// Memory ran out.
pub const MEMORY: u8 = 5;

/// What is told where the program is out of memory, and needs none.
const MEMORY_LINE: &str = "memory\n";

/// Why a line was not done, as standard error tells it.
#[derive(Clone, Copy, Debug)]
pub enum Refusal<'a> {
    /// A line of the text is bad.
    Text { line: u64, kind: TextKind },
    /// A program is refused.
    Program(ProgramRefusal),
    /// A record of the plan is bad.
    Plan { row: u64, kind: PlanKind },
    /// The job has no such cell.
    Cell(u32),
    /// The program has no such place.
    Place(&'a str),
    /// The job has no such step.
    Step(u32),
    /// A name cannot be set so.
    Setting { name: &'a str, kind: SetKind },
    /// The file failed.
    File(&'a str),
    /// The output failed.
    Output,
    /// The file is too large.
    Size(&'a str),
    /// Memory ran out.
    Memory,
    /// A word is not UTF-8.
    Word,
}

impl Refusal<'_> {
    fn status(self) -> u8
        ensures { result ≡ refusal_status self.entry }
    {
        match self {
            Refusal::Text { .. } | Refusal::Program(_) | Refusal::Plan { .. } => REFUSED,
            Refusal::Cell(_) | Refusal::Place(_) | Refusal::Step(_) => REFUSED,
            Refusal::Setting { .. } => REFUSED,
            Refusal::Memory => MEMORY,
            Refusal::File(_) | Refusal::Output | Refusal::Size(_) | Refusal::Word => FAILED,
        }
    }
}

impl fmt::Display for Refusal<'_> {
    ghost output = { refusal_text };

    fn fmt<W: fmt::Write>(&self, f: &mut fmt::Formatter<W>) -> fmt::Result {
        match self {
            Refusal::Text { line, kind } => writeln!(f, "text line={line} kind={kind:?}"),
            Refusal::Program(ProgramRefusal::Text(PardoFault { line, kind })) => {
                writeln!(f, "text line={line} kind={kind:?}")
            }
            Refusal::Program(ProgramRefusal::Job(JobFault { line, kind })) => {
                writeln!(f, "text line={line} kind={kind:?}")
            }
            Refusal::Plan { row, kind } => writeln!(f, "plan row={row} kind={kind:?}"),
            Refusal::Cell(cell) => writeln!(f, "watch cell={cell}"),
            Refusal::Place(place) => writeln!(f, "watch place={place}"),
            Refusal::Step(step) => writeln!(f, "steps step={step}"),
            Refusal::Setting { name, kind } => writeln!(f, "set name={name} kind={kind:?}"),
            Refusal::File(name) => writeln!(f, "file {name}"),
            Refusal::Output => writeln!(f, "file -"),
            Refusal::Size(name) => writeln!(f, "size {name}"),
            Refusal::Memory => write!(f, "{MEMORY_LINE}"),
            Refusal::Word => writeln!(f, "error: a word of the line is not UTF-8"),
        }
    }
}

/// Tells a refusal, and gives its status. Where there is no memory to tell it, it tells that.
pub fn tell<E: Sink>(alloc: Global, refusal: Refusal<'_>, err: &mut E) -> u8
    requires { E.has_failed err.old ≡ false }
    ensures status { (result ≡ MEMORY) ⊎ (result ≡ refusal_status refusal.entry) }

    // Where the sink does not fail, it took the refusal, or that there is no memory.
    ensures told { E.has_failed err.new ≡ false → result ≢ MEMORY
        → TakesTold refusal.entry (E.taken err.old) (E.taken err.new) }
    ensures memory { E.has_failed err.new ≡ false → result ≡ MEMORY
        → Appends (E.taken err.old) (E.taken err.new) (codes "memory\n") }
{
    tell_first(alloc, refusal, err).0
}

/// Tells a refusal, and gives its status and whether standard error takes more. Where there is no
/// memory to tell it, it tells that.
pub(crate) fn tell_first<E: Sink>(alloc: Global, refusal: Refusal<'_>, err: &mut E) -> (u8, bool)
    requires { E.has_failed err.old ≡ false }
    ensures status { (result.0 ≡ MEMORY) ⊎ (result.0 ≡ refusal_status refusal.entry) }
    ensures told { E.has_failed err.new ≡ false → result.0 ≢ MEMORY
        → TakesTold refusal.entry (E.taken err.old) (E.taken err.new) }
    ensures memory { E.has_failed err.new ≡ false → result.0 ≡ MEMORY
        → Appends (E.taken err.old) (E.taken err.new) (codes "memory\n") }
    ensures takes { result.1 ≡ true → E.has_failed err.new ≡ false }
{
    match format!(in alloc; "{refusal}") {
        Ok(text) => {
            let put = put(err, text.as_bytes());
            (refusal.status(), put.is_ok())
        }
        Err(AllocError) => {
            let put = put(err, MEMORY_LINE.as_bytes());
            (MEMORY, put.is_ok())
        }
    }
}
