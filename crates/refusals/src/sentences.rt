//! The sentences that say what is wrong with a text, a plan or a file. The playground shows those
//! on a text, too: its maker reads them here.
use pardo_job::{JobKind, Refusal};
use pardo_text::{PardoKind, SetKind};
use pram_streams::Reason;
use pram_text::TextKind;
use stop_plan::PlanKind;

/// What is wrong with a text or a plan that is not taken whole.
pub const TOO_LARGE: &str = "it has more than 67,108,864 bytes";

/// What is wrong with a line of a text.
pub fn of_text(kind: TextKind) -> &'static str {
    match kind {
        TextKind::NotAscii => "a character here is neither printable ASCII nor a tab",
        TextKind::BadHeader => "a line of the header is wrong, missing or repeated",
        TextKind::BadNumber => "a number must stand here, in digits alone",
        TextKind::OutOfLimits => "a number is outside its limits",
        TextKind::UnknownInstruction => "no instruction stands here",
        TextKind::WrongOperands => "the instruction has too few operands, or too many",
        TextKind::BadRegister => "no register stands here (r0 to r3), nor what may stand for one",
        TextKind::DuplicateLabel => "an earlier line defines this label",
        TextKind::UnknownLabel => "no line defines the label of this jump",
        TextKind::NoCode => "no instruction follows the line code",
        TextKind::TooLong => "a program has at most 4,096 instructions",
        TextKind::Memory => "there is no memory to read it",
    }
}

/// The line of a program that is wrong, and what is wrong with it.
pub fn of_program(refusal: Refusal) -> (u64, &'static str) {
    match refusal {
        Refusal::Text(fault) => (fault.line, of_program_text(fault.kind)),
        Refusal::Job(fault) => (fault.line, of_program_job(fault.kind)),
    }
}

// What is wrong with a line of a program.
fn of_program_text(kind: PardoKind) -> &'static str {
    match kind {
        PardoKind::NotAscii => "a character here is neither printable ASCII nor a tab",
        PardoKind::BadSymbol => "a character here has no meaning",
        PardoKind::BadHeader => "a line of the header is wrong, missing or repeated",
        PardoKind::BadLine => "something is missing here, left over, or in the wrong place",
        PardoKind::UnknownName => "a name here is not known",
        PardoKind::DuplicateName => "the name that is declared here is known already",
        PardoKind::WrongKind => "a name here stands for something that has no place here",
        PardoKind::OutOfLimits => "a number is outside its limits, or something is divided by 0",
        PardoKind::WrongLength => "the array gets too many values, or too few without ...",
        PardoKind::TooManyCells => "a program has at most 1,048,576 cells",
        PardoKind::BadBlock => "this else or end belongs to nothing",
        PardoKind::TooDeep => "more than 32 brackets are open",
        PardoKind::OpenBlock => "the text ends here, and a block is not closed",
        PardoKind::NoCode => "no line of code follows the line code",
        PardoKind::Memory => "there is no memory to read it",
    }
}

// Why a line of a program is not compiled.
fn of_program_job(kind: JobKind) -> &'static str {
    match kind {
        JobKind::TooDeep => "three registers are too few for an expression of a loop: use a scalar",
        JobKind::TooLong => "a program has at most 4,096 instructions",
        JobKind::Endless => "the program is still here after 1,048,576 steps, or 2^30 in all",
        JobKind::TooManyCells => "with its hidden lines a program has at most 1,048,576 cells",
        JobKind::Memory => "there is no memory to read it",
    }
}

/// Why a name is not set.
pub fn of_setting(kind: SetKind) -> &'static str {
    match kind {
        SetKind::BadSetting => "a setting is NAME=V, NAME=V,V,.. or NAME=@FILE",
        SetKind::BadNumber => "a value must be a number, in digits alone",
        SetKind::OutOfLimits => "a value is greater than 4,294,967,295",
        SetKind::DuplicateName => "the name is set twice",
        SetKind::WrongLength => "there must be as many values as places",
        SetKind::UnknownName => "the text declares no such name",
        SetKind::WrongKind => "the name is neither a constant nor shared",
        SetKind::Memory => "there is no memory to read it",
    }
}

/// What the row of a plan lacks.
pub fn of_plan(row: u64, kind: PlanKind) -> &'static str {
    match kind {
        PlanKind::BadRow if row == 1 => "the first row must be worker,act,ticks",
        PlanKind::BadRow => "a row must have three fields: a worker, an act and ticks",
        PlanKind::BadWorker => "the first field must be the number of a worker, from 0",
        PlanKind::BadAct => "the second field must be go, sleep, back or stop",
        PlanKind::BadNumber =>
            "the third field must be a number up to 4,294,967,295, and 0 after back and stop",
        PlanKind::AfterStop => "an earlier row stops this worker",
        PlanKind::Memory => "there is no memory to read it",
    }
}

/// Why a file was not read.
pub fn of_file(reason: Reason) -> &'static str {
    match reason {
        Reason::Missing => "there is no such file",
        Reason::Folder => "it is a folder",
        Reason::Denied => "there is no permission to read it",
        Reason::Unknown => "it cannot be read",
    }
}
