//! Programs of `pardo`: why a text is none, the text of a program's job with the lines that its
//! instructions came from, and the program's lines of code.
ghost use Rattle.std.specs.Prelude.{◌≡◌, [], IfErr, IfOk, map, slice_index, string_bytes};
ghost use Rattle.pram_text.specs.Text.{Spells};
ghost use Rattle.pardo_program.specs.Lawful.{IsProgram};
ghost use Rattle.pardo_text.specs.Reading.{program_of};
ghost use Rattle.pardo_job.specs.Compiled.{IsCompiled};
ghost use Rattle.page_core.specs.Findings.{IsKeptBehind};
ghost use Rattle.page_core.specs.Programs.{AreLinesOf, ArePut, IsCompiledJobOf, IsNoProgram};
ghost use Rattle.page_core.specs.Programs.{bytes_told, fault_told, job_kind_code, line_row};
ghost use Rattle.page_core.specs.Programs.{no_program_told, rows_told, sizes_told, text_kind_code};
ghost use Rattle.page_core.specs.Programs.{why_told};

use crate::codes::{
    DONE, MEMORY, NO_JOB, NO_ROOM, OTHER_LANGUAGE, Status, TEXT_MOST, TEXT_TOO_LONG, coded,
};
use job_text::laws::{array_words_are_lawful, printed_is_read_back};
use job_text::{Dotted, spell};
use pardo_answers::is_program;
use pardo_job::{Compiled, JobKind, Refusal, compile};
use pardo_text::laws::programs_are_lawful;
use pardo_text::{Line, PardoKind, Program, read_program};
use std::alloc::{AllocError, Global};

/// What is told of a program: how many bytes and how many rows were written, or (without room) how
/// many there are. A fault is 1 to 15 in the order of `PardoKind`, and 16 to 18 in that of
/// `JobKind`.
#[repr(C)]
#[derive(Clone, Copy)]
pub struct ProgramTold {
    pub status: Status,
    pub bytes: u64,
    pub rows: u64,
}

/// A line of code: its number in the text, and how many `if`s are open before it.
#[repr(C)]
#[derive(Clone, Copy)]
pub struct LineRow {
    pub number: u64,
    pub depth: u64,
}

/// Why nothing is told of a text.
#[derive(Clone, Copy)]
pub enum NoProgram {
    /// Its first word is not `pardo`.
    OtherLanguage,
    /// It has more than `TEXT_MOST` bytes.
    TextTooLong,
    /// It spells no program, or one that is no job.
    Refused(Refusal),
    /// Out of memory.
    Memory,
}

// ---- programs

/// The text of a job, and the numbers of the lines that its instructions came from.
#[derive(Drop)]
pub struct Made {
    pub text: String,
    pub numbers: Vec<u64>,
}

/// The job of the program that a text spells, as a text.
pub fn compiled(alloc: Global, text: &[u8]) -> Result<Made, NoProgram>
    ensures made { IfOk result
        (λ made. IsCompiledJobOf text.now (string_bytes made.text) made.numbers.items) }
    ensures none { IfErr result (IsNoProgram text.now) }
{
    programs_are_lawful();
    admit(text)?;
    match compile(alloc, text) {
        Err(refusal) => Err(NoProgram::Refused(refusal)),
        Ok((program, compiled)) => match spelled(alloc, &program, compiled) {
            Ok(made) => Ok(made),
            Err(_) => Err(NoProgram::Memory),
        },
    }
}

// Whether a text may spell a program.
fn admit(text: &[u8]) -> Result<(), NoProgram>
    ensures { IfErr result (IsNoProgram text.now) }
{
    if text.len() > TEXT_MOST {
        return Err(NoProgram::TextTooLong);
    }
    if !is_program(text) {
        return Err(NoProgram::OtherLanguage);
    }
    Ok(())
}

// A program's job as a text.
fn spelled(alloc: Global, program: &Program, compiled: Compiled) -> Result<Made, AllocError>
    requires lawful { IsProgram program.now }
    requires made { IsCompiled program.now compiled.job (slice_index compiled.numbers) }
    ensures spells { IfOk result (λ made. Spells (string_bytes made.text) compiled.job) }
    ensures numbers { IfOk result (λ made. made.numbers.items ≡ compiled.numbers) }
{
    array_words_are_lawful();
    printed_is_read_back();
    let (job, numbers, _) = compiled.into_parts();
    let text = spell(alloc, &job, &Dotted)?;
    Ok(Made { text, numbers })
}

/// The program that a text spells.
pub(crate) fn take_program(alloc: Global, text: &[u8]) -> Result<Program, NoProgram>
    ensures program { IfOk result (λ program. program_of text.now ≡ Ok program) }
    ensures lawful { IfOk result IsProgram }
    ensures none { IfErr result (IsNoProgram text.now) }
{
    programs_are_lawful();
    admit(text)?;
    match read_program(alloc, text) {
        Ok(program) => Ok(program),
        Err(fault) => Err(NoProgram::Refused(Refusal::Text(fault))),
    }
}

/// The lines of code of the program that a text spells.
pub fn lines_of(alloc: Global, text: &[u8]) -> Result<Vec<LineRow>, NoProgram>
    ensures lines { IfOk result (λ rows. AreLinesOf text.now [] rows.items) }
    ensures none { IfErr result (IsNoProgram text.now) }
{
    let program = take_program(alloc, text)?;
    match line_rows(alloc, program.lines()) {
        Ok(rows) => Ok(rows),
        Err(_) => Err(NoProgram::Memory),
    }
}

fn line_rows(alloc: Global, lines: &[Line]) -> Result<Vec<LineRow>, AllocError>
    ensures { IfOk result (λ rows. rows.items ≡ map line_row lines.now) }
{
    let mut rows = Vec::new(alloc);
    for line in lines {
        rows.push(LineRow {
            number: line.number,
            depth: line.depth as u64,
        })?;
    }
    Ok(rows)
}

// ---- what is told

/// Both are written to the fronts of their buffers, if there is room for both.
pub fn put<T: Copy>(bytes: &[u8], rows: &[T], bytes_to: &mut [u8], rows_to: &mut [T]) -> ProgramTold
    ensures put { ArePut bytes.now rows.now bytes_to.old rows_to.old bytes_to.new rows_to.new
        result }
    ensures bytes { IsKeptBehind (bytes_told result) bytes_to.old bytes_to.new }
    ensures rows { IsKeptBehind (rows_told result) rows_to.old rows_to.new }
{
    let (count, more) = (bytes.len(), rows.len());
    if count > bytes_to.len() || more > rows_to.len() {
        return sizes(NO_ROOM, count, more);
    }
    bytes_to[..count].copy_from_slice(bytes);
    rows_to[..more].copy_from_slice(rows);
    sizes(DONE, count, more)
}

/// The rows are written to the front of the buffer, if there is room for them.
pub fn put_rows(rows: &[LineRow], to: &mut [LineRow]) -> ProgramTold
    ensures put { ArePut [] rows.now [] to.old [] to.new result }
    ensures rows { IsKeptBehind (rows_told result) to.old to.new }
{
    let count = rows.len();
    if count > to.len() {
        return sizes(NO_ROOM, 0, count);
    }
    to[..count].copy_from_slice(rows);
    sizes(DONE, 0, count)
}

fn sizes(code: u32, bytes: usize, rows: usize) -> ProgramTold
    ensures { result ≡ sizes_told code bytes rows }
{
    ProgramTold {
        status: coded(code),
        bytes: bytes as u64,
        rows: rows as u64,
    }
}

/// Why nothing is told, in numbers.
pub fn tell_none(why: NoProgram) -> ProgramTold
    ensures told { result ≡ no_program_told why }
    ensures bytes { bytes_told result ≡ 0 }
    ensures rows { rows_told result ≡ 0 }
{
    match why {
        NoProgram::OtherLanguage => no_more(OTHER_LANGUAGE, 0, 0),
        NoProgram::TextTooLong => no_more(TEXT_TOO_LONG, 0, 0),
        NoProgram::Refused(Refusal::Text(fault)) => {
            tell_fault(number_of_text_kind(fault.kind), fault.line)
        }
        NoProgram::Refused(Refusal::Job(fault)) => {
            tell_fault(number_of_job_kind(fault.kind), fault.line)
        }
        NoProgram::Memory => no_more(MEMORY, 0, 0),
    }
}

// A fault of a line; out of memory is none.
fn tell_fault(kind: u32, line: u64) -> ProgramTold
    ensures { result ≡ fault_told kind line }
{
    if kind == 0 {
        no_more(MEMORY, 0, 0)
    } else {
        no_more(NO_JOB, kind, line)
    }
}

fn no_more(code: u32, fault: u32, line: u64) -> ProgramTold
    ensures { result ≡ why_told code fault line }
{
    ProgramTold {
        status: Status { code, fault, line },
        bytes: 0,
        rows: 0,
    }
}

/// The number of a fault of a text; out of memory is none.
pub fn number_of_text_kind(kind: PardoKind) -> u32
    ensures { result ≡ text_kind_code kind }
{
    match kind {
        PardoKind::Memory => 0,
        PardoKind::NotAscii => 1,
        PardoKind::BadSymbol => 2,
        PardoKind::BadHeader => 3,
        PardoKind::BadLine => 4,
        PardoKind::UnknownName => 5,
        PardoKind::DuplicateName => 6,
        PardoKind::WrongKind => 7,
        PardoKind::OutOfLimits => 9,
        PardoKind::WrongLength => 10,
        PardoKind::TooManyCells => 11,
        PardoKind::BadBlock => 12,
        PardoKind::TooDeep => 13,
        PardoKind::OpenBlock => 14,
        PardoKind::NoCode => 15,
    }
}

/// The number of a fault of a job; out of memory is none.
pub fn number_of_job_kind(kind: JobKind) -> u32
    ensures { result ≡ job_kind_code kind }
{
    match kind {
        JobKind::Memory => 0,
        JobKind::TooDeep => 16,
        JobKind::TooLong => 17,
        JobKind::Endless => 18,
        JobKind::TooManyCells => 19,
    }
}
