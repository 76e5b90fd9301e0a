//! What is told of a text.
ghost use Rattle.std.specs.Prelude.{◌≡◌, IfErr, IfOk};
ghost use Rattle.pram_text.specs.Text.{Spells};
ghost use Rattle.page_core.specs.Texts.{IsJudged, IsRefused, fault_code, judgement_of, refused_as};
ghost use Rattle.page_core.specs.Texts.{rule_code, sizes_of};

use crate::codes::{MEMORY, NO_JOB, Status, TEXT_MOST, TEXT_TOO_LONG, TOLD, coded};
use pram_job::{Job, Rule};
use pram_text::{TextFault, TextKind, read_job};
use std::alloc::Global;

/// The sizes of the job that a text spells, or its fault. The rule is 0 for common, 1 for priority
/// and 2 for crew; a fault is 1 to 11 in the order of `TextKind`.
#[repr(C)]
#[derive(Clone, Copy)]
pub struct Judgement {
    pub status: Status,
    pub rule: u32,
    pub cells: u32,
    pub procs: u32,
    pub steps: u32,
    pub instructions: u32,
    pub places: u32,
}

/// Why a text gives no job.
#[derive(Clone, Copy)]
pub enum Refusal {
    /// It bears this fault.
    NoJob(TextFault),
    /// It has more than `TEXT_MOST` bytes.
    TextTooLong,
    /// Out of memory.
    Memory,
}

/// Judges a text: the sizes of the job that it spells, or the first line that is wrong.
pub fn judge(alloc: Global, text: &[u8]) -> Judgement
    ensures { IsJudged text.now result }
{
    match take_job(alloc, text) {
        Ok(job) => sizes(&job),
        Err(refusal) => refused_judgement(refusal),
    }
}

fn sizes(job: &Job) -> Judgement
    ensures { result ≡ sizes_of job.now }
{
    Judgement {
        status: TOLD,
        rule: number_of_rule(job.rule()),
        cells: job.cells(),
        procs: job.procs(),
        steps: job.steps(),
        instructions: job.code().len() as u32,
        places: job.cells() + 5 * job.procs(),
    }
}

fn refused_judgement(refusal: Refusal) -> Judgement
    ensures { result ≡ judgement_of refusal }
{
    Judgement {
        status: tell_refusal(refusal),
        rule: 0,
        cells: 0,
        procs: 0,
        steps: 0,
        instructions: 0,
        places: 0,
    }
}

/// The job that a text spells.
pub(crate) fn take_job(alloc: Global, text: &[u8]) -> Result<Job, Refusal>
    ensures spells { IfOk result (λ job. Spells text.now job) }
    ensures refused { IfErr result (λ refusal. IsRefused text.now refusal) }
{
    if text.len() > TEXT_MOST {
        return Err(Refusal::TextTooLong);
    }
    match read_job(alloc, text) {
        Ok(job) => Ok(job),
        Err(fault) if fault.kind == TextKind::Memory => Err(Refusal::Memory),
        Err(fault) => Err(Refusal::NoJob(fault)),
    }
}

/// A refusal in numbers.
pub(crate) fn tell_refusal(refusal: Refusal) -> Status
    ensures { result ≡ refused_as refusal }
{
    match refusal {
        Refusal::NoJob(fault) => Status {
            code: NO_JOB,
            fault: number_of_kind(fault.kind),
            line: fault.line,
        },
        Refusal::TextTooLong => coded(TEXT_TOO_LONG),
        Refusal::Memory => coded(MEMORY),
    }
}

fn number_of_kind(kind: TextKind) -> u32
    ensures { result ≡ fault_code kind }
{
    match kind {
        TextKind::NotAscii => 1,
        TextKind::BadHeader => 2,
        TextKind::BadNumber => 3,
        TextKind::OutOfLimits => 4,
        TextKind::UnknownInstruction => 5,
        TextKind::WrongOperands => 6,
        TextKind::BadRegister => 7,
        TextKind::DuplicateLabel => 8,
        TextKind::UnknownLabel => 9,
        TextKind::NoCode => 10,
        TextKind::TooLong => 11,
        TextKind::Memory => 12,
    }
}

fn number_of_rule(rule: Rule) -> u32
    ensures { result ≡ rule_code rule }
{
    match rule {
        Rule::Common => 0,
        Rule::Priority => 1,
        Rule::Crew => 2,
    }
}
