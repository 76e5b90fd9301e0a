//! What became of the processors.
ghost use Rattle.std.specs.Prelude.{◌≡◌, IfErr, IfOk};
ghost use Rattle.pram_rows.specs.Fates.{AreFates};
ghost use Rattle.page_core.specs.Fates.{AreFatesTold, end_row, fates_row, lost_row, no_fates};
ghost use Rattle.page_core.specs.Texts.{IsRefused, OfJob};

use crate::codes::{Status, TOLD};
use crate::text::{Refusal, take_job, tell_refusal};
use pram_rows::{End, Fates, Lost, fates_after};
use pram_text::instruction_line;
use std::alloc::Global;

/// How the processors are after all steps. `kind` is 0 where a step is against the rule. It is 1
/// where `count` still run: the least of them is `first`, before the instruction in line `line`. It
/// is 2 where all had stopped after step `step`.
#[repr(C)]
#[derive(Clone, Copy)]
pub struct EndRow {
    pub line: u64,
    pub kind: u32,
    pub count: u32,
    pub first: u32,
    pub step: u32,
}

/// The first processor that named a cell that there is not, in step `step` by the instruction in
/// line `line`. The step is 0 where none did.
#[repr(C)]
#[derive(Clone, Copy)]
pub struct LostRow {
    pub line: u64,
    pub step: u32,
    pub processor: u32,
}

/// What became of the processors of a text's job.
#[repr(C)]
#[derive(Clone, Copy)]
pub struct FatesTold {
    pub status: Status,
    pub end: EndRow,
    pub lost: LostRow,
}

const NO_END: EndRow = EndRow {
    line: 0,
    kind: 0,
    count: 0,
    first: 0,
    step: 0,
};

const NONE_LOST: LostRow = LostRow {
    line: 0,
    step: 0,
    processor: 0,
};

/// What became of the processors in all steps of a text's job. None is made after one that changes
/// nothing.
pub fn fates(alloc: Global, text: &[u8]) -> FatesTold
    ensures { AreFatesTold text.now result }
{
    match fates_of_run(alloc, text) {
        Ok(fates) => tell_fates(text, fates),
        Err(refusal) => refused_fates(refusal),
    }
}

fn fates_of_run(alloc: Global, text: &[u8]) -> Result<Fates, Refusal>
    ensures fates { IfOk result (λ fates. OfJob text.now (λ job. AreFates job job.steps fates)) }
    ensures refused { IfErr result (λ refusal. IsRefused text.now refusal) }
{
    let job = take_job(alloc, text)?;
    match fates_after(alloc, &job, job.steps()) {
        Ok(fates) => Ok(fates),
        Err(_) => Err(Refusal::Memory),
    }
}

fn tell_fates(text: &[u8], fates: Fates) -> FatesTold
    ensures { result ≡ fates_row text.now fates }
{
    FatesTold {
        status: TOLD,
        end: tell_end(text, fates.end),
        lost: tell_lost(text, fates.lost),
    }
}

fn refused_fates(refusal: Refusal) -> FatesTold
    ensures { result ≡ no_fates refusal }
{
    FatesTold {
        status: tell_refusal(refusal),
        end: NO_END,
        lost: NONE_LOST,
    }
}

fn tell_end(text: &[u8], end: Option<End>) -> EndRow
    ensures { result ≡ end_row text.now end }
{
    match end {
        None => NO_END,
        Some(
            End::Running {
                count,
                first,
                index,
            },
        ) => EndRow {
            line: instruction_line(text, index),
            kind: 1,
            count,
            first,
            step: 0,
        },
        Some(End::Stopped { step }) => EndRow {
            kind: 2,
            step,
            ..NO_END
        },
    }
}

fn tell_lost(text: &[u8], lost: Option<Lost>) -> LostRow
    ensures { result ≡ lost_row text.now lost }
{
    match lost {
        None => NONE_LOST,
        Some(
            Lost {
                step,
                processor,
                index,
            },
        ) => LostRow {
            line: instruction_line(text, index),
            step,
            processor,
        },
    }
}
