//! What became of the processors, as text.
ghost use Rattle.std.specs.Prelude.{◌≡◌, ◌++◌, string_bytes, IfOk};
ghost use Rattle.pram_rows.specs.Told.{cause_line, end_line, fates_text, line_in, lost_line};
ghost use Rattle.pram_rows.specs.Told.{values_line, why_text};

use crate::RowNames;
use crate::causes::{Cause, Values, Why};
use crate::fates::{End, Fates, Lost};
use pram_text::instruction_line;
use std::alloc::{AllocError, Global};

/// What the instructions of a job came from.
#[derive(Clone, Copy, Debug)]
pub enum Origin<'a> {
    /// The text that spells the job.
    Text(&'a [u8]),
    /// The lines of these numbers, of each instruction its own.
    Lines(&'a [u64]),
}

impl Origin<'_> {
    // The number of the line of an instruction.
    fn line(self, index: u32) -> u64
        ensures { result ≡ line_in self.entry index }
    {
        match self {
            Origin::Text(text) => instruction_line(text, index),
            Origin::Lines(numbers) => numbers.get(index as usize).copied().unwrap_or(0),
        }
    }
}

/// The lines that say what became of the processors, by the lines that their instructions came
/// from. The time is linear in the text.
pub fn fates_text(alloc: Global, origin: Origin<'_>, fates: &Fates) -> Result<String, AllocError>
    ensures { IfOk result (λ told.
        string_bytes told ≡ fates_text (line_in origin.entry) fates.now) }
{
    let mut told = end_line(alloc, origin, fates.end)?;
    let lost = lost_line(alloc, origin, fates.lost)?;
    told.push_str(lost.as_str())?;
    Ok(told)
}

/// The lines that say what became of the processors, and why, arrays by these names. The time is
/// linear in the text.
pub fn why_text<N: RowNames>(
    alloc: Global,
    origin: Origin<'_>,
    names: &N,
    why: &Why,
) -> Result<String, AllocError>
    ensures { IfOk result (λ told. string_bytes told
        ≡ why_text (line_in origin.entry) (N.words names.now).array why.now) }
{
    let mut told = values_line(alloc, why.values)?;
    let fates = fates_text(alloc, origin, &why.fates)?;
    let cause = cause_line(alloc, names, why.cause)?;
    told.push_str(fates.as_str())?;
    told.push_str(cause.as_str())?;
    Ok(told)
}

fn values_line(alloc: Global, values: Option<Values>) -> Result<String, AllocError>
    ensures { IfOk result (λ told. string_bytes told ≡ values_line values) }
{
    let Some(Values { first, second }) = values else {
        return Ok(String::new(alloc));
    };
    format!(in alloc; "wrote values={first},{second}\n")
}

fn cause_line<N: RowNames>(
    alloc: Global,
    names: &N,
    cause: Option<Cause>,
) -> Result<String, AllocError>
    ensures { IfOk result (λ told. string_bytes told
        ≡ cause_line (N.words names.now).array cause) }
{
    let Some(cause) = cause else {
        return Ok(String::new(alloc));
    };
    match cause {
        Cause::Outside(array, index) => {
            let word = names.array_text(alloc, array)?;
            let length = array.len;
            format!(in alloc; "outside array={word} index={index} length={length}\n")
        }
        Cause::AboveBound(index, bound) => {
            format!(in alloc; "outside index={index} length={bound}\n")
        }
        Cause::Divided(value) => format!(in alloc; "divided value={value} by=0\n"),
    }
}

fn end_line(alloc: Global, origin: Origin<'_>, end: Option<End>) -> Result<String, AllocError>
    ensures { IfOk result (λ told. string_bytes told ≡ end_line (line_in origin.entry) end) }
{
    let Some(end) = end else {
        return Ok(String::new(alloc));
    };
    match end {
        End::Running {
            count,
            first,
            index,
        } => {
            let line = origin.line(index);
            format!(in alloc; "running count={count} first={first} line={line}\n")
        }
        End::Stopped { step } => format!(in alloc; "stopped step={step}\n"),
    }
}

fn lost_line(alloc: Global, origin: Origin<'_>, lost: Option<Lost>) -> Result<String, AllocError>
    ensures { IfOk result (λ told. string_bytes told ≡ lost_line (line_in origin.entry) lost) }
{
    let Some(
        Lost {
            step,
            processor,
            index,
        },
    ) = lost
    else {
        return Ok(String::new(alloc));
    };
    let line = origin.line(index);
    format!(in alloc; "lost processor={processor} step={step} line={line}\n")
}
