//! The answer of a program as text.
ghost use Rattle.std.specs.Prelude.{◌≡◌, ◌++◌, ◌↔◌, false, slice_index};
ghost use Rattle.std.specs.Prelude.{IfOk, OnOk, IsErrOf, IsTrue};
ghost use Rattle.std.specs.Io.KnownBytes.{Appends};
ghost use Rattle.std.specs.List.{flat_map, range_with_len};
ghost use Rattle.pram_streams.specs.Transfer.{AppendsBeginning};
ghost use Rattle.pardo_job.specs.Printed.{conflict_text, end_text, gone_line};
ghost use Rattle.pardo_job.specs.Ends.{gone_in};
ghost use Rattle.pram_step.specs.Runs.{dispute_of};
ghost use Rattle.pardo_answers.specs.Named.{named_answer};

use crate::text::{push_arrays, push_cell};
use pardo_job::Lines;
use pardo_text::Program;
use pram_step::{Fault, RunAnswer};
use pram_streams::{PrintFault, Sink, push_labelled, put};
use std::alloc::{AllocError, Global};

/// What the answer of a program's job is told by: the program, how many steps the job makes, and
/// the lines in which it ended.
#[derive(Drop)]
pub struct Names<'a> {
    pub program: &'a Program,
    pub steps: u32,
    pub lines: &'a Lines,
}

/// Prints the answer of a program's job by names, or a beginning of it where the sink fails.
/// Nothing is printed before memory for all of it was found.
///
/// The time is linear in what is printed, and in the number of processors.
pub fn print_named<W: Sink>(
    alloc: Global,
    sink: &mut W,
    names: &Names<'_>,
    answer: &RunAnswer,
) -> Result<(), PrintFault>
    requires { W.has_failed sink.old ≡ false }
    ensures ok { OnOk result (Appends (W.taken sink.old) (W.taken sink.new)
        (named_answer names.now.program.now names.now.steps names.now.lines.now answer.now)) }
    ensures beginning { AppendsBeginning (W.taken sink.old) (W.taken sink.new)
        (named_answer names.now.program.now names.now.steps names.now.lines.now answer.now) }
    ensures memory { IsErrOf result PrintFault.Memory → sink.new ≡ sink.old }
    ensures failed { IsTrue (W.has_failed sink.new) ↔ IsErrOf result PrintFault.Device }
{
    let text = named_text(alloc, names, answer)?;
    put(sink, text.as_slice())?;
    Ok(())
}

/// The answer of a program's job by names.
pub(crate) fn named_text(
    alloc: Global,
    names: &Names<'_>,
    answer: &RunAnswer,
) -> Result<Vec<u8>, AllocError>
    ensures { IfOk result (λ text. text.items
        ≡ named_answer names.now.program.now names.now.steps names.now.lines.now answer.now) }
{
    let mut text = Vec::new(alloc);
    match answer {
        RunAnswer::Final(cells) => push_end(&mut text, names, cells.as_slice())?,
        RunAnswer::Conflict(fault) => push_conflict(&mut text, names, fault)?,
        RunAnswer::Unfinished { step } => {
            push_labelled(&mut text, b"unfinished step=", u64::from(*step))?;
            text.push(b'\n')?;
        }
    }
    Ok(text)
}

// How the program ended.
fn push_end(text: &mut Vec<u8>, names: &Names<'_>, cells: &[u32]) -> Result<(), AllocError>
    ensures { OnOk result (text.new.items ≡ text.old.items
        ++ end_text names.now.program.now names.now.steps (slice_index cells.now)
        (gone_in names.now.lines.now.gone.items)) }
{
    push_labelled(text, b"done steps=", u64::from(names.steps))?;
    text.push(b'\n')?;
    push_arrays(text, names.program.arrays(), cells)?;
    push_gone(text, names.program.procs(), names.lines)
}

// The processors that are gone.
fn push_gone(text: &mut Vec<u8>, procs: u32, lines: &Lines) -> Result<(), AllocError>
    ensures { OnOk result (text.new.items ≡ text.old.items
        ++ flat_map (λ i. gone_line i (gone_in lines.now.gone.items i)) (range_with_len 0 procs)) }
{
    for processor in 0..procs {
        push_gone_line(text, processor, gone_in(lines, processor))?;
    }
    Ok(())
}

/// The line in which a processor left, if it did.
pub(crate) fn gone_in(lines: &Lines, processor: u32) -> Option<u64>
    ensures { result ≡ gone_in lines.now.gone.items processor }
{
    lines.gone.get(processor as usize).copied().unwrap_or(None)
}

fn push_gone_line(text: &mut Vec<u8>, processor: u32, line: Option<u64>) -> Result<(), AllocError>
    ensures { OnOk result (text.new.items ≡ text.old.items ++ gone_line processor line) }
{
    let Some(line) = line else {
        return Ok(());
    };
    push_labelled(text, b"gone processor=", u64::from(processor))?;
    push_labelled(text, b" line=", line)?;
    text.push(b'\n')?;
    Ok(())
}

/// Adds the line of a conflict: in which line, and about which place, the program ended.
pub fn push_conflict(text: &mut Vec<u8>, names: &Names<'_>, fault: &Fault) -> Result<(), AllocError>
    ensures { OnOk result (text.new.items ≡ text.old.items
        ++ conflict_text names.now.program.now names.now.lines.now.disputed
        (dispute_of fault.now)) }
{
    push_labelled(text, b"conflict line=", names.lines.disputed)?;
    text.extend_from_slice(b" place=")?;
    push_cell(text, names.program.arrays(), fault.cell as usize)?;
    push_labelled(text, b" processors=", u64::from(fault.first))?;
    push_labelled(text, b",", u64::from(fault.second))?;
    text.push(b'\n')?;
    Ok(())
}
