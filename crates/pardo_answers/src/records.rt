//! The answer of a program as records.
ghost use Rattle.std.specs.Prelude.{◌≡◌, ◌++◌, ◌↔◌, false, slice_index};
ghost use Rattle.std.specs.Prelude.{IfOk, OnOk, IsErrOf, IsTrue};
ghost use Rattle.std.specs.Io.KnownBytes.{Appends};
ghost use Rattle.std.specs.List.{flat_map, range_with_len};
ghost use Rattle.pram_streams.specs.Transfer.{AppendsBeginning};
ghost use Rattle.pardo_job.specs.Ends.{gone_in};
ghost use Rattle.pardo_answers.specs.Records.{array_records, end_records, gone_record};
ghost use Rattle.pardo_answers.specs.Records.{index_field, place_record, recorded_answer};

use crate::print::{Names, gone_in, named_text};
use crate::text::value_at;
use pardo_job::Lines;
use pardo_text::Array;
use pram_step::RunAnswer;
use pram_streams::{PrintFault, Sink, push_labelled, put};
use std::alloc::{AllocError, Global};

/// Prints the answer of a program's job, its end as records, or a beginning of it where the sink
/// fails. Nothing is printed before memory for all of it was found.
///
/// The time is linear in what is printed, and in the number of processors.
pub fn print_records<W: Sink>(
    alloc: Global,
    sink: &mut W,
    names: &Names<'_>,
    answer: &RunAnswer,
) -> Result<(), PrintFault>
    requires { W.has_failed sink.old ≡ false }
    ensures ok { OnOk result (Appends (W.taken sink.old) (W.taken sink.new)
        (recorded_answer names.now.program.now names.now.steps names.now.lines.now answer.now)) }
    ensures beginning { AppendsBeginning (W.taken sink.old) (W.taken sink.new)
        (recorded_answer names.now.program.now names.now.steps names.now.lines.now answer.now) }
    ensures memory { IsErrOf result PrintFault.Memory → sink.new ≡ sink.old }
    ensures failed { IsTrue (W.has_failed sink.new) ↔ IsErrOf result PrintFault.Device }
{
    let text = recorded_text(alloc, names, answer)?;
    put(sink, text.as_slice())?;
    Ok(())
}

fn recorded_text(
    alloc: Global,
    names: &Names<'_>,
    answer: &RunAnswer,
) -> Result<Vec<u8>, AllocError>
    ensures { IfOk result (λ text. text.items
        ≡ recorded_answer names.now.program.now names.now.steps names.now.lines.now answer.now) }
{
    match answer {
        RunAnswer::Final(cells) => {
            let mut text = Vec::new(alloc);
            push_end(&mut text, names, cells.as_slice())?;
            Ok(text)
        }
        RunAnswer::Conflict(_) => named_text(alloc, names, answer),
        RunAnswer::Unfinished { .. } => named_text(alloc, names, answer),
    }
}

// How the program ended.
fn push_end(text: &mut Vec<u8>, names: &Names<'_>, cells: &[u32]) -> Result<(), AllocError>
    ensures { OnOk result (text.new.items ≡ text.old.items
        ++ end_records names.now.program.now (slice_index cells.now)
        (gone_in names.now.lines.now.gone.items)) }
{
    text.extend_from_slice(b"name,index,value\n")?;
    push_arrays(text, names.program.arrays(), cells)?;
    push_gone(text, names.program.procs(), names.lines)
}

// The records of shared arrays, of which these are the cells. Past the cells there are zeros.
fn push_arrays(text: &mut Vec<u8>, arrays: &[Array], cells: &[u32]) -> Result<(), AllocError>
    ensures { OnOk result (text.new.items ≡ text.old.items
        ++ flat_map (array_records (slice_index cells.now)) arrays.now) }
{
    for array in arrays {
        push_array(text, array, cells)?;
    }
    Ok(())
}

fn push_array(text: &mut Vec<u8>, array: &Array, cells: &[u32]) -> Result<(), AllocError>
    ensures { OnOk result (text.new.items ≡ text.old.items
        ++ array_records (slice_index cells.now) array.now) }
{
    for index in 0..array.start().len() {
        let cell = array.base().saturating_add(index);
        push_place(text, array, index, value_at(cells, cell))?;
    }
    Ok(())
}

/// The record of a place of an array.
pub fn push_place(
    text: &mut Vec<u8>,
    array: &Array,
    index: usize,
    value: u32,
) -> Result<(), AllocError>
    ensures { OnOk result (text.new.items ≡ text.old.items ++ place_record array.now index value) }
{
    text.extend_from_slice(array.name())?;
    push_index(text, array, index)?;
    push_labelled(text, b",", u64::from(value))?;
    text.push(b'\n')?;
    Ok(())
}

fn push_index(text: &mut Vec<u8>, array: &Array, index: usize) -> Result<(), AllocError>
    ensures { OnOk result (text.new.items ≡ text.old.items ++ index_field array.now index) }
{
    if array.is_scalar() {
        return text.extend_from_slice(b",");
    }
    push_labelled(text, b",", index as u64)
}

// The processors that are gone.
fn push_gone(text: &mut Vec<u8>, procs: u32, lines: &Lines) -> Result<(), AllocError>
    ensures { OnOk result (text.new.items ≡ text.old.items
        ++ flat_map (λ i. gone_record i (gone_in lines.now.gone.items i))
        (range_with_len 0 procs)) }
{
    for processor in 0..procs {
        push_gone_record(text, processor, gone_in(lines, processor))?;
    }
    Ok(())
}

fn push_gone_record(text: &mut Vec<u8>, processor: u32, line: Option<u64>) -> Result<(), AllocError>
    ensures { OnOk result (text.new.items ≡ text.old.items ++ gone_record processor line) }
{
    let Some(line) = line else {
        return Ok(());
    };
    push_labelled(text, b"gone processor,", u64::from(processor))?;
    push_labelled(text, b",", line)?;
    text.push(b'\n')?;
    Ok(())
}
