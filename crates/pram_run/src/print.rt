//! Traces as text, written with `csv`, and sights.
ghost use Rattle.std.specs.Prelude.{◌≡◌, ◌+◌, ◌<◌, ◌≤◌, ◌^◌, ◌++◌, ◌↔◌, [], false, decimal, length};
ghost use Rattle.std.specs.Prelude.{map, take, IfOk, OnOk, IsErrOf, IsTrue};
ghost use Rattle.std.specs.Io.KnownBytes.{Appends};
ghost use Rattle.csv.specs.Writing.{default_writer, field_text, row_text, text_written};
ghost use Rattle.pram_streams.specs.Transfer.{AppendsBeginning};
ghost use Rattle.pram_streams.specs.Records.{IsBetweenRecords};
ghost use Rattle.pram_run.specs.Inner.Printing.{PassedOn};
ghost use Rattle.pram_run.specs.Printed.{kind_word, trace_line, row_lines, sight_line};
ghost use Rattle.pram_run.specs.Printed.{sight_lines, sights_text, trace_text};

use crate::cell_names::{CellNames, push_number};
use crate::sight::Sight;
use crate::trace::{PART, Trace, TraceRow};
use csv::{Error, Writer};
use itoa::Buffer;
use pram_streams::{IntoWrite, PrintFault, Sink, number_text, put};
use std::alloc::{AllocError, Global};
use std::io::Write;

/// The fields of a row.
pub(crate) const HEADER: &str = "tick,worker,op,word,before,after\n";

/// The most rows that are put into the sink at once.
const PIECE: usize = 2048;

/// Prints the rows of a trace below a header, the ticks counted from 1. They go out piece by piece,
/// so that the text of all of them never stands in memory. Out of memory, a beginning of
/// it was printed, as where the sink fails.
pub fn print_trace<W: Sink>(
    alloc: Global,
    sink: &mut W,
    rows: &[TraceRow],
) -> Result<(), PrintFault>
    requires { W.has_failed sink.old ≡ false }
    ensures ok { OnOk result (Appends (W.taken sink.old) (W.taken sink.new)
        (trace_text rows.now)) }
    ensures beginning { AppendsBeginning (W.taken sink.old) (W.taken sink.new)
        (trace_text rows.now) }
    ensures failed { IsTrue (W.has_failed sink.new) ↔ IsErrOf result PrintFault.Device }
{
    put(sink, HEADER.as_bytes())?;
    let mut done = 0;
    while done < rows.len() {
        let end = rows.len().min(done.saturating_add(PIECE));
        let lines = lines_between(alloc, 0, rows, done, end)?;
        put(sink, lines.as_slice())?;
        done = end;
    }
    Ok(())
}

/// Prints the rows that are kept, and lets them go, once one part more could make them more than a
/// piece. Answers how many were printed, those before them too.
pub(crate) fn pass_on<W: Sink>(
    alloc: Global,
    sink: &mut W,
    before: u64,
    rows: &mut Trace,
) -> Result<u64, PrintFault>
    requires { W.has_failed sink.old ≡ false }
    ensures ok { IfOk result (PassedOn (W.taken sink.old) (W.taken sink.new)
        before rows.old rows.new) }
    ensures beginning { AppendsBeginning (W.taken sink.old) (W.taken sink.new)
        (row_lines before rows.old) }
    ensures failed { IsTrue (W.has_failed sink.new) ↔ IsErrOf result PrintFault.Device }
{
    if rows.rows().len() <= PIECE - PART as usize {
        return Ok(before);
    }
    let printed = put_rows(alloc, sink, before, rows.rows())?;
    rows.clear();
    Ok(printed)
}

/// Prints the lines of rows, so many having gone before them, and answers how many have now. No
/// memory holds a trace in which that is 2^64: it is refused as such.
pub(crate) fn put_rows<W: Sink>(
    alloc: Global,
    sink: &mut W,
    before: u64,
    rows: &[TraceRow],
) -> Result<u64, PrintFault>
    requires { W.has_failed sink.old ≡ false }
    ensures ok { OnOk result (Appends (W.taken sink.old) (W.taken sink.new)
        (row_lines before rows.now)) }
    ensures count { IfOk result (λ printed. printed ≡ before + length rows.now) }
    ensures beginning { AppendsBeginning (W.taken sink.old) (W.taken sink.new)
        (row_lines before rows.now) }
    ensures failed { IsTrue (W.has_failed sink.new) ↔ IsErrOf result PrintFault.Device }
{
    let Some(printed) = before.checked_add(rows.len() as u64) else {
        return Err(PrintFault::Memory);
    };
    let lines = lines_between(alloc, before, rows, 0, rows.len())?;
    put(sink, lines.as_slice())?;
    Ok(printed)
}

// The lines of the rows from one place up to another, so many rows having gone before them all.
fn lines_between(
    alloc: Global,
    before: u64,
    rows: &[TraceRow],
    start: usize,
    end: usize,
) -> Result<Vec<u8>, AllocError>
    requires from { start ≤ end }
    requires to { end ≤ length rows.now }
    requires fits { before + end < 2 ^ 64 }
    ensures { IfOk result (λ lines. row_lines before (take start rows.now) ++ lines.items
        ≡ row_lines before (take end rows.now)) }
{
    let mut writer = Writer::from_writer(Vec::new(alloc));
    for index in start..end {
        let Ok(()) = write_row(&mut writer, before + index as u64 + 1, &rows[index]) else {
            return Err(AllocError);
        };
    }
    match writer.into_inner() {
        Ok(lines) => Ok(lines),
        Err(_) => Err(AllocError),
    }
}

// The fields of a row are numbers and words, which csv writes without quotes. Most steps leave
// their word as it was: then one text serves twice.
fn write_row<W: Write + Drop>(
    writer: &mut Writer<W>,
    tick: u64,
    row: &TraceRow,
) -> Result<(), Error>
    requires { IsBetweenRecords writer.old }
    ensures between { OnOk result (IsBetweenRecords writer.new) }
    ensures text { OnOk result (Appends (text_written W.contents writer.old)
        (text_written W.contents writer.new) (trace_line tick row.now)) }
{
    let mut ticks = Buffer::new();
    let mut workers = Buffer::new();
    let mut words = Buffer::new();
    let mut befores = Buffer::new();
    let mut afters = Buffer::new();
    let before = number_text(&mut befores, row.before);
    let after = if row.after == row.before {
        before
    } else {
        number_text(&mut afters, row.after)
    };
    writer.write_fields(&[
        number_text(&mut ticks, tick),
        number_text(&mut workers, u64::from(row.worker)),
        row.kind.word().as_bytes(),
        number_text(&mut words, u64::from(row.word)),
        before,
        after,
    ])
}

/// Prints sights below a header, in order, their cells told so. They go out piece by piece, as the
/// rows of a trace do. Out of memory, a beginning of the text was printed, as where the sink fails.
pub fn print_sights<W: Sink, C: CellNames>(
    alloc: Global,
    sink: &mut W,
    sights: &[Sight],
    names: &C,
) -> Result<(), PrintFault>
    requires { W.has_failed sink.old ≡ false }
    ensures ok { OnOk result (Appends (W.taken sink.old) (W.taken sink.new)
        (sights_text (C.words names.now) sights.now)) }
    ensures beginning { AppendsBeginning (W.taken sink.old) (W.taken sink.new)
        (sights_text (C.words names.now) sights.now) }
    ensures failed { IsTrue (W.has_failed sink.new) ↔ IsErrOf result PrintFault.Device }
{
    put(sink, names.header().as_bytes())?;
    let mut done = 0;
    while done < sights.len() {
        let end = sights.len().min(done.saturating_add(PIECE));
        let lines = sights_between(alloc, names, sights, done, end)?;
        put(sink, lines.as_slice())?;
        done = end;
    }
    Ok(())
}

/// Prints the header of sights.
pub(crate) fn begin_sights<W: Sink, C: CellNames>(sink: &mut W, names: &C) -> Result<(), PrintFault>
    requires { W.has_failed sink.old ≡ false }
    ensures ok { OnOk result (Appends (W.taken sink.old) (W.taken sink.new)
        (sights_text (C.words names.now) [])) }
    ensures beginning { AppendsBeginning (W.taken sink.old) (W.taken sink.new)
        (sights_text (C.words names.now) []) }
    ensures failed { IsTrue (W.has_failed sink.new) ↔ IsErrOf result PrintFault.Device }
{
    put(sink, names.header().as_bytes())?;
    Ok(())
}

/// Prints the lines of sights.
pub(crate) fn put_sights<W: Sink, C: CellNames>(
    alloc: Global,
    sink: &mut W,
    sights: &[Sight],
    names: &C,
) -> Result<(), PrintFault>
    requires { W.has_failed sink.old ≡ false }
    ensures ok { OnOk result (Appends (W.taken sink.old) (W.taken sink.new)
        (sight_lines (C.words names.now) sights.now)) }
    ensures beginning { AppendsBeginning (W.taken sink.old) (W.taken sink.new)
        (sight_lines (C.words names.now) sights.now) }
    ensures failed { IsTrue (W.has_failed sink.new) ↔ IsErrOf result PrintFault.Device }
{
    let lines = sights_between(alloc, names, sights, 0, sights.len())?;
    put(sink, lines.as_slice())?;
    Ok(())
}

// The lines of the sights from one place up to another.
fn sights_between<C: CellNames>(
    alloc: Global,
    names: &C,
    sights: &[Sight],
    start: usize,
    end: usize,
) -> Result<Vec<u8>, AllocError>
    requires from { start ≤ end }
    requires to { end ≤ length sights.now }
    ensures { IfOk result (λ lines. sight_lines (C.words names.now) (take start sights.now)
        ++ lines.items ≡ sight_lines (C.words names.now) (take end sights.now)) }
{
    let mut lines = Vec::new(alloc);
    for index in start..end {
        push_sight(&mut lines, names, &sights[index])?;
    }
    Ok(lines)
}

// Numbers hold no comma and no quote, and a cell's word is a field as it stands.
fn push_sight<C: CellNames>(lines: &mut Vec<u8>, names: &C, sight: &Sight) -> Result<(), AllocError>
    ensures { OnOk result (lines.new.items
        ≡ lines.old.items ++ sight_line (C.words names.now) sight.now) }
{
    push_number(lines, sight.step)?;
    lines.push(b',')?;
    names.push_cell(lines, sight.cell)?;
    lines.push(b',')?;
    push_number(lines, sight.value)?;
    lines.push(b'\n')?;
    Ok(())
}

/// Why a trace was not written.
#[derive(Clone, Copy, Debug, PartialEq, Eq)]
pub enum OutFault {
    /// The writer failed.
    Device,
    /// Out of memory.
    Memory,
}

impl From<PrintFault> for OutFault {
    ghost from_gives = { λ fault made. made ≡ out_fault_of_print fault };

    ghost use Rattle.pram_run.specs.Inner.Printing.{out_fault_of_print};

    fn from(fault: PrintFault) -> OutFault {
        match fault {
            PrintFault::Device => OutFault::Device,
            PrintFault::Memory => OutFault::Memory,
        }
    }
}

/// Writes a trace as `print_trace` prints it, and flushes the writer. After a fault a beginning of
/// the trace may stand written.
pub fn write_trace<W: Write + Drop>(alloc: Global, trace: &Trace, out: W) -> Result<W, OutFault>
    ensures { IfOk result (λ written. Appends (W.contents out) (W.contents written)
        (trace_text trace.now)) }
{
    let mut sink = IntoWrite::new(out);
    print_trace(alloc, &mut sink, trace.rows())?;
    let mut out = sink.into_inner();
    match out.flush() {
        Ok(()) => Ok(out),
        Err(_) => Err(OutFault::Device),
    }
}
