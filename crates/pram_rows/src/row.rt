//! The rows of a step, written with `csv`.
ghost use Rattle.std.specs.Prelude.{◌≡◌, ◌+◌, ◌<◌, ◌++◌, decimal, length};
ghost use Rattle.std.specs.Prelude.{map, string_bytes, IfOk, IfSome, OnOk};
ghost use Rattle.std.specs.Io.KnownBytes.{Appends};
ghost use Rattle.std.specs.Option.{option_copied};
ghost use Rattle.csv.specs.Writing.{default_writer, field_text, row_text, text_written};
ghost use Rattle.pram_machine.specs.Machine.{IsDataPlace};
ghost use Rattle.pram_streams.specs.Records.{IsBetweenRecords};
ghost use Rattle.pram_rows.specs.Inner.Printing.{told_fields};
ghost use Rattle.pram_rows.specs.Rows.{header, instruction_at, line_number_text, request_rows};
ghost use Rattle.pram_rows.specs.Rows.{row_line, rows_in};
ghost use Rattle.pram_rows.specs.Rows.{stop_word, target_text, value_text};

use crate::instruction::instruction_text;
use crate::row_names::RowNames;
use crate::rows::Rows;
use csv::{Error, Writer};
use itoa::Buffer;
use pram_job::Job;
use pram_step::{Moment, counter, laws, request_after};
use pram_streams::number_text;
use std::alloc::{AllocError, Global};
use std::io::Write;

/// What each processor asks for, a row each, told by names.
#[derive(Clone, Copy, Debug)]
pub struct Requests<'a, N> {
    pub names: &'a N,
}

/// The fields of a row.
const HEADER: &str = "step,processor,place,instruction,writes,value,next\n";

/// The fields of a row where lines are told, too.
const HEADER_WITH_LINES: &str = "step,processor,place,instruction,writes,value,next,line\n";

impl<N: RowNames> Rows for Requests<'_, N> {
    ghost rows = { λ requests. request_rows (N.words requests.names.now) };

    fn header(&self) -> &str {
        header(self.names.lines())
    }

    fn push_step(
        &self,
        alloc: Global,
        moment: &Moment<'_>,
        bytes: Vec<u8>,
    ) -> Result<Vec<u8>, AllocError> {
        push_rows(alloc, moment, self.names, bytes)
    }
}

// What stands before the rows.
fn header(lines: Option<&[u64]>) -> &'static str
    ensures { result.now ≡ header (option_copied lines.entry) }
{
    match lines {
        None => HEADER,
        Some(_) => HEADER_WITH_LINES,
    }
}

// Writes the rows of the step that comes next, after these bytes.
fn push_rows<N: RowNames>(
    alloc: Global,
    moment: &Moment<'_>,
    names: &N,
    bytes: Vec<u8>,
) -> Result<Vec<u8>, AllocError>
    ensures { IfOk result (λ rows. rows.items ≡ bytes.items ++ rows_in (N.words names.now)
        moment.now.job.now moment.now.state.now (moment.now.made + 1)) }
{
    let mut writer = Writer::from_writer(bytes);
    for processor in 0..moment.job.procs() {
        write_row(alloc, &mut writer, moment, names, processor)?;
    }
    match writer.into_inner() {
        Ok(rows) => Ok(rows),
        Err(_) => Err(AllocError),
    }
}

fn write_row<W: Write + Drop, N: RowNames>(
    alloc: Global,
    writer: &mut Writer<W>,
    moment: &Moment<'_>,
    names: &N,
    processor: u32,
) -> Result<(), AllocError>
    requires between { IsBetweenRecords writer.old }
    requires processor { processor < moment.now.job.now.procs }
    ensures between { OnOk result (IsBetweenRecords writer.new) }
    ensures text { OnOk result (Appends (text_written W.contents writer.old)
        (text_written W.contents writer.new) (row_line (N.words names.now)
        moment.now.job.now moment.now.state.now (moment.now.made + 1) processor)) }
{
    let (job, state, made) = (moment.job, moment.state, moment.made);
    job.limits_hold();
    laws::states_have_all_places();
    let index = counter(job, state, processor);
    let request = request_after(job, state, processor);
    let instruction = instruction_in(alloc, names, job, index)?;
    let target = target_in(alloc, names, job, processor, request.put)?;
    let lines = names.lines();
    let (mut steps, mut processors, mut indices) = (Buffer::new(), Buffer::new(), Buffer::new());
    let (mut values, mut nexts, mut numbers) = (Buffer::new(), Buffer::new(), Buffer::new());
    let fields = [
        number_text(&mut steps, u64::from(made) + 1),
        number_text(&mut processors, u64::from(processor)),
        number_text(&mut indices, u64::from(index)),
        instruction.as_bytes(),
        target.as_slice(),
        value_in(&mut values, request.put),
        number_text(&mut nexts, u64::from(request.next)),
        line_in(&mut numbers, job, lines.unwrap_or(&[]), index),
    ];
    write_record(writer, &fields, lines.is_some())
}

// Writes the fields of a row, the last one only where lines are told.
fn write_record<W: Write + Drop>(
    writer: &mut Writer<W>,
    fields: &[&[u8]; 8],
    told: bool,
) -> Result<(), AllocError>
    requires { IsBetweenRecords writer.old }
    ensures between { OnOk result (IsBetweenRecords writer.new) }
    ensures text { OnOk result (Appends (text_written W.contents writer.old)
        (text_written W.contents writer.new)
        (row_text default_writer (told_fields told (map (λ f. f.now) fields.now)))) }
{
    let count = if told { 8 } else { 7 };
    match writer.write_fields(&fields[..count]) {
        Ok(()) => Ok(()),
        Err(_) => Err(AllocError),
    }
}

// The instruction at a counter, or why the processor has stopped.
fn instruction_in<N: RowNames>(
    alloc: Global,
    names: &N,
    job: &Job,
    counter: u32,
) -> Result<String, AllocError>
    ensures { IfOk result (λ text. string_bytes text
        ≡ instruction_at (N.words names.now) job.now counter) }
{
    match job.code().get(counter as usize) {
        Some(instr) => instruction_text(alloc, names, *instr),
        None => {
            let word = stop(job, counter);
            format!(in alloc; "{word}")
        }
    }
}

// Why a processor with this counter has stopped.
fn stop(job: &Job, counter: u32) -> &'static str
    ensures { result.now ≡ stop_word job.now counter }
{
    if counter as usize == job.code().len() {
        "halted"
    } else {
        "out_of_range"
    }
}

// What data of a processor goes to.
fn target_in<N: RowNames>(
    alloc: Global,
    names: &N,
    job: &Job,
    processor: u32,
    put: Option<(u32, u32)>,
) -> Result<Vec<u8>, AllocError>
    requires processor { processor < job.now.procs }
    requires place { IfSome put (λ w. IsDataPlace job.now processor w.0) }
    ensures { IfOk result (λ text. text.items
        ≡ target_text (N.words names.now) job.now processor put) }
{
    job.limits_hold();
    let cells = job.cells();
    match put {
        None => Ok(Vec::new(alloc)),
        Some((place, _)) if place < cells => names.cell_text(alloc, place),
        Some((place, _)) => {
            let register = place - job.register_place(processor, 0);
            let text = format!(in alloc; "r{register}")?;
            Ok(text.into_bytes())
        }
    }
}

// The data, if there is any.
fn value_in(buffer: &mut Buffer, put: Option<(u32, u32)>) -> &[u8]
    ensures text { result.now ≡ value_text put }
    ensures plain { field_text default_writer result.now ≡ result.now }
{
    match put {
        Some((_, value)) => number_text(buffer, u64::from(value)),
        None => &[],
    }
}

// The line that the instruction at a counter came from, if it came from one.
fn line_in<'b>(buffer: &'b mut Buffer, job: &Job, lines: &[u64], counter: u32) -> &'b [u8]
    ensures text { result.now ≡ line_number_text lines.now job.now counter }
    ensures plain { field_text default_writer result.now ≡ result.now }
{
    let line = lines.get(counter as usize).copied().unwrap_or(0);
    if (counter as usize) < job.code().len() && line > 0 {
        number_text(buffer, line)
    } else {
        &[]
    }
}
