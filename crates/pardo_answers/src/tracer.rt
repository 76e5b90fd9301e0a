//! The run of a program line by line.
ghost use Rattle.std.specs.Prelude.{◌≡◌, ◌+◌, ◌++◌, ◌<◌, true, OnOk, slice_index, slice_get};
ghost use Rattle.std.specs.List.{flat_map, range_with_len};
ghost use Rattle.std.specs.Option.{option_copied};
ghost use Rattle.pram_machine.specs.Machine.{counter as counter_of};
ghost use Rattle.pardo_answers.specs.Traces.{array_with, behind, count_active, first_standing};
ghost use Rattle.pardo_answers.specs.Traces.{gone_row, takes_steps, heading, heading_of};
ghost use Rattle.pardo_answers.specs.Traces.{line_begun, begun_row, line_standing, mask_cell};
ghost use Rattle.pardo_answers.specs.Traces.{mask_depth, private_row, private_with, processor_rows};
ghost use Rattle.pardo_answers.specs.Traces.{put_row, row_head, takes_part, trace_rows};
ghost use Rattle.pardo_answers.specs.Traces.{lines_before, made_in_steps};
ghost use Rattle.pardo_job.specs.Printed.{has_cell};

use crate::push_place;
use pardo_text::{Array, Line, Private, Program, Statement};
use pram_rows::Rows;
use pram_step::{Moment, counter, laws, request_after};
use pram_streams::push_labelled;
use std::alloc::{AllocError, Global};

/// The fields of a row.
pub const HEADER: &str = "step,line,active,name,index,value\n";

/// What the run of a program is told by: the program, where the code of each of its lines begins,
/// and the numbers of the lines that the instructions of its job came from.
#[derive(Clone, Copy)]
pub struct Tracer<'a> {
    pub program: &'a Program,
    pub places: &'a [u32],
    pub numbers: &'a [u64],
}

impl Rows for Tracer<'_> {
    ghost rows = { λ tracer. trace_rows tracer.program.now tracer.places.now tracer.numbers.now };

    fn header(&self) -> &str {
        HEADER
    }

    fn push_step(
        &self,
        _alloc: Global,
        moment: &Moment<'_>,
        mut bytes: Vec<u8>,
    ) -> Result<Vec<u8>, AllocError> {
        push_heading(&mut bytes, self, moment)?;
        push_rows(&mut bytes, self, moment)?;
        Ok(bytes)
    }
}

// Where a line begins, its record.
fn push_heading(
    text: &mut Vec<u8>,
    tracer: &Tracer<'_>,
    moment: &Moment<'_>,
) -> Result<(), AllocError>
    ensures { OnOk result (text.new.items ≡ text.old.items
        ++ heading tracer.now.program.now tracer.now.places.now moment.now.job.now
        moment.now.state.now (moment.now.made + 1)) }
{
    push_line(text, tracer.program, moment, line_now(tracer, moment))
}

// The line that begins, if one does.
fn line_now<'a>(tracer: &Tracer<'a>, moment: &Moment<'_>) -> Option<&'a Line>
    ensures { option_copied result ≡ line_standing tracer.now.program.now tracer.now.places.now
        (first_standing moment.now.job.now moment.now.state.now) }
{
    match first_standing(moment) {
        None => None,
        Some(at) => line_begun(tracer, at),
    }
}

fn push_line(
    text: &mut Vec<u8>,
    program: &Program,
    moment: &Moment<'_>,
    line: Option<&Line>,
) -> Result<(), AllocError>
    ensures { OnOk result (text.new.items ≡ text.old.items ++ heading_of program.now
        moment.now.job.now moment.now.state.now (moment.now.made + 1)
        (option_copied line.entry)) }
{
    let Some(line) = line else {
        return Ok(());
    };
    let depth = mask_depth(&line.statement, line.depth);
    let active = count_active(program, moment, depth);
    push_begun_row(text, step_of(moment), line.number, active)
}

// The number of the step that comes next.
fn step_of(moment: &Moment<'_>) -> u64
    ensures { result ≡ moment.now.made + 1 }
{
    u64::from(moment.made) + 1
}

fn push_begun_row(text: &mut Vec<u8>, step: u64, number: u64, active: u64) -> Result<(), AllocError>
    ensures { OnOk result (text.new.items ≡ text.old.items ++ begun_row step number active) }
{
    push_labelled(text, b"", step)?;
    push_labelled(text, b",", number)?;
    push_labelled(text, b",", active)?;
    text.extend_from_slice(b",,,\n")?;
    Ok(())
}

// Where the first processor stands that runs.
fn first_standing(moment: &Moment<'_>) -> Option<u32>
    ensures { result ≡ first_standing moment.now.job.now moment.now.state.now }
{
    for processor in 0..moment.job.procs() {
        let at = counter_in(moment, processor);
        if (at as usize) < moment.job.code().len() {
            return Some(at);
        }
    }
    None
}

// Where a processor stands.
fn counter_in(moment: &Moment<'_>, processor: u32) -> u32
    requires { processor < moment.now.job.now.procs }
    ensures { result ≡ counter_of moment.now.job.now moment.now.state.now processor }
{
    laws::states_have_all_places();
    moment.job.limits_hold();
    counter(moment.job, moment.state, processor)
}

// The line whose code begins at an instruction.
fn line_begun<'a>(tracer: &Tracer<'a>, at: u32) -> Option<&'a Line>
    ensures { option_copied result
        ≡ line_begun tracer.now.program.now tracer.now.places.now at }
{
    let index = lines_before(tracer.places, at);
    if place_at(tracer.places, index) != at {
        return None;
    }
    line_made_in_steps(tracer.program, index)
}

fn line_made_in_steps(program: &Program, index: usize) -> Option<&Line>
    ensures { option_copied result ≡ made_in_steps (slice_get program.now.lines index) }
{
    let line = program.lines().get(index)?;
    if takes_steps(&line.statement) {
        Some(line)
    } else {
        None
    }
}

fn lines_before(places: &[u32], at: u32) -> usize
    ensures { result ≡ lines_before places.now at }
{
    places
        .iter()
        .filter(|place| **place <= at)
        .count()
        .saturating_sub(1)
}

fn place_at(places: &[u32], index: usize) -> u32
    ensures { result ≡ slice_index places.now index }
{
    places.get(index).copied().unwrap_or(0)
}

fn takes_steps(statement: &Statement) -> bool
    ensures { result ≡ takes_steps statement.now }
{
    match statement {
        Statement::EndIf => false,
        _ => true,
    }
}

// The depth of the mask whose processors make a line.
fn mask_depth(statement: &Statement, depth: usize) -> usize
    ensures { result ≡ mask_depth statement.now depth }
{
    match statement {
        Statement::While(..) => 0,
        Statement::EndWhile(_) => 0,
        Statement::For(..) => 0,
        Statement::EndFor(_) => 0,
        _ => depth,
    }
}

// How many processors are in the mask of a depth and run.
fn count_active(program: &Program, moment: &Moment<'_>, depth: usize) -> u64
    ensures { result
        ≡ count_active program.now moment.now.job.now moment.now.state.now depth }
{
    let mut count = 0;
    for processor in 0..moment.job.procs() {
        count += u64::from(takes_part(program, moment, depth, processor));
    }
    count
}

fn takes_part(program: &Program, moment: &Moment<'_>, depth: usize, processor: u32) -> bool
    requires { processor < moment.now.job.now.procs }
    ensures { result
        ≡ takes_part program.now moment.now.job.now moment.now.state.now depth processor }
{
    let at = counter_in(moment, processor);
    let runs = (at as usize) < moment.job.code().len();
    runs && (depth == 0 || mask_at(program, moment, depth, processor) != 0)
}

// What a processor's cell holds in the mask of a depth.
fn mask_at(program: &Program, moment: &Moment<'_>, depth: usize, processor: u32) -> u32
    ensures { result ≡ slice_index moment.now.state.now
        (mask_cell program.now moment.now.job.now depth processor) }
{
    let rows = program.choices().saturating_sub(depth.saturating_sub(1));
    let cells = rows.saturating_mul(moment.job.procs() as usize);
    let first = (moment.job.cells() as usize).saturating_sub(cells);
    place_at(moment.state.places(), first + processor as usize)
}

// What each processor writes.
fn push_rows(text: &mut Vec<u8>, tracer: &Tracer<'_>, moment: &Moment<'_>) -> Result<(), AllocError>
    ensures { OnOk result (text.new.items ≡ text.old.items
        ++ flat_map (processor_rows tracer.now.program.now tracer.now.numbers.now
        moment.now.job.now moment.now.state.now (moment.now.made + 1))
        (range_with_len 0 moment.now.job.now.procs)) }
{
    for processor in 0..moment.job.procs() {
        push_processor(text, tracer, moment, processor)?;
    }
    Ok(())
}

// What a row says first, and of whom it is.
#[derive(Clone, Copy)]
struct Head {
    step: u64,
    line: u64,
    processor: u32,
}

fn push_processor(
    text: &mut Vec<u8>,
    tracer: &Tracer<'_>,
    moment: &Moment<'_>,
    processor: u32,
) -> Result<(), AllocError>
    requires { processor < moment.now.job.now.procs }
    ensures { OnOk result (text.new.items ≡ text.old.items
        ++ processor_rows tracer.now.program.now tracer.now.numbers.now
        moment.now.job.now moment.now.state.now (moment.now.made + 1) processor) }
{
    let at = counter_in(moment, processor);
    let request = request_after(moment.job, moment.state, processor);
    let head = Head {
        step: step_of(moment),
        line: number_at(tracer.numbers, at),
        processor,
    };
    push_put(text, tracer.program, moment.job.procs(), head, request.put)?;
    let code = moment.job.code().len();
    push_gone(
        text,
        head,
        (at as usize) < code && request.next as usize == code + 1,
    )
}

fn number_at(numbers: &[u64], index: u32) -> u64
    ensures { result ≡ slice_index numbers.now index }
{
    numbers.get(index as usize).copied().unwrap_or(0)
}

fn push_head(text: &mut Vec<u8>, head: Head) -> Result<(), AllocError>
    ensures { OnOk result (text.new.items ≡ text.old.items ++ row_head head.step head.line) }
{
    push_labelled(text, b"", head.step)?;
    push_labelled(text, b",", head.line)?;
    text.extend_from_slice(b",,")
}

fn push_gone(text: &mut Vec<u8>, head: Head, goes: bool) -> Result<(), AllocError>
    ensures { OnOk result (text.new.items ≡ text.old.items
        ++ gone_row (row_head head.step head.line) head.processor goes) }
{
    if goes {
        push_leaving(text, head)
    } else {
        Ok(())
    }
}

fn push_leaving(text: &mut Vec<u8>, head: Head) -> Result<(), AllocError>
    ensures { OnOk result (text.new.items ≡ text.old.items
        ++ gone_row (row_head head.step head.line) head.processor true) }
{
    push_head(text, head)?;
    push_labelled(text, b"gone processor,", u64::from(head.processor))?;
    text.extend_from_slice(b",\n")?;
    Ok(())
}

// What is put to a place of the program.
fn push_put(
    text: &mut Vec<u8>,
    program: &Program,
    procs: u32,
    head: Head,
    put: Option<(u32, u32)>,
) -> Result<(), AllocError>
    requires { head.processor < procs }
    ensures { OnOk result (text.new.items ≡ text.old.items ++ put_row program.now procs
        (row_head head.step head.line) head.processor put) }
{
    let Some((cell, value)) = put else {
        return Ok(());
    };
    let Some(array) = array_with(program.arrays(), cell) else {
        let variable = private_with(program, procs, cell);
        return push_private(text, head, value, variable);
    };
    push_head(text, head)?;
    push_place(
        text,
        array,
        (cell as usize).saturating_sub(array.base()),
        value,
    )
}

fn array_with(arrays: &[Array], cell: u32) -> Option<&Array>
    ensures { option_copied result ≡ array_with arrays.now cell }
{
    for array in arrays {
        if has_cell(array, cell as usize) {
            return Some(array);
        }
    }
    None
}

fn has_cell(array: &Array, cell: usize) -> bool
    ensures { result ≡ has_cell array.now cell }
{
    let base = array.base();
    base <= cell && cell - base < array.start().len()
}

fn private_with(program: &Program, procs: u32, cell: u32) -> Option<&Private>
    requires { 0 < procs }
    ensures { option_copied result ≡ private_with program.now procs cell }
{
    let row = behind(program.arrays().last(), cell as usize) / procs as usize;
    program.privates().get(row)
}

// How far a cell stands behind the last array.
fn behind(last: Option<&Array>, cell: usize) -> usize
    ensures { result ≡ behind (option_copied last.entry) cell }
{
    match last {
        None => cell,
        Some(array) => cell
            .saturating_sub(array.base())
            .saturating_sub(array.start().len()),
    }
}

fn push_private(
    text: &mut Vec<u8>,
    head: Head,
    value: u32,
    variable: Option<&Private>,
) -> Result<(), AllocError>
    ensures { OnOk result (text.new.items ≡ text.old.items ++ private_row
        (row_head head.step head.line) head.processor value (option_copied variable.entry)) }
{
    let Some(variable) = variable else {
        return Ok(());
    };
    push_head(text, head)?;
    text.extend_from_slice(variable.name())?;
    push_labelled(text, b",", u64::from(head.processor))?;
    push_labelled(text, b",", u64::from(value))?;
    text.push(b'\n')?;
    Ok(())
}
