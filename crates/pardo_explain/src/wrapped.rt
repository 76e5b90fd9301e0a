//! Bounds of loops that wrap.
use crate::diagnosis::Diagnosis;
use crate::second_look::{line_at, pointing};
use pardo_text::{Program, Statement, read_program, said};
use std::alloc::{AllocError, Global};
use text_lines::is_blank;

/// A bound of a loop that is less than 0, as it is meant: `lg(1) - 1` is 4,294,967,295.
#[derive(Clone, Copy, Debug)]
pub struct Wrapped {
    /// The number of the loop's first line.
    pub line: u64,
    pub value: u32,
}

/// The first bound of a loop that wraps, if the text is a program that has one.
pub fn wrapped_bound(alloc: Global, text: &[u8]) -> Option<Wrapped> {
    match read_program(alloc, text) {
        Ok(program) => first_wrapped(&program),
        Err(_) => None,
    }
}

fn first_wrapped(program: &Program) -> Option<Wrapped> {
    for line in program.lines() {
        if let Statement::For(_, from, to, _, _) = &line.statement
            && let Some(value) = lone_great(from.constant(), to.constant())
        {
            return Some(Wrapped {
                line: line.number,
                value,
            });
        }
    }
    None
}

// The bound that is great, if the other is not: between two that wrap a loop goes as it is meant.
fn lone_great(from: Option<u32>, to: Option<u32>) -> Option<u32> {
    match (great(from), great(to)) {
        (Some(value), None) | (None, Some(value)) => Some(value),
        _ => None,
    }
}

// A number that is less than 0 with a sign.
fn great(bound: Option<u32>) -> Option<u32> {
    match bound {
        Some(value) if value >= 1 << 31 => Some(value),
        _ => None,
    }
}

/// Adds the note on the first bound of a loop that wraps.
pub(crate) fn push_wrapped(
    alloc: Global,
    text: &[u8],
    notes: &mut Vec<Diagnosis>,
) -> Result<(), AllocError> {
    let Some(
        Wrapped {
            line: number,
            value,
        },
    ) = wrapped_bound(alloc, text)
    else {
        return Ok(());
    };
    let line = line_at(text, number);
    let start = said(line)
        .iter()
        .position(|&byte| !is_blank(byte))
        .unwrap_or(0);
    let sentence = format!(in alloc;
        "note: a bound of this loop is {value}: no value is less than 0, and 0 - 1 is 4294967295"
    )?;
    let sentence = Vec::from_slice(alloc, sentence.as_bytes())?;
    notes.push(pointing(alloc, number, line, start, sentence)?)?;
    Ok(())
}
