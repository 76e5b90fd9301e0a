//! A diagnosis, and how it is printed.
ghost use Rattle.std.specs.Prelude.{◌≡◌, ◌++◌, codes, decimal, OnOk};
ghost use Rattle.pardo_explain.specs.Diagnoses.{diagnosis_text, indented, mark, spot};

use crate::look::{Look, push_sign};
use crate::push_number;
use std::alloc::AllocError;

/// Where a text is wrong, and a sentence on it: the line and the column, both counted from 1, the
/// sentence, the line as it is shown, and what stands before a mark below the column.
#[derive(Debug, Drop)]
pub struct Diagnosis {
    pub line: u64,
    pub column: u64,
    pub sentence: Vec<u8>,
    pub shown: Vec<u8>,
    pub margin: Vec<u8>,
}

/// Adds a diagnosis, as it is printed below the line of a refusal of this file.
pub fn push_diagnosis(
    text: &mut Vec<u8>,
    look: Look,
    file: &[u8],
    found: &Diagnosis,
) -> Result<(), AllocError>
    ensures { OnOk result (text.new.items ≡ text.old.items
        ++ diagnosis_text look file.now found.now) }
{
    push_spot(text, look, file, found)?;
    text.extend_from_slice(found.sentence.as_slice())?;
    push_indented(text, found.shown.as_slice())?;
    push_indented(text, found.margin.as_slice())?;
    push_mark(text, look)
}

fn push_spot(
    text: &mut Vec<u8>,
    look: Look,
    file: &[u8],
    found: &Diagnosis,
) -> Result<(), AllocError>
    ensures { OnOk result (text.new.items ≡ text.old.items
        ++ spot look file.now found.now.line found.now.column) }
{
    push_sign(text, look, b"1")?;
    text.extend_from_slice(file)?;
    push_position(text, found.line)?;
    push_position(text, found.column)?;
    text.extend_from_slice(b": ")?;
    push_sign(text, look, b"0")
}

fn push_position(text: &mut Vec<u8>, number: u64) -> Result<(), AllocError>
    ensures { OnOk result (text.new.items ≡ text.old.items ++ codes ":" ++ decimal number) }
{
    text.extend_from_slice(b":")?;
    push_number(text, number)
}

fn push_mark(text: &mut Vec<u8>, look: Look) -> Result<(), AllocError>
    ensures { OnOk result (text.new.items ≡ text.old.items ++ mark look) }
{
    push_sign(text, look, b"31")?;
    text.extend_from_slice(b"^")?;
    push_sign(text, look, b"0")?;
    text.extend_from_slice(b"\n")
}

fn push_indented(text: &mut Vec<u8>, line: &[u8]) -> Result<(), AllocError>
    ensures { OnOk result (text.new.items ≡ text.old.items ++ indented line.now) }
{
    text.extend_from_slice(b"\n    ")?;
    text.extend_from_slice(line)
}
