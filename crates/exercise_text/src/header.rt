//! The header of an exercise as an input sets it, and what it says.
ghost use Rattle.std.specs.Prelude.{◌≡◌, Ok, IfErr, IfOk, codes, map, slice_index};
ghost use Rattle.text_lines.specs.Lines.{words_of};
ghost use Rattle.exercise_text.specs.Sets.{text_as_input};
ghost use Rattle.exercise_text.specs.Headers.{IsWhyRefused, header_as_set, header_of, header_text};
ghost use Rattle.exercise_text.specs.Headers.{array_size, expression_value};
ghost use Rattle.exercise_text.specs.Values.{array_start};
ghost use Rattle.pardo_text.specs.declared.fault.PardoKind.TheVariants.{Memory};

use crate::values::{array_named, value_at};
use crate::{Size, set_text};
use pardo_text::{Array, PardoFault, PardoKind, Program, read_program};
use std::alloc::{AllocError, Global};

const MEMORY: PardoFault = PardoFault {
    line: 0,
    kind: PardoKind::Memory,
};

fn no_memory(_error: AllocError) -> PardoFault
    ensures { result.kind ≡ Memory }
{
    MEMORY
}

// A header, with one scalar more that starts with the value of an expression, as a program.
fn header_text(alloc: Global, header: &[u8], value: &[u8]) -> Result<Vec<u8>, AllocError>
    ensures { IfOk result (λ text. text.items ≡ header_text header.now value.now) }
{
    let mut text = Vec::from_slice(alloc, header)?;
    text.extend_from_slice(b"shared _ = ")?;
    text.extend_from_slice(value)?;
    text.extend_from_slice(b"\ncode\n_ := 0\n")?;
    Ok(text)
}

/// The program of a header with one scalar more, `_`, that starts with the value of an expression.
pub fn read_header(alloc: Global, header: &[u8], value: &[u8]) -> Result<Program, PardoFault>
    ensures program { IfOk result (λ program. header_of header.now value.now ≡ Ok program) }
    ensures refused { IfErr result (IsWhyRefused (header_of header.now value.now)) }
{
    match header_text(alloc, header, value) {
        Ok(text) => read_program(alloc, text.as_slice()),
        Err(error) => Err(no_memory(error)),
    }
}

/// The value of an expression over the constants of a header.
pub fn value_by(alloc: Global, header: &[u8], value: &[u8]) -> Result<u32, PardoFault>
    ensures found { IfOk result (λ found. expression_value header.now value.now ≡ Ok found) }
    ensures refused { IfErr result (IsWhyRefused (expression_value header.now value.now)) }
{
    let program = read_header(alloc, header, value)?;
    Ok(scalar_start(program.arrays()))
}

// What the scalar `_` starts with.
fn scalar_start(arrays: &[Array]) -> u32
    ensures { result ≡ slice_index (array_start arrays.now (codes "_")) 0 }
{
    match array_named(arrays, b"_") {
        None => 0,
        Some(array) => value_at(array.start(), 0),
    }
}

// How many places each array has.
fn sizes_of(alloc: Global, arrays: &[Array]) -> Result<Vec<Size>, AllocError>
    ensures { IfOk result (λ sizes. sizes.items ≡ map array_size arrays.now) }
{
    let mut sizes = Vec::with_capacity(alloc, arrays.len())?;
    for array in arrays {
        let name = Vec::from_slice(alloc, array.name())?;
        let places = array.start().len() as u64;
        sizes.push(Size { name, places })?;
    }
    Ok(sizes)
}

// The header as the words of an input set it, of arrays of these sizes.
fn set_with(
    alloc: Global,
    arrays: &[Array],
    words: &[u8],
    given: &[u8],
) -> Result<Vec<u8>, AllocError>
    ensures { IfOk result (λ set. set.items
        ≡ text_as_input (map array_size arrays.now) (words_of words.now) given.now) }
{
    let sizes = sizes_of(alloc, arrays)?;
    set_text(alloc, sizes.as_slice(), words, given)
}

/// The header as the words of an input set it.
pub fn header_as_set(alloc: Global, given: &[u8], words: &[u8]) -> Result<Vec<u8>, PardoFault>
    ensures set { IfOk result (λ set.
        header_as_set given.now (words_of words.now) ≡ Ok set.items) }
    ensures refused { IfErr result (IsWhyRefused (header_as_set given.now (words_of words.now))) }
{
    let first = set_text(alloc, &[], words, given).map_err(no_memory)?;
    let program = read_header(alloc, first.as_slice(), b"0")?;
    set_with(alloc, program.arrays(), words, given).map_err(no_memory)
}
