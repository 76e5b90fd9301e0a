//! The names of arrays in the printed job of a text, and in the rows of its steps.
ghost use Rattle.std.specs.Prelude.{◌≡◌, ◌+◌, ◌<◌, ◌++◌, if◌then◌else◌, Some, None, slice_get};
ghost use Rattle.std.specs.Prelude.{string_bytes, IfOk, MatchOption, OnOk};
ghost use Rattle.std.specs.Option.{option_copied, option_map};
ghost use Rattle.pardo_program.specs.Lawful.{AreArrays};
ghost use Rattle.pardo_program.specs.Program.{shared_cells};
ghost use Rattle.naming.specs.ArrayNames.{array_words, may_name, private_name};
ghost use Rattle.naming.specs.ArrayNames.{shared_name, variable_name, word_of_array};
ghost use Rattle.naming.specs.RowNames.{place_word, range_word, row_words};
ghost use Rattle.pardo_job.specs.Printed.{cell_text};

use crate::names::lines_of;
use crate::places::{arrays_at, place_text};
use crate::texts::Spelled;
use job_text::{ArrayNames, Dotted};
use pardo_text::{Array as SharedArray, Program};
use pram_job::Array;
use pram_rows::{ByNumbers, RowNames};
use pram_text::{is_name_word, register_in};
use std::alloc::{AllocError, Global};

impl ArrayNames for Spelled {
    ghost words = { λ spelled. array_words spelled.names };

    fn push_name(&self, text: &mut String, array: Array) -> Result<(), AllocError> {
        match &self.names {
            None => Dotted.push_name(text, array),
            Some(naming) => push_name_of(text, naming.program(), array),
        }
    }
}

impl RowNames for Spelled {
    ghost words = { λ spelled. row_words spelled.names };

    fn lines(&self) -> Option<&[u64]> {
        lines_of(self)
    }

    fn cell_text(&self, alloc: Global, cell: u32) -> Result<Vec<u8>, AllocError> {
        match &self.names {
            None => BY_NUMBERS.cell_text(alloc, cell),
            Some(naming) => place_in(alloc, naming.program().arrays(), cell),
        }
    }

    fn array_text(&self, alloc: Global, array: Array) -> Result<String, AllocError> {
        match &self.names {
            None => BY_NUMBERS.array_text(alloc, array),
            Some(naming) => range_in(alloc, naming.program(), array),
        }
    }
}

const BY_NUMBERS: ByNumbers<'static> = ByNumbers { lines: None };

// The place of a cell, or its number.
fn place_in(alloc: Global, arrays: &[SharedArray], cell: u32) -> Result<Vec<u8>, AllocError>
    requires { AreArrays arrays.now 0 }
    ensures { IfOk result (λ text. text.items ≡ place_word (cell_text arrays.now cell) cell) }
{
    let place = place_text(alloc, arrays, cell as usize)?;
    if place.is_empty() || register_in(place.as_slice()).is_ok() {
        return BY_NUMBERS.cell_text(alloc, cell);
    }
    Ok(place)
}

// The name of the variable that has just these cells, or these.
fn range_in(alloc: Global, program: &Program, array: Array) -> Result<String, AllocError>
    requires { AreArrays program.now.arrays 0 }
    ensures { IfOk result (λ text. string_bytes text
        ≡ range_word (variable_name program.now array) array) }
{
    if let Some(name) = variable_name(program, array) {
        if let Some(word) = word_in(name) {
            return String::from_str(alloc, word);
        }
    }
    BY_NUMBERS.array_text(alloc, array)
}

// The name of the variable that has just these cells, or else that of an array of no name.
fn push_name_of(text: &mut String, program: &Program, array: Array) -> Result<(), AllocError>
    requires { AreArrays program.now.arrays 0 }
    ensures { OnOk result (string_bytes text.new ≡ string_bytes text.old
        ++ word_of_array (variable_name program.now array) array) }
{
    if let Some(name) = variable_name(program, array) {
        if let Some(word) = word_in(name) {
            return text.push_str(word);
        }
    }
    Dotted.push_name(text, array)
}

// A name that an array may have in a text of the machine.
#[tactic(auto, using(crate::proofs::ArrayNames::name_is_text))]
fn word_in(name: &[u8]) -> Option<&str>
    ensures { option_copied result ≡ (if may_name name.now then Some name.now else None) }
{
    if !is_name_word(name) || register_in(name).is_ok() {
        return None;
    }
    match str::from_utf8(name) {
        Ok(word) => Some(word),
        Err(_) => unreachable!(),
    }
}

fn variable_name(program: &Program, array: Array) -> Option<&[u8]>
    requires { AreArrays program.now.arrays 0 }
    ensures { option_copied result ≡ variable_name program.now array }
{
    match shared_name(program.arrays(), array) {
        Some(name) => Some(name),
        None => private_name(program, array),
    }
}

// The name of the shared array that has just these cells.
fn shared_name(arrays: &[SharedArray], array: Array) -> Option<&[u8]>
    requires { AreArrays arrays.now 0 }
    ensures { option_copied result ≡ shared_name arrays.now array }
{
    let (base, len) = (array.base as usize, array.len as usize);
    let left = arrays_at(arrays, base);
    if left.is_empty() {
        return None;
    }
    let held = &left[0];
    if held.base() == base && held.start().len() == len {
        Some(held.name())
    } else {
        None
    }
}

// The name of the private variable that has just these cells.
fn private_name(program: &Program, array: Array) -> Option<&[u8]>
    requires { AreArrays program.now.arrays 0 }
    ensures { option_copied result ≡ private_name program.now array }
{
    let len = array.len as usize;
    if len == 0 || len != program.procs() as usize {
        return None;
    }
    match after_shared(program.arrays(), array.base as usize) {
        Some(after) => name_in_row(program, array, after),
        None => None,
    }
}

// The same of an array that begins so many cells after those of the shared ones.
fn name_in_row(program: &Program, array: Array, after: usize) -> Option<&[u8]>
    requires at { shared_cells program.now.arrays + after ≡ array.base }
    requires len { array.len ≡ program.now.procs }
    requires some { 0 < array.len }
    ensures { option_copied result ≡ private_name program.now array }
{
    let len = array.len as usize;
    if after % len != 0 {
        return None;
    }
    name_of_row(program, after / len)
}

// The name of a private variable, by its number.
fn name_of_row(program: &Program, which: usize) -> Option<&[u8]>
    ensures { option_copied result
        ≡ option_map (λ variable. variable.name) (slice_get program.now.privates which) }
{
    match program.privates().get(which) {
        Some(variable) => Some(variable.name()),
        None => None,
    }
}

// How many cells stand between those of the arrays and this one, unless it is one of them.
#[tactic(auto, using(crate::proofs::ArrayNames::ends_last))]
fn after_shared(arrays: &[SharedArray], cell: usize) -> Option<usize>
    requires { AreArrays arrays.now 0 }
    ensures { MatchOption result (cell < shared_cells arrays.now)
        (λ after. shared_cells arrays.now + after ≡ cell) }
{
    if arrays.is_empty() {
        return Some(cell);
    }
    let last = &arrays[arrays.len() - 1];
    let (base, len) = (last.base(), last.start().len());
    if cell < base || cell - base < len {
        return None;
    }
    Some(cell - base - len)
}
