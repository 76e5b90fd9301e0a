//! What names hold.
ghost use Rattle.std.specs.Prelude.{◌≡◌, IfOk, map, slice_index};
ghost use Rattle.std.specs.Option.{option_map};
ghost use Rattle.text_lines.specs.Lines.{words_of};
ghost use Rattle.exercise_text.specs.Values.{declared_array, held_by, array_start, array_values};
ghost use Rattle.exercise_text.specs.Values.{wanted_by};

use pardo_text::Array;
use std::alloc::{AllocError, Global};
use std::marker::Model;
use text_lines::next_word;

/// A name, and the values that are wanted of it.
#[derive(Drop)]
pub struct Wanted {
    pub name: Vec<u8>,
    pub values: Vec<u32>,
}

impl Model for Wanted {
    ghost use Rattle.exercise_text.specs.Values.{WantedData};

    ghost Value = { WantedData };

    ghost view = { λ w. record { name = w.name.items; values = w.values.items } };
}

/// The array or scalar of this name.
pub fn array_named<'a>(arrays: &'a [Array], name: &[u8]) -> Option<&'a Array>
    ensures { option_map (λ array. array.now) result ≡ declared_array arrays.now name.now }
{
    arrays.iter().find(|array| array.name() == name)
}

/// What a cell holds.
pub fn value_at(cells: &[u32], cell: usize) -> u32
    ensures { result ≡ slice_index cells.now cell }
{
    cells.get(cell).copied().unwrap_or(0)
}

// What the places of an array hold.
fn values_in(alloc: Global, array: &Array, cells: &[u32]) -> Result<Vec<u32>, AllocError>
    ensures { IfOk result
        (λ values. values.items ≡ array_values (slice_index cells.now) array.now) }
{
    let mut values = Vec::new(alloc);
    for index in 0..array.start().len() {
        values.push(value_at(cells, array.base().saturating_add(index)))?;
    }
    Ok(values)
}

/// What the places of the name hold.
pub fn held_by(
    alloc: Global,
    arrays: &[Array],
    cells: &[u32],
    name: &[u8],
) -> Result<Vec<u32>, AllocError>
    ensures { IfOk result (λ values. values.items
        ≡ held_by arrays.now (slice_index cells.now) name.now) }
{
    match array_named(arrays, name) {
        None => Ok(Vec::new(alloc)),
        Some(array) => values_in(alloc, array, cells),
    }
}

// What the places of the name start with.
fn start_of(alloc: Global, arrays: &[Array], name: &[u8]) -> Result<Vec<u32>, AllocError>
    ensures { IfOk result (λ values. values.items ≡ array_start arrays.now name.now) }
{
    match array_named(arrays, name) {
        None => Ok(Vec::new(alloc)),
        Some(array) => Vec::from_slice(alloc, array.start()),
    }
}

/// What these names hold at the end, which is wanted.
pub fn wanted_at_end(
    alloc: Global,
    names: &[u8],
    arrays: &[Array],
    cells: &[u32],
) -> Result<Vec<Wanted>, AllocError>
    ensures { IfOk result (λ wanted. wanted.items
        ≡ map (wanted_by (held_by arrays.now (slice_index cells.now))) (words_of names.now)) }
{
    let mut wanted = Vec::new(alloc);
    let mut rest = names;
    while let Some((word, after)) = next_word(rest) {
        let values = held_by(alloc, arrays, cells, word)?;
        let name = Vec::from_slice(alloc, word)?;
        wanted.push(Wanted { name, values })?;
        rest = after;
    }
    Ok(wanted)
}

/// What these names start with, which is wanted.
pub fn wanted_at_start(
    alloc: Global,
    names: &[u8],
    arrays: &[Array],
) -> Result<Vec<Wanted>, AllocError>
    ensures { IfOk result (λ wanted. wanted.items
        ≡ map (wanted_by (array_start arrays.now)) (words_of names.now)) }
{
    let mut wanted = Vec::new(alloc);
    let mut rest = names;
    while let Some((word, after)) = next_word(rest) {
        let values = start_of(alloc, arrays, word)?;
        let name = Vec::from_slice(alloc, word)?;
        wanted.push(Wanted { name, values })?;
        rest = after;
    }
    Ok(wanted)
}
