//! The places of a program's cells, and the cell that a place names.
ghost use Rattle.std.specs.Prelude.{◌≡◌, ◌≢◌, ◌+◌, ◌<◌, ◌≤◌, ◌^◌, ◌↔◌, ◌++◌, ℕ, List, true};
ghost use Rattle.std.specs.Prelude.{codes, decimal, length, IfOk, OnOk, IsTrue, MatchOption};
ghost use Rattle.std.specs.Option.{option_copied};
ghost use Rattle.pardo_program.specs.Lawful.{AreArrays};
ghost use Rattle.pardo_job.specs.Printed.{cell_text, has_cell, place_text};
ghost use Rattle.naming.specs.Inner.Places.{IsPlaceText, NameAlike, read_on, with_digit};
ghost use Rattle.naming.specs.CellLists.{AreOfArray, array_named};
ghost use Rattle.naming.specs.declared.places.Stretch.{Stretch};

use pardo_answers::push_cell;
use pardo_text::Array;
use std::alloc::{AllocError, Global};

/// Cells that follow one another: the first one, and the one after the last.
#[derive(Clone, Copy, Debug, PartialEq, Eq)]
pub(crate) struct Stretch {
    pub(crate) first: u32,
    pub(crate) end: u32,
}

// A number in brackets is read on as long as it is below.
const MOST: usize = 1 << 32;

/// Those of the arrays that may have the cell: one at most. They are halved as long as they are
/// more.
pub(crate) fn arrays_at(arrays: &[Array], cell: usize) -> &[Array]
    requires { AreArrays arrays.now 0 }
    ensures text { cell_text result.now cell ≡ cell_text arrays.now cell }
    ensures named { NameAlike result.now arrays.now cell }
    ensures few { length result.now ≤ 1 }
{
    let mut left = arrays;
    while left.len() > 1 {
        left = half_at(left, cell);
    }
    left
}

// The half of the arrays that may have the cell.
fn half_at(arrays: &[Array], cell: usize) -> &[Array]
    requires are { (base : ℕ) × AreArrays arrays.now base }
    requires several { 1 < length arrays.now }
    ensures are { (base : ℕ) × AreArrays result.now base }
    ensures text { cell_text result.now cell ≡ cell_text arrays.now cell }
    ensures named { NameAlike result.now arrays.now cell }
    ensures fewer { length result.now < length arrays.now }
{
    let half = arrays.len() / 2;
    if arrays[half].base() <= cell {
        return &arrays[half..];
    }
    &arrays[..half]
}

/// Adds the place of a cell, as answers tell it; nothing where it has none.
pub(crate) fn push_told(text: &mut Vec<u8>, arrays: &[Array], cell: usize) -> Result<(), AllocError>
    requires { AreArrays arrays.now 0 }
    ensures { OnOk result (text.new.items ≡ text.old.items ++ cell_text arrays.now cell) }
{
    push_cell(text, arrays_at(arrays, cell), cell)
}

/// The place of a cell as a text.
pub(crate) fn place_text(
    alloc: Global,
    arrays: &[Array],
    cell: usize,
) -> Result<Vec<u8>, AllocError>
    requires { AreArrays arrays.now 0 }
    ensures { IfOk result (λ text. text.items ≡ cell_text arrays.now cell) }
{
    let mut text = Vec::new(alloc);
    push_told(&mut text, arrays, cell)?;
    Ok(text)
}

/// The cells of the array of this name, if there is one and all of them are below the count.
pub(crate) fn array_at(arrays: &[Array], name: &[u8], count: u32) -> Option<Stretch>
    ensures { MatchOption result
        ((cells : Stretch) → cells.end ≤ count → ¬ AreOfArray arrays.now name.now cells)
        (λ cells. (cells.end ≤ count) × AreOfArray arrays.now name.now cells) }
{
    let array = array_named(arrays, name)?;
    let (base, len) = (array.base(), array.start().len());
    let count = count as usize;
    if base > count || len > count - base {
        return None;
    }
    Some(Stretch {
        first: base as u32,
        end: (base + len) as u32,
    })
}

// The array of this name.
fn array_named<'a>(arrays: &'a [Array], name: &[u8]) -> Option<&'a Array>
    ensures { option_copied result ≡ array_named arrays.now name.now }
{
    for array in arrays {
        if !array.is_scalar() && array.name() == name {
            return Some(array);
        }
    }
    None
}

/// The cell, of so many, whose place is told by this text, if there is one. Arrays are gone through
/// once; of each that the text may name, no cell but that of its number is looked at.
pub(crate) fn cell_at(
    alloc: Global,
    arrays: &[Array],
    place: &[u8],
    count: u32,
) -> Result<Option<u32>, AllocError>
    requires { AreArrays arrays.now 0 }
    ensures { IfOk result (λ found. MatchOption found
        ((cell : ℕ) → cell < count → ¬ IsPlaceText arrays.now place.now cell)
        (λ cell. (cell < count) × IsPlaceText arrays.now place.now cell)) }
{
    if place.is_empty() {
        return Ok(None);
    }
    for array in arrays {
        if let Some(cell) = cell_of(alloc, arrays, array, place, count)? {
            return Ok(Some(cell));
        }
    }
    Ok(None)
}

// The first cell of one array, below the count, whose place is told by this text.
fn cell_of(
    alloc: Global,
    arrays: &[Array],
    array: &Array,
    place: &[u8],
    count: u32,
) -> Result<Option<u32>, AllocError>
    requires { AreArrays arrays.now 0 }
    ensures { IfOk result (λ found. MatchOption found
        ((cell : ℕ) → cell < count → has_cell array.now cell ≡ true
        → place_text array.now cell ≡ place.now → cell_text arrays.now cell ≢ place.now)
        (λ cell. (cell < count) × (cell_text arrays.now cell ≡ place.now))) }
{
    let (first, last) = cells_named(array, place);
    for cell in first..last.min(count as usize) {
        if is_told(alloc, arrays, place, cell)? {
            return Ok(Some(cell as u32));
        }
    }
    Ok(None)
}

// Whether the text is that of the cell's place.
fn is_told(alloc: Global, arrays: &[Array], place: &[u8], cell: usize) -> Result<bool, AllocError>
    requires { AreArrays arrays.now 0 }
    ensures { IfOk result (λ told. IsTrue told ↔ (cell_text arrays.now cell ≡ place.now)) }
{
    let text = place_text(alloc, arrays, cell)?;
    Ok(text.as_slice() == place)
}

// The first of the cells of an array that a place may name, and the one after the last.
fn cells_named(array: &Array, place: &[u8]) -> (usize, usize)
    ensures { (cell : ℕ) → cell < 2 ^ 32 → has_cell array.now cell ≡ true
        → place_text array.now cell ≡ place.now → (result.0 ≤ cell) × (cell < result.1) }
{
    if !place.starts_with(array.name()) {
        return (0, 0);
    }
    let base = array.base();
    if array.is_scalar() || array.width().is_some() {
        return (base, base.saturating_add(array.start().len()));
    }
    let cell = base.saturating_add(last_number(place));
    (cell, cell.saturating_add(1))
}

// The number in the last brackets of a place, as 3 in `A[3]`.
fn last_number(place: &[u8]) -> usize
    ensures { (front : List ℕ) (number : ℕ) → number < 2 ^ 32
        → place.now ≡ front ++ codes "[" ++ decimal number ++ codes "]" → result ≡ number }
{
    let mut number = 0;
    for byte in place {
        number = read_on(number, *byte);
    }
    number
}

fn read_on(number: usize, byte: u8) -> usize
    ensures { result ≡ read_on number byte }
{
    match byte {
        b'[' => 0,
        b'0'..=b'9' => with_digit(number, byte - b'0'),
        _ => number,
    }
}

// A number of eleven digits and more is no cell's: what it is read as does not matter.
fn with_digit(number: usize, digit: u8) -> usize
    ensures { result ≡ with_digit number digit }
{
    if number < MOST {
        10 * number + usize::from(digit)
    } else {
        number
    }
}
