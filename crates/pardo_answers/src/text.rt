//! Names and numbers as text.
ghost use Rattle.std.specs.Prelude.{◌≡◌, ◌≤◌, ◌+◌, ◌*◌, ◌/◌, ◌++◌, length, slice_index, OnOk};
ghost use Rattle.std.specs.List.{flat_map, range_with_len};
ghost use Rattle.pardo_job.specs.Printed.{array_lines, cell_text, has_cell, index_text, place_text};
ghost use Rattle.pardo_job.specs.Printed.{row_line, values_text};

use pardo_text::Array;
use pram_streams::push_labelled;
use std::alloc::AllocError;

/// The lines of shared arrays, of which these are the cells. Past the cells there are zeros.
pub(crate) fn push_arrays(
    text: &mut Vec<u8>,
    arrays: &[Array],
    cells: &[u32],
) -> Result<(), AllocError>
    ensures { OnOk result (text.new.items ≡ text.old.items
        ++ flat_map (array_lines (slice_index cells.now)) arrays.now) }
{
    for array in arrays {
        push_array(text, array, cells)?;
    }
    Ok(())
}

fn push_array(text: &mut Vec<u8>, array: &Array, cells: &[u32]) -> Result<(), AllocError>
    ensures { OnOk result (text.new.items ≡ text.old.items
        ++ array_lines (slice_index cells.now) array.now) }
{
    if let Some(width) = array.width() {
        return push_rows(text, array, width as usize, cells);
    }
    text.extend_from_slice(array.name())?;
    text.extend_from_slice(b" =")?;
    push_values(text, array.base(), array.start().len(), cells)?;
    text.push(b'\n')?;
    Ok(())
}

// A line for each row of so many columns.
fn push_rows(
    text: &mut Vec<u8>,
    array: &Array,
    width: usize,
    cells: &[u32],
) -> Result<(), AllocError>
    ensures { OnOk result (text.new.items ≡ text.old.items
        ++ flat_map (row_line (slice_index cells.now) array.now width)
        (range_with_len 0 (length array.now.start / width))) }
{
    for row in 0..array.start().len().checked_div(width).unwrap_or(0) {
        push_row(text, array, width, row, cells)?;
    }
    Ok(())
}

fn push_row(
    text: &mut Vec<u8>,
    array: &Array,
    width: usize,
    row: usize,
    cells: &[u32],
) -> Result<(), AllocError>
    ensures { OnOk result (text.new.items ≡ text.old.items
        ++ row_line (slice_index cells.now) array.now width row) }
{
    text.extend_from_slice(array.name())?;
    push_labelled(text, b"[", row as u64)?;
    text.extend_from_slice(b"] =")?;
    push_row_values(text, array, width, row, cells)?;
    text.push(b'\n')?;
    Ok(())
}

// What the cells of a row hold.
fn push_row_values(
    text: &mut Vec<u8>,
    array: &Array,
    width: usize,
    row: usize,
    cells: &[u32],
) -> Result<(), AllocError>
    ensures { OnOk result (text.new.items ≡ text.old.items
        ++ values_text (slice_index cells.now) (array.now.base + row * width) width) }
{
    let first = array.base().saturating_add(row.saturating_mul(width));
    push_values(text, first, width, cells)?;
    Ok(())
}

// What so many cells hold from this one on.
fn push_values(
    text: &mut Vec<u8>,
    first: usize,
    count: usize,
    cells: &[u32],
) -> Result<(), AllocError>
    ensures { OnOk result (text.new.items ≡ text.old.items
        ++ values_text (slice_index cells.now) first count) }
{
    for offset in 0..count {
        let cell = first.saturating_add(offset);
        push_labelled(text, b" ", u64::from(value_at(cells, cell)))?;
    }
    Ok(())
}

/// What a cell holds.
pub(crate) fn value_at(cells: &[u32], cell: usize) -> u32
    ensures { result ≡ slice_index cells.now cell }
{
    cells.get(cell).copied().unwrap_or(0)
}

/// Adds the place of a shared cell of these arrays, and nothing for another cell.
pub fn push_cell(text: &mut Vec<u8>, arrays: &[Array], cell: usize) -> Result<(), AllocError>
    ensures { OnOk result (text.new.items ≡ text.old.items ++ cell_text arrays.now cell) }
{
    for array in arrays {
        if has_cell(array, cell) {
            return push_place(text, array, cell);
        }
    }
    Ok(())
}

fn has_cell(array: &Array, cell: usize) -> bool
    ensures { result ≡ has_cell array.now cell }
{
    let base = array.base();
    base <= cell && cell - base < array.start().len()
}

fn push_place(text: &mut Vec<u8>, array: &Array, cell: usize) -> Result<(), AllocError>
    requires { array.now.base ≤ cell }
    ensures { OnOk result (text.new.items ≡ text.old.items ++ place_text array.now cell) }
{
    text.extend_from_slice(array.name())?;
    if !array.is_scalar() {
        text.push(b'[')?;
        push_index(text, array.width(), cell - array.base())?;
        text.push(b']')?;
    }
    Ok(())
}

// The index of a place, or both.
fn push_index(text: &mut Vec<u8>, width: Option<u32>, index: usize) -> Result<(), AllocError>
    ensures { OnOk result (text.new.items ≡ text.old.items ++ index_text width index) }
{
    let Some(width) = width else {
        return push_labelled(text, b"", index as u64);
    };
    let row = index.checked_div(width as usize).unwrap_or(0);
    let column = index.checked_rem(width as usize).unwrap_or(index);
    push_labelled(text, b"", row as u64)?;
    push_labelled(text, b",", column as u64)
}
