//! The places of cells.
ghost use Rattle.std.specs.Prelude.{◌≡◌, IfOk};
ghost use Rattle.pardo_job.specs.Printed.{cell_text};

use pardo_answers::push_cell;
use pardo_text::Array;
use std::alloc::{AllocError, Global};

/// The place of a cell, as an answer tells it.
pub(crate) fn place_text(
    alloc: Global,
    arrays: &[Array],
    cell: usize,
) -> Result<Vec<u8>, AllocError>
    ensures { IfOk result (λ text. text.items ≡ cell_text arrays.now cell) }
{
    let mut text = Vec::new(alloc);
    push_cell(&mut text, arrays, cell)?;
    Ok(text)
}
