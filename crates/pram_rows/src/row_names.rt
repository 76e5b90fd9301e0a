//! How rows tell cells and arrays.
ghost use Rattle.std.specs.Prelude.{◌≡◌, string_bytes, IfOk};
ghost use Rattle.std.specs.Option.{option_copied};
ghost use Rattle.pram_rows.specs.Rows.{RowWords, by_numbers};

use pram_job::Array;
use std::alloc::{AllocError, Global};

/// What tells the lines of a job's instructions, its cells and its arrays.
pub trait RowNames {
    ghost words: { Self → RowWords };

    /// The numbers of the lines that the instructions came from, if they are told. An instruction
    /// without a number, or with the number 0, came from no line.
    fn lines(&self) -> Option<&[u64]>
        ensures { option_copied result ≡ (words self.now).lines };

    /// A cell that is written to.
    fn cell_text(&self, alloc: Global, cell: u32) -> Result<Vec<u8>, AllocError>
        ensures { IfOk result (λ text. text.items ≡ (words self.now).cell cell) };

    /// An array that an instruction names.
    fn array_text(&self, alloc: Global, array: Array) -> Result<String, AllocError>
        ensures { IfOk result (λ text. string_bytes text ≡ (words self.now).array array) };
}

/// Cells are told by their numbers, as `cell 12`, and arrays by their first and last cell, as
/// `8..11`.
#[derive(Clone, Copy, Debug)]
pub struct ByNumbers<'a> {
    pub lines: Option<&'a [u64]>,
}

impl RowNames for ByNumbers<'_> {
    ghost words = { λ numbers. by_numbers (option_copied numbers.lines) };

    fn lines(&self) -> Option<&[u64]> {
        self.lines
    }

    fn cell_text(&self, alloc: Global, cell: u32) -> Result<Vec<u8>, AllocError> {
        let text = format!(in alloc; "cell {cell}")?;
        Ok(text.into_bytes())
    }

    fn array_text(&self, alloc: Global, array: Array) -> Result<String, AllocError> {
        let first = u64::from(array.base);
        let last = (first + u64::from(array.len)).saturating_sub(1);
        format!(in alloc; "{first}..{last}")
    }
}
