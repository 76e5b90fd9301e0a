//! How the cells of sights are told.
ghost use Rattle.std.specs.Prelude.{◌≡◌, ◌++◌, decimal, OnOk};
ghost use Rattle.pram_run.specs.Printed.{CellWords, cells_by_number};

use itoa::Buffer;
use std::alloc::AllocError;

/// What tells cells, and heads their sights.
pub trait CellNames {
    ghost words: { Self → CellWords };

    /// The line above sights.
    fn header(&self) -> &str
        ensures { result.now ≡ (words self.now).header };

    /// Adds what tells a cell.
    fn push_cell(&self, text: &mut Vec<u8>, cell: u32) -> Result<(), AllocError>
        ensures { OnOk result (text.new.items ≡ text.old.items ++ (words self.now).word cell) };
}

/// Cells are told by their numbers.
#[derive(Clone, Copy, Debug, PartialEq, Eq)]
pub struct Numbers;

impl CellNames for Numbers {
    ghost words = { λ _. cells_by_number };

    fn header(&self) -> &str {
        "step,cell,value\n"
    }

    fn push_cell(&self, text: &mut Vec<u8>, cell: u32) -> Result<(), AllocError> {
        push_number(text, cell)
    }
}

/// Adds a number.
pub(crate) fn push_number(text: &mut Vec<u8>, number: u32) -> Result<(), AllocError>
    ensures { OnOk result (text.new.items ≡ text.old.items ++ decimal number) }
{
    let mut buffer = Buffer::new();
    text.extend_from_slice(buffer.format(number).as_bytes())
}
