//! Shared arrays.
ghost use Rattle.std.specs.Prelude.{◌≡◌, ◌≢◌, ◌+◌, ◌<◌, [], ◌∷◌, ◌++◌, length, IfOk, IfErr};
ghost use Rattle.pardo_program.specs.Program.{shared_cells, array_after};

use crate::fault::PardoKind;
use pardo_program::limits::MAX_CELLS;
use pardo_program::{Array, Shape};
use std::alloc::Global;
use std::marker::Model;

/// The shared arrays so far.
#[derive(Drop)]
pub(crate) struct Arrays {
    arrays: Vec<Array>,
    /// How many cells they have.
    cells: usize,
}

impl Model for Arrays {
    ghost use Rattle.std.specs.Prelude.{◌≡◌, ◌≤◌, List};
    ghost use Rattle.pardo_program.specs.Program.{ArrayData, shared_cells};
    ghost use Rattle.pardo_program.specs.declared.limits.TheConstants.{MAX_CELLS};

    ghost Value = { List ArrayData };

    ghost view = { λ a. a.arrays.items };

    ghost invariant = { λ a. (a.cells ≡ shared_cells a.arrays.items) × (a.cells ≤ MAX_CELLS) };
}

impl Arrays {
    /// No array.
    pub(crate) fn new(alloc: Global) -> Self
        ensures { result ≡ [] }
    {
        Arrays {
            arrays: Vec::new(alloc),
            cells: 0,
        }
    }

    /// One array more, unless they then have too many cells.
    pub(crate) fn push(
        &mut self,
        name: Vec<u8>,
        shape: Shape,
        start: Vec<u32>,
    ) -> Result<(), PardoKind>
        ensures taken { IfOk result (λ _. self.new ≡ self.old
            ++ array_after self.old name.items shape start.items ∷ []) }
        ensures refused { IfErr result (λ kind. kind ≢ PardoKind.Memory
            → (kind ≡ PardoKind.TooManyCells)
            × (MAX_CELLS < shared_cells self.old + length start.items)) }
    {
        let base = self.cells;
        let cells = base.saturating_add(start.len());
        if cells > MAX_CELLS as usize {
            return Err(PardoKind::TooManyCells);
        }
        self.arrays.push(Array::new(name, shape, base, start))?;
        self.cells = cells;
        Ok(())
    }

    /// How many arrays there are.
    pub(crate) fn len(&self) -> usize
        ensures { result ≡ length self.now }
    {
        self.arrays.len()
    }

    /// How many cells they have.
    pub(crate) fn cells(&self) -> usize
        ensures { result ≡ shared_cells self.now }
    {
        self.cells
    }

    /// The arrays, in their order.
    pub(crate) fn into_items(self) -> Vec<Array>
        ensures { result.items ≡ self }
    {
        self.arrays
    }
}
