//! Where the values of a program lie in the machine's cells: the shared arrays in their order, and
//! then rows of a cell for each processor, one row for each private variable, then one for each
//! depth of loops, then one for each depth of `if`s.
ghost use Rattle.std.specs.Prelude.{◌≡◌, ◌+◌, ◌*◌, ◌<◌, ◌≤◌, length, nat_le, IfOk};
ghost use Rattle.pardo_program.specs.Lawful.{IsProgram};
ghost use Rattle.pardo_flat.specs.Layouts.{array_cells, cell_count, program_layout, loop_cells};
ghost use Rattle.pardo_flat.specs.Layouts.{mask_cells, private_cells, row};

use pardo_program::Program;
use pardo_program::limits::MAX_CELLS;
use pram_job::Array;
use std::alloc::{AllocError, Global};
use std::marker::Model;

/// How many cells of each kind there are, and where.
#[derive(Drop)]
pub struct Layout {
    arrays: Vec<Array>,
    shared: u32,
    procs: u32,
    privates: u32,
    loops: u32,
    choices: u32,
}

impl Model for Layout {
    ghost use Rattle.std.specs.Prelude.{◌+◌, ◌*◌, ◌≤◌};
    ghost use Rattle.std.specs.Coded.{codes};
    ghost use Rattle.pram_job.specs.contracts.instr.Array as a;
    ghost use Rattle.pardo_flat.specs.Layouts.{ProgramLayoutData};

    ghost Value = { ProgramLayoutData };

    ghost coded = { Prim.hlevel (codes, a.the_row.coded) };

    ghost view = { λ l. record {
      arrays = l.arrays.items;
      shared = l.shared;
      procs = l.procs;
      privates = l.privates;
      loops = l.loops;
      choices = l.choices;
    } };

    ghost invariant = { λ l.
        (l.shared + (l.privates + l.loops + l.choices) * l.procs ≤ 1048576) × (l.procs ≤ 65536)
        × (l.privates + l.loops + l.choices ≤ 1048576) };
}

impl Layout {
    /// The layout of a program.
    pub fn of(alloc: Global, program: &Program) -> Result<Self, AllocError>
        requires { IsProgram program.now }
        ensures { IfOk result (λ layout. layout ≡ program_layout program.now) }
    {
        let mut arrays = Vec::with_capacity(alloc, program.arrays().len())?;
        let mut shared = 0;
        for array in program.arrays() {
            let len = array.start().len() as u32;
            arrays.push(Array { base: shared, len })?;
            shared += len;
        }
        Ok(Layout {
            arrays,
            shared,
            procs: program.procs(),
            privates: program.privates().len() as u32,
            loops: program.loops() as u32,
            choices: program.choices() as u32,
        })
    }

    /// How many cells there are; at least one, as in every job.
    pub fn cells(&self) -> u32
        ensures { result ≡ cell_count self.now }
    {
        self.row(self.privates + self.loops + self.choices)
            .base
            .max(1)
    }

    /// A shared array.
    pub fn array(&self, array: usize) -> Array
        requires { array < length self.now.arrays }
        ensures { result ≡ array_cells self.now array }
    {
        self.arrays[array]
    }

    /// The cells of a private variable.
    pub fn private(&self, variable: usize) -> Array
        requires { variable < self.now.privates }
        ensures { result ≡ private_cells self.now variable }
    {
        // The limits of a type are known where one of its fields is read.
        let _ = &self.privates;
        self.row(variable as u32)
    }

    /// The cells of the variable of a loop that stands in so many others.
    pub fn loop_variable(&self, nest: usize) -> Array
        requires { nest < self.now.loops }
        ensures { result ≡ loop_cells self.now nest }
    {
        self.row(self.privates + nest as u32)
    }

    /// The cells of the mask of the lines after which so many `if`s are open, one at least.
    pub fn mask(&self, depth: usize) -> Array
        requires least { 1 ≤ depth }
        requires most { depth ≤ self.now.choices }
        ensures { result ≡ mask_cells self.now depth }
    {
        self.row(self.privates + self.loops + (depth - 1) as u32)
    }

    /// The cells of the mask of the lines in an `if` that stands in so many others.
    pub fn inner_mask(&self, depth: usize) -> Array
        requires { depth < self.now.choices }
        ensures { result ≡ mask_cells self.now (depth + 1) }
    {
        self.row(self.privates + self.loops + depth as u32)
    }

    /// Whether there are cells enough for so many private variables and loops more.
    pub(crate) fn has_rows(&self, privates: usize, loops: usize) -> bool
        ensures { result ≡ nat_le (self.now.shared
            + (self.now.privates + self.now.loops + self.now.choices) * self.now.procs
            + privates * self.now.procs + loops * self.now.procs) MAX_CELLS }
    {
        let procs = self.procs as usize;
        let end = self.row(self.privates + self.loops + self.choices).base as usize;
        let end = privates.saturating_mul(procs).saturating_add(end);
        loops.saturating_mul(procs).saturating_add(end) <= MAX_CELLS as usize
    }

    // The cells of a row.
    fn row(&self, which: u32) -> Array
        requires { which ≤ self.now.privates + self.now.loops + self.now.choices }
        ensures { result ≡ row self.now which }
    {
        Array {
            base: self.shared + which * self.procs,
            len: self.procs,
        }
    }
}
