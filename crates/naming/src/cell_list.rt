//! The cells of a job that a word of the command line names.
ghost use Rattle.std.specs.Prelude.{◌≡◌, ◌+◌, ◌^◌, ◌<◌, ◌≤◌, ◌⊎◌, ◌∷◌, ◌++◌, [], All, IfOk, IfErr};
ghost use Rattle.std.specs.Prelude.{MatchOption, OnOk};
ghost use Rattle.std.specs.List.{flat_map};
ghost use Rattle.command_data.specs.CellLists.{SpellsCell, cell_listed, parts_of};
ghost use Rattle.naming.specs.CellLists.{AreCellsOf, AreStretches, IsStretch, HasCells, IsAlone};
ghost use Rattle.naming.specs.CellLists.{IsOutside, NamesCells, cells_from};
ghost use Rattle.naming.specs.declared.places.Stretch.{Stretch};

use crate::places::Stretch;
use crate::texts::Spelled;
use command_data::{cell_of, first_part};
use refusals::CommandFault;
use std::alloc::{AllocError, Global};

/// The cells that the parts of a list's text name in a job, in order.
pub fn cells_in(alloc: Global, text: &str, spelled: &Spelled) -> Result<Vec<u32>, CommandFault>
    ensures cells { IfOk result (λ cells. AreCellsOf spelled.now.names
        (parts_of text.now) cells.items) }
    ensures within { IfOk result (λ cells. All (λ c. c < spelled.now.job.cells) cells.items) }
    ensures outside { IfErr result (IsOutside spelled.now.names spelled.now.job
        (parts_of text.now)) }
{
    let named = named_in(alloc, text, spelled)?;
    Ok(all_of(alloc, named.as_slice())?)
}

// What each part names.
fn named_in(alloc: Global, text: &str, spelled: &Spelled) -> Result<Vec<Stretch>, CommandFault>
    ensures named { IfOk result (λ named. AreStretches spelled.now.names
        (parts_of text.now) named.items) }
    ensures within { IfOk result (λ named.
        All (λ cells. cells.end ≤ spelled.now.job.cells) named.items) }
    ensures outside { IfErr result (IsOutside spelled.now.names spelled.now.job
        (parts_of text.now)) }
{
    let mut named = Vec::new(alloc);
    let mut left = Some(text);
    while let Some(rest) = left {
        let (part, next) = first_part(rest);
        let Some(cells) = cells_of(alloc, part, spelled)? else {
            return Err(outside(part, named.len()));
        };
        keep(&mut named, cells)?;
        left = next;
    }
    Ok(named)
}

fn keep(named: &mut Vec<Stretch>, cells: Stretch) -> Result<(), AllocError>
    ensures { OnOk result (named.new.items ≡ named.old.items ++ cells ∷ []) }
{
    named.push(cells)?;
    Ok(())
}

// All of these cells, in order.
fn all_of(alloc: Global, named: &[Stretch]) -> Result<Vec<u32>, AllocError>
    ensures { IfOk result (λ all. all.items ≡ flat_map cells_from named.now) }
{
    let mut all = Vec::new(alloc);
    for cells in named {
        push_cells(&mut all, *cells)?;
    }
    Ok(all)
}

fn push_cells(all: &mut Vec<u32>, cells: Stretch) -> Result<(), AllocError>
    ensures { OnOk result (all.new.items ≡ all.old.items ++ cells_from cells) }
{
    for cell in cells.first..cells.end {
        all.push(cell)?;
    }
    Ok(())
}

// The cells that a part names, if the job has them.
fn cells_of(alloc: Global, part: &str, spelled: &Spelled) -> Result<Option<Stretch>, AllocError>
    ensures { IfOk result (λ found. MatchOption found
        (¬ HasCells spelled.now.names spelled.now.job part.now)
        (λ cells. NamesCells spelled.now.names part.now cells
        × (cells.end ≤ spelled.now.job.cells))) }
{
    match cell_of(part) {
        Some(cell) => Ok(if_below(cell, spelled.job.cells())),
        None => places_in(alloc, part, spelled),
    }
}

fn if_below(cell: u32, count: u32) -> Option<Stretch>
    ensures { MatchOption result (count ≤ cell) (λ cells. IsAlone cell cells × (cell < count)) }
{
    if cell < count {
        Some(alone(cell))
    } else {
        None
    }
}

fn alone(cell: u32) -> Stretch
    requires { cell + 1 < 2 ^ 32 }
    ensures { IsAlone cell result }
{
    Stretch {
        first: cell,
        end: cell + 1,
    }
}

// The cells that a part names which is no number.
fn places_in(alloc: Global, part: &str, spelled: &Spelled) -> Result<Option<Stretch>, AllocError>
    ensures { IfOk result (λ found. MatchOption found
        ((cells : Stretch) → cells.end ≤ spelled.now.job.cells
        → ¬ IsStretch spelled.now.names part.now cells)
        (λ cells. (cells.end ≤ spelled.now.job.cells)
        × IsStretch spelled.now.names part.now cells)) }
{
    let Some(naming) = &spelled.names else {
        return Ok(None);
    };
    let (part, count) = (part.as_bytes(), spelled.job.cells());
    if let Some(cells) = naming.array_at(part, count) {
        return Ok(Some(cells));
    }
    match naming.cell_at(alloc, part, count)? {
        Some(cell) => Ok(Some(alone(cell))),
        None => Ok(None),
    }
}

// What is said of a part that names no cells of the job.
fn outside(part: &str, at: usize) -> CommandFault
    ensures { (SpellsCell part.now × (result ≡ CommandFault.OutsideCell (cell_listed part.now)))
        ⊎ ((¬ SpellsCell part.now) × (result ≡ CommandFault.OutsidePlace at)) }
{
    match cell_of(part) {
        Some(cell) => CommandFault::OutsideCell { cell },
        None => CommandFault::OutsidePlace { at },
    }
}
