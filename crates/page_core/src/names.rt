//! The names of the cells of a program's job.
ghost use Rattle.std.specs.Prelude.{◌≡◌, ◌<◌, ◌≤◌, ◌++◌, IfErr, IfOk, OnOk, length, map};
ghost use Rattle.std.specs.List.{flat_map, range_with_len};
ghost use Rattle.pardo_program.specs.Lawful.{AreArrays, IsProgram};
ghost use Rattle.pardo_program.specs.declared.limits.TheConstants.{MAX_CELLS};
ghost use Rattle.pardo_program.specs.Program.{shared_cells};
ghost use Rattle.page_core.specs.Programs.{AreNamesOf, IsNoProgram, all_names, all_rows};
ghost use Rattle.page_core.specs.Programs.{own_count, own_kind, own_name, own_row};
ghost use Rattle.page_core.specs.Programs.{shared_row};

use crate::codes::{ARRAY, KEPT, LOOP, MASK, PRIVATE, SCALAR};
use crate::program::{NoProgram, take_program};
use pardo_job::{Refusal, flat_program};
use pardo_text::{Array, Private, Program};
use std::alloc::{AllocError, Global};

/// Cells of a program's job: `len` of them, the first of which is `base`. Their name has so many
/// bytes. They have so many columns, if they are an array of two indices, and else 0. Their kind is
/// that of the codes: a shared scalar, a shared array, and then rows with a cell for each
/// processor, of a private variable, of the variable of a loop, of a mask, or of a part of a long
/// line.
#[repr(C)]
#[derive(Clone, Copy)]
pub struct CellsRow {
    pub base: u64,
    pub len: u64,
    pub name: u64,
    pub width: u64,
    pub kind: u64,
}

/// Names, one after the other, and the rows of the cells that have them.
#[derive(Drop)]
pub struct Named {
    pub names: Vec<u8>,
    pub rows: Vec<CellsRow>,
}

/// The names of the cells of the job of the program that a text spells: a row for each array and
/// for each row of cells, in their order.
pub fn take_names(alloc: Global, text: &[u8]) -> Result<Named, NoProgram>
    ensures names { IfOk result (λ named. AreNamesOf text.now named.names.items named.rows.items) }
    ensures none { IfErr result (IsNoProgram text.now) }
{
    let program = take_program(alloc, text)?;
    let loops = program.loops();
    match flat_program(alloc, program) {
        Err(fault) => Err(NoProgram::Refused(Refusal::Job(fault))),
        Ok(flat) => match names_of(alloc, &flat, loops) {
            Ok(named) => Ok(named),
            Err(_) => Err(NoProgram::Memory),
        },
    }
}

// Those of a flat program, where the text has so many variables of loops.
fn names_of(alloc: Global, program: &Program, loops: usize) -> Result<Named, AllocError>
    requires { IsProgram program.now }
    ensures names { IfOk result (λ named. named.names.items ≡ all_names program.now) }
    ensures rows { IfOk result (λ named. named.rows.items ≡ all_rows program.now loops) }
{
    let names = name_bytes(alloc, program.arrays(), program.privates())?;
    let mut rows = Vec::new(alloc);
    push_shared_rows(&mut rows, program.arrays())?;
    push_own_rows(&mut rows, program, loops)?;
    Ok(Named { names, rows })
}

// ---- names

// Those of arrays, and then those of private variables.
fn name_bytes(alloc: Global, arrays: &[Array], privates: &[Private]) -> Result<Vec<u8>, AllocError>
    ensures { IfOk result (λ names. names.items
        ≡ flat_map (λ array. array.name) arrays.now
        ++ flat_map (λ variable. variable.name) privates.now) }
{
    let mut names = Vec::new(alloc);
    for array in arrays {
        names.extend_from_slice(array.name())?;
    }
    for variable in privates {
        names.extend_from_slice(variable.name())?;
    }
    Ok(names)
}

// ---- cells

fn push_shared_rows(rows: &mut Vec<CellsRow>, arrays: &[Array]) -> Result<(), AllocError>
    ensures { OnOk result (rows.new.items ≡ rows.old.items ++ map shared_row arrays.now) }
{
    for array in arrays {
        rows.push(shared_row(array))?;
    }
    Ok(())
}

fn shared_row(array: &Array) -> CellsRow
    ensures { result ≡ shared_row array.now }
{
    CellsRow {
        base: array.base() as u64,
        len: array.start().len() as u64,
        name: array.name().len() as u64,
        width: u64::from(array.width().unwrap_or(0)),
        kind: if array.is_scalar() { SCALAR } else { ARRAY },
    }
}

// The rows of private variables, of loops and of masks.
fn push_own_rows(
    rows: &mut Vec<CellsRow>,
    program: &Program,
    loops: usize,
) -> Result<(), AllocError>
    requires { IsProgram program.now }
    ensures { OnOk result (rows.new.items ≡ rows.old.items
        ++ map (own_row program.now loops) (range_with_len 0 (own_count program.now))) }
{
    let shared = shared_cells(program.arrays());
    let count = program.privates().len() + program.loops() + program.choices();
    for which in 0..count {
        rows.push(own_row(program, loops, shared, which))?;
    }
    Ok(())
}

#[tactic(auto, unfolding(pardo_flat::specs::Layouts::program_layout))]
fn own_row(program: &Program, loops: usize, shared: usize, which: usize) -> CellsRow
    requires lawful { IsProgram program.now }
    requires shared { shared ≡ shared_cells program.now.arrays }
    requires which { which < own_count program.now }
    ensures { result ≡ own_row program.now loops which }
{
    let procs = program.procs() as usize;
    CellsRow {
        base: (shared + which * procs) as u64,
        len: procs as u64,
        name: name_len(program.privates(), which) as u64,
        width: 0,
        kind: own_kind(program, loops, which),
    }
}

// How long the name of a row is: that of a private variable, or none.
fn name_len(privates: &[Private], which: usize) -> usize
    ensures { result ≡ length (own_name privates.now which) }
{
    match privates.get(which) {
        None => 0,
        Some(variable) => variable.name().len(),
    }
}

fn own_kind(program: &Program, loops: usize, which: usize) -> u64
    requires { IsProgram program.now }
    ensures { result ≡ own_kind program.now loops which }
{
    let privates = program.privates().len();
    if which < privates {
        if name_len(program.privates(), which) == 0 {
            KEPT
        } else {
            PRIVATE
        }
    } else if which - privates < loops {
        LOOP
    } else if which < privates + program.loops() {
        KEPT
    } else {
        MASK
    }
}

// How many cells the arrays have.
fn shared_cells(arrays: &[Array]) -> usize
    requires lawful { AreArrays arrays.now 0 }
    requires few { shared_cells arrays.now ≤ MAX_CELLS }
    ensures { result ≡ shared_cells arrays.now }
{
    match arrays.last() {
        None => 0,
        Some(array) => array.base() + array.start().len(),
    }
}
