//! Where the arrays of a program lie.
ghost use Rattle.std.specs.Prelude.{◌≡◌, ◌≢◌, ◌⊎◌, ◌<◌, ◌+◌, ◌^◌, length, None};
ghost use Rattle.pardo_program.specs.Lawful.{IsProgram};
ghost use Rattle.library_boards.specs.Givens.{IsArraysPlace, IsPlaceIn, IsRefusedText};
ghost use Rattle.library_boards.specs.Givens.{array_called, text_arrays};
ghost use Rattle.library_boards.specs.declared.status.TheConstants.{DONE, FAILED, MEMORY, REFUSED};

use crate::given::array_called;
use crate::status::{DONE, FAILED, MEMORY, REFUSED};
use pardo_answers::is_program;
use pardo_text::{Array, PardoKind, Program, laws, read_program};
use std::alloc::Global;

/// Where a shared array or scalar of a program lies in the cells of its job: the first one, how
/// many there are, and how many columns each row has, if its places have two indices, else 0. It is
/// 1 of an array, and 0 of a scalar.
#[repr(C)]
#[derive(Clone, Copy)]
pub struct PlaceTold {
    pub first: u32,
    pub length: u32,
    pub columns: u32,
    pub is_array: u32,
}

/// Where the array or scalar of this name lies. The text is read, and nothing is compiled or run.
pub fn place_of(alloc: Global, text: &[u8], name: &[u8], told: &mut PlaceTold) -> u32
    ensures place { result ≡ DONE → IsPlaceIn (text_arrays text.now) name.now told.new }
    ensures none { result ≡ FAILED → array_called (text_arrays text.now) name.now ≡ None }
    ensures refused { result ≡ REFUSED → IsRefusedText text.now }
    ensures ends { (result ≡ DONE) ⊎ ((result ≡ FAILED) ⊎ ((result ≡ REFUSED)
        ⊎ (result ≡ MEMORY))) }
    ensures kept { result ≢ DONE → told.new ≡ told.old }
{
    if !is_program(text) {
        return FAILED;
    }
    laws::programs_are_lawful();
    match read_program(alloc, text) {
        Ok(program) => place_in(&program, name, told),
        Err(fault) if fault.kind == PardoKind::Memory => MEMORY,
        Err(_) => REFUSED,
    }
}

// That of a program.
fn place_in(program: &Program, name: &[u8], told: &mut PlaceTold) -> u32
    requires { IsProgram program.now }
    ensures place { result ≡ DONE → IsPlaceIn program.now.arrays name.now told.new }
    ensures none { result ≡ FAILED → array_called program.now.arrays name.now ≡ None }
    ensures ends { (result ≡ DONE) ⊎ (result ≡ FAILED) }
    ensures kept { result ≢ DONE → told.new ≡ told.old }
{
    match array_called(program.arrays(), name) {
        Some(array) => {
            *told = place_told(array);
            DONE
        }
        None => FAILED,
    }
}

fn place_told(array: &Array) -> PlaceTold
    requires { array.now.base + length array.now.start < 2 ^ 32 }
    ensures { IsArraysPlace array.now result }
{
    PlaceTold {
        first: array.base() as u32,
        length: array.start().len() as u32,
        columns: array.width().unwrap_or(0),
        is_array: if array.is_scalar() { 0 } else { 1 },
    }
}
