//! Start values that a caller gives as numbers.
ghost use Rattle.std.specs.Prelude.{◌≡◌, ◌<◌, ◌≤◌, ◌+◌, ◌^◌, All, length, vec_len, true, false};
ghost use Rattle.std.specs.Prelude.{Ok, Err, IfErr, IfOk, OnOk};
ghost use Rattle.std.specs.Option.{option_copied};
ghost use Rattle.pardo_program.specs.Lawful.{AreArrays};
ghost use Rattle.pardo_program.specs.Program.{shared_cells};
ghost use Rattle.pardo_answers.specs.Language.{is_program};
ghost use Rattle.library_boards.specs.Givens.{IsGivenFault, IsGivenJob, IsJobWith, IsUnfitFor};
ghost use Rattle.library_boards.specs.Givens.{array_called, put_all, put_in, cells_holding};

use crate::job::{OpenFault, longest, machine_job};
use pardo_answers::is_program;
use pardo_job::{Draft, draft_in};
use pardo_text::{Array, SetFault, SetKind};
use pram_job::Job;
use std::alloc::{AllocError, Global};

/// What a caller gives of a shared array or scalar of a program: its name, and a value for each of
/// its places, which it starts with.
#[repr(C)]
#[derive(Clone, Copy)]
pub struct Given<'a> {
    pub name: &'a [u8],
    pub values: &'a [u32],
}

/// Why there is no job for a text and for what is given.
#[derive(Clone, Copy)]
pub enum GivenFault {
    /// The text has no job.
    Text(OpenFault),
    /// The first of what is given that does not fit the text.
    Unfit(SetFault),
}

impl From<AllocError> for GivenFault {
    ghost use Rattle.library_boards.specs.declared.given.GivenFault.TheVariants.{Text};
    ghost use Rattle.library_boards.specs.declared.job.OpenFault.TheVariants.{Memory};

    ghost from_gives = { λ _ fault. fault ≡ Text Memory };

    fn from(_error: AllocError) -> GivenFault {
        GivenFault::Text(OpenFault::Memory)
    }
}

/// The job of a text, where arrays start with what is given, and a program has as many steps as one
/// may take. Nothing is run: the time is that of reading the text, and of copying the cells and the
/// code.
pub fn given_job_of(alloc: Global, text: &[u8], given: &[Given<'_>]) -> Result<Job, GivenFault>
    ensures job { IfOk result (IsGivenJob text.now given.now) }
    ensures none { IfErr result (IsGivenFault text.now given.now) }
{
    if is_program(text) {
        given_program(alloc, text, given)
    } else {
        given_machine(alloc, text, given)
    }
}

fn given_program(alloc: Global, text: &[u8], given: &[Given<'_>]) -> Result<Job, GivenFault>
    requires { is_program text.now ≡ true }
    ensures job { IfOk result (IsGivenJob text.now given.now) }
    ensures none { IfErr result (IsGivenFault text.now given.now) }
{
    match draft_in(alloc, text) {
        Ok(Draft { program, job, .. }) => {
            let own = longest(job);
            job_with(alloc, &own, program.arrays(), given)
        }
        Err(refusal) => Err(GivenFault::Text(OpenFault::Program(refusal))),
    }
}

// A text of the machine has no names.
fn given_machine(alloc: Global, text: &[u8], given: &[Given<'_>]) -> Result<Job, GivenFault>
    requires { is_program text.now ≡ false }
    ensures job { IfOk result (IsGivenJob text.now given.now) }
    ensures none { IfErr result (IsGivenFault text.now given.now) }
{
    match machine_job(alloc, text) {
        Ok(own) => job_with(alloc, &own, &[], given),
        Err(fault) => Err(GivenFault::Text(fault)),
    }
}

// The job, where the cells of these arrays start with what is given.
fn job_with(
    alloc: Global,
    own: &Job,
    arrays: &[Array],
    given: &[Given<'_>],
) -> Result<Job, GivenFault>
    requires arrays { AreArrays arrays.now 0 }
    requires within { shared_cells arrays.now ≤ own.now.cells }
    ensures job { IfOk result (IsJobWith arrays.now given.now own.now) }
    ensures unfit { IfErr result (IsUnfitFor arrays.now given.now own.now.init) }
{
    let cells = cells_with(alloc, own.init(), arrays, given)?;
    numbers_fit(cells.as_slice());
    let code = Vec::from_slice(alloc, own.code())?;
    Ok(Job::of_parts(own.rule(), own.procs(), own.steps(), cells, code))
}

// Says to a proof that numbers of 32 bits are below 2^32. It does nothing.
#[inline(always)]
fn numbers_fit(numbers: &[u32])
    ensures { All (λ number. number < 2 ^ 32) numbers.now }
{}

// The cells with all that is given.
fn cells_with(
    alloc: Global,
    init: &[u32],
    arrays: &[Array],
    given: &[Given<'_>],
) -> Result<Vec<u32>, GivenFault>
    requires arrays { AreArrays arrays.now 0 }
    requires within { shared_cells arrays.now ≤ length init.now }
    ensures put { IfOk result (λ cells. put_all arrays.now 0 given.now init.now ≡ Ok cells.items) }
    ensures length { IfOk result (λ cells. vec_len cells ≡ length init.now) }
    ensures unfit { IfErr result (IsUnfitFor arrays.now given.now init.now) }
{
    let mut cells = Vec::from_slice(alloc, init)?;
    match put_all(arrays, given, cells.as_mut_slice()) {
        Ok(()) => Ok(cells),
        Err(fault) => Err(GivenFault::Unfit(fault)),
    }
}

// Puts all that is given to the cells of its arrays.
fn put_all(arrays: &[Array], given: &[Given<'_>], cells: &mut [u32]) -> Result<(), SetFault>
    requires arrays { AreArrays arrays.now 0 }
    requires within { shared_cells arrays.now ≤ length cells.old }
    ensures put { OnOk result (put_all arrays.now 0 given.now cells.old ≡ Ok cells.new) }
    ensures unfit { IfErr result (λ fault. put_all arrays.now 0 given.now cells.old ≡ Err fault) }
{
    for (at, one) in given.iter().enumerate() {
        if let Err(kind) = put(arrays, one, cells) {
            return Err(SetFault { at, kind });
        }
    }
    Ok(())
}

// Puts what is given of one array to its cells.
fn put(arrays: &[Array], one: &Given<'_>, cells: &mut [u32]) -> Result<(), SetKind>
    requires arrays { AreArrays arrays.now 0 }
    requires within { shared_cells arrays.now ≤ length cells.old }
    ensures put { OnOk result (put_in (array_called arrays.now one.now.name.now)
        one.now.values.now cells.old ≡ Ok cells.new) }
    ensures unfit { IfErr result (λ kind. put_in (array_called arrays.now one.now.name.now)
        one.now.values.now cells.old ≡ Err kind) }
{
    let Some(array) = array_called(arrays, one.name) else {
        return Err(SetKind::UnknownName);
    };
    let (first, values) = (array.base(), one.values);
    if values.len() != array.start().len() {
        return Err(SetKind::WrongLength);
    }
    put_at(first, values, cells);
    Ok(())
}

// Puts values to the cells from this one on.
fn put_at(first: usize, values: &[u32], cells: &mut [u32])
    requires { first + length values.now ≤ length cells.old }
    ensures { cells.new ≡ cells_holding first values.now cells.old }
{
    cells[first..first + values.len()].copy_from_slice(values);
}

// The array or scalar of this name.
pub(crate) fn array_called<'a>(arrays: &'a [Array], name: &[u8]) -> Option<&'a Array>
    ensures { option_copied result ≡ array_called arrays.now name.now }
{
    arrays.iter().find(|array| array.name() == name)
}
