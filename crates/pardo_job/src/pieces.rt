//! The straight pieces of the code of lines: they jump nowhere, and use the registers for values
//! from the first one on.
ghost use Rattle.std.specs.Prelude.{◌≡◌, ◌<◌, if◌then◌else◌, ◌∷◌, [], true};
ghost use Rattle.std.specs.Prelude.{IfErr, IfOk, OnOk};
ghost use Rattle.pram_job.specs.declared.instr.Operand.TheVariants.{Register};
ghost use Rattle.pram_job.specs.declared.instr.Instr.TheVariants.{St};
ghost use Rattle.pardo_program.specs.declared.operation.Op.TheVariants as op;
ghost use Rattle.pardo_job.specs.Inner.Emitting.{IsCodeFault, PutsCode};
ghost use Rattle.pardo_job.specs.Inner.Pieces.{IsLawfulTarget};
ghost use Rattle.pardo_job.specs.Inner.Pieces.{bounds_code, bounds_operands};
ghost use Rattle.pardo_job.specs.Lawful.{IsLawfulTree};
ghost use Rattle.pardo_job.specs.Lines.{assignment_code, condition_code, first_code, none_code};
ghost use Rattle.pardo_job.specs.Lines.{own_store, turn_code, while_code};
ghost use Rattle.pardo_job.specs.Operations.{is_shallow, register_or_spare};
ghost use Rattle.pardo_job.specs.Values.{value_operand, own_load, own_place};

use crate::fault::JobKind;
use crate::held::{OWN, taken_by};
use crate::operations::{put, put_native, put_register};
use crate::values::put_value;
use pardo_flat::Layout;
use pardo_text::{Expr, Op, Target};
use pram_job::{Array, Instr, Operand, Place};
use std::alloc::Global;

/// An assignment: the value, then the index, and last the store.
#[tactic(auto, unfolding(crate::specs::Lines::assignment_code))]
pub(crate) fn put_assignment(
    code: &mut Vec<Instr>,
    alloc: Global,
    layout: &Layout,
    target: &Target,
    value: &Expr,
) -> Result<(), JobKind>
    requires target { IsLawfulTarget layout.now target.now }
    requires value { IsLawfulTree layout.now value.now }
    ensures { PutsCode code.old.items code.new.items result
        (assignment_code layout.now target.now value.now) }
{
    let held = put_value(code, alloc, layout, 0, value)?;
    match target {
        Target::Private(variable) => {
            let row = layout.private(*variable);
            put(code, Instr::St(own_place(row), held.operand))
        }
        Target::Array(array, index) => {
            let place = put_value(code, alloc, layout, taken_by(held.operand), index)?;
            let place = Place::Named(layout.array(*array), place.operand);
            put(code, Instr::St(place, held.operand))
        }
    }
}

/// A condition: register 0 becomes 1 where its value is not 0, and else 0.
#[tactic(auto, unfolding(crate::specs::Lines::condition_code))]
pub(crate) fn put_condition(
    code: &mut Vec<Instr>,
    alloc: Global,
    layout: &Layout,
    expr: &Expr,
) -> Result<(), JobKind>
    requires { IsLawfulTree layout.now expr.now }
    ensures { PutsCode code.old.items code.new.items result (condition_code layout.now expr.now) }
{
    let held = put_value(code, alloc, layout, 0, expr)?;
    if held.is_truth {
        return Ok(());
    }
    put_native(code, 0, Op::Eq, held.operand, Operand::Number(0))?;
    put_native(code, 0, Op::Eq, Operand::Register(0), Operand::Number(0))
}

/// The condition of a `while`: the register that its value comes into.
#[tactic(auto, unfolding(crate::specs::Lines::while_code))]
pub(crate) fn put_while_test(
    code: &mut Vec<Instr>,
    alloc: Global,
    layout: &Layout,
    expr: &Expr,
) -> Result<u8, JobKind>
    requires { IsLawfulTree layout.now expr.now }
    ensures put { PutsCode code.old.items code.new.items result (while_code layout.now expr.now) }
    ensures register { IfOk result (λ register.
        register ≡ register_or_spare 0 (value_operand 0 expr.now)) }
{
    let held = put_value(code, alloc, layout, 0, expr)?;
    put_register(code, 0, held.operand)
}

/// Whether a loop has no turn: register 0 becomes 1 where it has none, and else 0.
pub(crate) fn none_test(
    alloc: Global,
    layout: &Layout,
    first: &Expr,
    last: &Expr,
    up: bool,
) -> Result<Vec<Instr>, JobKind>
    requires first { IsLawfulTree layout.now first.now }
    requires last { IsLawfulTree layout.now last.now }
    ensures code { IfOk result (λ code. code.items ≡ none_code layout.now up first.now last.now) }
    ensures shallow { OnOk result
        (is_shallow (none_code layout.now up first.now last.now) ≡ true) }
    ensures fault { IfErr result (IsCodeFault (none_code layout.now up first.now last.now)) }
{
    let mut code = Vec::new(alloc);
    let (a, b) = put_bounds(&mut code, alloc, layout, first, last)?;
    put_native(&mut code, 0, passing_test(up), a, b)?;
    Ok(code)
}

// How the first bound of a loop that has no turn compares with its last one.
fn passing_test(up: bool) -> Op
    ensures { result ≡ (if up then op.Gt else op.Lt) }
{
    if up { Op::Gt } else { Op::Lt }
}

// The bounds of a loop: where their values are.
fn put_bounds(
    code: &mut Vec<Instr>,
    alloc: Global,
    layout: &Layout,
    first: &Expr,
    last: &Expr,
) -> Result<(Operand, Operand), JobKind>
    requires first { IsLawfulTree layout.now first.now }
    requires last { IsLawfulTree layout.now last.now }
    ensures put { PutsCode code.old.items code.new.items result
        (bounds_code layout.now first.now last.now) }
    ensures operands { IfOk result (λ both. both ≡ bounds_operands first.now last.now) }
{
    let first = put_value(code, alloc, layout, 0, first)?;
    let last = put_value(code, alloc, layout, taken_by(first.operand), last)?;
    Ok((first.operand, last.operand))
}

/// The variable of a loop becomes the value of an expression.
#[tactic(auto, unfolding(crate::specs::Lines::first_code))]
pub(crate) fn put_first_value(
    code: &mut Vec<Instr>,
    alloc: Global,
    layout: &Layout,
    nest: usize,
    first: &Expr,
) -> Result<(), JobKind>
    requires nest { nest < layout.now.loops }
    requires first { IsLawfulTree layout.now first.now }
    ensures { PutsCode code.old.items code.new.items result (first_code layout.now nest first.now) }
{
    let held = put_value(code, alloc, layout, 0, first)?;
    let cells = layout.loop_variable(nest);
    put(code, Instr::St(own_place(cells), held.operand))
}

/// A register becomes what a processor's own cell of a row holds.
pub(crate) fn own_load(register: u8, row: Array) -> Instr
    ensures { result ≡ own_load register row }
{
    Instr::Ld(register, own_place(row))
}

/// A processor's own cell of a row becomes what register 0 holds.
pub(crate) fn own_store(row: Array) -> Instr
    ensures { result ≡ own_store row }
{
    Instr::St(own_place(row), Operand::Register(0))
}

/// Shallow code that was put elsewhere.
pub(crate) fn put_all(code: &mut Vec<Instr>, more: &[Instr]) -> Result<(), JobKind>
    requires { is_shallow more.now ≡ true }
    ensures { PutsCode code.old.items code.new.items result more.now }
{
    code.extend_from_slice(more)?;
    Ok(())
}

// A processor's own cell of a row.
fn own_place(row: Array) -> Place
    ensures { result ≡ own_place row }
{
    Place::Named(row, Operand::Register(OWN))
}
