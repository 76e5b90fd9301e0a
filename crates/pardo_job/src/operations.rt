//! The code of operations. Their values come into the register `at`; the registers below it are
//! taken, and those of the operands, and the own number's.
ghost use Rattle.std.specs.Prelude.{◌≡◌, ◌<◌, ◌+◌, ◌∷◌, [], ◌++◌, ◌&&◌, IfOk};
ghost use Rattle.pardo_job.specs.Inner.Emitting.{PutsCode};
ghost use Rattle.pardo_job.specs.Operations.{target_of, instruction_of, is_turned, register_code};
ghost use Rattle.pardo_job.specs.Operations.{is_shallow};
ghost use Rattle.pardo_job.specs.Operations.{register_or_spare, native, in_order};
ghost use Rattle.pardo_job.specs.Operations.{negation, copy_code, choice};
ghost use Rattle.pardo_job.specs.Operations.{zero_test, tested_in, conjunction, operation_code};
ghost use Rattle.pardo_job.specs.Operations.{chosen_of, is_max, within_code};

use crate::fault::JobKind;
use crate::held::{Held, OWN, taken_by};
use pardo_text::Op;
use pram_job::{Instr, Operand, Operands};

/// The code of an operation of two values at hand.
#[tactic(auto, unfolding(crate::specs::Operations::operation_code))]
pub(crate) fn put_operation(
    code: &mut Vec<Instr>,
    at: u8,
    op: Op,
    first: Held,
    second: Held,
) -> Result<(), JobKind>
    requires { at < 4 }
    ensures { PutsCode code.old.items code.new.items result
        (operation_code at op (first.is_truth && second.is_truth) first.operand second.operand) }
{
    let (a, b) = (first.operand, second.operand);
    let are_truths = first.is_truth && second.is_truth;
    match op {
        Op::Ne => put_negated(code, at, Op::Eq, a, b),
        Op::Le => put_negated(code, at, Op::Gt, a, b),
        Op::Ge => put_negated(code, at, Op::Lt, a, b),
        Op::And if are_truths => put_native(code, at, Op::BitAnd, a, b),
        Op::And => put_conjunction(code, at, a, b),
        Op::Or if are_truths => put_native(code, at, Op::BitOr, a, b),
        Op::Or => {
            put_negated(code, at, Op::BitOr, a, b)?;
            put_negation(code, at)
        }
        Op::Min | Op::Max => put_choice(code, at, op, a, b),
        Op::Within => put_within(code, at, a, b),
        _ => put_native(code, at, op, a, b),
    }
}

/// The code of an operation that is one instruction, or one and its mirror.
#[tactic(auto, unfolding(crate::specs::Operations::native))]
pub(crate) fn put_native(
    code: &mut Vec<Instr>,
    at: u8,
    op: Op,
    a: Operand,
    b: Operand,
) -> Result<(), JobKind>
    requires { at < 4 }
    ensures { PutsCode code.old.items code.new.items result (native at op a b) }
{
    if is_turned(op, a) {
        put_in_order(code, at, op, b, a)
    } else {
        put_in_order(code, at, op, a, b)
    }
}

/// The register of an operand; a number comes into the register `spare`.
pub(crate) fn put_register(
    code: &mut Vec<Instr>,
    spare: u8,
    operand: Operand,
) -> Result<u8, JobKind>
    ensures put { PutsCode code.old.items code.new.items result (register_code spare operand) }
    ensures register { IfOk result (λ register. register ≡ register_or_spare spare operand) }
{
    match operand {
        Operand::Register(register) => Ok(register),
        Operand::Number(number) => {
            put(code, Instr::Set(spare, number))?;
            Ok(spare)
        }
    }
}

/// One instruction more, which may give a value to the registers that are for values alone.
pub(crate) fn put(code: &mut Vec<Instr>, instr: Instr) -> Result<(), JobKind>
    ensures { PutsCode code.old.items code.new.items result (instr ∷ []) }
{
    if target_of(instr) >= OWN {
        return Err(JobKind::TooDeep);
    }
    code.push(instr)?;
    Ok(())
}

/// Instructions more, which may give values to the registers that are for values alone.
pub(crate) fn put_each(code: &mut Vec<Instr>, more: &[Instr]) -> Result<(), JobKind>
    ensures { PutsCode code.old.items code.new.items result more.now }
{
    if !are_shallow(more) {
        return Err(JobKind::TooDeep);
    }
    code.extend_from_slice(more)?;
    Ok(())
}

// Whether no instruction gives a value to another register than those that are for values alone.
fn are_shallow(code: &[Instr]) -> bool
    ensures { result ≡ is_shallow code.now }
{
    code.iter().all(|&instr| target_of(instr) < OWN)
}

// An operation of two operands that keep their places.
#[tactic(auto, using(crate::proofs::Emitting::puts_then, crate::proofs::Emitting::puts_fails))]
fn put_in_order(
    code: &mut Vec<Instr>,
    at: u8,
    op: Op,
    first: Operand,
    second: Operand,
) -> Result<(), JobKind>
    requires { at < 4 }
    ensures { PutsCode code.old.items code.new.items result (in_order at op first second) }
{
    let register = put_register(code, at + taken_by(second), first)?;
    put(code, instruction(op, at, register, second))
}

// An index, where it is below the bound.
#[tactic(auto, unfolding(crate::specs::Operations::within_code))]
fn put_within(code: &mut Vec<Instr>, at: u8, index: Operand, bound: Operand) -> Result<(), JobKind>
    requires { at < 4 }
    ensures { PutsCode code.old.items code.new.items result (within_code at index bound) }
{
    let register = put_register(code, at + taken_by(bound), index)?;
    let test = if register == at { at + 1 } else { at };
    put_each(
        code,
        &[
            Instr::Lt(test, register, bound),
            Instr::Div(at, register, Operand::Register(test)),
        ],
    )
}

// The code of an operation that is one instruction, and then the negation of its value.
fn put_negated(code: &mut Vec<Instr>, at: u8, op: Op, a: Operand, b: Operand) -> Result<(), JobKind>
    requires { at < 4 }
    ensures { PutsCode code.old.items code.new.items result (native at op a b ++ negation at) }
{
    put_native(code, at, op, a, b)?;
    put_negation(code, at)
}

// Makes the register 1 where it is 0, and else 0.
fn put_negation(code: &mut Vec<Instr>, at: u8) -> Result<(), JobKind>
    ensures { PutsCode code.old.items code.new.items result (negation at) }
{
    put(code, Instr::Eq(at, at, Operand::Number(0)))
}

// Whether neither of two values is 0.
#[tactic(auto, unfolding(crate::specs::Operations::conjunction))]
fn put_conjunction(code: &mut Vec<Instr>, at: u8, a: Operand, b: Operand) -> Result<(), JobKind>
    requires { at < 4 }
    ensures { PutsCode code.old.items code.new.items result (conjunction at a b) }
{
    let first = put_zero_test(code, at + taken_by(b), a)?;
    let second = put_zero_test(code, at + 1, b)?;
    put_each(
        code,
        &[
            Instr::Or(at, first, Operand::Register(second)),
            Instr::Eq(at, at, Operand::Number(0)),
        ],
    )
}

// Whether an operand is 0: the register that this comes into, which is the operand's own if one
// was taken for it, and else `spare`.
fn put_zero_test(code: &mut Vec<Instr>, spare: u8, operand: Operand) -> Result<u8, JobKind>
    ensures put { PutsCode code.old.items code.new.items result (zero_test spare operand) }
    ensures register { IfOk result (λ register.
        register ≡ tested_in spare (register_or_spare spare operand)) }
{
    let register = put_register(code, spare, operand)?;
    let target = if register == OWN { spare } else { register };
    put(code, Instr::Eq(target, register, Operand::Number(0)))?;
    Ok(target)
}

// The least or the greatest of two values. With a value x in the register and another value y,
// it is y + (x - y) * c, where c is 1 if x is the one.
#[tactic(auto, unfolding(crate::specs::Operations::choice))]
fn put_choice(code: &mut Vec<Instr>, at: u8, op: Op, a: Operand, b: Operand) -> Result<(), JobKind>
    requires { at < 4 }
    ensures { PutsCode code.old.items code.new.items result (choice at op a b) }
{
    if taken_by(a) == 0 && taken_by(b) == 1 {
        put_first(code, at, op, b, a)
    } else {
        put_first(code, at, op, a, b)
    }
}

// The least or the greatest of two values, the first of which comes into the register.
fn put_first(
    code: &mut Vec<Instr>,
    at: u8,
    op: Op,
    first: Operand,
    second: Operand,
) -> Result<(), JobKind>
    requires { at < 4 }
    ensures { PutsCode code.old.items code.new.items result
        (copy_code at first ++ chosen_of at op second) }
{
    put_copy(code, at, first)?;
    put_chosen(code, at, op, second)
}

// The least or the greatest of the value in the register and another one.
fn put_chosen(code: &mut Vec<Instr>, at: u8, op: Op, second: Operand) -> Result<(), JobKind>
    requires { at < 4 }
    ensures { PutsCode code.old.items code.new.items result (chosen_of at op second) }
{
    let test = at + 1 + taken_by(second);
    put(code, Instr::Lt(test, at, second))?;
    if op == Op::Max {
        put_negation(code, test)?;
    }
    put_each(
        code,
        &[
            Instr::Sub(at, at, second),
            Instr::Mul(at, at, Operand::Register(test)),
            Instr::Add(at, at, second),
        ],
    )
}

// Brings an operand for which no register was taken into this one.
fn put_copy(code: &mut Vec<Instr>, at: u8, operand: Operand) -> Result<(), JobKind>
    ensures { PutsCode code.old.items code.new.items result (copy_code at operand) }
{
    match operand {
        Operand::Register(register) if register < OWN => Ok(()),
        Operand::Register(_) => put(code, Instr::Pid(at)),
        Operand::Number(number) => put(code, Instr::Set(at, number)),
    }
}

// Whether the operands change places: of a number only the second place may be.
fn is_turned(op: Op, first: Operand) -> bool
    ensures { result ≡ is_turned op first }
{
    match op {
        Op::Gt => true,
        Op::Add | Op::Mul | Op::BitAnd | Op::BitOr | Op::BitXor | Op::Eq => {
            matches!(first, Operand::Number(_))
        }
        _ => false,
    }
}

// The instruction of an operation; `>` has that of its mirror.
fn instruction(op: Op, target: u8, first: u8, second: Operand) -> Instr
    ensures { result ≡ instruction_of op target first second }
{
    match op {
        Op::Add => Instr::Add(target, first, second),
        Op::Sub => Instr::Sub(target, first, second),
        Op::Mul => Instr::Mul(target, first, second),
        Op::Div => Instr::Div(target, first, second),
        Op::Rem => Instr::Rem(target, first, second),
        Op::Shl => Instr::Shl(target, first, second),
        Op::Shr => Instr::Shr(target, first, second),
        Op::BitAnd => Instr::And(target, first, second),
        Op::BitOr => Instr::Or(target, first, second),
        Op::BitXor => Instr::Xor(target, first, second),
        Op::Eq => Instr::Eq(target, first, second),
        Op::Lt | Op::Gt => Instr::Lt(target, first, second),
        _ => Instr::Set(target, 0),
    }
}

// The register that an instruction gives a value, or 0.
fn target_of(instr: Instr) -> u8
    ensures { result ≡ target_of instr }
{
    match instr.row().1 {
        Operands::Target(target)
        | Operands::TargetNumber(target, _)
        | Operands::TargetPlace(target, _)
        | Operands::TargetTwo(target, _, _) => target,
        _ => 0,
    }
}
