//! The code of expressions.
ghost use Rattle.std.specs.Prelude.{◌≡◌, ◌+◌, ◌≤◌, ◌++◌, ◌∷◌, [], OnOk, IfOk, false};
ghost use Rattle.pram_job.specs.declared.instr.Instr.TheVariants.{Ld};
ghost use Rattle.pram_job.specs.declared.instr.Operand.TheVariants.{Register};
ghost use Rattle.pram_job.specs.declared.instr.Place.TheVariants.{Named};
ghost use Rattle.pardo_job.specs.Inner.Emitting.{PutsCode};
ghost use Rattle.pardo_job.specs.Inner.Nodes.{CanTake, Takes, held_of};
ghost use Rattle.pardo_job.specs.Lawful.{IsLawfulTree};
ghost use Rattle.pardo_job.specs.Operations.{taken_by};
ghost use Rattle.pardo_job.specs.Values.{own_load, takes, value_code};

use crate::fault::JobKind;
use crate::held::{Held, OWN, Stack};
use crate::operations::{put, put_operation};
use pardo_flat::{Layout, gives_truth};
use pardo_text::{Expr, Node};
use pram_job::{Array, Instr, Operand, Place};
use std::alloc::Global;

/// The code of an expression, by the registers from `at` on: where its value is.
pub(crate) fn put_value(
    code: &mut Vec<Instr>,
    alloc: Global,
    layout: &Layout,
    at: u8,
    expr: &Expr,
) -> Result<Held, JobKind>
    requires at { at ≤ 3 }
    requires lawful { IsLawfulTree layout.now expr.now }
    ensures put { PutsCode code.old.items code.new.items result
        (value_code layout.now at expr.now) }
    ensures held { IfOk result (λ held. held ≡ held_of at expr.now) }
    ensures taken { IfOk result (λ held. taken_by held.operand ≡ takes expr.now) }
{
    let mut stack = Stack::above(alloc, at);
    for node in expr.nodes() {
        put_node(code, &mut stack, layout, *node)?;
    }
    Ok(stack.pop())
}

// Takes what a processor's own cell of a row holds to hand.
fn put_own(code: &mut Vec<Instr>, stack: &mut Stack, row: Array) -> Result<(), JobKind>
    ensures put { PutsCode code.old.items code.new.items result
        (own_load stack.old.taken row ∷ []) }
    ensures held { OnOk result (stack.new.values.items ≡ stack.old.values.items
        ++ record { operand = Register stack.old.taken; is_truth = false } ∷ []) }
    ensures taken { OnOk result (stack.new.taken ≡ stack.old.taken + 1) }
{
    put_load(code, stack, row, Operand::Register(OWN))
}

// Takes what a place of an array holds to hand.
#[tactic(auto, using(crate::proofs::Loads::room))]
fn put_load(
    code: &mut Vec<Instr>,
    stack: &mut Stack,
    array: Array,
    index: Operand,
) -> Result<(), JobKind>
    ensures put { PutsCode code.old.items code.new.items result
        (Ld stack.old.taken (Named array index) ∷ []) }
    ensures held { OnOk result (stack.new.values.items ≡ stack.old.values.items
        ++ record { operand = Register stack.old.taken; is_truth = false } ∷ []) }
    ensures taken { OnOk result (stack.new.taken ≡ stack.old.taken + 1) }
{
    let at = stack.free();
    put(code, Instr::Ld(at, Place::Named(array, index)))?;
    stack.push(Operand::Register(at), false)?;
    Ok(())
}

/// One node more, whose operands are at hand.
pub(crate) fn put_node(
    code: &mut Vec<Instr>,
    stack: &mut Stack,
    layout: &Layout,
    node: Node,
) -> Result<(), JobKind>
    requires { CanTake stack.old layout.now node }
    ensures { Takes stack.old code.old.items code.new.items stack.new result layout.now node }
{
    match node {
        Node::Number(value) => {
            stack.push(Operand::Number(value), false)?;
            Ok(())
        }
        Node::Own => {
            stack.push(Operand::Register(OWN), false)?;
            Ok(())
        }
        Node::Loop(nest) => put_own(code, stack, layout.loop_variable(nest)),
        Node::Private(variable) => put_own(code, stack, layout.private(variable)),
        Node::Place(array) => {
            let index = stack.pop();
            put_load(code, stack, layout.array(array), index.operand)
        }
        Node::Apply(op) => {
            let second = stack.pop();
            let first = stack.pop();
            let at = stack.free();
            put_operation(code, at, op, first, second)?;
            let is_truth = gives_truth(op, first.is_truth && second.is_truth);
            stack.push(Operand::Register(at), is_truth)?;
            Ok(())
        }
    }
}
