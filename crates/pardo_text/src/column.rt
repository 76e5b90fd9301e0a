//! Start values of private variables. An expression is worked out for all processors at once, node
//! by node: a column has the value of each processor, from processor 0 on.
ghost use Rattle.std.specs.Prelude.{◌≡◌, drop, IfOk};
ghost use Rattle.pardo_text.specs.Values.{quotient_of, values_for};
ghost use Rattle.pardo_text.specs.Inner.Columns.{below, columns_in, quotients, top_of, with_column};
ghost use Rattle.pardo_text.specs.Inner.Tokens.{GivesAsRead};

use crate::fault::PardoKind;
use pardo_program::{Expr, Node, Op};
use std::alloc::{AllocError, Global};

/// The values of an expression for so many processors.
pub(crate) fn values_for(alloc: Global, procs: u32, expr: &Expr) -> Result<Vec<u32>, PardoKind>
    ensures { GivesAsRead (λ values. values.items) result (values_for procs expr.now) }
{
    let own = own_numbers(alloc, procs)?;
    let mut columns = Vec::new(alloc);
    for node in expr.nodes() {
        take_node(procs, own.as_slice(), *node, &mut columns)?;
    }
    Ok(top(&mut columns))
}

// The processors' own numbers.
fn own_numbers(alloc: Global, procs: u32) -> Result<Vec<u32>, AllocError>
    ensures { IfOk result (λ numbers. numbers.items ≡ below procs) }
{
    let mut numbers = Vec::with_capacity(alloc, procs as usize)?;
    for i in 0..procs {
        numbers.push(i)?;
    }
    Ok(numbers)
}

// The columns on a stack after one node more.
fn take_node(
    procs: u32,
    own: &[u32],
    node: Node,
    columns: &mut Vec<Vec<u32>>,
) -> Result<(), PardoKind>
    requires { own.now ≡ below procs }
    ensures { GivesAsRead (λ _. columns_in columns.new.items) result
        (with_column procs node (columns_in columns.old.items)) }
{
    let alloc = *columns.allocator();
    match node {
        Node::Number(value) => columns.push(vec![in alloc; value; procs as usize]?)?,
        Node::Own => columns.push(Vec::from_slice(alloc, own)?)?,
        Node::Loop(_) | Node::Private(_) => columns.push(vec![in alloc; 0; procs as usize]?)?,
        Node::Place(_) => (),
        Node::Apply(op) => {
            let second = top(columns);
            let mut first = top(columns);
            apply(op, first.as_mut_slice(), second.as_slice())?;
            columns.push(first)?;
        }
    }
    Ok(())
}

// Takes the column on top of a stack, and an empty one where there is none.
fn top(columns: &mut Vec<Vec<u32>>) -> Vec<u32>
    ensures column { result.items ≡ top_of (columns_in columns.old.items) }
    ensures rest { columns_in columns.new.items ≡ drop 1 (columns_in columns.old.items) }
{
    let alloc = *columns.allocator();
    columns.pop().unwrap_or(Vec::new(alloc))
}

// Each value becomes the operation of it and the other in its place, where there is one. The
// operation is named once more, so that each has a loop of its own.
fn apply(op: Op, values: &mut [u32], others: &[u32]) -> Result<(), PardoKind>
    ensures { GivesAsRead (λ _. values.new) result (quotients op values.old others.now) }
{
    match op {
        Op::Add => apply_each(Op::Add, values, others),
        Op::Sub => apply_each(Op::Sub, values, others),
        Op::Mul => apply_each(Op::Mul, values, others),
        Op::Div => apply_each(Op::Div, values, others),
        Op::Rem => apply_each(Op::Rem, values, others),
        Op::Shl => apply_each(Op::Shl, values, others),
        Op::Shr => apply_each(Op::Shr, values, others),
        Op::BitAnd => apply_each(Op::BitAnd, values, others),
        Op::BitOr => apply_each(Op::BitOr, values, others),
        Op::BitXor => apply_each(Op::BitXor, values, others),
        Op::Eq => apply_each(Op::Eq, values, others),
        Op::Ne => apply_each(Op::Ne, values, others),
        Op::Lt => apply_each(Op::Lt, values, others),
        Op::Le => apply_each(Op::Le, values, others),
        Op::Gt => apply_each(Op::Gt, values, others),
        Op::Ge => apply_each(Op::Ge, values, others),
        Op::And => apply_each(Op::And, values, others),
        Op::Or => apply_each(Op::Or, values, others),
        Op::Min => apply_each(Op::Min, values, others),
        Op::Max => apply_each(Op::Max, values, others),
        Op::Within => apply_each(Op::Within, values, others),
    }
}

// Each value becomes the operation of it and the other in its place, in the midst of the caller's
// code.
#[inline(always)]
fn apply_each(op: Op, values: &mut [u32], others: &[u32]) -> Result<(), PardoKind>
    ensures { GivesAsRead (λ _. values.new) result (quotients op values.old others.now) }
{
    for k in 0..values.len().min(others.len()) {
        values[k] = quotient(op, values[k], others[k])?;
    }
    Ok(())
}

// The value of an operation, unless it divides by 0.
#[inline(always)]
fn quotient(op: Op, a: u32, b: u32) -> Result<u32, PardoKind>
    ensures { GivesAsRead (λ value. value) result (quotient_of op a b) }
{
    if op.is_division() && b == 0 {
        Err(PardoKind::OutOfLimits)
    } else {
        Ok(op.value(a, b))
    }
}
