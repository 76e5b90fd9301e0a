//! How many registers the code of expressions needs.
ghost use Rattle.std.specs.Prelude.{◌≡◌, ◌<◌, ◌++◌, ◌∷◌, [], ◌&&◌, ◌||◌, false, max, vec_len};
ghost use Rattle.std.specs.Prelude.{if◌then◌else◌, IfOk, OnOk};
ghost use Rattle.pardo_flat.specs.Flat.{applied_shape, computed_shape, first_need, fits, has_room};
ghost use Rattle.pardo_flat.specs.Flat.{gives_truth, is_beside, operation_need, shape_of};
ghost use Rattle.pardo_flat.specs.Flat.{registers_taken};
ghost use Rattle.pardo_flat.specs.Inner.Splits.{CanShape, ShapesNode};

use pardo_program::{Expr, Node, Op, Statement, Target};
use std::alloc::{AllocError, Global};
use std::marker::Model;

/// What the code of an expression needs.
#[derive(Clone, Copy)]
pub(crate) struct Shape {
    /// Its value takes a register.
    is_computed: bool,
    is_number: bool,
    /// It is 0 or 1 whatever the program does.
    is_truth: bool,
    /// How many registers it uses; 4 stands for more than three.
    need: u8,
}

impl Model for Shape {
    ghost use Rattle.pardo_flat.specs.Flat.{ShapeData};

    ghost Value = { ShapeData };

    ghost view = { λ s. record {
      is_computed = s.is_computed;
      is_number = s.is_number;
      is_truth = s.is_truth;
      need = s.need;
    } };

    ghost inverse = { λ d. record {
      is_computed = d.is_computed;
      is_number = d.is_number;
      is_truth = d.is_truth;
      need = d.need;
    } };
}

impl Shape {
    /// A number, or the own number.
    pub(crate) fn at_hand(is_number: bool) -> Self
        ensures { result ≡ record {
          is_computed = false;
          is_number = is_number;
          is_truth = false;
          need = 0;
        } }
    {
        Shape {
            is_computed: false,
            is_number,
            is_truth: false,
            need: 0,
        }
    }

    /// A value that takes a register.
    pub(crate) fn computed(is_truth: bool, need: u8) -> Self
        ensures { result ≡ computed_shape is_truth need }
    {
        Shape {
            is_computed: true,
            is_number: false,
            is_truth,
            need: need.min(4),
        }
    }

    /// How many registers its value takes.
    pub(crate) fn taken(self) -> u8
        ensures { result ≡ registers_taken self }
    {
        if self.is_computed { 1 } else { 0 }
    }

    /// An operation of two expressions.
    #[tactic(auto, unfolding(crate::specs::Flat::applied_shape))]
    pub(crate) fn applied(op: Op, first: Shape, second: Shape) -> Self
        ensures { result ≡ applied_shape op first second }
    {
        let beside = first.taken().saturating_add(second.need);
        let need = first
            .need
            .max(beside.max(operation_need(op, first, second)));
        Shape::computed(gives_truth(op, first.is_truth && second.is_truth), need)
    }

    /// Whether three registers are enough, of which so many are taken.
    pub(crate) fn has_room(self, at: u8) -> bool
        ensures { result ≡ has_room at self }
    {
        at.saturating_add(self.need) <= 3
    }
}

/// Whether the value of an operation is 0 or 1 whatever its operands are, or where they are.
#[tactic(auto, unfolding(crate::specs::Flat::gives_truth))]
pub fn gives_truth(op: Op, are_truths: bool) -> bool
    ensures { result ≡ gives_truth op are_truths }
{
    match op {
        Op::Eq | Op::Ne | Op::Lt | Op::Le | Op::Gt | Op::Ge | Op::And | Op::Or => true,
        Op::BitAnd | Op::BitOr => are_truths,
        _ => false,
    }
}

// How many registers an operation uses from that of its first operand on.
#[tactic(auto, unfolding(crate::specs::Flat::operation_need))]
fn operation_need(op: Op, first: Shape, second: Shape) -> u8
    ensures { result ≡ operation_need op first second }
{
    match op {
        Op::Sub | Op::Div | Op::Rem | Op::Shl | Op::Shr | Op::Lt | Op::Ge => {
            first_need(first, second)
        }
        Op::Gt | Op::Le => first_need(second, first),
        Op::And => conjunction_need(first, second),
        Op::Min | Op::Max => choice_need(first, second),
        Op::Within => index_need(first),
        _ => 1,
    }
}

// A number that stands first comes into a register of its own.
fn first_need(first: Shape, second: Shape) -> u8
    ensures { result ≡ first_need first second }
{
    if first.is_number && second.is_computed {
        2
    } else {
        1
    }
}

fn conjunction_need(first: Shape, second: Shape) -> u8
    ensures { result ≡ (if (first.is_truth && second.is_truth)
        || (first.is_computed && second.is_computed) then 1 else 2) }
{
    let both = first.is_computed && second.is_computed;
    if (first.is_truth && second.is_truth) || both {
        1
    } else {
        2
    }
}

fn choice_need(first: Shape, second: Shape) -> u8
    ensures { result ≡ (if first.is_computed && second.is_computed then 3 else 2) }
{
    if first.is_computed && second.is_computed {
        3
    } else {
        2
    }
}

// The test of an index takes a register beside that of the index.
fn index_need(index: Shape) -> u8
    ensures { result ≡ (if index.is_computed || index.is_number then 2 else 1) }
{
    if index.is_computed || index.is_number {
        2
    } else {
        1
    }
}

/// Whether the second operand of an operation has room beside the first.
pub(crate) fn is_beside(op: Op, first: Shape, second: Shape) -> bool
    ensures { result ≡ is_beside op first second }
{
    !first.is_computed || Shape::applied(op, first, second).has_room(0)
}

/// The shape of a place whose index has this one.
pub(crate) fn place_shape(index: Shape) -> Shape
    ensures { result ≡ computed_shape false (max 1 index.need) }
{
    Shape::computed(false, index.need.max(1))
}

/// Whether three registers are enough for a line, by a stack that is empty before and after.
pub(crate) fn fits(shapes: &mut Vec<Shape>, statement: &Statement) -> Result<bool, AllocError>
    requires { shapes.old.items ≡ [] }
    ensures none { OnOk result (shapes.new.items ≡ []) }
    ensures fits { IfOk result (λ enough. enough ≡ fits statement.now) }
{
    match statement {
        Statement::Assign(Target::Private(_), expr)
        | Statement::If(expr)
        | Statement::While(expr, _) => Ok(shape_of(shapes, expr)?.has_room(0)),
        Statement::Assign(Target::Array(_, index), value) => {
            let value = shape_of(shapes, value)?;
            let index = shape_of(shapes, index)?;
            Ok(value.has_room(0) && index.has_room(value.taken()))
        }
        Statement::For(_, first, last, _, _) => {
            let first = shape_of(shapes, first)?;
            let last = shape_of(shapes, last)?;
            Ok(first.has_room(0) && last.has_room(1))
        }
        _ => Ok(true),
    }
}

// The shape of an expression, by a stack that is empty before and after.
fn shape_of(shapes: &mut Vec<Shape>, expr: &Expr) -> Result<Shape, AllocError>
    requires { shapes.old.items ≡ [] }
    ensures none { OnOk result (shapes.new.items ≡ []) }
    ensures shape { IfOk result (λ shape. shape ≡ shape_of expr.now) }
{
    for node in expr.nodes() {
        take_shape(shapes, *node)?;
    }
    Ok(pop_shape(shapes))
}

// The shape of one node more, whose operands are there.
fn take_shape(shapes: &mut Vec<Shape>, node: Node) -> Result<(), AllocError>
    requires { CanShape node shapes.old.items }
    ensures { OnOk result (ShapesNode node shapes.old.items shapes.new.items) }
{
    match node {
        Node::Number(_) => push_shape(shapes, Shape::at_hand(true)),
        Node::Own => push_shape(shapes, Shape::at_hand(false)),
        Node::Loop(_) => push_shape(shapes, Shape::computed(false, 1)),
        Node::Private(_) => push_shape(shapes, Shape::computed(false, 1)),
        Node::Place(_) => {
            let index = pop_shape(shapes);
            push_shape(shapes, place_shape(index))
        }
        Node::Apply(op) => {
            let second = pop_shape(shapes);
            let first = pop_shape(shapes);
            push_shape(shapes, Shape::applied(op, first, second))
        }
    }
}

fn push_shape(shapes: &mut Vec<Shape>, shape: Shape) -> Result<(), AllocError>
    ensures { OnOk result (shapes.new.items ≡ shapes.old.items ++ shape ∷ []) }
{
    shapes.push(shape)?;
    Ok(())
}

fn pop_shape(shapes: &mut Vec<Shape>) -> Shape
    requires { 0 < vec_len shapes.old }
    ensures { shapes.old.items ≡ shapes.new.items ++ result ∷ [] }
{
    let Some(shape) = shapes.pop() else {
        unreachable!()
    };
    shape
}
