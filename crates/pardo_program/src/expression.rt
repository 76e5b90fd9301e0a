//! Expressions.
ghost use Rattle.std.specs.Prelude.{◌≡◌, ◌≢◌, ◌<◌, [], ◌∷◌, drop, length, IfOk, IsTrue, Some, None};
ghost use Rattle.pardo_program.specs.Expression.{number, own, loop, private, place, apply};
ghost use Rattle.pardo_program.specs.Expression.{first_of, tree_of};
ghost use Rattle.pardo_program.specs.Folding.{applied, constant_of};
ghost use Rattle.std.specs.Prelude.{List};
ghost use Rattle.pardo_program.specs.Expression.{Tree};
ghost use Rattle.pardo_program.specs.Inner.Nodes.{IsLeaf, IsLastNumber};
ghost use Rattle.pardo_program.specs.Inner.Postfixes.{postfixes};
ghost use Rattle.pardo_program.specs.Inner.Untested.{OperandsAreThere, TakesUntested, is_test};
ghost use Rattle.std.specs.List.{list_any};
ghost use Rattle.pardo_program.specs.Tests.{is_below, is_rest_below, untested, without_tests};
ghost use Rattle.pardo_program.specs.Operations.{is_division};

use crate::operation::Op;
use crate::untested::Known;
use std::alloc::{AllocError, Global};
use std::marker::Model;

/// A part of an expression in postfix order.
#[derive(Clone, Copy, Debug, PartialEq, Eq)]
pub enum Node {
    /// A number.
    Number(u32),
    /// The processor's own number.
    Own,
    /// The variable of the loop that stands in so many others.
    Loop(usize),
    /// A private variable.
    Private(usize),
    /// The place of an array whose index is the expression before.
    Place(usize),
    /// An operation of the two expressions before.
    Apply(Op),
}

/// An expression: its nodes in postfix order, so that the longest has no depth.
#[derive(Drop)]
pub struct Expr {
    nodes: Vec<Node>,
}

impl Model for Expr {
    ghost use Rattle.pardo_program.specs.Expression.{Tree, tree_of, tree_code, IsPostfix};

    ghost Value = { Tree };

    ghost coded = { tree_code };

    ghost view = { λ e. tree_of e.nodes.items };

    ghost invariant = { λ e. IsPostfix e.nodes.items };
}

impl Expr {
    ghost use Rattle.pardo_program.specs.Expression.{postfix};

    /// A number.
    pub fn number(alloc: Global, value: u32) -> Result<Self, AllocError>
        ensures { IfOk result (λ expr. expr ≡ number value) }
    {
        Ok(Expr {
            nodes: Vec::from_slice(alloc, &[Node::Number(value)])?,
        })
    }

    /// The processor's own number.
    pub fn own(alloc: Global) -> Result<Self, AllocError>
        ensures { IfOk result (λ expr. expr ≡ own) }
    {
        Ok(Expr {
            nodes: Vec::from_slice(alloc, &[Node::Own])?,
        })
    }

    /// The variable of the loop that stands in so many others.
    pub fn loop_variable(alloc: Global, nest: usize) -> Result<Self, AllocError>
        ensures { IfOk result (λ expr. expr ≡ loop nest) }
    {
        Ok(Expr {
            nodes: Vec::from_slice(alloc, &[Node::Loop(nest)])?,
        })
    }

    /// A private variable.
    pub fn private(alloc: Global, variable: usize) -> Result<Self, AllocError>
        ensures { IfOk result (λ expr. expr ≡ private variable) }
    {
        Ok(Expr {
            nodes: Vec::from_slice(alloc, &[Node::Private(variable)])?,
        })
    }

    /// The place of an array whose index it is.
    pub fn place_of(self, array: usize) -> Result<Self, AllocError>
        ensures { IfOk result (λ expr. expr ≡ place array self) }
    {
        let mut nodes = self.nodes;
        nodes.push(Node::Place(array))?;
        Ok(Expr { nodes })
    }

    /// An operation of it and of a second expression.
    pub fn apply(self, op: Op, second: &Expr) -> Result<Self, AllocError>
        ensures { IfOk result (λ expr. expr ≡ apply op self second.now) }
    {
        let mut nodes = self.nodes;
        nodes.extend_from_slice(second.nodes())?;
        nodes.push(Node::Apply(op))?;
        Ok(Expr { nodes })
    }

    /// The same expression once more.
    pub fn copied(&self, alloc: Global) -> Result<Self, AllocError>
        ensures { IfOk result (λ expr. expr ≡ self.now) }
    {
        Ok(Expr {
            nodes: Vec::from_slice(alloc, self.nodes())?,
        })
    }

    /// The number that it is, if it is one.
    pub fn constant(&self) -> Option<u32>
        ensures { result ≡ constant_of self.now }
    {
        match self.nodes.as_slice() {
            [Node::Number(value)] => Some(*value),
            _ => None,
        }
    }

    /// Leaves out the tests of indices that cannot fail.
    pub(crate) fn leave_tests_out(&mut self, known: &Known) -> Result<(), AllocError>
        ensures { IfOk result (λ _. self.new ≡ without_tests known.now self.old) }
    {
        if !has_test(self.nodes()) {
            return Ok(());
        }
        let mut exprs = Exprs::new(*self.nodes.allocator());
        for node in self.nodes() {
            exprs.take_untested(known, *node)?;
        }
        *self = exprs.into_expr();
        Ok(())
    }

    /// The nodes in postfix order.
    pub fn nodes(&self) -> &[Node]
        ensures { result.now ≡ postfix self.now }
    {
        self.nodes.as_slice()
    }
}

/// Expressions that are being read: the nodes of one after those of another, in one list. Contracts
/// have the last one first.
#[derive(Drop)]
pub struct Exprs {
    nodes: Vec<Node>,
}

impl Model for Exprs {
    ghost use Rattle.std.specs.Prelude.{List, []};
    ghost use Rattle.pardo_program.specs.Expression.{Tree, trees_of};
    ghost use Rattle.pardo_program.specs.Inner.Postfixes.{trees_code, ArePostfix};

    ghost Value = { List Tree };

    ghost coded = { trees_code };

    ghost view = { λ e. trees_of [] e.nodes.items };

    ghost invariant = { λ e. ArePostfix e.nodes.items };
}

impl Exprs {
    /// No expression.
    pub fn new(alloc: Global) -> Self
        ensures { result ≡ [] }
    {
        Exprs {
            nodes: Vec::new(alloc),
        }
    }

    /// One more, of one node.
    pub fn leaf(&mut self, node: Node) -> Result<(), AllocError>
        requires { IsLeaf node }
        ensures { IfOk result (λ _. self.new ≡ tree_of (node ∷ []) ∷ self.old) }
    {
        self.nodes.push(node)?;
        Ok(())
    }

    /// One more, a number.
    pub fn number(&mut self, value: u32) -> Result<(), AllocError>
        ensures { IfOk result (λ _. self.new ≡ number value ∷ self.old) }
    {
        self.leaf(Node::Number(value))
    }

    /// The last one becomes the place of an array whose index it is.
    pub fn place_of(&mut self, array: usize) -> Result<(), AllocError>
        requires { 0 < length self.old }
        ensures { IfOk result (λ _. self.new
            ≡ place array (first_of self.old) ∷ drop 1 self.old) }
    {
        self.nodes.push(Node::Place(array))?;
        Ok(())
    }

    /// The last two become an operation of them, whose second is not 0 where it is a division. Of
    /// two numbers it is a number.
    pub fn apply(&mut self, op: Op) -> Result<(), AllocError>
        requires two { 1 < length self.old }
        requires divisor { IsTrue (is_division op) → constant_of (first_of self.old) ≢ Some 0 }
        ensures { IfOk result (λ _. self.new
            ≡ applied op (first_of (drop 1 self.old)) (first_of self.old) ∷ drop 2 self.old) }
    {
        let Some(b) = self.take_number() else {
            return self.join(op);
        };
        let Some(a) = self.take_number() else {
            self.number(b)?;
            return self.join(op);
        };
        self.number(op.value(a, b))
    }

    /// The last two become an operation of them, even where both are numbers.
    pub fn join(&mut self, op: Op) -> Result<(), AllocError>
        requires { 1 < length self.old }
        ensures { IfOk result (λ _. self.new
            ≡ apply op (first_of (drop 1 self.old)) (first_of self.old) ∷ drop 2 self.old) }
    {
        self.nodes.push(Node::Apply(op))?;
        Ok(())
    }

    // One node more of an expression, which becomes one without tests that cannot fail.
    fn take_untested(&mut self, known: &Known, node: Node) -> Result<(), AllocError>
        requires { OperandsAreThere known.now node self.old }
        ensures { IfOk result (λ _. TakesUntested known.now node self.old self.new) }
    {
        match node {
            Node::Number(value) => self.number(value),
            Node::Own => self.leaf(Node::Own),
            Node::Loop(nest) => self.leaf(Node::Loop(nest)),
            Node::Private(x) => self.leaf(Node::Private(x)),
            Node::Place(array) => self.place_of(array),
            Node::Apply(op) => self.join_untested(known, op),
        }
    }

    // The last two become an operation of them, or the first alone, where that is a test which
    // cannot fail.
    fn join_untested(&mut self, known: &Known, op: Op) -> Result<(), AllocError>
        requires { 1 < length self.old }
        ensures { IfOk result (λ _. self.new
            ≡ untested known.now op (first_of (drop 1 self.old)) (first_of self.old)
            (constant_of (first_of self.old)) ∷ drop 2 self.old) }
    {
        let Op::Within = op else {
            return self.join(op);
        };
        let Some(bound) = self.take_number() else {
            return self.join(Op::Within);
        };
        if self.is_below(known, bound) {
            return Ok(());
        }
        self.number(bound)?;
        self.join(Op::Within)
    }

    // Whether the value of the last one is always below a bound.
    #[tactic(auto, unfolding(crate::specs::Tests::is_below))]
    fn is_below(&self, known: &Known, bound: u32) -> bool
        requires { 0 < length self.now }
        ensures { result ≡ is_below known.now bound (first_of self.now) }
    {
        let Some((last, before)) = self.nodes.as_slice().split_last() else {
            return false;
        };
        match *last {
            Node::Number(_) => false,
            Node::Own => known.is_own_below(bound),
            Node::Loop(nest) => known.is_loop_below(nest, bound),
            Node::Private(x) => known.is_private_below(x, bound),
            Node::Place(_) => false,
            Node::Apply(op) => is_rest_below(bound, op, before),
        }
    }

    /// The number that the last one is, if it is one.
    pub fn constant(&self) -> Option<u32>
        ensures { result ≡ constant_of (first_of self.now) }
    {
        last_number(self.nodes.as_slice())
    }

    /// Takes the last one, if it is a number.
    pub fn take_number(&mut self) -> Option<u32>
        ensures { elim result [
          | None ↦ (self.new ≡ self.old) × (constant_of (first_of self.old) ≡ None)
          | Some value ↦ self.old ≡ number value ∷ self.new
        ] }
    {
        let Some(value) = last_number(self.nodes.as_slice()) else {
            return None;
        };
        self.nodes.pop();
        Some(value)
    }

    /// The only one.
    pub fn into_expr(self) -> Expr
        requires { length self ≡ 1 }
        ensures { result ≡ first_of self }
    {
        let mut nodes = self.nodes;
        nodes.shrink_to_fit();
        Expr { nodes }
    }
}

// Whether an index is tested.
fn has_test(nodes: &[Node]) -> bool
    ensures { result ≡ list_any is_test nodes.now }
{
    nodes.iter().any(|node| is_test(*node))
}

fn is_test(node: Node) -> bool
    ensures { result ≡ is_test node }
{
    matches!(node, Node::Apply(Op::Within))
}

// The number that the last node is, if it is one.
fn last_number(nodes: &[Node]) -> Option<u32>
    ensures { IsLastNumber nodes.now result }
{
    match nodes.split_last() {
        Some((Node::Number(value), _)) => Some(*value),
        _ => None,
    }
}

// Whether a remainder by the last of these expressions is below a bound.
fn is_rest_below(bound: u32, op: Op, nodes: &[Node]) -> bool
    ensures { (by : Tree) (trees : List Tree) → nodes.now ≡ postfixes (by ∷ trees)
        → result ≡ is_rest_below bound op (constant_of by) }
{
    match (op, last_number(nodes)) {
        (Op::Rem, Some(by)) => by <= bound,
        _ => false,
    }
}
