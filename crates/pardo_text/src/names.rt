//! What names stand for.
ghost use Rattle.std.specs.Prelude.{◌≡◌, ◌∷◌, IfOk};
ghost use Rattle.pardo_text.specs.Names.{admits, tree_from};

use pardo_program::{Exprs, Node};
use std::alloc::AllocError;
use std::collections::BTreeMap;

/// What a name stands for. Arrays, variables and loops are counted from 0.
#[derive(Clone, Copy)]
pub(crate) enum Named {
    Constant(u32),
    /// The own number of a processor.
    Own,
    Scalar(usize),
    Array(usize),
    /// An array of two indices, with so many rows and columns.
    Table(usize, u32, u32),
    Private(usize),
    /// The variable of the loop in so many others.
    Loop(usize),
}

impl Named {
    /// One expression more: what the name without an index says.
    pub(crate) fn add_to(self, exprs: &mut Exprs) -> Result<(), AllocError>
        ensures { IfOk result (λ _. exprs.new ≡ tree_from self ∷ exprs.old) }
    {
        match self {
            Named::Constant(value) => exprs.number(value),
            Named::Own => exprs.leaf(Node::Own),
            Named::Private(x) => exprs.leaf(Node::Private(x)),
            Named::Loop(nest) => exprs.leaf(Node::Loop(nest)),
            Named::Scalar(array) | Named::Array(array) | Named::Table(array, _, _) => {
                exprs.number(0)?;
                exprs.place_of(array)
            }
        }
    }
}

/// The names that are known.
pub(crate) type Names<'t> = BTreeMap<&'t [u8], Named>;

/// Where an expression stands, which decides on the names in it.
#[derive(Clone, Copy)]
pub(crate) enum Scope {
    /// Where a number must be known at once.
    Fixed,
    /// A start value of a private variable.
    Start,
    /// A bound of a loop `for`.
    Bound,
    /// The condition of a loop `while`, the same for all processors.
    Uniform,
    /// Everywhere else.
    Any,
}

impl Scope {
    /// Whether what a name stands for may stand here.
    pub(crate) fn admits(self, thing: Named) -> bool
        ensures { result ≡ admits self thing }
    {
        match (self, thing) {
            (_, Named::Constant(_)) => true,
            (Scope::Start, Named::Own) => true,
            (Scope::Bound, Named::Loop(_)) => true,
            (Scope::Uniform, Named::Loop(_) | Named::Scalar(_)) => true,
            (Scope::Any, _) => true,
            _ => false,
        }
    }
}
