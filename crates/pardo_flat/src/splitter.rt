//! Expressions for which three registers are too few, by pieces.
ghost use Rattle.std.specs.Prelude.{◌≡◌, ◌+◌, ◌≤◌, ◌<◌, ◌++◌, ◌∷◌, [], length, vec_len};
ghost use Rattle.std.specs.Prelude.{IfOk, OnOk, false, true};
ghost use Rattle.pardo_flat.specs.Flat.{split, split_bounds, split_last, split_store, variable};
ghost use Rattle.pardo_flat.specs.Inner.Splits.{CanSplit, JoinsTo, TakesNode, split_part};

use crate::needs::{Shape, is_beside, place_shape};
use pardo_program::{Expr, Node, Op};
use std::alloc::{AllocError, Global};

/// What is left of an expression, and the shapes of that and of the whole expression.
#[derive(Drop)]
pub(crate) struct Part {
    pub(crate) rest: Expr,
    pub(crate) shape: Shape,
    pub(crate) whole: Shape,
}

/// Expressions that are being split: their pieces, and what is left of each.
#[derive(Drop)]
pub(crate) struct Splitter {
    /// Pieces are given to variables of loops, and else to private ones.
    common: bool,
    /// The first variable that is given a piece.
    base: usize,
    pub(crate) pieces: Vec<Expr>,
    parts: Vec<Part>,
    ghost few: { base ≤ 1048576 },
}

impl Splitter {
    /// No expression yet; pieces are given to the variables of this kind from this one on.
    pub(crate) fn above(alloc: Global, common: bool, base: usize) -> Self
        requires { base ≤ 1048576 }
        ensures common { result.common ≡ common }
        ensures base { result.base ≡ base }
        ensures pieces { result.pieces.items ≡ [] }
        ensures parts { result.parts.items ≡ [] }
    {
        Splitter {
            common,
            base,
            pieces: Vec::new(alloc),
            parts: Vec::new(alloc),
        }
    }

    // One expression more, of which nothing is split off.
    fn push(&mut self, rest: Expr, shape: Shape, whole: Shape) -> Result<(), AllocError>
        ensures common { self.new.common ≡ self.old.common }
        ensures base { self.new.base ≡ self.old.base }
        ensures pieces { self.new.pieces.items ≡ self.old.pieces.items }
        ensures parts { OnOk result (self.new.parts.items ≡ self.old.parts.items
            ++ record { rest = rest; shape = shape; whole = whole } ∷ []) }
    {
        self.parts.push(Part { rest, shape, whole })?;
        Ok(())
    }

    // The expression that came last.
    fn pop(&mut self) -> Part
        requires { 0 < vec_len self.old.parts }
        ensures common { self.new.common ≡ self.old.common }
        ensures base { self.new.base ≡ self.old.base }
        ensures pieces { self.new.pieces.items ≡ self.old.pieces.items }
        ensures parts { self.old.parts.items ≡ self.new.parts.items ++ result ∷ [] }
    {
        let Some(part) = self.parts.pop() else {
            unreachable!()
        };
        part
    }

    // The next piece becomes a variable.
    fn give(&mut self, alloc: Global, piece: Expr) -> Result<Expr, AllocError>
        ensures common { self.new.common ≡ self.old.common }
        ensures base { self.new.base ≡ self.old.base }
        ensures parts { self.new.parts.items ≡ self.old.parts.items }
        ensures given { IfOk result (λ expr. expr
            ≡ variable self.old.common (self.old.base + length self.old.pieces.items)) }
        ensures pieces { OnOk result (self.new.pieces.items
            ≡ self.old.pieces.items ++ piece ∷ []) }
    {
        let variable = self.base + self.pieces.len();
        self.pieces.push(piece)?;
        if self.common {
            return Expr::loop_variable(alloc, variable);
        }
        Expr::private(alloc, variable)
    }

    // One node more, whose operands are there.
    fn take(&mut self, alloc: Global, node: Node) -> Result<(), AllocError>
        requires { CanSplit self.old.common self.old.base node self.old.pieces.items
            self.old.parts.items }
        ensures common { self.new.common ≡ self.old.common }
        ensures base { self.new.base ≡ self.old.base }
        ensures taken { OnOk result (TakesNode self.old.common self.old.base node
            self.old.pieces.items self.old.parts.items self.new.pieces.items
            self.new.parts.items) }
    {
        match node {
            Node::Number(value) => {
                let shape = Shape::at_hand(true);
                self.push(Expr::number(alloc, value)?, shape, shape)
            }
            Node::Own => {
                let shape = Shape::at_hand(false);
                self.push(Expr::own(alloc)?, shape, shape)
            }
            Node::Loop(nest) => {
                let shape = Shape::computed(false, 1);
                self.push(Expr::loop_variable(alloc, nest)?, shape, shape)
            }
            Node::Private(variable) => {
                let shape = Shape::computed(false, 1);
                self.push(Expr::private(alloc, variable)?, shape, shape)
            }
            Node::Place(array) => {
                let Part { rest, shape, whole } = self.pop();
                let rest = rest.place_of(array)?;
                self.push(rest, place_shape(shape), place_shape(whole))
            }
            Node::Apply(op) => {
                let second = self.pop();
                let first = self.pop();
                self.join(alloc, op, first, second)
            }
        }
    }

    // Two expressions become an operation; the second one is a piece where it has no room beside
    // the first.
    fn join(&mut self, alloc: Global, op: Op, first: Part, second: Part) -> Result<(), AllocError>
        ensures common { self.new.common ≡ self.old.common }
        ensures base { self.new.base ≡ self.old.base }
        ensures joined { OnOk result (JoinsTo self.old.common self.old.base op first second
            self.old.pieces.items self.old.parts.items self.new.pieces.items
            self.new.parts.items) }
    {
        let whole = Shape::applied(op, first.whole, second.whole);
        if is_beside(op, first.shape, second.whole) {
            let shape = Shape::applied(op, first.shape, second.shape);
            return self.push(first.rest.apply(op, &second.rest)?, shape, whole);
        }
        let shape = Shape::applied(op, first.shape, Shape::computed(false, 1));
        let variable = self.give(alloc, second.rest)?;
        self.push(first.rest.apply(op, &variable)?, shape, whole)
    }

    /// One expression more: its pieces come after those so far. What is left of it.
    pub(crate) fn split(&mut self, alloc: Global, expr: &Expr) -> Result<Part, AllocError>
        requires { self.old.parts.items ≡ [] }
        ensures common { self.new.common ≡ self.old.common }
        ensures base { self.new.base ≡ self.old.base }
        ensures none { OnOk result (self.new.parts.items ≡ []) }
        ensures part { IfOk result (λ part. part ≡ split_part self.old.common
            (self.old.base + length self.old.pieces.items) expr.now) }
        ensures pieces { OnOk result (self.new.pieces.items ≡ self.old.pieces.items
            ++ (split self.old.common (self.old.base + length self.old.pieces.items)
            expr.now).0) }
    {
        for node in expr.nodes() {
            self.take(alloc, *node)?;
        }
        Ok(self.pop())
    }

    /// Two expressions, the second one an index: it is a piece where it has no room beside the
    /// first one's value. What is left of both.
    pub(crate) fn split_both(
        &mut self,
        alloc: Global,
        value: &Expr,
        index: &Expr,
    ) -> Result<(Expr, Expr), AllocError>
        requires private { self.old.common ≡ false }
        requires pieces { self.old.pieces.items ≡ [] }
        requires parts { self.old.parts.items ≡ [] }
        ensures left { IfOk result (λ both.
            (self.new.pieces.items, both.0, both.1)
            ≡ split_store self.old.base value.now index.now) }
    {
        let value = self.split(alloc, value)?;
        let index = self.split(alloc, index)?;
        if index.whole.has_room(value.shape.taken()) {
            return Ok((value.rest, index.rest));
        }
        Ok((value.rest, self.give(alloc, index.rest)?))
    }

    /// The last bound of a loop, which has a register less. What is left of it.
    pub(crate) fn split_last(&mut self, alloc: Global, last: &Expr) -> Result<Expr, AllocError>
        requires common { self.old.common ≡ true }
        requires pieces { self.old.pieces.items ≡ [] }
        requires parts { self.old.parts.items ≡ [] }
        ensures common { self.new.common ≡ true }
        ensures base { self.new.base ≡ self.old.base }
        ensures none { OnOk result (self.new.parts.items ≡ []) }
        ensures left { IfOk result (λ rest.
            (self.new.pieces.items, rest) ≡ split_last self.old.base last.now) }
    {
        let Part { rest, shape, .. } = self.split(alloc, last)?;
        if shape.has_room(1) {
            return Ok(rest);
        }
        self.give(alloc, rest)
    }

    /// Both bounds of a loop; the pieces of the last one come first. What is left of both.
    pub(crate) fn split_bounds(
        &mut self,
        alloc: Global,
        first: &Expr,
        last: &Expr,
    ) -> Result<(Expr, Expr), AllocError>
        requires common { self.old.common ≡ true }
        requires pieces { self.old.pieces.items ≡ [] }
        requires parts { self.old.parts.items ≡ [] }
        ensures left { IfOk result (λ both.
            (self.new.pieces.items, both.0, both.1)
            ≡ split_bounds self.old.base first.now last.now) }
    {
        let last = self.split_last(alloc, last)?;
        let first = self.split(alloc, first)?.rest;
        Ok((first, last))
    }

    /// The pieces.
    pub(crate) fn into_pieces(self) -> Vec<Expr>
        ensures { result.items ≡ self.pieces.items }
    {
        let Splitter { pieces, .. } = self;
        pieces
    }
}
