//! Lines of code.
ghost use Rattle.std.specs.Prelude.{◌≡◌};
ghost use Rattle.pardo_program.specs.Blocks.{loop_ending_at};

use crate::expression::Expr;

/// What an assignment goes to. Arrays and private variables are counted from 0.
#[derive(Drop)]
pub enum Target {
    /// A private variable.
    Private(usize),
    /// The place of an array with this index; a scalar is place 0 of its array.
    Array(usize, Expr),
}

/// A line of code. Places are those of lines of code, counted from 0.
#[derive(Drop)]
pub enum Statement {
    /// `TARGET := VALUE`
    Assign(Target, Expr),
    /// `if CONDITION`
    If(Expr),
    /// `else`. An `elsif` is one, and an `If` in it.
    Else,
    /// The `end` of an `if`. An `end` is one for each `elsif`, too.
    EndIf,
    /// `while CONDITION`, and the place of its `end`.
    While(Expr, usize),
    /// The `end` of a `while`, and the place of that.
    EndWhile(usize),
    /// `for NAME = FIRST to LAST`: in how many other loops it stands, its bounds, whether it
    /// counts up, and the place of its `end`.
    For(usize, Expr, Expr, bool, usize),
    /// The `end` of a `for`, and the place of that.
    EndFor(usize),
}

impl Statement {
    /// The first line of a loop learns the place of its end.
    pub fn set_end(&mut self, place: usize)
        ensures { self.new ≡ loop_ending_at place self.old }
    {
        match self {
            Statement::While(_, end) => *end = place,
            Statement::For(_, _, _, _, end) => *end = place,
            _ => (),
        }
    }
}

/// A line of code, and where it stands.
#[derive(Drop)]
pub struct Line {
    pub statement: Statement,
    /// How many `if`s are open before the line; without its own where it is an `else` or the `end`
    /// of an `if`.
    pub depth: usize,
    /// The number of the line in the text, counted from 1; several may have it.
    pub number: u64,
}
