//! The tokens of a line, cut from left to right as they are read.
ghost use Rattle.std.specs.Prelude.{◌≡◌, [], ◌∷◌, Some, None, length};
ghost use Rattle.pardo_text.specs.Inner.Tokens.{plain, tokens_cut};

use crate::token::{Token, first_token};
use std::marker::Model;

/// The tokens of a line that were not read yet.
#[derive(Drop)]
pub(crate) struct Cursor<'t> {
    /// The next one.
    first: Option<Token<'t>>,
    /// What stands after it in the line.
    rest: &'t [u8],
    /// How many there are.
    len: usize,
}

impl<'t> Model for Cursor<'t> {
    ghost use Rattle.std.specs.Prelude.{◌≡◌, List, length};
    ghost use Rattle.pardo_text.specs.Tokens.{Token};
    ghost use Rattle.pardo_text.specs.Inner.Tokens.{tokens_left};

    ghost Value = { List Token };

    ghost view = { λ c. tokens_left c.first c.len c.rest.now };

    ghost invariant = { λ c. length (tokens_left c.first c.len c.rest.now) ≡ c.len };
}

impl<'t> Cursor<'t> {
    /// The first tokens of a line, as many as `len` says; the line has as many at least.
    pub(crate) fn new(line: &'t [u8], len: usize) -> Self
        requires { length (tokens_cut len line.now) ≡ len }
        ensures { result ≡ tokens_cut len line.now }
    {
        if len > 0
            && let Some((token, rest)) = first_token(line)
        {
            let first = Some(token);
            return Cursor { first, rest, len };
        }
        Cursor {
            first: None,
            rest: line,
            len: 0,
        }
    }

    /// How many tokens are left.
    pub(crate) fn len(&self) -> usize
        ensures { result ≡ length self.now }
    {
        self.len
    }

    /// The next token.
    pub(crate) fn peek(&self) -> Option<Token<'t>>
        ensures { elim result [
          | None ↦ self.now ≡ []
          | Some token ↦ (rest : _) × (self.now ≡ plain token ∷ rest)
        ] }
    {
        self.first
    }

    /// Reads the next token.
    pub(crate) fn next(&mut self) -> Option<Token<'t>>
        ensures { elim result [
          | None ↦ (self.old ≡ []) × (self.new ≡ [])
          | Some token ↦ self.old ≡ plain token ∷ self.new
        ] }
    {
        let first = self.first?;
        *self = Cursor::new(self.rest, self.len - 1);
        Some(first)
    }
}
