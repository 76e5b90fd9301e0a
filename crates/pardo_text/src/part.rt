//! Single tokens of a line.
ghost use Rattle.std.specs.Prelude.{◌≡◌, if◌then◌else◌, List, ◌∷◌, Ok, Err, drop, is_some};
ghost use Rattle.std.specs.Prelude.{unwrap_or};
ghost use Rattle.pardo_text.specs.Expressions.{rest_after_mark, indexed, ended, new_name};
ghost use Rattle.pardo_text.specs.Header.{after_comma};
ghost use Rattle.pardo_text.specs.Tokens.{Token as Part, symbol as token};
ghost use Rattle.pardo_text.specs.Values.{after_dots};
ghost use Rattle.pardo_text.specs.Inner.Tokens.{GivesAsRead};
ghost use Rattle.pardo_text.specs.Inner.Names.{names_in};

use crate::cursor::Cursor;
use crate::fault::PardoKind;
use crate::names::Names;
use crate::symbol::Symbol;
use crate::token::Token;
use pardo_program::Op;

/// A symbol that has to come next.
#[derive(Clone, Copy)]
pub(crate) enum Mark {
    Open,
    Close,
    CloseIndex,
    Comma,
    Assign,
    Equals,
    Less,
}

impl Mark {
    // Whether this is the symbol.
    fn is(self, symbol: Symbol) -> bool
        ensures { (rest : List Part) → rest_after_mark self (token symbol ∷ rest)
            ≡ (if result then Ok rest else Err PardoKind.BadLine) }
    {
        match (self, symbol) {
            (Mark::Open, Symbol::Open)
            | (Mark::Close, Symbol::Close)
            | (Mark::CloseIndex, Symbol::CloseIndex)
            | (Mark::Comma, Symbol::Comma)
            | (Mark::Assign, Symbol::Assign)
            | (Mark::Equals, Symbol::Operator(Op::Eq))
            | (Mark::Less, Symbol::Operator(Op::Lt)) => true,
            _ => false,
        }
    }
}

/// Reads this mark.
pub(crate) fn expect(mark: Mark, tokens: &mut Cursor<'_>) -> Result<(), PardoKind>
    ensures { GivesAsRead (λ _. tokens.new) result (rest_after_mark mark tokens.old) }
{
    match tokens.next() {
        Some(Token::Symbol(symbol)) if mark.is(symbol) => Ok(()),
        _ => Err(PardoKind::BadLine),
    }
}

/// Reads the `[` after a name, if one follows.
pub(crate) fn indexed(tokens: &mut Cursor<'_>) -> bool
    ensures found { result ≡ is_some (indexed tokens.old) }
    ensures rest { tokens.new ≡ unwrap_or (indexed tokens.old) tokens.old }
{
    let found = matches!(tokens.peek(), Some(Token::Symbol(Symbol::OpenIndex)));
    pass_if(found, tokens)
}

/// Reads the `...` that ends values, if it follows.
pub(crate) fn dots(tokens: &mut Cursor<'_>) -> bool
    ensures found { result ≡ is_some (after_dots tokens.old) }
    ensures rest { tokens.new ≡ unwrap_or (after_dots tokens.old) tokens.old }
{
    let found = matches!(tokens.peek(), Some(Token::Symbol(Symbol::Dots)));
    pass_if(found, tokens)
}

/// Reads a comma, if one follows.
pub(crate) fn comma(tokens: &mut Cursor<'_>) -> bool
    ensures found { result ≡ is_some (after_comma tokens.old) }
    ensures rest { tokens.new ≡ unwrap_or (after_comma tokens.old) tokens.old }
{
    let found = matches!(tokens.peek(), Some(Token::Symbol(Symbol::Comma)));
    pass_if(found, tokens)
}

// Reads the next token, if it is the one that was looked for.
fn pass_if(found: bool, tokens: &mut Cursor<'_>) -> bool
    ensures found { result ≡ found }
    ensures rest { tokens.new ≡ (if found then drop 1 tokens.old else tokens.old) }
{
    if found {
        tokens.next();
    }
    found
}

/// Nothing is left over.
pub(crate) fn ended(tokens: &Cursor<'_>) -> Result<(), PardoKind>
    ensures { result ≡ ended tt tokens.now }
{
    match tokens.peek() {
        None => Ok(()),
        Some(_) => Err(PardoKind::BadLine),
    }
}

/// Reads a name that is not known yet.
pub(crate) fn new_name<'t>(
    names: &Names<'t>,
    tokens: &mut Cursor<'t>,
) -> Result<&'t [u8], PardoKind>
    ensures { GivesAsRead (λ name. (name.now, tokens.new)) result
        (new_name (names_in names.now) tokens.old) }
{
    match tokens.next() {
        Some(Token::Name(name)) => {
            if names.contains_key(name) {
                Err(PardoKind::DuplicateName)
            } else {
                Ok(name)
            }
        }
        _ => Err(PardoKind::BadLine),
    }
}
