//! Expressions, read from tokens.
ghost use Rattle.std.specs.Prelude.{◌≡◌, ◌<◌, ◌-◌, List, Some, None, drop, length};
ghost use Rattle.pardo_text.specs.declared.names.Scope.TheVariants.{Any};
ghost use Rattle.pardo_program.specs.Expression.{first_of};
ghost use Rattle.pardo_text.specs.Expressions.{literal_at, bracketed_at, pair_at, log_at};
ghost use Rattle.pardo_text.specs.Expressions.{place_at, used_at, named_at, operand_at, joined};
ghost use Rattle.pardo_text.specs.Expressions.{after_row, index_at, indices_at};
ghost use Rattle.pardo_text.specs.Expressions.{operator_at, chained, turns_at, level_at};
ghost use Rattle.pardo_text.specs.Expressions.{within_at, expression_at, fixed_at, log_of};
ghost use Rattle.pardo_program.specs.Operations.{level_of};
ghost use Rattle.pardo_text.specs.Tokens.{Token as Part};
ghost use Rattle.pardo_text.specs.Code.{quotient_at};
ghost use Rattle.pardo_text.specs.Inner.Exprs.{Adds, Joins};
ghost use Rattle.pardo_text.specs.Inner.Tokens.{GivesAsRead};
ghost use Rattle.pardo_text.specs.Inner.Names.{names_in};

use crate::cursor::Cursor;
use crate::fault::PardoKind;
use crate::names::{Named, Names, Scope};
use crate::part::{Mark, expect, indexed};
use crate::symbol::Symbol;
use crate::token::Token;
use pardo_program::limits::MAX_OPEN;
use pardo_program::{Expr, Exprs, Op};
use std::alloc::Global;

/// What stands around an expression.
#[derive(Clone, Copy)]
pub(crate) struct Around<'n, 't> {
    pub(crate) names: &'n Names<'t>,
    pub(crate) scope: Scope,
    /// How many brackets may still be opened.
    pub(crate) brackets: usize,
}

// Whether an expression was read, which then stands behind the others, or what is wrong.
type Parsed = Result<(), PardoKind>;

// The level of comparisons, which take two operands alone, and that of whole expressions.
const COMPARISONS: u8 = 3;

const LOOSEST: u8 = 5;

/// Reads a whole expression.
pub(crate) fn expression(
    alloc: Global,
    names: &Names<'_>,
    scope: Scope,
    tokens: &mut Cursor<'_>,
) -> Result<Expr, PardoKind>
    ensures { GivesAsRead (λ expr. (expr, tokens.new)) result
        (expression_at (names_in names.now) scope tokens.old) }
{
    let mut exprs = Exprs::new(alloc);
    add(names, scope, &mut exprs, tokens)?;
    Ok(exprs.into_expr())
}

/// Reads a whole expression, and divides 1 by it.
#[tactic(auto, unfolding(crate::specs::Code::quotient_at))]
pub(crate) fn quotient(
    alloc: Global,
    names: &Names<'_>,
    tokens: &mut Cursor<'_>,
) -> Result<Expr, PardoKind>
    ensures { GivesAsRead (λ expr. (expr, tokens.new)) result
        (quotient_at (names_in names.now) tokens.old) }
{
    let mut exprs = Exprs::new(alloc);
    exprs.number(1)?;
    add(names, Scope::Any, &mut exprs, tokens)?;
    join(Op::Div, &mut exprs)?;
    Ok(exprs.into_expr())
}

// Reads a whole expression onto others.
#[tactic(auto, unfolding(crate::specs::Expressions::expression_at))]
fn add(names: &Names<'_>, scope: Scope, exprs: &mut Exprs, tokens: &mut Cursor<'_>) -> Parsed
    ensures { Adds exprs.old exprs.new tokens.new result
        (expression_at (names_in names.now) scope tokens.old) }
{
    let around = Around {
        names,
        scope,
        brackets: MAX_OPEN + 1,
    };
    within(&around, exprs, tokens)
}

/// Reads the two indices of a place, to their `]`: the place in so many rows and columns.
#[tactic(auto, unfolding(crate::specs::Expressions::expression_at))]
pub(crate) fn place_in(
    alloc: Global,
    names: &Names<'_>,
    rows: u32,
    columns: u32,
    tokens: &mut Cursor<'_>,
) -> Result<Expr, PardoKind>
    ensures { GivesAsRead (λ expr. (expr, tokens.new)) result (indices_at
        (within_at (names_in names.now) 33) Any rows columns tokens.old) }
{
    let around = Around {
        names,
        scope: Scope::Any,
        brackets: MAX_OPEN + 1,
    };
    let mut exprs = Exprs::new(alloc);
    indices(&around, rows, columns, &mut exprs, tokens)?;
    Ok(exprs.into_expr())
}

/// Reads a number that is known at once, within limits.
#[tactic(auto, unfolding(crate::specs::Expressions::fixed_at))]
pub(crate) fn fixed(
    alloc: Global,
    names: &Names<'_>,
    low: u32,
    high: u32,
    tokens: &mut Cursor<'_>,
) -> Result<u32, PardoKind>
    ensures { GivesAsRead (λ value. (value, tokens.new)) result
        (fixed_at (names_in names.now) low high tokens.old) }
{
    let expr = expression(alloc, names, Scope::Fixed, tokens)?;
    let value = expr.constant().unwrap_or(0);
    if value < low || high < value {
        Err(PardoKind::OutOfLimits)
    } else {
        Ok(value)
    }
}

// Reads what stands within a bracket.
#[cycle(operand)]
fn within(around: &Around<'_, '_>, exprs: &mut Exprs, tokens: &mut Cursor<'_>) -> Parsed
    ensures { Adds exprs.old exprs.new tokens.new result (within_at
        (names_in around.now.names.now) around.now.brackets around.now.scope tokens.old) }
{
    match around.brackets.checked_sub(1) {
        Some(brackets) => leveled(
            &Around {
                brackets,
                ..*around
            },
            LOOSEST,
            exprs,
            tokens,
        ),
        None => Err(PardoKind::TooDeep),
    }
}

// Reads an expression of this level: a chain of those of the level below, or an operand.
#[cycle(operand)]
fn leveled(around: &Around<'_, '_>, level: u8, exprs: &mut Exprs, tokens: &mut Cursor<'_>) -> Parsed
    ensures { Adds exprs.old exprs.new tokens.new result
        (level_at (operand_at (names_in around.now.names.now)
        (within_at (names_in around.now.names.now) around.now.brackets)) level
        around.now.scope tokens.old) }
{
    if level == 0 {
        return operand(around, exprs, tokens);
    }
    leveled(around, level - 1, exprs, tokens)?;
    chain(around, level, exprs, tokens)
}

// Reads the operations of a level after the first operand.
#[cycle(operand)]
fn chain(around: &Around<'_, '_>, level: u8, exprs: &mut Exprs, tokens: &mut Cursor<'_>) -> Parsed
    requires level { 0 < level }
    requires first { 0 < length exprs.old }
    ensures { Adds (drop 1 exprs.old) exprs.new tokens.new result
        (chained (level_at (operand_at (names_in around.now.names.now)
        (within_at (names_in around.now.names.now) around.now.brackets)) (level - 1)
        around.now.scope)
        level (turns_at level tokens.old) (first_of exprs.old) tokens.old) }
{
    for _turn in 0..turns(level, tokens) {
        let Some(op) = operator(level, tokens) else {
            return Ok(());
        };
        leveled(around, level - 1, exprs, tokens)?;
        join(op, exprs)?;
    }
    Ok(())
}

// How many operations of a level may follow.
fn turns(level: u8, tokens: &Cursor<'_>) -> usize
    ensures { result ≡ turns_at level tokens.now }
{
    if level == COMPARISONS {
        1
    } else {
        tokens.len()
    }
}

// Reads the operation of this level that comes next, if one does.
#[tactic(auto, unfolding(crate::specs::Expressions::operator_at))]
fn operator(level: u8, tokens: &mut Cursor<'_>) -> Option<Op>
    ensures { elim result [
      | None ↦ (operator_at level tokens.old ≡ None) × (tokens.new ≡ tokens.old)
      | Some op ↦ operator_at level tokens.old ≡ Some (op, tokens.new)
    ] }
{
    match tokens.peek() {
        Some(Token::Symbol(Symbol::Operator(op))) if op.level() == level => {
            tokens.next();
            Some(op)
        }
        _ => None,
    }
}

// The last two expressions become an operation of them, if it divides by no number 0.
#[tactic(auto, unfolding(crate::specs::Expressions::joined))]
fn join(op: Op, exprs: &mut Exprs) -> Parsed
    requires { 1 < length exprs.old }
    ensures { Joins exprs.old exprs.new result
        (joined op (first_of (drop 1 exprs.old)) (first_of exprs.old)) }
{
    if op.is_division() && exprs.constant() == Some(0) {
        return Err(PardoKind::OutOfLimits);
    }
    exprs.apply(op)?;
    Ok(())
}

// Reads an operand.
#[cycle(operand)]
#[tactic(auto, unfolding(crate::specs::Expressions::operand_at))]
#[inline(never)]
fn operand(around: &Around<'_, '_>, exprs: &mut Exprs, tokens: &mut Cursor<'_>) -> Parsed
    ensures { Adds exprs.old exprs.new tokens.new result
        (operand_at (names_in around.now.names.now)
        (within_at (names_in around.now.names.now) around.now.brackets)
        around.now.scope tokens.old) }
{
    match tokens.next() {
        Some(Token::Number(value)) => literal(value, exprs),
        Some(Token::Name(name)) => named(around, name, exprs, tokens),
        Some(Token::Symbol(Symbol::Open)) => bracketed(around, exprs, tokens),
        Some(Token::Symbol(Symbol::Lg)) => logarithm(around, exprs, tokens),
        Some(Token::Symbol(Symbol::Operator(op))) if op.level() == 0 => {
            pair(around, op, exprs, tokens)
        }
        _ => Err(PardoKind::BadLine),
    }
}

// A number.
fn literal(value: u64, exprs: &mut Exprs) -> Parsed
    ensures { (rest : List Part) → Adds exprs.old exprs.new rest result (literal_at value rest) }
{
    if value <= u64::from(u32::MAX) {
        exprs.number(value as u32)?;
        Ok(())
    } else {
        Err(PardoKind::OutOfLimits)
    }
}

// Reads what stands between `(` and `)`, after the `(`.
#[cycle(operand)]
fn bracketed(around: &Around<'_, '_>, exprs: &mut Exprs, tokens: &mut Cursor<'_>) -> Parsed
    ensures { Adds exprs.old exprs.new tokens.new result
        (bracketed_at (within_at (names_in around.now.names.now) around.now.brackets)
        around.now.scope tokens.old) }
{
    within(around, exprs, tokens)?;
    expect(Mark::Close, tokens)?;
    Ok(())
}

// Reads what stands after `min` or `max`.
#[cycle(operand)]
fn pair(around: &Around<'_, '_>, op: Op, exprs: &mut Exprs, tokens: &mut Cursor<'_>) -> Parsed
    requires { level_of op ≡ 0 }
    ensures { Adds exprs.old exprs.new tokens.new result
        (pair_at (within_at (names_in around.now.names.now) around.now.brackets)
        around.now.scope op tokens.old) }
{
    expect(Mark::Open, tokens)?;
    within(around, exprs, tokens)?;
    expect(Mark::Comma, tokens)?;
    within(around, exprs, tokens)?;
    expect(Mark::Close, tokens)?;
    exprs.apply(op)?;
    Ok(())
}

// Reads what stands after `lg`.
#[cycle(operand)]
fn logarithm(around: &Around<'_, '_>, exprs: &mut Exprs, tokens: &mut Cursor<'_>) -> Parsed
    ensures { Adds exprs.old exprs.new tokens.new result
        (log_at (within_at (names_in around.now.names.now) around.now.brackets) tokens.old) }
{
    let fixed = Around {
        scope: Scope::Fixed,
        ..*around
    };
    expect(Mark::Open, tokens)?;
    within(&fixed, exprs, tokens)?;
    expect(Mark::Close, tokens)?;
    let Some(value) = exprs.take_number() else {
        unreachable!()
    };
    exprs.number(log_of(value))?;
    Ok(())
}

// How many bits the number before has, which is the least k with 2^k at least the number.
#[tactic(auto, unfolding(crate::specs::Expressions::log_of))]
fn log_of(value: u32) -> u32
    ensures { result ≡ log_of value }
{
    32 - value.saturating_sub(1).leading_zeros()
}

// Reads what follows a name, if it may stand here.
#[cycle(operand)]
fn named(around: &Around<'_, '_>, name: &[u8], exprs: &mut Exprs, tokens: &mut Cursor<'_>) -> Parsed
    ensures { Adds exprs.old exprs.new tokens.new result
        (named_at (within_at (names_in around.now.names.now) around.now.brackets)
        around.now.scope (names_in around.now.names.now name.now) tokens.old) }
{
    match around.names.get(name) {
        Some(thing) if around.scope.admits(*thing) => used(around, *thing, exprs, tokens),
        Some(_) => Err(PardoKind::WrongKind),
        None => Err(PardoKind::UnknownName),
    }
}

// What a name says, with the index after it if it is an array.
#[cycle(operand)]
fn used(around: &Around<'_, '_>, thing: Named, exprs: &mut Exprs, tokens: &mut Cursor<'_>) -> Parsed
    ensures { Adds exprs.old exprs.new tokens.new result
        (used_at (within_at (names_in around.now.names.now) around.now.brackets)
        around.now.scope thing tokens.old) }
{
    match (thing, indexed(tokens)) {
        (Named::Array(array), true) => {
            within(around, exprs, tokens)?;
            expect(Mark::CloseIndex, tokens)?;
            exprs.place_of(array)?;
            Ok(())
        }
        (Named::Table(array, rows, columns), true) => {
            indices(around, rows, columns, exprs, tokens)?;
            exprs.place_of(array)?;
            Ok(())
        }
        (Named::Array(_) | Named::Table(_, _, _), false) | (_, true) => Err(PardoKind::WrongKind),
        (_, false) => {
            thing.add_to(exprs)?;
            Ok(())
        }
    }
}

// Reads two indices, to their `]`: the place in so many rows and columns.
#[cycle(operand)]
#[tactic(auto, unfolding(pardo_program::specs::Operations::is_division))]
fn indices(
    around: &Around<'_, '_>,
    rows: u32,
    columns: u32,
    exprs: &mut Exprs,
    tokens: &mut Cursor<'_>,
) -> Parsed
    ensures { Adds exprs.old exprs.new tokens.new result
        (indices_at (within_at (names_in around.now.names.now) around.now.brackets)
        around.now.scope rows columns tokens.old) }
{
    index(around, rows, exprs, tokens)?;
    after_row(tokens)?;
    exprs.number(columns)?;
    exprs.apply(Op::Mul)?;
    index(around, columns, exprs, tokens)?;
    expect(Mark::CloseIndex, tokens)?;
    exprs.apply(Op::Add)?;
    Ok(())
}

// Reads the comma after the first of two indices.
fn after_row(tokens: &mut Cursor<'_>) -> Result<(), PardoKind>
    ensures { GivesAsRead (λ _. tokens.new) result (after_row tokens.old) }
{
    match tokens.next() {
        Some(Token::Symbol(Symbol::Comma)) => Ok(()),
        Some(Token::Symbol(Symbol::CloseIndex)) => Err(PardoKind::WrongKind),
        _ => Err(PardoKind::BadLine),
    }
}

// Reads an index, which is tested unless it is a number within its bound.
#[cycle(operand)]
fn index(around: &Around<'_, '_>, bound: u32, exprs: &mut Exprs, tokens: &mut Cursor<'_>) -> Parsed
    ensures { Adds exprs.old exprs.new tokens.new result
        (index_at (within_at (names_in around.now.names.now) around.now.brackets)
        around.now.scope bound tokens.old) }
{
    within(around, exprs, tokens)?;
    let within = matches!(exprs.constant(), Some(value) if value < bound);
    if !within {
        exprs.number(bound)?;
        exprs.join(Op::Within)?;
    }
    Ok(())
}
