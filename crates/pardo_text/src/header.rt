//! Header lines.
ghost use Rattle.std.specs.Prelude.{◌≡◌, ◌<◌, ◌^◌, IfOk};
ghost use Rattle.pardo_text.specs.Expressions.{indexed};
ghost use Rattle.pardo_text.specs.Header.{after_comma, columns_at, rule_named, shape_at};
ghost use Rattle.pardo_text.specs.Header.{private_start};
ghost use Rattle.pardo_program.specs.Program.{places_of_shape};
ghost use Rattle.pardo_text.specs.Inner.Names.{names_in};
ghost use Rattle.pardo_text.specs.Inner.Tokens.{GivesAsRead};

use crate::column::values_for;
use crate::cursor::Cursor;
use crate::draft::{Draft, Stage};
use crate::fault::PardoKind;
use crate::names::{Named, Names, Scope};
use crate::parse::{expression, fixed};
use crate::part::{Mark, comma, ended, expect, indexed, new_name};
use crate::symbol::Symbol;
use crate::token::Token;
use crate::value::start_values;
use pardo_program::limits::{MAX_CELLS, MAX_PROCS};
use pardo_program::{Expr, Shape};
use pram_job::Rule;
use std::alloc::Global;
use text_lines::is_word;

impl<'t> Draft<'t> {
    ghost use Rattle.pardo_text.specs.Header.{version_line, rule_line, const_line, procs_line};
    ghost use Rattle.pardo_text.specs.Header.{shared_line, private_line, code_line, header_line};
    ghost use Rattle.pardo_text.specs.Inner.Drafts.{draft_of};

    /// Reads `pardo 1`.
    #[tactic(auto, unfolding(crate::specs::Header::version_line))]
    pub(crate) fn take_version(&mut self, tokens: &mut Cursor<'t>) -> Result<(), PardoKind>
        ensures { GivesAsRead (λ _. draft_of self.new) result
            (version_line (draft_of self.old) tokens.old) }
    {
        match (tokens.next(), tokens.next(), tokens.next()) {
            (Some(Token::Symbol(Symbol::Pardo)), Some(Token::Number(1)), None) => {
                self.stage = Stage::Rule;
                Ok(())
            }
            _ => Err(PardoKind::BadHeader),
        }
    }

    /// Reads a header line after the first two.
    #[tactic(auto, unfolding(crate::specs::Header::header_line))]
    pub(crate) fn take_header(&mut self, tokens: &mut Cursor<'t>) -> Result<(), PardoKind>
        ensures { GivesAsRead (λ _. draft_of self.new) result
            (header_line (draft_of self.old) tokens.old) }
    {
        match tokens.next() {
            Some(Token::Symbol(Symbol::Const)) => self.take_const(tokens),
            Some(Token::Symbol(Symbol::Procs)) => self.take_procs(tokens),
            Some(Token::Symbol(Symbol::Shared)) => self.take_shared(tokens),
            Some(Token::Symbol(Symbol::Private)) => self.take_private(tokens),
            Some(Token::Symbol(Symbol::Code)) => self.begin_code(tokens),
            _ => Err(PardoKind::BadHeader),
        }
    }

    /// Reads `rule NAME`.
    #[tactic(auto, unfolding(crate::specs::Header::rule_line))]
    pub(crate) fn take_rule(&mut self, tokens: &mut Cursor<'t>) -> Result<(), PardoKind>
        ensures { GivesAsRead (λ _. draft_of self.new) result
            (rule_line (draft_of self.old) tokens.old) }
    {
        match (tokens.next(), tokens.next(), tokens.next()) {
            (Some(Token::Symbol(Symbol::Rule)), Some(Token::Name(name)), None) => {
                self.rule = rule_named(name)?;
                self.stage = Stage::Header;
                Ok(())
            }
            _ => Err(PardoKind::BadHeader),
        }
    }

    // Reads what follows `const`.
    #[tactic(auto, unfolding(crate::specs::Header::const_line))]
    fn take_const(&mut self, tokens: &mut Cursor<'t>) -> Result<(), PardoKind>
        ensures { GivesAsRead (λ _. draft_of self.new) result
            (const_line (draft_of self.old) tokens.old) }
    {
        let name = new_name(&self.names, tokens)?;
        expect(Mark::Equals, tokens)?;
        let value = fixed(self.alloc, &self.names, 0, u32::MAX, tokens)?;
        ended(tokens)?;
        self.add_name(name, Named::Constant(value))?;
        Ok(())
    }

    // Reads what follows `procs`, which stands once.
    #[tactic(auto, unfolding(crate::specs::Header::procs_line))]
    fn take_procs(&mut self, tokens: &mut Cursor<'t>) -> Result<(), PardoKind>
        ensures { GivesAsRead (λ _. draft_of self.new) result
            (procs_line (draft_of self.old) tokens.old) }
    {
        if self.procs != 0 {
            return Err(PardoKind::BadHeader);
        }
        let name = new_name(&self.names, tokens)?;
        expect(Mark::Less, tokens)?;
        let procs = fixed(self.alloc, &self.names, 1, MAX_PROCS, tokens)?;
        ended(tokens)?;
        self.add_name(name, Named::Own)?;
        self.procs = procs;
        Ok(())
    }

    // Reads what follows `shared`.
    #[tactic(auto, unfolding(crate::specs::Header::shared_line))]
    fn take_shared(&mut self, tokens: &mut Cursor<'t>) -> Result<(), PardoKind>
        ensures { GivesAsRead (λ _. draft_of self.new) result
            (shared_line (draft_of self.old) tokens.old) }
    {
        let name = new_name(&self.names, tokens)?;
        let shape = shape(self.alloc, &self.names, tokens)?;
        let start = start_values(self.alloc, shape.places(), &self.names, tokens)?;
        self.add_array(name, shape, start)
    }

    // Reads what follows `private`, after the line `procs`.
    #[tactic(auto, unfolding(crate::specs::Header::private_line))]
    fn take_private(&mut self, tokens: &mut Cursor<'t>) -> Result<(), PardoKind>
        ensures { GivesAsRead (λ _. draft_of self.new) result
            (private_line (draft_of self.old) tokens.old) }
    {
        if self.procs == 0 {
            return Err(PardoKind::BadHeader);
        }
        let name = new_name(&self.names, tokens)?;
        let expr = private_start(self.alloc, &self.names, tokens)?;
        let start = values_for(self.alloc, self.procs, &expr)?;
        self.add_private(name, start)
    }

    // Reads what follows `code`, after the line `procs`.
    #[tactic(auto, unfolding(crate::specs::Header::code_line))]
    fn begin_code(&mut self, tokens: &mut Cursor<'t>) -> Result<(), PardoKind>
        ensures { GivesAsRead (λ _. draft_of self.new) result
            (code_line (draft_of self.old) tokens.old) }
    {
        if self.procs == 0 || tokens.len() != 0 {
            return Err(PardoKind::BadHeader);
        }
        self.stage = Stage::Code;
        Ok(())
    }
}

fn rule_named(name: &[u8]) -> Result<Rule, PardoKind>
    ensures { result ≡ rule_named name.now }
{
    match name {
        _ if is_word(name, "common") => Ok(Rule::Common),
        _ if is_word(name, "priority") => Ok(Rule::Priority),
        _ if is_word(name, "crew") => Ok(Rule::Crew),
        _ => Err(PardoKind::BadHeader),
    }
}

// The shape of an array; a scalar has no brackets.
fn shape(alloc: Global, names: &Names<'_>, tokens: &mut Cursor<'_>) -> Result<Shape, PardoKind>
    ensures read { GivesAsRead (λ form. (form, tokens.new)) result
        (shape_at (names_in names.now) tokens.old (indexed tokens.old)) }
    ensures few { IfOk result (λ form. places_of_shape form < 2 ^ 32) }
{
    if !indexed(tokens) {
        return Ok(Shape::Scalar);
    }
    let rows = fixed(alloc, names, 1, MAX_CELLS, tokens)?;
    let shape = columns(alloc, names, rows, tokens)?;
    expect(Mark::CloseIndex, tokens)?;
    Ok(shape)
}

// The shape of an array with so many places or rows: a comma stands before its columns.
fn columns(
    alloc: Global,
    names: &Names<'_>,
    rows: u32,
    tokens: &mut Cursor<'_>,
) -> Result<Shape, PardoKind>
    ensures read { GivesAsRead (λ form. (form, tokens.new)) result
        (columns_at (names_in names.now) rows tokens.old (after_comma tokens.old)) }
    ensures few { IfOk result (λ form. places_of_shape form < 2 ^ 32) }
{
    if !comma(tokens) {
        return Ok(Shape::Line(rows));
    }
    let columns = fixed(alloc, names, 1, MAX_CELLS, tokens)?;
    match rows.checked_mul(columns) {
        Some(places) if places <= MAX_CELLS => Ok(Shape::Table(rows, columns)),
        _ => Err(PardoKind::OutOfLimits),
    }
}

// The start value of a private variable, to the end of the line.
#[tactic(auto, unfolding(crate::specs::Header::private_start))]
fn private_start(
    alloc: Global,
    names: &Names<'_>,
    tokens: &mut Cursor<'_>,
) -> Result<Expr, PardoKind>
    ensures { GivesAsRead (λ expr. expr) result (private_start (names_in names.now) tokens.old) }
{
    if tokens.len() == 0 {
        return Ok(Expr::number(alloc, 0)?);
    }
    expect(Mark::Equals, tokens)?;
    let expr = expression(alloc, names, Scope::Start, tokens)?;
    ended(tokens)?;
    Ok(expr)
}
