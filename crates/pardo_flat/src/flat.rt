//! The flat program: hidden lines come before those for which three registers are too few.
ghost use Rattle.std.specs.Prelude.{◌≡◌, ◌+◌, ◌-◌, ◌≤◌, ◌==◌, ◌++◌, ◌∷◌, [], IfOk, OnOk};
ghost use Rattle.std.specs.Prelude.{if◌then◌else◌, length, map, max, slice_index, true};
ghost use Rattle.pardo_program.specs.Lawful.{IsProgram};
ghost use Rattle.pardo_flat.specs.Flat.{base_of, bound_pieces, flat, giving, hidden, is_for_all};
ghost use Rattle.pardo_flat.specs.Flat.{last_pieces, split_off, split_statement, statement_parts};
ghost use Rattle.pardo_flat.specs.Inner.Flats.{AreFlat, DoAllFit, IsFlattened, moved_by};
ghost use Rattle.pardo_flat.specs.Inner.Flats.{moved_line, parted_line};
ghost use Rattle.pardo_flat.specs.Statements.{statement_at};

use crate::layout::Layout;
use crate::needs::{Shape, fits};
use crate::splitter::Splitter;
use pardo_program::{Expr, Line, Program, Statement, Target};
use std::alloc::{AllocError, Global};

/// The flat program of a program, and where the first of the lines for each line stands; the last
/// place is that of the end.
#[derive(Drop)]
pub struct Flat {
    pub program: Program,
    pub firsts: Vec<usize>,
}

/// The program is flat already; or its flat program, or the number of the first line with hidden
/// lines, where these take more cells than there are.
#[derive(Drop)]
pub enum Flattened {
    Same,
    Flat(Flat),
    TooWide(u64),
}

/// The flat program of a program, unless it has too many cells.
pub fn flatten(alloc: Global, program: &Program) -> Result<Flattened, AllocError>
    requires { IsProgram program.now }
    ensures { IfOk result (IsFlattened program.now) }
{
    let enough = all_fit(alloc, program)?;
    if enough {
        return Ok(Flattened::Same);
    }
    let FlatLines {
        lines,
        firsts,
        most,
        loops,
        split,
    } = flat_lines(alloc, program)?;
    if !Layout::of(alloc, program)?.has_rows(most, loops) {
        return Ok(Flattened::TooWide(split));
    }
    let lines = moved_lines(lines, &firsts);
    let program = program.with_lines(alloc, most, program.loops() + loops, lines)?;
    Ok(Flattened::Flat(Flat { program, firsts }))
}

// Whether three registers are enough for each line.
fn all_fit(alloc: Global, program: &Program) -> Result<bool, AllocError>
    ensures { IfOk result (λ enough. enough ≡ true → DoAllFit program.now.lines) }
{
    let mut shapes = Vec::new(alloc);
    for line in program.lines() {
        let enough = fits(&mut shapes, &line.statement)?;
        if !enough {
            return Ok(false);
        }
    }
    Ok(true)
}

/// The lines for those of a program so far, where loops name lines of the text.
#[derive(Drop)]
struct FlatLines {
    lines: Vec<Line>,
    /// Where the first of the lines for each line stands.
    firsts: Vec<usize>,
    /// How many pieces are given to private variables in the line with most, and how many to those
    /// of loops.
    most: usize,
    loops: usize,
    /// The number of the first line with pieces, if one has some.
    split: u64,
}

impl FlatLines {
    // The lines for one line more, with these pieces.
    fn push(
        &mut self,
        alloc: Global,
        base: usize,
        line: &Line,
        parts: Parts,
    ) -> Result<(), AllocError>
        requires { base ≤ 1048576 }
        ensures lines { OnOk result (self.new.lines.items ≡ self.old.lines.items
            ++ parted_line base line.now parts.pieces.items parts.rest) }
        ensures firsts { OnOk result (self.new.firsts.items
            ≡ self.old.firsts.items ++ length self.old.lines.items ∷ []) }
        ensures most { OnOk result (self.new.most ≡ max self.old.most
            (if is_for_all line.now.statement then 0 else length parts.pieces.items)) }
        ensures loops { OnOk result (self.new.loops ≡ max self.old.loops
            (if is_for_all line.now.statement then length parts.pieces.items else 0)) }
        ensures split { OnOk result (self.new.split ≡ (if max self.old.most self.old.loops == 0
            then line.now.number else self.old.split)) }
    {
        let Parts { pieces, rest } = parts;
        self.firsts.push(self.lines.len())?;
        self.split = if self.most.max(self.loops) == 0 {
            line.number
        } else {
            self.split
        };
        let common = is_common(&line.statement);
        self.most = self.most.max(if common { 0 } else { pieces.len() });
        self.loops = self.loops.max(if common { pieces.len() } else { 0 });
        push_hidden(&mut self.lines, alloc, line, base, &pieces)?;
        self.lines.push(Line {
            statement: rest,
            depth: line.depth,
            number: line.number,
        })?;
        Ok(())
    }
}

// The lines for all lines of a program.
fn flat_lines(alloc: Global, program: &Program) -> Result<FlatLines, AllocError>
    requires { IsProgram program.now }
    ensures { IfOk result (AreFlat program.now) }
{
    let mut shapes = Vec::new(alloc);
    let mut flat = FlatLines {
        lines: Vec::new(alloc),
        firsts: Vec::new(alloc),
        most: 0,
        loops: 0,
        split: 0,
    };
    for line in program.lines() {
        let parts = statement_parts(alloc, &mut shapes, program, &line.statement)?;
        flat.push(alloc, base_of(program, &line.statement), line, parts)?;
    }
    flat.firsts.push(flat.lines.len())?;
    Ok(flat)
}

// The hidden lines of these pieces, which are given to the variables from this one on.
fn push_hidden(
    lines: &mut Vec<Line>,
    alloc: Global,
    line: &Line,
    base: usize,
    pieces: &[Expr],
) -> Result<(), AllocError>
    requires { base ≤ 1048576 }
    ensures { OnOk result (lines.new.items
        ≡ lines.old.items ++ hidden 0 line.now base pieces.now) }
{
    let depth = line.depth;
    let common = is_common(&line.statement);
    for (index, piece) in pieces.iter().enumerate() {
        let value = piece.copied(alloc)?;
        lines.push(Line {
            statement: giving(alloc, common, base + index, value)?,
            depth,
            number: line.number,
        })?;
    }
    Ok(())
}

// The line that gives a piece to a variable: to that of a loop, by the first line of one that
// counts down to 0, and so has a turn.
fn giving(
    alloc: Global,
    common: bool,
    variable: usize,
    piece: Expr,
) -> Result<Statement, AllocError>
    ensures { IfOk result (λ statement. statement ≡ giving common 0 variable piece) }
{
    if !common {
        return Ok(Statement::Assign(Target::Private(variable), piece));
    }
    let none = Expr::number(alloc, 0)?;
    Ok(Statement::For(variable, piece, none, false, 0))
}

// Whether pieces of a line are common to all processors.
fn is_common(statement: &Statement) -> bool
    ensures { result ≡ is_for_all statement.now }
{
    matches!(
        statement,
        Statement::While(_, _) | Statement::For(_, _, _, _, _) | Statement::EndFor(_)
    )
}

// The number of the variable of the first piece of a line.
fn base_of(program: &Program, statement: &Statement) -> usize
    requires { IsProgram program.now }
    ensures base { result ≡ base_of program.now statement.now }
    ensures few { result ≤ 1048576 }
{
    if is_common(statement) {
        program.loops()
    } else {
        program.privates().len()
    }
}

// ---- parts of a line

/// The pieces of a line, and what is left of it.
#[derive(Drop)]
struct Parts {
    pieces: Vec<Expr>,
    rest: Statement,
}

// Those of a line, by a stack that is empty before and after.
fn statement_parts(
    alloc: Global,
    shapes: &mut Vec<Shape>,
    program: &Program,
    statement: &Statement,
) -> Result<Parts, AllocError>
    requires lawful { IsProgram program.now }
    requires none { shapes.old.items ≡ [] }
    ensures none { OnOk result (shapes.new.items ≡ []) }
    ensures parts { IfOk result (λ parts.
        (parts.pieces.items, parts.rest) ≡ statement_parts program.now statement.now) }
{
    if let Statement::EndFor(begin) = statement {
        let pieces = bound_pieces(alloc, shapes, program, *begin)?;
        let rest = Statement::EndFor(*begin);
        return Ok(Parts { pieces, rest });
    }
    parts_of(alloc, shapes, program, statement)
}

// Those of a line that is not the end of a `for`.
fn parts_of(
    alloc: Global,
    shapes: &mut Vec<Shape>,
    program: &Program,
    statement: &Statement,
) -> Result<Parts, AllocError>
    requires lawful { IsProgram program.now }
    requires none { shapes.old.items ≡ [] }
    ensures none { OnOk result (shapes.new.items ≡ []) }
    ensures parts { IfOk result (λ parts.
        (parts.pieces.items, parts.rest) ≡ split_off program.now statement.now) }
{
    if fits(shapes, statement)? {
        let rest = copied(alloc, statement)?;
        let pieces = Vec::new(alloc);
        return Ok(Parts { pieces, rest });
    }
    split_statement(alloc, program, statement)
}

// The pieces of the last bound of the `for` in this line, if it has too few registers.
fn bound_pieces(
    alloc: Global,
    shapes: &mut Vec<Shape>,
    program: &Program,
    begin: usize,
) -> Result<Vec<Expr>, AllocError>
    requires lawful { IsProgram program.now }
    requires none { shapes.old.items ≡ [] }
    ensures none { OnOk result (shapes.new.items ≡ []) }
    ensures pieces { IfOk result (λ pieces.
        pieces.items ≡ bound_pieces program.now (statement_at program.now begin)) }
{
    let Some(line) = program.lines().get(begin) else {
        return Ok(Vec::new(alloc));
    };
    if fits(shapes, &line.statement)? {
        return Ok(Vec::new(alloc));
    }
    last_pieces(alloc, program, &line.statement)
}

fn last_pieces(
    alloc: Global,
    program: &Program,
    opener: &Statement,
) -> Result<Vec<Expr>, AllocError>
    requires { IsProgram program.now }
    ensures { IfOk result (λ pieces. pieces.items ≡ last_pieces program.now opener.now) }
{
    let Statement::For(_, _, last, _, _) = opener else {
        return Ok(Vec::new(alloc));
    };
    let mut splitter = Splitter::above(alloc, true, program.loops());
    let _rest = splitter.split_last(alloc, last)?;
    Ok(splitter.into_pieces())
}

// Those of a line for which three registers are too few.
fn split_statement(
    alloc: Global,
    program: &Program,
    statement: &Statement,
) -> Result<Parts, AllocError>
    requires { IsProgram program.now }
    ensures { IfOk result (λ parts.
        (parts.pieces.items, parts.rest) ≡ split_statement program.now statement.now) }
{
    let base = base_of(program, statement);
    let mut splitter = Splitter::above(alloc, is_common(statement), base);
    let rest = match statement {
        Statement::Assign(Target::Private(variable), value) => {
            let value = splitter.split(alloc, value)?.rest;
            Statement::Assign(Target::Private(*variable), value)
        }
        Statement::Assign(Target::Array(array, index), value) => {
            let (value, index) = splitter.split_both(alloc, value, index)?;
            Statement::Assign(Target::Array(*array, index), value)
        }
        Statement::If(condition) => Statement::If(splitter.split(alloc, condition)?.rest),
        Statement::While(condition, end) => {
            Statement::While(splitter.split(alloc, condition)?.rest, *end)
        }
        Statement::For(nest, first, last, up, end) => {
            let (first, last) = splitter.split_bounds(alloc, first, last)?;
            Statement::For(*nest, first, last, *up, *end)
        }
        _ => copied(alloc, statement)?,
    };
    let pieces = splitter.into_pieces();
    Ok(Parts { pieces, rest })
}

// The same statement once more.
fn copied(alloc: Global, statement: &Statement) -> Result<Statement, AllocError>
    ensures { IfOk result (λ copy. copy ≡ statement.now) }
{
    match statement {
        Statement::Assign(target, value) => {
            let target = copied_target(alloc, target)?;
            Ok(Statement::Assign(target, value.copied(alloc)?))
        }
        Statement::If(condition) => Ok(Statement::If(condition.copied(alloc)?)),
        Statement::Else => Ok(Statement::Else),
        Statement::EndIf => Ok(Statement::EndIf),
        Statement::While(condition, end) => Ok(Statement::While(condition.copied(alloc)?, *end)),
        Statement::EndWhile(begin) => Ok(Statement::EndWhile(*begin)),
        Statement::For(nest, first, last, up, end) => {
            let first = first.copied(alloc)?;
            Ok(Statement::For(*nest, first, last.copied(alloc)?, *up, *end))
        }
        Statement::EndFor(begin) => Ok(Statement::EndFor(*begin)),
    }
}

fn copied_target(alloc: Global, target: &Target) -> Result<Target, AllocError>
    ensures { IfOk result (λ copy. copy ≡ target.now) }
{
    match target {
        Target::Private(variable) => Ok(Target::Private(*variable)),
        Target::Array(array, index) => Ok(Target::Array(*array, index.copied(alloc)?)),
    }
}

// ---- the lines that loops name

// Lines name those that are made for the lines that they named, by the places of the first ones.
fn moved_lines(lines: Vec<Line>, firsts: &[usize]) -> Vec<Line>
    ensures { result.items ≡ map (moved_line (slice_index firsts.now)) lines.items }
{
    let mut lines = lines;
    move_lines(&mut lines, firsts);
    lines
}

fn move_lines(lines: &mut [Line], firsts: &[usize])
    ensures { lines.new ≡ map (moved_line (slice_index firsts.now)) lines.old }
{
    for line in lines.iter_mut() {
        move_statement(&mut line.statement, firsts);
    }
}

fn move_statement(statement: &mut Statement, firsts: &[usize])
    ensures { statement.new ≡ moved_by (slice_index firsts.now) statement.old }
{
    match statement {
        Statement::While(_, end) => *end = last_for(firsts, *end),
        Statement::EndWhile(begin) => *begin = first_for(firsts, *begin),
        Statement::For(_, _, _, _, end) => *end = last_for(firsts, *end),
        Statement::EndFor(begin) => *begin = last_for(firsts, *begin),
        _ => (),
    }
}

// The first of the lines for a line, or 0 where it is not known.
fn first_for(firsts: &[usize], line: usize) -> usize
    ensures { result ≡ slice_index firsts.now line }
{
    firsts.get(line).copied().unwrap_or(0)
}

// The last one.
fn last_for(firsts: &[usize], line: usize) -> usize
    ensures { result ≡ slice_index firsts.now (line + 1) - 1 }
{
    if line >= firsts.len() {
        return 0;
    }
    first_for(firsts, line + 1).saturating_sub(1)
}
