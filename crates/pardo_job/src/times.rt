//! The counted lines of a program and the ends of its loops, and which instructions of its job tell
//! of them.
ghost use Rattle.std.specs.Prelude.{◌≡◌, ◌<◌, ◌++◌, IfOk, OnOk, slice_index, vec_len};
ghost use Rattle.std.specs.List.{list_any};
ghost use Rattle.pram_job.specs.declared.limits.TheConstants.{MAX_CODE as MOST};
ghost use Rattle.pardo_job.specs.Drafts.{ArePlacesOf};
ghost use Rattle.pardo_job.specs.Times.{counted_from, counted_line, ends_loop, is_counted};
ghost use Rattle.pardo_job.specs.Times.{is_place, loop_end_at, loop_ends, reads_shared};

use pardo_text::{Expr, Line, Node, Program, Statement};
use std::alloc::{AllocError, Global};

/// A counted line of a program: an assignment, or an `if` whose condition reads shared memory.
#[derive(Clone, Copy, Debug, PartialEq, Eq)]
pub struct CountedLine {
    /// How many lines of code there are before it.
    pub at: usize,
    /// Its number in the text.
    pub number: u64,
    /// The index of its first instruction, which is executed as often as the line.
    pub first: u32,
    /// The index of the instruction that each active processor executes once, and nobody else.
    pub own: u32,
}

/// The counted lines of a program, in order. The code of each line begins at its place.
pub fn counted_lines(
    alloc: Global,
    program: &Program,
    places: &[u32],
) -> Result<Vec<CountedLine>, AllocError>
    requires { ArePlacesOf program.now places.now }
    ensures counted { IfOk result (λ counted. counted.items
        ≡ counted_from program.now 0 program.now.lines) }
    ensures few { IfOk result (λ counted. vec_len counted < MOST) }
{
    let mut counted = Vec::new(alloc);
    for (at, line) in program.lines().iter().enumerate() {
        let first = place_at(places, at);
        push_counted(&mut counted, at, line, first)?;
    }
    Ok(counted)
}

// The place of a line, or 0 where it is not known.
fn place_at(places: &[u32], at: usize) -> u32
    ensures { result ≡ slice_index places.now at }
{
    places.get(at).copied().unwrap_or(0)
}

// Adds a line whose code begins with this instruction, if it is counted.
fn push_counted(
    counted: &mut Vec<CountedLine>,
    at: usize,
    line: &Line,
    first: u32,
) -> Result<(), AllocError>
    requires { first < MOST }
    ensures { OnOk result (counted.new.items
        ≡ counted.old.items ++ counted_line first at line.now) }
{
    if !is_counted(&line.statement) {
        return Ok(());
    }
    let own = if line.depth == 0 { first } else { first + 2 };
    counted.push(CountedLine {
        at,
        number: line.number,
        first,
        own,
    })?;
    Ok(())
}

/// The first instruction of each line that is the `end` of a loop, in order: it is executed once
/// where that line is.
pub fn loop_ends(alloc: Global, program: &Program, places: &[u32]) -> Result<Vec<u32>, AllocError>
    requires { ArePlacesOf program.now places.now }
    ensures { IfOk result (λ ends. ends.items ≡ loop_ends program.now) }
{
    let mut ends = Vec::new(alloc);
    for (at, line) in program.lines().iter().enumerate() {
        push_end(&mut ends, &line.statement, place_at(places, at))?;
    }
    Ok(ends)
}

// Adds this first instruction of a line, if that is the `end` of a loop.
fn push_end(ends: &mut Vec<u32>, statement: &Statement, first: u32) -> Result<(), AllocError>
    ensures { OnOk result (ends.new.items ≡ ends.old.items ++ loop_end_at first statement.now) }
{
    if ends_loop(statement) {
        ends.push(first)?;
    }
    Ok(())
}

fn ends_loop(statement: &Statement) -> bool
    ensures { result ≡ ends_loop statement.now }
{
    matches!(statement, Statement::EndWhile(_) | Statement::EndFor(_))
}

fn is_counted(statement: &Statement) -> bool
    ensures { result ≡ is_counted statement.now }
{
    match statement {
        Statement::Assign(..) => true,
        Statement::If(expr) => reads_shared(expr),
        _ => false,
    }
}

fn reads_shared(expr: &Expr) -> bool
    ensures { result ≡ reads_shared expr.now }
{
    has_place(expr.nodes())
}

fn has_place(nodes: &[Node]) -> bool
    ensures { result ≡ list_any is_place nodes.now }
{
    nodes.iter().any(|node| is_place(*node))
}

fn is_place(node: Node) -> bool
    ensures { result ≡ is_place node }
{
    matches!(node, Node::Place(_))
}
