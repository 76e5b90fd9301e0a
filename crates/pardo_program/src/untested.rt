//! Tests of indices that cannot fail are left out.
ghost use Rattle.std.specs.Prelude.{◌≡◌, map, max, nat_le, slice_get, IfOk, OnOk};
ghost use Rattle.std.specs.List.{fold};
ghost use Rattle.pardo_program.specs.Tests.{greatest_start, is_most_below, known_after, known_of};
ghost use Rattle.pardo_program.specs.Tests.{lines_untested, loop_most, program_untested};
ghost use Rattle.pardo_program.specs.Tests.{statement_untested, target_untested, widened};
ghost use Rattle.pardo_program.specs.Tests.{widened_by};

use crate::expression::Expr;
use crate::program::{Private, Program};
use crate::statement::{Line, Statement, Target};
use std::alloc::{AllocError, Global};
use std::marker::Model;

/// What is known of values.
#[derive(Drop)]
pub(crate) struct Known {
    procs: u32,
    /// What each private variable is at most.
    privates: Vec<u32>,
    /// What the variable of each open loop is at most, the innermost last.
    loops: Vec<u32>,
}

impl Model for Known {
    ghost use Rattle.pardo_program.specs.Tests.{Known};

    ghost Value = { Known };

    ghost view = { λ k. record {
      procs = k.procs;
      privates = k.privates.items;
      loops = k.loops.items;
    } };
}

impl Known {
    // What is known before the lines of a program.
    fn of(alloc: Global, program: &Program) -> Result<Self, AllocError>
        ensures { IfOk result (λ known. known ≡ known_of program.now) }
    {
        let mut privates = greatest_starts(alloc, program.privates())?;
        widen_by(privates.as_mut_slice(), program.lines());
        Ok(Known {
            procs: program.procs(),
            privates,
            loops: Vec::new(alloc),
        })
    }

    // What is known after a line.
    fn take(&mut self, statement: &Statement) -> Result<(), AllocError>
        ensures { OnOk result (self.new ≡ known_after self.old statement.now) }
    {
        match statement {
            Statement::For(_, first, last, up, _) => {
                self.loops.push(loop_most(*up, first, last))?;
            }
            Statement::EndFor(_) => self.loops.truncate(self.loops.len().saturating_sub(1)),
            _ => (),
        }
        Ok(())
    }

    /// Whether own numbers are below a bound.
    pub(crate) fn is_own_below(&self, bound: u32) -> bool
        ensures { result ≡ nat_le self.now.procs bound }
    {
        self.procs <= bound
    }

    /// Whether a private variable is below a bound.
    pub(crate) fn is_private_below(&self, x: usize, bound: u32) -> bool
        ensures { result ≡ is_most_below bound (slice_get self.now.privates x) }
    {
        match self.privates.get(x) {
            Some(most) => *most < bound,
            None => false,
        }
    }

    /// Whether the variable of an open loop is below a bound.
    pub(crate) fn is_loop_below(&self, nest: usize, bound: u32) -> bool
        ensures { result ≡ is_most_below bound (slice_get self.now.loops nest) }
    {
        match self.loops.get(nest) {
            Some(most) => *most < bound,
            None => false,
        }
    }
}

// What each private variable starts with at most.
fn greatest_starts(alloc: Global, variables: &[Private]) -> Result<Vec<u32>, AllocError>
    ensures { IfOk result (λ mosts. mosts.items ≡ map greatest_start variables.now) }
{
    let mut mosts = Vec::new(alloc);
    for variable in variables {
        mosts.push(greatest(variable.start()))?;
    }
    Ok(mosts)
}

// The greatest of some values, 0 where there is none.
fn greatest(values: &[u32]) -> u32
    ensures { result ≡ fold max 0 values.now }
{
    let mut most = 0;
    for value in values {
        most = most.max(*value);
    }
    most
}

// A private variable that a line assigns may have each value.
fn widen_by(mosts: &mut [u32], lines: &[Line])
    ensures { mosts.new ≡ widened_by mosts.old lines.now }
{
    for line in lines {
        widen(mosts, &line.statement);
    }
}

fn widen(mosts: &mut [u32], statement: &Statement)
    ensures { mosts.new ≡ widened mosts.old statement.now }
{
    if let Statement::Assign(Target::Private(x), _) = statement {
        if *x < mosts.len() {
            mosts[*x] = u32::MAX;
        }
    }
}

// What a loop's variable is at most: its greater bound, where that is a number. Of one that counts
// down to what is no number nothing is known.
fn loop_most(up: bool, first: &Expr, last: &Expr) -> u32
    ensures { result ≡ loop_most up first.now last.now }
{
    let greater = if up || last.constant().is_none() {
        last
    } else {
        first
    };
    greater.constant().unwrap_or(u32::MAX)
}

/// Leaves the tests that cannot fail out of a program.
pub fn leave_tests_out(alloc: Global, program: &mut Program) -> Result<(), AllocError>
    ensures { IfOk result (λ _. program.new ≡ program_untested program.old) }
{
    let known = Known::of(alloc, program)?;
    leave_out_of_lines(known, program.lines.as_mut_slice())
}

fn leave_out_of_lines(known: Known, lines: &mut [Line]) -> Result<(), AllocError>
    ensures { IfOk result (λ _. lines.new ≡ lines_untested known lines.old) }
{
    let mut so_far = known;
    for line in lines.iter_mut() {
        leave_out_of_statement(&so_far, &mut line.statement)?;
        so_far.take(&line.statement)?;
    }
    Ok(())
}

fn leave_out_of_statement(known: &Known, statement: &mut Statement) -> Result<(), AllocError>
    ensures { IfOk result (λ _. statement.new ≡ statement_untested known.now statement.old) }
{
    match statement {
        Statement::Assign(to, value) => {
            leave_out_of_target(known, to)?;
            value.leave_tests_out(known)
        }
        Statement::If(condition) => condition.leave_tests_out(known),
        _ => Ok(()),
    }
}

fn leave_out_of_target(known: &Known, target: &mut Target) -> Result<(), AllocError>
    ensures { IfOk result (λ _. target.new ≡ target_untested known.now target.old) }
{
    match target {
        Target::Array(_, index) => index.leave_tests_out(known),
        Target::Private(_) => Ok(()),
    }
}
