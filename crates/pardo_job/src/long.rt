//! Lines that are too long since an expression of theirs has very many nodes. Their code is made
//! and dropped, node after node, and never held as a whole.
ghost use Rattle.std.specs.Prelude.{◌≡◌, ◌<◌, ◌≤◌, ℕ, length, true, IfErr, IfOk, IsTrue, OnOk};
ghost use Rattle.std.specs.Prelude.{slice_index};
ghost use Rattle.pram_job.specs.declared.limits.TheConstants.{MAX_CODE as MOST};
ghost use Rattle.pardo_program.specs.Lawful.{IsLine, IsProgram, bounds_of};
ghost use Rattle.pardo_flat.specs.Layouts.{ProgramLayoutData};
ghost use Rattle.pardo_job.specs.Inner.Emitting.{IsCodeFault};
ghost use Rattle.pardo_job.specs.Inner.Nodes.{held_of};
ghost use Rattle.pardo_job.specs.Inner.Pieces.{IsLineFault, bounds_code};
ghost use Rattle.pardo_job.specs.Lawful.{IsLawfulTree};
ghost use Rattle.pardo_job.specs.Lines.{line_code};
ghost use Rattle.pardo_job.specs.Operations.{is_shallow, taken_by};
ghost use Rattle.pardo_job.specs.Values.{takes, value_code};

use crate::fault::JobKind;
use crate::held::{Held, Stack, taken_by};
use crate::lines::Listing;
use crate::values::put_node;
use pardo_flat::Layout;
use pardo_text::{Expr, Line, Statement, Target};
use pram_job::limits::MAX_CODE;
use std::alloc::Global;

// How many nodes an expression has at most whose code may be short enough: of one node more, over
// `MAX_CODE` have an instruction each.
const MAX_NODES: usize = 2 * MAX_CODE + 1;

impl Listing<'_> {
    /// What is wrong with a line whose expressions have more nodes; of other lines it says nothing.
    pub(crate) fn judge(&self, alloc: Global, line: &Line) -> Result<(), JobKind>
        requires program { IsProgram self.now.program.now }
        requires line { IsLine (bounds_of self.now.program.now) line.now }
        ensures { (at : ℕ) → IfErr result (IsLineFault (line_code self.now.program.now
            (slice_index self.now.places.items) at line.now.depth line.now.statement)) }
    {
        let layout = &self.layout;
        match &line.statement {
            Statement::Assign(Target::Private(_), value) => judge_one(alloc, layout, value),
            Statement::Assign(Target::Array(_, index), value) => {
                judge_both(alloc, layout, value, index)
            }
            Statement::If(expr) => judge_one(alloc, layout, expr),
            Statement::While(expr, _) => judge_one(alloc, layout, expr),
            Statement::For(_, first, last, _, _) => judge_both(alloc, layout, first, last),
            _ => Ok(()),
        }
    }
}

// What is wrong with an expression, if it is long.
fn judge_one(alloc: Global, layout: &Layout, expr: &Expr) -> Result<(), JobKind>
    requires { IsLawfulTree layout.now expr.now }
    ensures { IfErr result (IsLineFault (value_code layout.now 0 expr.now)) }
{
    if is_long(expr) {
        try_value(alloc, layout, 0, expr)?;
        return Err(JobKind::TooLong);
    }
    Ok(())
}

// What is wrong with two expressions of a line, if they are long.
fn judge_both(alloc: Global, layout: &Layout, first: &Expr, second: &Expr) -> Result<(), JobKind>
    requires first { IsLawfulTree layout.now first.now }
    requires second { IsLawfulTree layout.now second.now }
    ensures { IfErr result (IsLineFault (bounds_code layout.now first.now second.now)) }
{
    if are_long(first, second) {
        let held = try_value(alloc, layout, 0, first)?;
        try_value(alloc, layout, taken_by(held.operand), second)?;
        return Err(JobKind::TooLong);
    }
    Ok(())
}

// Whether an expression has so many nodes that its code is too long.
fn is_long(expr: &Expr) -> bool
    ensures { IsTrue result → (layout : ProgramLayoutData) (at : ℕ) →
        MOST < length (value_code layout at expr.now) }
{
    expr.nodes().len() > MAX_NODES
}

// Whether two expressions have so many nodes that their code is too long.
fn are_long(first: &Expr, second: &Expr) -> bool
    ensures { IsTrue result → (layout : ProgramLayoutData) →
        MOST < length (bounds_code layout first.now second.now) }
{
    let count = first.nodes().len().saturating_add(second.nodes().len());
    count > MAX_NODES + 1
}

// Where the value of an expression is, whose code goes by the registers from `at` on.
fn try_value(alloc: Global, layout: &Layout, at: u8, expr: &Expr) -> Result<Held, JobKind>
    requires at { at ≤ 3 }
    requires lawful { IsLawfulTree layout.now expr.now }
    ensures shallow { OnOk result (is_shallow (value_code layout.now at expr.now) ≡ true) }
    ensures held { IfOk result (λ held. held ≡ held_of at expr.now) }
    ensures taken { IfOk result (λ held. taken_by held.operand ≡ takes expr.now) }
    ensures fault { IfErr result (IsCodeFault (value_code layout.now at expr.now)) }
{
    let mut stack = Stack::above(alloc, at);
    let mut code = Vec::new(alloc);
    for node in expr.nodes() {
        code.clear();
        put_node(&mut code, &mut stack, layout, *node)?;
    }
    Ok(stack.pop())
}
