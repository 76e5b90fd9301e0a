//! Why a processor is lost, and what two that clash write.
ghost use Rattle.std.specs.Prelude.{◌≡◌, ◌≢◌, ◌<◌, ◌≤◌, ◌-◌, Some, IfOk, MatchOption, length};
ghost use Rattle.std.specs.Prelude.{slice_get};
ghost use Rattle.pram_rows.specs.Causes.{AreValuesOf, AreReasons, bound_in, bound_of, cause_by};
ghost use Rattle.pram_rows.specs.Causes.{IsWhyLost, cause_in, cause_of, division, indexed_cells};
ghost use Rattle.pram_rows.specs.Causes.{operand_value};
ghost use Rattle.pram_rows.specs.Causes.{clash_values};
ghost use Rattle.pram_rows.specs.Fates.{AreFates};
ghost use Rattle.pram_job.specs.Instructions.{AreOperands, IsOperand, IsPlace};
ghost use Rattle.pram_machine.specs.Instructions.{index_of};
ghost use Rattle.pram_machine.specs.Machine.{counter, out_of_range, place_count};
ghost use Rattle.pram_step.specs.Runs.{IsAnswer, IsFault, IsReached, IsStateAfter, state_after};

use crate::fates::{Fates, Lost, answer_with_fates, fates_after};
use crate::losses::lost_by;
use pram_job::{Array, Instr, Job, Operand, Operands, Place};
use pram_step::{Arrival, Fault, RunAnswer, State, go_to, laws, request, value_part};
use std::alloc::{AllocError, Global};

/// Why a processor is lost.
#[derive(Clone, Copy)]
pub enum Cause {
    /// An index is not below the length of the array; of a job without a name for it the array is
    /// all cells.
    Outside(Array, u32),
    /// A number is not below a bound that it was tested by, as an index of two is in a program:
    /// the number, and the bound.
    AboveBound(u32, u32),
    /// This number was divided by 0.
    Divided(u32),
}

/// What two processors write to one cell, against the rule.
#[derive(Clone, Copy, Debug, PartialEq, Eq)]
pub struct Values {
    pub first: u32,
    pub second: u32,
}

/// What became of the processors, why one is lost, and what two that clash write.
#[derive(Clone, Copy)]
pub struct Why {
    pub fates: Fates,
    /// Why the first one is lost, if one is.
    pub cause: Option<Cause>,
    /// What two write, where a step is against the rule.
    pub values: Option<Values>,
}

/// What became of the processors in so many steps, and why. The steps before one in which a
/// processor is lost, and those before a conflict, are made once more.
pub fn why_after(
    alloc: Global,
    job: &Job,
    steps: u32,
    answer: &RunAnswer,
) -> Result<Why, AllocError>
    ensures { IfOk result (AreReasons job.now steps answer.now) }
{
    let fates = fates_after(alloc, job, steps)?;
    why_of(alloc, job, steps, fates, answer)
}

/// The answer of a job, and what became of its processors in all its steps, and why.
pub fn answer_with_why(alloc: Global, job: &Job) -> Result<(RunAnswer, Why), AllocError>
    ensures answer { IfOk result (λ told. IsAnswer job.now told.0) }
    ensures why { IfOk result (λ told. AreReasons job.now job.now.steps told.0 told.1) }
{
    let (answer, fates) = answer_with_fates(alloc, job)?;
    let why = why_of(alloc, job, job.steps(), fates, &answer)?;
    Ok((answer, why))
}

// Why what became of the processors in so many steps did.
fn why_of(
    alloc: Global,
    job: &Job,
    steps: u32,
    fates: Fates,
    answer: &RunAnswer,
) -> Result<Why, AllocError>
    requires { AreFates job.now steps fates }
    ensures { IfOk result (AreReasons job.now steps answer.now) }
{
    let cause = cause_of(alloc, job, steps, fates)?;
    let values = values_told(alloc, job, answer)?;
    Ok(Why {
        fates,
        cause,
        values,
    })
}

/// Why the first processor that is lost in so many steps is lost, if one is. The steps before that
/// are made once more.
#[tactic(auto, using(crate::proofs::Causing::lost_some, crate::proofs::Causing::lost_within))]
pub fn cause_of(
    alloc: Global,
    job: &Job,
    steps: u32,
    fates: Fates,
) -> Result<Option<Cause>, AllocError>
    requires { AreFates job.now steps fates }
    ensures { IfOk result (λ cause. cause ≡ cause_of job.now fates.lost) }
{
    match fates.lost {
        Some(lost) => lost_cause(alloc, job, lost),
        None => Ok(None),
    }
}

/// Why this processor is lost in so many steps, if it is, and none of them is against the rule. The
/// steps are made, and those before it is lost once more.
pub fn why_lost(
    alloc: Global,
    job: &Job,
    steps: u32,
    processor: u32,
) -> Result<Option<Cause>, AllocError>
    requires { processor < job.now.procs }
    ensures { IfOk result (λ cause. MatchOption cause (IsReached job.now steps
        → counter job.now (state_after job.now steps) processor ≢ out_of_range job.now)
        (IsWhyLost job.now steps processor)) }
{
    job.limits_hold();
    match lost_by(alloc, job, steps, processor)? {
        Some(lost) => lost_cause(alloc, job, lost),
        None => Ok(None),
    }
}

// Why a processor is lost.
fn lost_cause(alloc: Global, job: &Job, lost: Lost) -> Result<Option<Cause>, AllocError>
    requires some { 1 ≤ lost.step }
    requires reached { IsReached job.now (lost.step - 1) }
    requires within { lost.processor < job.now.procs }
    ensures { IfOk result (λ cause. cause ≡ cause_of job.now (Some lost)) }
{
    laws::states_have_all_places();
    job.limits_hold();
    match state_after(alloc, job, lost.step - 1)? {
        Some(state) => Ok(cause_in(job, &state, lost.processor, lost.index)),
        None => unreachable!(),
    }
}

// What two that clash write, where the answer is the job's conflict.
fn values_told(alloc: Global, job: &Job, answer: &RunAnswer) -> Result<Option<Values>, AllocError>
    ensures { IfOk result (AreValuesOf job.now answer.now) }
{
    match answer {
        RunAnswer::Conflict(fault) => clash_values(alloc, job, *fault),
        RunAnswer::Final(_) | RunAnswer::Unfinished { .. } => Ok(None),
    }
}

/// What the two processors of a conflict write, if it is one of the job's. The steps before are
/// made once more.
pub fn clash_values(alloc: Global, job: &Job, fault: Fault) -> Result<Option<Values>, AllocError>
    ensures { IfOk result (λ values. IsFault job.now fault →
        values ≡ Some (clash_values job.now fault)) }
{
    match state_after(alloc, job, fault.step.saturating_sub(1))? {
        Some(state) => Ok(values_in(job, &state, fault)),
        None => Ok(None),
    }
}

// What the two processors of a conflict write in the step after a state.
fn values_in(job: &Job, state: &State, fault: Fault) -> Option<Values>
    requires { IsStateAfter job.now (fault.step - 1) state.now }
    ensures { IsFault job.now fault → result ≡ Some (clash_values job.now fault) }
{
    laws::states_have_all_places();
    job.limits_hold();
    if fault.first >= job.procs() || fault.second >= job.procs() {
        return None;
    }
    Some(Values {
        first: value_part(request(job, state, fault.first)),
        second: value_part(request(job, state, fault.second)),
    })
}

// The state after so many steps, if they agree.
fn state_after(alloc: Global, job: &Job, steps: u32) -> Result<Option<State>, AllocError>
    ensures { IfOk result (λ state.
        MatchOption state (¬ IsReached job.now steps) (IsStateAfter job.now steps)) }
{
    match go_to(alloc, job, steps, steps)? {
        Arrival::Reached(state) => Ok(Some(state)),
        Arrival::Disputed(fault) => {
            // Its step is one of these.
            let _ = fault;
            Ok(None)
        }
        Arrival::TooFar => Ok(None),
    }
}

// Why a processor is lost by the instruction of this index.
#[tactic(auto, using(crate::proofs::Causing::cause_at))]
fn cause_in(job: &Job, state: &State, processor: u32, index: u32) -> Option<Cause>
    requires processor { processor < job.now.procs }
    requires places { length state.now ≡ place_count job.now }
    ensures { result ≡ cause_in job.now state.now processor index }
{
    job.limits_hold();
    let instr = *job.code().get(index as usize)?;
    let before = instr_before(job, index);
    cause_by(job, state, processor, before, instr.row().1)
}

// The instruction before this index; of the first one this itself.
fn instr_before(job: &Job, index: u32) -> Option<Instr>
    ensures { result ≡ slice_get job.now.code (index - 1) }
{
    job.code().get((index as usize).saturating_sub(1)).copied()
}

fn cause_by(
    job: &Job,
    state: &State,
    processor: u32,
    before: Option<Instr>,
    operands: Operands,
) -> Option<Cause>
    requires processor { processor < job.now.procs }
    requires places { length state.now ≡ place_count job.now }
    requires operands { AreOperands job.now.cells (length job.now.code) operands }
    ensures { result ≡ cause_by job.now state.now processor before operands }
{
    match operands {
        Operands::TargetPlace(_, place) | Operands::PlaceValue(place, _) => {
            Some(outside(job, state, processor, place))
        }
        Operands::TargetTwo(_, first, second) => {
            let value = state.get(job.register_place(processor, first));
            Some(division(bound_of(before, first, second), value))
        }
        _ => None,
    }
}

// An index that is not below the length of its place's array.
fn outside(job: &Job, state: &State, processor: u32, place: Place) -> Cause
    requires processor { processor < job.now.procs }
    requires places { length state.now ≡ place_count job.now }
    requires place { IsPlace job.now.cells place }
    ensures { result ≡ Cause.Outside (indexed_cells job.now place)
        (operand_value job.now state.now processor (index_of place)) }
{
    match place {
        Place::Cell(index) => {
            let cells = Array {
                base: 0,
                len: job.cells(),
            };
            Cause::Outside(cells, operand_value(job, state, processor, index))
        }
        Place::Named(array, index) => {
            Cause::Outside(array, operand_value(job, state, processor, index))
        }
    }
}

fn operand_value(job: &Job, state: &State, processor: u32, operand: Operand) -> u32
    requires processor { processor < job.now.procs }
    requires places { length state.now ≡ place_count job.now }
    requires operand { IsOperand operand }
    ensures { result ≡ operand_value job.now state.now processor operand }
{
    match operand {
        Operand::Register(register) => state.get(job.register_place(processor, register)),
        Operand::Number(number) => number,
    }
}

// The number that the instruction before compared this register with, into the divisor.
fn bound_of(before: Option<Instr>, tested: u8, by: Operand) -> Option<u32>
    ensures { result ≡ bound_of before tested by }
{
    match (before, by) {
        (Some(instr), Operand::Register(register)) => bound_in(instr, tested, register),
        _ => None,
    }
}

fn bound_in(instr: Instr, tested: u8, by: u8) -> Option<u32>
    ensures { result ≡ bound_in instr tested by }
{
    match instr {
        Instr::Lt(test, value, Operand::Number(bound)) if value == tested && test == by => {
            Some(bound)
        }
        _ => None,
    }
}

// A number that is divided by whether it is below a bound is an index that is tested so.
fn division(bound: Option<u32>, value: u32) -> Cause
    ensures { result ≡ division bound value }
{
    match bound {
        Some(bound) if bound <= value => Cause::AboveBound(value, bound),
        _ => Cause::Divided(value),
    }
}
