//! A step alone of processors that stand at one instruction, over arrays.
ghost use Rattle.std.specs.Prelude.{◌≡◌, ◌≢◌, ◌+◌, ◌^◌, ◌<◌, ◌≤◌, ℕ, IsTrue, slice_index};
ghost use Rattle.std.specs.Prelude.{true, false, suc, unwrap_or, IfNone, IfSome, IsSome, Some, length};
ghost use Rattle.std.specs.Prelude.{◌==◌, if◌then◌else◌};
ghost use Rattle.pram_job.specs.declared.instr.Operands.TheVariants.{TargetTwo};
ghost use Rattle.pram_job.specs.Instructions.{IsOperand, IsPlace, row_of};
ghost use Rattle.pram_job.specs.Job.{IsInstr};
ghost use Rattle.pram_machine.specs.Instructions.{computed, index_of, reached};
ghost use Rattle.walk_memory.specs.AsOne.{GoesUnsettled, StandTogether};
ghost use Rattle.walk_memory.specs.Lanes.{entries};
ghost use Rattle.walk_memory.specs.Memory.{is_common};
ghost use Rattle.walk_memory.specs.Stands.{GivesInstr};
ghost use Rattle.walk_memory.specs.Rows.{AllGo, AllGoBy, AllIn, Puts, Stores, Written, divides};
ghost use Rattle.walk_memory.specs.Rows.{held_in};

use crate::as_one::Together;
use crate::block::Block;
use crate::memo::{Formed, Stand};
use crate::span::{LANES, Span};
use pram_job::{Instr, Job, Operand, Place, Rule};
use pram_machine::computed;

// ---- loops over arrays

/// Each of these lanes takes this number.
#[inline(always)]
pub(crate) fn set_in(to: &mut [u32; LANES], lanes: Span, number: u32)
    ensures { Written lanes.start lanes.end (λ k. number) to.old to.new }
{
    for k in lanes.start..lanes.end {
        to[k] = number;
    }
}

// Each takes the number of its processor.
#[inline(always)]
fn number_in(to: &mut [u32; LANES], lanes: Span)
    ensures { Written lanes.start lanes.end (λ k. lanes.first + k) to.old to.new }
{
    for k in lanes.start..lanes.end {
        to[k] = lanes.first + k as u32;
    }
}

// Each takes the sum of this number and its own of these.
#[inline(always)]
fn shift_in(to: &mut [u32; LANES], lanes: Span, base: u32, x: &[u32; LANES])
    requires { AllIn lanes.start lanes.end (λ k. base + slice_index x.now k < 2 ^ 32) }
    ensures { Written lanes.start lanes.end (λ k. base + slice_index x.now k) to.old to.new }
{
    for k in lanes.start..lanes.end {
        to[k] = base + x[k];
    }
}

// Each is this much more.
#[inline(always)]
fn raise_in(to: &mut [u32; LANES], lanes: Span, base: u32)
    requires { AllIn lanes.start lanes.end (λ k. base + slice_index to.old k < 2 ^ 32) }
    ensures { Written lanes.start lanes.end (λ k. base + slice_index to.old k) to.old to.new }
{
    for k in lanes.start..lanes.end {
        to[k] += base;
    }
}

/// Each takes its own of these.
#[inline(always)]
pub(crate) fn copy_in(to: &mut [u32; LANES], lanes: Span, x: &[u32; LANES])
    ensures { Written lanes.start lanes.end (λ k. slice_index x.now k) to.old to.new }
{
    for k in lanes.start..lanes.end {
        to[k] = x[k];
    }
}

/// Each is one more.
#[inline(always)]
pub(crate) fn count_in(to: &mut [u32; LANES], lanes: Span)
    requires { AllIn lanes.start lanes.end (λ k. slice_index to.old k + 1 < 2 ^ 32) }
    ensures { Written lanes.start lanes.end (λ k. slice_index to.old k + 1) to.old to.new }
{
    for k in lanes.start..lanes.end {
        to[k] += 1;
    }
}

// Each takes what the instruction makes of its own of these.
#[inline(always)]
fn compute_in(to: &mut [u32; LANES], lanes: Span, instr: &Instr, x: &[u32; LANES], y: &[u32; LANES])
    ensures { Written lanes.start lanes.end
        (λ k. unwrap_or (computed instr.now (slice_index x.now k) (slice_index y.now k)) 0)
        to.old to.new }
{
    for k in lanes.start..lanes.end {
        to[k] = computed(instr, x[k], y[k]).unwrap_or(0);
    }
}

// None of these is 0, if so.
#[inline(always)]
fn none_zero(x: &[u32; LANES], lanes: Span) -> bool
    ensures { IsTrue result → AllIn lanes.start lanes.end (λ k. slice_index x.now k ≢ 0) }
{
    let mut none = true;
    for k in lanes.start..lanes.end {
        none &= x[k] != 0;
    }
    none
}

// All are 0, if so.
#[inline(always)]
fn all_zero(x: &[u32; LANES], lanes: Span) -> bool
    ensures { IsTrue result → AllIn lanes.start lanes.end (λ k. slice_index x.now k ≡ 0) }
{
    let mut all = true;
    for k in lanes.start..lanes.end {
        all &= x[k] == 0;
    }
    all
}

// All are below this, if so.
#[inline(always)]
fn all_below(x: &[u32; LANES], lanes: Span, below: u32) -> bool
    ensures { IsTrue result → AllIn lanes.start lanes.end (λ k. slice_index x.now k < below) }
{
    let mut all = true;
    for k in lanes.start..lanes.end {
        all &= x[k] < below;
    }
    all
}

// ---- over the registers

/// What an operand is for each.
#[inline(always)]
pub(crate) fn held(registers: &[[u32; LANES]; 4], operand: Operand) -> [u32; LANES]
    requires { IsOperand operand }
    ensures { AllIn 0 64 (λ k. slice_index result k ≡ held_in operand (entries registers.now k)) }
{
    match operand {
        Operand::Register(r) => registers[r as usize],
        Operand::Number(number) => all_of(number),
    }
}

/// Each takes what the operand is for it.
#[inline(always)]
pub(crate) fn copy_held(
    to: &mut [u32; LANES],
    lanes: Span,
    registers: &[[u32; LANES]; 4],
    operand: Operand,
)
    requires { IsOperand operand }
    ensures { Written lanes.start lanes.end (λ k. held_in operand (entries registers.now k)) to.old
        to.new }
{
    match operand {
        Operand::Register(r) => copy_in(to, lanes, &registers[r as usize]),
        Operand::Number(number) => set_in(to, lanes, number),
    }
}

// This number for each.
#[inline(always)]
fn all_of(number: u32) -> [u32; LANES]
    ensures { AllIn 0 64 (λ k. slice_index result k ≡ number) }
{
    [number; LANES]
}

/// The register takes its own of these.
#[inline(always)]
pub(crate) fn put_values(rows: &mut [[u32; LANES]; 4], lanes: Span, r: u8, values: &[u32; LANES])
    requires { r < 4 }
    ensures { Puts lanes.start lanes.end r (slice_index values.now) rows.old rows.new }
{
    copy_in(&mut rows[r as usize], lanes, values);
}

// The register takes this number.
#[inline(always)]
fn put_number(registers: &mut [[u32; LANES]; 4], lanes: Span, r: u8, number: u32)
    requires { r < 4 }
    ensures { Puts lanes.start lanes.end r (λ k. number) registers.old registers.new }
{
    set_in(&mut registers[r as usize], lanes, number);
}

// It takes the processor's number.
#[inline(always)]
fn put_processor(registers: &mut [[u32; LANES]; 4], lanes: Span, r: u8)
    requires { r < 4 }
    ensures { Puts lanes.start lanes.end r (λ k. lanes.first + k) registers.old registers.new }
{
    number_in(&mut registers[r as usize], lanes);
}

// It takes what the instruction computes of these, if that has a value for each; else nothing is
// done.
#[inline(always)]
fn put_computed(
    registers: &mut [[u32; LANES]; 4],
    lanes: Span,
    instr: &Instr,
    of: (u8, u8, Operand),
) -> bool
    requires fits { (of.0 < 4) × (of.1 < 4) × IsOperand of.2 }
    requires two { (row_of instr.now).1 ≡ TargetTwo of.0 of.1 of.2 }
    ensures puts { IsTrue result → Puts lanes.start lanes.end of.0 (λ k. unwrap_or (computed instr.now
        (slice_index (entries registers.old k) of.1) (held_in of.2 (entries registers.old k))) 0)
        registers.old registers.new }
    ensures some { IsTrue result → AllIn lanes.start lanes.end (λ k. IsSome (computed instr.now
        (slice_index (entries registers.old k) of.1) (held_in of.2 (entries registers.old k)))) }
    ensures not { result ≡ false → registers.new ≡ registers.old }
{
    let (r, a, b) = of;
    let x = registers[a as usize];
    let y = held(registers, b);
    if !has_values(instr, &y, lanes) {
        return false;
    }
    compute_in(&mut registers[r as usize], lanes, instr, &x, &y);
    true
}

// It has one for each, if so: a division does not where the second number is 0.
#[inline(always)]
fn has_values(instr: &Instr, y: &[u32; LANES], lanes: Span) -> bool
    ensures { IsTrue result → AllIn lanes.start lanes.end
        (λ k. divides instr.now ≡ true → slice_index y.now k ≢ 0) }
{
    if divides(instr) {
        none_zero(y, lanes)
    } else {
        true
    }
}

// It is a division.
#[inline(always)]
fn divides(instr: &Instr) -> bool
    ensures { result ≡ divides instr.now }
{
    matches!(*instr, Instr::Div(..) | Instr::Rem(..))
}

// Where all go whose register is 0 or not, if all go there.
#[inline(always)]
fn jump_of(registers: &[[u32; LANES]; 4], lanes: Span, r: u8, index: u32, next: u32) -> Option<u32>
    requires { r < 4 }
    ensures { IfSome result (λ to. AllIn lanes.start lanes.end (λ k.
        to ≡ (if slice_index (entries registers.now k) r == 0 then index else next))) }
{
    let x = registers[r as usize];
    if all_zero(&x, lanes) {
        Some(index)
    } else if none_zero(&x, lanes) {
        Some(next)
    } else {
        None
    }
}

// ---- stores

// The index of a place, its first cell, and how many it has.
#[inline(always)]
fn parts_of(job: &Job, place: &Place) -> (Operand, u32, u32)
    requires { IsPlace job.now.cells place.now }
    ensures index { result.0 ≡ index_of place.now }
    ensures operand { IsOperand result.0 }
    ensures reached { (i : ℕ) → i < result.2 → reached job.now place.now i ≡ Some (result.1 + i) }
    ensures cells { result.1 + result.2 ≤ job.now.cells }
{
    match *place {
        Place::Cell(index) => (index, 0, job.cells()),
        Place::Named(array, index) => (index, array.base, array.len),
    }
}

// Each has a store of the operand to its cell of the place, if there is one for each, and nothing
// is claimed; else nothing is done.
#[inline(always)]
fn store_all(job: &Job, lanes: Span, block: &mut Block, place: &Place, b: Operand) -> bool
    requires fits { IsPlace job.now.cells place.now × IsOperand b }
    ensures all { IsTrue result → Stores job.now lanes place.now b block.old block.new }
    ensures not { result ≡ false → block.new ≡ block.old }
{
    job.limits_hold();
    let parts = parts_of(job, place);
    let x = held(&block.registers, parts.0);
    if !is_common(job) {
        return false;
    }
    if !all_below(&x, lanes, parts.2) {
        return false;
    }
    shift_in(&mut block.cell, lanes, parts.1, &x);
    copy_held(&mut block.value, lanes, &block.registers, b);
    true
}

/// There is such a cell for each, if so.
#[inline(always)]
pub(crate) fn all_have(job: &Job, lanes: Span, block: &Block, place: &Place) -> bool
    requires { IsPlace job.now.cells place.now }
    ensures { IsTrue result → AllIn lanes.start lanes.end (λ k. IsSome (reached job.now place.now
        (held_in (index_of place.now) (entries block.now.registers k)))) }
{
    let parts = parts_of(job, place);
    let x = held(&block.registers, parts.0);
    all_below(&x, lanes, parts.2)
}

/// The cell of each, if each has one.
#[inline(always)]
pub(crate) fn cells_of(job: &Job, lanes: Span, block: &Block, place: &Place) -> Option<[u32; LANES]>
    requires { IsPlace job.now.cells place.now }
    ensures there { IfSome result (λ cells. AllIn lanes.start lanes.end (λ k. reached job.now place.now
        (held_in (index_of place.now) (entries block.now.registers k))
        ≡ Some (slice_index cells k))) }
    ensures below { IfSome result (λ cells. AllIn lanes.start lanes.end (λ k.
        slice_index cells k < job.now.cells)) }
{
    job.limits_hold();
    let parts = parts_of(job, place);
    let mut cells = held(&block.registers, parts.0);
    if !all_below(&cells, lanes, parts.2) {
        return None;
    }
    raise_in(&mut cells, lanes, parts.1);
    Some(cells)
}

// No store is claimed.
#[inline(always)]
pub(crate) fn is_common(job: &Job) -> bool
    ensures { result ≡ is_common job.now.rule }
{
    match job.rule() {
        Rule::Common => true,
        Rule::Priority | Rule::Crew => false,
    }
}

// ---- a step of each

// Where they stand after a step.
#[inline(always)]
fn next_at(at: Together, counter: u32, stored: bool) -> Together
    requires { at.step + 1 < 2 ^ 32 }
    ensures { result ≡ record at { counter = counter; step = suc at.step; stored = stored } }
{
    Together {
        counter,
        step: at.step + 1,
        settled: at.settled,
        stored,
    }
}

/// A step of each, if all can take it alone and then stand at one place; else nothing is done.
#[inline(always)]
fn go_by(job: &Job, lanes: Span, at: Together, instr: &Instr, block: &mut Block) -> Option<Together>
    requires stand { (at.counter < length job.now.code) × (at.step < job.now.steps) }
    requires instr { IsInstr job.now.cells (length job.now.code) instr.now }
    ensures all { IfSome result (λ next. AllGoBy job.now lanes instr.now at next block.old
        block.new) }
    ensures none { IfNone result (block.new ≡ block.old) }
{
    job.limits_hold();
    let next = at.counter + 1;
    match *instr {
        Instr::Set(r, number) => {
            put_number(&mut block.registers, lanes, r, number);
            Some(next_at(at, next, false))
        }
        Instr::Pid(r) => {
            put_processor(&mut block.registers, lanes, r);
            Some(next_at(at, next, false))
        }
        Instr::Add(r, a, b)
        | Instr::Sub(r, a, b)
        | Instr::Mul(r, a, b)
        | Instr::And(r, a, b)
        | Instr::Or(r, a, b)
        | Instr::Xor(r, a, b)
        | Instr::Lt(r, a, b)
        | Instr::Eq(r, a, b)
        | Instr::Shl(r, a, b)
        | Instr::Shr(r, a, b)
        | Instr::Div(r, a, b)
        | Instr::Rem(r, a, b) => {
            if !put_computed(&mut block.registers, lanes, instr, (r, a, b)) {
                return None;
            }
            Some(next_at(at, next, false))
        }
        Instr::St(ref place, b) => {
            if !store_all(job, lanes, block, place, b) {
                return None;
            }
            Some(next_at(at, next, true))
        }
        Instr::Jz(r, index) => {
            let to = jump_of(&block.registers, lanes, r, index, next)?;
            Some(next_at(at, to, false))
        }
        Instr::Jmp(index) => Some(next_at(at, index, false)),
        Instr::Halt => Some(next_at(at, job.code().len() as u32, false)),
        Instr::Ld(..) => None,
    }
}

/// The same. Each form that has a row in these three functions has a loop of its own, in which no
/// other is looked at.
#[inline(always)]
pub(crate) fn go_by_form(
    job: &Job,
    lanes: Span,
    at: Together,
    block: &mut Block,
    instr: &Instr,
) -> Option<Together>
    requires stand { StandTogether job.now at instr.now }
    requires alone { GoesUnsettled at instr.now }
    ensures all { IfSome result (λ next. AllGo job.now lanes at next block.old block.new) }
    ensures none { IfNone result (block.new ≡ block.old) }
{
    let stand = Stand {
        counter: at.counter,
        instr,
    };
    match *instr {
        Instr::Set(r, k) => go_all(job, lanes, at, block, &stand.by(|| Instr::Set(r, k))),
        Instr::Pid(r) => go_all(job, lanes, at, block, &stand.by(|| Instr::Pid(r))),
        Instr::Jz(r, index) => go_all(job, lanes, at, block, &stand.by(|| Instr::Jz(r, index))),
        Instr::Jmp(index) => go_all(job, lanes, at, block, &stand.by(|| Instr::Jmp(index))),
        Instr::Lt(r, a, b) => go_all(job, lanes, at, block, &stand.by(|| Instr::Lt(r, a, b))),
        Instr::Eq(r, a, b) => go_all(job, lanes, at, block, &stand.by(|| Instr::Eq(r, a, b))),
        Instr::St(Place::Cell(a), b) => go_all(
            job,
            lanes,
            at,
            block,
            &stand.by(|| Instr::St(Place::Cell(a), b)),
        ),
        Instr::St(Place::Named(array, a), b) => go_all(
            job,
            lanes,
            at,
            block,
            &stand.by(|| Instr::St(Place::Named(array, a), b)),
        ),
        _ => go_by_sum(job, lanes, at, block, stand),
    }
}

// Of these, those of arithmetic.
#[inline(always)]
fn go_by_sum(
    job: &Job,
    lanes: Span,
    at: Together,
    block: &mut Block,
    stand: Stand<'_>,
) -> Option<Together>
    requires stand { StandTogether job.now at stand.instr.now }
    requires alone { GoesUnsettled at stand.instr.now }
    ensures all { IfSome result (λ next. AllGo job.now lanes at next block.old block.new) }
    ensures none { IfNone result (block.new ≡ block.old) }
{
    match *stand.instr {
        Instr::Add(r, a, b) => go_all(job, lanes, at, block, &stand.by(|| Instr::Add(r, a, b))),
        Instr::Sub(r, a, b) => go_all(job, lanes, at, block, &stand.by(|| Instr::Sub(r, a, b))),
        Instr::Mul(r, a, b) => go_all(job, lanes, at, block, &stand.by(|| Instr::Mul(r, a, b))),
        Instr::Div(r, a, b) => go_all(job, lanes, at, block, &stand.by(|| Instr::Div(r, a, b))),
        Instr::Rem(r, a, b) => go_all(job, lanes, at, block, &stand.by(|| Instr::Rem(r, a, b))),
        _ => go_by_bits(job, lanes, at, block, stand),
    }
}

// And those of bits, and the rest.
#[inline(always)]
fn go_by_bits(
    job: &Job,
    lanes: Span,
    at: Together,
    block: &mut Block,
    stand: Stand<'_>,
) -> Option<Together>
    requires stand { StandTogether job.now at stand.instr.now }
    requires alone { GoesUnsettled at stand.instr.now }
    ensures all { IfSome result (λ next. AllGo job.now lanes at next block.old block.new) }
    ensures none { IfNone result (block.new ≡ block.old) }
{
    match *stand.instr {
        Instr::Shl(r, a, b) => go_all(job, lanes, at, block, &stand.by(|| Instr::Shl(r, a, b))),
        Instr::Shr(r, a, b) => go_all(job, lanes, at, block, &stand.by(|| Instr::Shr(r, a, b))),
        Instr::And(r, a, b) => go_all(job, lanes, at, block, &stand.by(|| Instr::And(r, a, b))),
        Instr::Or(r, a, b) => go_all(job, lanes, at, block, &stand.by(|| Instr::Or(r, a, b))),
        Instr::Xor(r, a, b) => go_all(job, lanes, at, block, &stand.by(|| Instr::Xor(r, a, b))),
        instr => go_all(job, lanes, at, block, &stand.by(|| instr)),
    }
}

// The same. A loop in a function of its own has what it uses in registers.
#[inline(never)]
fn go_all<F: Fn() -> Instr>(
    job: &Job,
    lanes: Span,
    at: Together,
    block: &mut Block,
    by: &Formed<'_, F>,
) -> Option<Together>
    requires stand { StandTogether job.now at by.now.stand.instr.now }
    requires form { GivesInstr F.Fn by.now.form by.now.stand.instr.now }
    requires alone { GoesUnsettled at by.now.stand.instr.now }
    ensures all { IfSome result (λ next. AllGo job.now lanes at next block.old block.new) }
    ensures none { IfNone result (block.new ≡ block.old) }
{
    job.limits_hold();
    let instr = (by.form)();
    go_by(job, lanes, at, &instr, block)
}
