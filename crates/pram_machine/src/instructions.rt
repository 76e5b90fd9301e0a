//! The table of instructions: what each reads, and what it asks for.
ghost use Rattle.std.specs.Prelude.{◌≡◌, ℕ, ◌+◌, ◌^◌, ◌<◌, List, [], ◌∷◌, length, slice_index};
ghost use Rattle.std.specs.Prelude.{◌++◌, All, IfSome, Option, Some, map};
ghost use Rattle.pram_job.specs.Instructions.{IsOperand, IsPlace};
ghost use Rattle.pram_job.specs.Job.{IsInstr};
ghost use Rattle.pram_machine.specs.Machine.{out_of_range, register_place};
ghost use Rattle.pram_machine.specs.Instructions.{registers_in, value_of, held_after, index_of};
ghost use Rattle.pram_machine.specs.Instructions.{reached, sources_of, listed, cell_read};
ghost use Rattle.pram_machine.specs.Instructions.{gives, goes_to, within, computed, decided};
ghost use Rattle.pram_machine.specs.Instructions.{cell_of, operand_in, HasShape};
ghost use Rattle.pram_machine.specs.Turns.{IsTurnOf};
ghost use Rattle.pram_machine.specs.declared.turn.Put.TheVariants.{Nothing, Register, Cell};

use crate::requests::Request;
use crate::turn::{Put, Turn};
use pram_job::{Instr, Job, Operand, Operands, Place};

/// The registers that an instruction reads, in the order in which it is written.
#[derive(Clone, Copy, Debug, PartialEq, Eq)]
pub enum Sources {
    None,
    One(u8),
    Two(u8, u8),
}

/// The registers that an instruction reads.
#[inline(always)]
pub fn sources_of(instr: Instr) -> Sources
    ensures listed { listed result ≡ sources_of instr }
    ensures registers { (cells len : ℕ) → IsInstr cells len instr
        → All (λ r. r < 4) (listed result) }
{
    match instr.row().1 {
        Operands::Bare | Operands::Target(_) | Operands::TargetNumber(_, _) => Sources::None,
        Operands::Index(_) => Sources::None,
        Operands::TargetPlace(_, place) => of_one(index_of(place)),
        Operands::RegisterIndex(r, _) => Sources::One(r),
        Operands::TargetTwo(_, a, b) => of_two(a, b),
        Operands::PlaceValue(place, b) => match index_of(place) {
            Operand::Register(a) => of_two(a, b),
            Operand::Number(_) => of_one(b),
        },
    }
}

// The register of an operand.
#[inline(always)]
fn of_one(operand: Operand) -> Sources
    ensures { listed result ≡ registers_in operand }
{
    match operand {
        Operand::Register(r) => Sources::One(r),
        Operand::Number(_) => Sources::None,
    }
}

// A register, and that of an operand.
#[inline(always)]
fn of_two(first: u8, operand: Operand) -> Sources
    ensures { listed result ≡ first ∷ registers_in operand }
{
    match operand {
        Operand::Register(r) => Sources::Two(first, r),
        Operand::Number(_) => Sources::One(first),
    }
}

// The index of a place.
#[inline(always)]
fn index_of(place: Place) -> Operand
    ensures { result ≡ index_of place }
{
    match place {
        Place::Cell(index) | Place::Named(_, index) => index,
    }
}

// The value of an operand, where its register holds this.
#[inline(always)]
fn value_of(operand: Operand, held: u32) -> u32
    ensures { result ≡ value_of operand held }
{
    match operand {
        Operand::Register(_) => held,
        Operand::Number(number) => number,
    }
}

// The cell of a place with this index, if there is one.
#[inline(always)]
fn reached(job: &Job, place: Place, index: u32) -> Option<u32>
    requires { IsPlace job.now.cells place }
    ensures value { result ≡ reached job.now place index }
    ensures within { IfSome result (λ cell. cell < job.now.cells) }
{
    job.limits_hold();
    match place {
        Place::Cell(_) if index < job.cells() => Some(index),
        Place::Named(array, _) if index < array.len => Some(array.base + index),
        _ => None,
    }
}

/// The cell that an instruction reads, this being what the first register that it reads holds.
#[inline(always)]
pub fn cell_read(job: &Job, instr: Instr, first: u32) -> Option<u32>
    requires { IsInstr job.now.cells (length job.now.code) instr }
    ensures value { result ≡ cell_read job.now instr first }
    ensures within { IfSome result (λ cell. cell < job.now.cells) }
{
    match instr {
        Instr::Ld(_, place) => reached(job, place, value_of(index_of(place), first)),
        _ => None,
    }
}

/// Where the operands of an instruction, and the cell that it reads, are looked up.
pub(crate) trait Held {
    /// What operand k holds, the operands being these registers.
    ghost operand: { Self → List ℕ → ℕ → ℕ };

    /// What is read from this cell, or from none.
    ghost cell: { Self → Option ℕ → ℕ };

    /// How many cells there are.
    ghost cells: { Self → ℕ };

    /// What the first operand holds.
    fn first(&self, register: u8) -> u32
        requires { register < 4 }
        ensures { (rest : List ℕ) → result ≡ operand self.now (register ∷ rest) 0 };

    /// What the second operand holds.
    fn second(&self, register: u8) -> u32
        requires { register < 4 }
        ensures { (r : ℕ) (rest : List ℕ) → result ≡ operand self.now (r ∷ register ∷ rest) 1 };

    /// What the cell holds.
    fn cell(&self, address: u32) -> u32
        requires { address < cells self.now }
        ensures { result ≡ cell self.now (Some address) };
}

/// What a processor asks for by the instruction at its counter. Only what the instruction reads is
/// looked up. The instruction is no copy, and each of its forms has an arm of its own: so only the
/// operands that it has are loaded.
#[inline(always)]
#[tactic(auto, unfolding(crate::specs::Instructions::decided))]
pub(crate) fn decide<H: Held>(
    job: &Job,
    processor: u32,
    counter: u32,
    instr: &Instr,
    held: &H,
) -> Turn
    requires processor { processor < job.now.procs }
    requires counter { counter < length job.now.code }
    requires instr { IsInstr job.now.cells (length job.now.code) instr.now }
    requires cells { H.cells held.now ≡ job.now.cells }
    ensures { IsTurnOf job.now (decided job.now processor counter instr.now
        (H.operand held.now (sources_of instr.now) 0) (H.operand held.now (sources_of instr.now) 1)
        (H.cell held.now
        (cell_read job.now instr.now (H.operand held.now (sources_of instr.now) 0)))) result }
{
    job.limits_hold();
    match *instr {
        Instr::Set(r, k) => gives(job, processor, counter, r, k),
        Instr::Pid(r) => gives(job, processor, counter, r, processor),
        Instr::Add(r, a, b)
        | Instr::Sub(r, a, b)
        | Instr::Mul(r, a, b)
        | Instr::And(r, a, b)
        | Instr::Or(r, a, b)
        | Instr::Xor(r, a, b)
        | Instr::Lt(r, a, b)
        | Instr::Eq(r, a, b)
        | Instr::Shl(r, a, b)
        | Instr::Shr(r, a, b)
        | Instr::Div(r, a, b)
        | Instr::Rem(r, a, b) => {
            let value = computed(instr, held.first(a), second(held, b));
            gives_or_leaves(job, processor, counter, r, value)
        }
        Instr::Ld(r, ref place) => match cell_at(job, place, held) {
            Some(cell) => gives(job, processor, counter, r, held.cell(cell)),
            None => leaves(job),
        },
        Instr::St(ref place, b) => match cell_at(job, place, held) {
            Some(cell) => puts(cell, stored(held, index_of(*place), b), counter),
            None => leaves(job),
        },
        Instr::Jz(r, index) => jumps(if held.first(r) == 0 {
            index
        } else {
            counter + 1
        }),
        Instr::Jmp(index) => jumps(index),
        Instr::Halt => jumps(job.code().len() as u32),
    }
}

/// What an instruction that computes makes of two numbers, if that has a value.
#[inline(always)]
pub fn computed(instr: &Instr, a: u32, b: u32) -> Option<u32>
    ensures { result ≡ computed instr.now a b }
{
    match *instr {
        Instr::Add(..) => Some(a.wrapping_add(b)),
        Instr::Sub(..) => Some(a.wrapping_sub(b)),
        Instr::Mul(..) => Some(a.wrapping_mul(b)),
        Instr::And(..) => Some(a & b),
        Instr::Or(..) => Some(a | b),
        Instr::Xor(..) => Some(a ^ b),
        Instr::Lt(..) => Some(u32::from(a < b)),
        Instr::Eq(..) => Some(u32::from(a == b)),
        Instr::Shl(..) => Some(a.checked_shl(b).unwrap_or(0)),
        Instr::Shr(..) => Some(a.checked_shr(b).unwrap_or(0)),
        Instr::Div(..) => a.checked_div(b),
        Instr::Rem(..) => a.checked_rem(b),
        Instr::Set(..) | Instr::Pid(..) | Instr::Ld(..) | Instr::St(..) => None,
        Instr::Jz(..) | Instr::Jmp(..) | Instr::Halt => None,
    }
}

// The cell of a place, whose index is the first that is read, if there is one.
#[inline(always)]
fn cell_at<H: Held>(job: &Job, place: &Place, held: &H) -> Option<u32>
    requires { IsPlace job.now.cells place.now }
    ensures alone { result ≡ cell_of job.now place.now
        (H.operand held.now (registers_in (index_of place.now)) 0) }
    ensures before { (rest : List ℕ) → result ≡ cell_of job.now place.now
        (H.operand held.now (registers_in (index_of place.now) ++ rest) 0) }
    ensures within { IfSome result (λ cell. cell < job.now.cells) }
{
    match *place {
        Place::Cell(index) => reached(job, Place::Cell(index), first(held, index)),
        Place::Named(array, index) => {
            reached(job, Place::Named(array, index), first(held, index))
        }
    }
}

// The turn of a processor that names no cell, or divides by 0.
#[inline(always)]
fn leaves(job: &Job) -> Turn
    ensures { result ≡ record { put = Nothing; next = out_of_range job.now } }
{
    jumps(job.code().len() as u32 + 1)
}

// The value of an operand before which no register is read.
#[inline(always)]
fn first<H: Held>(held: &H, operand: Operand) -> u32
    requires { IsOperand operand }
    ensures alone { result ≡ value_of operand (H.operand held.now (registers_in operand) 0) }
    ensures before { (rest : List ℕ) → result
        ≡ value_of operand (H.operand held.now (registers_in operand ++ rest) 0) }
{
    match operand {
        Operand::Register(r) => held.first(r),
        Operand::Number(number) => number,
    }
}

// The value of an operand before which one register is read.
#[inline(always)]
fn second<H: Held>(held: &H, operand: Operand) -> u32
    requires { IsOperand operand }
    ensures { (r : ℕ) → result
        ≡ value_of operand (H.operand held.now (r ∷ registers_in operand) 1) }
{
    match operand {
        Operand::Register(r) => held.second(r),
        Operand::Number(number) => number,
    }
}

// The value that is stored, after the index of a place was read.
#[inline(always)]
fn stored<H: Held>(held: &H, index: Operand, operand: Operand) -> u32
    requires { IsOperand operand }
    ensures { result ≡ value_of operand (held_after index
        (H.operand held.now (registers_in index ++ registers_in operand) 0)
        (H.operand held.now (registers_in index ++ registers_in operand) 1)) }
{
    match index {
        Operand::Register(_) => second(held, operand),
        Operand::Number(_) => first(held, operand),
    }
}

/// What the registers and the cell that an instruction reads hold. For those that it has not any
/// number will do.
#[derive(Clone, Copy, Debug, PartialEq, Eq)]
pub struct Found {
    /// The first register.
    pub a: u32,
    /// The second register.
    pub b: u32,
    /// The cell.
    pub value: u32,
}

/// What a processor asks for by the instruction at its counter, these having been found.
#[inline(always)]
#[tactic(auto, using(crate::proofs::Shapes::decided_shape))]
pub fn decided(job: &Job, processor: u32, counter: u32, instr: Instr, found: Found) -> Request
    requires processor { processor < job.now.procs }
    requires counter { counter < length job.now.code }
    requires instr { IsInstr job.now.cells (length job.now.code) instr }
    ensures request { result ≡ decided job.now processor counter instr found.a found.b found.value }
    ensures shape { HasShape job.now processor result }
{
    let cells = job.cells();
    decide(job, processor, counter, &instr, &Heard { found, cells }).request()
}

/// What was found before, in a job with so many cells.
#[derive(Clone, Copy)]
struct Heard {
    found: Found,
    cells: u32,
}

impl Held for Heard {
    ghost operand = { λ h _ k. slice_index (h.found.a ∷ h.found.b ∷ []) k };

    ghost cell = { λ h _. h.found.value };

    ghost cells = { λ h. h.cells };

    #[inline(always)]
    fn first(&self, _register: u8) -> u32 {
        self.found.a
    }

    #[inline(always)]
    fn second(&self, _register: u8) -> u32 {
        self.found.b
    }

    #[inline(always)]
    fn cell(&self, _address: u32) -> u32 {
        self.found.value
    }
}

/// The cell that an instruction reads, the registers of its processor holding these.
#[inline(always)]
pub fn cell_named(job: &Job, instr: &Instr, registers: &[u32; 4]) -> Option<u32>
    requires { IsInstr job.now.cells (length job.now.code) instr.now }
    ensures value { result ≡ cell_read job.now instr.now (operand_in registers.now instr.now 0) }
    ensures within { IfSome result (λ cell. cell < job.now.cells) }
{
    let cells = job.cells();
    let held = Own {
        registers,
        value: 0,
        cells,
    };
    match *instr {
        Instr::Ld(_, ref place) => cell_at(job, place, &held),
        _ => None,
    }
}

/// What a processor asks for by the instruction at its counter, its registers holding these, and
/// the cell that it reads this.
#[inline(always)]
pub fn decided_by(
    job: &Job,
    processor: u32,
    counter: u32,
    instr: &Instr,
    registers: &[u32; 4],
    value: u32,
) -> Turn
    requires processor { processor < job.now.procs }
    requires counter { counter < length job.now.code }
    requires instr { IsInstr job.now.cells (length job.now.code) instr.now }
    ensures { IsTurnOf job.now (decided job.now processor counter instr.now
        (operand_in registers.now instr.now 0) (operand_in registers.now instr.now 1) value)
        result }
{
    let cells = job.cells();
    let held = Own {
        registers,
        value,
        cells,
    };
    decide(job, processor, counter, instr, &held)
}

/// A processor's registers, and what was read from its cell, in a job with so many cells.
#[derive(Clone, Copy)]
struct Own<'m> {
    registers: &'m [u32; 4],
    value: u32,
    cells: u32,
}

impl Held for Own<'_> {
    ghost operand = { λ h rs. slice_index (map (slice_index h.registers.now) rs) };

    ghost cell = { λ h _. h.value };

    ghost cells = { λ h. h.cells };

    #[inline(always)]
    fn first(&self, r: u8) -> u32 {
        self.registers[r as usize]
    }

    #[inline(always)]
    fn second(&self, r: u8) -> u32 {
        self.registers[r as usize]
    }

    #[inline(always)]
    fn cell(&self, _address: u32) -> u32 {
        self.value
    }
}

// A register takes a value.
#[inline(always)]
fn gives(job: &Job, processor: u32, counter: u32, register: u8, value: u32) -> Turn
    requires processor { processor < job.now.procs }
    requires counter { counter < length job.now.code }
    requires register { register < 4 }
    ensures { result ≡ record {
      put = Register (register_place job.now processor register) value;
      next = counter + 1;
    } }
{
    Turn {
        put: Put::Register(job.register_place(processor, register), value),
        next: counter + 1,
    }
}

// A register takes a value, or the processor leaves where there is none.
#[inline(always)]
fn gives_or_leaves(
    job: &Job,
    processor: u32,
    counter: u32,
    register: u8,
    value: Option<u32>,
) -> Turn
    requires processor { processor < job.now.procs }
    requires counter { counter < length job.now.code }
    requires register { register < 4 }
    ensures { IsTurnOf job.now (within value (out_of_range job.now)
        (gives job.now processor counter register)) result }
{
    match value {
        Some(value) => gives(job, processor, counter, register, value),
        None => leaves(job),
    }
}

// A cell takes a value, and the counter goes on.
#[inline(always)]
fn puts(cell: u32, value: u32, counter: u32) -> Turn
    requires { counter + 1 < 2 ^ 32 }
    ensures { result ≡ record { put = Cell cell value; next = counter + 1 } }
{
    Turn {
        put: Put::Cell(cell, value),
        next: counter + 1,
    }
}

// No data, and this next counter.
#[inline(always)]
pub(crate) fn jumps(next: u32) -> Turn
    ensures { result ≡ record { put = Nothing; next = next } }
{
    Turn {
        put: Put::Nothing,
        next,
    }
}

/// The request of no data, and of this next counter.
#[inline(always)]
pub fn goes_to(next: u32) -> Request
    ensures { result ≡ goes_to next }
{
    Request { put: None, next }
}
