//! The table of instructions, and the rules of writing.
ghost use Rattle.std.specs.Prelude.{◌≡◌};
ghost use Rattle.pram_job.specs.Instructions.{row_of};

/// What a processor does in a step. Registers have the numbers 0 to 3, indices are those of
/// instructions, counted from 0. On the right, a register stands for what it holds. Arithmetic is
/// modulo 2^32.
#[derive(Clone, Copy)]
pub enum Instr {
    /// `set r k`: r becomes k.
    Set(u8, u32),
    /// `pid r`: r becomes the processor's number.
    Pid(u8),
    /// `add r a b`: r becomes a + b.
    Add(u8, u8, Operand),
    /// `sub r a b`: r becomes a - b.
    Sub(u8, u8, Operand),
    /// `mul r a b`: r becomes a * b.
    Mul(u8, u8, Operand),
    /// `and r a b`: r becomes the bits that a and b have.
    And(u8, u8, Operand),
    /// `or r a b`: r becomes the bits that a or b has.
    Or(u8, u8, Operand),
    /// `xor r a b`: r becomes the bits that one of a and b has.
    Xor(u8, u8, Operand),
    /// `lt r a b`: r becomes 1 if a is below b, else 0.
    Lt(u8, u8, Operand),
    /// `eq r a b`: r becomes 1 if a equals b, else 0.
    Eq(u8, u8, Operand),
    /// `shl r a b`: r becomes a times 2^b.
    Shl(u8, u8, Operand),
    /// `shr r a b`: r becomes a divided by 2^b, rounded down.
    Shr(u8, u8, Operand),
    /// `div r a b`: r becomes a divided by b, rounded down. If b is 0 the processor leaves.
    Div(u8, u8, Operand),
    /// `rem r a b`: r becomes what is left of a divided by b. If b is 0 the processor leaves.
    Rem(u8, u8, Operand),
    /// `ld r a` or `ld r NAME a`: r becomes what the place holds.
    Ld(u8, Place),
    /// `st a b` or `st NAME a b`: the place becomes b.
    St(Place, Operand),
    /// `jz r label`: goes to the label's index if r is 0.
    Jz(u8, u32),
    /// `jmp label`: goes to the label's index.
    Jmp(u32),
    /// `halt`: the processor stays where it is from now on.
    Halt,
}

/// What an instruction reads: a register, or the number itself.
#[derive(Clone, Copy, Debug, PartialEq, Eq)]
pub enum Operand {
    Register(u8),
    Number(u32),
}

/// The cells from `base` on, so many. A text gives them a name.
#[derive(Clone, Copy)]
pub struct Array {
    pub base: u32,
    pub len: u32,
}

/// Where an instruction reads or writes.
#[derive(Clone, Copy)]
pub enum Place {
    /// `a`: the cell of number a.
    Cell(Operand),
    /// `NAME a`: place a of the array.
    Named(Array, Operand),
}

/// What a text has after the name of an instruction, in the order in which it is written. A target
/// is a register that takes a value, the other registers are read, and an index is that of
/// the instruction that a label stands before.
#[derive(Clone, Copy)]
pub enum Operands {
    /// Nothing.
    Bare,
    /// `r`
    Target(u8),
    /// `r k`
    TargetNumber(u8, u32),
    /// `r a` or `r NAME a`
    TargetPlace(u8, Place),
    /// `r a b`
    TargetTwo(u8, u8, Operand),
    /// `a b` or `NAME a b`
    PlaceValue(Place, Operand),
    /// `r label`
    RegisterIndex(u8, u32),
    /// `label`
    Index(u32),
}

impl Instr {
    /// The instruction's row of the table: its name in a text, and its operands.
    #[inline(always)]
    pub fn row(self) -> (&'static str, Operands)
        ensures { (result.0.now, result.1) ≡ row_of self }
    {
        match self {
            Instr::Set(r, k) => ("set", Operands::TargetNumber(r, k)),
            Instr::Pid(r) => ("pid", Operands::Target(r)),
            Instr::Add(r, a, b) => ("add", Operands::TargetTwo(r, a, b)),
            Instr::Sub(r, a, b) => ("sub", Operands::TargetTwo(r, a, b)),
            Instr::Mul(r, a, b) => ("mul", Operands::TargetTwo(r, a, b)),
            Instr::And(r, a, b) => ("and", Operands::TargetTwo(r, a, b)),
            Instr::Or(r, a, b) => ("or", Operands::TargetTwo(r, a, b)),
            Instr::Xor(r, a, b) => ("xor", Operands::TargetTwo(r, a, b)),
            Instr::Lt(r, a, b) => ("lt", Operands::TargetTwo(r, a, b)),
            Instr::Eq(r, a, b) => ("eq", Operands::TargetTwo(r, a, b)),
            Instr::Shl(r, a, b) => ("shl", Operands::TargetTwo(r, a, b)),
            Instr::Shr(r, a, b) => ("shr", Operands::TargetTwo(r, a, b)),
            Instr::Div(r, a, b) => ("div", Operands::TargetTwo(r, a, b)),
            Instr::Rem(r, a, b) => ("rem", Operands::TargetTwo(r, a, b)),
            Instr::Ld(r, place) => ("ld", Operands::TargetPlace(r, place)),
            Instr::St(place, b) => ("st", Operands::PlaceValue(place, b)),
            Instr::Jz(r, index) => ("jz", Operands::RegisterIndex(r, index)),
            Instr::Jmp(index) => ("jmp", Operands::Index(index)),
            Instr::Halt => ("halt", Operands::Bare),
        }
    }
}

/// What several processors may write to one cell in one step, and what the cell then holds.
#[derive(Clone, Copy, Debug, PartialEq, Eq)]
pub enum Rule {
    /// Equal values alone.
    Common,
    /// Any values: that of the processor with the least number counts.
    Priority,
    /// Nothing: one processor alone may write to a cell.
    Crew,
}
