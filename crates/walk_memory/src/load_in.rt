//! A load of a lane, and a claim.
ghost use Rattle.std.specs.Prelude.{◌<◌};
ghost use Rattle.pram_job.specs.Instructions.{IsOperand};
ghost use Rattle.walk_memory.specs.Operands.{operand-prop};

use pram_job::Operand;

/// A lane, the register that it loads into, and the cell that it loads.
#[derive(Clone, Copy)]
pub struct LoadIn {
    pub lane: usize,
    pub register: u8,
    pub cell: u32,
    ghost row: { lane < 64 },
    ghost four: { register < 4 },
}

/// Loads of processors in a row: the register that they load into, and the cell that each lane
/// loads.
#[derive(Clone, Copy)]
pub struct Loads {
    pub register: u8,
    pub cells: [u32; 64],
    ghost four: { register < 4 },
}

/// Claims of processors in a row: the operand that they store, and the cell of each lane's store.
#[derive(Clone, Copy)]
pub struct Claims {
    pub operand: Operand,
    pub cells: [u32; 64],
    ghost fits: { IsOperand operand } by { operand-prop operand },
}
