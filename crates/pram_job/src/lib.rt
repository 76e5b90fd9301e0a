//! Jobs of the machine as plain data.
#![tactic(auto)]

mod instr;
mod job;
pub mod laws;
pub mod limits;
pub mod places;

pub use instr::{Array, Instr, Operand, Operands, Place, Rule};
pub use job::Job;
