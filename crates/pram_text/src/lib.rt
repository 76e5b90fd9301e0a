//! The text that spells a job of the machine. Jobs and lines are those of the crates below, passed
//! on.
#![tactic(auto)]

mod fault;
mod head;
mod header;
pub mod laws;
mod lines;
mod numbers;
mod program;
mod reader;
mod sizes;
mod start;
mod statement;

pub use fault::{TextFault, TextKind};
pub use lines::instruction_line;
pub use pram_job::{Array, Instr, Job, Operand, Operands, Place, Rule, limits, places};
pub use reader::read_job;
pub use statement::{is_name_word, register_in};
pub use text_lines::{TextLines, is_blank, is_lawful, is_word, next_word, value_of};
