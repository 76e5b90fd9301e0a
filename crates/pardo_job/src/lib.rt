//! From a program of the language `pardo` to a job of the machine.
#![tactic(auto)]

mod compiler;
mod ended;
mod fault;
mod flat;
mod held;
pub mod laws;
pub mod limits;
mod lines;
mod long;
mod operations;
mod pieces;
mod places;
mod run;
mod times;
mod values;

pub use compiler::{Compiled, Draft, compile, draft_in, finish};
pub use ended::{Ended, Lines};
pub use fault::{JobFault, JobKind, Refusal};
pub use flat::flat_program;
pub use times::{CountedLine, counted_lines, loop_ends};
