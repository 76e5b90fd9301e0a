//! The text that spells a program of the language `pardo`.
#![tactic(auto)]

mod arrays;
mod code;
mod column;
mod cursor;
mod draft;
mod exchange;
mod fault;
mod header;
pub mod laws;
mod names;
mod parse;
mod part;
mod readable;
mod reader;
mod settings;
mod settled;
mod symbol;
mod thrown;
mod token;
mod value;

pub use fault::{PardoFault, PardoKind};
pub use pardo_program::{Array, Expr, Line, Node, Op, Private, Program, Statement, Target, limits};
pub use pram_job::Rule;
pub use reader::{Stop, read_or_stop, read_program, read_program_with};
pub use settings::{SetFault, SetKind, SetRefusal, Settings};
pub use thrown::{Thrown, next_seed, number_below, seed_and_bound};
pub use token::{first_spelled, said};
