//! Programs of the language `pardo`.
#![tactic(auto)]

mod arrays;
mod block;
mod expression;
pub mod limits;
mod operation;
mod program;
mod statement;
mod untested;

pub use arrays::{Array, Shape};
pub use block::{Block, Blocks};
pub use expression::{Expr, Exprs, Node};
pub use operation::Op;
pub use pram_job::Rule;
pub use program::{Parts, Private, Program};
pub use statement::{Line, Statement, Target};
pub use untested::leave_tests_out;
