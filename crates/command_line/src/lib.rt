//! The command line of the program: which line its words mean.
#![tactic(auto)]

mod arguments;
mod bad_value;
mod commands;
mod line;
mod options;

pub use line::{Asked, Given, Judging, read_line};
