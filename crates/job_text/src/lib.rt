//! A job printed as a text of version 3, which is read back as that job.
#![tactic(auto)]

mod array_names;
mod arrays;
mod code;
pub mod laws;
mod print;
mod runs;

pub use array_names::{ArrayNames, Dotted};
pub use print::{print_text, spell};
