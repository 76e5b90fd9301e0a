//! What the program answers to words: the line that they mean is served from the files that it
//! names, and all else is told. It stands apart from `main`, since a check of a crate with `clap`
//! takes long.
#![tactic(auto)]

mod answer;
mod input;
mod judging;
mod random;
mod setting;
mod sweep;

pub use answer::{Waiting, answer_alone, answer_words, serve_waiting};
pub use input::{Input, RealFiles};
