//! The theorem of the language `pardo`: the job of a program carries its meaning.
#![tactic(auto)]

pub mod laws;
