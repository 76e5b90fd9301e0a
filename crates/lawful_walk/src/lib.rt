//! Lawful words, and the laws of the walk over them: what holds of the words between any two atomic
//! steps, of workers and readers, and of the records of what they heard. It has no code.
#![tactic(auto)]

pub mod walk_laws;
pub mod word_laws;
