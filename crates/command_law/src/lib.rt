//! What the commands print of a program of `pardo` is told of it by its meaning: its answer, its
//! lines and places, and who is gone. And what is printed of a job spells that very job.
#![tactic(auto)]

pub mod laws;
