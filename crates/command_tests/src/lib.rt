//! Tests of what the program answers to words, by what `command_answers` and the crates below it
//! make public: rows of tables over files in memory, and devices that fail. They stand apart, since
//! a crate with tests is proved twice.
#![tactic(auto)]

#[cfg(test)]
mod answers;
#[cfg(test)]
mod courses;
#[cfg(test)]
mod devices;
#[cfg(test)]
mod explanations;
#[cfg(test)]
mod gallery;
#[cfg(test)]
mod judging;
#[cfg(test)]
mod lines;
#[cfg(test)]
mod named;
#[cfg(test)]
mod programs;
#[cfg(test)]
mod progress;
#[cfg(test)]
mod random;
#[cfg(test)]
mod table;
#[cfg(test)]
mod threads;
