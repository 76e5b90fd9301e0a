//! Tests of texts, programs and plans, of the plain machine, of the words of a board, and of what
//! is printed: rows of tables, each through the call that its table names, and devices that fail.
//! They stand apart from the crates, since a crate with tests is proved twice.
#![tactic(auto)]

#[cfg(test)]
mod calls;
#[cfg(test)]
mod devices;
#[cfg(test)]
mod moments;
#[cfg(test)]
mod plans;
#[cfg(test)]
mod printed;
#[cfg(test)]
mod programs;
#[cfg(test)]
mod slips;
#[cfg(test)]
mod table;
#[cfg(test)]
mod texts;
#[cfg(test)]
mod words;
