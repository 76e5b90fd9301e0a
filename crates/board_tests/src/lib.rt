//! Tests of workers, readers, worlds, boards, runs and replays: rows of tables over named jobs, and
//! gates that hold workers at chosen ticks. They stand apart from the crates, since a crate with
//! tests is proved twice.
#![tactic(auto)]

#[cfg(test)]
mod board;
#[cfg(test)]
mod gates;
#[cfg(test)]
mod growths;
#[cfg(test)]
mod heard;
#[cfg(test)]
mod jobs;
#[cfg(test)]
mod replays;
#[cfg(test)]
mod rows;
#[cfg(test)]
mod watches;
#[cfg(test)]
mod worker;
#[cfg(test)]
mod world;
