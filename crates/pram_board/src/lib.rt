//! A board of words that threads share. Each caller has a seat, whose record of atomic steps only
//! contracts see.
#![tactic(auto)]

mod board;
mod driver;
mod first_pass;
mod look;
mod outcome;
mod plain;
mod plays;
mod rest;
mod seat;
mod second_pass;
mod stops;
mod task;
mod until;
mod work;

pub use board::Board;
pub use look::Progress;
pub use seat::Seat;
pub use task::{Task, View};
pub use work::Stay;
