//! The model world: words and bodies under events, one atomic step at a time.
#![tactic(auto)]

mod event;
pub mod laws;
mod outcome;
mod world;

pub use event::{Effect, Event, Standing};
pub use world::World;
