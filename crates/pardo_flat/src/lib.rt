//! A program of the language `pardo` by lines for each of which three registers are enough, and where
//! its values lie.
#![tactic(auto)]

mod flat;
mod layout;
mod needs;
mod splitter;

pub use flat::{Flat, Flattened, flatten};
pub use layout::Layout;
pub use needs::gives_truth;
