//! What a run costs, and which model of the PRAM it needs.
#![tactic(auto)]

mod access;
mod beyond;
mod cost;
mod cost_names;
mod found;
mod group;
pub mod laws;
mod meeting;
mod moment;
mod pram;
mod print;
mod profile;
mod work;

pub use access::{is_running, read_of, write_of};
pub use beyond::{Beyond, print_beyond};
pub use cost::{Cost, Tally, cost_of};
pub use cost_names::{ByCells, CostNames};
pub use meeting::{Meeting, Meetings, Sharing};
pub use pram::Pram;
pub use print::print_cost;
pub use profile::{Executed, Measure, Profile};
pub use work::Work;
