//! Runs of a job under a plan: on one thread in the plan's order, and on threads.
#![tactic(auto)]

mod cell_names;
mod ending;
mod heard;
mod listener;
mod observation;
mod print;
mod runner;
mod schedule;
mod shared;
mod sight;
mod stand_by;
mod trace;
mod watcher;

pub use cell_names::{CellNames, Numbers};
pub use heard::{run_beside, run_heard};
pub use listener::{Listener, Reads, ReadsNothing};
pub use observation::print_reads;
pub use print::{OutFault, print_sights, print_trace, write_trace};
pub use runner::run;
pub use schedule::{replay, replay_to};
pub use shared::{Bell, Shared};
pub use sight::Sight;
pub use trace::{StepKind, Trace, TraceRow};
pub use watcher::watch;
