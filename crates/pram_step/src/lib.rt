//! The plain machine: each processor in turn, step after step. What an instruction asks for is that
//! of the crate below, passed on.
#![tactic(auto)]

mod answer;
mod arrival;
mod asking;
mod conflict;
mod last;
pub mod laws;
mod lockstep;
mod moment;
mod pass;
mod run;
mod running;
mod state;
mod stores;
mod walks;

pub use answer::{Cells, Dispute, Fault, RunAnswer};
pub use arrival::{Arrival, go_to, make_step};
pub use asking::{counter, request_after};
pub use conflict::{dispute, fault_of};
pub use last::{LastRow, LastRows, UntilStopped};
pub use moment::Moment;
pub use pram_machine::{
    Found, Request, Sources, cell_read, decided, goes_to, place_part, sources_of, value_part,
};
pub use run::{Outcome, plain_answer, run_plain};
pub use state::{State, StepFault, request, step};
pub use walks::{Nobody, Observer, Sight, Span, Stage, Walked, walk, walk_in, walk_on};
