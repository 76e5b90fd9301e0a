//! All that a program names which runs jobs on a shared board of its own: this crate is the one to
//! list and to import from. docs/EMBEDDING.md goes through such a program.
#![tactic(auto)]

pub use pram_board::{Board, Progress, Seat, Stay};
pub use pram_job::{Job, Rule};
pub use pram_run::{
    Bell, Listener, Reads, ReadsNothing, Shared, Sight, run, run_beside, run_heard, watch,
};
pub use pram_step::{Cells, Fault, RunAnswer};
pub use pram_text::{TextFault, TextKind, read_job};
pub use stop_plan::{Act, Gate, Open, Paced, Plan, PlanFault, PlanKind, Row, read_plan};
pub use walkx::{Ended, Reading, Worker};
