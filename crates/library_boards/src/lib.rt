//! A shared board for a program in another language: whoever takes part in the work on one keeps it
//! alive, and lies behind a handle of one pointer, which may be passed between threads.
#![tactic(auto)]

pub mod calls;
mod given;
mod handle;
mod job;
mod loose;
mod member;
mod opening;
mod place;
mod shared;
pub mod status;
mod told;

pub use given::{Given, GivenFault, given_job_of};
pub use handle::Handle;
pub use job::{OpenFault, job_of, uncounted_job_of};
pub use member::Member;
pub use opening::open_with;
pub use place::{PlaceTold, place_of};
pub use shared::Shared;
pub use told::{FaultTold, ProgressTold, ReadingTold, StopTold};
