//! Why a line was not done: the fault, its status, and what standard error tells of it.
#![tactic(auto)]

mod explanation;
mod fault;
mod notes;
mod refusal;
pub mod sentences;
mod telling;
mod unset;
mod words;

pub use explanation::{Explanation, Reasons, locate};
pub use fault::CommandFault;
pub use notes::tell_notes;
pub use pardo_explain::Look;
pub use refusal::{CONFLICT, DONE, FAILED, MEMORY, REFUSED, Refusal, UNFINISHED, tell};
pub use telling::tell_fault;
pub use unset::{Unset, tell_unset};
