//! What a program in another language calls, from bytes to bytes: the commands that start no
//! thread, the final memory of a text, the rows of a plan, a text with names set, and the verdict
//! on a submission.
#![tactic(auto)]

pub mod answer;
pub mod call;
pub mod cells;
pub mod fault;
pub mod judging;
mod output;
pub mod plan;
pub mod request;
mod serving;
pub mod setting;
pub mod telling;
