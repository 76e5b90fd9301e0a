//! A worker and a reader, asked and told one atomic step at a time.
#![tactic(auto)]

mod begins;
mod carry;
mod claim;
mod claim_plain;
mod compare;
mod idle;
mod judging;
mod lagging;
mod land_at;
pub mod laws;
mod left;
mod next;
mod operation;
mod own_in;
mod parts;
mod plain;
mod playback;
mod reader;
mod record;
mod request;
mod scripts;
mod steps;
mod stores;
pub mod taking;
mod tasks;
pub mod turns;
mod wide_own;
mod wide_request;
mod wide_store;
mod words;
mod worker;

pub use laws::own_steps_are_bounded;
pub use left::{Left, Stopped};
pub use operation::{Activity, Ended, Op, ReadOp, Reading};
pub use reader::Reader;
pub use record::Recorded;
pub use steps::Steps;
pub use walk_memory::{Claims, Formed, Leaf, Loads, Memo, Memory, Own, Post, Stand, Stores};
pub use wide_store::{carry_until, report_store};
pub use words::{request_of, seen_step};
pub use worker::Worker;
