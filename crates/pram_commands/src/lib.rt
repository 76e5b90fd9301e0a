//! The program's commands, from bytes to bytes: what a line asks for, what it prints, and its
//! status.
#![tactic(auto)]

mod bytes;
pub mod commands;
mod drafted;
mod files;
mod inputs;
mod printing;
mod progress;
mod server;
mod sources;
mod sweeps;
mod threads;
mod traces;
mod why;

pub use bytes::Bytes;
pub use command_data::{
    Ask, AskAlone, AskOnThreads, AskRun, AskWatch, Block, CellList, Line, Manner, Style, Telling,
    Workers,
};
pub use commands::{do_alone, take_answer};
pub use files::{Folder, serve_files, serve_files_alone, serve_text, serve_text_alone};
pub use inputs::{take_inputs, take_job, take_plan};
pub use naming::{Naming, Spelled};
pub use progress::{Teller, tell_steps};
pub use refusals::{
    CONFLICT, CommandFault, DONE, Explanation, FAILED, Look, MEMORY, REFUSED, Reasons, Refusal,
    UNFINISHED, Unset, tell, tell_unset,
};
pub use server::{serve, serve_alone};
pub use sources::{Console, Inputs, Sources};
pub use sweeps::{RunRecord, run_record};
