//! What a processor of the machine asks for in a step: the table of instructions.
#![tactic(auto)]

mod instructions;
mod requests;
mod turn;

pub use instructions::{
    Found, Sources, cell_named, cell_read, computed, decided, decided_by, goes_to, sources_of,
};
pub use requests::{Fetched, Request, place_part, request_in, value_part};
pub use turn::{Put, Turn};
