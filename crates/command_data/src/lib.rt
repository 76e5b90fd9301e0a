//! What the program is asked for, as plain data: a line, and what its words name. It stands apart
//! from the commands, so that the command line need not wait for them.
#![tactic(auto)]

mod block;
mod cell_list;
mod line;
mod manner;
mod workers;

pub use block::Block;
pub use cell_list::{CellList, cell_of, first_part};
pub use line::{Ask, AskAlone, AskOnThreads, AskRun, AskWatch, Line, Style};
pub use manner::{Manner, Telling};
pub use workers::Workers;
