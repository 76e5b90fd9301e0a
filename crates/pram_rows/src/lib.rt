//! Rows of the steps of a job, and its final cells, printed as CSV.
#![tactic(auto)]

mod causes;
mod cells;
pub mod fate_laws;
mod fates;
mod instruction;
pub mod laws;
mod looks;
mod losses;
mod print;
mod row;
mod row_names;
mod rows;
mod told;
mod window;

pub use causes::{
    Cause, Values, Why, answer_with_why, cause_of, clash_values, why_after, why_lost,
};
pub use cells::print_cells;
pub use fates::{End, Fates, Lost, answer_with_fates, fates_after};
pub use instruction::instruction_text;
pub use print::print_steps;
pub use row::Requests;
pub use row_names::{ByNumbers, RowNames};
pub use rows::Rows;
pub use told::{Origin, fates_text, why_text};
pub use window::Window;
