//! Whether a text is a program of the language `pardo`, and the answer of a program by the names
//! and lines of its text.
#![tactic(auto)]

mod language;
pub mod laws;
mod line_costs;
mod print;
mod records;
mod run;
mod text;
mod tracer;

pub use language::is_program;
pub use line_costs::{Costs, LineCost, total_operations, total_time};
pub use print::{Names, print_named, push_conflict};
pub use records::{print_records, push_place};
pub use run::{Run, finish_costed, run_program};
pub use text::push_cell;
pub use tracer::{HEADER, Tracer};
