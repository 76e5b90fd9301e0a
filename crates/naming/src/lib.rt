//! What the numbers of a job are called in its text, and answers told by these names.
#![tactic(auto)]

mod array_names;
mod cell_list;
mod costs;
mod drafts;
mod line_records;
mod names;
mod places;
mod rounds;
mod texts;

pub use cell_list::cells_in;
pub use costs::{Costed, rounds_line};
pub use drafts::{Stop, counted, drafted, stopped};
pub use line_records::records_of;
pub use names::{Naming, origin_of, print_styled, print_told, read_costed, read_text};
pub use rounds::rounds_text;
pub use texts::Spelled;
