//! Exercises from text.
#![tactic(auto)]

mod draft;
mod entry;
mod exercise;
mod fault;
mod header;
mod key;
mod line_key;
mod reader;
mod set;
mod submission;
mod thrown;
mod values;
mod words;

pub use entry::Entry;
pub use exercise::Exercise;
pub use fault::{ExerciseFault, ExerciseKind};
pub use header::{header_as_set, read_header, value_by};
pub use key::Key;
pub use reader::read_exercise;
pub use set::{Size, set_text, unknown_word};
pub use submission::{code_lines, judged_text, missing_line};
pub use values::{Wanted, array_named, held_by, value_at, wanted_at_end, wanted_at_start};
pub use words::{answer_in, is_arrow};
