//! Where a program is wrong, and a sentence on it. The reader refuses a text by a line and a kind;
//! here it reads the text again, up to the token at which it stops, and what stands around that
//! token decides the sentence. Nothing here decides what is refused.
#![tactic(auto)]

mod before;
mod compared;
mod diagnosis;
mod fill;
mod look;
mod nearest;
mod note;
mod number;
mod piece;
mod point;
mod scan;
mod second_look;
mod sentence;
mod slip;
mod slips;
mod wanted;
mod words;
mod wrapped;

pub use before::{Before, lines_before};
pub use diagnosis::{Diagnosis, push_diagnosis};
pub use look::Look;
pub use note::notes;
pub use number::push_number;
pub use piece::{Piece, Pieces, trimmed};
pub use point::{Point, point_of};
pub use second_look::{diagnose, line_at, point_at};
pub use sentence::push_sentence;
pub use words::{is_among, is_comparison};
pub use wrapped::{Wrapped, wrapped_bound};
