//! The words of a shared board: stamps, phases, the tree of progress, and where each word lies.
//!
//! All calls are pure. `start_words` takes memory, and time in the number of words. The others take
//! no memory and constant time, but for a worker's first leaf in the wide form, which takes time in
//! the height of the tree.
#![tactic(auto)]

pub mod laws;
mod layout;
mod phases;
mod stamps;
mod tree;
mod words;

pub use laws::{
    phases_follow, phases_undo, stamps_undo, words_have_ranges, words_keep_apart,
    words_start_admitted, workers_begin_at_leaves,
};
pub use layout::{Form, Layout, OwnWords};
pub use phases::{Kind, LAST_PHASE, kind_of, phase, step_of};
pub use stamps::{first_is_older, newer, newer_payload, older, payload, stamp, stamped};
pub use tree::{first_leaf, goes_right, height, leaves, left, parent, right};
pub use words::Word;
