//! What the page of the playground asks for: pure functions over numbers and slices.
//!
//! `program` and `names` tell what a program of `pardo` is as a text of the machine; `text` judges
//! such a text, `machine` and `moment` tell the steps of the plain machine, `scene` a
//! board after a list of events, and `reads` its cells as readers get them. Nothing is kept between
//! calls. `pram_page` has the calls.
#![tactic(auto)]

pub mod board;
pub mod bodies;
pub mod codes;
pub mod cost;
pub mod entries;
pub mod exercise_codes;
pub mod fates;
pub mod finding;
pub mod given;
pub mod last;
pub mod machine;
pub mod moment;
pub mod names;
pub mod outcome;
pub mod program;
pub mod put;
pub mod reads;
pub mod requests;
pub mod rows;
pub mod scene;
pub mod steps;
pub mod submission;
pub mod text;
pub mod verdict;
pub mod words;
