//! The calls of the library for C: a static library over `library_core` and `library_boards`.
#![tactic(auto)]

mod boards;
mod commands;
mod places;
