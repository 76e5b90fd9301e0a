//! The calls of the page of the playground: a static library over `page_core`, whose functions they
//! put together.
#![tactic(auto)]

mod boards;
mod exercises;
mod plain;
mod programs;
mod runs;
