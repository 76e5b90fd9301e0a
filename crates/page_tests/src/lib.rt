//! Tests of what the page's calls put together, by what `page_core` makes public. They stand apart
//! from it, since a crate with tests is proved twice.
#![tactic(auto)]

#[cfg(test)]
mod boards;
#[cfg(test)]
mod plain;
#[cfg(test)]
mod programs;
#[cfg(test)]
mod runs;
