//! Tests of exercises: texts that are none, headers that are set, and submissions with a header.
#![tactic(auto)]

#[cfg(test)]
mod given;
#[cfg(test)]
mod headers;
#[cfg(test)]
mod said;
#[cfg(test)]
mod submissions;
#[cfg(test)]
mod texts;
#[cfg(test)]
mod words;
