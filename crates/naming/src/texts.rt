//! A text that was read.
use crate::names::Naming;
use pram_job::Job;

/// A text with its job, and what the job's answers are told by where the text is a program.
#[derive(Drop)]
pub struct Spelled {
    pub text: Vec<u8>,
    pub job: Job,
    pub names: Option<Naming>,
}
