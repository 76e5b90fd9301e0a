//! Sources and sinks of bytes, and a printed answer into a sink.
#![tactic(auto)]

mod device;
mod from_read;
mod into_write;
mod numbers;
mod print;
mod transfer;

pub use device::{Empty, Failed, Reason, Sink, Source};
pub use from_read::FromRead;
pub use into_write::IntoWrite;
pub use numbers::{number_text, push_labelled};
pub use print::{PrintFault, print_answer, print_summary};
pub use transfer::{MOST, TakeFault, put, take};
