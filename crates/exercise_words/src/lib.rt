//! What is said of a judged submission, and of an exercise that cannot be judged by, in words: each
//! time a part of a sentence, on one line.
#![tactic(auto)]

pub mod laws;
mod names;
mod parts;
mod said;
mod shown;
mod trials;
mod unfit;
mod veiled;
mod wrong;

pub use names::{fault_name, unfit_name};
pub use said::{NOT_PASSED, Said, said_of};
pub use trials::{NoTrials, trials_in};
pub use unfit::{push_exercise_fault, push_unfit};
pub use wrong::push_wrong;
