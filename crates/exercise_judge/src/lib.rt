//! Submissions to an exercise, judged.
#![tactic(auto)]

mod check;
mod judging;
mod known;
mod place;
mod reference;
mod trial;
mod trials;
mod tried;
mod verdict;

pub use exercise_text::{Entry, Exercise, ExerciseFault, ExerciseKind, Key, Wanted, read_exercise};
pub use judging::{judge, judge_trial};
pub use trial::Trial;
pub use trials::{part_in, trial_of, trials_of};
pub use tried::{Figures, Tried, try_trial};
pub use verdict::{Bar, Unfit, UnfitKind, Verdict, Wrong};
