//! What is said of a submission.
ghost use Rattle.std.specs.Prelude.{◌≡◌, IfOk};
ghost use Rattle.exercise_judge.specs.Verdicts.{FailsAt};
ghost use Rattle.exercise_words.specs.Records.{IsSaid, IsWhat, passed_status, yes_or_no};

use crate::push_wrong;
use exercise_judge::{Trial, Verdict, Wrong, judge};
use pram_streams::push_labelled;
use refusals::DONE;
use std::alloc::{AllocError, Global};

/// A submission did not pass.
pub const NOT_PASSED: u8 = 1;

/// What is said of a submission: whether it passed; and if not, under which input, counted from 1,
/// and what is wrong with it.
#[derive(Drop)]
pub struct Said {
    pub passed: bool,
    pub input: Vec<u8>,
    pub what: Vec<u8>,
}

impl Said {
    /// Whether it passed, as a record says it.
    pub fn yes_or_no(&self) -> &[u8]
        ensures { result.now ≡ yes_or_no self.now.passed }
    {
        if self.passed { b"yes" } else { b"no" }
    }

    /// The status that it ends with.
    pub fn status(&self) -> u8
        ensures { result ≡ passed_status self.now.passed }
    {
        if self.passed { DONE } else { NOT_PASSED }
    }
}

/// What is said of a submission that these trials judge: of a hidden input the kind of what is
/// wrong, and its line. It is run once at most for each.
pub fn said_of(alloc: Global, trials: &[Trial], submission: &[u8]) -> Result<Said, AllocError>
    ensures { IfOk result (IsSaid trials.now submission.now) }
{
    match judge(alloc, trials, submission) {
        Verdict::Passed => Ok(Said {
            passed: true,
            input: Vec::new(alloc),
            what: Vec::new(alloc),
        }),
        Verdict::Failed {
            input,
            hidden,
            wrong,
        } => {
            let mut number = Vec::new(alloc);
            push_labelled(&mut number, b"", input as u64)?;
            Ok(Said {
                passed: false,
                input: number,
                what: what_of(alloc, trials, (input, hidden), &wrong, submission)?,
            })
        }
    }
}

// What is wrong with a submission under the input of this number, which may be hidden, unless
// memory ran out.
#[tactic(auto, using(std::proofs::lemmas::Option::slice_get_within))]
fn what_of(
    alloc: Global,
    trials: &[Trial],
    failed: (usize, bool),
    wrong: &Wrong,
    submission: &[u8],
) -> Result<Vec<u8>, AllocError>
    requires { FailsAt trials.now submission.now failed.0 failed.1 wrong.now }
    ensures { IfOk result (λ what. IsWhat failed.1 wrong.now what.items) }
{
    match wrong {
        Wrong::Memory => Err(AllocError),
        _ => {
            let (input, hidden) = failed;
            let before = input - 1;
            let mut what = Vec::new(alloc);
            push_wrong(&mut what, wrong, hidden, &trials[before], submission)?;
            Ok(what)
        }
    }
}
