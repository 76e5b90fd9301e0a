//! What is said of an exercise and of a submission.
use exercise_judge::{
    ExerciseFault, Trial, Unfit, UnfitKind, Verdict, Wrong, judge, read_exercise, trials_of,
};
use std::alloc::{AllocError, Global};
use std::str::from_utf8;
use std::test::Fail;

fn told(bytes: &[u8]) -> &str {
    from_utf8(bytes).unwrap_or("?")
}

fn trials_in(alloc: Global, text: &str) -> Result<Result<Vec<Trial>, String>, Fail> {
    let exercise = match read_exercise(alloc, text.as_bytes()) {
        Ok(exercise) => exercise,
        Err(ExerciseFault { line, kind }) => {
            return Ok(Err(format!(in alloc; "{line} {kind:?}")?));
        }
    };
    Ok(match trials_of(alloc, &exercise) {
        Ok(trials) => Ok(trials),
        Err(
            Unfit {
                line,
                kind: UnfitKind::Unknown(word),
            },
        ) => {
            let word = told(word.as_slice());
            Err(format!(in alloc; "unfit {line} unknown {word}")?)
        }
        Err(Unfit { line, kind }) => Err(format!(in alloc; "unfit {line} {kind:?}")?),
    })
}

/// What is said of a submission to an exercise.
pub fn submission_said(alloc: Global, text: &str, submission: &str) -> Result<String, Fail> {
    Ok(match trials_in(alloc, text)? {
        Ok(trials) => match judge(alloc, trials.as_slice(), submission.as_bytes()) {
            Verdict::Passed => format!(in alloc; "passed")?,
            Verdict::Failed { input, wrong, .. } => {
                let wrong = wrong_said(alloc, &wrong)?;
                format!(in alloc; "{input} {wrong}")?
            }
        },
        Err(said) => said,
    })
}

fn wrong_said(alloc: Global, wrong: &Wrong) -> Result<String, AllocError> {
    match wrong {
        Wrong::Missing(line) => format!(in alloc; "missing {}", told(line.as_slice())),
        Wrong::Program(refusal) => format!(in alloc; "{refusal:?}"),
        Wrong::Conflict {
            line,
            place,
            first,
            second,
        } => format!(in alloc;
            "conflict line={line} place={} processors={first},{second}",
            told(place.as_slice())
        ),
        Wrong::Value {
            place,
            held,
            wanted,
        } => format!(in alloc; "{} holds {held}, wanted {wanted}", told(place.as_slice())),
        Wrong::Bar { bar, took, most } => format!(in alloc; "{bar:?} {took} of {most}"),
        Wrong::Model {
            needs,
            allowed,
            sharing,
            line,
            place,
            first,
            second,
        } => format!(in alloc;
            "{needs:?} for {allowed:?} {sharing:?} line={line} place={} processors={first},{second}",
            told(place.as_slice())
        ),
        Wrong::Gone { processor, line } => {
            format!(in alloc; "processor {processor} gone line={line}")
        }
        Wrong::Places { name, has, wanted } => {
            format!(in alloc; "{} length {has}, wanted {wanted}", told(name.as_slice()))
        }
        Wrong::Memory => format!(in alloc; "memory"),
    }
}
