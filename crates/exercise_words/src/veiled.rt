//! What is wrong with a submission under a hidden input, in words.
ghost use Rattle.std.specs.Prelude.{◌≡◌, ◌++◌, IfOk, OnOk, codes, decimal};
ghost use Rattle.exercise_words.specs.Words.{IsAtLine, IsVeiledSaid, excess_words, refused_line};
ghost use Rattle.exercise_words.specs.Words.{pair_in};

use crate::parts::push_at_line;
use crate::wrong::{deed_of, line_of, missing_words, model_words};
use exercise_judge::{Bar, Wrong};
use pardo_job::Refusal;
use pram_streams::push_labelled;
use refusals::sentences::of_program;
use std::alloc::{AllocError, Global};

/// The kind of what is wrong, and its line.
pub(crate) fn veiled_words(alloc: Global, wrong: &Wrong) -> Result<Vec<u8>, AllocError>
    ensures { IfOk result (λ words. IsVeiledSaid wrong.now words.items) }
{
    match wrong {
        Wrong::Missing(line) => missing_words(alloc, line.as_slice()),
        Wrong::Program(refusal) => refusal_words(alloc, *refusal),
        Wrong::Conflict { line, .. } => {
            let mut words = Vec::new(alloc);
            push_pair_in(&mut words, b" write ", *line)?;
            words.extend_from_slice(b", against the rule")?;
            Ok(words)
        }
        Wrong::Value { .. } => Vec::from_slice(alloc, b"a value is not the one that is wanted"),
        Wrong::Bar { bar, .. } => Vec::from_slice(alloc, excess_words(*bar).as_bytes()),
        Wrong::Model {
            needs,
            allowed,
            sharing,
            line,
            ..
        } => {
            let mut words = model_words(alloc, *needs, *allowed)?;
            push_pair_in(&mut words, deed_of(*sharing).as_bytes(), *line)?;
            Ok(words)
        }
        Wrong::Gone { line, .. } => {
            let mut words = Vec::new(alloc);
            push_labelled(&mut words, b"a processor is gone in line ", *line)?;
            Ok(words)
        }
        Wrong::Places { .. } => Vec::from_slice(alloc, b"a length is not the one that is wanted"),
        Wrong::Memory => Vec::from_slice(alloc, b"out of memory"),
    }
}

// The sentence hangs on the kind of the refusal alone.
fn refusal_words(alloc: Global, refusal: Refusal) -> Result<Vec<u8>, AllocError>
    ensures { IfOk result (λ words. IsAtLine (refused_line refusal) words.items) }
{
    let mut words = Vec::new(alloc);
    push_at_line(&mut words, line_of(refusal))?;
    words.extend_from_slice(of_program(refusal).1.as_bytes())?;
    Ok(words)
}

fn push_pair_in(words: &mut Vec<u8>, deed: &[u8], line: u64) -> Result<(), AllocError>
    ensures { OnOk result (words.new.items ≡ words.old.items ++ pair_in deed.now line) }
{
    words.extend_from_slice(b"two processors")?;
    words.extend_from_slice(deed)?;
    push_labelled(words, b"one place in line ", line)
}

fn excess_words(bar: Bar) -> &'static str
    ensures { result.now ≡ excess_words bar }
{
    match bar {
        Bar::Time => "it takes too much time",
        Bar::Operations => "it takes too many operations",
        Bar::Steps => "it takes too many steps of the machine",
        Bar::Lines => "it has too many lines of code",
    }
}
