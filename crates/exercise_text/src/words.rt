//! The words of a line.
ghost use Rattle.std.specs.Prelude.{◌≡◌, not};
ghost use Rattle.std.specs.List.{list_all, position};
ghost use Rattle.std.specs.Option.{option_map};
ghost use Rattle.text_lines.specs.Lines.{is_blank, words_of};
ghost use Rattle.std.specs.Char.{is_ascii_digit};
ghost use Rattle.pram_cost.specs.Beyond.{model_named};
ghost use Rattle.exercise_text.specs.Entries.{answer_of, bar_in, digits_in, is_arrow, model_in};
ghost use Rattle.exercise_text.specs.Entries.{number_after, rest_of_word, says_allowed, trimmed};
ghost use Rattle.exercise_text.specs.Entries.{first_word};

use pram_cost::Pram;
use std::str::from_utf8;
use text_lines::{is_blank, is_word, next_word, one_word, value_of};

/// The first word of a line, which ends before the first blank, and what follows it after blanks.
pub(crate) fn split_word(line: &[u8]) -> (&[u8], &[u8])
    ensures word { result.0.now ≡ first_word line.now }
    ensures rest { result.1.now ≡ rest_of_word line.now }
{
    let (word, rest) = line.split_at(word_end(line).unwrap_or(line.len()));
    (word, trimmed(rest))
}

// Where the first blank stands.
fn word_end(line: &[u8]) -> Option<usize>
    ensures { result ≡ position is_blank line.now }
{
    line.iter().position(|&byte| is_blank(byte))
}

// Where the first byte stands that is no blank.
fn word_start(line: &[u8]) -> Option<usize>
    ensures { result ≡ position (λ byte. not (is_blank byte)) line.now }
{
    line.iter().position(|&byte| !is_blank(byte))
}

fn trimmed(line: &[u8]) -> &[u8]
    ensures { result.now ≡ trimmed line.now }
{
    line.split_at(word_start(line).unwrap_or(line.len())).1
}

/// The model that the one word of a text names.
pub(crate) fn model_in(text: &[u8]) -> Option<Pram>
    ensures { result ≡ model_in text.now }
{
    model_named(one_word(text)?)
}

fn model_named(word: &[u8]) -> Option<Pram>
    ensures { result ≡ model_named word.now }
{
    match from_utf8(word) {
        Ok(word) => Pram::named(word),
        Err(_) => None,
    }
}

/// What follows `<=`.
pub(crate) fn bar_in(text: &[u8]) -> Option<&[u8]>
    ensures { option_map (λ bar. bar.now) result ≡ bar_in text.now }
{
    let (word, rest) = split_word(text);
    if is_word(word, "<=") {
        Some(rest)
    } else {
        None
    }
}

/// The number that follows `<=`.
pub(crate) fn number_in(text: &[u8]) -> Option<u64>
    ensures { result ≡ number_after text.now }
{
    digits_in(one_word(bar_in(text)?)?)
}

// The number that digits spell.
fn digits_in(word: &[u8]) -> Option<u64>
    ensures { result ≡ digits_in word.now }
{
    if are_digits(word) {
        Some(value_of(word))
    } else {
        None
    }
}

fn are_digits(word: &[u8]) -> bool
    ensures { result ≡ list_all is_ascii_digit word.now }
{
    word.iter().all(|byte| byte.is_ascii_digit())
}

/// Whether a text is the one word `allowed`.
pub(crate) fn says_allowed(text: &[u8]) -> bool
    ensures { result ≡ says_allowed text.now }
{
    match one_word(text) {
        None => false,
        Some(word) => is_word(word, "allowed"),
    }
}

/// What the text of an input says behind `->`, if that stands there.
pub fn answer_in(text: &[u8]) -> Option<&[u8]>
    ensures { option_map (λ answer. words_of answer.now) result ≡ answer_of (words_of text.now) }
{
    let mut rest = text;
    while let Some((word, after)) = next_word(rest) {
        if is_arrow(word) {
            return Some(after);
        }
        rest = after;
    }
    None
}

/// Whether a word is `->`.
pub fn is_arrow(word: &[u8]) -> bool
    ensures { result ≡ is_arrow word.now }
{
    is_word(word, "->")
}
