//! A submission with the header of an exercise.
ghost use Rattle.std.specs.Prelude.{◌≡◌, find, IfOk};
ghost use Rattle.std.specs.List.{list_any};
ghost use Rattle.std.specs.Option.{option_map};
ghost use Rattle.text_lines.specs.Lines.{lines_of};
ghost use Rattle.text_lines.specs.TextLines.{left_of};
ghost use Rattle.exercise_text.specs.LineKeys.{has_line_key};
ghost use Rattle.exercise_text.specs.Submissions.{code_lines, begins_code, is_header_word};
ghost use Rattle.exercise_text.specs.Submissions.{after_code, is_missing, judged_text};
ghost use Rattle.exercise_text.specs.Submissions.{line_judged, missing_line};

use crate::line_key::{declares, has_line_key, line_key};
use std::alloc::{AllocError, Global};
use text_lines::{TextLines, has_words, is_word, one_word};

/// The text that is judged: each given line in the place of the submission's that is told by the
/// same, all other lines as they stand, and a line feed after each.
///
/// The time is linear in the submission, and for each line of a header in the given ones.
#[tactic(auto, unfolding(crate::specs::Submissions::judged_text))]
pub fn judged_text(alloc: Global, given: &[u8], submission: &[u8]) -> Result<Vec<u8>, AllocError>
    ensures { IfOk result (λ text. text.items ≡ judged_text given.now submission.now) }
{
    let mut text = Vec::new(alloc);
    let mut lines = TextLines::new(submission);
    while let Some(line) = lines.take_line() {
        text.extend_from_slice(line_judged(given, line))?;
        text.push(b'\n')?;
    }
    Ok(text)
}

fn line_judged<'a>(given: &'a [u8], line: &'a [u8]) -> &'a [u8]
    ensures { result.now ≡ line_judged (lines_of given.now) line.now }
{
    match line_key(line) {
        None => line,
        Some((word, name)) => {
            if is_header_word(word) {
                line_told(given, word, name).unwrap_or(line)
            } else {
                line
            }
        }
    }
}

fn is_header_word(word: &[u8]) -> bool
    ensures { result ≡ is_header_word word.now }
{
    is_word(word, "pardo") || is_word(word, "rule") || declares(word)
}

// The first line that is told by this.
fn line_told<'a>(text: &'a [u8], word: &[u8], name: &[u8]) -> Option<&'a [u8]>
    ensures { option_map (λ line. line.now) result
        ≡ find (has_line_key (word.now, name.now)) (lines_of text.now) }
{
    let mut lines = TextLines::new(text);
    while let Some(line) = lines.take_line() {
        if has_line_key(line, word, name) {
            return Some(line);
        }
    }
    None
}

// Whether a line is told by this.
fn is_told(text: &[u8], word: &[u8], name: &[u8]) -> bool
    ensures { result ≡ list_any (has_line_key (word.now, name.now)) (lines_of text.now) }
{
    let mut lines = TextLines::new(text);
    while let Some(line) = lines.take_line() {
        if has_line_key(line, word, name) {
            return true;
        }
    }
    false
}

fn is_missing(submission: &[u8], line: &[u8]) -> bool
    ensures { result ≡ is_missing (lines_of submission.now) line.now }
{
    match line_key(line) {
        None => false,
        Some((word, name)) => !is_told(submission, word, name),
    }
}

/// The first given line that the submission does not have.
pub fn missing_line<'a>(given: &'a [u8], submission: &[u8]) -> Option<&'a [u8]>
    ensures { option_map (λ line. line.now) result ≡ missing_line given.now submission.now }
{
    let mut lines = TextLines::new(given);
    while let Some(line) = lines.take_line() {
        if is_missing(submission, line) {
            return Some(line);
        }
    }
    None
}

fn is_code(line: &[u8]) -> bool
    ensures { result ≡ begins_code line.now }
{
    match one_word(line) {
        None => false,
        Some(word) => is_word(word, "code"),
    }
}

// Takes the lines up to the first `code`.
fn skip_header(lines: &mut TextLines<'_>)
    ensures { left_of lines.new ≡ after_code (left_of lines.old) }
{
    while let Some(line) = lines.take_line() {
        if is_code(line) {
            return;
        }
    }
}

/// How many lines with words stand after `code`.
pub fn code_lines(text: &[u8]) -> u64
    ensures { result ≡ code_lines text.now }
{
    let mut lines = TextLines::new(text);
    skip_header(&mut lines);
    let mut count = 0;
    while let Some(line) = lines.take_line() {
        if has_words(line) {
            count += 1;
        }
    }
    count
}
