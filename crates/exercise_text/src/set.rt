//! The header of an exercise as the words of an input set it.
ghost use Rattle.std.specs.Prelude.{◌≡◌, ◌++◌, ◌==◌, find, IfOk, OnOk};
ghost use Rattle.std.specs.List.{list_any, position};
ghost use Rattle.std.specs.Option.{option_map};
ghost use Rattle.text_lines.specs.Lines.{lines_of, words_of};
ghost use Rattle.exercise_text.specs.Sets.{after_equals, before_comment, before_equals};
ghost use Rattle.exercise_text.specs.Sets.{is_settable, is_settable_by, line_as_input};
ghost use Rattle.exercise_text.specs.Sets.{array_places};
ghost use Rattle.exercise_text.specs.Sets.{input_set_to, sets_none, size_named, text_as_input};
ghost use Rattle.exercise_text.specs.Sets.{unknown_word, with_values};

use crate::is_arrow;
use crate::line_key::line_key;
use crate::thrown::{after_first, push_values};
use std::alloc::{AllocError, Global};
use std::marker::Model;
use text_lines::{TextLines, is_word, next_word};

/// How many places an array has.
#[derive(Drop)]
pub struct Size {
    pub name: Vec<u8>,
    pub places: u64,
}

impl Model for Size {
    ghost use Rattle.exercise_text.specs.Sets.{SizeData};

    ghost Value = { SizeData };

    ghost view = { λ s. record { name = s.name.items; places = s.places } };
}

/// The lines of a header as the words NAME=TEXT of an input set it, up to `->`; each with a line
/// feed after it. A text `any:SEED:BELOW` stands for as many thrown values as the name has places,
/// or for one and `...` where that is not known.
///
/// For each line that declares something the words are gone through.
#[tactic(auto, unfolding(crate::specs::Sets::text_as_input))]
pub fn set_text(
    alloc: Global,
    sizes: &[Size],
    words: &[u8],
    text: &[u8],
) -> Result<Vec<u8>, AllocError>
    ensures { IfOk result (λ set. set.items
        ≡ text_as_input sizes.now (words_of words.now) text.now) }
{
    let mut set = Vec::new(alloc);
    let mut lines = TextLines::new(text);
    while let Some(line) = lines.take_line() {
        push_line(&mut set, sizes, words, line)?;
        set.push(b'\n')?;
    }
    Ok(set)
}

// Adds a line as it is set.
fn push_line(set: &mut Vec<u8>, sizes: &[Size], words: &[u8], line: &[u8]) -> Result<(), AllocError>
    ensures { OnOk result (set.new.items
        ≡ set.old.items ++ line_as_input sizes.now (words_of words.now) line.now) }
{
    match line_key(line) {
        None => set.extend_from_slice(line),
        Some((word, name)) => {
            if is_settable(word) {
                push_with(set, line, places_of(sizes, name), set_to(words, name))
            } else {
                set.extend_from_slice(line)
            }
        }
    }
}

fn push_with(
    set: &mut Vec<u8>,
    line: &[u8],
    places: u64,
    text: Option<&[u8]>,
) -> Result<(), AllocError>
    ensures { OnOk result (set.new.items ≡ set.old.items
        ++ with_values line.now places (option_map (λ text. text.now) text.entry)) }
{
    match text {
        None => set.extend_from_slice(line),
        Some(text) => {
            set.extend_from_slice(at_equals(before_comment(line)).0)?;
            set.extend_from_slice(b"= ")?;
            push_values(set, places, text)
        }
    }
}

// Where the comment of a line begins.
fn comment_start(line: &[u8]) -> Option<usize>
    ensures { result ≡ position (λ byte. byte == 59) line.now }
{
    line.iter().position(|&byte| byte == b';')
}

fn before_comment(line: &[u8]) -> &[u8]
    ensures { result.now ≡ before_comment line.now }
{
    line.split_at(comment_start(line).unwrap_or(line.len())).0
}

fn is_settable(word: &[u8]) -> bool
    ensures { result ≡ is_settable word.now }
{
    is_word(word, "const") || is_word(word, "shared")
}

fn equals(word: &[u8]) -> Option<usize>
    ensures { result ≡ position (λ byte. byte == 61) word.now }
{
    word.iter().position(|&byte| byte == b'=')
}

// What stands before the first `=` and after it.
fn at_equals(word: &[u8]) -> (&[u8], &[u8])
    ensures before { result.0.now ≡ before_equals word.now }
    ensures after { result.1.now ≡ after_equals word.now }
{
    let (front, rest) = word.split_at(equals(word).unwrap_or(word.len()));
    (front, after_first(rest))
}

// What a name is set to.
fn set_to<'a>(words: &'a [u8], name: &[u8]) -> Option<&'a [u8]>
    ensures { option_map (λ text. text.now) result ≡ input_set_to (words_of words.now) name.now }
{
    let mut left = words;
    while let Some((word, rest)) = next_word(left) {
        if is_arrow(word) {
            return None;
        }
        let (front, back) = at_equals(word);
        if front == name {
            return Some(back);
        }
        left = rest;
    }
    None
}

fn size_named<'a>(sizes: &'a [Size], name: &[u8]) -> Option<&'a Size>
    ensures { option_map (λ size. size.now) result ≡ size_named sizes.now name.now }
{
    sizes.iter().find(|size| size.name.as_slice() == name)
}

// How many places a name has.
fn places_of(sizes: &[Size], name: &[u8]) -> u64
    ensures { result ≡ array_places sizes.now name.now }
{
    match size_named(sizes, name) {
        None => 1,
        Some(size) => size.places,
    }
}

/// The first word of an input, also behind the first `->`, that sets no name that a header
/// declares.
///
/// For each word the lines of the header are gone through.
pub fn unknown_word<'a>(header: &[u8], words: &'a [u8]) -> Option<&'a [u8]>
    ensures { option_map (λ word. word.now) result
        ≡ unknown_word header.now (words_of words.now) }
{
    let mut left = words;
    while let Some((word, rest)) = next_word(left) {
        if is_arrow(word) {
            return unknown_among(header, rest);
        }
        if sets_none(header, word) {
            return Some(word);
        }
        left = rest;
    }
    None
}

// The first of the words that sets no name that the header declares.
fn unknown_among<'a>(header: &[u8], words: &'a [u8]) -> Option<&'a [u8]>
    ensures { option_map (λ word. word.now) result
        ≡ find (sets_none (lines_of header.now)) (words_of words.now) }
{
    let mut left = words;
    while let Some((word, rest)) = next_word(left) {
        if sets_none(header, word) {
            return Some(word);
        }
        left = rest;
    }
    None
}

fn sets_none(header: &[u8], word: &[u8]) -> bool
    ensures { result ≡ sets_none (lines_of header.now) word.now }
{
    !is_set_in(header, word)
}

// Whether a line of the header declares what a word sets.
fn is_set_in(header: &[u8], word: &[u8]) -> bool
    ensures { result ≡ list_any (is_settable_by word.now) (lines_of header.now) }
{
    let mut lines = TextLines::new(header);
    while let Some(line) = lines.take_line() {
        if is_settable_by(word, line) {
            return true;
        }
    }
    false
}

fn is_settable_by(word: &[u8], line: &[u8]) -> bool
    ensures { result ≡ is_settable_by word.now line.now }
{
    match line_key(line) {
        None => false,
        Some((first, name)) => is_settable(first) && at_equals(word).0 == name,
    }
}
