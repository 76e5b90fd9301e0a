//! The entries of an exercise while its lines are read.
ghost use Rattle.std.specs.Prelude.{◌≡◌, IfOk};
ghost use Rattle.std.specs.List.{list_any};
ghost use Rattle.exercise_text.specs.Entries.{has_key};
ghost use Rattle.exercise_text.specs.Inner.Gives.{GivesSeen};
ghost use Rattle.exercise_text.specs.Reading.{entries_of, tells_wanted, no_entry, with_entry};
ghost use Rattle.exercise_text.specs.Reading.{with_indented, with_key, draft_with};
ghost use Rattle.exercise_text.specs.Reading.{is_indented, is_lawful, is_note, key_of};

use crate::entry::Entry;
use crate::exercise::Exercise;
use crate::fault::ExerciseKind;
use crate::key::Key;
use crate::words::{bar_in, model_in, number_in, says_allowed, split_word};
use std::alloc::{AllocError, Global};
use std::marker::Model;
use std::mem;
use text_lines::{has_words, is_blank, is_lawful};

/// The entries before the one to which indented lines belong, and that one.
#[derive(Drop)]
pub(crate) struct Draft {
    done: Vec<Entry>,
    last: Entry,
}

impl Model for Draft {
    ghost use Rattle.exercise_text.specs.Reading.{DraftData};

    ghost Value = { DraftData };

    ghost view = { λ d. record { done = d.done.items; last = d.last } };
}

impl Draft {
    pub(crate) fn new(alloc: Global) -> Self
        ensures { result ≡ no_entry }
    {
        Draft {
            done: Vec::new(alloc),
            last: Entry::new(Key::Note, 1, Vec::new(alloc)),
        }
    }

    /// All entries.
    pub(crate) fn into_exercise(self) -> Result<Exercise, AllocError>
        ensures { IfOk result (λ exercise. exercise ≡ entries_of self) }
    {
        let Draft { mut done, last } = self;
        done.push(last)?;
        Ok(Exercise::of(done))
    }

    /// Reads one line more, which has this number.
    #[tactic(auto, unfolding(crate::specs::Reading::draft_with))]
    pub(crate) fn take_line(&mut self, number: u64, line: &[u8]) -> Result<(), ExerciseKind>
        ensures { GivesSeen (λ _. self.new) result (draft_with number line.now self.old) }
    {
        if !is_lawful(line) {
            return Err(ExerciseKind::NotAscii);
        }
        if is_indented(line) {
            return self.take_indented(line);
        }
        let (_, text) = split_word(line);
        self.take_key(number, key_of(line), text)
    }

    fn take_indented(&mut self, line: &[u8]) -> Result<(), ExerciseKind>
        ensures { GivesSeen (λ _. self.new) result (with_indented line.now self.old) }
    {
        if self.last.key().is_part() {
            self.last.push_line(line)?;
            return Ok(());
        }
        if has_words(line) {
            return Err(ExerciseKind::BadLine);
        }
        Ok(())
    }

    fn take_key(&mut self, number: u64, key: Option<Key>, text: &[u8]) -> Result<(), ExerciseKind>
        ensures { GivesSeen (λ _. self.new) result (with_key number key text.now self.old) }
    {
        match key {
            None => Err(ExerciseKind::UnknownKey),
            Some(key) => self.take_entry(number, key, text),
        }
    }

    fn take_entry(&mut self, number: u64, key: Key, text: &[u8]) -> Result<(), ExerciseKind>
        ensures { GivesSeen (λ _. self.new) result (with_entry number key text.now self.old) }
    {
        if self.is_told(key) {
            return Err(ExerciseKind::Duplicate);
        }
        if !says_enough(key, text) {
            return Err(ExerciseKind::BadLine);
        }
        let alloc = *self.done.allocator();
        let mut own = Vec::new(alloc);
        if !key.is_part() {
            own.extend_from_slice(text)?;
        }
        let before = mem::replace(&mut self.last, Entry::new(key, number, own));
        self.done.push(before)?;
        Ok(())
    }

    fn is_told(&self, key: Key) -> bool
        ensures { result ≡ tells_wanted key self.now }
    {
        key.is_once() && (self.was_told(key) || self.last.has_key(key))
    }

    fn was_told(&self, key: Key) -> bool
        ensures { result ≡ list_any (has_key key) self.now.done }
    {
        self.done.iter().any(|entry| entry.has_key(key))
    }
}

// Whether what stands behind the first word is what that asks for.
fn says_enough(key: Key, text: &[u8]) -> bool
    ensures { result ≡ is_lawful key text.now }
{
    match key {
        Key::Model => model_in(text).is_some(),
        Key::Time | Key::Operations | Key::Steps => bar_in(text).is_some(),
        Key::Lines => number_in(text).is_some(),
        Key::Want => has_words(text),
        Key::Gone => says_allowed(text),
        Key::Given | Key::Start | Key::Reference => !has_words(text),
        _ => true,
    }
}

fn is_indented(line: &[u8]) -> bool
    ensures { result ≡ is_indented line.now }
{
    match line.first() {
        None => true,
        Some(byte) => is_blank(*byte),
    }
}

fn is_note(line: &[u8]) -> bool
    ensures { result ≡ is_note line.now }
{
    matches!(line, [b';', ..])
}

// What a line says that is not indented, by its first word.
fn key_of(line: &[u8]) -> Option<Key>
    ensures { result ≡ key_of line.now }
{
    if is_note(line) {
        return Some(Key::Note);
    }
    Key::named(split_word(line).0)
}
