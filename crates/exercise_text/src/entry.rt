//! The entries of an exercise.
ghost use Rattle.std.specs.Prelude.{◌≡◌, ◌++◌, ◌∷◌, [], OnOk};
ghost use Rattle.exercise_text.specs.Entries.{has_key};
ghost use Rattle.exercise_text.specs.Reading.{is_unanswered};
ghost use Rattle.exercise_text.specs.declared.key.Key.TheVariants.{Hidden};

use crate::key::Key;
use crate::words::answer_in;
use std::alloc::AllocError;
use std::marker::Model;

/// What a line says, the number of the line, and what follows its first word; of a part its lines,
/// each with a line feed after it.
#[derive(Drop)]
pub struct Entry {
    key: Key,
    number: u64,
    text: Vec<u8>,
}

impl Model for Entry {
    ghost use Rattle.exercise_text.specs.Entries.{EntryData};

    ghost Value = { EntryData };

    ghost view = { λ e. record { key = e.key; number = e.number; text = e.text.items } };
}

impl Entry {
    pub(crate) fn new(key: Key, number: u64, text: Vec<u8>) -> Self
        ensures { result ≡ record { key = key; number = number; text = text.items } }
    {
        Entry { key, number, text }
    }

    /// What it says.
    pub fn key(&self) -> Key
        ensures { result ≡ self.now.key }
    {
        self.key
    }

    /// The number of its line, counted from 1.
    pub fn number(&self) -> u64
        ensures { result ≡ self.now.number }
    {
        self.number
    }

    /// What follows its first word, or the lines of a part.
    pub fn text(&self) -> &[u8]
        ensures { result.now ≡ self.now.text }
    {
        self.text.as_slice()
    }

    /// Adds a line of a part.
    pub(crate) fn push_line(&mut self, line: &[u8]) -> Result<(), AllocError>
        ensures { OnOk result (self.new
            ≡ record self.old { text = self.old.text ++ line.now ++ 10 ∷ [] }) }
    {
        self.text.extend_from_slice(line)?;
        self.text.push(b'\n')?;
        Ok(())
    }

    /// Whether it says this.
    pub(crate) fn has_key(&self, key: Key) -> bool
        ensures { result ≡ has_key key self.now }
    {
        self.key.place() == key.place()
    }

    /// Whether it is an input that learners are not shown.
    pub fn is_hidden(&self) -> bool
        ensures { result ≡ has_key Hidden self.now }
    {
        self.has_key(Key::Hidden)
    }

    /// Whether it is an input that does not say what is wanted.
    pub(crate) fn is_unanswered(&self) -> bool
        ensures { result ≡ is_unanswered self.now }
    {
        self.key.is_input() && answer_in(self.text()).is_none()
    }
}
