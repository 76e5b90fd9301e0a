//! Exercises.
ghost use Rattle.std.specs.Prelude.{◌≡◌, ◌≢◌, IfErr, find};
ghost use Rattle.std.specs.Option.{option_and_then, option_map};
ghost use Rattle.exercise_text.specs.Entries.{bar_in, first_entry, may_leave, model_in};
ghost use Rattle.exercise_text.specs.Entries.{entry_text, number_after};
ghost use Rattle.exercise_text.specs.Reading.{read_to_end, is_unanswered, has_no};
ghost use Rattle.exercise_text.specs.Reading.{needed};
ghost use Rattle.exercise_text.specs.declared.key.Key.TheVariants.{Lines, Model as ModelKey};

use crate::entry::Entry;
use crate::fault::{ExerciseFault, ExerciseKind};
use crate::key::Key;
use crate::words::{bar_in, model_in, number_in};
use pram_cost::Pram;
use std::marker::Model;

/// The entries of an exercise, in their order.
#[derive(Drop)]
pub struct Exercise {
    entries: Vec<Entry>,
}

impl Model for Exercise {
    ghost use Rattle.std.specs.Prelude.{List};
    ghost use Rattle.exercise_text.specs.Entries.{EntryData};

    ghost Value = { List EntryData };

    ghost view = { λ e. e.entries.items };
}

impl Exercise {
    pub(crate) fn of(entries: Vec<Entry>) -> Self
        ensures { result ≡ entries.items }
    {
        Exercise { entries }
    }

    /// All entries, in their order.
    pub fn entries(&self) -> &[Entry]
        ensures { result.now ≡ self.now }
    {
        self.entries.as_slice()
    }

    /// The first entry of this key.
    pub fn entry(&self, key: Key) -> Option<&Entry>
        ensures { option_map (λ entry. entry.now) result ≡ first_entry key self.now }
    {
        self.entries.iter().find(|entry| entry.has_key(key))
    }

    /// What the first entry of this key says, or the lines of that part.
    pub fn text(&self, key: Key) -> Option<&[u8]>
        ensures { option_map (λ text. text.now) result ≡ entry_text key self.now }
    {
        let entry = self.entry(key)?;
        Some(entry.text())
    }

    /// The expression of a bar, if the exercise has it.
    pub fn bar(&self, key: Key) -> Option<&[u8]>
        ensures { option_map (λ bar. bar.now) result
            ≡ option_and_then bar_in (entry_text key self.now) }
    {
        bar_in(self.text(key)?)
    }

    /// How many lines of code are allowed, if the exercise says it.
    pub fn most_lines(&self) -> Option<u64>
        ensures { result ≡ option_and_then number_after (entry_text Lines self.now) }
    {
        number_in(self.text(Key::Lines)?)
    }

    /// The weakest model that is allowed, if the exercise names one.
    pub fn model(&self) -> Option<Pram>
        ensures { result ≡ option_and_then model_in (entry_text ModelKey self.now) }
    {
        model_in(self.text(Key::Model)?)
    }

    /// Whether processors may leave in a run.
    pub fn may_leave(&self) -> bool
        ensures { result ≡ may_leave self.now }
    {
        self.entry(Key::Gone).is_some()
    }

    fn lacks(&self, key: Key) -> bool
        ensures { result ≡ has_no self.now key }
    {
        self.entry(key).is_none()
    }

    // The first key that it needs and does not have.
    fn first_lack(&self) -> Option<Key>
        ensures { result ≡ find (has_no self.now) needed }
    {
        if self.lacks(Key::Title) {
            Some(Key::Title)
        } else if self.lacks(Key::Want) {
            Some(Key::Want)
        } else if self.lacks(Key::Given) {
            Some(Key::Given)
        } else if self.lacks(Key::Start) {
            Some(Key::Start)
        } else if self.lacks(Key::Input) {
            Some(Key::Input)
        } else {
            None
        }
    }

    // The line of the first input that does not say what is wanted.
    fn unanswered(&self) -> Option<u64>
        ensures { result ≡ option_map (λ entry. entry.number) (find is_unanswered self.now) }
    {
        let entry = self.entries.iter().find(|entry| entry.is_unanswered())?;
        Some(entry.number())
    }

    /// The exercise, of a text of so many lines, if it lacks nothing.
    #[tactic(auto, unfolding(crate::specs::Reading::read_to_end))]
    pub(crate) fn finished(self, number: u64) -> Result<Exercise, ExerciseFault>
        ensures finished { read_to_end number self ≡ result }
        ensures fault { IfErr result (λ fault. fault.kind ≢ ExerciseKind.Memory) }
    {
        if let Some(key) = self.first_lack() {
            let kind = ExerciseKind::Missing(key);
            return Err(ExerciseFault { line: number, kind });
        }
        if !self.lacks(Key::Reference) {
            return Ok(self);
        }
        match self.unanswered() {
            None => Ok(self),
            Some(line) => {
                let kind = ExerciseKind::NoAnswer;
                Err(ExerciseFault { line, kind })
            }
        }
    }
}
