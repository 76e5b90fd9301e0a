//! What an entry of an exercise says, by its first word.
ghost use Rattle.std.specs.Prelude.{◌≡◌, ◌≢◌, Some};
ghost use Rattle.exercise_text.specs.Keys.{bar_key, is_bar, is_input, is_once, is_part, key_named};
ghost use Rattle.exercise_text.specs.Keys.{part_key, key_place, said_key};
ghost use Rattle.exercise_text.specs.declared.key.Key.TheVariants.{Note};

use text_lines::is_word;

/// What an entry of an exercise says.
#[derive(Clone, Copy, Debug, PartialEq, Eq)]
pub enum Key {
    /// Nothing: a comment.
    Note,
    /// The title.
    Title,
    /// A line of the task in words.
    Task,
    /// The weakest model that is allowed.
    Model,
    /// The names whose values are wanted.
    Want,
    /// The bar of the time.
    Time,
    /// The bar of the operations.
    Operations,
    /// The bar of the machine's steps.
    Steps,
    /// The bar of the lines of code.
    Lines,
    /// The header that is the exercise's.
    Given,
    /// What a learner begins with.
    Start,
    /// A program that does what is wanted.
    Reference,
    /// Settings of a run.
    Input,
    /// Settings of a run that learners are not shown.
    Hidden,
    /// That processors may leave in a run.
    Gone,
}

impl Key {
    /// The key that a word names.
    pub(crate) fn named(word: &[u8]) -> Option<Key>
        ensures { result ≡ key_named word.now }
    {
        if let Some(key) = said_key(word) {
            Some(key)
        } else if let Some(key) = bar_key(word) {
            Some(key)
        } else {
            part_key(word)
        }
    }

    /// The word that names it, or what begins a comment.
    pub fn word(self) -> &'static str
        ensures { self ≢ Note → key_named result.now ≡ Some self }
    {
        match self {
            Key::Note => ";",
            Key::Title => "title",
            Key::Task => "task",
            Key::Model => "model",
            Key::Want => "want",
            Key::Time => "time",
            Key::Operations => "operations",
            Key::Steps => "steps",
            Key::Lines => "lines",
            Key::Given => "given",
            Key::Start => "start",
            Key::Reference => "reference",
            Key::Input => "input",
            Key::Hidden => "hidden",
            Key::Gone => "gone",
        }
    }

    /// Its place among the keys, which tells it from the others.
    pub(crate) fn place(self) -> u8
        ensures { result ≡ key_place self }
    {
        match self {
            Key::Note => 0,
            Key::Title => 1,
            Key::Task => 2,
            Key::Model => 3,
            Key::Want => 4,
            Key::Time => 5,
            Key::Operations => 6,
            Key::Steps => 7,
            Key::Lines => 8,
            Key::Given => 9,
            Key::Start => 10,
            Key::Reference => 11,
            Key::Input => 12,
            Key::Hidden => 13,
            Key::Gone => 14,
        }
    }

    /// Whether lines of a program follow.
    pub fn is_part(self) -> bool
        ensures { result ≡ is_part self }
    {
        matches!(self, Key::Given | Key::Start | Key::Reference)
    }

    /// Whether it is the settings of a run.
    pub fn is_input(self) -> bool
        ensures { result ≡ is_input self }
    {
        matches!(self, Key::Input | Key::Hidden)
    }

    /// Whether an expression bounds what a run costs.
    pub fn is_bar(self) -> bool
        ensures { result ≡ is_bar self }
    {
        matches!(self, Key::Time | Key::Operations | Key::Steps)
    }

    /// Whether it stands once at most.
    pub(crate) fn is_once(self) -> bool
        ensures { result ≡ is_once self }
    {
        !matches!(self, Key::Note | Key::Task | Key::Input | Key::Hidden)
    }
}

fn said_key(word: &[u8]) -> Option<Key>
    ensures { result ≡ said_key word.now }
{
    if is_word(word, "title") {
        Some(Key::Title)
    } else if is_word(word, "task") {
        Some(Key::Task)
    } else if is_word(word, "model") {
        Some(Key::Model)
    } else if is_word(word, "want") {
        Some(Key::Want)
    } else if is_word(word, "gone") {
        Some(Key::Gone)
    } else {
        None
    }
}

fn bar_key(word: &[u8]) -> Option<Key>
    ensures { result ≡ bar_key word.now }
{
    if is_word(word, "time") {
        Some(Key::Time)
    } else if is_word(word, "operations") {
        Some(Key::Operations)
    } else if is_word(word, "steps") {
        Some(Key::Steps)
    } else if is_word(word, "lines") {
        Some(Key::Lines)
    } else {
        None
    }
}

fn part_key(word: &[u8]) -> Option<Key>
    ensures { result ≡ part_key word.now }
{
    if is_word(word, "given") {
        Some(Key::Given)
    } else if is_word(word, "start") {
        Some(Key::Start)
    } else if is_word(word, "reference") {
        Some(Key::Reference)
    } else if is_word(word, "input") {
        Some(Key::Input)
    } else if is_word(word, "hidden") {
        Some(Key::Hidden)
    } else {
        None
    }
}
