//! Settings: values that constants and arrays are given from outside.
ghost use Rattle.std.specs.Prelude.{◌≡◌, ◌==◌, ◌<◌, [], ◌∷◌, length, IfSome, OnOk};
ghost use Rattle.std.specs.List.{position, slice_split};
ghost use Rattle.std.specs.Option.{option_map};
ghost use Rattle.text_lines.specs.Lines.{lines_of};
ghost use Rattle.pardo_text.specs.Settings.{alone, field_value, fields_in, first_in, names_one};
ghost use Rattle.pardo_text.specs.Settings.{set_to, setting_of};
ghost use Rattle.pardo_text.specs.Settings.{before_end, some_of, values_listed, values_spelled};
ghost use Rattle.pardo_text.specs.Settings.{with_fields, with_first};
ghost use Rattle.pardo_text.specs.Settings.{with_rows, with_setting};
ghost use Rattle.pardo_text.specs.Inner.Tokens.{after_blanks};
ghost use Rattle.pardo_text.specs.Inner.Settings.{GivesAsSet, fields_left};
ghost use Rattle.pardo_text.specs.declared.settings.SetKind.TheVariants.{Memory};

use crate::fault::PardoFault;
use crate::thrown::Thrown;
use crate::token::{Token, after_blanks, first_token};
use std::alloc::{AllocError, AllocFailed, Global};
use std::marker::Model;
use text_lines::TextLines;

/// Why names cannot be set so.
#[derive(Clone, Copy, Debug, PartialEq, Eq)]
pub enum SetKind {
    /// It is not `NAME=..`, or its name is none.
    BadSetting,
    /// What stands for a value is no number.
    BadNumber,
    /// A value is greater than 4,294,967,295.
    OutOfLimits,
    /// The name is set twice.
    DuplicateName,
    /// There are more or fewer values than places.
    WrongLength,
    /// Nothing has the name.
    UnknownName,
    /// What has the name is neither a constant nor shared.
    WrongKind,
    /// Out of memory.
    Memory,
}

impl<T: Drop> From<AllocFailed<T>> for SetKind {
    ghost from_gives = { λ _ kind. kind ≡ Memory };

    fn from(_failed: AllocFailed<T>) -> SetKind {
        SetKind::Memory
    }
}

impl From<AllocError> for SetKind {
    ghost from_gives = { λ _ kind. kind ≡ Memory };

    fn from(_error: AllocError) -> SetKind {
        SetKind::Memory
    }
}

/// The number of a setting, counted from 0, and what is wrong with it.
#[derive(Clone, Copy, Debug, PartialEq, Eq)]
pub struct SetFault {
    pub at: usize,
    pub kind: SetKind,
}

/// Why a text with settings is no program.
#[derive(Clone, Copy, Debug, PartialEq, Eq)]
pub enum SetRefusal {
    /// A line of the text as it is set is bad.
    Text(PardoFault),
    /// A setting does not fit the text.
    Setting(SetFault),
}

/// What follows the values that are listed.
#[derive(Clone, Copy, Debug, PartialEq, Eq)]
pub(crate) enum Rest {
    /// Nothing.
    Nothing,
    /// The last value, for each place that is left.
    Last,
    /// No value is listed: all are thrown.
    Throws(Thrown),
}

/// A name, the values that it is set to, and what follows them.
#[derive(Drop)]
pub(crate) struct Setting {
    pub(crate) name: Vec<u8>,
    pub(crate) values: Vec<u32>,
    pub(crate) rest: Rest,
}

impl Model for Setting {
    ghost use Rattle.pardo_text.specs.Settings.{SettingData};

    ghost Value = { SettingData };

    ghost view = { λ s. record { name = s.name.items; values = s.values.items; rest = s.rest } };
}

/// Names with the values that they are set to, in their order.
#[derive(Drop)]
pub struct Settings {
    pub(crate) settings: Vec<Setting>,
}

impl Model for Settings {
    ghost use Rattle.std.specs.Prelude.{List};
    ghost use Rattle.pardo_text.specs.Settings.{SettingData};

    ghost Value = { List SettingData };

    ghost view = { λ s. s.settings.items };
}

impl Settings {
    /// No name is set.
    pub fn new(alloc: Global) -> Self
        ensures { result ≡ [] }
    {
        Settings {
            settings: Vec::new(alloc),
        }
    }

    /// Whether no name is set.
    pub fn is_empty(&self) -> bool
        ensures { result ≡ (length self.now == 0) }
    {
        self.settings.is_empty()
    }

    /// The name that is set first, and the values that are listed for it.
    pub fn first(&self) -> Option<(&[u8], &[u32])>
        ensures { option_map (λ first. (first.0.now, first.1.now)) result ≡ first_in self.now }
    {
        let first = self.settings.first()?;
        Some((first.name.as_slice(), first.values.as_slice()))
    }

    /// Sets the first name to this value alone.
    pub fn set_first(&mut self, value: u32) -> Result<(), AllocError>
        ensures { OnOk result (self.new ≡ with_first self.old value) }
    {
        let alloc = *self.settings.allocator();
        let values = Vec::from_slice(alloc, &[value])?;
        if let Some(first) = self.settings.first_mut() {
            first.values = values;
            first.rest = Rest::Nothing;
        }
        Ok(())
    }

    /// Sets one name more, to the values that a text spells: numbers, parted by commas or by line
    /// feeds, of which with `,...` the last one fills the rest; or `any:SEED:BELOW`, `perm:SEED` or
    /// `sorted:SEED:BELOW`.
    #[tactic(auto, unfolding(crate::specs::Settings::with_setting))]
    pub fn add(&mut self, name: &[u8], text: &[u8]) -> Result<(), SetKind>
        ensures { GivesAsSet (λ _. self.new) result (with_setting self.old name.now text.now) }
    {
        let alloc = *self.settings.allocator();
        if !names_one(name) {
            return Err(SetKind::BadSetting);
        }
        if self.find(name).is_some() {
            return Err(SetKind::DuplicateName);
        }
        let (values, rest) = values_spelled(alloc, text)?;
        let name = Vec::from_slice(alloc, name)?;
        self.settings.push(Setting { name, values, rest })?;
        Ok(())
    }

    /// The number of the setting of this name.
    pub(crate) fn find(&self, name: &[u8]) -> Option<usize>
        ensures { result ≡ setting_of self.now name.now }
    {
        self.settings
            .iter()
            .position(|setting| setting.name.as_slice() == name)
    }

    /// What a name is set to.
    pub(crate) fn get(&self, name: &[u8]) -> Option<&[u32]>
        ensures { option_map (λ values. values.now) result ≡ set_to self.now name.now }
    {
        let at = self.find(name)?;
        let setting = self.settings.get(at)?;
        Some(setting.values.as_slice())
    }
}

// Whether a word is a name.
fn names_one(word: &[u8]) -> bool
    ensures { result ≡ names_one word.now }
{
    matches!(first_token(word), Some((Token::Name(_), [])))
}

// The values that a text spells, and what follows them.
#[tactic(auto, unfolding(crate::specs::Settings::values_spelled))]
fn values_spelled(alloc: Global, text: &[u8]) -> Result<(Vec<u32>, Rest), SetKind>
    ensures { GivesAsSet (λ found. (found.0.items, found.1)) result (values_spelled text.now) }
{
    if let Some(thrown) = Thrown::spelled(text) {
        return Ok((Vec::new(alloc), Rest::Throws(thrown)));
    }
    match before_end(text, ",...") {
        None => Ok((values_listed(alloc, text)?, Rest::Nothing)),
        Some(before) => Ok((values_listed(alloc, before)?, Rest::Last)),
    }
}

// What stands before an end.
fn before_end<'t>(text: &'t [u8], end: &str) -> Option<&'t [u8]>
    ensures { option_map (λ before. before.now) result ≡ before_end end.now text.now }
{
    text.strip_suffix(end.as_bytes())
}

// The values that a text lists, of which there are some.
#[tactic(auto, unfolding(crate::specs::Settings::values_listed))]
fn values_listed(alloc: Global, text: &[u8]) -> Result<Vec<u32>, SetKind>
    ensures { GivesAsSet (λ values. values.items) result (values_listed text.now) }
{
    let mut values = Vec::new(alloc);
    push_rows(text, &mut values)?;
    if values.is_empty() {
        return Err(SetKind::WrongLength);
    }
    Ok(values)
}

// Adds the values of the lines of a text.
fn push_rows(text: &[u8], values: &mut Vec<u32>) -> Result<(), SetKind>
    ensures { GivesAsSet (λ _. values.new.items) result
        (with_rows values.old.items (lines_of text.now)) }
{
    let mut lines = TextLines::new(text);
    while let Some(line) = lines.take_line() {
        push_row(line, values)?;
    }
    Ok(())
}

// Adds the values of a line.
fn push_row(line: &[u8], values: &mut Vec<u32>) -> Result<(), SetKind>
    ensures { GivesAsSet (λ _. values.new.items) result
        (with_fields values.old.items (fields_in line.now (after_blanks line.now))) }
{
    if after_blanks(line).is_empty() {
        return Ok(());
    }
    push_fields(line, values)
}

// Adds the values of the fields of a line that has some.
fn push_fields(line: &[u8], values: &mut Vec<u32>) -> Result<(), SetKind>
    ensures { GivesAsSet (λ _. values.new.items) result
        (with_fields values.old.items (slice_split (λ b. b == 44) line.now)) }
{
    let mut left = Some(line);
    while let Some(rest) = left {
        let (field, next) = first_field(rest);
        values.push(field_value(field)?)?;
        left = next;
    }
    Ok(())
}

// The first field, and what is after its comma, if it has one.
fn first_field(line: &[u8]) -> (&[u8], Option<&[u8]>)
    ensures fields { slice_split (λ b. b == 44) line.now
        ≡ result.0.now ∷ fields_left result.1 }
    ensures shorter { IfSome result.1 (λ rest. length rest.now < length line.now) }
{
    match comma(line) {
        None => (line, None),
        Some(end) => {
            let (field, rest) = line.split_at(end);
            (field, Some(&rest[1..]))
        }
    }
}

// Where the first comma stands.
fn comma(line: &[u8]) -> Option<usize>
    ensures { result ≡ position (λ byte. byte == 44) line.now }
{
    line.iter().position(|&byte| byte == b',')
}

// The number that a field is.
#[tactic(auto, unfolding(crate::specs::Settings::field_value))]
fn field_value(field: &[u8]) -> Result<u32, SetKind>
    ensures { result ≡ field_value field.now }
{
    match first_token(field) {
        Some((Token::Number(value), rest)) if after_blanks(rest).is_empty() => {
            if value <= u64::from(u32::MAX) {
                Ok(value as u32)
            } else {
                Err(SetKind::OutOfLimits)
            }
        }
        _ => Err(SetKind::BadNumber),
    }
}
