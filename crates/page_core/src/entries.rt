//! The entries of an exercise.
ghost use Rattle.std.specs.Prelude.{◌≡◌, ◌++◌, [], IfErr, IfOk, Ok, length, map};
ghost use Rattle.std.specs.List.{flat_map};
ghost use Rattle.exercise_text.specs.Keys.{key_place};
ghost use Rattle.exercise_text.specs.Reading.{exercise_of};
ghost use Rattle.page_core.specs.declared.entries.NoExercise.TheVariants.{Bad};
ghost use Rattle.page_core.specs.Entries.{AreEntriesOf, AreEntriesTold, TellsNoExercise};
ghost use Rattle.page_core.specs.Entries.{entry_row, key_lacked, kind_code, no_exercise_told};
ghost use Rattle.page_core.specs.Put.{IsTailKept, exercise_bytes_told, exercise_counted};
ghost use Rattle.page_core.specs.Put.{exercise_rows_told};

use crate::codes::{MEMORY, TEXT_MOST, TEXT_TOO_LONG};
use crate::exercise_codes::NO_EXERCISE;
use crate::put::{ExerciseTold, counted, put};
use exercise_judge::{Entry, Exercise, ExerciseFault, ExerciseKind, Key, read_exercise};
use std::alloc::{AllocError, Global};

/// What an entry says, by the number of its key, the line where it begins, and how many bytes its
/// text has.
#[repr(C)]
#[derive(Clone, Copy)]
pub struct EntryRow {
    pub line: u64,
    pub bytes: u64,
    pub key: u32,
}

// The texts of entries one after the other, and a row for each.
#[derive(Drop)]
struct EntryList {
    bytes: Vec<u8>,
    rows: Vec<EntryRow>,
}

/// Why a text gives no exercise.
#[derive(Clone, Copy)]
pub enum NoExercise {
    /// It has more than `TEXT_MOST` bytes.
    TextTooLong,
    /// It spells none.
    Bad(ExerciseFault),
}

/// Puts the entries of the exercise that a text spells to the fronts of the buffers: their texts
/// one after the other, and a row for each.
pub fn entries(alloc: Global, text: &[u8], bytes: &mut [u8], rows: &mut [EntryRow]) -> ExerciseTold
    ensures told { AreEntriesTold text.now bytes.old rows.old bytes.new rows.new result }
    ensures bytes { IsTailKept (exercise_bytes_told result) bytes.old bytes.new }
    ensures rows { IsTailKept (exercise_rows_told result) rows.old rows.new }
{
    match entries_of(alloc, text) {
        Ok(found) => put(found.bytes.as_slice(), found.rows.as_slice(), bytes, rows),
        Err(why) => tell_no_exercise(why),
    }
}

// The entries of the exercise that a text spells.
fn entries_of(alloc: Global, text: &[u8]) -> Result<EntryList, NoExercise>
    ensures entries { IfOk result (λ told. AreEntriesOf text.now told.bytes.items told.rows.items) }
    ensures none { IfErr result (TellsNoExercise text.now) }
{
    let exercise = take_exercise(alloc, text)?;
    match told_entries(alloc, exercise.entries()) {
        Ok(entries) => Ok(entries),
        Err(_) => Err(NoExercise::Bad(ExerciseFault {
            line: 0,
            kind: ExerciseKind::Memory,
        })),
    }
}

/// The exercise that a text spells.
pub(crate) fn take_exercise(alloc: Global, text: &[u8]) -> Result<Exercise, NoExercise>
    ensures reads { IfOk result (λ exercise. exercise_of text.now ≡ Ok exercise) }
    ensures none { IfErr result (TellsNoExercise text.now) }
{
    if text.len() > TEXT_MOST {
        return Err(NoExercise::TextTooLong);
    }
    match read_exercise(alloc, text) {
        Ok(exercise) => Ok(exercise),
        Err(fault) => Err(NoExercise::Bad(fault)),
    }
}

fn told_entries(alloc: Global, entries: &[Entry]) -> Result<EntryList, AllocError>
    ensures bytes { IfOk result (λ told.
        told.bytes.items ≡ flat_map (λ entry. entry.text) entries.now) }
    ensures rows { IfOk result (λ told. told.rows.items ≡ map entry_row entries.now) }
{
    let mut bytes = Vec::new(alloc);
    let mut rows = Vec::new(alloc);
    for entry in entries {
        bytes.extend_from_slice(entry.text())?;
        rows.push(entry_row(entry))?;
    }
    Ok(EntryList { bytes, rows })
}

fn entry_row(entry: &Entry) -> EntryRow
    ensures { result ≡ entry_row entry.now }
{
    EntryRow {
        line: entry.number(),
        bytes: entry.text().len() as u64,
        key: number_of_key(entry.key()),
    }
}

/// Why there is no exercise, in numbers.
pub(crate) fn tell_no_exercise(why: NoExercise) -> ExerciseTold
    ensures told { result ≡ no_exercise_told why }
    ensures bytes { exercise_bytes_told result ≡ 0 }
    ensures rows { exercise_rows_told result ≡ 0 }
{
    match why {
        NoExercise::TextTooLong => counted(TEXT_TOO_LONG, 0, 0),
        NoExercise::Bad(fault) => tell_fault(fault),
    }
}

// Out of memory is a code of its own.
fn tell_fault(fault: ExerciseFault) -> ExerciseTold
    ensures { result ≡ no_exercise_told (Bad fault) }
{
    match fault.kind {
        ExerciseKind::Memory => counted(MEMORY, 0, 0),
        kind => ExerciseTold {
            line: fault.line,
            fault: number_of_exercise_kind(kind),
            lacks: key_lacked(kind),
            ..counted(NO_EXERCISE, 0, 0)
        },
    }
}

fn key_lacked(kind: ExerciseKind) -> u32
    ensures { result ≡ key_lacked kind }
{
    match kind {
        ExerciseKind::Missing(key) => number_of_key(key),
        _ => 0,
    }
}

fn number_of_exercise_kind(kind: ExerciseKind) -> u32
    ensures { result ≡ kind_code kind }
{
    match kind {
        ExerciseKind::Memory => 0,
        ExerciseKind::NotAscii => 1,
        ExerciseKind::BadHeader => 2,
        ExerciseKind::UnknownKey => 3,
        ExerciseKind::BadLine => 4,
        ExerciseKind::Duplicate => 5,
        ExerciseKind::Missing(_) => 6,
        ExerciseKind::NoAnswer => 7,
    }
}

fn number_of_key(key: Key) -> u32
    ensures { result ≡ key_place key }
{
    match key {
        Key::Note => 0,
        Key::Title => 1,
        Key::Task => 2,
        Key::Model => 3,
        Key::Want => 4,
        Key::Time => 5,
        Key::Operations => 6,
        Key::Steps => 7,
        Key::Lines => 8,
        Key::Given => 9,
        Key::Start => 10,
        Key::Reference => 11,
        Key::Input => 12,
        Key::Hidden => 13,
        Key::Gone => 14,
    }
}
