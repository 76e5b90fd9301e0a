//! Calls about exercises.
ghost use Rattle.std.specs.Prelude.{◌≡◌};
ghost use Rattle.page_core.specs.declared.exercise_codes.TheConstants.{FAILED, PASSED};
ghost use Rattle.page_core.specs.Entries.{AreEntriesTold};
ghost use Rattle.page_core.specs.Submissions.{IsFailed, IsMet};
ghost use Rattle.page_core.specs.Given.{IsGivenTold};
ghost use Rattle.page_core.specs.Put.{IsTailKept, exercise_bytes_told, exercise_rows_told};
ghost use Rattle.page_core.specs.Verdicts.{IsVerdictTold, verdict_bytes};

use page_core::entries::{EntryRow, entries};
use page_core::given::given;
use page_core::put::ExerciseTold;
use page_core::verdict::{VerdictTold, verdict};
use std::alloc::Global;

/// Tells the entries of the exercise that a text spells: what each says, one after the other, and a
/// row for each, in their order.
#[unsafe(no_mangle)]
pub extern "C" fn pram_page_exercise(
    alloc: Global,
    text: &[u8],
    bytes: &mut [u8],
    rows: &mut [EntryRow],
    told: &mut ExerciseTold,
)
    ensures told { AreEntriesTold text.now bytes.old rows.old bytes.new rows.new told.new }
    ensures bytes { IsTailKept (exercise_bytes_told told.new) bytes.old bytes.new }
    ensures rows { IsTailKept (exercise_rows_told told.new) rows.old rows.new }
{
    *told = entries(alloc, text, bytes, rows);
}

/// Tells a submission to an exercise with the header as the input in line `line` of the exercise
/// sets it: the text that is judged with this input.
#[unsafe(no_mangle)]
pub extern "C" fn pram_page_given(
    alloc: Global,
    exercise: &[u8],
    submission: &[u8],
    line: u64,
    bytes: &mut [u8],
    told: &mut ExerciseTold,
)
    ensures told { IsGivenTold exercise.now submission.now line bytes.old bytes.new told.new }
    ensures bytes { IsTailKept (exercise_bytes_told told.new) bytes.old bytes.new }
{
    *told = given(alloc, exercise, submission, line, bytes);
}

/// Judges a submission to an exercise: tells that it meets all inputs, or the first thing that is
/// wrong. There is no limit on the steps but that of programs.
#[unsafe(no_mangle)]
pub extern "C" fn pram_page_verdict(
    alloc: Global,
    exercise: &[u8],
    submission: &[u8],
    words: &mut [u8],
    told: &mut VerdictTold,
)
    ensures passed { told.new.code ≡ PASSED → IsMet exercise.now submission.now }
    ensures failed { told.new.code ≡ FAILED →
        IsFailed exercise.now submission.now told.new.input }
    ensures told { IsVerdictTold exercise.now submission.now words.old words.new told.new }
    ensures words { IsTailKept (verdict_bytes told.new) words.old words.new }
{
    *told = verdict(alloc, exercise, submission, words);
}
