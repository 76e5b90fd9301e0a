//! What a call tells beside its output.
ghost use Rattle.std.specs.Prelude.{◌≡◌};
ghost use Rattle.library_core.specs.Answers.{IsFilled};

use crate::telling::put_front;

/// What a call tells beside its output, as C sees it. The caller sets `size` to `ANSWER_SIZE`. The
/// length is that of the whole output, in bytes, or where cells or rows are told in these. The line
/// is one of the text or of the exercise, a row of the plan, or the number of a setting, counted
/// from 1, and 0 where there is none; so is the column. The kind and the sentence end with a 0.
#[repr(C)]
#[derive(Clone, Copy)]
pub struct Answer {
    pub size: u32,
    pub subject: u32,
    pub length: u64,
    pub line: u64,
    pub column: u32,
    pub reserved: u32,
    pub kind: [u8; 32],
    pub sentence: [u8; 160],
}

/// The bytes of an answer.
pub const ANSWER_SIZE: u32 = size_of::<Answer>() as u32;

// What was refused.

/// Nothing.
pub const NOTHING: u32 = 0;

/// The text, as one of the machine.
pub const TEXT: u32 = 1;

/// The text, as a program.
pub const PROGRAM: u32 = 2;

/// The plan.
pub const PLAN: u32 = 3;

/// The first step that is to be shown.
pub const STEP: u32 = 4;

/// The size of the text or of the plan.
pub const SIZE: u32 = 5;

/// The request.
pub const REQUEST: u32 = 6;

/// Nothing: memory ran out.
pub const OUT_OF_MEMORY: u32 = 7;

/// A setting.
pub const SETTING: u32 = 8;

/// An exercise.
pub const EXERCISE: u32 = 9;

/// What is told in an answer.
#[derive(Clone, Copy)]
pub struct Told<'a> {
    pub subject: u32,
    pub length: u64,
    pub line: u64,
    pub column: u32,
    pub kind: &'a [u8],
    pub sentence: &'a [u8],
}

/// Writes all of an answer but its size. What is too long is cut.
pub fn fill(told: &Told<'_>, answer: &mut Answer)
    ensures told { IsFilled told.now.subject told.now.length told.now.line answer.old answer.new }
    ensures placed { answer.new.column ≡ told.now.column }
{
    *answer = Answer {
        size: answer.size,
        subject: told.subject,
        length: told.length,
        line: told.line,
        column: told.column,
        reserved: 0,
        kind: [0; 32],
        sentence: [0; 160],
    };
    put_front(told.kind, &mut answer.kind[..31]);
    put_front(told.sentence, &mut answer.sentence[..159]);
}
