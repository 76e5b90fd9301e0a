//! How bytes and rows are put into buffers.
ghost use Rattle.std.specs.Prelude.{◌≡◌, [], length};
ghost use Rattle.page_core.specs.Put.{ArePut, IsTailKept, IsTextPut, exercise_bytes_told};
ghost use Rattle.page_core.specs.Put.{exercise_counted};
ghost use Rattle.page_core.specs.Put.{exercise_rows_told};

use crate::codes::{DONE, NO_ROOM};

/// What is told of an exercise: how many bytes and how many rows were written, or (without room)
/// how many there are. A fault is that of line `line`, 1 to 7 in the order of `ExerciseKind`;
/// `lacks` is the number of the key that is missing.
#[repr(C)]
#[derive(Clone, Copy)]
pub struct ExerciseTold {
    pub line: u64,
    pub bytes: u64,
    pub rows: u64,
    pub code: u32,
    pub fault: u32,
    pub lacks: u32,
}

pub(crate) fn counted(code: u32, bytes: usize, rows: usize) -> ExerciseTold
    ensures { result ≡ exercise_counted code bytes rows }
{
    ExerciseTold {
        line: 0,
        bytes: bytes as u64,
        rows: rows as u64,
        code,
        fault: 0,
        lacks: 0,
    }
}

/// Both are written to the fronts of their buffers, if there is room for both.
pub(crate) fn put<T: Copy>(
    bytes: &[u8],
    rows: &[T],
    bytes_to: &mut [u8],
    rows_to: &mut [T],
) -> ExerciseTold
    ensures put { ArePut bytes.now rows.now bytes_to.old rows_to.old bytes_to.new rows_to.new
        result }
    ensures bytes { IsTailKept (exercise_bytes_told result) bytes_to.old bytes_to.new }
    ensures rows { IsTailKept (exercise_rows_told result) rows_to.old rows_to.new }
{
    let (count, more) = (bytes.len(), rows.len());
    if count > bytes_to.len() || more > rows_to.len() {
        return counted(NO_ROOM, count, more);
    }
    bytes_to[..count].copy_from_slice(bytes);
    rows_to[..more].copy_from_slice(rows);
    counted(DONE, count, more)
}

/// The bytes are written to the front of their buffer, if there is room.
pub(crate) fn put_text(bytes: &[u8], to: &mut [u8]) -> ExerciseTold
    ensures put { IsTextPut bytes.now to.old to.new result }
    ensures bytes { IsTailKept (exercise_bytes_told result) to.old to.new }
{
    let count = bytes.len();
    if count > to.len() {
        return counted(NO_ROOM, count, 0);
    }
    to[..count].copy_from_slice(bytes);
    counted(DONE, count, 0)
}
