//! Parts of what is said.
ghost use Rattle.std.specs.Prelude.{◌≡◌, ◌++◌, ◌==◌, ◌||◌, OnOk};
ghost use Rattle.std.specs.List.{position};
ghost use Rattle.exercise_words.specs.Words.{at_line, at_place, sentence_front, meeting};
ghost use Rattle.exercise_words.specs.Words.{named_place, pair};

use pram_streams::push_labelled;
use std::alloc::AllocError;

/// Adds the line that something is said of.
pub(crate) fn push_at_line(words: &mut Vec<u8>, line: u64) -> Result<(), AllocError>
    ensures { OnOk result (words.new.items ≡ words.old.items ++ at_line line) }
{
    push_labelled(words, b"line ", line)?;
    words.extend_from_slice(b": ")
}

/// Adds how two processors meet at a place.
pub(crate) fn push_meeting(
    words: &mut Vec<u8>,
    deed: &[u8],
    place: &[u8],
    line: u64,
    pair: (u32, u32),
) -> Result<(), AllocError>
    ensures { OnOk result (words.new.items
        ≡ words.old.items ++ meeting deed.now place.now line pair.0 pair.1) }
{
    push_pair(words, u64::from(pair.0), u64::from(pair.1))?;
    words.extend_from_slice(deed)?;
    push_at_place(words, place, line)
}

fn push_pair(words: &mut Vec<u8>, first: u64, second: u64) -> Result<(), AllocError>
    ensures { OnOk result (words.new.items ≡ words.old.items ++ pair first second) }
{
    push_labelled(words, b"processors ", first)?;
    push_labelled(words, b" and ", second)
}

fn push_at_place(words: &mut Vec<u8>, place: &[u8], line: u64) -> Result<(), AllocError>
    ensures { OnOk result (words.new.items ≡ words.old.items ++ at_place place.now line) }
{
    words.extend_from_slice(named(place))?;
    push_labelled(words, b" in line ", line)
}

/// A place as it is named.
pub(crate) fn named(place: &[u8]) -> &[u8]
    ensures { result.now ≡ named_place place.now }
{
    match place {
        [] => b"a cell",
        [..] => place,
    }
}

// Where the first `=` or `;` stands.
fn stop_in(line: &[u8]) -> Option<usize>
    ensures { result ≡ position (λ byte. (byte == 61) || (byte == 59)) line.now }
{
    line.iter().position(|&byte| byte == b'=' || byte == b';')
}

/// What stands before the first `=` or `;`.
pub(crate) fn front_of(line: &[u8]) -> &[u8]
    ensures { result.now ≡ sentence_front line.now }
{
    line.split_at(stop_in(line).unwrap_or(line.len())).0
}
