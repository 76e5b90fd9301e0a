//! Words, as they are shown.
ghost use Rattle.std.specs.Prelude.{◌≡◌, ◌++◌, IfOk, OnErr, OnOk};
ghost use Rattle.exercise_words.specs.Words.{AddsPrintable, shown_value, shown_byte};

use std::alloc::{AllocError, Global};

// A byte as it is shown.
fn shown_byte(byte: u8) -> u8
    ensures { result ≡ shown_byte byte }
{
    if (32..=126).contains(&byte) {
        byte
    } else {
        b'?'
    }
}

fn shown(alloc: Global, words: &[u8]) -> Result<Vec<u8>, AllocError>
    ensures { IfOk result (λ text. text.items ≡ shown_value words.now) }
{
    words.iter().map(|&byte| shown_byte(byte)).collect(alloc)
}

/// Adds words as they are shown.
pub(crate) fn push_shown(text: &mut Vec<u8>, words: &[u8]) -> Result<(), AllocError>
    ensures ok { OnOk result (text.new.items ≡ text.old.items ++ shown_value words.now) }
    ensures printable { OnOk result (AddsPrintable text.old.items text.new.items) }
    ensures err { OnErr result (text.new.items ≡ text.old.items) }
{
    let bytes = shown(*text.allocator(), words)?;
    text.extend_from_slice(bytes.as_slice())
}
