//! Numbers as text.
ghost use Rattle.std.specs.Prelude.{◌≡◌, ◌++◌, decimal, OnOk};
ghost use Rattle.csv.specs.Writing.{default_writer, field_text};

use itoa::Buffer;
use std::alloc::AllocError;

/// Adds a number after a label.
pub fn push_labelled(text: &mut Vec<u8>, label: &[u8], number: u64) -> Result<(), AllocError>
    ensures { OnOk result (text.new.items ≡ text.old.items ++ label.now ++ decimal number) }
{
    let mut buffer = Buffer::new();
    text.extend_from_slice(label)?;
    text.extend_from_slice(buffer.format(number).as_bytes())
}

/// A number, which `csv` writes without quotes.
pub fn number_text(buffer: &mut Buffer, number: u64) -> &[u8]
    ensures text { result.now ≡ decimal number }
    ensures plain { field_text default_writer result.now ≡ result.now }
{
    buffer.format(number).as_bytes()
}
