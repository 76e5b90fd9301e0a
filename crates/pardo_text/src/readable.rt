//! What may stand in a line.
ghost use Rattle.std.specs.Prelude.{◌≡◌};
ghost use Rattle.std.specs.List.{list_all};
ghost use Rattle.std.specs.Str.{is_utf8};
ghost use Rattle.pardo_text.specs.Reading.{is_comment, is_no_control, is_readable};

use crate::token::parted;
use std::str;
use text_lines::is_lawful;

/// Whether a line may stand in a text.
#[tactic(auto, unfolding(crate::specs::Reading::is_readable))]
pub(crate) fn is_readable(line: &[u8]) -> bool
    ensures { result ≡ is_readable line.now }
{
    let (said, comment) = parted(line);
    is_lawful(said) && is_comment(comment)
}

fn is_comment(bytes: &[u8]) -> bool
    ensures { result ≡ is_comment bytes.now }
{
    is_utf8(bytes) && has_no_control(bytes)
}

#[tactic(auto, using(crate::proofs::Comments::utf8_is, crate::proofs::Comments::utf8_not))]
fn is_utf8(bytes: &[u8]) -> bool
    ensures { result ≡ is_utf8 bytes.now }
{
    match str::from_utf8(bytes) {
        Ok(_) => true,
        Err(_) => false,
    }
}

fn has_no_control(bytes: &[u8]) -> bool
    ensures { result ≡ list_all is_no_control bytes.now }
{
    bytes.iter().all(|&byte| is_no_control(byte))
}

#[tactic(auto, unfolding(crate::specs::Reading::is_no_control))]
fn is_no_control(byte: u8) -> bool
    ensures { result ≡ is_no_control byte }
{
    byte == b'\t' || byte == b'\r' || (b' ' <= byte && byte != 127)
}
