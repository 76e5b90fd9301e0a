//! Numbers in words.
ghost use Rattle.std.specs.Prelude.{◌≡◌, ◌≤◌, IfOk};
ghost use Rattle.std.specs.Char.{is_ascii_digit};
ghost use Rattle.std.specs.List.{list_all};
ghost use Rattle.pram_text.specs.Judgement.{is_number, number_in};

use crate::fault::TextKind;
use text_lines::value_of;

fn all_digits(word: &[u8]) -> bool
    ensures { result ≡ list_all is_ascii_digit word.now }
{
    word.iter().all(|byte| byte.is_ascii_digit())
}

/// Whether the word is one digit or more, and nothing else.
pub(crate) fn is_numeric(word: &[u8]) -> bool
    ensures { result ≡ is_number word.now }
{
    !word.is_empty() && all_digits(word)
}

/// The number of a word, within limits.
#[tactic(auto, unfolding(crate::specs::Judgement::number_in))]
pub(crate) fn number_within(low: u32, high: u32, word: &[u8]) -> Result<u32, TextKind>
    ensures value { result ≡ number_in low high word.now }
    ensures within { IfOk result (λ number. (low ≤ number) × (number ≤ high)) }
{
    if !is_numeric(word) {
        return Err(TextKind::BadNumber);
    }
    let value = value_of(word);
    if u64::from(low) <= value && value <= u64::from(high) {
        Ok(value as u32)
    } else {
        Err(TextKind::OutOfLimits)
    }
}
