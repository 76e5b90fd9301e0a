//! Stamped words: the number of a step above a payload, in one word.
ghost use Rattle.std.specs.Prelude.{◌≡◌};
ghost use Rattle.pram_words.specs.Stamps.{stamped_word, stamp_of, payload_of};
ghost use Rattle.pram_words.specs.Stamps.{first_is_older, newer_payload, newer_word, older};

/// The word with this stamp in its upper 32 bits and this payload in its lower 32. Words compare by
/// their stamps first.
pub fn stamped(stamp: u32, payload: u32) -> u64
    ensures { result ≡ stamped_word stamp payload }
{
    u64::from(stamp) * 0x1_0000_0000 + u64::from(payload)
}

/// The upper 32 bits of a word.
pub fn stamp(word: u64) -> u32
    ensures { result ≡ stamp_of word }
{
    (word / 0x1_0000_0000) as u32
}

/// The lower 32 bits of a word.
pub fn payload(word: u64) -> u32
    ensures { result ≡ payload_of word }
{
    (word % 0x1_0000_0000) as u32
}

/// Of the two words of a place the first is the older one, or both have one stamp.
#[inline(always)]
#[tactic(auto, using(crate::proofs::NoLater::no_later))]
pub fn first_is_older(first: u64, second: u64) -> bool
    ensures { result ≡ first_is_older first second }
{
    first <= second | 0xffff_ffff
}

/// The number of the older of the two words of a place, 0 or 1. Of equal stamps the first is older.
#[inline(always)]
pub fn older(first: u64, second: u64) -> u32
    ensures { result ≡ older first second }
{
    u32::from(stamp(first) > stamp(second))
}

/// The newer of the two words of a place.
#[inline(always)]
pub fn newer(first: u64, second: u64) -> u64
    ensures { result ≡ newer_word first second }
{
    if first_is_older(first, second) {
        second
    } else {
        first
    }
}

/// The payload of the newer of the two words of a place.
#[inline(always)]
pub fn newer_payload(first: u64, second: u64) -> u32
    ensures { result ≡ newer_payload first second }
{
    payload(newer(first, second))
}
