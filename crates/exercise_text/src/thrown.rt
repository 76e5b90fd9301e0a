//! Values that are thrown.
ghost use Rattle.std.specs.Prelude.{◌≡◌, ◌++◌, codes, decimal, drop, OnOk};
ghost use Rattle.exercise_text.specs.Sets.{any_in, thrown_text, values_as_text};

use itoa::Buffer;
use pardo_text::{next_seed, number_below, seed_and_bound};
use std::alloc::AllocError;
use text_lines::is_word;

// Adds so many values, each with what parts it from the next one.
fn push_thrown(text: &mut Vec<u8>, places: u64, mut seed: u32, below: u32) -> Result<(), AllocError>
    ensures { OnOk result (text.new.items ≡ text.old.items ++ thrown_text places seed below) }
{
    for fresh in 0..places {
        seed = next_seed(seed);
        push_value(text, number_below(below, seed))?;
    }
    Ok(())
}

// Adds a value, with what parts it from the next one.
fn push_value(text: &mut Vec<u8>, value: u32) -> Result<(), AllocError>
    ensures { OnOk result (text.new.items
        ≡ text.old.items ++ decimal value ++ codes ", ") }
{
    let mut buffer = Buffer::new();
    text.extend_from_slice(buffer.format(value).as_bytes())?;
    text.extend_from_slice(b", ")
}

/// What stands after the first byte.
pub(crate) fn after_first(text: &[u8]) -> &[u8]
    ensures { result.now ≡ drop 1 text.now }
{
    match text {
        [] => text,
        [_, rest @ ..] => rest,
    }
}

fn any_in(text: &[u8]) -> Option<(u32, u32)>
    ensures { result ≡ any_in text.now }
{
    if text.len() < 4 {
        return None;
    }
    let (word, rest) = text.split_at(4);
    if is_word(word, "any:") {
        seed_and_bound(rest)
    } else {
        None
    }
}

/// Adds what stands for the values of so many places.
pub(crate) fn push_values(set: &mut Vec<u8>, places: u64, text: &[u8]) -> Result<(), AllocError>
    ensures { OnOk result (set.new.items ≡ set.old.items ++ values_as_text places text.now) }
{
    match any_in(text) {
        None => set.extend_from_slice(text),
        Some((seed, below)) => {
            push_thrown(set, places, seed, below)?;
            set.extend_from_slice(b"...")
        }
    }
}
