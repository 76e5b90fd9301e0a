//! Values that are thrown from a seed.
ghost use Rattle.std.specs.Prelude.{◌≡◌, ◌<◌, ◌==◌, ◌+◌, ◌*◌, ◌/◌, ◌^◌, drop, IfOk};
ghost use Rattle.std.specs.Prelude.{◌-◌, length};
ghost use Rattle.std.specs.Char.{is_ascii_digit};
ghost use Rattle.std.specs.List.{list_all, position, range_with_len};
ghost use Rattle.std.specs.Option.{option_and_then, option_map};
ghost use Rattle.pardo_text.specs.Thrown.{after_start, number_of, seed_after, seed_with_bound};
ghost use Rattle.pardo_text.specs.Thrown.{shuffled, spread_value, thrown_below, thrown_by};
ghost use Rattle.pardo_text.specs.Thrown.{thrown_in, thrown_values};

use std::alloc::{AllocError, Global};
use text_lines::value_of;

/// Values for each place of an array, the same ones for the same seed.
#[derive(Clone, Copy, Debug, PartialEq, Eq)]
pub enum Thrown {
    /// Any numbers below a bound.
    Any { seed: u32, below: u32 },
    /// Numbers below a bound that do not fall.
    Sorted { seed: u32, below: u32 },
    /// The numbers of the places, in any order.
    Permuted { seed: u32 },
}

impl Thrown {
    /// What a text `any:SEED:BELOW`, `sorted:SEED:BELOW` or `perm:SEED` says.
    pub fn spelled(text: &[u8]) -> Option<Thrown>
        ensures { result ≡ thrown_in text.now }
    {
        if let Some((seed, below)) = bounded(text, "any:") {
            return Some(Thrown::Any { seed, below });
        }
        if let Some((seed, below)) = bounded(text, "sorted:") {
            return Some(Thrown::Sorted { seed, below });
        }
        let seed = number_of(after_start(text, "perm:")?)?;
        Some(Thrown::Permuted { seed })
    }

    /// The values of so many places; out of memory, where these are more than 32 bits tell.
    pub fn values(self, alloc: Global, places: usize) -> Result<Vec<u32>, AllocError>
        ensures { IfOk result (λ values. values.items ≡ thrown_values self places) }
    {
        let Ok(places) = u32::try_from(places) else {
            return Err(AllocError);
        };
        match self {
            Thrown::Any { seed, below } => spread_values(alloc, false, places, below, seed),
            Thrown::Sorted { seed, below } => spread_values(alloc, true, places, below, seed),
            Thrown::Permuted { seed } => permuted_values(alloc, places, seed),
        }
    }
}

/// The seed after this one.
pub fn next_seed(seed: u32) -> u32
    ensures { result ≡ seed_after seed }
{
    ((1_664_525 * u64::from(seed) + 1_013_904_223) % (1 << 32)) as u32
}

/// The number below this one that a seed gives; 0 where there is none.
#[tactic(auto, using(crate::proofs::Throwing::below_fits))]
pub fn number_below(below: u32, seed: u32) -> u32
    ensures value { result ≡ thrown_below below seed }
    ensures less { 0 < below → result < below }
{
    ((u64::from(seed) * u64::from(below)) >> 32) as u32
}

// So many values below the bound, which do not fall if that is asked.
fn spread_values(
    alloc: Global,
    is_sorted: bool,
    places: u32,
    below: u32,
    mut seed: u32,
) -> Result<Vec<u32>, AllocError>
    ensures { IfOk result (λ values. values.items
        ≡ thrown_by (spread_value is_sorted places below) 0 places seed) }
{
    let mut values = Vec::new(alloc);
    for place in 0..places {
        seed = next_seed(seed);
        values.push(spread_value(is_sorted, places, below, place, seed))?;
    }
    Ok(values)
}

// The value of a place of so many.
fn spread_value(is_sorted: bool, places: u32, below: u32, place: u32, seed: u32) -> u32
    requires { place < places }
    ensures { result ≡ spread_value is_sorted places below place seed }
{
    let number = number_below(below, seed);
    if is_sorted {
        part_value(place, places, below, number)
    } else {
        number
    }
}

// What a number below the bound comes to in the part of a place.
#[tactic(auto, using(crate::proofs::Throwing::part_fits))]
fn part_value(place: u32, places: u32, below: u32, number: u32) -> u32
    requires { place < places }
    ensures { result ≡ (place * below + number) / places }
{
    let within = u64::from(place) * u64::from(below) + u64::from(number);
    u32::try_from(within / u64::from(places)).unwrap_or(0)
}

// The numbers of so many places, shuffled.
fn permuted_values(alloc: Global, places: u32, seed: u32) -> Result<Vec<u32>, AllocError>
    ensures { IfOk result (λ values. values.items
        ≡ shuffled (places - 1) seed (range_with_len 0 places)) }
{
    let mut values = Vec::new(alloc);
    for place in 0..places {
        values.push(place)?;
    }
    shuffle(values.as_mut_slice(), seed);
    Ok(values)
}

// Swaps each item with one that does not stand after it, the last one first.
#[tactic(auto, using(crate::proofs::Throwing::shuffled_next))]
fn shuffle(items: &mut [u32], mut seed: u32)
    requires { length items.old < 2 ^ 32 }
    ensures value { items.new ≡ shuffled (length items.old - 1) seed items.old }
    ensures len { length items.new ≡ length items.old }
{
    let mut left = items.len() as u32;
    while left > 1 {
        seed = next_seed(seed);
        let other = number_below(left, seed);
        left -= 1;
        items.swap(left as usize, other as usize);
    }
}

fn are_digits(text: &[u8]) -> bool
    ensures { result ≡ list_all is_ascii_digit text.now }
{
    text.iter().all(|byte| byte.is_ascii_digit())
}

// The number of 32 bits that a text is.
fn number_of(text: &[u8]) -> Option<u32>
    ensures { result ≡ number_of text.now }
{
    if text.is_empty() || !are_digits(text) {
        return None;
    }
    let value = value_of(text);
    if value < 1 << 32 {
        Some(value as u32)
    } else {
        None
    }
}

// Where the first colon stands.
fn colon(text: &[u8]) -> Option<usize>
    ensures { result ≡ position (λ byte. byte == 58) text.now }
{
    text.iter().position(|&byte| byte == b':')
}

// What stands after the first byte.
fn after_first(text: &[u8]) -> &[u8]
    ensures { result.now ≡ drop 1 text.now }
{
    match text {
        [] => text,
        [_, rest @ ..] => rest,
    }
}

// What follows a beginning.
fn after_start<'t>(text: &'t [u8], start: &str) -> Option<&'t [u8]>
    ensures { option_map (λ rest. rest.now) result ≡ after_start start.now text.now }
{
    text.strip_prefix(start.as_bytes())
}

// The seed and the bound after a beginning.
fn bounded(text: &[u8], start: &str) -> Option<(u32, u32)>
    ensures { result ≡ option_and_then seed_with_bound (after_start start.now text.now) }
{
    seed_and_bound(after_start(text, start)?)
}

/// The seed and the bound of a text `SEED:BELOW`.
pub fn seed_and_bound(text: &[u8]) -> Option<(u32, u32)>
    ensures { result ≡ seed_with_bound text.now }
{
    let (seed, rest) = text.split_at(colon(text).unwrap_or(text.len()));
    let seed = number_of(seed)?;
    let below = number_of(after_first(rest))?;
    Some((seed, below))
}
