//! Whether names hold what is wanted.
ghost use Rattle.std.specs.Prelude.{◌≡◌, ◌≢◌, ◌⊎◌, ◌<◌, ◌^◌, All, IfErr, IfOk, IfSome, None, Some};
ghost use Rattle.std.specs.Prelude.{length, slice_get, slice_index};
ghost use Rattle.exercise_text.specs.Values.{held_by};
ghost use Rattle.exercise_judge.specs.Verdicts.{Judges};
ghost use Rattle.exercise_judge.specs.Wrongs.{HoldsOther, HoldsOtherAmong, place_named};
ghost use Rattle.exercise_judge.specs.declared.verdict.Wrong.TheVariants.{Memory};

use crate::place::place_text;
use crate::verdict::Wrong;
use exercise_text::{Wanted, array_named, held_by};
use pardo_text::Array;
use std::alloc::{AllocError, Global};

/// Whether the names hold what is wanted at the end; and if not, the first place that does not.
pub(crate) fn check_values(
    alloc: Global,
    arrays: &[Array],
    cells: &[u32],
    wanted: &[Wanted],
) -> Result<(), Wrong>
    requires few { All (λ array. array.base < 2 ^ 63) arrays.now }
    ensures judged { Judges result (All (λ want.
        held_by arrays.now (slice_index cells.now) want.name ≡ want.values) wanted.now) }
    ensures wrong { IfErr result (λ wrong. (wrong ≡ Memory)
        ⊎ HoldsOtherAmong wanted.now arrays.now (slice_index cells.now) wrong) }
{
    for want in wanted {
        check_name(alloc, arrays, cells, want)?;
    }
    Ok(())
}

fn check_name(alloc: Global, arrays: &[Array], cells: &[u32], want: &Wanted) -> Result<(), Wrong>
    requires few { All (λ array. array.base < 2 ^ 63) arrays.now }
    ensures judged { Judges result (held_by arrays.now (slice_index cells.now) want.now.name
        ≡ want.now.values) }
    ensures wrong { IfErr result (λ wrong. (wrong ≡ Memory)
        ⊎ HoldsOther want.now arrays.now (slice_index cells.now) wrong) }
{
    let held = held_by(alloc, arrays, cells, want.name.as_slice())?;
    if held.len() != want.values.len() {
        let name = Vec::from_slice(alloc, want.name.as_slice())?;
        return Err(Wrong::Places {
            name,
            has: held.len() as u64,
            wanted: want.values.len() as u64,
        });
    }
    match first_other(held.as_slice(), want.values.as_slice()) {
        None => Ok(()),
        Some((at, held, wanted)) => {
            let place = place_of(alloc, arrays, want.name.as_slice(), at)?;
            Err(Wrong::Value {
                place,
                held,
                wanted,
            })
        }
    }
}

// The first place at which two lists of one length differ, and what they have there.
fn first_other(held: &[u32], wanted: &[u32]) -> Option<(usize, u32, u32)>
    requires { length held.now ≡ length wanted.now }
    ensures same { result ≡ None → held.now ≡ wanted.now }
    ensures holds { IfSome result (λ other. slice_get held.now other.0 ≡ Some other.1) }
    ensures wants { IfSome result (λ other. slice_get wanted.now other.0 ≡ Some other.2) }
    ensures differ { IfSome result (λ other. other.1 ≢ other.2) }
{
    for at in 0..held.len() {
        if held[at] != wanted[at] {
            return Some((at, held[at], wanted[at]));
        }
    }
    None
}

// The place of a name; where the program has none, the name.
fn place_of(
    alloc: Global,
    arrays: &[Array],
    name: &[u8],
    index: usize,
) -> Result<Vec<u8>, AllocError>
    requires few { All (λ array. array.base < 2 ^ 63) arrays.now }
    requires index { index < 2 ^ 63 }
    ensures { IfOk result (λ place. place.items ≡ place_named arrays.now name.now index) }
{
    match array_named(arrays, name) {
        None => Vec::from_slice(alloc, name),
        Some(array) => place_text(alloc, arrays, array.base().saturating_add(index)),
    }
}
