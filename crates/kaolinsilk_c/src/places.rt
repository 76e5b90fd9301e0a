//! Where the arrays of a program lie.
ghost use Rattle.std.specs.Prelude.{◌≡◌, ◌≢◌, ◌⊎◌, None};
ghost use Rattle.library_boards.specs.Givens.{IsPlaceIn, IsRefusedText, array_called, text_arrays};
ghost use Rattle.library_boards.specs.declared.status.TheConstants.{DONE, FAILED, MEMORY, REFUSED};

use library_boards::{PlaceTold, place_of};
use std::alloc::Global;

/// Tells where a shared array or scalar of a program lies in the cells of its job, by its name.
/// Nothing is run.
#[unsafe(no_mangle)]
pub extern "C" fn ks_place_of(alloc: Global, text: &[u8], name: &[u8], place: &mut PlaceTold) -> u32
    ensures place { result ≡ DONE → IsPlaceIn (text_arrays text.now) name.now place.new }
    ensures none { result ≡ FAILED → array_called (text_arrays text.now) name.now ≡ None }
    ensures refused { result ≡ REFUSED → IsRefusedText text.now }
    ensures ends { (result ≡ DONE) ⊎ ((result ≡ FAILED) ⊎ ((result ≡ REFUSED)
        ⊎ (result ≡ MEMORY))) }
    ensures kept { result ≢ DONE → place.new ≡ place.old }
{
    place_of(alloc, text, name, place)
}
