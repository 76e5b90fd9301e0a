//! How the arrays of a printed job are named.
ghost use Rattle.std.specs.Prelude.{◌≡◌, ◌++◌, string_bytes, OnOk};
ghost use Rattle.job_text.specs.Printed.{ArrayWords, array_word};

use pram_job::Array;
use std::alloc::AllocError;

/// What names arrays. `push_name` is called twice for an array at most, and once for each
/// instruction that names it.
pub trait ArrayNames {
    ghost words: { Self → ArrayWords };

    /// Adds the name of an array.
    fn push_name(&self, text: &mut String, array: Array) -> Result<(), AllocError>
        ensures { OnOk result (string_bytes text.new
            ≡ string_bytes text.old ++ words self.now array) };
}

/// Arrays are named by their first cell and how many they have, as `.a8_4`.
#[derive(Clone, Copy, Debug, PartialEq, Eq)]
pub struct Dotted;

impl ArrayNames for Dotted {
    ghost words = { λ _. array_word };

    fn push_name(&self, text: &mut String, array: Array) -> Result<(), AllocError> {
        let Array { base, len } = array;
        write!(text, ".a{base}_{len}")
    }
}
