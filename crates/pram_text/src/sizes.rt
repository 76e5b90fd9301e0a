//! How large a machine a text of a version may ask for.
ghost use Rattle.std.specs.Prelude.{◌≡◌};
ghost use Rattle.pram_text.specs.Judgement.{most_cells, most_procs};

use pram_job::limits::{MAX_CELLS, MAX_PROCS};

/// How many cells a text of this version asks for at most.
pub(crate) fn most_cells(version: u32) -> u32
    ensures { result ≡ most_cells version }
{
    if version >= 3 { MAX_CELLS } else { 65_536 }
}

/// How many processors a text of this version asks for at most.
pub(crate) fn most_procs(version: u32) -> u32
    ensures { result ≡ most_procs version }
{
    if version >= 3 { MAX_PROCS } else { 1_024 }
}
