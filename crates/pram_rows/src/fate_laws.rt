//! What holds of what becomes of processors: each function here does nothing, and its contract is a
//! law.
ghost use Rattle.pram_rows.specs.FateLaws.{ClashValuesAreWritten, LostHaveCauses};
ghost use Rattle.pram_rows.specs.FateLaws.{LostStaysLost, OneFates};

/// What becomes of the processors in a number of steps is one thing.
pub fn one_fates()
    ensures { OneFates }
{}

/// A processor that named a cell that there is not has stopped for good, and its counter says why.
pub fn lost_stays_lost()
    ensures { LostStaysLost }
{}

/// What two processors are told to write against the rule they ask for in that step.
pub fn clash_values_are_written()
    ensures { ClashValuesAreWritten }
{}

/// One who is lost is so by a cause that is told: its index is not below the length, or it divides.
pub fn lost_have_causes()
    ensures { LostHaveCauses }
{}
