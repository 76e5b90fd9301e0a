//! Laws of jobs. Nothing happens when they are called.
ghost use Rattle.pram_job.specs.Laws.{InstructionsAreInTable, LimitsAre};

/// The limits by their numbers.
pub fn limits_are()
    ensures { LimitsAre }
{}

/// Each instruction has its row of the table.
#[tactic(auto, using(crate::proofs::Table::in_table))]
pub fn instructions_are_in_table()
    ensures { InstructionsAreInTable }
{}
