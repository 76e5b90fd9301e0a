//! Rows that are printed of a job's steps.
ghost use Rattle.std.specs.Prelude.{◌≡◌, ◌+◌, ◌++◌, IfOk};
ghost use Rattle.pram_rows.specs.StepRows.{StepRows};

use pram_step::Moment;
use std::alloc::{AllocError, Global};

/// What is printed of a job's steps.
pub trait Rows {
    ghost rows: { Self → StepRows };

    /// The line above them.
    fn header(&self) -> &str
        ensures { result.now ≡ (rows self.now).header };

    /// Adds the rows of the step that comes next to these bytes.
    fn push_step(
        &self,
        alloc: Global,
        moment: &Moment<'_>,
        bytes: Vec<u8>,
    ) -> Result<Vec<u8>, AllocError>
        ensures { IfOk result (λ all. all.items ≡ bytes.items
            ++ (rows self.now).of_step moment.now.job.now moment.now.state.now
            (moment.now.made + 1)) };
}
