//! The rows of a program's lines, of any text.
ghost use Rattle.std.specs.Prelude.{◌≡◌};
ghost use Rattle.pram_commands.specs.Traced.{traced};

use naming::Spelled;
use pardo_answers::{HEADER, Tracer};
use pram_rows::Rows;
use pram_step::Moment;
use std::alloc::{AllocError, Global};

/// A text of a job, whose lines are told as they are made.
#[derive(Clone, Copy)]
pub(crate) struct Traces<'a> {
    pub spelled: &'a Spelled,
}

impl Rows for Traces<'_> {
    ghost rows = { λ traces. traced traces.spelled.now.names };

    fn header(&self) -> &str {
        HEADER
    }

    fn push_step(
        &self,
        alloc: Global,
        moment: &Moment<'_>,
        bytes: Vec<u8>,
    ) -> Result<Vec<u8>, AllocError> {
        match &self.spelled.names {
            None => Ok(bytes),
            Some(naming) => naming.tracer().push_step(alloc, moment, bytes),
        }
    }
}
