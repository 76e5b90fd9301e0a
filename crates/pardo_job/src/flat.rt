//! The program that is compiled in place of one.
ghost use Rattle.std.specs.Prelude.{◌≡◌, IfErr, IfOk};
ghost use Rattle.pardo_program.specs.Lawful.{IsProgram};
ghost use Rattle.pardo_flat.specs.Flat.{flat};
ghost use Rattle.pardo_job.specs.Refusals.{IsProgramFault};

use crate::fault::{JobFault, JobKind};
use pardo_flat::{Flattened, flatten};
use pardo_text::Program;
use std::alloc::Global;

/// The program that is compiled in place of one: lines with more parts than registers have hidden
/// lines before them, which give the parts to variables without a name.
pub fn flat_program(alloc: Global, program: Program) -> Result<Program, JobFault>
    requires { IsProgram program }
    ensures flat { IfOk result (λ given. given ≡ flat program) }
    ensures lawful { IfOk result IsProgram }
    ensures refused { IfErr result (λ fault. IsProgramFault program fault.line fault.kind) }
{
    match flatten(alloc, &program)? {
        Flattened::Same => Ok(program),
        Flattened::Flat(flat) => Ok(flat.program),
        Flattened::TooWide(line) => Err(JobFault {
            line,
            kind: JobKind::TooManyCells,
        }),
    }
}
