//! A program before it is run, and its job once the number of its steps is known.
ghost use Rattle.std.specs.Prelude.{◌≡◌, false, true, IfErr, IfNone, IfOk, IfSome};
ghost use Rattle.pram_step.specs.Runs.{IsAnswer};
ghost use Rattle.pram_step.specs.declared.answer.RunAnswer.TheVariants.{Final};
ghost use Rattle.pram_board.specs.Stops.{StopsThere};
ghost use Rattle.pardo_answers.specs.Language.{is_program};
ghost use Rattle.naming.specs.BadTexts.{IsBadOrMemory};
ghost use Rattle.naming.specs.Drafted.{IsCounted, IsDrafted};
ghost use Rattle.naming.specs.Inner.Refusals.{IsFaultOf};

use crate::names::Naming;
use pardo_answers::is_program;
use pardo_job::{Draft, Ended, JobFault, JobKind, Lines, Refusal, draft_in, finish};
use pardo_text::{PardoFault, PardoKind};
use pram_job::Job;
use pram_step::{Cells, Nobody, RunAnswer};
use refusals::CommandFault;
use std::alloc::Global;

/// A step of a longer job after which all processors have stopped, each at its end, and what the
/// cells hold then.
#[derive(Drop)]
pub struct Stop<'a> {
    pub longer: &'a Job,
    pub step: u32,
    pub cells: Vec<u32>,
}

/// A program's job before it is run, or none where the text is one of the machine.
pub fn drafted(alloc: Global, text: &[u8]) -> Result<Option<Draft>, CommandFault>
    ensures none { IfOk result (λ given. IfNone given (is_program text.now ≡ false)) }
    ensures draft { IfOk result (λ given. IfSome given (IsDrafted text.now)) }
    ensures bad { IfErr result (IsBadOrMemory text.now) }
{
    if is_program(text) {
        Ok(Some(program_draft(alloc, text)?))
    } else {
        Ok(None)
    }
}

/// The same of a text that is a program.
pub(crate) fn program_draft(alloc: Global, text: &[u8]) -> Result<Draft, CommandFault>
    requires { is_program text.now ≡ true }
    ensures draft { IfOk result (IsDrafted text.now) }
    ensures bad { IfErr result (IsBadOrMemory text.now) }
{
    match draft_in(alloc, text) {
        Ok(draft) => Ok(draft),
        Err(refusal) => Err(fault_of(refusal)),
    }
}

/// The job of the program that a text is, with its steps, and what its answers are told by: it is
/// run once to find them.
pub fn counted(alloc: Global, text: &[u8], draft: Draft) -> Result<(Job, Naming), CommandFault>
    requires { IsDrafted text.now draft }
    ensures counted { IfOk result (λ read. IsCounted text.now draft read.0 read.1) }
    ensures bad { IfErr result (IsBadOrMemory text.now) }
{
    let places = Vec::from_slice(alloc, draft.places.as_slice())?;
    let (program, compiled, _) = match finish(alloc, draft, Nobody) {
        Ok(given) => given,
        Err(fault) => return Err(fault_of(Refusal::Job(fault))),
    };
    let (job, numbers, ended) = compiled.into_parts();
    let naming = Naming {
        program,
        places,
        numbers,
        ended,
    };
    Ok((job, naming))
}

/// The same, where it is known after which step all processors stop: nothing is run.
pub fn stopped(alloc: Global, text: &[u8], draft: Draft, stop: Stop<'_>) -> (Job, Naming)
    requires drafted { IsDrafted text.now draft }
    requires longer { stop.longer.now ≡ record draft.job { steps = stop.longer.now.steps } }
    requires stops { StopsThere stop.longer.now stop.step }
    requires answer { IsAnswer stop.longer.now (Final stop.cells.items) }
    ensures counted { IsCounted text.now draft result.0 result.1 }
    ensures steps { result.0.steps ≡ stop.entry.step }
{
    let Draft {
        program,
        job,
        numbers,
        places,
    } = draft;
    let Stop { step, cells, .. } = stop;
    let job = job.with_steps(step);
    job.limits_hold();
    let answer = RunAnswer::Final(Cells::new(cells));
    let gone = Vec::new(alloc);
    let lines = Lines { gone, disputed: 0 };
    let ended = Ended { answer, lines };
    let naming = Naming {
        program,
        places,
        numbers,
        ended,
    };
    (job, naming)
}

/// What a refusal of a program is to a command.
pub(crate) fn fault_of(refusal: Refusal) -> CommandFault
    ensures { IsFaultOf refusal result }
{
    match refusal {
        Refusal::Text(
            PardoFault {
                kind: PardoKind::Memory,
                ..
            },
        ) => CommandFault::Memory,
        Refusal::Job(
            JobFault {
                kind: JobKind::Memory,
                ..
            },
        ) => CommandFault::Memory,
        Refusal::Text(fault) => CommandFault::Program(Refusal::Text(fault)),
        Refusal::Job(fault) => CommandFault::Program(Refusal::Job(fault)),
    }
}
