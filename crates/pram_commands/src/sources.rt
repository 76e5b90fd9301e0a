//! What a line reads, what that gives, and what it writes to.
ghost use Rattle.std.specs.Prelude.{◌≤◌};

use naming::Spelled;
use pardo_job::Draft;
use refusals::{CommandFault, Look};
use stop_plan::Plan;

/// The sources of a job and of its plan, and the job's text, once it was refused or is needed no
/// more. Where a line names no plan, the source of that has no bytes; whether it is known to be so.
#[derive(Drop)]
pub struct Sources<J, P> {
    pub job: J,
    pub plan: P,
    pub text: Option<Vec<u8>>,
    pub unplanned: bool,
}

/// A text with its job, and a plan for workers.
#[derive(Drop)]
pub struct Inputs {
    pub spelled: Spelled,
    pub plan: Plan,
    pub ghost some: { 1 ≤ plan.workers },
    pub ghost most: { plan.workers ≤ 64 },
}

/// A program's text, its job before it is run, and a plan without rows.
#[derive(Drop)]
pub(crate) struct Drafted {
    pub text: Vec<u8>,
    pub draft: Draft,
    pub plan: Plan,
    pub ghost some: { 1 ≤ plan.workers },
    pub ghost most: { plan.workers ≤ 64 },
}

/// Why a program's answer was not told, and its text.
#[derive(Drop)]
pub(crate) struct Refused {
    pub fault: CommandFault,
    pub text: Vec<u8>,
}

/// The output, and standard error: whether that is a terminal, whether it is told a sentence after
/// each refusal, and how such a sentence looks, and whether it is told notes on a text that is
/// checked or compiled.
#[derive(Drop)]
pub struct Console<O, E> {
    pub out: O,
    pub err: E,
    pub is_terminal: bool,
    pub explains: bool,
    pub look: Look,
    pub notes: bool,
}
