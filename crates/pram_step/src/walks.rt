//! A walk over the steps of a job, on which somebody looks.
ghost use Rattle.std.specs.Prelude.{ℕ, ◌≡◌, ◌+◌, ◌≤◌, IfOk, OnOk};
ghost use Rattle.pram_job.specs.Job.{JobData};
ghost use Rattle.pram_step.specs.Runs.{IsStateAfter};
ghost use Rattle.pram_step.specs.Walks.{IsSight, IsWalked, LeadsTo, begun, begun_before};

use crate::answer::Fault;
use crate::laws;
use crate::pass::{Course, Room, make_steps};
use crate::state::State;
use pram_job::Job;
use std::alloc::{AllocError, Global};

/// What is seen before some steps.
#[derive(Clone, Copy)]
pub struct Sight<'a> {
    pub job: &'a Job,
    /// The state in which these steps begin.
    pub state: &'a State,
    /// How many steps were made before.
    pub made: u32,
    /// How many steps begin in this state, one after another.
    pub times: u32,
    /// The processors that run, in order. Others here have stopped.
    pub running: &'a [u32],
}

/// One who looks at a machine before its steps.
pub trait Observer {
    /// What one knows who has seen so many steps of a job.
    ghost has_seen: { JobData → ℕ → Self → Type 0 };

    /// Looks at the steps that come next.
    fn look(&mut self, sight: &Sight<'_>) -> Result<(), AllocError>
        requires sight { IsSight sight.now }
        requires before { has_seen sight.now.job.now sight.now.made self.old }
        ensures { OnOk result (has_seen sight.now.job.now (sight.now.made + sight.now.times)
            self.new) };
}

/// Nobody looks on.
#[derive(Clone, Copy, Debug)]
pub struct Nobody;

impl Observer for Nobody {
    ghost has_seen = { λ _ _ _. Unit {0} };

    #[inline(always)]
    fn look(&mut self, _sight: &Sight<'_>) -> Result<(), AllocError> {
        Ok(())
    }
}

/// Where a job is, to go on from.
#[derive(Drop)]
pub struct Stage<'a> {
    pub job: &'a Job,
    pub state: State,
    pub made: u32,
    ghost after: { IsStateAfter job.now made state },
}

/// What a walk comes to.
#[derive(Debug, Drop)]
pub enum Walked {
    /// All its steps were made, and lead to this state.
    Through(State),
    /// This one of them was against the rule.
    Disputed(Fault),
}

/// Walks from the start through so many steps, or up to the first that is against the rule. The
/// observer sees each of them, that one too.
///
/// It costs what `plain_answer` does, and what the observer costs beside.
pub fn walk<O: Observer>(
    alloc: Global,
    job: &Job,
    steps: u32,
    observer: &mut O,
) -> Result<Walked, AllocError>
    requires { O.has_seen job.now 0 observer.old }
    ensures walked { IfOk result (IsWalked job.now steps) }
    ensures seen { IfOk result (λ walked.
        O.has_seen job.now (begun steps walked) observer.new) }
{
    laws::start_is_a_state();
    let state = State::start(alloc, job)?;
    let stage = Stage {
        job,
        state,
        made: 0,
    };
    walk_on(alloc, stage, steps, observer)
}

/// Walks on from a later state, through so many steps in all, or up to the first that is against
/// the rule.
pub fn walk_on<O: Observer>(
    alloc: Global,
    stage: Stage<'_>,
    steps: u32,
    observer: &mut O,
) -> Result<Walked, AllocError>
    requires within { stage.made ≤ steps }
    requires seen { O.has_seen stage.job.now stage.made observer.old }
    ensures walked { IfOk result (IsWalked stage.entry.job.now steps) }
    ensures seen { IfOk result (λ walked.
        O.has_seen stage.entry.job.now (begun steps walked) observer.new) }
{
    let Stage {
        job,
        mut state,
        made,
    } = stage;
    let span = Span {
        from: made,
        to: steps,
    };
    match walk_in(alloc, job, &mut state, span, observer)? {
        None => Ok(Walked::Through(state)),
        Some(fault) => Ok(Walked::Disputed(fault)),
    }
}

/// The steps after so many, up to so many.
#[derive(Clone, Copy)]
pub struct Span {
    pub from: u32,
    pub to: u32,
}

/// Walks on in a state of the caller's, through the steps of a span or up to the first that is
/// against the rule. After a conflict each processor's counter there is known that it has asked
/// for; what the registers and cells hold then is not told.
pub fn walk_in<O: Observer>(
    alloc: Global,
    job: &Job,
    state: &mut State,
    span: Span,
    observer: &mut O,
) -> Result<Option<Fault>, AllocError>
    requires within { span.from ≤ span.to }
    requires after { IsStateAfter job.now span.from state.old }
    requires seen { O.has_seen job.now span.from observer.old }
    ensures walked { IfOk result (LeadsTo job.now span.to state.new) }
    ensures seen { IfOk result (λ fault.
        O.has_seen job.now (begun_before span.to fault) observer.new) }
{
    let mut room = Room::of(alloc, job)?;
    match make_steps(job, state, &mut room, span, observer)? {
        Course::Made | Course::Settled => Ok(None),
        Course::Disputed(fault) => Ok(Some(fault)),
    }
}
