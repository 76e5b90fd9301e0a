//! Laws of the walk: each function here does nothing, and its contract is the law.
ghost use Rattle.walkx.specs.Laws.{AnswersKeepFit, KnownStayKnown, NewWorkersFit};
ghost use Rattle.walkx.specs.Laws.{EachOperationIsAdmitted, OwnStepsAreBounded, WhoIsGoingSteps};

/// A worker that is newly started, or comes back, fits the job and the board.
pub fn new_workers_fit()
    ensures { NewWorkersFit }
{}

/// A worker that fits still fits with each admitted answer.
pub fn answers_keep_fit()
    ensures { AnswersKeepFit }
{}

/// A worker that a record knows is known to the record with its next step.
pub fn known_stay_known()
    ensures { KnownStayKnown }
{}

/// Each operation of a worker that fits is on the board, and what it writes is admitted there.
pub fn each_operation_is_admitted()
    ensures { EachOperationIsAdmitted }
{}

/// A worker that fits and is not over asks for an atomic step on a word of the board.
pub fn who_is_going_steps()
    ensures { WhoIsGoingSteps }
{}

/// A worker that is still going has made fewer than 300 L T + 8 steps, L being the least power of
/// two that is at least the number of processors and T the steps of the job, if it hears no node
/// below what it loaded there before or raised it to.
pub fn own_steps_are_bounded()
    ensures { OwnStepsAreBounded }
{}
