//! What holds of costs and models: each function here does nothing, and its contract is a law.
ghost use Rattle.pram_cost.specs.Laws.{StrongerModelsAccept, ErewAcceptsLeast};
ghost use Rattle.pram_cost.specs.Laws.{PriorityAcceptsAll, OneModelIsNeeded, CrewIsTheRule};
ghost use Rattle.pram_cost.specs.Laws.{CommonIsTheRule, CrewRunsAreReached};
ghost use Rattle.pram_cost.specs.Laws.{CommonRunsAreReached, OneCost, AtMostAllWork};
ghost use Rattle.pram_cost.specs.Laws.{WorkIsWithinTheProduct, StepsWithAreSteps};
ghost use Rattle.pram_cost.specs.Laws.{StoppedMachineCostsNothing};

// ---- models

/// What a model accepts the stronger ones accept.
pub fn stronger_models_accept()
    ensures { StrongerModelsAccept }
{}

/// What EREW accepts each model accepts.
pub fn erew_accepts_least()
    ensures { ErewAcceptsLeast }
{}

/// CRCW priority accepts each step.
#[tactic(auto, using(crate::proofs::LawModels::priority_accepts))]
pub fn priority_accepts_all()
    ensures { PriorityAcceptsAll }
{}

/// A run needs one model.
pub fn one_model_is_needed()
    ensures { OneModelIsNeeded }
{}

/// CREW accepts the steps that agree with rule crew.
pub fn crew_is_the_rule()
    ensures { CrewIsTheRule }
{}

/// CRCW common accepts the steps that agree with rule common.
pub fn common_is_the_rule()
    ensures { CommonIsTheRule }
{}

/// CREW accepts the first steps of a job where it makes them under rule crew, too.
pub fn crew_runs_are_reached()
    ensures { CrewRunsAreReached }
{}

/// CRCW common accepts the first steps of a job where it makes them under rule common, too.
pub fn common_runs_are_reached()
    ensures { CommonRunsAreReached }
{}

// ---- costs

/// A run has one cost.
pub fn one_cost()
    ensures { OneCost }
{}

/// No more processors run than there are.
#[tactic(auto, using(crate::proofs::LawCosts::at_most_all))]
pub fn at_most_all_work()
    ensures { AtMostAllWork }
{}

/// No more instructions are executed than the steps times the processors.
#[tactic(auto, using(crate::proofs::LawCosts::within_product))]
pub fn work_is_within_the_product()
    ensures { WorkIsWithinTheProduct }
{}

/// No more steps have such an access than there are.
pub fn steps_with_are_steps()
    ensures { StepsWithAreSteps }
{}

/// In a machine whose processors have all stopped none runs, none reads or writes a cell, and so
/// EREW accepts its steps.
pub fn stopped_machine_costs_nothing()
    ensures { StoppedMachineCostsNothing }
{}
