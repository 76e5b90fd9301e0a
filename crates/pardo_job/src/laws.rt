//! The laws of the meaning: each function does nothing, and says to a proof that its law holds.
ghost use Rattle.pardo_job.specs.Laws.{GoneForGood, IndicesAreTested, LoopsAreCommon};
ghost use Rattle.pardo_job.specs.Laws.{LeftOutTestsPass, OutsideIsUnchanged, StepLimitsAre};
ghost use Rattle.pardo_job.specs.Laws.{TreesAreLawful};
ghost use Rattle.pardo_job.specs.Leaves.{ConditionsDecide, ExpressionsAreEvaluated};

/// The limits of steps by their numbers.
pub fn step_limits_are()
    ensures { StepLimitsAre }
{}

/// The value of an expression without the own number and private variables is one for all
/// processors.
pub fn loops_are_common()
    ensures { LoopsAreCommon }
{}

/// A processor that is not active asks for nothing, keeps its variables, and is gone or there as
/// before.
pub fn outside_is_unchanged()
    ensures { OutsideIsUnchanged }
{}

/// A processor that is gone stays so.
pub fn gone_for_good()
    ensures { GoneForGood }
{}

/// The code of an expression leaves its value in its register, and keeps those that were taken;
/// where there is no value it names a place that there is not.
pub fn expressions_are_evaluated()
    ensures { ExpressionsAreEvaluated }
{}

/// The code of a condition leaves 1 or 0, as the value is not 0 or is.
pub fn conditions_decide()
    ensures { ConditionsDecide }
{}

/// An expression of a lawful program names what there is in its cells.
pub fn trees_are_lawful()
    ensures { TreesAreLawful }
{}

/// Two indices that are both below their bounds name a place, row by row, and others none.
#[tactic(auto, using(crate::proofs::Tables::indices_are_tested))]
pub fn indices_are_tested()
    ensures { IndicesAreTested }
{}

/// A test of an index that is left out would have passed.
#[tactic(auto, using(crate::proofs::Untested::left_out_tests_pass))]
pub fn left_out_tests_pass()
    ensures { LeftOutTestsPass }
{}
