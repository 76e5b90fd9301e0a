//! Laws of the definitions, each the contract of a function that does nothing.
ghost use Rattle.stop_plan.specs.Laws.{NeverBoth, OnePlanFault, OnePlan, OneSchedule};
ghost use Rattle.stop_plan.specs.Laws.{PlanOrFault, RowsAsTexts, RowsNameWorkers};

/// Records spell at most one plan.
pub fn one_plan()
    ensures { OnePlan }
{}

/// Records have at most one first fault, which is never `Memory`.
pub fn one_fault()
    ensures { OnePlanFault }
{}

/// Records spell a plan or have a first fault.
pub fn plan_or_fault()
    ensures { PlanOrFault }
{}

/// Records that spell a plan have no fault.
pub fn never_both()
    ensures { NeverBoth }
{}

/// Each row of a plan names one of its workers.
pub fn rows_name_workers()
    ensures { RowsNameWorkers }
{}

/// Rows are judged as a text is that says them: the same plan, or the same fault of the same
/// record.
pub fn rows_as_texts()
    ensures { RowsAsTexts }
{}

/// A plan has at most one schedule, whatever world says which workers still run.
pub fn one_schedule<Event>()
    ensures { OneSchedule Event }
{}
