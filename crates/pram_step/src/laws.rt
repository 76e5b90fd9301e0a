//! What holds of every job: each function here does nothing, and its contract is a law of the
//! machine.
ghost use Rattle.pram_step.specs.Laws.{RequestsHaveShape, DecisionsHaveShape, ReadsOneCell};
ghost use Rattle.pram_step.specs.Laws.{NextIsNext, OneNext, AgreesOrHasADispute, OneDispute};
ghost use Rattle.pram_step.specs.Laws.{PriorityAlwaysAgrees, OnlyCellsClash, OrderIsFree};
ghost use Rattle.pram_step.specs.Laws.{LeastWriterIsFound, TurnsAreFree, StartIsAState};
ghost use Rattle.pram_step.specs.Laws.{NextIsAState, OneState, ReachedWhereNothingIsDisputed};
ghost use Rattle.pram_step.specs.Laws.{StatesHaveAllPlaces, CountersStayWithin};
ghost use Rattle.pram_step.specs.Laws.{CountersFollowRequests, LastWriteIsTheLast};
ghost use Rattle.pram_step.specs.Laws.{UnwrittenPlaceKeepsItsValue, ValueIsOfTheLastWrite};
ghost use Rattle.pram_step.specs.Laws.{WrittenPlaceHoldsTheValue, ProcessorsWriteTheirRequests};
ghost use Rattle.pram_step.specs.Laws.{WritesFit, StoppedMachineStays, StoppedMachineGoesOn};
ghost use Rattle.pram_step.specs.Laws.{UnchangedStays, StoppedProcessorStays};
ghost use Rattle.pram_step.specs.Laws.{ConflictExcludesFinal, HasAnswer, OneAnswer};
ghost use Rattle.pram_step.specs.Laws.{CrewIsStrictest, PriorityIsFreest};
ghost use Rattle.pram_step.specs.Laws.{NextOfCrewIsNextOfEachRule};
ghost use Rattle.pram_step.specs.Laws.{NextOfEachRuleIsNextOfPriority, CrewEndsAsEachRule};
ghost use Rattle.pram_step.specs.Laws.{PriorityEndsAsEachRule, ConflictIsThatOfALongerJob};
ghost use Rattle.pram_step.specs.Laws.{LongerJobGoesOn};

// ---- requests

/// A request asks for data in a cell or an own register at most, its numbers fit, and its next
/// counter is within the code or says that the processor stops.
#[tactic(auto, using(pram_machine::proofs::Shapes::request_shape))]
pub fn requests_have_shape()
    ensures { RequestsHaveShape }
{}

/// What an instruction of the job asks for has that shape, whatever numbers its operands and its
/// cell hold.
#[tactic(auto, using(pram_machine::proofs::Shapes::decided_shape))]
pub fn decisions_have_shape()
    ensures { DecisionsHaveShape }
{}

/// A request depends on its processor's registers and counter, and on one cell at most.
#[tactic(auto, using(crate::proofs::LawFrames::reads_one_cell))]
pub fn reads_one_cell()
    ensures { ReadsOneCell }
{}

// ---- the next state

/// A step that agrees has a next state.
pub fn next_is_next()
    ensures { NextIsNext }
{}

/// A state has one next state at most.
pub fn one_next()
    ensures { OneNext }
{}

/// A step agrees, or has a dispute.
pub fn agrees_or_has_a_dispute()
    ensures { AgreesOrHasADispute }
{}

/// The cell and the two processors of a dispute are determined.
pub fn one_dispute()
    ensures { OneDispute }
{}

/// With rule priority each step agrees.
#[tactic(auto, using(crate::proofs::LawAnswers::priority_never_clashes))]
pub fn priority_always_agrees()
    ensures { PriorityAlwaysAgrees }
{}

/// A place that is no cell has one writer at most, and so one value at most is written to it.
pub fn only_cells_clash()
    ensures { OnlyCellsClash }
{}

/// Where a step agrees with rule common or crew, each place may take what the first writer gives it
/// that is found, in whatever order the processors are looked at.
#[tactic(auto, using(crate::proofs::LawOrders::order_is_free))]
pub fn order_is_free()
    ensures { OrderIsFree }
{}

/// Under each rule, each place may take what the least writer gives it, in whatever order the
/// processors are looked at.
#[tactic(auto, using(crate::proofs::LawLeast::least_is_found))]
pub fn least_writer_is_found()
    ensures { LeastWriterIsFound }
{}

/// Where a step agrees with rule common or crew, the processors may write one after another, in
/// whatever order.
#[tactic(auto, using(crate::proofs::LawTurns::turns_are_free))]
pub fn turns_are_free()
    ensures { TurnsAreFree }
{}

// ---- states

/// The start is the state after no steps.
#[tactic(auto, using(crate::proofs::LawFixed::start_after))]
pub fn start_is_a_state()
    ensures { StartIsAState }
{}

/// The next state is that after one step more, where the step agrees.
pub fn next_is_a_state()
    ensures { NextIsAState }
{}

/// There is one state at most after t steps.
#[tactic(auto, using(crate::proofs::LawFixed::one_state))]
pub fn one_state()
    ensures { OneState }
{}

/// There is a state after t steps exactly where no step up to t has a dispute.
pub fn reached_where_nothing_is_disputed()
    ensures { ReachedWhereNothingIsDisputed }
{}

/// Each state has the places of the job, and each of them holds a number below 2^32.
#[tactic(auto, using(crate::proofs::LawFits::all_places))]
pub fn states_have_all_places()
    ensures { StatesHaveAllPlaces }
{}

/// A counter is an instruction's index, or says that the processor has halted or that an address
/// was out of range.
#[tactic(auto, using(crate::proofs::LawCounters::counter_within))]
pub fn counters_stay_within()
    ensures { CountersStayWithin }
{}

/// A counter takes what its processor asks for.
#[tactic(auto, using(crate::proofs::LawCounters::next_counter))]
pub fn counters_follow_requests()
    ensures { CountersFollowRequests }
{}

// ---- what the steps write

/// The last write of a place up to t is a step that writes it, and no later one up to t does.
pub fn last_write_is_the_last()
    ensures { LastWriteIsTheLast }
{}

/// A place that some steps do not write holds after them what it held before them.
#[tactic(auto, using(crate::proofs::Past::value_kept))]
pub fn unwritten_place_keeps_its_value()
    ensures { UnwrittenPlaceKeepsItsValue }
{}

/// A place holds what it held after the last step that wrote it.
#[tactic(auto, using(crate::proofs::Past::value_of_last))]
pub fn value_is_of_the_last_write()
    ensures { ValueIsOfTheLastWrite }
{}

/// A place that a step writes holds after it the value of the write that counts.
pub fn written_place_holds_the_value()
    ensures { WrittenPlaceHoldsTheValue }
{}

/// A processor writes the data of its request, if it has any, and the next counter to its own
/// counter, and nothing else.
pub fn processors_write_their_requests()
    ensures { ProcessorsWriteTheirRequests }
{}

/// What a step writes goes to places of the job, and is below 2^32.
pub fn writes_fit()
    ensures { WritesFit }
{}

// ---- what stops

/// A machine whose processors have all stopped makes steps that agree and change nothing.
pub fn stopped_machine_stays()
    ensures { StoppedMachineStays }
{}

/// A machine whose processors have all stopped goes on with equal states.
pub fn stopped_machine_goes_on()
    ensures { StoppedMachineGoesOn }
{}

/// A step that agrees and changes nothing is followed by such steps alone.
pub fn unchanged_stays()
    ensures { UnchangedStays }
{}

/// A processor that has stopped keeps its counter and writes no data.
pub fn stopped_processor_stays()
    ensures { StoppedProcessorStays }
{}

// ---- answers

/// A job that reaches a state has no conflict up to it.
pub fn conflict_excludes_final()
    ensures { ConflictExcludesFinal }
{}

/// A job has an answer.
#[tactic(auto, using(crate::proofs::LawDisputes::has_answer))]
pub fn has_answer()
    ensures { HasAnswer }
{}

/// A job has one answer at most.
#[tactic(auto, using(crate::proofs::LawAnswer::one_answer))]
pub fn one_answer()
    ensures { OneAnswer }
{}

// ---- jobs that differ in their rule or their number of steps alone

/// What crew accepts, each rule accepts, with the same states.
pub fn crew_is_strictest()
    ensures { CrewIsStrictest }
{}

/// What some rule accepts, priority accepts, with the same states.
#[tactic(auto, using(crate::proofs::LawAnswers::priority_state))]
pub fn priority_is_freest()
    ensures { PriorityIsFreest }
{}

/// A next state under crew is one under each rule.
pub fn next_of_crew_is_next_of_each_rule()
    ensures { NextOfCrewIsNextOfEachRule }
{}

/// A next state under some rule is one under priority.
pub fn next_of_each_rule_is_next_of_priority()
    ensures { NextOfEachRuleIsNextOfPriority }
{}

/// What a job ends with under crew, it ends with under each rule.
pub fn crew_ends_as_each_rule()
    ensures { CrewEndsAsEachRule }
{}

/// What a job ends with under some rule, it ends with under priority.
pub fn priority_ends_as_each_rule()
    ensures { PriorityEndsAsEachRule }
{}

/// A conflict within the steps of a job is that of the job with more steps, and the other way
/// round.
#[tactic(auto, using(crate::proofs::LawAnswers::longer_conflict))]
pub fn conflict_is_that_of_a_longer_job()
    ensures { ConflictIsThatOfALongerJob }
{}

/// The states of a job are those of the job with another number of steps.
pub fn longer_job_goes_on()
    ensures { LongerJobGoesOn }
{}
