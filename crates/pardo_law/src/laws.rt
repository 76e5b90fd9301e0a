//! The laws of code that carries the meaning: each function does nothing, and says to a proof that
//! its law holds.
ghost use Rattle.pardo_job.specs.Laws.{AnyWriterCounts, CrewIsAccepted, OneLineDispute};
ghost use Rattle.pardo_job.specs.Laws.{RuleChangesNoState, UnwrittenIsKept};
ghost use Rattle.pardo_law.specs.Between.{JobsGoThrough, LinesNeverFall};
ghost use Rattle.pardo_law.specs.Counted.{JobsTellLines, JobsTellRounds, LinesAddUp};
ghost use Rattle.pardo_law.specs.FlatLevels.{FittingIsFlat, FlatLinesAreLevel, PiecesAreSmall};
ghost use Rattle.pardo_law.specs.FlatLevels.{RoomIsEnough, SmallIsWhole};
ghost use Rattle.pardo_law.specs.Flattening.{FlatteningKeepsRuns};
ghost use Rattle.pardo_law.specs.Locals.{EachByItself, ExpressionsAreStraight, IdlingStays};
ghost use Rattle.pardo_law.specs.Locals.{StoresAreMade, StraightCodeRuns};
ghost use Rattle.pardo_law.specs.Theorem.{AnswersAreThePrograms, JobsCarryPrograms};
ghost use Rattle.pardo_law.specs.Theorem.{RuleChangesNoRun, RunsEndOnce};
ghost use Rattle.pardo_law.specs.Untested.{LeftOutTestsChangeNothing};

/// What the compiler makes of a program carries its run: the job's states show those of the
/// program line by line, and it ends as the program does, or in its first conflict.
pub fn jobs_carry_programs()
    ensures { JobsCarryPrograms }
{}

/// What the compiler makes of a program goes through its lines: after each step arrays and private
/// variables hold what they hold after the lines that are made, and the next step lies in the next
/// line.
pub fn jobs_go_through()
    ensures { JobsGoThrough }
{}

/// The run of the job that the compiler makes of a program tells of each counted line how often it
/// is executed, how often some processor takes part in it, and how many do.
pub fn jobs_tell_lines()
    ensures { JobsTellLines }
{}

/// The operations of the counted lines are together those of the program, and so is their time.
pub fn lines_add_up()
    ensures { LinesAddUp }
{}

/// The run of the job that the compiler makes of a program tells how often the `end` of a loop of
/// the program is made.
pub fn jobs_tell_rounds()
    ensures { JobsTellRounds }
{}

/// With the steps of a job the number of lines that are made never falls.
pub fn lines_never_fall()
    ensures { LinesNeverFall }
{}

/// A run of a program ends once, and in one way.
pub fn runs_end_once()
    ensures { RunsEndOnce }
{}

/// The answer of the job that the compiler makes of a program is the program's: its shared cells at
/// the end, or its first conflict.
pub fn answers_are_the_programs()
    ensures { AnswersAreThePrograms }
{}

/// In a step each processor does what its instruction makes of its own registers and of memory.
pub fn each_by_itself()
    ensures { EachByItself }
{}

/// The code of an expression holds no store and no jump.
pub fn expressions_are_straight()
    ensures { ExpressionsAreStraight }
{}

/// Straight code of all processors takes a step for each instruction, and leaves memory as it is.
pub fn straight_code_runs()
    ensures { StraightCodeRuns }
{}

/// Where stores agree with the rule each cell takes the value of its least writer.
pub fn stores_are_made()
    ensures { StoresAreMade }
{}

/// The steps that stand in a line for those that its mask does not have do nothing.
pub fn idling_stays()
    ensures { IdlingStays }
{}

/// The rule says which lines agree, and changes no state.
pub fn rule_changes_no_state()
    ensures { RuleChangesNoState }
{}

/// A run that rule crew accepts every rule accepts.
pub fn crew_is_accepted()
    ensures { CrewIsAccepted }
{}

/// No order of processors matters: but for rule priority, a cell holds what any of its writers
/// gave it.
pub fn any_writer_counts()
    ensures { AnyWriterCounts }
{}

/// A cell that nobody writes keeps its value.
pub fn unwritten_is_kept()
    ensures { UnwrittenIsKept }
{}

/// A line has one dispute at most.
pub fn one_dispute()
    ensures { OneLineDispute }
{}

/// By every rule the states of a run are the same, as far as there are some.
pub fn rule_changes_no_run()
    ensures { RuleChangesNoRun }
{}

/// Flattening keeps runs: the flat program makes hidden lines and then the line, and its states
/// show those of the program.
pub fn flattening_keeps_runs()
    ensures { FlatteningKeepsRuns }
{}

/// Three registers are enough for an expression that is said to need no more.
pub fn room_is_enough()
    ensures { RoomIsEnough }
{}

/// Three registers are enough for each piece of an expression, and for what is left of it.
pub fn pieces_are_small()
    ensures { PiecesAreSmall }
{}

/// Nothing is split off an expression for which three registers are enough.
pub fn small_is_whole()
    ensures { SmallIsWhole }
{}

/// Three registers are enough for each line of the flat program: no expression is too deep.
pub fn flat_lines_are_level()
    ensures { FlatLinesAreLevel }
{}

/// A program of which each line fits three registers is flat already.
pub fn fitting_is_flat()
    ensures { FittingIsFlat }
{}

/// The tests of indices that the reader leaves out change no run: without them a program has the
/// same states line by line, and its processors ask for the same.
pub fn left_out_tests_change_nothing()
    ensures { LeftOutTestsChangeNothing }
{}
