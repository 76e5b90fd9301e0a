//! Laws of what is printed: each function does nothing, and says to a proof that its law holds.
ghost use Rattle.command_law.specs.Laws.{CompilePrintsTheSameJob, PlainPrintsTheProgramsAnswer};
ghost use Rattle.command_law.specs.Laws.{PlainRecordsTheProgramsEnd, RunsPrintTheProgramsAnswer};
ghost use Rattle.command_law.specs.Laws.{RunsRecordTheProgramsEnd};
ghost use Rattle.command_law.specs.Programs.{CheckTellsTheProgramsJob, CostsTellTheProgramsLines};
ghost use Rattle.command_law.specs.Programs.{ModelsJudgeTheProgram, PlainTellsWhy};
ghost use Rattle.command_law.specs.Programs.{RecordsTellTheProgramsLines};
ghost use Rattle.command_law.specs.Programs.{ReplaysPrintTheProgramsAnswer, RunsTellWhy};
ghost use Rattle.command_law.specs.Programs.{SweepsTellTheProgramsRuns};
ghost use Rattle.command_law.specs.Programs.{StepsTellTheProgramsLines, WatchesTellThePrograms};
ghost use Rattle.command_law.specs.Programs.{TracesTellTheProgramsLines};

/// What `plain` prints of a program is the program's answer, by its meaning.
pub fn plain_prints_the_programs_answer()
    ensures { PlainPrintsTheProgramsAnswer }
{}

/// What a run on threads prints of a program is the program's answer, by its meaning, unless its
/// plan stops every worker.
pub fn runs_print_the_programs_answer()
    ensures { RunsPrintTheProgramsAnswer }
{}

/// What `plain` prints as records of a program is the program's end, by its meaning, or its
/// conflict.
pub fn plain_records_the_programs_end()
    ensures { PlainRecordsTheProgramsEnd }
{}

/// What a run on threads prints as records of a program is that too, unless its plan stops every
/// worker.
pub fn runs_record_the_programs_end()
    ensures { RunsRecordTheProgramsEnd }
{}

/// What `compile` prints of a text is a text of the machine, whose one job is the one that the text
/// means: so all that another command tells of it is told of that very job.
pub fn compile_prints_the_same_job()
    ensures { CompilePrintsTheSameJob }
{}

/// What `check` prints of a program is the summary of the program's job.
pub fn check_tells_the_programs_job()
    ensures { CheckTellsTheProgramsJob }
{}

/// Each line of a watch of a program says what the place holds by the program's meaning, after the
/// lines that are made at that step; and what follows is the program's answer.
pub fn watches_tell_the_programs()
    ensures { WatchesTellThePrograms }
{}

/// What `steps` prints of a program are rows of the program's job, with the line of the program in
/// which each step lies, which writes what they have written to a place; and what follows is the
/// program's answer.
pub fn steps_tell_the_programs_lines()
    ensures { StepsTellTheProgramsLines }
{}

/// What `trace` prints of a program are rows of the program's job, with the lines of the program in
/// which its steps lie, which write what they have written to a place; and what follows is the
/// program's answer.
pub fn traces_tell_the_programs_lines()
    ensures { TracesTellTheProgramsLines }
{}

/// What a replay of a program prints after its trace is the program's answer, unless its plan stops
/// every worker.
pub fn replays_print_the_programs_answer()
    ensures { ReplaysPrintTheProgramsAnswer }
{}

/// What `cost` prints of a program are the costs of its job; each meeting is told by the line of
/// the program in which its step lies, two who write to one place do so in it, and a conflict is
/// the program's; and last its rounds, by its meaning.
pub fn costs_tell_the_programs_lines()
    ensures { CostsTellTheProgramsLines }
{}

/// The records that `cost --lines` prints of a program say what its counted lines cost by its
/// meaning: how often each is made, with how many processors. Their sums are its time and its
/// operations.
pub fn records_tell_the_programs_lines()
    ensures { RecordsTellTheProgramsLines }
{}

/// Where the run of a program goes beyond a model, what is printed says where: by the line of the
/// program and the place.
pub fn models_judge_the_program()
    ensures { ModelsJudgeTheProgram }
{}

/// The record that a sweep prints of a program as it is set says what its run costs by its meaning,
/// and how it ends.
pub fn sweeps_tell_the_programs_runs()
    ensures { SweepsTellTheProgramsRuns }
{}

/// With `--why` what `plain` prints of a program is the program's answer, and then who of its
/// processors was gone first, in which line, and what the two of a conflict write in it.
pub fn plain_tells_why()
    ensures { PlainTellsWhy }
{}

/// With `--why` a run on threads prints that too, unless its plan stops every worker; then it tells
/// the line in which the least processor that runs stands.
pub fn runs_tell_why()
    ensures { RunsTellWhy }
{}
