//! What holds of answers: each function here does nothing, and its contract is a law.
ghost use Rattle.pardo_answers.specs.Laws.{PrintedAnswersAreThePrograms};
ghost use Rattle.pardo_answers.specs.Laws.{RecordedAnswersAreThePrograms};

/// What is printed of a job that carries a program is the program's answer, by its meaning.
pub fn printed_answers_are_the_programs()
    ensures { PrintedAnswersAreThePrograms }
{}

/// What is printed as records of a job that carries a program is the program's end, by its meaning,
/// or its conflict.
pub fn recorded_answers_are_the_programs()
    ensures { RecordedAnswersAreThePrograms }
{}
