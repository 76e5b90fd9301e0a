//! Laws of judged submissions: each function does nothing, and says to a proof that its law holds.
ghost use Rattle.std.specs.Prelude.{ℕ, List};
ghost use Rattle.exercise_words.specs.Laws.{DoneWhereAllSolve, WhatDidNotPassFails};
ghost use Rattle.exercise_words.specs.Laws.{WhatIsMetIsSolved, WhatIsSolvedIsMet, WhatPassedSolves};

/// A submission that meets a trial has all given lines. With the header of the trial it is a
/// program that ends with the wanted values by its meaning, and with all processors, unless they
/// may leave; in no more time and operations, steps and lines than the bars allow, under the model.
pub fn what_is_met_is_solved()
    ensures { WhatIsMetIsSolved }
{}

/// And such a submission meets the trial.
pub fn what_is_solved_is_met()
    ensures { WhatIsSolvedIsMet }
{}

/// What a record of `pramx judge` says passed solves all trials of the exercise.
pub fn what_passed_solves()
    ensures { WhatPassedSolves }
{}

/// What a record says failed under an input solves the trials before it, and not its trial, unless
/// memory or steps ran out; and what is said to be wrong is wrong.
pub fn what_did_not_pass_fails()
    ensures { WhatDidNotPassFails }
{}

/// Where `pramx judge` ends as done, each file gave a submission that solves all trials.
pub fn done_where_all_solve<G: Giving>()
    ensures { DoneWhereAllSolve G.gives }
{}

/// Files that give texts.
pub trait Giving {
    // Which text the file of a name gives.
    ghost gives: { List ℕ → List ℕ → Type 0 };
}
