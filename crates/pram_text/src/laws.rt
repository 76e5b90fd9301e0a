//! Laws of the text: they show that the definitions mean what is meant.
//! Nothing happens when they are called.
ghost use Rattle.pram_text.specs.Laws.{BlanksSayNothing, CommentsSayNothing, FaultIsWithin};
ghost use Rattle.pram_text.specs.Laws.{InstructionsHaveLines, JobOrFault};
ghost use Rattle.pram_text.specs.Laws.{LinesAreCounted, LinesAreJoined};
ghost use Rattle.pram_text.specs.Laws.{OneFault, OneJob};
ghost use Rattle.pram_text.specs.Laws.{SpelledBearsNothing, SpelledJobIsLawful};
ghost use Rattle.pram_text.specs.Laws.{UnknownLabelComesLast, WordlessLinesAreSkipped};

pub use pram_job::laws::limits_are;

/// The lines of a text, joined by line feeds, are the text, and there is one more of them than
/// line feeds.
pub fn lines_are_joined_by_line_feeds()
    ensures joined { LinesAreJoined }
    ensures count { LinesAreCounted }
{}

/// A text spells at most one job.
pub fn one_job()
    ensures { OneJob }
{}

/// A job that a text spells keeps the limits.
pub fn spelled_job_is_lawful()
    ensures { SpelledJobIsLawful }
{}

/// A text that spells a job bears no fault.
pub fn spelled_bears_nothing()
    ensures { SpelledBearsNothing }
{}

/// A text bears at most one fault, on one line.
pub fn one_fault()
    ensures { OneFault }
{}

/// Every text spells a job or bears a fault.
pub fn job_or_fault()
    ensures { JobOrFault }
{}

/// A fault stands on a line of its text.
pub fn fault_is_within()
    ensures { FaultIsWithin }
{}

/// Where no line has a fault of its own and nothing lacks at the end, a label is unknown.
pub fn unknown_label_comes_last()
    ensures { UnknownLabelComesLast }
{}

/// A comment, from its `;` on, changes nothing.
pub fn comments_say_nothing()
    ensures { CommentsSayNothing }
{}

/// Blanks at the ends of a line change nothing.
pub fn blanks_say_nothing()
    ensures { BlanksSayNothing }
{}

/// A line without words can be left out.
pub fn wordless_lines_are_skipped()
    ensures { WordlessLinesAreSkipped }
{}

/// Each instruction of a job stands on a line of its text.
pub fn instructions_have_lines()
    ensures { InstructionsHaveLines }
{}
