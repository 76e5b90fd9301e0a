//! Laws of the text: they show that the definitions mean what is meant.
//! Nothing happens when they are called.
ghost use Rattle.pardo_text.specs.Laws.{ProgramLimitsAre};
ghost use Rattle.pardo_text.specs.Laws.{TokensAreLongest, LgIsLeast, ConstantsAreNumbers};
ghost use Rattle.pardo_text.specs.Laws.{ProgramCommentsSayNothing, IndentationSaysNothing};
ghost use Rattle.pardo_text.specs.Laws.{EmptyLinesSayNothing, LinesAreWhatTheySay};
ghost use Rattle.pardo_text.specs.Laws.{FirstBadLine, AllLinesAreTaken, ProgramsAreLawful};
ghost use Rattle.pardo_text.specs.Laws.{NamesAreDistinct, NothingSetChangesNothing};
ghost use Rattle.pardo_text.specs.Laws.{ProgramsAreNested};
ghost use Rattle.pardo_text.specs.Laws.{SetLinesStay};

/// The limits by their numbers.
pub fn limits_are()
    ensures { ProgramLimitsAre }
{}

/// A line begins with no longer token than the one that is taken.
pub fn tokens_are_longest()
    ensures { TokensAreLongest }
{}

/// `lg` gives the least k with 2^k at least the number.
pub fn lg_is_least()
    ensures { LgIsLeast }
{}

/// Where a number must be known at once, an expression is a number.
pub fn constants_are_numbers()
    ensures { ConstantsAreNumbers }
{}

/// A comment, from its `;` on, changes nothing.
pub fn comments_say_nothing()
    ensures { ProgramCommentsSayNothing }
{}

/// Blanks before the first token of a line change nothing.
pub fn indentation_says_nothing()
    ensures { IndentationSaysNothing }
{}

/// A line without a token changes nothing.
pub fn empty_lines_say_nothing()
    ensures { EmptyLinesSayNothing }
{}

/// A line may be written in another way that says the same.
pub fn lines_are_what_they_say()
    ensures { LinesAreWhatTheySay }
{}

/// A fault is that of the first bad line, or of the end of a text whose lines are all taken.
pub fn first_bad_line()
    ensures { FirstBadLine }
{}

/// A program is what all lines of its text say.
pub fn all_lines_are_taken()
    ensures { AllLinesAreTaken }
{}

/// A program that a text spells names what is there, and keeps the limits.
pub fn programs_are_lawful()
    ensures { ProgramsAreLawful }
{}

/// Each block of a program is closed by its own `end`, and each loop and its end know each other.
pub fn programs_are_nested()
    ensures { ProgramsAreNested }
{}

/// The shared arrays and the private variables of a program have names that differ.
pub fn names_are_distinct()
    ensures { NamesAreDistinct }
{}

/// A text in which nothing is set is as it was.
pub fn nothing_set_changes_nothing()
    ensures { NothingSetChangesNothing }
{}

/// The lines of a text as it is set stay in their places.
pub fn set_lines_stay()
    ensures { SetLinesStay }
{}
