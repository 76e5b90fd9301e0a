//! Laws of the words, each the contract of a function that does nothing.
ghost use Rattle.pram_words.specs.Laws.{PhasesFollow, PhasesUndo, StampsUndo, WordsHaveRanges};
ghost use Rattle.pram_words.specs.Laws.{WordsKeepApart, WordsStartAdmitted, WorkersBeginAtLeaves};

/// A word and its two halves give each other back.
pub fn stamps_undo()
    ensures { StampsUndo }
{}

/// A phase and its step and kind give each other back.
pub fn phases_undo()
    ensures { PhasesUndo }
{}

/// The phase that comes is the least one of the form above what the root holds.
pub fn phases_follow()
    ensures { PhasesFollow }
{}

/// No two things share a word, and the words have the numbers from 0 up to the length.
pub fn words_keep_apart()
    ensures { WordsKeepApart }
{}

/// The values that a word may have are those that the layout admits at its number.
pub fn words_have_ranges()
    ensures { WordsHaveRanges }
{}

/// The words of a board start in their ranges, each as its kind says.
pub fn words_start_admitted()
    ensures { WordsStartAdmitted }
{}

/// A worker begins at the leaf where its turns lead from the root.
pub fn workers_begin_at_leaves()
    ensures { WorkersBeginAtLeaves }
{}
