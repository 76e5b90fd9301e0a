//! Laws of printed jobs. Nothing happens when they are called.
ghost use Rattle.job_text.specs.Laws.{ArrayWordsAreLawful, PrintedIsReadBack, SpelledJumpsLand};

/// What is printed of a job is read back as that job, whatever names of arrays are chosen, unless a
/// jump goes past the last instruction.
pub fn printed_is_read_back()
    ensures { PrintedIsReadBack }
{}

/// A job is read back where its arrays are named by their cells.
pub fn array_words_are_lawful()
    ensures { ArrayWordsAreLawful }
{}

/// Only such jobs have a text: no text spells one with a jump past the last instruction.
pub fn spelled_jumps_land()
    ensures { SpelledJumpsLand }
{}
