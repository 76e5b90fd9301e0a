//! A law of rows. Nothing happens when it is called.
ghost use Rattle.pram_rows.specs.Laws.{NumbersHaveNoQuotes};

/// Rows that are told by numbers have no quotes.
pub fn numbers_have_no_quotes()
    ensures { NumbersHaveNoQuotes }
{}
