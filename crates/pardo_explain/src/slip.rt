//! Which slip of the table a point shows.
use crate::point::Point;
use crate::wanted::Wanted;
use crate::words::{ends_operand, is_among, is_name, is_number};

/// A slip: what stands first in its line, before the point, at it and after it; and its sentence.
#[derive(Clone, Copy)]
struct Slip<'s> {
    first: &'s str,
    before: &'s str,
    here: &'s str,
    after: &'s str,
    sentence: &'s str,
}

impl Slip<'_> {
    // Whether a point shows it.
    fn fits(&self, point: &Point<'_>) -> bool {
        is_any(self.first, point.first)
            && is_any(self.here, point.here)
            && is_any(self.after, point.after)
            && (is_any(self.before, point.before) || could_stand(self.before, point))
    }
}

// The slip of a row of the table.
fn slip_of(row: &str) -> Slip<'_> {
    let (first, rest) = first_cell(row);
    let (before, rest) = first_cell(rest);
    let (here, rest) = first_cell(rest);
    let (after, sentence) = first_cell(rest);
    Slip {
        first,
        before,
        here,
        after,
        sentence,
    }
}

// What a row begins with, and what is after it.
fn first_cell(row: &str) -> (&str, &str) {
    row.split_once("; ").unwrap_or((row, ""))
}

/// The sentence of the first of these slips that a point shows.
pub(crate) fn first_fit<'s>(slips: &'s str, point: &Point<'_>) -> Option<&'s str> {
    for row in slips.lines() {
        let slip = slip_of(row);
        if slip.fits(point) {
            return Some(slip.sentence);
        }
    }
    None
}

fn is_any(words: &str, token: &[u8]) -> bool {
    match words {
        "" => true,
        "NIL" => token.is_empty(),
        "NAME" => is_name(token),
        "NUMBER" => is_number(token),
        "OPERAND" => ends_operand(token),
        _ => is_among(words, token),
    }
}

// Whether this, in capitals, could stand in a point.
fn could_stand(word: &str, point: &Point<'_>) -> bool {
    match word {
        "VALUE" => matches!(point.wanted, Wanted::Operand | Wanted::Value),
        "ASSIGNMENT" => point.wanted == Wanted::Assignment,
        "OPERATOR" => point.wanted.is_operator(),
        "WHOLE" => point.wanted == Wanted::Whole,
        "WAY" => point.wanted == Wanted::Way,
        "INDEX" => point.wanted == Wanted::ClosingIndex,
        "VERSION" => point.wanted == Wanted::Version,
        "DECLARATION" => point.wanted == Wanted::Declaration,
        "TEXT" => point.is_end,
        _ => false,
    }
}
