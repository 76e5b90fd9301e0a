//! The sentence on a point.
use crate::before::{Before, Open, Part, Sort};
use crate::fill::{Gaps, push_filled};
use crate::nearest::nearest;
use crate::piece::{Pieces, trimmed};
use crate::point::Point;
use crate::slip::first_fit;
use crate::slips::{
    BAD_HEADER, BAD_LINE, BAD_SYMBOL, OTHER_LANGUAGES, OUT_OF_LIMITS, UNKNOWN_NAME,
};
use crate::words::is_among;
use pardo_text::PardoKind;
use std::alloc::AllocError;
use text_lines::is_word;

/// A sentence and what is added to it, with gaps.
#[derive(Clone, Copy)]
struct Sentence(&'static str, &'static str);

/// Adds the sentence on a point.
pub fn push_sentence(
    text: &mut Vec<u8>,
    before: &Before<'_>,
    point: &Point<'_>,
) -> Result<(), AllocError> {
    let gaps = gaps(before, point);
    let Sentence(sentence, more) = sentence_on(before, point, &gaps);
    push_filled(text, sentence, &gaps)?;
    push_filled(text, more, &gaps)
}

// What the gaps of the sentence are filled with.
fn gaps<'t>(before: &Before<'t>, point: &Point<'t>) -> Gaps<'t> {
    let mut gaps = Gaps {
        point: *point,
        near: b"",
        block: b"",
        number: 0,
        sort: "no such name",
    };
    if point.kind == PardoKind::UnknownName {
        gaps.near = nearest(before.known.as_slice(), point.here);
    }
    if let Some(known) = before.known(point.here) {
        gaps.number = known.line;
        gaps.sort = known.sort.phrase();
    } else if let Some(open) = before.open.last() {
        gaps.number = open.line;
        gaps.block = open.word;
    }
    gaps
}

fn sentence_on(before: &Before<'_>, point: &Point<'_>, gaps: &Gaps<'_>) -> Sentence {
    match point.kind {
        PardoKind::NotAscii => not_ascii(before.line, point),
        PardoKind::BadSymbol => bad_symbol(before.part, point),
        PardoKind::BadHeader => bad_header(before.part, point),
        PardoKind::UnknownName => unknown_name(point, gaps),
        PardoKind::DuplicateName => duplicate_name(point),
        PardoKind::WrongKind => wrong_kind(before, point),
        PardoKind::OutOfLimits => out_of_limits(before, point),
        PardoKind::WrongLength => wrong_length(point.line),
        PardoKind::BadBlock => bad_block(before.open.last(), point.first),
        PardoKind::TooManyCells => Sentence(
            "more than 1,048,576 cells: an array takes one for each place; a private variable, a \
             depth of loops and one of `if`s take one for each processor",
            "",
        ),
        PardoKind::TooDeep => Sentence("more than 32 brackets are open", ""),
        PardoKind::OpenBlock => Sentence("the `{block}` of line {number} has no `end`", ""),
        PardoKind::NoCode => Sentence("no line of code follows `code`", ""),
        PardoKind::BadLine => fitting(BAD_LINE, point),
        _ => Sentence("{found} cannot stand here", ""),
    }
}

// The sentence of a slip, or what could stand in the point.
fn fitting(slips: &'static str, point: &Point<'_>) -> Sentence {
    let general = "here {found} stands, and {wanted} could";
    Sentence(first_fit(slips, point).unwrap_or(general), "")
}

fn not_ascii(line: &[u8], point: &Point<'_>) -> Sentence {
    let sentence = match line {
        [0xef, 0xbb, 0xbf, ..] => "the text begins with a byte order mark: save it without one",
        _ if point.start < point.line.len() =>
            "a character that is not allowed: a program is ASCII, but for its comments",
        _ => "a character that is not allowed: a comment is UTF-8, without control characters",
    };
    Sentence(sentence, "")
}

// Whether a text is in another language.
fn is_foreign(part: Part, point: &Point<'_>) -> bool {
    part == Part::Version && is_among(OTHER_LANGUAGES, point.first)
}

const FOREIGN: Sentence = Sentence(
    "this looks like a program of another language: a program of pardo begins with the line \
     `pardo 1`",
    "",
);

fn bad_symbol(part: Part, point: &Point<'_>) -> Sentence {
    if is_foreign(part, point) {
        return FOREIGN;
    }
    match first_fit(BAD_SYMBOL, point) {
        Some(sentence) => Sentence(sentence, ""),
        None if part == Part::Version => fitting(BAD_HEADER, point),
        None => Sentence("no token begins with {found}", ""),
    }
}

fn bad_header(part: Part, point: &Point<'_>) -> Sentence {
    if point.is_end && part != Part::Header {
        return Sentence(
            "a program begins with the lines `pardo 1` and `rule common`, `rule priority` or \
             `rule crew`",
            "",
        );
    }
    if is_foreign(part, point) {
        return FOREIGN;
    }
    fitting(BAD_HEADER, point)
}

fn unknown_name(point: &Point<'_>, gaps: &Gaps<'_>) -> Sentence {
    match first_fit(UNKNOWN_NAME, point) {
        Some(sentence) => Sentence(sentence, ""),
        None if !gaps.near.is_empty() => {
            Sentence("nothing is named `{here}`; there is `{near}`", "")
        }
        None => Sentence(
            "nothing is named `{here}` here: names are declared before `code`, and known from then \
             on; the variable of a loop up to its `end`",
            "",
        ),
    }
}

fn duplicate_name(point: &Point<'_>) -> Sentence {
    let more = match point.first {
        b"for" => ": the variable of a loop has a new name",
        _ => "",
    };
    Sentence("`{here}` is declared already, in line {number}", more)
}

fn out_of_limits(before: &Before<'_>, point: &Point<'_>) -> Sentence {
    if is_word(point.first, "private")
        && is_word(point.before, "=")
        && divides_by_own(before, point.line)
    {
        return Sentence("a division by 0, for processor 0", "");
    }
    let sentence = first_fit(OUT_OF_LIMITS, point);
    Sentence(sentence.unwrap_or("{found} is out of limits"), "")
}

// Whether the own number stands after a division.
fn divides_by_own(before: &Before<'_>, line: &[u8]) -> bool {
    let mut pieces = Pieces::new(line);
    let mut last: &[u8] = b"";
    for _turn in 0..line.len() {
        let token = pieces.take_spelled();
        if is_among("/ %", last)
            && let Some(known) = before.known(token)
            && known.sort == Sort::Own
        {
            return true;
        }
        last = token;
    }
    false
}

fn wrong_length(line: &[u8]) -> Sentence {
    match trimmed(line) {
        [.., b'.', b'.', b'.'] => Sentence("there are more values than places", ""),
        _ => Sentence(
            "there are not as many values as places; `, ...` fills the rest with the last one",
            "",
        ),
    }
}

fn bad_block(open: Option<&Open<'_>>, first: &[u8]) -> Sentence {
    let sentence = match open {
        _ if is_word(first, "end") => "no block is open here: one `end` is too many",
        None => "no `if` is open here for this `{first}`",
        Some(open) if is_word(open.word, "if") => {
            "the `else` of this `if` of line {number} stands already: nothing but `end` follows it"
        }
        Some(_) => {
            "the innermost open block is the `{block}` of line {number}: it wants its `end` before \
             this `{first}`"
        }
    };
    Sentence(sentence, "")
}

/// Where a name stands that has no point there.
#[derive(Clone, Copy)]
enum Scope {
    Fixed,
    Start,
    Bound,
    Uniform,
    Any,
}

fn scope_of(point: &Point<'_>) -> Scope {
    if point.is_within_log || is_among("const procs shared", point.first) {
        Scope::Fixed
    } else if is_word(point.first, "private") {
        Scope::Start
    } else if is_word(point.first, "for") {
        Scope::Bound
    } else if is_word(point.first, "while") {
        Scope::Uniform
    } else {
        Scope::Any
    }
}

fn wrong_kind(before: &Before<'_>, point: &Point<'_>) -> Sentence {
    if is_word(point.here, "]") {
        return Sentence("this array has two indices, as in `[r, c]`", "");
    }
    let Some(known) = before.known(point.here) else {
        return Sentence("`{here}` cannot stand here", "");
    };
    let is_target = point.at == 0 && !is_word(point.after, "[");
    match (scope_of(point), known.sort) {
        (Scope::Any, Sort::Array) => without_index(point),
        (Scope::Any, Sort::Table) => Sentence(
            "`{here}` is an array: its two indices stand in `[ ]`, as `{here}[r, c]`",
            "",
        ),
        (Scope::Any, sort) if is_target => Sentence(untouched(sort), ""),
        (Scope::Any, _) | (Scope::Uniform, Sort::Scalar) | (_, Sort::Constant) => {
            Sentence("`{here}` is {sort} and has no index", "")
        }
        (Scope::Bound | Scope::Uniform, Sort::Loop) | (Scope::Start, Sort::Own) => {
            Sentence("`{here}` is {sort} and has no index", "")
        }
        (scope, sort) => Sentence(out_of_place(scope), remedy(scope, sort)),
    }
}

fn without_index(point: &Point<'_>) -> Sentence {
    let more = match point.after {
        b"(" => ", not in `( )`",
        _ => "",
    };
    Sentence(
        "`{here}` is an array: the index stands in `[ ]`, as `{here}[i]`",
        more,
    )
}

fn untouched(sort: Sort) -> &'static str {
    match sort {
        Sort::Constant => "`{here}` is a constant, and keeps its value",
        Sort::Own => "`{here}` is the own number, and nobody changes it",
        Sort::Loop => "`{here}` is the variable of a loop: the loop alone changes it",
        _ => "{sort} gets no value by a line",
    }
}

fn out_of_place(scope: Scope) -> &'static str {
    match scope {
        Scope::Fixed => {
            "a number here must be known before the program runs: constants may stand, and \
             `{here}` is {sort}"
        }
        Scope::Start => {
            "a start value is known before the program runs: constants and the own number may \
             stand, and `{here}` is {sort}"
        }
        Scope::Bound => {
            "the bounds of a loop are the same for all processors: constants and the variables of \
             loops around may stand, and `{here}` is {sort}"
        }
        Scope::Uniform => {
            "the condition of a `while` is the same for all processors: constants, shared scalars \
             and the variables of loops around may stand, and `{here}` is {sort}"
        }
        Scope::Any => "`{here}` cannot stand here",
    }
}

fn remedy(scope: Scope, sort: Sort) -> &'static str {
    match (scope, sort) {
        (Scope::Bound | Scope::Uniform, Sort::Private | Sort::Own) => {
            "; let an `if` within the loop look at it"
        }
        (Scope::Uniform, Sort::Array | Sort::Table) =>
            "; bring the value into a shared scalar before",
        (Scope::Bound, Sort::Scalar | Sort::Array | Sort::Table) => "; use a `while`",
        _ => "",
    }
}
