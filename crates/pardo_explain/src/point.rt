//! The point at which the reader stopped, and the tokens around it.
use crate::before::Before;
use crate::piece::Pieces;
use crate::scan::Scan;
use crate::wanted::Wanted;
use crate::words::{is_among, is_number};
use pardo_text::{PardoKind, Stop, said};
use std::alloc::{AllocError, Global};
use std::str;
use text_lines::is_word;

/// A point in a line, and the tokens around it; those that are not there have no byte.
#[derive(Clone, Copy)]
pub struct Point<'t> {
    pub(crate) kind: PardoKind,
    /// What stands before the line's comment.
    pub(crate) line: &'t [u8],
    pub(crate) first: &'t [u8],
    pub(crate) second: &'t [u8],
    pub(crate) before: &'t [u8],
    pub(crate) here: &'t [u8],
    pub(crate) after: &'t [u8],
    /// How many bytes stand before it.
    pub start: usize,
    /// How many tokens do.
    pub(crate) at: usize,
    pub(crate) wanted: Wanted,
    pub(crate) is_within_log: bool,
    /// Whether all lines were read, and something is missing at their end.
    pub(crate) is_end: bool,
}

/// The point in a bad line at which the reader stopped.
pub fn point_of<'t>(
    alloc: Global,
    before: &Before<'t>,
    stop: &Stop,
) -> Result<Point<'t>, AllocError> {
    let line = said(before.line);
    let at = match (stop.read, stop.fault.kind) {
        (None, _) => usize::MAX,
        (_, PardoKind::BadSymbol) => first_bad(line),
        (Some(read), kind) => token_of(alloc, before, line, kind, read)?,
    };
    let mut point = window(line, at);
    let scan = scanned(alloc, before, line, at)?;
    point.kind = stop.fault.kind;
    point.wanted = scan.wanted();
    point.is_within_log = scan.is_within_log();
    point.is_end = stop.read.is_none();
    if stop.fault.kind == PardoKind::NotAscii {
        point.start = first_unlawful(before.line);
    }
    Ok(point)
}

// Which token of the line the fault is of, where so many were read.
fn token_of<'t>(
    alloc: Global,
    before: &Before<'t>,
    line: &'t [u8],
    kind: PardoKind,
    read: usize,
) -> Result<usize, AllocError> {
    let last = read.saturating_sub(1);
    let spelled = window(line, last);
    let end = if kind == PardoKind::BadLine {
        last
    } else {
        read
    };
    let scan = scanned(alloc, before, line, end)?;
    Ok(match kind {
        PardoKind::BadLine if scan.takes(spelled.here) => read,
        PardoKind::WrongKind if is_word(spelled.here, "[") => last.saturating_sub(1),
        PardoKind::OutOfLimits if !is_too_great(spelled.here) => value_out(&scan, &spelled),
        PardoKind::WrongLength => scan.value,
        PardoKind::BadHeader => header_token(&spelled),
        PardoKind::TooDeep => read,
        PardoKind::BadBlock | PardoKind::TooManyCells | PardoKind::NotAscii => 0,
        _ => last,
    })
}

// A literal that is no number of 32 bits.
fn is_too_great(token: &[u8]) -> bool {
    match str::from_utf8(token) {
        Ok(digits) if is_number(token) => match digits.parse::<u32>() {
            Ok(_) => false,
            Err(_) => true,
        },
        _ => false,
    }
}

// The division, where the last token is a divisor of 0, or else the value that is out of limits.
fn value_out(scan: &Scan<'_, '_>, last: &Point<'_>) -> usize {
    let is_division = scan.division > 0 && is_word(last.here, "0");
    if is_division {
        scan.division
    } else if is_among("procs private", last.first) {
        scan.value
    } else if is_word(last.first, "shared") && scan.value == 0 {
        3
    } else {
        scan.division
    }
}

// A header line is wrong from its first token on, or from its second one.
fn header_token(line: &Point<'_>) -> usize {
    let is_code = is_word(line.first, "code") && !line.second.is_empty();
    if is_code || is_word(line.first, "rule") {
        1
    } else {
        0
    }
}

// The tokens before a point.
fn scanned<'b, 't>(
    alloc: Global,
    before: &'b Before<'t>,
    line: &'t [u8],
    at: usize,
) -> Result<Scan<'b, 't>, AllocError> {
    let mut scan = Scan::new(alloc, before);
    let mut pieces = Pieces::new(line);
    for _turn in 0..line.len().min(at) {
        let Some(piece) = pieces.take() else {
            break;
        };
        scan.take(piece.spelled)?;
    }
    Ok(scan)
}

// The point of the first character that begins no token.
fn first_bad(line: &[u8]) -> usize {
    let mut pieces = Pieces::new(line);
    for at in 0..line.len() {
        if let Some(piece) = pieces.take()
            && !piece.is_token
        {
            return at;
        }
    }
    line.len()
}

// How many bytes stand before the first character that may not stand in a line: only a comment has
// others than those of ASCII.
fn first_unlawful(line: &[u8]) -> usize {
    let len = said(line).len();
    let text_end = match str::from_utf8(line.get(len..).unwrap_or(b"")) {
        Ok(_) => line.len(),
        Err(error) => len.saturating_add(error.valid_up_to()),
    };
    for (at, &byte) in line.iter().enumerate() {
        let is_lawful = match byte {
            b'\t' | b'\r' | b' '..=b'~' => true,
            128..=255 => at >= len && at < text_end,
            _ => false,
        };
        if !is_lawful {
            return at;
        }
    }
    line.len()
}

// A point, and the tokens around it.
fn window(line: &[u8], at: usize) -> Point<'_> {
    let mut point = nowhere(line);
    let mut pieces = Pieces::new(line);
    for k in 0..line.len() {
        let Some(piece) = pieces.take() else {
            return point;
        };
        if k == 0 {
            point.first = piece.spelled;
        }
        if k == 1 {
            point.second = piece.spelled;
        }
        if k < at {
            point.at = usize::saturating_add(k, 1);
            point.before = piece.spelled;
            point.start = piece.start.saturating_add(piece.spelled.len());
        } else if k == at {
            point.here = piece.spelled;
            point.start = piece.start;
        } else {
            point.after = piece.spelled;
            return point;
        }
    }
    point
}

fn nowhere(line: &[u8]) -> Point<'_> {
    Point {
        kind: PardoKind::BadLine,
        line,
        first: b"",
        second: b"",
        before: b"",
        here: b"",
        after: b"",
        start: 0,
        at: 0,
        wanted: Wanted::End,
        is_within_log: false,
        is_end: false,
    }
}
