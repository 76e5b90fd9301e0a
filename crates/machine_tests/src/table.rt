//! Tables of texts, each with what is said of it.
//!
//! A line `$ CALL` or `$ CALL: HEAD` names the call that is made of the texts below it, which begin
//! with this head; where ` & ` stands between calls, all of them say the same. A row is
//! `TEXT -> SAID` or `GIVEN : TEXT -> SAID`, and ` -- ` may follow with a note. In texts `~` stands
//! for a line feed, `{N PIECE}` for N times this piece, and `same` for the text of the row above.
//! Lines that begin with `--` are comments.
use crate::calls::said;
use std::alloc::{AllocError, Global};
use std::process::Abort;
use std::test::Fail;

/// A text of a table, with its line feeds and its pieces.
pub fn lines_of(alloc: Global, text: &str) -> Result<String, AllocError> {
    match pieces_of(text) {
        None => text.replace(alloc, "~", "\n"),
        Some((before, count, piece, after)) => {
            let pieces = piece.repeat(alloc, count)?;
            let text = format!(in alloc; "{before}{pieces}{after}")?;
            text.replace(alloc, "~", "\n")
        }
    }
}

// What stands before `{N PIECE}`, the number, the piece, and what stands behind.
fn pieces_of(text: &str) -> Option<(&str, usize, &str, &str)> {
    let (before, rest) = text.split_once('{')?;
    let (inner, after) = rest.split_once('}')?;
    let (count, piece) = inner.split_once(' ')?;
    Some((before, count.parse().ok()?, piece, after))
}

/// A row: the calls, the head of its text, what is given, its text, and what is said of it.
#[derive(Clone, Copy)]
struct Row<'a> {
    calls: &'a str,
    head: &'a str,
    given: &'a str,
    text: &'a str,
    said: &'a str,
}

// The row of a line below `$ CALLS HEAD` and below this text.
fn row_of<'a>(group: &'a str, above: &'a str, line: &'a str) -> Option<Row<'a>> {
    let (left, told) = line.split_once(" -> ")?;
    let (said, _note) = told.split_once(" -- ").unwrap_or((told, ""));
    let (given, text) = left.split_once(" : ").unwrap_or(("", left));
    let (calls, head) = group.split_once(": ").unwrap_or((group, ""));
    Some(Row {
        calls,
        head,
        given,
        text: if text == "same" { above } else { text },
        said,
    })
}

// All calls of a row say what it says.
fn expect_row<R: Abort>(rt: &R, alloc: Global, row: &Row<'_>) -> Result<(), Fail> {
    let text = format!(in alloc; "{}{}", row.head, row.text)?;
    let text = lines_of(alloc, text.as_str())?;
    let wanted = row.said.replace(alloc, "~", "\n")?;
    for call in row.calls.split(" & ") {
        let found = said(alloc, call, row.given, text.as_str())?;
        let is_said = found.as_str() == wanted.as_str();
        assert!(rt; is_said, "{call}, {}: {} -> {found}", row.given, row.text);
    }
    Ok(())
}

/// The rows of a table are answered as they say.
pub fn expect<R: Abort>(rt: &R, alloc: Global, table: &str) -> Result<(), Fail> {
    let (mut group, mut text) = ("", "");
    for line in table.lines() {
        if let Some(given) = line.strip_prefix("$ ") {
            group = given;
        } else if !line.starts_with("--") {
            let row = row_of(group, text, line).expect(rt, line);
            expect_row(rt, alloc, &row)?;
            text = row.text;
        }
    }
    Ok(())
}
