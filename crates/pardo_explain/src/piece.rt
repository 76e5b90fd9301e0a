//! The tokens of a line, as they are spelled, and where they stand.
use pardo_text::first_spelled;
use text_lines::is_blank;

/// A token of a line, or a character that begins none.
#[derive(Clone, Copy)]
pub struct Piece<'t> {
    pub spelled: &'t [u8],
    /// How many bytes of the line stand before it.
    pub start: usize,
    /// Whether it is a token.
    pub(crate) is_token: bool,
}

/// The tokens of a line that were not taken yet.
#[derive(Clone, Copy)]
pub struct Pieces<'t> {
    line: &'t [u8],
    rest: &'t [u8],
}

impl<'t> Pieces<'t> {
    /// All tokens of a line that has no comment.
    pub fn new(line: &'t [u8]) -> Self {
        Pieces { line, rest: line }
    }

    /// Takes the next one.
    pub fn take(&mut self) -> Option<Piece<'t>> {
        let (spelled, rest, is_token) = match first_spelled(self.rest) {
            Some((spelled, rest)) => (spelled, rest, true),
            None => {
                let (spelled, rest) = first_character(self.rest)?;
                (spelled, rest, false)
            }
        };
        let after = rest.len().saturating_add(spelled.len());
        let start = self.line.len().saturating_sub(after);
        self.rest = rest;
        Some(Piece {
            spelled,
            start,
            is_token,
        })
    }

    /// Takes the next one, as it is spelled; nothing at the end.
    pub(crate) fn take_spelled(&mut self) -> &'t [u8] {
        match self.take() {
            Some(piece) => piece.spelled,
            None => b"",
        }
    }
}

// The first character that is no blank, and what is after it.
fn first_character(line: &[u8]) -> Option<(&[u8], &[u8])> {
    let start = line.iter().position(|&byte| !is_blank(byte))?;
    let (_, line) = line.split_at(start);
    if line.is_empty() {
        None
    } else {
        Some(line.split_at(1))
    }
}

/// What stands between the blanks at both ends.
pub fn trimmed(line: &[u8]) -> &[u8] {
    let start = line
        .iter()
        .position(|&byte| !is_blank(byte))
        .unwrap_or(line.len());
    let (_, line) = line.split_at(start);
    let mut end = 0;
    for (k, &byte) in line.iter().enumerate() {
        if !is_blank(byte) {
            end = k.saturating_add(1);
        }
    }
    line.get(..end).unwrap_or(line)
}
