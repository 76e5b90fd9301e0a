//! How a program was read where people could read it otherwise: at a shift or an `&` beside another
//! operator, without brackets; at a comparison with 0 that has one value; at a bound that wraps.
use crate::compared::always;
use crate::diagnosis::Diagnosis;
use crate::second_look::pointing;
use crate::wrapped::push_wrapped;
use crate::{Piece, Pieces, is_among, is_comparison, trimmed};
use pardo_text::said;
use std::alloc::{AllocError, Global};
use text_lines::{TextLines, is_word};

/// How the first shift or `&` of each line was read that stands beside another operator without
/// brackets, which comparison with 0 has one value, and which bounds of loops wrap.
pub fn notes(alloc: Global, text: &[u8]) -> Result<Vec<Diagnosis>, AllocError> {
    let mut notes = Vec::new(alloc);
    let mut lines = TextLines::new(text);
    for _turn in 0..text.len() {
        let Some(line) = lines.take_line() else {
            break;
        };
        if let Some((start, sentence)) = note_on(alloc, said(line))? {
            notes.push(pointing(alloc, lines.number(), line, start, sentence)?)?;
        }
    }
    push_wrapped(alloc, text, &mut notes)?;
    Ok(notes)
}

// The sentence on a line without a comment, if there is one, and how many of its bytes stand before
// what it is about.
fn note_on(alloc: Global, line: &[u8]) -> Result<Option<(usize, Vec<u8>)>, AllocError> {
    if let Some(unclear) = first_unclear(alloc, line)? {
        return Ok(Some((unclear.start, sentence_on(alloc, &unclear)?)));
    }
    match always(line) {
        Some((start, sentence)) => {
            Ok(Some((start, Vec::from_slice(alloc, sentence.as_bytes())?)))
        }
        None => Ok(None),
    }
}

/// A shift, or an `&`: what stands on its left, how many bytes of the line stand before its
/// operator, and what stands on its right.
#[derive(Clone, Copy, Debug)]
struct Unclear<'t> {
    is_shift: bool,
    left: &'t [u8],
    start: usize,
    right: &'t [u8],
}

fn sentence_on(alloc: Global, unclear: &Unclear<'_>) -> Result<Vec<u8>, AllocError> {
    let mut text = Vec::new(alloc);
    text.extend_from_slice(b"note: here `")?;
    text.extend_from_slice(unclear.left)?;
    if unclear.is_shift {
        text.extend_from_slice(b"` is shifted by `")?;
        text.extend_from_slice(unclear.right)?;
        text.extend_from_slice(b"`: a shift binds as `*` does")?;
    } else {
        text.extend_from_slice(b" & ")?;
        text.extend_from_slice(unclear.right)?;
        text.extend_from_slice(b"` stands together: `&` binds as `*` does")?;
    }
    Ok(text)
}

// The first shift or `&` of a line without a comment that stands beside another operator.
fn first_unclear(alloc: Global, line: &[u8]) -> Result<Option<Unclear<'_>>, AllocError> {
    let mut reading = Reading::new(alloc, line);
    let mut pieces = Pieces::new(line);
    for _turn in 0..line.len() {
        let Some(piece) = pieces.take() else {
            break;
        };
        if let Some(unclear) = reading.take(&piece)? {
            return Ok(Some(unclear));
        }
    }
    Ok(reading.unclear_before(line.len(), false))
}

/// Operands between which no operator binds less than a product's.
#[derive(Clone, Copy, Debug)]
struct Chain {
    /// How many bytes of the line stand before it.
    start: usize,
    /// Whether an operator stands before the last operand that makes a shift after it unclear.
    is_beside: bool,
    /// The bytes before the operator of a shift that only one operand follows so far, and those up
    /// to its end.
    shift: Option<(usize, usize)>,
    /// The same of the last `&`, which others of its row may follow.
    and: Option<(usize, usize)>,
    /// Whether `+`, `-`, `|` or `xor` stands before the chain.
    is_added: bool,
}

impl Chain {
    fn new(start: usize, is_beside: bool) -> Self {
        Chain {
            start,
            is_beside,
            shift: None,
            and: None,
            is_added: is_beside,
        }
    }
}

/// A line so far: the chain of the innermost bracket, and those around it.
#[derive(Debug, Drop)]
struct Reading<'t> {
    line: &'t [u8],
    chain: Chain,
    around: Vec<Chain>,
}

impl<'t> Reading<'t> {
    fn new(alloc: Global, line: &'t [u8]) -> Self {
        Reading {
            line,
            chain: Chain::new(0, false),
            around: Vec::new(alloc),
        }
    }

    // The next token; it may tell that the shift or `&` before it is unclear.
    fn take(&mut self, piece: &Piece<'t>) -> Result<Option<Unclear<'t>>, AllocError> {
        let end = piece.start.saturating_add(piece.spelled.len());
        match piece.spelled {
            b"(" | b"[" => {
                self.around.push(self.chain)?;
                self.chain = Chain::new(end, false);
                Ok(None)
            }
            b")" | b"]" => {
                let found = self.unclear_before(piece.start, false);
                self.chain = self.around.pop().unwrap_or(Chain::new(end, false));
                Ok(found)
            }
            b"<<" | b">>" => {
                let found = self.shift_before(piece.start, false);
                self.chain.shift = Some((piece.start, end));
                Ok(found)
            }
            b"*" | b"/" | b"%" | b"&" => Ok(self.pass_factor(piece)),
            b"+" | b"-" | b"|" | b"xor" => Ok(self.pass(piece.start, end, true)),
            token if begins_chain(token) => Ok(self.pass(piece.start, end, false)),
            _ => Ok(None),
        }
    }

    // An operator after which the chain goes on.
    fn pass_factor(&mut self, piece: &Piece<'t>) -> Option<Unclear<'t>> {
        let found = self.shift_before(piece.start, true);
        if is_word(piece.spelled, "&") {
            self.chain.is_beside = true;
            let end = piece.start.saturating_add(piece.spelled.len());
            self.chain.and = Some((piece.start, end));
        }
        self.chain.shift = None;
        found
    }

    // A token from this byte on, after which another chain begins.
    fn pass(&mut self, start: usize, end: usize, is_beside: bool) -> Option<Unclear<'t>> {
        let found = self.unclear_before(start, is_beside);
        self.chain = Chain::new(end, is_beside);
        found
    }

    // The shift or `&` that is unclear in the chain that ends before this byte.
    fn unclear_before(&self, end: usize, is_beside: bool) -> Option<Unclear<'t>> {
        let shift = self.shift_before(end, is_beside);
        if shift.is_some() {
            return shift;
        }
        self.and_before(end, is_beside)
    }

    // The shift that ends before this byte, if an operator is beside it: this one after it, or one
    // before it.
    fn shift_before(&self, end: usize, is_beside: bool) -> Option<Unclear<'t>> {
        if !is_beside && !self.chain.is_beside {
            return None;
        }
        self.parted(true, self.chain.shift?, end)
    }

    // The last `&` of the chain that ends before this byte, if a looser operator is beside that.
    fn and_before(&self, end: usize, is_beside: bool) -> Option<Unclear<'t>> {
        if !is_beside && !self.chain.is_added {
            return None;
        }
        self.parted(false, self.chain.and?, end)
    }

    // An operator of the chain, with what stands before it, and after it up to this byte.
    fn parted(
        &self,
        is_shift: bool,
        (start, after): (usize, usize),
        end: usize,
    ) -> Option<Unclear<'t>> {
        Some(Unclear {
            is_shift,
            left: trimmed(self.line.get(self.chain.start..start)?),
            start,
            right: trimmed(self.line.get(after..end)?),
        })
    }
}

// Whether an operand that follows this token belongs to nothing before it.
fn begins_chain(token: &[u8]) -> bool {
    is_comparison(token)
        || is_among(
            "pardo rule const procs shared private code for to downto while if elsif else end and \
             or := , ...",
            token,
        )
}
