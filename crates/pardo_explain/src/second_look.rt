//! The second look at a text that was refused.
ghost use Rattle.std.specs.Prelude.{◌≡◌, Ok, Err, IfOk, IfSome, MatchOption};
ghost use Rattle.pardo_program.specs.Program.{ProgramData};
ghost use Rattle.pardo_text.specs.Reading.{program_of};

use crate::diagnosis::Diagnosis;
use crate::{Before, Point, lines_before, point_of, push_sentence};
use pardo_text::{PardoFault, PardoKind, Stop, read_or_stop, said};
use std::alloc::{AllocError, Global};
use std::str;
use text_lines::{TextLines, is_blank};

/// The fault of a text, and where it is; or nothing where the text is a program. The fault is that
/// of the reader, which reads the text again.
///
/// The time is that of reading the text.
pub fn diagnose(alloc: Global, text: &[u8]) -> Result<Option<(PardoFault, Diagnosis)>, AllocError>
    ensures fault { IfOk result (λ found. MatchOption found
        ((program : ProgramData) × (program_of text.now ≡ Ok program))
        (λ x. program_of text.now ≡ Err x.0)) }
    ensures line { IfOk result (λ found. IfSome found (λ x. x.1.line ≡ x.0.line)) }
{
    match read_or_stop(alloc, text) {
        Ok(_) => Ok(None),
        Err(stop) => match stop.fault.kind {
            PardoKind::Memory => Err(AllocError),
            _ => Ok(Some((stop.fault, diagnosis_of(alloc, text, stop)?))),
        },
    }
}

// What is told of the fault at which the reader stopped.
fn diagnosis_of(alloc: Global, text: &[u8], stop: Stop) -> Result<Diagnosis, AllocError>
    ensures { IfOk result (λ diagnosis. diagnosis.line ≡ stop.fault.line) }
{
    let before = known_at(alloc, text, &stop)?;
    let point = point_of(alloc, &before, &stop)?;
    let sentence = sentence_at(alloc, &before, &point)?;
    pointing(alloc, stop.fault.line, before.line, point.start, sentence)
}

// What is known where the reader stopped: after all lines, if these were read.
fn known_at<'t>(alloc: Global, text: &'t [u8], stop: &Stop) -> Result<Before<'t>, AllocError> {
    let mut before = lines_before(alloc, text, stop.fault.line)?;
    if stop.read.is_none() {
        let last = said(before.line);
        before.take_line(stop.fault.line, last)?;
    }
    Ok(before)
}

fn sentence_at(
    alloc: Global,
    before: &Before<'_>,
    point: &Point<'_>,
) -> Result<Vec<u8>, AllocError> {
    let mut sentence = Vec::new(alloc);
    push_sentence(&mut sentence, before, point)?;
    Ok(sentence)
}

/// This sentence on a line of a text, at the point before which so many of its bytes stand.
pub fn point_at(
    alloc: Global,
    number: u64,
    line: &[u8],
    start: usize,
    sentence: &str,
) -> Result<Diagnosis, AllocError>
    ensures { IfOk result (λ diagnosis. diagnosis.line ≡ number) }
{
    let sentence = Vec::from_slice(alloc, sentence.as_bytes())?;
    pointing(alloc, number, line, start, sentence)
}

/// The line of a number; no byte, where the text has no such line.
pub fn line_at(text: &[u8], number: u64) -> &[u8] {
    let mut lines = TextLines::new(text);
    for _turn in 1..number {
        let _ = lines.take_line();
    }
    lines.take_line().unwrap_or(b"")
}

/// A sentence on a line, at the point before which so many of its bytes stand.
pub(crate) fn pointing(
    alloc: Global,
    number: u64,
    line: &[u8],
    start: usize,
    sentence: Vec<u8>,
) -> Result<Diagnosis, AllocError>
    ensures { IfOk result (λ diagnosis. diagnosis.line ≡ number) }
{
    let margin = margin(alloc, line, start)?;
    Ok(Diagnosis {
        line: number,
        column: (margin.len() as u64).saturating_add(1),
        sentence,
        shown: shown(alloc, line)?,
        margin,
    })
}

// How many bytes of a line stand before those that are shown as they are: before its comment, if
// that is UTF-8, or else all.
fn plain_len(line: &[u8]) -> usize {
    let len = said(line).len();
    match str::from_utf8(line.get(len..).unwrap_or(b"")) {
        Ok(_) => len,
        Err(_) => line.len(),
    }
}

// A line as it is shown: what is no text is a `?`, and no blank stands at its end.
fn shown(alloc: Global, line: &[u8]) -> Result<Vec<u8>, AllocError> {
    let plain = plain_len(line);
    let mut text = Vec::new(alloc);
    let mut len = 0;
    for &byte in line {
        text.push(match byte {
            b'\t' | b' '..=b'~' => byte,
            b'\r' => b' ',
            128..=255 if text.len() >= plain => byte,
            _ => b'?',
        })?;
        if !is_blank(byte) {
            len = text.len();
        }
    }
    text.truncate(len);
    Ok(text)
}

// Blanks as wide as what stands before a point of a line: one for each character of a comment that
// is shown as it is, and one for each byte elsewhere.
fn margin(alloc: Global, line: &[u8], start: usize) -> Result<Vec<u8>, AllocError> {
    let plain = plain_len(line);
    let mut text = Vec::new(alloc);
    for (at, &byte) in line.get(..start).unwrap_or(line).iter().enumerate() {
        if at < plain || !matches!(byte, 128..=191) {
            text.push(if byte == b'\t' { b'\t' } else { b' ' })?;
        }
    }
    Ok(text)
}
