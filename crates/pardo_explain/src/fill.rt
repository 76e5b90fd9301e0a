//! Sentences with gaps, which are filled with what stands in a line.
use crate::number::push_number;
use crate::piece::trimmed;
use crate::point::Point;
use std::alloc::AllocError;

/// What the gaps of a sentence are filled with.
#[derive(Clone, Copy)]
pub(crate) struct Gaps<'t> {
    pub(crate) point: Point<'t>,
    /// A known name.
    pub(crate) near: &'t [u8],
    /// The word of an open block.
    pub(crate) block: &'t [u8],
    /// The number of the line of a name or a block.
    pub(crate) number: u64,
    /// What a name stands for.
    pub(crate) sort: &'static str,
}

/// Adds a sentence, in which `{WORD}` names what fills a gap.
pub(crate) fn push_filled(
    text: &mut Vec<u8>,
    sentence: &str,
    gaps: &Gaps<'_>,
) -> Result<(), AllocError> {
    for part in sentence.split('{') {
        push_part(text, part, gaps)?;
    }
    Ok(())
}

// Adds what stands up to the next `{`: before its `}`, if it has one, is the word of a gap.
fn push_part(text: &mut Vec<u8>, part: &str, gaps: &Gaps<'_>) -> Result<(), AllocError> {
    match part.split_once('}') {
        None => text.extend_from_slice(part.as_bytes()),
        Some((word, rest)) => {
            push_gap(text, word, gaps)?;
            text.extend_from_slice(rest.as_bytes())
        }
    }
}

fn push_gap(text: &mut Vec<u8>, word: &str, gaps: &Gaps<'_>) -> Result<(), AllocError> {
    match word {
        "number" => push_number(text, gaps.number),
        "found" => push_found(text, gaps.point.here),
        _ => text.extend_from_slice(filling(word, gaps)),
    }
}

fn push_found(text: &mut Vec<u8>, here: &[u8]) -> Result<(), AllocError> {
    if here.is_empty() {
        return text.extend_from_slice(b"the end of the line");
    }
    text.extend_from_slice(b"`")?;
    text.extend_from_slice(here)?;
    text.extend_from_slice(b"`")
}

fn filling<'t>(word: &str, gaps: &Gaps<'t>) -> &'t [u8] {
    let point = gaps.point;
    match word {
        "here" => point.here,
        "first" => point.first,
        "second" => point.second,
        "before" => point.before,
        "left" => trimmed(point.line.get(..point.start).unwrap_or(b"")),
        "near" => gaps.near,
        "block" => gaps.block,
        "sort" => gaps.sort.as_bytes(),
        "wanted" => point.wanted.phrase().as_bytes(),
        _ => b"",
    }
}
