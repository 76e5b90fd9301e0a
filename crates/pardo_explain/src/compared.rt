//! Comparisons with 0 that have one value.
use crate::{Pieces, is_among};
use text_lines::is_word;

const NEVER: &str = "note: this is never true: no value is less than 0, and 0 - 1 is 4294967295";

const ALWAYS: &str = "note: this is always true: no value is less than 0, and 0 - 1 is 4294967295";

/// Four tokens of a line, one after the other; no token is an empty one.
#[derive(Clone, Copy)]
struct Window<'t> {
    front: &'t [u8],
    left: &'t [u8],
    operator: &'t [u8],
    /// How many bytes of the line stand before the operator.
    start: usize,
    right: &'t [u8],
    right_start: usize,
}

impl<'t> Window<'t> {
    // With one token more, that begins at this byte.
    fn after(self, token: &'t [u8], start: usize) -> Self {
        Window {
            front: self.left,
            left: self.operator,
            operator: self.right,
            start: self.right_start,
            right: token,
            right_start: start,
        }
    }

    // What the comparison comes to, if it has one value and this token follows.
    fn value(&self, back: &[u8]) -> Option<&'static str> {
        let is_left = is_word(self.left, "0")
            && is_among(" if while elsif assert and or ( [ , :=", self.front);
        let is_right = is_word(self.right, "0") && is_among(" and or ) ] ,", back);
        match self.operator {
            b"<" if is_right => Some(NEVER),
            b">" if is_left => Some(NEVER),
            b">=" if is_right => Some(ALWAYS),
            b"<=" if is_left => Some(ALWAYS),
            _ => None,
        }
    }
}

/// The first comparison of a line without a comment that no value or each value fulfils, as
/// `x - 4 < 0` and `0 <= x`: how many bytes stand before its operator, and the sentence on it.
pub(crate) fn always(line: &[u8]) -> Option<(usize, &'static str)> {
    let mut pieces = Pieces::new(line);
    let mut window = Window {
        front: b"",
        left: b"",
        operator: b"",
        start: 0,
        right: b"",
        right_start: 0,
    };
    for _turn in 0..line.len() {
        let Some(piece) = pieces.take() else {
            break;
        };
        if let Some(sentence) = window.value(piece.spelled) {
            return Some((window.start, sentence));
        }
        window = window.after(piece.spelled, piece.start);
    }
    window.value(b"").map(|sentence| (window.start, sentence))
}
