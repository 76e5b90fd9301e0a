//! The lines of a text that have instructions.
ghost use Rattle.std.specs.Prelude.{◌≡◌, ◌≢◌};
ghost use Rattle.pram_text.specs.Inner.Ahead.{SkipsLine};
ghost use Rattle.pram_text.specs.InstructionLines.{line_of};
ghost use Rattle.text_lines.specs.Lines.{words_of};

use crate::header::is_code_line;
use text_lines::{TextLines, has_words};

/// How many lines with words come before the line `code`.
const HEADER: u32 = 4;

/// What is left before the line that is looked for.
#[derive(Clone, Copy, PartialEq, Eq)]
enum Ahead {
    /// This many lines with words, and then those up to the line `code`.
    Header(u32),
    /// This many instructions.
    Body(u32),
}

impl Ahead {
    // What is left after a line with words, which has another instruction or none.
    fn after(self, line: &[u8], index: u32) -> Ahead
        requires { self ≢ Ahead.Body 0 }
        ensures { SkipsLine index self (words_of line.now) result }
    {
        match self {
            Ahead::Header(lines) => {
                if lines > 0 {
                    Ahead::Header(lines - 1)
                } else if is_code_line(line) {
                    Ahead::Body(index)
                } else {
                    self
                }
            }
            Ahead::Body(instructions) => Ahead::Body(instructions.saturating_sub(1)),
        }
    }
}

/// The number of the line that an instruction stands on, by its index in the job that the text
/// spells; 0 if there is none. Lines count from 1.
///
/// The time is linear in the text up to that line.
pub fn instruction_line(text: &[u8], index: u32) -> u64
    ensures { result ≡ line_of text.now index }
{
    let mut ahead = Ahead::Header(HEADER);
    let mut lines = TextLines::new(text);
    while let Some(line) = lines.take_line() {
        if has_words(line) {
            if ahead == Ahead::Body(0) {
                return lines.number();
            }
            ahead = ahead.after(line, index);
        }
    }
    0
}
