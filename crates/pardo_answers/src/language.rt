//! Whether a text is a program.
ghost use Rattle.std.specs.Prelude.{◌≡◌};
ghost use Rattle.pardo_answers.specs.Language.{is_program};

use text_lines::{TextLines, is_word, next_word};

/// Whether the first word of the lines of a text is `pardo`. Where it is not, the text is one of
/// the machine's, or none.
///
/// The time is linear in the text up to that word.
pub fn is_program(text: &[u8]) -> bool
    ensures { result ≡ is_program text.now }
{
    let mut lines = TextLines::new(text);
    while let Some(line) = lines.take_line() {
        if let Some((word, _)) = next_word(line) {
            return is_word(word, "pardo");
        }
    }
    false
}
