//! What the lines of a header are told by.
ghost use Rattle.std.specs.Prelude.{◌≡◌, not};
ghost use Rattle.std.specs.List.{position};
ghost use Rattle.std.specs.Option.{option_map};
ghost use Rattle.exercise_text.specs.LineKeys.{declares, has_line_key, is_in_name, line_key};
ghost use Rattle.exercise_text.specs.LineKeys.{name_in};

use text_lines::{is_word, next_word};

fn may_be_in_name(byte: u8) -> bool
    ensures { result ≡ is_in_name byte }
{
    byte.is_ascii_alphanumeric() || byte == b'_'
}

// Where the first byte stands that may not be in a name.
fn name_end(word: &[u8]) -> Option<usize>
    ensures { result ≡ position (λ byte. not (is_in_name byte)) word.now }
{
    word.iter().position(|&byte| !may_be_in_name(byte))
}

fn name_in(word: &[u8]) -> &[u8]
    ensures { result.now ≡ name_in word.now }
{
    word.split_at(name_end(word).unwrap_or(word.len())).0
}

/// Whether a line that begins with this word declares a name.
pub(crate) fn declares(word: &[u8]) -> bool
    ensures { result ≡ declares word.now }
{
    is_word(word, "const")
        || is_word(word, "procs")
        || is_word(word, "shared")
        || is_word(word, "private")
}

/// The first word of a line, and the name that it declares, if it declares one.
pub(crate) fn line_key(line: &[u8]) -> Option<(&[u8], &[u8])>
    ensures { option_map (λ key. (key.0.now, key.1.now)) result ≡ line_key line.now }
{
    let (word, rest) = next_word(line)?;
    let Some((second, _)) = next_word(rest) else {
        return Some((word, b""));
    };
    if declares(word) {
        Some((word, name_in(second)))
    } else {
        Some((word, b""))
    }
}

/// Whether a line is told by this.
pub(crate) fn has_line_key(line: &[u8], word: &[u8], name: &[u8]) -> bool
    ensures { result ≡ has_line_key (word.now, name.now) line.now }
{
    match line_key(line) {
        None => false,
        Some((other, other_name)) => other == word && other_name == name,
    }
}
