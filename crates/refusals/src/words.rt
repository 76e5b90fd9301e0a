//! Which word of a line of the machine a fault is about, as near as its kind tells.
use pram_text::TextKind;
use text_lines::{TextLines, is_word, next_word, two_first_words};

/// What a word is, and where it stands.
#[derive(Clone, Copy, Debug)]
enum Sought {
    First,
    /// The first one that is no label.
    Name,
    /// After the name, or that of an array, the first one that is no number.
    NoNumber,
    /// After the name the first number.
    Number,
    /// After the name the first one that is neither a register nor a number.
    NoRegister,
    /// After the name the first one that is no array's either.
    NoOperand,
    Last,
}

fn word_of(kind: TextKind) -> Sought {
    match kind {
        TextKind::BadNumber => Sought::NoNumber,
        TextKind::OutOfLimits => Sought::Number,
        TextKind::BadRegister => Sought::NoRegister,
        TextKind::UnknownLabel => Sought::Last,
        TextKind::UnknownInstruction | TextKind::WrongOperands => Sought::Name,
        _ => Sought::First,
    }
}

/// How many bytes of the line stand before what a fault of this kind is about, in this text.
pub(crate) fn start_of(kind: TextKind, line: &[u8], text: &[u8]) -> usize {
    if kind == TextKind::NotAscii {
        return first_unlawful(line);
    }
    if kind == TextKind::BadRegister
        && let Ok(start) = sought_in(line, Sought::NoOperand, text)
    {
        return start;
    }
    match sought_in(line, word_of(kind), text) {
        Ok(start) => start,
        Err(last) => last,
    }
}

// How many bytes of the line stand before the sought word; where there is none, before the last
// one.
fn sought_in(line: &[u8], sought: Sought, text: &[u8]) -> Result<usize, usize> {
    let mut left = line;
    let mut last = 0;
    let mut is_named = false;
    for _turn in 0..line.len() {
        let Some((word, rest)) = next_word(left) else {
            break;
        };
        let after = rest.len().saturating_add(word.len());
        last = line.len().saturating_sub(after);
        if is_sought(sought, word, is_named, text) {
            return Ok(last);
        }
        is_named |= !is_label(word) && !is_word(word, "array");
        left = rest;
    }
    Err(last)
}

// Whether a line of the text declares an array of this name.
fn is_array(text: &[u8], name: &[u8]) -> bool {
    let mut lines = TextLines::new(text);
    while let Some(line) = lines.take_line() {
        if let Some((first, second, _)) = two_first_words(line)
            && is_word(first, "array")
            && second == name
        {
            return true;
        }
    }
    false
}

/// Whether the first word of a text is that of a text of the machine.
pub(crate) fn begins_as_machine(text: &[u8]) -> bool {
    let mut lines = TextLines::new(text);
    while let Some(line) = lines.take_line() {
        if let Some((word, _)) = next_word(line) {
            return is_word(word, "pram");
        }
    }
    false
}

fn is_sought(sought: Sought, word: &[u8], is_named: bool, text: &[u8]) -> bool {
    match sought {
        Sought::First => true,
        Sought::Name => !is_label(word),
        Sought::NoNumber => is_named && !is_number(word),
        Sought::Number => is_named && is_number(word),
        Sought::NoRegister => is_named && !is_number(word) && !is_register(word),
        Sought::NoOperand => {
            is_named && !is_number(word) && !is_register(word) && !is_array(text, word)
        }
        Sought::Last => false,
    }
}

fn is_label(word: &[u8]) -> bool {
    matches!(word, [.., b':'])
}

fn is_number(word: &[u8]) -> bool {
    for byte in word {
        if !byte.is_ascii_digit() {
            return false;
        }
    }
    true
}

fn is_register(word: &[u8]) -> bool {
    matches!(word, b"r0" | b"r1" | b"r2" | b"r3")
}

fn first_unlawful(line: &[u8]) -> usize {
    line.iter()
        .position(|&byte| byte > b'~' || (byte < b' ' && byte != b'\t' && byte != b'\r'))
        .unwrap_or(line.len())
}
