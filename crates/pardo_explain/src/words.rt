//! Kinds of tokens.

// The words that no name may be.
const KEYWORDS: &str = "pardo rule const procs shared private code for to downto while if else end \
    lg and or xor min max";

const OPERATORS: &str = "+ - * / % << >> & | ^ xor = != < <= > >= and or";

/// Whether a token is among these words, between which a blank stands.
pub fn is_among(words: &str, token: &[u8]) -> bool {
    for word in words.split(' ') {
        if word.as_bytes() == token {
            return true;
        }
    }
    false
}

/// Whether a token is spelled as a name, or as a keyword.
pub(crate) fn begins_word(token: &[u8]) -> bool {
    match token {
        [] => false,
        [first, ..] => first.is_ascii_alphabetic() || *first == b'_',
    }
}

pub(crate) fn is_name(token: &[u8]) -> bool {
    begins_word(token) && !is_among(KEYWORDS, token)
}

pub(crate) fn is_number(token: &[u8]) -> bool {
    match token {
        [] => false,
        [first, ..] => first.is_ascii_digit(),
    }
}

/// Whether an operand may end with this token.
pub(crate) fn ends_operand(token: &[u8]) -> bool {
    is_name(token) || is_number(token) || is_among(") ]", token)
}

/// Whether an operand may begin with this token.
pub(crate) fn begins_operand(token: &[u8]) -> bool {
    is_name(token) || is_number(token) || is_among("( min max lg", token)
}

pub(crate) fn is_operator(token: &[u8]) -> bool {
    is_among(OPERATORS, token)
}

/// Whether a token compares two operands.
pub fn is_comparison(token: &[u8]) -> bool {
    is_among("= != < <= > >=", token)
}
