//! The tokens of a line.
ghost use Rattle.std.specs.Prelude.{◌≡◌, ◌<◌, ◌||◌, ◌==◌, ◌++◌, not, length, IfOk, IfSome};
ghost use Rattle.std.specs.Char.{is_ascii_digit, is_ascii_alphabetic, is_ascii_alphanumeric};
ghost use Rattle.std.specs.List.{position};
ghost use Rattle.std.specs.Option.{option_map};
ghost use Rattle.text_lines.specs.Lines.{said_in};
ghost use Rattle.pardo_text.specs.Reading.{comment_of};
ghost use Rattle.pardo_text.specs.Tokens.{begins_name, is_of_name, run_len, keywords, marks};
ghost use Rattle.pardo_text.specs.Tokens.{symbol, word_by, mark_by, token_at, tokens_of};
ghost use Rattle.pardo_text.specs.Inner.Marks.{spelled_by, header_words, words_of_blocks};
ghost use Rattle.pardo_text.specs.Inner.Marks.{operation_words, long_marks, short_marks, byte_by};
ghost use Rattle.pardo_text.specs.Inner.Marks.{operation_bytes, other_bytes};
ghost use Rattle.pardo_text.specs.Inner.Tokens.{plain, after_blanks, tokens_cut, GivesAsRead};

use crate::fault::PardoKind;
use crate::symbol::Symbol;
use pardo_program::Op;
use text_lines::{is_blank, is_word, value_of};

/// The next part of a line.
#[derive(Clone, Copy)]
pub(crate) enum Token<'t> {
    /// A letter or `_`, then letters, digits or `_`, and no keyword.
    Name(&'t [u8]),
    /// The number that digits spell, or the greatest `u64` where it is greater.
    Number(u64),
    Symbol(Symbol),
}

fn may_begin_name(byte: u8) -> bool
    ensures { result ≡ begins_name byte }
{
    byte.is_ascii_alphabetic() || byte == b'_'
}

fn may_be_in_name(byte: u8) -> bool
    ensures { result ≡ is_of_name byte }
{
    byte.is_ascii_alphanumeric() || byte == b'_'
}

// Where the first byte stands that may not be in a name.
fn name_end(line: &[u8]) -> Option<usize>
    ensures { result ≡ position (λ byte. not (is_of_name byte)) line.now }
{
    line.iter().position(|&byte| !may_be_in_name(byte))
}

// Where the first byte stands that is no digit.
fn number_end(line: &[u8]) -> Option<usize>
    ensures { result ≡ position (λ byte. not (is_ascii_digit byte)) line.now }
{
    line.iter().position(|byte| !byte.is_ascii_digit())
}

// The keyword or the name that a word is.
fn word_token(word: &[u8]) -> Token<'_>
    ensures { plain result ≡ word_by keywords word.now }
{
    if let Some(symbol) = header_word(word) {
        Token::Symbol(symbol)
    } else if let Some(symbol) = block_word(word) {
        Token::Symbol(symbol)
    } else if let Some(symbol) = operation_word(word) {
        Token::Symbol(symbol)
    } else {
        Token::Name(word)
    }
}

// The keyword that a word is, if it stands before the code.
fn header_word(word: &[u8]) -> Option<Symbol>
    ensures { result ≡ spelled_by header_words word.now }
{
    if is_word(word, "pardo") {
        Some(Symbol::Pardo)
    } else if is_word(word, "rule") {
        Some(Symbol::Rule)
    } else if is_word(word, "const") {
        Some(Symbol::Const)
    } else if is_word(word, "procs") {
        Some(Symbol::Procs)
    } else if is_word(word, "shared") {
        Some(Symbol::Shared)
    } else if is_word(word, "private") {
        Some(Symbol::Private)
    } else if is_word(word, "code") {
        Some(Symbol::Code)
    } else {
        None
    }
}

// The keyword that a word is, if it begins or ends a block.
fn block_word(word: &[u8]) -> Option<Symbol>
    ensures { result ≡ spelled_by words_of_blocks word.now }
{
    if is_word(word, "for") {
        Some(Symbol::For)
    } else if is_word(word, "to") {
        Some(Symbol::To)
    } else if is_word(word, "downto") {
        Some(Symbol::Downto)
    } else if is_word(word, "while") {
        Some(Symbol::While)
    } else if is_word(word, "if") {
        Some(Symbol::If)
    } else if is_word(word, "else") {
        Some(Symbol::Else)
    } else if is_word(word, "end") {
        Some(Symbol::End)
    } else {
        None
    }
}

// The keyword that a word is, if it stands in an expression.
fn operation_word(word: &[u8]) -> Option<Symbol>
    ensures { result ≡ spelled_by operation_words word.now }
{
    if is_word(word, "lg") {
        Some(Symbol::Lg)
    } else if is_word(word, "and") {
        Some(Symbol::Operator(Op::And))
    } else if is_word(word, "or") {
        Some(Symbol::Operator(Op::Or))
    } else if is_word(word, "xor") {
        Some(Symbol::Operator(Op::BitXor))
    } else if is_word(word, "min") {
        Some(Symbol::Operator(Op::Min))
    } else if is_word(word, "max") {
        Some(Symbol::Operator(Op::Max))
    } else {
        None
    }
}

// The mark with which a line begins, and what is after it: a longer mark before a shorter one.
fn mark(line: &[u8]) -> Option<(Symbol, &[u8])>
    ensures mark { option_map (λ x. (symbol x.0, x.1.now)) result ≡ mark_by marks line.now }
    ensures shorter { IfSome result (λ x. length x.1.now < length line.now) }
{
    if let Some(found) = long_mark(line) {
        Some(found)
    } else {
        short_mark(line)
    }
}

// The mark of several bytes with which a line begins, and what is after it.
fn long_mark(line: &[u8]) -> Option<(Symbol, &[u8])>
    ensures mark { option_map (λ x. (symbol x.0, x.1.now)) result ≡ mark_by long_marks line.now }
    ensures shorter { IfSome result (λ x. length x.1.now < length line.now) }
{
    match line {
        [b'.', b'.', b'.', rest @ ..] => Some((Symbol::Dots, rest)),
        [b':', b'=', rest @ ..] => Some((Symbol::Assign, rest)),
        [b'!', b'=', rest @ ..] => Some((Symbol::Operator(Op::Ne), rest)),
        [b'<', b'=', rest @ ..] => Some((Symbol::Operator(Op::Le), rest)),
        [b'>', b'=', rest @ ..] => Some((Symbol::Operator(Op::Ge), rest)),
        [b'<', b'<', rest @ ..] => Some((Symbol::Operator(Op::Shl), rest)),
        [b'>', b'>', rest @ ..] => Some((Symbol::Operator(Op::Shr), rest)),
        _ => None,
    }
}

// The mark of one byte with which a line begins, and what is after it.
fn short_mark(line: &[u8]) -> Option<(Symbol, &[u8])>
    ensures mark { option_map (λ x. (symbol x.0, x.1.now)) result ≡ mark_by short_marks line.now }
    ensures shorter { IfSome result (λ x. length x.1.now < length line.now) }
{
    let (first, rest) = line.split_first()?;
    let symbol = byte_mark(*first)?;
    Some((symbol, rest))
}

// The mark that a byte is by itself.
fn byte_mark(byte: u8) -> Option<Symbol>
    ensures { result ≡ byte_by (operation_bytes ++ other_bytes) byte }
{
    match byte_operation(byte) {
        None => other_mark(byte),
        operation => operation,
    }
}

fn byte_operation(byte: u8) -> Option<Symbol>
    ensures { result ≡ byte_by operation_bytes byte }
{
    let op = match byte {
        b'+' => Op::Add,
        b'-' => Op::Sub,
        b'*' => Op::Mul,
        b'/' => Op::Div,
        b'%' => Op::Rem,
        b'&' => Op::BitAnd,
        b'|' => Op::BitOr,
        b'<' => Op::Lt,
        b'>' => Op::Gt,
        b'=' => Op::Eq,
        _ => return None,
    };
    Some(Symbol::Operator(op))
}

fn other_mark(byte: u8) -> Option<Symbol>
    ensures { result ≡ byte_by other_bytes byte }
{
    match byte {
        b'(' => Some(Symbol::Open),
        b')' => Some(Symbol::Close),
        b'[' => Some(Symbol::OpenIndex),
        b']' => Some(Symbol::CloseIndex),
        b',' => Some(Symbol::Comma),
        _ => None,
    }
}

// The longest token with which a line begins, and what is after it.
#[tactic(auto, unfolding(crate::specs::Tokens::token_at))]
fn next_token(line: &[u8]) -> Option<(Token<'_>, &[u8])>
    ensures token { option_map (λ x. (plain x.0, x.1.now)) result ≡ token_at line.now }
    ensures shorter { IfSome result (λ x. length x.1.now < length line.now) }
{
    let [first, ..] = line else {
        return None;
    };
    if may_begin_name(*first) {
        let (word, rest) = line.split_at(name_end(line).unwrap_or(line.len()));
        Some((word_token(word), rest))
    } else if first.is_ascii_digit() {
        let (digits, rest) = line.split_at(number_end(line).unwrap_or(line.len()));
        Some((Token::Number(value_of(digits)), rest))
    } else {
        let (symbol, rest) = mark(line)?;
        Some((Token::Symbol(symbol), rest))
    }
}

/// The first token of a line, as it is spelled, if the line begins with one after blanks; and what
/// is after it.
pub fn first_spelled(line: &[u8]) -> Option<(&[u8], &[u8])>
    ensures { IfSome result (λ x. 0 < length x.0.now) }
{
    let line = after_blanks(line);
    let (_, rest) = next_token(line)?;
    let (spelled, rest) = line.split_at(line.len() - rest.len());
    Some((spelled, rest))
}

/// How many tokens a line has that has no comment.
pub(crate) fn count_tokens(line: &[u8]) -> Result<usize, PardoKind>
    ensures tokens { GivesAsRead (λ count. tokens_cut count line.now) result (tokens_of line.now) }
    ensures count { IfOk result (λ count. length (tokens_cut count line.now) ≡ count) }
{
    let mut rest = line;
    let mut count = 0;
    while let Some((first, after)) = rest.split_first() {
        if is_blank(*first) {
            rest = after;
        } else {
            let Some((_, after)) = next_token(rest) else {
                return Err(PardoKind::BadSymbol);
            };
            rest = after;
            count += 1;
        }
    }
    Ok(count)
}

/// The first token of a line, if it begins with one after blanks, and what is after it.
pub(crate) fn first_token(line: &[u8]) -> Option<(Token<'_>, &[u8])>
    ensures { option_map (λ x. (plain x.0, x.1.now)) result ≡ token_at (after_blanks line.now) }
{
    next_token(after_blanks(line))
}

/// What stands after the blanks with which a line begins.
pub(crate) fn after_blanks(line: &[u8]) -> &[u8]
    ensures { result.now ≡ after_blanks line.now }
{
    let mut rest = line;
    while let Some((first, after)) = rest.split_first() {
        if !is_blank(*first) {
            return rest;
        }
        rest = after;
    }
    rest
}

/// What stands before the comment of a line.
pub fn said(line: &[u8]) -> &[u8]
    ensures { result.now ≡ said_in line.now }
{
    parted(line).0
}

/// What stands before the comment of a line, and the comment.
pub(crate) fn parted(line: &[u8]) -> (&[u8], &[u8])
    ensures said { result.0.now ≡ said_in line.now }
    ensures comment { result.1.now ≡ comment_of line.now }
{
    line.split_at(comment_start(line).unwrap_or(line.len()))
}

// Where the comment of a line begins.
fn comment_start(line: &[u8]) -> Option<usize>
    ensures { result ≡ position (λ byte. byte == 59) line.now }
{
    line.iter().position(|&byte| byte == b';')
}
