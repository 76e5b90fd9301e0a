//! The words of a line.
ghost use Rattle.std.specs.Prelude.{◌≡◌, ◌∷◌, [], not, None, MatchOption};
ghost use Rattle.std.specs.List.{position, list_all};
ghost use Rattle.std.specs.Str.{bytes_eq};
ghost use Rattle.text_lines.specs.Lines.{is_allowed, is_blank, is_filled, words_of};
ghost use Rattle.text_lines.specs.Words.{ends_word, one_of, two_of, three_of, four_of};
ghost use Rattle.text_lines.specs.Words.{two_first_of};

/// Whether the byte is a blank, which stands between words.
pub fn is_blank(byte: u8) -> bool
    ensures { result ≡ is_blank byte }
{
    byte == b' ' || byte == b'\t' || byte == b'\r'
}

// What may stand in a text.
#[tactic(auto, unfolding(crate::specs::Lines::is_allowed))]
fn allowed(byte: u8) -> bool
    ensures { result ≡ is_allowed byte }
{
    byte == b'\t' || byte == b'\r' || (b' ' <= byte && byte <= b'~')
}

// Where the first word starts, or what stands in place of one.
fn word_start(line: &[u8]) -> Option<usize>
    ensures { result ≡ position (λ b. not (is_blank b)) line.now }
{
    line.iter().position(|&byte| !is_blank(byte))
}

// Where the first blank or semicolon stands.
fn word_end(line: &[u8]) -> Option<usize>
    ensures { result ≡ position ends_word line.now }
{
    line.iter().position(|&byte| is_blank(byte) || byte == b';')
}

/// The first word of a line, and the rest of the line after it.
pub fn next_word(line: &[u8]) -> Option<(&[u8], &[u8])>
    ensures { MatchOption result (words_of line.now ≡ [])
        (λ x. words_of line.now ≡ x.0.now ∷ words_of x.1.now) }
{
    let start = word_start(line)?;
    let (_, line) = line.split_at(start);
    let len = word_end(line).unwrap_or(line.len());
    if len == 0 {
        None
    } else {
        Some(line.split_at(len))
    }
}

/// Whether the line has a word.
pub fn has_words(line: &[u8]) -> bool
    ensures { result ≡ is_filled (words_of line.now) }
{
    next_word(line).is_some()
}

/// The word of a line of one word.
pub fn one_word(line: &[u8]) -> Option<&[u8]>
    ensures { MatchOption result (one_of (words_of line.now) ≡ None)
        (λ x. words_of line.now ≡ x.now ∷ []) }
{
    let (word, rest) = next_word(line)?;
    if has_words(rest) { None } else { Some(word) }
}

/// The words of a line of two.
pub fn two_words(line: &[u8]) -> Option<(&[u8], &[u8])>
    ensures { MatchOption result (two_of (words_of line.now) ≡ None)
        (λ x. words_of line.now ≡ x.0.now ∷ x.1.now ∷ []) }
{
    let (first, rest) = next_word(line)?;
    let second = one_word(rest)?;
    Some((first, second))
}

/// The words of a line of three.
pub fn three_words(line: &[u8]) -> Option<(&[u8], &[u8], &[u8])>
    ensures { MatchOption result (three_of (words_of line.now) ≡ None)
        (λ x. words_of line.now ≡ x.0.now ∷ x.1.now ∷ x.2.now ∷ []) }
{
    let (first, rest) = next_word(line)?;
    let (second, third) = two_words(rest)?;
    Some((first, second, third))
}

/// The words of a line of four.
pub fn four_words(line: &[u8]) -> Option<(&[u8], &[u8], &[u8], &[u8])>
    ensures { MatchOption result (four_of (words_of line.now) ≡ None)
        (λ x. words_of line.now ≡ x.0.now ∷ x.1.now ∷ x.2.now ∷ x.3.now ∷ []) }
{
    let (first, rest) = next_word(line)?;
    let (second, third, fourth) = three_words(rest)?;
    Some((first, second, third, fourth))
}

/// The first two words of a line, and the rest of the line after them.
pub fn two_first_words(line: &[u8]) -> Option<(&[u8], &[u8], &[u8])>
    ensures { MatchOption result (two_first_of (words_of line.now) ≡ None)
        (λ x. words_of line.now ≡ x.0.now ∷ x.1.now ∷ words_of x.2.now) }
{
    let (first, rest) = next_word(line)?;
    let (second, rest) = next_word(rest)?;
    Some((first, second, rest))
}

/// Whether the word is this one.
pub fn is_word(word: &[u8], name: &str) -> bool
    ensures { result ≡ bytes_eq word.now name.now }
{
    word == name.as_bytes()
}

/// Whether every byte may stand in a text. It looks at all of them, so that many are judged at
/// once.
pub fn is_lawful(line: &[u8]) -> bool
    ensures { result ≡ list_all is_allowed line.now }
{
    let mut lawful = true;
    for &byte in line {
        lawful &= allowed(byte);
    }
    lawful
}
