//! Header lines.
ghost use Rattle.std.specs.Prelude.{◌≡◌, ◌<◌, ◌≤◌, IfOk};
ghost use Rattle.text_lines.specs.Lines.{words_of};
ghost use Rattle.pram_text.specs.Judgement.{named_number, version_of, cells_of, procs_of, steps_of};
ghost use Rattle.pram_text.specs.Judgement.{rule_of, is_array_name, says_array, are_values};
ghost use Rattle.pram_text.specs.Judgement.{is_code};
ghost use Rattle.pram_text.specs.Inner.Reading.{ReadsArray, ReadsInit};

use crate::fault::TextKind;
use crate::numbers::{is_numeric, number_within};
use crate::sizes::{most_cells, most_procs};
use crate::statement::{is_name_word, register_in};
use pram_job::{Array, Rule};
use text_lines::{four_words, has_words, is_word, next_word, one_word, two_first_words, two_words};

/// The version that the first line names.
#[tactic(auto, unfolding(crate::specs::Judgement::version_of, crate::specs::Judgement::number_in))]
pub(crate) fn version_in(line: &[u8]) -> Result<u32, TextKind>
    ensures { result ≡ version_of (words_of line.now) }
{
    let Some((first, number)) = two_words(line) else {
        return Err(TextKind::BadHeader);
    };
    if !is_word(first, "pram") {
        return Err(TextKind::BadHeader);
    }
    if !is_numeric(number) {
        return Err(TextKind::BadNumber);
    }
    number_within(1, 3, number).map_err(|_| TextKind::BadHeader)
}

// The number of a line `NAME number`.
#[tactic(auto, unfolding(crate::specs::Judgement::named_number))]
fn named_number_in(name: &str, low: u32, high: u32, line: &[u8]) -> Result<u32, TextKind>
    ensures { result ≡ named_number name.now low high (words_of line.now) }
{
    match two_words(line) {
        Some((first, number)) if is_word(first, name) => number_within(low, high, number),
        _ => Err(TextKind::BadHeader),
    }
}

/// How many cells the line `cells` asks for in a text of this version.
pub(crate) fn cells_in(version: u32, line: &[u8]) -> Result<u32, TextKind>
    ensures { result ≡ cells_of version (words_of line.now) }
{
    named_number_in("cells", 1, most_cells(version), line)
}

/// How many processors the line `procs` asks for in a text of this version.
pub(crate) fn procs_in(version: u32, line: &[u8]) -> Result<u32, TextKind>
    ensures { result ≡ procs_of version (words_of line.now) }
{
    named_number_in("procs", 1, most_procs(version), line)
}

/// How many steps the line `steps` asks for.
pub(crate) fn steps_in(line: &[u8]) -> Result<u32, TextKind>
    ensures { result ≡ steps_of (words_of line.now) }
{
    named_number_in("steps", 0, u32::MAX, line)
}

/// The rule that the line `rule` names.
#[tactic(auto, unfolding(crate::specs::Judgement::rule_of))]
pub(crate) fn rule_in(line: &[u8]) -> Result<Rule, TextKind>
    ensures { result ≡ rule_of (words_of line.now) }
{
    match two_words(line) {
        Some((first, name)) if is_word(first, "rule") => {
            if is_word(name, "common") {
                Ok(Rule::Common)
            } else if is_word(name, "priority") {
                Ok(Rule::Priority)
            } else if is_word(name, "crew") {
                Ok(Rule::Crew)
            } else {
                Err(TextKind::BadHeader)
            }
        }
        _ => Err(TextKind::BadHeader),
    }
}

// Whether the word may name an array.
#[tactic(auto, unfolding(crate::specs::Judgement::is_array_name))]
fn is_array_name_word(word: &[u8]) -> bool
    ensures { result ≡ is_array_name word.now }
{
    match word.split_first() {
        Some((&first, rest)) => if first == b'.' {
            is_name_word(rest)
        } else {
            is_name_word(word) && register_in(word).is_err()
        },
        None => false,
    }
}

/// Whether the line begins with the word `array`.
#[tactic(auto, unfolding(crate::specs::Judgement::says_array))]
pub(crate) fn is_array_line(line: &[u8]) -> bool
    ensures { result ≡ says_array (words_of line.now) }
{
    next_word(line).is_some_and(|(word, _)| is_word(word, "array"))
}

/// The name and the array of a line `array`.
#[tactic(auto, unfolding(crate::specs::Judgement::array_of))]
pub(crate) fn array_in(cells: u32, line: &[u8]) -> Result<(&[u8], Array), TextKind>
    requires { 1 ≤ cells }
    ensures { ReadsArray cells (words_of line.now) result }
{
    let Some((_, name, base, len)) = four_words(line) else {
        return Err(TextKind::BadHeader);
    };
    if !is_array_name_word(name) {
        return Err(TextKind::BadHeader);
    }
    let base = number_within(0, cells - 1, base)?;
    let len = number_within(1, cells - base, len)?;
    Ok((name, Array { base, len }))
}

/// The first cell of a line `init`, and the words of the values.
#[tactic(auto, unfolding(crate::specs::Judgement::init_of))]
pub(crate) fn init_in(later: bool, cells: u32, line: &[u8]) -> Result<(u32, &[u8]), TextKind>
    requires { 1 ≤ cells }
    ensures read { ReadsInit later cells (words_of line.now) result }
    ensures within { IfOk result (λ read. read.0 < cells) }
{
    let Some((first, cell, values)) = two_first_words(line) else {
        return Err(TextKind::BadHeader);
    };
    if !is_word(first, "init") || !are_values(later, values) {
        return Err(TextKind::BadHeader);
    }
    Ok((number_within(0, cells - 1, cell)?, values))
}

// Whether the words may be start values: at least one, and before version 3 just one.
fn are_values(later: bool, words: &[u8]) -> bool
    ensures { result ≡ are_values later (words_of words.now) }
{
    if later {
        has_words(words)
    } else {
        one_word(words).is_some()
    }
}

/// Whether it is the line `code`.
#[tactic(auto, unfolding(crate::specs::Judgement::is_code))]
pub(crate) fn is_code_line(line: &[u8]) -> bool
    ensures { result ≡ is_code (words_of line.now) }
{
    one_word(line).is_some_and(|word| is_word(word, "code"))
}
