//! Instruction lines.
ghost use Rattle.std.specs.Prelude.{◌≡◌, ◌||◌, ◌==◌, ◌∷◌, drop, None, Some};
ghost use Rattle.std.specs.Char.{is_ascii_alphabetic, is_ascii_alphanumeric};
ghost use Rattle.std.specs.List.{list_all};
ghost use Rattle.std.specs.Option.{option_copied};
ghost use Rattle.std.specs.Str.{bytes_eq};
ghost use Rattle.pram_job.specs.Instructions.{table};
ghost use Rattle.text_lines.specs.Lines.{words_of};
ghost use Rattle.pram_text.specs.Inner.Statement.{ReadsNone, ReadsOne, ReadsTwo, ReadsLoad};
ghost use Rattle.pram_text.specs.Inner.Statement.{ReadsStore, ReadsNumber, ReadsJump, ReadsLabel};
ghost use Rattle.pram_text.specs.Inner.Statement.{ReadsLine, ReadsRows, known};
ghost use Rattle.pram_text.specs.Judgement.{label_of, unlabelled, is_name, register_of};
ghost use Rattle.pram_text.specs.Judgement.{operand_of, array_at};

use crate::fault::TextKind;
use crate::numbers::{is_numeric, number_within};
use pram_job::{Array, Instr, Operand, Place};
use std::collections::BTreeMap;
use text_lines::{has_words, is_word, next_word, one_word, three_words, two_words};

/// An instruction, with the label that a jump goes to, whose index is 0 until it is known.
#[derive(Clone, Copy)]
pub(crate) struct Statement<'a> {
    pub(crate) instr: Instr,
    pub(crate) target: Option<&'a [u8]>,
}

/// What the operands of a line may be: in a text of version 3 numbers, and these arrays.
#[derive(Clone, Copy)]
pub(crate) struct Names<'s, 't> {
    pub(crate) later: bool,
    pub(crate) arrays: &'s BTreeMap<&'t [u8], Array>,
}

/// The label of a line without its colon, and the line after it.
#[tactic(auto, unfolding(crate::specs::Judgement::label_of, crate::specs::Judgement::unlabelled))]
pub(crate) fn split_label(line: &[u8]) -> (Option<&[u8]>, &[u8])
    ensures label { option_copied result.0 ≡ label_of (words_of line.now) }
    ensures rest { words_of result.1.now ≡ unlabelled (words_of line.now) }
{
    let Some((word, rest)) = next_word(line) else {
        return (None, line);
    };
    match word.split_last() {
        Some((b':', label)) => (Some(label), rest),
        _ => (None, line),
    }
}

fn is_name_byte(byte: u8) -> bool
    ensures { result ≡ (is_ascii_alphanumeric byte || (byte == 95)) }
{
    byte.is_ascii_alphanumeric() || byte == b'_'
}

fn all_name_bytes(word: &[u8]) -> bool
    ensures { result ≡ list_all (λ b. is_ascii_alphanumeric b || (b == 95)) word.now }
{
    word.iter().all(|&byte| is_name_byte(byte))
}

/// Whether the word is a letter or `_`, and then letters, digits or `_`.
#[tactic(auto, unfolding(crate::specs::Judgement::is_name))]
pub fn is_name_word(word: &[u8]) -> bool
    ensures { result ≡ is_name word.now }
{
    match word.split_first() {
        Some((&first, rest)) => (first.is_ascii_alphabetic() || first == b'_')
            && all_name_bytes(rest),
        None => false,
    }
}

/// The register that a word names.
#[tactic(auto, unfolding(crate::specs::Judgement::register_of))]
pub fn register_in(word: &[u8]) -> Result<u8, TextKind>
    ensures { result ≡ register_of word.now }
{
    if is_word(word, "r0") {
        Ok(0)
    } else if is_word(word, "r1") {
        Ok(1)
    } else if is_word(word, "r2") {
        Ok(2)
    } else if is_word(word, "r3") {
        Ok(3)
    } else {
        Err(TextKind::BadRegister)
    }
}

fn no_operand_in(operands: &[u8]) -> Result<(), TextKind>
    ensures { ReadsNone (words_of operands.now) result }
{
    if has_words(operands) {
        Err(TextKind::WrongOperands)
    } else {
        Ok(())
    }
}

fn one_register_in(operands: &[u8]) -> Result<u8, TextKind>
    ensures { ReadsOne (words_of operands.now) result }
{
    let Some(r) = one_word(operands) else {
        return Err(TextKind::WrongOperands);
    };
    register_in(r)
}

fn operand_in(word: &[u8], later: bool) -> Result<Operand, TextKind>
    ensures { result ≡ operand_of later word.now }
{
    if later && is_numeric(word) {
        number_within(0, u32::MAX, word).map(Operand::Number)
    } else {
        register_in(word).map(Operand::Register)
    }
}

fn array_in(word: &[u8], names: &Names<'_, '_>) -> Result<Array, TextKind>
    ensures { result ≡ array_at (known names.now) word.now }
{
    names.arrays.get(word).copied().ok_or(TextKind::BadRegister)
}

fn two_operands_in(operands: &[u8], later: bool) -> Result<(u8, u8, Operand), TextKind>
    ensures { ReadsTwo later (words_of operands.now) result }
{
    let Some((r, a, b)) = three_words(operands) else {
        return Err(TextKind::WrongOperands);
    };
    Ok((register_in(r)?, register_in(a)?, operand_in(b, later)?))
}

fn load_in(operands: &[u8], names: &Names<'_, '_>) -> Result<(u8, Place), TextKind>
    ensures { ReadsLoad (known names.now) (words_of operands.now) result }
{
    let later = names.later;
    if let Some((r, a)) = two_words(operands) {
        return Ok((register_in(r)?, Place::Cell(operand_in(a, later)?)));
    }
    match three_words(operands) {
        Some((r, name, a)) if later => {
            let r = register_in(r)?;
            let array = array_in(name, names)?;
            Ok((r, Place::Named(array, operand_in(a, later)?)))
        }
        _ => Err(TextKind::WrongOperands),
    }
}

fn store_in(operands: &[u8], names: &Names<'_, '_>) -> Result<(Place, Operand), TextKind>
    ensures { ReadsStore (known names.now) (words_of operands.now) result }
{
    let later = names.later;
    if let Some((a, b)) = two_words(operands) {
        return Ok((Place::Cell(operand_in(a, later)?), operand_in(b, later)?));
    }
    match three_words(operands) {
        Some((name, a, b)) if later => {
            let array = array_in(name, names)?;
            let a = operand_in(a, later)?;
            Ok((Place::Named(array, a), operand_in(b, later)?))
        }
        _ => Err(TextKind::WrongOperands),
    }
}

fn register_number_in(operands: &[u8]) -> Result<(u8, u32), TextKind>
    ensures { ReadsNumber (words_of operands.now) result }
{
    let Some((r, k)) = two_words(operands) else {
        return Err(TextKind::WrongOperands);
    };
    Ok((register_in(r)?, number_within(0, u32::MAX, k)?))
}

fn register_label_in(operands: &[u8]) -> Result<(u8, &[u8]), TextKind>
    ensures { ReadsJump (words_of operands.now) result }
{
    let Some((r, label)) = two_words(operands) else {
        return Err(TextKind::WrongOperands);
    };
    Ok((register_in(r)?, label))
}

fn label_in(operands: &[u8]) -> Result<&[u8], TextKind>
    ensures { ReadsLabel (words_of operands.now) result }
{
    one_word(operands).ok_or(TextKind::WrongOperands)
}

// The statement that does not jump.
fn plain<'a>(instr: Instr) -> Statement<'a>
    ensures { (result.instr ≡ instr) × (result.target ≡ None) }
{
    Statement {
        instr,
        target: None,
    }
}

// The statement that jumps to this label.
fn jump<'a>(instr: Instr, label: &'a [u8]) -> Statement<'a>
    ensures { (result.instr ≡ instr) × (option_copied result.target ≡ Some label.now) }
{
    Statement {
        instr,
        target: Some(label),
    }
}

// The statement of an instruction of this name: the table, read from its names.
#[tactic(auto, unfolding(crate::specs::Judgement::instr_of))]
fn statement_of<'a>(
    name: &[u8],
    operands: &'a [u8],
    names: &Names<'_, '_>,
) -> Result<Statement<'a>, TextKind>
    ensures { ReadsLine (known names.now) (name.now ∷ words_of operands.now) result }
{
    let later = names.later;
    if is_word(name, "set") {
        register_number_in(operands).map(|(r, k)| plain(Instr::Set(r, k)))
    } else if is_word(name, "pid") {
        one_register_in(operands).map(|r| plain(Instr::Pid(r)))
    } else if is_word(name, "add") {
        two_operands_in(operands, later).map(|(r, a, b)| plain(Instr::Add(r, a, b)))
    } else if is_word(name, "sub") {
        two_operands_in(operands, later).map(|(r, a, b)| plain(Instr::Sub(r, a, b)))
    } else if is_word(name, "mul") {
        two_operands_in(operands, later).map(|(r, a, b)| plain(Instr::Mul(r, a, b)))
    } else {
        bits_of(name, operands, names)
    }
}

// The statement of an instruction that computes with bits or compares, or has a later row.
fn bits_of<'a>(
    name: &[u8],
    operands: &'a [u8],
    names: &Names<'_, '_>,
) -> Result<Statement<'a>, TextKind>
    ensures { ReadsRows (drop 5 (table names.now.later)) (known names.now) name.now
        (words_of operands.now) result }
{
    let later = names.later;
    if is_word(name, "and") {
        two_operands_in(operands, later).map(|(r, a, b)| plain(Instr::And(r, a, b)))
    } else if is_word(name, "or") {
        two_operands_in(operands, later).map(|(r, a, b)| plain(Instr::Or(r, a, b)))
    } else if is_word(name, "xor") {
        two_operands_in(operands, later).map(|(r, a, b)| plain(Instr::Xor(r, a, b)))
    } else if is_word(name, "lt") {
        two_operands_in(operands, later).map(|(r, a, b)| plain(Instr::Lt(r, a, b)))
    } else if is_word(name, "eq") {
        two_operands_in(operands, later).map(|(r, a, b)| plain(Instr::Eq(r, a, b)))
    } else {
        place_of(name, operands, names)
    }
}

// The statement of an instruction that names a place, jumps or halts, or has a later row.
fn place_of<'a>(
    name: &[u8],
    operands: &'a [u8],
    names: &Names<'_, '_>,
) -> Result<Statement<'a>, TextKind>
    ensures { ReadsRows (drop 10 (table names.now.later)) (known names.now) name.now
        (words_of operands.now) result }
{
    if is_word(name, "ld") {
        load_in(operands, names).map(|(r, place)| plain(Instr::Ld(r, place)))
    } else if is_word(name, "st") {
        store_in(operands, names).map(|(place, b)| plain(Instr::St(place, b)))
    } else if is_word(name, "jz") {
        register_label_in(operands).map(|(r, label)| jump(Instr::Jz(r, 0), label))
    } else if is_word(name, "jmp") {
        label_in(operands).map(|label| jump(Instr::Jmp(0), label))
    } else if is_word(name, "halt") {
        no_operand_in(operands).map(|()| plain(Instr::Halt))
    } else {
        later_of(name, operands, names)
    }
}

// The statement of an instruction that version 3 brought.
fn later_of<'a>(
    name: &[u8],
    operands: &[u8],
    names: &Names<'_, '_>,
) -> Result<Statement<'a>, TextKind>
    ensures { ReadsRows (drop 15 (table names.now.later)) (known names.now) name.now
        (words_of operands.now) result }
{
    let later = names.later;
    if later && is_word(name, "shl") {
        two_operands_in(operands, later).map(|(r, a, b)| plain(Instr::Shl(r, a, b)))
    } else if later && is_word(name, "shr") {
        two_operands_in(operands, later).map(|(r, a, b)| plain(Instr::Shr(r, a, b)))
    } else if later && is_word(name, "div") {
        two_operands_in(operands, later).map(|(r, a, b)| plain(Instr::Div(r, a, b)))
    } else if later && is_word(name, "rem") {
        two_operands_in(operands, later).map(|(r, a, b)| plain(Instr::Rem(r, a, b)))
    } else {
        Err(TextKind::UnknownInstruction)
    }
}

/// The statement of a line after its label.
#[tactic(auto, unfolding(crate::specs::Judgement::instr_of))]
pub(crate) fn statement_in<'a>(
    line: &'a [u8],
    names: &Names<'_, '_>,
) -> Result<Statement<'a>, TextKind>
    ensures { ReadsLine (known names.now) (words_of line.now) result }
{
    let Some((name, operands)) = next_word(line) else {
        return Err(TextKind::UnknownInstruction);
    };
    statement_of(name, operands, names)
}
