//! Instructions as a text spells them.
ghost use Rattle.std.specs.Prelude.{◌≡◌, string_bytes, IfOk};
ghost use Rattle.pram_job.specs.declared.instr.Operand.TheVariants.{Register};
ghost use Rattle.pram_rows.specs.Instructions.{instruction_text, operand_text, address_text};
ghost use Rattle.pram_rows.specs.Instructions.{then_word, one_register_text};
ghost use Rattle.pram_rows.specs.Instructions.{register_number_text};

use crate::row_names::RowNames;
use pram_job::{Instr, Operand, Operands, Place};
use std::alloc::{AllocError, Global};

/// The instruction as a text spells it, with one blank between its words, and an array by its name.
/// A jump names the index that it goes to, counted from 0: the label that a text had for it is not
/// kept.
pub fn instruction_text<N: RowNames>(
    alloc: Global,
    names: &N,
    instr: Instr,
) -> Result<String, AllocError>
    ensures { IfOk result (λ text. string_bytes text
        ≡ instruction_text (N.words names.now).array instr) }
{
    let (name, operands) = instr.row();
    match operands {
        Operands::Bare => format!(in alloc; "{name}"),
        Operands::Target(r) => format!(in alloc; "{name} r{r}"),
        Operands::TargetNumber(r, k) => numbered(alloc, name, r, k),
        Operands::TargetPlace(r, place) => {
            let place = place_text(alloc, names, place)?;
            two(alloc, name, r, &place)
        }
        Operands::TargetTwo(r, a, b) => {
            let b = operand_text(alloc, b)?;
            three(alloc, name, r, a, &b)
        }
        Operands::PlaceValue(place, b) => {
            let place = place_text(alloc, names, place)?;
            let b = operand_text(alloc, b)?;
            joined(alloc, name, &place, &b)
        }
        Operands::RegisterIndex(r, index) => numbered(alloc, name, r, index),
        Operands::Index(index) => format!(in alloc; "{name} {index}"),
    }
}

fn operand_text(alloc: Global, operand: Operand) -> Result<String, AllocError>
    ensures { IfOk result (λ text. string_bytes text ≡ operand_text operand) }
{
    match operand {
        Operand::Register(r) => format!(in alloc; "r{r}"),
        Operand::Number(number) => format!(in alloc; "{number}"),
    }
}

fn place_text<N: RowNames>(alloc: Global, names: &N, place: Place) -> Result<String, AllocError>
    ensures { IfOk result (λ text. string_bytes text
        ≡ address_text (N.words names.now).array place) }
{
    match place {
        Place::Cell(index) => operand_text(alloc, index),
        Place::Named(array, index) => {
            let array = names.array_text(alloc, array)?;
            let index = operand_text(alloc, index)?;
            then(alloc, &array, &index)
        }
    }
}

fn then(alloc: Global, before: &str, after: &str) -> Result<String, AllocError>
    ensures { IfOk result (λ text. string_bytes text ≡ then_word before.now after.now) }
{
    format!(in alloc; "{before} {after}")
}

fn numbered(alloc: Global, name: &str, r: u8, number: u32) -> Result<String, AllocError>
    ensures { IfOk result (λ text. string_bytes text ≡ register_number_text name.now r number) }
{
    format!(in alloc; "{name} r{r} {number}")
}

fn two(alloc: Global, name: &str, r: u8, last: &str) -> Result<String, AllocError>
    ensures { IfOk result (λ text. string_bytes text
        ≡ then_word (one_register_text name.now r) last.now) }
{
    format!(in alloc; "{name} r{r} {last}")
}

fn three(alloc: Global, name: &str, r: u8, a: u8, last: &str) -> Result<String, AllocError>
    ensures { IfOk result (λ text. string_bytes text
        ≡ then_word (then_word (one_register_text name.now r) (operand_text (Register a)))
        last.now) }
{
    format!(in alloc; "{name} r{r} r{a} {last}")
}

fn joined(alloc: Global, name: &str, first: &str, last: &str) -> Result<String, AllocError>
    ensures { IfOk result (λ text. string_bytes text
        ≡ then_word (then_word name.now first.now) last.now) }
{
    format!(in alloc; "{name} {first} {last}")
}
