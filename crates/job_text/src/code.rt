//! The instructions of a job, and the labels that they jump to.
ghost use Rattle.std.specs.Prelude.{◌≡◌, ℕ, ◌++◌, ◌∷◌, ◌==◌, [], true, false, slice_set};
ghost use Rattle.std.specs.Prelude.{string_bytes, IfOk, MatchOption, OnOk};
ghost use Rattle.job_text.specs.Inner.Printing.{aims_of, spaced};
ghost use Rattle.job_text.specs.Printed.{aims_at, body_lines, instruction_line};
ghost use Rattle.job_text.specs.Printed.{line_text, lines_text, operand_word, operand_words};
ghost use Rattle.job_text.specs.Printed.{place_words};
ghost use Rattle.pram_job.specs.Instructions.{row_of};

use crate::array_names::ArrayNames;
use pram_job::{Instr, Operand, Operands, Place};
use std::alloc::{AllocError, Global};

/// For each instruction, whether one jumps to it.
pub(crate) fn aims_of(alloc: Global, code: &[Instr]) -> Result<Vec<bool>, AllocError>
    ensures { IfOk result (λ aims. aims.items ≡ aims_of code.now) }
{
    let mut aims = vec![in alloc; false; code.len()]?;
    for instr in code {
        if let Some(aim) = aim_of(*instr) {
            mark(aims.as_mut_slice(), aim as usize);
        }
    }
    Ok(aims)
}

// The index that an instruction jumps to.
fn aim_of(instr: Instr) -> Option<u32>
    ensures { MatchOption result ((i : ℕ) → aims_at i (row_of instr).1 ≡ false)
        (λ aim. (i : ℕ) → aims_at i (row_of instr).1 ≡ (aim == i)) }
{
    let (_, operands) = instr.row();
    match operands {
        Operands::RegisterIndex(_, index) | Operands::Index(index) => Some(index),
        _ => None,
    }
}

#[tactic(auto, using(std::proofs::lemmas::List::set_past))]
// Notes a jump to this index, if an instruction stands there.
fn mark(aims: &mut [bool], aim: usize)
    ensures { aims.new ≡ slice_set aims.old aim true }
{
    if aim < aims.len() {
        aims[aim] = true;
    }
}

/// Adds a line for each instruction.
pub(crate) fn push_code<N: ArrayNames>(
    text: &mut String,
    names: &N,
    code: &[Instr],
    aims: &[bool],
) -> Result<(), AllocError>
    requires { aims.now ≡ aims_of code.now }
    ensures { OnOk result (string_bytes text.new ≡ string_bytes text.old
        ++ lines_text (body_lines (N.words names.now) code.now)) }
{
    for (index, instr) in code.iter().enumerate() {
        push_instruction(text, names, aims[index], index, *instr)?;
    }
    Ok(())
}

fn push_instruction<N: ArrayNames>(
    text: &mut String,
    names: &N,
    is_aim: bool,
    index: usize,
    instr: Instr,
) -> Result<(), AllocError>
    ensures { OnOk result (string_bytes text.new
        ≡ string_bytes text.old
        ++ line_text (instruction_line (N.words names.now) is_aim index instr)) }
{
    let (name, operands) = instr.row();
    if is_aim {
        write!(text, "L{index}: ")?;
    }
    text.push_str(name)?;
    push_operands(text, names, operands)?;
    text.push_str("\n")
}

// Each operand stands after a blank.
fn push_operands<N: ArrayNames>(
    text: &mut String,
    names: &N,
    operands: Operands,
) -> Result<(), AllocError>
    ensures { OnOk result (string_bytes text.new
        ≡ string_bytes text.old ++ spaced (operand_words (N.words names.now) operands)) }
{
    match operands {
        Operands::Bare => Ok(()),
        Operands::Target(r) => write!(text, " r{r}"),
        Operands::TargetNumber(r, k) => write!(text, " r{r} {k}"),
        Operands::TargetPlace(r, place) => {
            write!(text, " r{r}")?;
            push_place(text, names, place)
        }
        Operands::TargetTwo(r, a, b) => {
            write!(text, " r{r} r{a}")?;
            push_operand(text, b)
        }
        Operands::PlaceValue(place, b) => {
            push_place(text, names, place)?;
            push_operand(text, b)
        }
        Operands::RegisterIndex(r, index) => write!(text, " r{r} L{index}"),
        Operands::Index(index) => write!(text, " L{index}"),
    }
}

fn push_place<N: ArrayNames>(text: &mut String, names: &N, place: Place) -> Result<(), AllocError>
    ensures { OnOk result (string_bytes text.new
        ≡ string_bytes text.old ++ spaced (place_words (N.words names.now) place)) }
{
    match place {
        Place::Cell(index) => push_operand(text, index),
        Place::Named(array, index) => {
            text.push_str(" ")?;
            names.push_name(text, array)?;
            push_operand(text, index)
        }
    }
}

fn push_operand(text: &mut String, operand: Operand) -> Result<(), AllocError>
    ensures { OnOk result (string_bytes text.new
        ≡ string_bytes text.old ++ spaced (operand_word operand ∷ [])) }
{
    match operand {
        Operand::Register(r) => write!(text, " r{r}"),
        Operand::Number(number) => write!(text, " {number}"),
    }
}
