//! The instructions of a text.
ghost use Rattle.std.specs.Prelude.{◌≡◌, ◌++◌, ◌∷◌, [], List, OnOk, IfErr};
ghost use Rattle.std.specs.Option.{option_copied};
ghost use Rattle.text_lines.specs.Lines.{Line, words_of};
ghost use Rattle.pram_text.specs.Inner.Reading.{HoldsCode, HoldsNoCode, TakesCode, Defines};
ghost use Rattle.pram_text.specs.Inner.Reading.{IsCoded};
ghost use Rattle.pram_text.specs.Inner.Reading.{numbers_of, label_at};
ghost use Rattle.pram_text.specs.Inner.Statement.{aimed, known, resolved};

use crate::fault::{TextFault, TextKind};
use crate::statement::{Names, Statement, is_name_word, split_label, statement_in};
use pram_job::Instr;
use pram_job::limits::MAX_CODE;
use std::alloc::{AllocError, Global};
use std::collections::BTreeMap;

/// A statement, and the number of its line.
#[derive(Clone, Copy)]
pub(crate) struct Written<'t> {
    pub(crate) line: u64,
    pub(crate) statement: Statement<'t>,
}

/// The instructions so far, and the indices of the labels so far.
#[derive(Drop)]
pub(crate) struct Program<'t> {
    pub(crate) written: Vec<Written<'t>>,
    pub(crate) indices: BTreeMap<&'t [u8], u32>,
}

impl<'t> Program<'t> {
    /// A program with no line.
    pub(crate) fn new(alloc: Global) -> Self
        ensures held { HoldsNoCode result }
        ensures numbers { numbers_of result ≡ [] }
    {
        Program {
            written: Vec::new(alloc),
            indices: BTreeMap::new(alloc),
        }
    }

    /// Reads one line more.
    pub(crate) fn take(
        &mut self,
        number: u64,
        line: &'t [u8],
        names: &Names<'_, 't>,
    ) -> Result<(), TextKind>
        ensures told { (body : List Line) → HoldsCode (known names.now) body self.old
            → TakesCode (known names.now) body (words_of line.now) result self.new }
        ensures number { OnOk result (numbers_of self.new ≡ numbers_of self.old ++ number ∷ []) }
    {
        let index = self.written.len();
        if index >= MAX_CODE {
            return Err(TextKind::TooLong);
        }
        let (label, rest) = split_label(line);
        define(&mut self.indices, label, index as u32)?;
        let statement = statement_in(rest, names)?;
        self.written.push(Written {
            line: number,
            statement,
        })?;
        Ok(())
    }

    /// The instructions, each jump with the index of its label.
    /// The fault is that of the first jump to an unknown one.
    pub(crate) fn code(&self) -> Result<Vec<Instr>, TextFault>
        ensures told { IsCoded (label_at self.now.indices) self.now.written.items result }
        ensures memory { IfErr result (λ fault. fault.kind ≡ TextKind.Memory → fault.line ≡ 0) }
    {
        let mut code = Vec::with_capacity(*self.written.allocator(), self.written.len())?;
        for written in &self.written {
            match resolve(&self.indices, &written.statement) {
                Ok(instr) => code.push(instr)?,
                Err(kind) => return Err(TextFault {
                    line: written.line,
                    kind,
                }),
            }
        }
        Ok(code)
    }
}

// Gives a label its index, if there is one.
fn define<'t>(
    indices: &mut BTreeMap<&'t [u8], u32>,
    label: Option<&'t [u8]>,
    index: u32,
) -> Result<(), TextKind>
    ensures { Defines indices.old (option_copied label.entry) index result indices.new }
{
    let Some(label) = label else {
        return Ok(());
    };
    if !is_name_word(label) {
        return Err(TextKind::UnknownInstruction);
    }
    match indices.insert(label, index)? {
        None => Ok(()),
        Some(_) => Err(TextKind::DuplicateLabel),
    }
}

// The instruction of a statement, with the index of its label.
fn resolve(indices: &BTreeMap<&[u8], u32>, statement: &Statement<'_>) -> Result<Instr, TextKind>
    ensures { result ≡ resolved (label_at indices.now) statement.now }
{
    let Some(label) = statement.target else {
        return Ok(statement.instr);
    };
    match indices.get(label) {
        Some(index) => Ok(aimed(statement.instr, *index)),
        None => Err(TextKind::UnknownLabel),
    }
}

// The instruction, which jumps to this index.
fn aimed(instr: Instr, index: u32) -> Instr
    ensures { result ≡ aimed instr index }
{
    match instr {
        Instr::Jz(register, _) => Instr::Jz(register, index),
        Instr::Jmp(_) => Instr::Jmp(index),
        other => other,
    }
}
