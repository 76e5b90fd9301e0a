//! What the lines of a text so far say.
ghost use Rattle.std.specs.Prelude.{◌≡◌, IfOk, Ok};

use crate::arrays::Arrays;
use crate::fault::PardoKind;
use crate::names::{Named, Names};
use pardo_program::limits::MAX_CELLS;
use pardo_program::{
    Block, Blocks, Line, Parts, Private, Program, Shape, Statement, leave_tests_out,
};
use pram_job::Rule;
use std::alloc::{AllocError, Global};
use std::collections::BTreeMap;

/// What the next line has to say.
#[derive(Clone, Copy)]
pub(crate) enum Stage {
    /// `pardo 1`
    Version,
    /// `rule NAME`
    Rule,
    /// A declaration, or `code`.
    Header,
    /// A line of code.
    Code,
}

/// The program so far.
#[derive(Drop)]
pub(crate) struct Draft<'t> {
    pub(crate) alloc: Global,
    pub(crate) stage: Stage,
    pub(crate) rule: Rule,
    /// How many processors there are; none before the line `procs`.
    pub(crate) procs: u32,
    pub(crate) names: Names<'t>,
    pub(crate) arrays: Arrays,
    pub(crate) privates: Vec<Private>,
    pub(crate) blocks: Blocks,
    /// The variables of the open loops, the innermost last.
    pub(crate) loops: Vec<&'t [u8]>,
    /// How many loops, and how many `if`s, were open at once.
    pub(crate) most_loops: usize,
    pub(crate) most_choices: usize,
    pub(crate) lines: Vec<Line>,
}

impl<'t> Draft<'t> {
    ghost use Rattle.pardo_text.specs.Drafts.{empty, fitting, with_name, with_array};
    ghost use Rattle.pardo_text.specs.Drafts.{with_private, with_line, with_block, with_loop};
    ghost use Rattle.pardo_text.specs.Drafts.{without, with_end};
    ghost use Rattle.pardo_text.specs.Inner.Drafts.{draft_of};
    ghost use Rattle.pardo_text.specs.Inner.Tokens.{GivesAsRead};
    ghost use Rattle.pardo_text.specs.Reading.{program_in};

    /// What no line says.
    pub(crate) fn new(alloc: Global) -> Self
        ensures { draft_of result ≡ empty }
    {
        Draft {
            alloc,
            stage: Stage::Version,
            rule: Rule::Common,
            procs: 0,
            names: BTreeMap::new(alloc),
            arrays: Arrays::new(alloc),
            privates: Vec::new(alloc),
            blocks: Blocks::new(alloc),
            loops: Vec::new(alloc),
            most_loops: 0,
            most_choices: 0,
            lines: Vec::new(alloc),
        }
    }

    /// One name more.
    pub(crate) fn add_name(&mut self, name: &'t [u8], thing: Named) -> Result<(), AllocError>
        ensures { IfOk result (λ _. draft_of self.new
            ≡ with_name name.now thing (draft_of self.old)) }
    {
        self.names.insert(name, thing)?;
        Ok(())
    }

    /// One array more, if its cells are within their limit.
    pub(crate) fn add_array(
        &mut self,
        name: &'t [u8],
        shape: Shape,
        start: Vec<u32>,
    ) -> Result<(), PardoKind>
        ensures { GivesAsRead (λ _. draft_of self.new) result
            (fitting (with_array name.now shape start.items (draft_of self.old))) }
    {
        let index = self.arrays.len();
        let thing = match shape {
            Shape::Scalar => Named::Scalar(index),
            Shape::Line(_) => Named::Array(index),
            Shape::Table(rows, columns) => Named::Table(index, rows, columns),
        };
        self.add_name(name, thing)?;
        let name = Vec::from_slice(self.alloc, name)?;
        self.arrays.push(name, shape, start)?;
        self.fit()
    }

    /// One private variable more, if its cells are within their limit.
    pub(crate) fn add_private(&mut self, name: &'t [u8], start: Vec<u32>) -> Result<(), PardoKind>
        ensures { GivesAsRead (λ _. draft_of self.new) result
            (fitting (with_private name.now start.items (draft_of self.old))) }
    {
        let index = self.privates.len();
        self.add_name(name, Named::Private(index))?;
        let name = Vec::from_slice(self.alloc, name)?;
        self.privates.push(Private::new(name, start))?;
        self.fit()
    }

    /// Whether the cells are within their limit.
    pub(crate) fn fit(&self) -> Result<(), PardoKind>
        ensures { GivesAsRead (λ _. draft_of self.now) result (fitting (draft_of self.now)) }
    {
        let of_each = self
            .privates
            .len()
            .saturating_add(self.most_loops)
            .saturating_add(self.most_choices);
        let own = (self.procs as usize).saturating_mul(of_each);
        if self.arrays.cells().saturating_add(own) <= MAX_CELLS as usize {
            Ok(())
        } else {
            Err(PardoKind::TooManyCells)
        }
    }

    /// One line of code more.
    pub(crate) fn add_line(&mut self, number: u64, statement: Statement) -> Result<(), AllocError>
        ensures { IfOk result (λ _. draft_of self.new
            ≡ with_line number statement (draft_of self.old)) }
    {
        let depth = self.blocks.depth();
        self.lines.push(Line {
            statement,
            depth,
            number,
        })?;
        Ok(())
    }

    /// One open block more.
    pub(crate) fn open(&mut self, block: Block) -> Result<(), AllocError>
        ensures { IfOk result (λ _. draft_of self.new ≡ with_block block (draft_of self.old)) }
    {
        self.blocks.push(block)?;
        let depth = self.blocks.depth();
        self.most_choices = self.most_choices.max(depth);
        Ok(())
    }

    /// One line of code more, which opens a block.
    pub(crate) fn begin(
        &mut self,
        number: u64,
        statement: Statement,
        block: Block,
    ) -> Result<(), AllocError>
        ensures { IfOk result (λ _. draft_of self.new
            ≡ with_block block (with_line number statement (draft_of self.old))) }
    {
        self.add_line(number, statement)?;
        self.open(block)
    }

    /// One open loop more.
    pub(crate) fn open_loop(&mut self, name: &'t [u8]) -> Result<(), AllocError>
        ensures { IfOk result (λ _. draft_of self.new ≡ with_loop name.now (draft_of self.old)) }
    {
        let nest = self.loops.len();
        self.add_name(name, Named::Loop(nest))?;
        self.loops.push(name)?;
        self.most_loops = self.most_loops.max(self.loops.len());
        Ok(())
    }

    /// One open loop less, if one is open.
    pub(crate) fn close_loop(&mut self)
        ensures { draft_of self.new ≡ without (draft_of self.old).loops (draft_of self.old) }
    {
        if let Some(name) = self.loops.pop() {
            self.names.remove(name);
        }
    }

    /// The loop whose first line stands here ends at the next line.
    pub(crate) fn end_at(&mut self, begin: usize)
        ensures { draft_of self.new ≡ with_end begin (draft_of self.old) }
    {
        let here = self.lines.len();
        if begin < here {
            self.lines[begin].statement.set_end(here);
        }
    }

    /// The program, where all lines were read.
    pub(crate) fn finish(self) -> Result<Program, PardoKind>
        ensures { GivesAsRead (λ program. program) result (program_in (draft_of self.entry)) }
    {
        let Stage::Code = self.stage else {
            return Err(PardoKind::BadHeader);
        };
        if !self.blocks.is_empty() {
            return Err(PardoKind::OpenBlock);
        }
        if self.lines.is_empty() {
            return Err(PardoKind::NoCode);
        }
        let mut program = Program::new(Parts {
            rule: self.rule,
            procs: self.procs,
            arrays: self.arrays.into_items(),
            privates: self.privates,
            loops: self.most_loops,
            choices: self.most_choices,
            lines: self.lines,
        });
        leave_tests_out(self.alloc, &mut program)?;
        Ok(program)
    }
}
