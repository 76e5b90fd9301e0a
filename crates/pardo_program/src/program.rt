//! Programs.
ghost use Rattle.std.specs.Prelude.{◌≡◌, ◌++◌, IfOk, OnOk, [], replicate};

use crate::arrays::Array;
use crate::statement::Line;
use pram_job::Rule;
use std::alloc::{AllocError, Global};
use std::marker::Model;

/// A private variable.
#[derive(Drop)]
pub struct Private {
    name: Vec<u8>,
    start: Vec<u32>,
}

impl Model for Private {
    ghost use Rattle.pardo_program.specs.Program.{PrivateData};

    ghost Value = { PrivateData };

    ghost view = { λ p. record { name = p.name.items; start = p.start.items } };
}

impl Private {
    /// A private variable of this name, with these values to start with.
    pub fn new(name: Vec<u8>, start: Vec<u32>) -> Self
        ensures { result ≡ record { name = name.items; start = start.items } }
    {
        Private { name, start }
    }

    fn copied(&self, alloc: Global) -> Result<Self, AllocError>
        ensures { IfOk result (λ variable. variable ≡ self.now) }
    {
        let name = Vec::from_slice(alloc, self.name())?;
        let start = Vec::from_slice(alloc, self.start())?;
        Ok(Private::new(name, start))
    }

    /// The name.
    pub fn name(&self) -> &[u8]
        ensures { result.now ≡ self.now.name }
    {
        self.name.as_slice()
    }

    /// The value that it starts with, of each processor.
    pub fn start(&self) -> &[u32]
        ensures { result.now ≡ self.now.start }
    {
        self.start.as_slice()
    }
}

/// What a program consists of.
#[derive(Drop)]
pub struct Parts {
    pub rule: Rule,
    /// How many processors there are.
    pub procs: u32,
    pub arrays: Vec<Array>,
    pub privates: Vec<Private>,
    /// How many loops, and how many `if`s, are open at once at most.
    pub loops: usize,
    pub choices: usize,
    pub lines: Vec<Line>,
}

/// A program.
#[derive(Drop)]
pub struct Program {
    rule: Rule,
    procs: u32,
    arrays: Vec<Array>,
    privates: Vec<Private>,
    loops: usize,
    choices: usize,
    pub(crate) lines: Vec<Line>,
}

impl Model for Program {
    ghost use Rattle.pardo_program.specs.Program.{ProgramData};

    ghost Value = { ProgramData };

    ghost use Rattle.std.specs.Coded.{codes};
    ghost use Rattle.pardo_program.specs.contracts.statement.Line as line;

    ghost coded = { Prim.hlevel (codes, line.the_row.coded) };

    ghost view = { λ p. record {
      rule = p.rule;
      procs = p.procs;
      arrays = p.arrays.items;
      privates = p.privates.items;
      loops = p.loops;
      choices = p.choices;
      lines = p.lines.items;
    } };
}

impl Program {
    /// The program of these parts.
    pub fn new(parts: Parts) -> Self
        ensures { result ≡ record {
          rule = parts.rule;
          procs = parts.procs;
          arrays = parts.arrays.items;
          privates = parts.privates.items;
          loops = parts.loops;
          choices = parts.choices;
          lines = parts.lines.items;
        } }
    {
        Program {
            rule: parts.rule,
            procs: parts.procs,
            arrays: parts.arrays,
            privates: parts.privates,
            loops: parts.loops,
            choices: parts.choices,
            lines: parts.lines,
        }
    }

    /// The rule of writing.
    pub fn rule(&self) -> Rule
        ensures { result ≡ self.now.rule }
    {
        self.rule
    }

    /// How many processors there are.
    pub fn procs(&self) -> u32
        ensures { result ≡ self.now.procs }
    {
        self.procs
    }

    /// The shared arrays, in their order.
    pub fn arrays(&self) -> &[Array]
        ensures { result.now ≡ self.now.arrays }
    {
        self.arrays.as_slice()
    }

    /// The private variables, in their order.
    pub fn privates(&self) -> &[Private]
        ensures { result.now ≡ self.now.privates }
    {
        self.privates.as_slice()
    }

    /// How many loops are open at once at most.
    pub fn loops(&self) -> usize
        ensures { result ≡ self.now.loops }
    {
        self.loops
    }

    /// How many `if`s are open at once at most.
    pub fn choices(&self) -> usize
        ensures { result ≡ self.now.choices }
    {
        self.choices
    }

    /// The lines of code.
    pub fn lines(&self) -> &[Line]
        ensures { result.now ≡ self.now.lines }
    {
        self.lines.as_slice()
    }

    /// The same program with these lines, with so many loops, and with so many private variables
    /// more, which have no name and start with 0.
    pub fn with_lines(
        &self,
        alloc: Global,
        more: usize,
        loops: usize,
        lines: Vec<Line>,
    ) -> Result<Self, AllocError>
        ensures { IfOk result (λ program. program ≡ record self.now {
          privates = self.now.privates
              ++ replicate more (record { name = []; start = replicate self.now.procs 0 });
          loops = loops;
          lines = lines.items;
        }) }
    {
        let mut privates = copied_privates(alloc, self.privates())?;
        push_nameless(&mut privates, alloc, more, self.procs)?;
        Ok(Program {
            rule: self.rule,
            procs: self.procs,
            arrays: copied_arrays(alloc, self.arrays())?,
            privates,
            loops,
            choices: self.choices,
            lines,
        })
    }
}

fn copied_arrays(alloc: Global, arrays: &[Array]) -> Result<Vec<Array>, AllocError>
    ensures { IfOk result (λ copies. copies.items ≡ arrays.now) }
{
    let mut copies = Vec::with_capacity(alloc, arrays.len())?;
    for array in arrays {
        copies.push(array.copied(alloc)?)?;
    }
    Ok(copies)
}

fn copied_privates(alloc: Global, privates: &[Private]) -> Result<Vec<Private>, AllocError>
    ensures { IfOk result (λ copies. copies.items ≡ privates.now) }
{
    let mut copies = Vec::with_capacity(alloc, privates.len())?;
    for variable in privates {
        copies.push(variable.copied(alloc)?)?;
    }
    Ok(copies)
}

// So many private variables more, which have no name and start with 0.
fn push_nameless(
    privates: &mut Vec<Private>,
    alloc: Global,
    more: usize,
    procs: u32,
) -> Result<(), AllocError>
    ensures { OnOk result (privates.new.items ≡ privates.old.items
        ++ replicate more (record { name = []; start = replicate procs 0 })) }
{
    for _count in 0..more {
        let mut start = Vec::new(alloc);
        start.resize(procs as usize, 0)?;
        privates.push(Private::new(Vec::new(alloc), start))?;
    }
    Ok(())
}
