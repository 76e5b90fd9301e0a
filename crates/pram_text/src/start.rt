//! The arrays and the start values of a text.
ghost use Rattle.std.specs.Prelude.{◌≡◌, ◌+◌, ◌≤◌, ◌&&◌, ℕ, List};
ghost use Rattle.std.specs.Prelude.{IfOk, OnOk, false, true, is_some, length, map};
ghost use Rattle.std.specs.Prelude.{unwrap_or, vec_len};
ghost use Rattle.std.specs.Option.{option_or};
ghost use Rattle.std.specs.List.{list_any, range_with_len};
ghost use Rattle.text_lines.specs.Lines.{Line, words_of};
ghost use Rattle.pram_text.specs.Judgement.{gives, says_array};
ghost use Rattle.pram_text.specs.Text.{value_by};
ghost use Rattle.pram_text.specs.Inner.Reading.{HoldsNothing, HoldsStart, ReadsValues, TakesStart};
ghost use Rattle.pram_text.specs.Inner.Reading.{value_given};

use crate::fault::TextKind;
use crate::header::{array_in, init_in, is_array_line};
use crate::numbers::number_within;
use pram_job::Array;
use std::alloc::{AllocError, Global};
use std::collections::BTreeMap;
use text_lines::next_word;

/// The start values and the arrays so far.
#[derive(Drop)]
pub(crate) struct Setup<'t> {
    pub(crate) values: Vec<Option<u32>>,
    pub(crate) arrays: BTreeMap<&'t [u8], Array>,
}

impl<'t> Setup<'t> {
    /// No array and no value.
    pub(crate) fn new(alloc: Global) -> Self
        ensures { HoldsNothing result }
    {
        Setup {
            values: Vec::new(alloc),
            arrays: BTreeMap::new(alloc),
        }
    }

    /// Reads one line more. The first start value makes room for all.
    pub(crate) fn take(&mut self, later: bool, cells: u32, line: &'t [u8]) -> Result<(), TextKind>
        requires { 1 ≤ cells }
        ensures { (inits : List Line) → HoldsStart later cells inits self.old
            → TakesStart later cells inits (words_of line.now) result self.new }
    {
        if later && is_array_line(line) {
            self.take_array(cells, line)
        } else {
            self.take_values(later, cells, line)
        }
    }

    fn take_array(&mut self, cells: u32, line: &'t [u8]) -> Result<(), TextKind>
        requires cells { 1 ≤ cells }
        requires line { says_array (words_of line.now) ≡ true }
        ensures { (inits : List Line) → HoldsStart true cells inits self.old
            → TakesStart true cells inits (words_of line.now) result self.new }
    {
        let (name, array) = array_in(cells, line)?;
        if !self.values.is_empty() {
            return Err(TextKind::BadHeader);
        }
        match self.arrays.insert(name, array)? {
            None => Ok(()),
            Some(_) => Err(TextKind::BadHeader),
        }
    }

    fn take_values(&mut self, later: bool, cells: u32, line: &[u8]) -> Result<(), TextKind>
        requires cells { 1 ≤ cells }
        requires line { (later && says_array (words_of line.now)) ≡ false }
        ensures { (inits : List Line) → HoldsStart later cells inits self.old
            → TakesStart later cells inits (words_of line.now) result self.new }
    {
        let (first, words) = init_in(later, cells, line)?;
        let values = values_in(*self.values.allocator(), cells - first, words)?;
        make_room(&mut self.values, cells as usize)?;
        let first = first as usize;
        if is_given(&self.values, first, values.len()) {
            return Err(TextKind::BadHeader);
        }
        give(&mut self.values, first, &values);
        Ok(())
    }
}

// The numbers of these words, for which there are so many cells.
fn values_in(alloc: Global, room: u32, words: &[u8]) -> Result<Vec<u32>, TextKind>
    ensures read { ReadsValues room (words_of words.now) result }
    ensures fit { IfOk result (λ values. vec_len values ≤ room) }
{
    let mut values = Vec::new(alloc);
    let mut rest = words;
    while let Some((word, after)) = next_word(rest) {
        let value = number_within(0, u32::MAX, word)?;
        if values.len() >= room as usize {
            return Err(TextKind::OutOfLimits);
        }
        values.push(value)?;
        rest = after;
    }
    Ok(values)
}

// Makes room for the values of so many cells.
fn make_room(start: &mut Vec<Option<u32>>, cells: usize) -> Result<(), AllocError>
    ensures room { OnOk result (cells ≤ vec_len start.new) }
    ensures given { (c : ℕ) → value_given start.new.items c ≡ value_given start.old.items c }
{
    if start.len() < cells {
        start.resize(cells, None)?;
    }
    Ok(())
}

// Whether one of so many cells, from the first on, has a value.
fn is_given(start: &[Option<u32>], first: usize, len: usize) -> bool
    requires { first + len ≤ length start.now }
    ensures { result ≡ list_any (λ c. is_some (value_given start.now c))
        (range_with_len first len) }
{
    (first..first + len).any(|cell| start[cell].is_some())
}

// Gives the cells from the first on their values.
fn give(start: &mut [Option<u32>], first: usize, values: &[u32])
    requires { first + length values.now ≤ length start.old }
    ensures len { length start.new ≡ length start.old }
    ensures given { (c : ℕ) → value_given start.new c
        ≡ option_or (value_by (gives first values.now) c) (value_given start.old c) }
{
    for (k, value) in values.iter().enumerate() {
        start[first + k] = Some(*value);
    }
}

/// The value of each cell, 0 where none is given.
pub(crate) fn start_values(
    alloc: Global,
    start: &[Option<u32>],
    cells: u32,
) -> Result<Vec<u32>, AllocError>
    ensures { IfOk result (λ values.
        values.items ≡ map (λ c. unwrap_or (value_given start.now c) 0) (range_with_len 0 cells)) }
{
    (0..cells)
        .map(|cell| start.get(cell as usize).copied().flatten().unwrap_or(0))
        .collect(alloc)
}
