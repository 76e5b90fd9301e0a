//! What the lines before a bad one say: the names that are known, and the blocks that are open.
use crate::piece::Pieces;
use crate::words::is_among;
use pardo_text::said;
use std::alloc::{AllocError, Global};
use text_lines::{TextLines, is_word};

/// What a line has to say.
#[derive(Clone, Copy, PartialEq, Eq)]
pub(crate) enum Part {
    Version,
    Rule,
    Header,
    Code,
}

/// What a name stands for.
#[derive(Clone, Copy, PartialEq, Eq)]
pub(crate) enum Sort {
    Constant,
    Own,
    Array,
    /// An array of two indices.
    Table,
    Scalar,
    Private,
    Loop,
}

impl Sort {
    /// As a sentence names it.
    pub(crate) fn phrase(self) -> &'static str {
        match self {
            Sort::Constant => "a constant",
            Sort::Own => "the own number",
            Sort::Array => "an array",
            Sort::Table => "an array of two indices",
            Sort::Scalar => "a shared scalar",
            Sort::Private => "a private variable",
            Sort::Loop => "the variable of a loop",
        }
    }
}

/// A name that is known, and the number of the line that declares it.
#[derive(Clone, Copy)]
pub(crate) struct Known<'t> {
    pub(crate) name: &'t [u8],
    pub(crate) sort: Sort,
    pub(crate) line: u64,
}

/// An open block: the word that opens it, its line, and the line of its `else`, or 0.
#[derive(Clone, Copy)]
pub(crate) struct Open<'t> {
    pub(crate) word: &'t [u8],
    pub(crate) line: u64,
    pub(crate) otherwise: u64,
}

/// What the lines before say.
#[derive(Drop)]
pub struct Before<'t> {
    pub(crate) part: Part,
    pub(crate) known: Vec<Known<'t>>,
    pub(crate) open: Vec<Open<'t>>,
    /// The bad line, without its line feed.
    pub line: &'t [u8],
}

// What a name stands for that a line with this first word declares, if it declares one.
fn declared_sort(first: &[u8], shared: Sort) -> Option<Sort> {
    if is_word(first, "const") {
        Some(Sort::Constant)
    } else if is_word(first, "procs") {
        Some(Sort::Own)
    } else if is_word(first, "private") {
        Some(Sort::Private)
    } else if is_word(first, "shared") {
        Some(shared)
    } else {
        None
    }
}

// What a shared name stands for, by what follows it in a line of so many bytes.
fn shared_sort(len: usize, pieces: &mut Pieces<'_>) -> Sort {
    if !is_word(pieces.take_spelled(), "[") {
        return Sort::Scalar;
    }
    let mut open = 0usize;
    for _turn in 0..len {
        match pieces.take_spelled() {
            b"(" => open = open.saturating_add(1),
            b")" => open = open.saturating_sub(1),
            b"," if open == 0 => return Sort::Table,
            b"]" | b"" => break,
            _ => (),
        }
    }
    Sort::Array
}

/// What the lines before that of this number say.
pub fn lines_before<'t>(
    alloc: Global,
    text: &'t [u8],
    number: u64,
) -> Result<Before<'t>, AllocError> {
    let mut before = Before {
        part: Part::Version,
        known: Vec::new(alloc),
        open: Vec::new(alloc),
        line: b"",
    };
    let mut lines = TextLines::new(text);
    for _turn in 1..number {
        let Some(line) = lines.take_line() else {
            break;
        };
        before.take_line(lines.number(), said(line))?;
    }
    if let Some(line) = lines.take_line() {
        before.line = line;
    }
    Ok(before)
}

impl<'t> Before<'t> {
    /// The line of this number as well, which has no comment.
    pub fn take_line(&mut self, number: u64, line: &'t [u8]) -> Result<(), AllocError> {
        let mut pieces = Pieces::new(line);
        let first = pieces.take_spelled();
        let second = pieces.take_spelled();
        if first.is_empty() {
            return Ok(());
        }
        match self.part {
            Part::Version => self.part = Part::Rule,
            Part::Rule => self.part = Part::Header,
            Part::Header => {
                let shared = shared_sort(line.len(), &mut pieces);
                return self.take_declaration(number, first, second, shared);
            }
            Part::Code => return self.take_code(number, first, second),
        }
        Ok(())
    }

    fn take_declaration(
        &mut self,
        line: u64,
        first: &'t [u8],
        name: &'t [u8],
        shared: Sort,
    ) -> Result<(), AllocError> {
        let Some(sort) = declared_sort(first, shared) else {
            self.part = Part::Code;
            return Ok(());
        };
        self.learn(name, sort, line)
    }

    fn take_code(&mut self, line: u64, word: &'t [u8], name: &'t [u8]) -> Result<(), AllocError> {
        if is_among("if while for", word) {
            return self.begin(line, word, name);
        }
        if is_word(word, "else") {
            self.pass_else(line);
        } else if is_word(word, "end") {
            self.close();
        }
        Ok(())
    }

    // A block begins, with this name if it is a loop `for`.
    fn begin(&mut self, line: u64, word: &'t [u8], name: &'t [u8]) -> Result<(), AllocError> {
        let otherwise = 0;
        let open = Open {
            word,
            line,
            otherwise,
        };
        self.open.push(open)?;
        if is_word(word, "for") {
            return self.learn(name, Sort::Loop, line);
        }
        Ok(())
    }

    fn learn(&mut self, name: &'t [u8], sort: Sort, line: u64) -> Result<(), AllocError> {
        self.known.push(Known { name, sort, line })?;
        Ok(())
    }

    fn pass_else(&mut self, line: u64) {
        if let Some(open) = self.open.last_mut() {
            open.otherwise = line;
        }
    }

    fn close(&mut self) {
        if let Some(open) = self.open.pop()
            && is_word(open.word, "for")
        {
            self.known.pop();
        }
    }

    /// What is known by this name.
    pub(crate) fn known(&self, name: &[u8]) -> Option<Known<'t>> {
        for known in &self.known {
            if known.name == name {
                return Some(*known);
            }
        }
        None
    }
}
