//! A line, token by token, up to a point in it: what could stand there.
use crate::before::{Before, Part, Sort};
use crate::wanted::Wanted;
use crate::words::{ends_operand, is_among, is_comparison, is_name};
use std::alloc::{AllocError, Global};
use text_lines::is_word;

// What lines begin with that name something new, and those with a condition.
const NAMING: &str = "const procs shared private for";

const CONDITIONAL: &str = "if elsif while assert";

/// What a bracket belongs to.
#[derive(Clone, Copy, PartialEq, Eq)]
enum Bracket {
    Plain,
    Log,
    /// That of `min` or `max`, before its `,`.
    Pair,
    Index,
    /// That of an array of two indices, before its `,`.
    Row,
    /// The same, after it.
    Column,
    /// That in which a line says how many places or rows an array has.
    Length,
}

/// An open bracket, and what was known before it.
#[derive(Clone, Copy)]
struct Open {
    bracket: Bracket,
    division: usize,
    is_compared: bool,
}

impl Open {
    // Only the operands of `min` or `max` are two, the indices of some arrays, and their rows and
    // columns.
    fn pass_comma(&mut self) {
        self.bracket = match self.bracket {
            Bracket::Pair => Bracket::Plain,
            Bracket::Row | Bracket::Length => Bracket::Column,
            other => other,
        };
    }
}

/// The tokens of a line so far.
#[derive(Drop)]
pub(crate) struct Scan<'b, 't> {
    known: &'b Before<'t>,
    /// The first one; where an assignment goes on, the one after.
    first: &'t [u8],
    before: &'t [u8],
    count: usize,
    open: Vec<Open>,
    /// The point of the last division within the innermost bracket.
    pub(crate) division: usize,
    /// Whether two operands within the innermost bracket are compared.
    is_compared: bool,
    /// Whether a mark came outside brackets that stands between a name and its value.
    is_assigned: bool,
    /// The point after the first such mark.
    pub(crate) value: usize,
    /// Whether `to` or `downto` came.
    is_bounded: bool,
}

impl<'b, 't> Scan<'b, 't> {
    /// No token of a line, which comes after these.
    pub(crate) fn new(alloc: Global, known: &'b Before<'t>) -> Self {
        Scan {
            known,
            first: b"",
            before: b"",
            count: 0,
            open: Vec::new(alloc),
            division: 0,
            is_compared: false,
            is_assigned: false,
            value: 0,
            is_bounded: false,
        }
    }

    /// The next token.
    pub(crate) fn take(&mut self, token: &'t [u8]) -> Result<(), AllocError> {
        if is_among("( [", token) {
            self.open(token)?;
        } else {
            self.pass(token);
        }
        if self.count == 0 || self.begins_assignment(token) {
            self.first = token;
        }
        self.before = token;
        self.count = self.count.saturating_add(1);
        Ok(())
    }

    // What a token changes that opens no bracket.
    fn pass(&mut self, token: &[u8]) {
        if is_among(") ]", token) {
            self.close();
        } else if is_word(token, ",") {
            self.pass_comma();
        } else if is_among("and or", token) {
            self.is_compared = false;
        } else if is_among("/ %", token) {
            self.division = self.count;
        } else if is_among(":= to downto", token) {
            self.assign(token);
        } else if is_comparison(token) {
            self.compare();
        }
    }

    // Whether this token makes the line an assignment: before it `elsif` and `assert` are names.
    fn begins_assignment(&self, token: &[u8]) -> bool {
        self.count == 1 && is_name(self.first) && is_among(":= [", token)
    }

    fn open(&mut self, token: &[u8]) -> Result<(), AllocError> {
        let bracket = if is_word(token, "[") {
            self.index_bracket()
        } else if is_word(self.before, "lg") {
            Bracket::Log
        } else if is_among("min max", self.before) {
            Bracket::Pair
        } else {
            Bracket::Plain
        };
        self.open.push(Open {
            bracket,
            division: self.division,
            is_compared: self.is_compared,
        })?;
        self.is_compared = false;
        Ok(())
    }

    // The bracket that opens after the name of an array.
    fn index_bracket(&self) -> Bracket {
        if self.count == 2 && is_word(self.first, "shared") {
            return Bracket::Length;
        }
        match self.known.known(self.before) {
            Some(known) if known.sort == Sort::Table => Bracket::Row,
            _ => Bracket::Index,
        }
    }

    fn close(&mut self) {
        if let Some(open) = self.open.pop() {
            self.division = open.division;
            self.is_compared = open.is_compared;
        }
    }

    fn pass_comma(&mut self) {
        self.is_compared = false;
        if let Some(open) = self.open.last_mut() {
            open.pass_comma();
        }
    }

    fn assign(&mut self, token: &[u8]) {
        self.is_compared = false;
        self.is_bounded |= !is_word(token, ":=");
        self.mark();
    }

    // The first comparison outside brackets of a line that is no assignment and no condition is its
    // mark.
    fn compare(&mut self) {
        let is_marked = is_among(NAMING, self.first);
        if self.open.is_empty() && is_marked && !self.is_assigned {
            self.mark();
        } else {
            self.is_compared = true;
        }
    }

    fn mark(&mut self) {
        if !self.is_assigned {
            self.is_assigned = true;
            self.value = self.count.saturating_add(1);
        }
    }

    /// Whether what stands here is within the bracket of an `lg`.
    pub(crate) fn is_within_log(&self) -> bool {
        for open in &self.open {
            if open.bracket == Bracket::Log {
                return true;
            }
        }
        false
    }

    /// Whether this token could come next.
    pub(crate) fn takes(&self, token: &[u8]) -> bool {
        let is_second = self.is_compared && is_comparison(token);
        (self.wanted().takes(token) || self.begins_assignment(token)) && !is_second
    }

    /// What could come next.
    pub(crate) fn wanted(&self) -> Wanted {
        let part = self.known.part;
        if self.count == 0 || part == Part::Version || part == Part::Rule {
            return self.wanted_first();
        }
        if let Some(open) = self.open.last()
            && ends_operand(self.before)
        {
            return match open.bracket {
                Bracket::Pair | Bracket::Row => Wanted::Comma,
                Bracket::Index => Wanted::ClosingIndex,
                Bracket::Column => Wanted::ClosingColumn,
                Bracket::Length => Wanted::ClosingLength,
                Bracket::Plain | Bracket::Log => Wanted::Closing,
            };
        }
        if is_among("lg min max", self.before) {
            return Wanted::Opening;
        }
        match self.count {
            1 => self.wanted_second(),
            2 if self.open.is_empty() => self.wanted_third(),
            _ => self.wanted_later(),
        }
    }

    fn wanted_first(&self) -> Wanted {
        match self.known.part {
            Part::Version => Wanted::Version,
            Part::Rule => Wanted::Rule,
            Part::Header => Wanted::Declaration,
            Part::Code => Wanted::LineOfCode,
        }
    }

    fn wanted_second(&self) -> Wanted {
        if is_among(NAMING, self.first) {
            Wanted::NewName
        } else if is_among(CONDITIONAL, self.first) {
            Wanted::Operand
        } else if is_name(self.first) {
            Wanted::Assignment
        } else {
            Wanted::End
        }
    }

    fn wanted_third(&self) -> Wanted {
        if is_among("const for", self.first) {
            Wanted::Equals
        } else if is_word(self.first, "procs") {
            Wanted::Less
        } else if is_word(self.first, "private") {
            Wanted::EqualsOrEnd
        } else if is_word(self.first, "shared") {
            Wanted::Length
        } else {
            self.wanted_later()
        }
    }

    fn wanted_later(&self) -> Wanted {
        if is_word(self.before, "...") {
            return Wanted::End;
        }
        if !ends_operand(self.before) {
            return self.wanted_operand();
        }
        let is_shared = is_word(self.first, "shared");
        if is_among(CONDITIONAL, self.first) {
            Wanted::Whole
        } else if is_shared && self.is_assigned {
            Wanted::NextValue
        } else if is_shared {
            Wanted::EqualsOrEnd
        } else if is_word(self.first, "for") && !self.is_bounded {
            Wanted::Way
        } else if self.is_assigned {
            Wanted::Whole
        } else {
            Wanted::Assignment
        }
    }

    fn wanted_operand(&self) -> Wanted {
        if is_word(self.before, ",") && self.open.is_empty() {
            Wanted::Value
        } else {
            Wanted::Operand
        }
    }
}
