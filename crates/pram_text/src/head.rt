//! The header of a text.
ghost use Rattle.std.specs.Prelude.{◌≡◌, nat_le, if◌then◌else◌, List};
ghost use Rattle.pram_text.specs.Judgement.{is_later};
ghost use Rattle.text_lines.specs.Lines.{Line, words_of};
ghost use Rattle.pram_text.specs.Inner.Reading.{HoldsHead, TakesHead, IsFront};

use crate::fault::TextKind;
use crate::header::{cells_in, procs_in, rule_in, steps_in, version_in};
use pram_job::Rule;

/// What the next line with words has to say.
#[derive(Clone, Copy)]
pub(crate) enum Next {
    Version,
    Cells,
    Procs,
    Steps,
    Rules,
    /// An array, a start value, or the line `code`.
    Start,
    /// An instruction.
    Code,
}

/// The header lines so far.
#[derive(Clone, Copy)]
pub(crate) struct Head {
    pub(crate) next: Next,
    pub(crate) version: u32,
    pub(crate) cells: u32,
    pub(crate) procs: u32,
    pub(crate) steps: u32,
    pub(crate) rule: Rule,
}

impl Head {
    /// A header with no line.
    pub(crate) const fn new() -> Self
        ensures next { result.next ≡ Next.Version }
        ensures rule { result.rule ≡ Rule.Common }
    {
        Head {
            next: Next::Version,
            version: 0,
            cells: 0,
            procs: 0,
            steps: 0,
            rule: Rule::Common,
        }
    }

    /// The header with one line more.
    pub(crate) fn with(self, line: &[u8]) -> Result<Head, TextKind>
        requires { IsFront self.next }
        ensures { (before : List Line) → HoldsHead self.next before self
            → TakesHead before (words_of line.now) result }
    {
        Ok(match self.next {
            Next::Version => Head {
                version: version_in(line)?,
                next: Next::Cells,
                ..self
            },
            Next::Cells => Head {
                cells: cells_in(self.version, line)?,
                next: Next::Procs,
                ..self
            },
            Next::Procs => Head {
                procs: procs_in(self.version, line)?,
                next: Next::Steps,
                ..self
            },
            Next::Steps => Head {
                steps: steps_in(line)?,
                next: self.after_steps(),
                ..self
            },
            Next::Rules => Head {
                rule: rule_in(line)?,
                next: Next::Start,
                ..self
            },
            Next::Start | Next::Code => unreachable!(),
        })
    }

    // What follows the line `steps`.
    fn after_steps(self) -> Next
        ensures { result ≡ (if nat_le 2 self.version then Next.Rules else Next.Start) }
    {
        if self.version >= 2 {
            Next::Rules
        } else {
            Next::Start
        }
    }

    /// Whether the text has what version 3 brought.
    pub(crate) fn is_later(&self) -> bool
        ensures { result ≡ is_later self.now.version }
    {
        self.version >= 3
    }
}
