//! What a run answers.
ghost use Rattle.std.specs.Prelude.{◌≡◌};
ghost use Rattle.pram_step.specs.Runs.{dispute_of};

use std::marker::Model;

/// Two processors that write to one cell against the rule.
#[derive(Clone, Copy, Debug, PartialEq, Eq)]
pub struct Dispute {
    pub cell: u32,
    pub first: u32,
    pub second: u32,
}

/// The first step that is against the rule, counted from 1, the least cell that is disputed in it,
/// and its two processors.
#[derive(Clone, Copy, Debug, PartialEq, Eq)]
pub struct Fault {
    pub step: u32,
    pub cell: u32,
    pub first: u32,
    pub second: u32,
}

impl Dispute {
    /// The fault of the step that has this dispute.
    pub(crate) fn in_step(self, step: u32) -> Fault
        ensures dispute { dispute_of result ≡ self }
        ensures step { result.step ≡ step }
    {
        let Dispute {
            cell,
            first,
            second,
        } = self;
        Fault {
            step,
            cell,
            first,
            second,
        }
    }
}

/// What the cells hold, cell 0 first.
#[derive(Debug, Drop)]
pub struct Cells {
    values: Vec<u32>,
}

impl Model for Cells {
    ghost use Rattle.std.specs.Prelude.{List, ℕ};

    ghost Value = { List ℕ };

    ghost view = { λ c. c.values.items };
}

impl Cells {
    /// The cells with these values.
    pub fn new(values: Vec<u32>) -> Self
        ensures { result ≡ values.items }
    {
        Cells { values }
    }

    /// The values, cell 0 first.
    pub fn as_slice(&self) -> &[u32]
        ensures { result.now ≡ self.now }
    {
        self.values.as_slice()
    }

    /// The values, for a caller to keep.
    pub fn into_vec(self) -> Vec<u32>
        ensures { result.items ≡ self }
    {
        let Cells { values } = self;
        values
    }
}

/// How a run ended.
#[derive(Debug, Drop)]
pub enum RunAnswer {
    /// All steps were made; the cells hold this.
    Final(Cells),
    /// A step was against the rule.
    Conflict(Fault),
    /// The workers stopped after this step.
    Unfinished { step: u32 },
}
