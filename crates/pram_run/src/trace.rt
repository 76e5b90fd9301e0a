//! Traces: the atomic steps of a run, in order.
ghost use Rattle.std.specs.Prelude.{◌≡◌, [], ◌++◌, OnOk};
ghost use Rattle.pram_run.specs.Traces.{row_of_step as row_as, rows_of_effect};

use pram_world::Effect;
use std::alloc::{AllocError, Global};
use std::marker::Model;
use walkx::Op;

/// The kind of an atomic step.
#[derive(Clone, Copy, Debug, PartialEq, Eq)]
pub enum StepKind {
    Load,
    Store,
    Max,
    Swap,
}

impl StepKind {
    ghost use Rattle.pram_run.specs.Printed.{kind_word};

    /// Its word in a printed trace.
    pub(crate) fn word(self) -> &'static str
        ensures { result.now ≡ kind_word self }
    {
        match self {
            StepKind::Load => "load",
            StepKind::Store => "store",
            StepKind::Max => "max",
            StepKind::Swap => "swap",
        }
    }
}

/// One atomic step: its worker, its kind, the number of its word, and the whole word before it and
/// after it.
#[derive(Clone, Copy, Debug, PartialEq, Eq)]
pub struct TraceRow {
    pub before: u64,
    pub after: u64,
    pub word: u32,
    pub worker: u32,
    pub kind: StepKind,
}

/// The most steps of a row of a plan that are made at once. A round has no more, since there are at
/// most so many workers.
pub(crate) const PART: u32 = 64;

/// The atomic steps of a run, the first one first.
#[derive(Debug, Drop)]
pub struct Trace {
    rows: Vec<TraceRow>,
}

impl Model for Trace {
    ghost use Rattle.std.specs.Prelude.{List};
    ghost use Rattle.pram_run.specs.declared.trace.TraceRow.{TraceRow};

    ghost Value = { List TraceRow };

    ghost view = { λ t. t.rows.items };
}

impl Trace {
    pub(crate) fn new(alloc: Global) -> Trace
        ensures { result ≡ [] }
    {
        Trace {
            rows: Vec::new(alloc),
        }
    }

    /// The atomic steps.
    pub fn rows(&self) -> &[TraceRow]
        ensures { result.now ≡ self.now }
    {
        self.rows.as_slice()
    }

    // Lets the rows go, and keeps their memory.
    pub(crate) fn clear(&mut self)
        ensures { self.new ≡ [] }
    {
        self.rows.clear();
    }

    // Notes the atomic step that this worker made, if it made one.
    pub(crate) fn note(&mut self, worker: u32, effect: Effect) -> Result<(), AllocError>
        ensures { OnOk result (self.new ≡ self.old ++ rows_of_effect worker effect) }
    {
        if let Some(row) = row_of(worker, effect) {
            self.rows.push(row)?;
        }
        Ok(())
    }
}

fn row_of(worker: u32, effect: Effect) -> Option<TraceRow>
    ensures { result ≡ row_as worker effect.op effect.before effect.after }
{
    let (kind, word) = match effect.op? {
        Op::Load(word) => (StepKind::Load, word),
        Op::Store(word, _) => (StepKind::Store, word),
        Op::Max(word, _) => (StepKind::Max, word),
        Op::Swap(word, _, _) => (StepKind::Swap, word),
        Op::Over(_) => return None,
    };
    Some(TraceRow {
        before: effect.before,
        after: effect.after,
        word,
        worker,
        kind,
    })
}
