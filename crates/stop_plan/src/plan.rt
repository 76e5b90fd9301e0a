//! Plans, their rows, and why a text is no plan.
ghost use Rattle.std.specs.Prelude.{◌≡◌, []};
ghost use Rattle.stop_plan.specs.Plan.{PlanData};

use std::alloc::Global;
use std::marker::Model;

/// What a row asks of its worker.
#[derive(Clone, Copy, Debug, PartialEq, Eq)]
pub enum Act {
    /// Make up to so many atomic steps.
    Go,
    /// Pass the gate so many times without an atomic step, or until the job is over.
    Sleep,
    /// Lose the private state, and come back from the position word.
    Back,
    /// Be lost for good.
    Stop,
}

/// One row of a plan. The ticks are 0 at `Back` and `Stop`.
#[derive(Clone, Copy, Debug, PartialEq, Eq)]
pub struct Row {
    pub worker: u32,
    pub act: Act,
    pub ticks: u32,
}

/// What is wrong with a record.
#[derive(Clone, Copy, Debug, PartialEq, Eq)]
pub enum PlanKind {
    /// The header is another, or a record below it has not three fields.
    BadRow,
    /// The first field is no number, or names no worker.
    BadWorker,
    /// The second field is none of `go`, `sleep`, `back` and `stop`.
    BadAct,
    /// The third field is no number, is above 4,294,967,295, or is not 0 at `back` or `stop`.
    BadNumber,
    /// An earlier record stopped the worker.
    AfterStop,
    /// Out of memory; the row is 0.
    Memory,
}

/// The first bad record of a text, counted from 1, and what is wrong with it. Of rows without a
/// text it is the record that the row would be below a header, so rows are counted from 2.
#[derive(Clone, Copy, Debug, PartialEq, Eq)]
pub struct PlanFault {
    pub row: u64,
    pub kind: PlanKind,
}

/// What is answered out of memory.
pub(crate) const NO_MEMORY: PlanFault = PlanFault {
    row: 0,
    kind: PlanKind::Memory,
};

/// What the workers of a run do before they go on without a limit.
#[derive(Drop)]
pub struct Plan {
    workers: u32,
    rows: Vec<Row>,
}

impl Model for Plan {
    ghost Value = { PlanData };

    ghost view = { λ p. record { workers = p.workers; rows = p.rows.items } };
}

impl Plan {
    /// How many workers the plan is for.
    pub fn workers(&self) -> u32
        ensures { result ≡ self.now.workers }
    {
        self.workers
    }

    /// The plan with no row, which takes no memory.
    pub fn empty(alloc: Global, workers: u32) -> Plan
        ensures { result ≡ record { workers = workers; rows = [] } }
    {
        Plan::with_rows(workers, Vec::new(alloc))
    }

    pub(crate) fn with_rows(workers: u32, rows: Vec<Row>) -> Plan
        ensures { result ≡ record { workers = workers; rows = rows.items } }
    {
        Plan { workers, rows }
    }

    /// The rows, in their order.
    pub fn rows(&self) -> &[Row]
        ensures { result.now ≡ self.now.rows }
    {
        self.rows.as_slice()
    }
}
