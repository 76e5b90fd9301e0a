//! The rows of a plan while they are judged.
ghost use Rattle.std.specs.Prelude.{◌≡◌, ◌++◌, ◌∷◌, [], false, Ok, IfOk, Some, MatchResult};
ghost use Rattle.csv.specs.Records.{fields_of};
ghost use Rattle.stop_plan.specs.Plan.{stops};
ghost use Rattle.stop_plan.specs.Records.{fault_below, row_of_record};
ghost use Rattle.stop_plan.specs.Rows.{judged_row};

use crate::judge::{judged_row, row_of};
use crate::plan::{Act, Plan, PlanKind, Row};
use csv::ByteRecord;
use std::alloc::{AllocError, Global};
use std::collections::BTreeSet;
use std::marker::Model;

/// The rows so far, and the workers that they stop.
#[derive(Drop)]
pub(crate) struct Draft {
    rows: Vec<Row>,
    stopped: BTreeSet<u32>,
}

impl Model for Draft {
    ghost use Rattle.std.specs.Prelude.{ℕ, List, ◌≡◌};
    ghost use Rattle.std.specs.Ordering.{nat_cmp};
    ghost use Rattle.std.specs.BTreeSet as set;
    ghost use Rattle.stop_plan.specs.declared.plan.Row.{Row};
    ghost use Rattle.stop_plan.specs.Plan.{stops};

    ghost Value = { List Row };

    ghost view = { λ d. d.rows.items };

    ghost invariant = { λ d. (worker : ℕ)
        → set.contains nat_cmp d.stopped worker ≡ stops d.rows.items worker };
}

impl Draft {
    pub(crate) fn new(alloc: Global) -> Draft
        ensures { result ≡ [] }
    {
        Draft {
            rows: Vec::new(alloc),
            stopped: BTreeSet::new(alloc),
        }
    }

    /// The row of a record below the header, after those so far.
    pub(crate) fn judge(&self, workers: u32, fields: &ByteRecord) -> Result<Row, PlanKind>
        ensures { MatchResult result
            (λ row. (row_of_record workers (fields_of fields.now) ≡ Ok row)
            × (stops self.now row.worker ≡ false))
            (λ kind. fault_below (row_of_record workers (fields_of fields.now)) self.now
            ≡ Some kind) }
    {
        self.after_stop(row_of(workers, fields)?)
    }

    /// A row after those so far.
    pub(crate) fn judge_row(&self, workers: u32, row: Row) -> Result<Row, PlanKind>
        ensures { MatchResult result
            (λ next. (judged_row workers row ≡ Ok next) × (stops self.now next.worker ≡ false))
            (λ kind. fault_below (judged_row workers row) self.now ≡ Some kind) }
    {
        self.after_stop(judged_row(workers, row)?)
    }

    // The row, unless one of those so far stops its worker.
    fn after_stop(&self, row: Row) -> Result<Row, PlanKind>
        ensures { MatchResult result
            (λ next. (next ≡ row) × (stops self.now row.worker ≡ false))
            (λ kind. fault_below (Ok row) self.now ≡ Some kind) }
    {
        if self.stopped.contains(&row.worker) {
            return Err(PlanKind::AfterStop);
        }
        Ok(row)
    }

    /// The draft with one more row.
    pub(crate) fn with_row(mut self, row: Row) -> Result<Draft, AllocError>
        ensures { IfOk result (λ draft. draft ≡ self ++ row ∷ []) }
    {
        self.rows.push(row)?;
        if row.act == Act::Stop {
            self.stopped.insert(row.worker)?;
        }
        Ok(self)
    }

    /// The plan of the rows so far.
    pub(crate) fn into_plan(self, workers: u32) -> Plan
        ensures { result ≡ record { workers = workers; rows = self } }
    {
        Plan::with_rows(workers, self.rows)
    }
}
