//! Plans from rows.
ghost use Rattle.std.specs.Prelude.{◌≡◌, ◌⊎◌, ◌++◌, ◌∷◌, [], IfOk, IfErr, None, Some};
ghost use Rattle.stop_plan.specs.Records.{no_memory};
ghost use Rattle.stop_plan.specs.Rows.{FirstBadRow, IsPlanOf, fault_after};

use crate::draft::Draft;
use crate::plan::{NO_MEMORY, Plan, PlanFault, Row};
use std::alloc::Global;

impl Plan {
    /// The plan of these rows for a number of workers. They are judged as a text is that has them
    /// below its header: a row bears the same kind of fault, and the number of its record, which is
    /// 2 for the first. Takes time in the number of rows, and memory for a copy of them.
    pub fn new(alloc: Global, workers: u32, rows: &[Row]) -> Result<Plan, PlanFault>
        ensures plan { IfOk result (IsPlanOf workers rows.now) }
        ensures fault { IfErr result (λ fault. (fault ≡ no_memory)
            ⊎ FirstBadRow workers rows.now fault.row fault.kind) }
    {
        let mut draft = Draft::new(alloc);
        let mut number = 1;
        for row in rows {
            number += 1;
            draft = take_row(draft, workers, number, *row)?;
        }
        Ok(draft.into_plan(workers))
    }
}

// The draft after one more row, which would be the record of this number.
fn take_row(draft: Draft, workers: u32, number: u64, row: Row) -> Result<Draft, PlanFault>
    ensures taken { IfOk result (λ next. (fault_after workers draft row ≡ None)
        × (next ≡ draft ++ row ∷ [])) }
    ensures fault { IfErr result (λ fault. (fault ≡ no_memory)
        ⊎ ((fault.row ≡ number) × (fault_after workers draft row ≡ Some fault.kind))) }
{
    match draft.judge_row(workers, row) {
        Ok(next) => draft.with_row(next).map_err(|_| NO_MEMORY),
        Err(kind) => Err(PlanFault { row: number, kind }),
    }
}
