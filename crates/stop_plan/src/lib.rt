//! Plans of a run: what each worker does, row by row, and when it stops. A plan is a text of
//! comma-separated records under the header `worker,act,ticks`.
#![tactic(auto)]

mod draft;
mod gate;
mod judge;
pub mod laws;
mod number;
mod plan;
mod random;
pub mod random_laws;
mod random_numbers;
mod read;
mod rows;
mod spelled;

pub use gate::{Gate, Open, Paced};
pub use plan::{Act, Plan, PlanFault, PlanKind, Row};
pub use random::random_rows;
pub use read::read_plan;
pub use spelled::plan_text;
