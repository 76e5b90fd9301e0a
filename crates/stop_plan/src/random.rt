//! The rows of the plan that a seed gives.
ghost use Rattle.std.specs.Prelude.{◌≡◌, ◌<◌, ◌≤◌, ◌++◌, ◌∷◌, [], OnOk, IfOk, if◌then◌else◌};
ghost use Rattle.stop_plan.specs.Plan.{stops};
ghost use Rattle.stop_plan.specs.Random.{picked_act, next_number, random_rows, row_after, plan_row};
ghost use Rattle.stop_plan.specs.Random.{spared};

use crate::random_numbers::Numbers;
use crate::{Act, Row};
use std::alloc::{AllocError, Global};

/// The rows of the plan that a seed gives for so many workers: at most eight for each on average,
/// with all acts. One worker is never stopped: that of the number that the seed leaves over, where
/// it is divided by how many there are.
pub fn random_rows(alloc: Global, workers: u32, seed: u32) -> Result<Vec<Row>, AllocError>
    requires some { 1 ≤ workers }
    requires most { workers ≤ 64 }
    ensures { IfOk result (λ rows. rows.items ≡ random_rows workers seed) }
{
    let survivor = seed % workers;
    let mut numbers = Numbers { number: seed };
    let mut rows = Vec::new(alloc);
    let mut left = 8 * workers;
    while left > 0 {
        push_living(&mut rows, next_row(&mut numbers, workers, survivor))?;
        left -= 1;
    }
    Ok(rows)
}

// The row of the next three numbers.
fn next_row(numbers: &mut Numbers, workers: u32, survivor: u32) -> Row
    requires { 0 < workers }
    ensures row { result ≡ row_after workers survivor numbers.old.number }
    ensures next { numbers.new.number ≡ next_number (next_number (next_number numbers.old.number)) }
{
    let worker = numbers.pick(workers);
    let act = spared(worker == survivor, act_of(numbers.pick(8)));
    let ticks = 1 + numbers.pick(1000);
    row_with(worker, act, ticks)
}

// One more row, unless its worker is stopped by then.
fn push_living(rows: &mut Vec<Row>, row: Row) -> Result<(), AllocError>
    ensures { OnOk result (rows.new.items
        ≡ (if stops rows.old.items row.worker then rows.old.items else rows.old.items
        ++ row ∷ [])) }
{
    if stops(rows.as_slice(), row.worker) {
        return Ok(());
    }
    rows.push(row)?;
    Ok(())
}

// Whether some row stops the worker.
fn stops(rows: &[Row], worker: u32) -> bool
    ensures { result ≡ stops rows.now worker }
{
    rows.iter()
        .any(|row| row.act == Act::Stop && row.worker == worker)
}

fn act_of(picked: u32) -> Act
    ensures { result ≡ picked_act picked }
{
    match picked {
        0 => Act::Sleep,
        1 => Act::Back,
        2 => Act::Stop,
        _ => Act::Go,
    }
}

fn spared(survives: bool, act: Act) -> Act
    ensures { result ≡ spared survives act }
{
    if survives && act == Act::Stop {
        Act::Back
    } else {
        act
    }
}

fn row_with(worker: u32, act: Act, ticks: u32) -> Row
    ensures { result ≡ plan_row worker act ticks }
{
    let ticks = match act {
        Act::Go | Act::Sleep => ticks,
        Act::Back | Act::Stop => 0,
    };
    Row { worker, act, ticks }
}
