//! What one record says, and what is wrong with it.
ghost use Rattle.std.specs.Prelude.{◌≡◌, ◌≢◌, ◌∷◌, [], length, MatchOption};
ghost use Rattle.std.specs.Str.{bytes_eq};
ghost use Rattle.csv.specs.Records.{fields_of};
ghost use Rattle.stop_plan.specs.Records.{act_of, is_header, row_of_record, ticks_end};
ghost use Rattle.stop_plan.specs.Rows.{judged_row};

use crate::number::number_below;
use crate::plan::{Act, PlanKind, Row};
use csv::ByteRecord;

// The fields of a record of three.
fn three_fields(fields: &ByteRecord) -> Option<(&[u8], &[u8], &[u8])>
    ensures { MatchOption result (length (fields_of fields.now) ≢ 3)
        (λ f. fields_of fields.now ≡ f.0.now ∷ f.1.now ∷ f.2.now ∷ []) }
{
    if fields.len() != 3 {
        return None;
    }
    Some((fields.get(0)?, fields.get(1)?, fields.get(2)?))
}

fn is_word(field: &[u8], word: &str) -> bool
    ensures { result ≡ bytes_eq field.now word.now }
{
    field == word.as_bytes()
}

/// Whether a record is the header of a plan.
#[tactic(auto, unfolding(crate::specs::Records::is_header))]
pub(crate) fn is_header(fields: &ByteRecord) -> bool
    ensures { result ≡ is_header (fields_of fields.now) }
{
    let Some((worker, act, ticks)) = three_fields(fields) else {
        return false;
    };
    is_word(worker, "worker") && is_word(act, "act") && is_word(ticks, "ticks")
}

#[tactic(auto, unfolding(crate::specs::Records::act_of))]
fn act_of(field: &[u8]) -> Option<Act>
    ensures { result ≡ act_of field.now }
{
    match field {
        _ if is_word(field, "go") => Some(Act::Go),
        _ if is_word(field, "sleep") => Some(Act::Sleep),
        _ if is_word(field, "back") => Some(Act::Back),
        _ if is_word(field, "stop") => Some(Act::Stop),
        _ => None,
    }
}

// The ticks of an act are below this.
fn ticks_end(act: Act) -> u64
    ensures { result ≡ ticks_end act }
{
    match act {
        Act::Go | Act::Sleep => 1 << 32,
        Act::Back | Act::Stop => 1,
    }
}

/// The row of a record below the header.
#[tactic(auto, using(crate::proofs::Fields::other_row), unfolding(crate::specs::Records::row_of_record))]
pub(crate) fn row_of(workers: u32, fields: &ByteRecord) -> Result<Row, PlanKind>
    ensures { result ≡ row_of_record workers (fields_of fields.now) }
{
    let Some((worker, act, ticks)) = three_fields(fields) else {
        return Err(PlanKind::BadRow);
    };
    let Some(worker) = number_below(u64::from(workers), worker) else {
        return Err(PlanKind::BadWorker);
    };
    let Some(act) = act_of(act) else {
        return Err(PlanKind::BadAct);
    };
    let Some(ticks) = number_below(ticks_end(act), ticks) else {
        return Err(PlanKind::BadNumber);
    };
    Ok(Row { worker, act, ticks })
}

/// The row, if it is a good one by itself.
pub(crate) fn judged_row(workers: u32, row: Row) -> Result<Row, PlanKind>
    ensures { result ≡ judged_row workers row }
{
    if row.worker >= workers {
        return Err(PlanKind::BadWorker);
    }
    if u64::from(row.ticks) >= ticks_end(row.act) {
        return Err(PlanKind::BadNumber);
    }
    Ok(row)
}
