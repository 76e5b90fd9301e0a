//! Plans from text.
ghost use Rattle.std.specs.Prelude.{◌≡◌, ◌⊎◌, IfOk, IfErr, OnOk, true};
ghost use Rattle.csv.specs.Reading.{error_kind, stops_reader};
ghost use Rattle.csv.specs.Records.{fields_of};
ghost use Rattle.stop_plan.specs.Inner.Reading.{IsPlanReader, ReadsOn, LeavesFewer};
ghost use Rattle.stop_plan.specs.Inner.Reading.{RefusesRecord, TakesRecord};
ghost use Rattle.stop_plan.specs.Records.{FirstFault, SpellsPlan, no_memory, records_of};

use crate::draft::Draft;
use crate::judge::is_header;
use crate::plan::{NO_MEMORY, Plan, PlanFault, PlanKind};
use csv::{ByteRecord, Error, Reader, ReaderBuilder};
use std::alloc::Global;
use std::io::Read;

// Of the errors that stop a reader the text in memory gives none, so what is left is memory.
fn refused(_error: Error) -> PlanFault
    requires { stops_reader (error_kind _error) ≡ true }
    ensures { result ≡ no_memory }
{
    NO_MEMORY
}

// Whether there is one more record.
fn next_record<R: Read>(reader: &mut Reader<R>, fields: &mut ByteRecord) -> Result<bool, PlanFault>
    requires { IsPlanReader reader.old }
    ensures reads { IfOk result (λ found.
        ReadsOn R.remaining reader.old reader.new found (fields_of fields.new)) }
    ensures stays { OnOk result (IsPlanReader reader.new) }
    ensures shrinks { IfOk result (λ found.
        found ≡ true → LeavesFewer R.remaining reader.old reader.new) }
    ensures refused { IfErr result (λ fault. fault ≡ no_memory) }
{
    reader.read_byte_record(fields).map_err(refused)
}

// The draft after one more record, which is the record of this number.
fn take_record(
    draft: Draft,
    workers: u32,
    row: u64,
    fields: &ByteRecord,
) -> Result<Draft, PlanFault>
    ensures taken { IfOk result (TakesRecord workers row draft (fields_of fields.now)) }
    ensures fault { IfErr result (λ fault. (fault ≡ no_memory)
        ⊎ RefusesRecord workers row draft (fields_of fields.now) fault) }
{
    if row == 1 {
        return if is_header(fields) {
            Ok(draft)
        } else {
            Err(PlanFault {
                row,
                kind: PlanKind::BadRow,
            })
        };
    }
    match draft.judge(workers, fields) {
        Ok(next) => draft.with_row(next).map_err(|_| NO_MEMORY),
        Err(kind) => Err(PlanFault { row, kind }),
    }
}

/// The plan that a text spells for a number of workers: the rows of its records, as `csv` reads
/// them with records of any length. A byte order mark is dropped, and a text without a record is
/// the plan without rows. Takes time in the length of the text.
pub fn read_plan(alloc: Global, text: &[u8], workers: u32) -> Result<Plan, PlanFault>
    ensures plan { IfOk result (SpellsPlan workers (records_of text.now)) }
    ensures fault { IfErr result (λ fault. (fault ≡ no_memory)
        ⊎ FirstFault workers (records_of text.now) fault.row fault.kind) }
{
    let mut reader = ReaderBuilder::new()
        .has_headers(false)
        .flexible(true)
        .from_reader(alloc, text);
    let mut record = ByteRecord::new(alloc);
    let mut draft = Draft::new(alloc);
    let mut row = 0;
    while next_record(&mut reader, &mut record)? {
        row += 1;
        draft = take_record(draft, workers, row, &record)?;
    }
    Ok(draft.into_plan(workers))
}
