//! What a run costs, in one record.
ghost use Rattle.std.specs.Prelude.{◌≡◌, ◌++◌, ℕ, IfErr, IfOk, OnOk, is_some};
ghost use Rattle.std.specs.List.{list_any, range_with_len};
ghost use Rattle.pardo_job.specs.Ends.{gone_in};
ghost use Rattle.naming.specs.BadTexts.{IsBadOrMemory};
ghost use Rattle.pram_commands.specs.Sweeps.{IsRunRecord, end_word, fields_text, told_gone};

use crate::commands::cost_status;
use naming::{Naming, read_costed};
use pardo_answers::{Costs, total_operations, total_time};
use pram_cost::Pram;
use pram_streams::push_labelled;
use refusals::CommandFault;
use std::alloc::{AllocError, Global};

/// What the run of a text costs, as a record without a first field, and the status of its answer.
#[derive(Drop)]
pub struct RunRecord {
    pub bytes: Vec<u8>,
    pub status: u8,
}

/// The record of a text: what its run costs. A program is run once for it.
pub fn run_record(alloc: Global, text: &[u8]) -> Result<RunRecord, CommandFault>
    ensures ok { IfOk result (IsRunRecord text.now) }
    ensures bad { IfErr result (IsBadOrMemory text.now) }
{
    let (_, names, costs) = read_costed(alloc, text)?;
    let pram = costs.cost.needs();
    let bytes = record_of(alloc, &names, &costs, pram)?;
    Ok(RunRecord {
        bytes,
        status: cost_status(&costs.cost),
    })
}

/// The record of what a run costs, of which the model that it needs is known.
pub(crate) fn record_of(
    alloc: Global,
    names: &Option<Naming>,
    costs: &Costs,
    pram: Pram,
) -> Result<Vec<u8>, AllocError>
    ensures { IfOk result (λ bytes. bytes.items ≡ fields_text costs.now.lines.items costs.now.cost
        pram (end_word costs.now.cost.procs (told_gone names.now) costs.now.cost.conflict)) }
{
    let lines = costs.lines.as_slice();
    let mut bytes = Vec::new(alloc);
    push_labelled(&mut bytes, b"", u64::from(costs.cost.steps))?;
    push_labelled(&mut bytes, b",", total_time(lines))?;
    push_labelled(&mut bytes, b",", total_operations(lines))?;
    push_labelled(&mut bytes, b",", u64::from(costs.cost.procs))?;
    bytes.push(b',')?;
    bytes.extend_from_slice(pram.name().as_bytes())?;
    bytes.push(b',')?;
    bytes.extend_from_slice(end_word(names, costs).as_bytes())?;
    bytes.push(b'\n')?;
    Ok(bytes)
}

// How a run ends.
fn end_word(names: &Option<Naming>, costs: &Costs) -> &'static str
    ensures { result.now ≡ end_word costs.now.cost.procs (told_gone names.now)
        costs.now.cost.conflict }
{
    match costs.cost.conflict {
        Some(_) => "conflict",
        None => {
            if is_any_gone(names, costs.cost.procs) {
                "gone"
            } else {
                "done"
            }
        }
    }
}

// Whether one of so many processors is gone.
fn is_any_gone(names: &Option<Naming>, procs: u32) -> bool
    ensures { result ≡ list_any (λ i. is_some (told_gone names.now i)) (range_with_len 0 procs) }
{
    (0..procs).any(|processor| told_gone(names, processor).is_some())
}

// In which line a processor is gone, where that is told.
fn told_gone(names: &Option<Naming>, processor: u32) -> Option<u64>
    ensures { result ≡ told_gone names.now processor }
{
    match names {
        None => None,
        Some(naming) => naming.gone_in(processor),
    }
}
