//! The commands that run a job under a model of the PRAM.
ghost use Rattle.std.specs.Prelude.{◌≡◌, Some, false};
ghost use Rattle.pram_cost.specs.Beyond.{IsBeyond};
ghost use Rattle.pram_commands.specs.Costs.{conflict_of};
ghost use Rattle.pram_commands.specs.Did.{Did, ends_with, status_of, tells_status};
ghost use Rattle.naming.specs.Writing.{writing};
ghost use Rattle.naming.specs.Costed.{IsCosted};
ghost use Rattle.pram_commands.specs.Inner.Puts.{PutsAnswer, with_status};
ghost use Rattle.pram_commands.specs.Inner.Told.{command_told};
ghost use Rattle.pram_commands.specs.Inputs.{AreReady, taking};
ghost use Rattle.pram_commands.specs.Plain.{no_plan};
ghost use Rattle.pram_commands.specs.Under.{Judged, TellsBeyond, under_model};

use crate::commands::alone::{put_cost, put_plain, put_records, put_summary};
use crate::commands::{answer_status, cost_status, printed};
use crate::inputs::take_costed;
use crate::sources::Sources;
use command_data::Style;
use naming::{Costed, Spelled};
use pardo_answers::Costs;
use pram_cost::{Beyond, Cost, Pram, print_beyond};
use pram_step::RunAnswer;
use pram_streams::{PrintFault, Sink, Source};
use refusals::{CONFLICT, CommandFault, DONE};
use std::alloc::Global;

/// What is told of a job whose run the model accepts.
#[derive(Clone, Copy)]
pub(crate) enum Told {
    /// How large it is.
    Summary,
    /// Its answer, in this style.
    Answer(Style),
    /// What its run costs, or what each counted line of its program does.
    Costs { lines: bool },
}

/// Reads a job, and where a model accepts all steps of its run tells this of it; else it prints
/// where the run goes beyond the model. The time is that of `cost`, and for the answer of a text of
/// the machine that of one run more.
pub(crate) fn under_model<J: Source, P: Source, O: Sink>(
    alloc: Global,
    pram: Pram,
    told: Told,
    sources: &mut Sources<J, P>,
    out: &mut O,
) -> Result<u8, CommandFault>
    requires { AreReady J.Source P.Source O.Sink sources.old out.old }
    ensures { Did (under_model (Some pram) (command_told told))
        (taking J.Source P.Source sources.old sources.new) (writing O.Sink out.old out.new)
        tells_status result }
{
    let read = take_costed(alloc, &mut sources.job, &mut sources.text)?;
    let put = put_under(alloc, pram, told, &read, out);
    let (spelled, _costs) = read;
    keep(told, spelled.text, &mut sources.text);
    printed(put)
}

// Keeps the text of a job that was summed up, for notes on it.
fn keep(told: Told, text: Vec<u8>, kept: &mut Option<Vec<u8>>) {
    if matches!(told, Told::Summary) {
        *kept = Some(text);
    }
}

fn put_under<O: Sink>(
    alloc: Global,
    pram: Pram,
    told: Told,
    read: &(Spelled, Costs),
    out: &mut O,
) -> Result<u8, PrintFault>
    requires output { O.has_failed out.old ≡ false }
    requires costs { IsCosted read.now.0 read.now.1 }
    ensures { let spelled = read.now.0 in
        PutsAnswer (Judged pram (command_told told) spelled.text.items spelled.job) ⊥
        (writing O.Sink out.old out.new) tells_status result }
{
    match read.1.cost.beyond(pram) {
        Some(beyond) => put_beyond(alloc, pram, beyond, read, out),
        None => put_told(alloc, told, read, out),
    }
}

// Prints where the run goes beyond the model.
fn put_beyond<O: Sink>(
    alloc: Global,
    pram: Pram,
    beyond: Beyond,
    read: &(Spelled, Costs),
    out: &mut O,
) -> Result<u8, PrintFault>
    requires output { O.has_failed out.old ≡ false }
    requires costs { IsCosted read.now.0 read.now.1 }
    requires beyond { IsBeyond pram read.now.0.job read.now.1.cost.steps beyond }
    ensures { let spelled = read.now.0 in
        PutsAnswer (TellsBeyond pram spelled.text.items spelled.job) ⊥
        (writing O.Sink out.old out.new) tells_status result }
{
    let names = Costed {
        spelled: &read.0,
        lines: read.1.lines.as_slice(),
    };
    let put = print_beyond(alloc, out, pram, beyond, &names);
    with_status(put, CONFLICT)
}

// Prints what is told of a job whose run the model accepts.
fn put_told<O: Sink>(
    alloc: Global,
    told: Told,
    read: &(Spelled, Costs),
    out: &mut O,
) -> Result<u8, PrintFault>
    requires output { O.has_failed out.old ≡ false }
    requires costs { IsCosted read.now.0 read.now.1 }
    ensures { let spelled = read.now.0 in
        PutsAnswer ((command_told told).Comes spelled.text.items spelled.job no_plan) ⊥
        (writing O.Sink out.old out.new) tells_status result }
{
    let (spelled, costs) = read;
    match told {
        Told::Summary => with_status(put_summary(alloc, &spelled.job, out), DONE),
        Told::Answer(style) => answered(put_plain(alloc, style, spelled, out)),
        Told::Costs { lines: false } => costed(put_cost(alloc, spelled, costs, out)),
        Told::Costs { lines: true } => costed(put_records(alloc, spelled, costs, out)),
    }
}

// This status, where all was printed.
fn with_status(put: Result<(), PrintFault>, status: u8) -> Result<u8, PrintFault>
    ensures { result ≡ with_status (λ _. status) put }
{
    match put {
        Ok(()) => Ok(status),
        Err(fault) => Err(fault),
    }
}

// The status of an answer that was printed.
fn answered(put: Result<RunAnswer, PrintFault>) -> Result<u8, PrintFault>
    ensures { result ≡ with_status status_of put }
{
    match put {
        Ok(answer) => Ok(answer_status(&answer)),
        Err(fault) => Err(fault),
    }
}

// The status of a run whose cost was printed.
fn costed(put: Result<Cost, PrintFault>) -> Result<u8, PrintFault>
    ensures { result ≡ with_status (λ cost. ends_with (conflict_of cost)) put }
{
    match put {
        Ok(cost) => Ok(cost_status(&cost)),
        Err(fault) => Err(fault),
    }
}
