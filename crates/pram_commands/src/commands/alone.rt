//! The commands that start no thread: `check`, `compile`, `plain`, `cost`, `steps`, `trace` and
//! `replay`, and the record of a sweep.
ghost use Rattle.std.specs.Prelude.{◌≡◌, ◌↔◌, ⊤, true, false, IfErr, IfOk, IsErrOf, IsTrue};
ghost use Rattle.pram_streams.specs.Transfer.{GivesSome};
ghost use Rattle.pram_commands.specs.Did.{Did, Showing, tells, tells_none};
ghost use Rattle.naming.specs.Writing.{writing};
ghost use Rattle.naming.specs.Costed.{IsCosted};
ghost use Rattle.pram_commands.specs.Inner.Puts.{PutsAnswer};
ghost use Rattle.pram_commands.specs.Inputs.{AreReady, ExplainsJob, GivesAnswer, missing_step};
ghost use Rattle.pram_commands.specs.Inputs.{taking};
ghost use Rattle.pram_commands.specs.Plain.{TellsSummary, checking, plainly};
ghost use Rattle.pram_step.specs.Runs.{IsAnswer};
ghost use Rattle.naming.specs.Names.{AreNames};
ghost use Rattle.pram_commands.specs.Costs.{TellsCost, costing, tells_conflict};
ghost use Rattle.pram_commands.specs.LineRecords.{TellsLines, costing_by};
ghost use Rattle.pram_commands.specs.Sweeps.{TellsRecord, sweeping};
ghost use Rattle.pram_commands.specs.Steps.{TellsSteps, stepping};
ghost use Rattle.pram_commands.specs.Replayed.{TellsTrace, replaying};
ghost use Rattle.pram_commands.specs.Texts.{TellsText, compiling};
ghost use Rattle.pram_commands.specs.Traced.{TellsMadeLines, tracing};
ghost use Rattle.pram_commands.specs.Why.{Explaining};
ghost use Rattle.refusals.specs.declared.fault.CommandFault.TheVariants.{JobDevice};

use crate::commands::{print_ending, printed};
use crate::inputs::{take_costed, take_inputs, take_job, take_text};
use crate::sources::{Inputs, Sources};
use crate::sweeps::record_of;
use crate::traces::Traces;
use crate::why::{put_explained, put_told};
use command_data::{Style, Workers};
use job_text::print_text;
use naming::{Costed, Spelled, records_of, rounds_line};
use pardo_answers::Costs;
use pram_cost::{Cost, print_cost};
use pram_job::Job;
use pram_rows::{Requests, Window, print_steps};
use pram_run::replay_to;
use pram_step::{RunAnswer, plain_answer};
use pram_streams::{PrintFault, Sink, Source, print_summary, put};
use refusals::CommandFault;
use std::alloc::{AllocError, Global};

/// Reads a job, and prints its summary.
pub fn check<J: Source, P: Source, O: Sink>(
    alloc: Global,
    sources: &mut Sources<J, P>,
    out: &mut O,
) -> Result<(), CommandFault>
    requires { AreReady J.Source P.Source O.Sink sources.old out.old }
    ensures { Did checking (taking J.Source P.Source sources.old sources.new)
        (writing O.Sink out.old out.new) tells_none result }
{
    let job = take_job(alloc, &mut sources.job, &mut sources.text)?;
    printed(put_summary(alloc, &job, out))
}

#[tactic(auto, using(crate::proofs::Doing::text_put))]
pub(super) fn put_summary<O: Sink>(alloc: Global, job: &Job, out: &mut O) -> Result<(), PrintFault>
    requires { O.has_failed out.old ≡ false }
    ensures { PutsAnswer (TellsSummary job.now) ⊥ (writing O.Sink out.old out.new) tells_none
        result }
{
    print_summary(alloc, out, job)
}

/// Reads a job, and prints it as a text of version 3 of the machine, which spells that very job, by
/// the names of a program. The time is that of reading the text and of `print_text`, and for each
/// name with it the logarithm of how many arrays the program has.
pub fn compile<J: Source, P: Source, O: Sink>(
    alloc: Global,
    sources: &mut Sources<J, P>,
    out: &mut O,
) -> Result<(), CommandFault>
    requires { AreReady J.Source P.Source O.Sink sources.old out.old }
    ensures { Did compiling (taking J.Source P.Source sources.old sources.new)
        (writing O.Sink out.old out.new) tells_none result }
{
    let spelled = take_text(alloc, &mut sources.job, &mut sources.text)?;
    let told = put_job(alloc, &spelled, out);
    sources.text = Some(spelled.text);
    printed(told)
}

fn put_job<O: Sink>(alloc: Global, spelled: &Spelled, out: &mut O) -> Result<(), PrintFault>
    requires output { O.has_failed out.old ≡ false }
    requires names { AreNames spelled.now.text.items spelled.now.job spelled.now.names }
    ensures { let read = spelled.now in
        PutsAnswer (TellsText read.text.items read.job) ⊥ (writing O.Sink out.old out.new)
        tells_none result }
{
    print_text(alloc, out, &spelled.job, spelled)
}

/// Reads a job, and prints its answer in a style. The time is that of reading the text and running
/// the job; of running it twice where it tells what became of processors of which some stop.
pub fn plain<J: Source, P: Source, O: Sink>(
    alloc: Global,
    style: Style,
    sources: &mut Sources<J, P>,
    out: &mut O,
) -> Result<RunAnswer, CommandFault>
    requires { AreReady J.Source P.Source O.Sink sources.old out.old }
    ensures { Did (plainly style) (taking J.Source P.Source sources.old sources.new)
        (writing O.Sink out.old out.new) tells result }
{
    let spelled = take_text(alloc, &mut sources.job, &mut sources.text)?;
    printed(put_plain(alloc, style, &spelled, out))
}

pub(super) fn put_plain<O: Sink>(
    alloc: Global,
    style: Style,
    spelled: &Spelled,
    out: &mut O,
) -> Result<RunAnswer, PrintFault>
    requires output { O.has_failed out.old ≡ false }
    requires names { AreNames spelled.now.text.items spelled.now.job spelled.now.names }
    ensures { let read = spelled.now in
        PutsAnswer (Explaining style (IsAnswer read.job) read.text.items read.job) ⊥
        (writing O.Sink out.old out.new) tells result }
{
    if style.why && spelled.names.is_none() {
        return put_explained(alloc, out, style, spelled);
    }
    let answer = answer_of(alloc, spelled)?;
    put_told(alloc, out, style, spelled, &answer)?;
    Ok(answer)
}

/// Reads a job, and gives its answer. The time is that of reading the text and running the job.
pub fn take_answer<J: Source>(alloc: Global, source: &mut J) -> Result<RunAnswer, CommandFault>
    requires { J.has_failed source.old ≡ false }
    ensures ok { IfOk result (GivesAnswer (J.remaining source.old) (J.remaining source.new)) }
    ensures explains { IfErr result (ExplainsJob (J.remaining source.old)
        (J.remaining source.new)) }
    ensures failed { IsTrue (J.has_failed source.new) ↔ IsErrOf result JobDevice }
    ensures reads { GivesSome (J.remaining source.old) (J.remaining source.new) }
{
    let mut kept = None;
    let spelled = take_text(alloc, source, &mut kept)?;
    Ok(answer_of(alloc, &spelled)?)
}

// The answer of the job. That of a program's is known already.
fn answer_of(alloc: Global, spelled: &Spelled) -> Result<RunAnswer, AllocError>
    requires { AreNames spelled.now.text.items spelled.now.job spelled.now.names }
    ensures { IfOk result (IsAnswer spelled.now.job) }
{
    match &spelled.names {
        None => plain_answer(alloc, &spelled.job),
        Some(naming) => naming.answer(alloc),
    }
}

/// Reads a job, and prints what its run costs and which model of the PRAM it needs, and of a
/// program its rounds. The time is that of reading the text and of `cost_of`; a program is run once
/// for both.
pub fn cost<J: Source, P: Source, O: Sink>(
    alloc: Global,
    sources: &mut Sources<J, P>,
    out: &mut O,
) -> Result<Cost, CommandFault>
    requires { AreReady J.Source P.Source O.Sink sources.old out.old }
    ensures { Did costing (taking J.Source P.Source sources.old sources.new)
        (writing O.Sink out.old out.new) tells_conflict result }
{
    let (spelled, costs) = take_costed(alloc, &mut sources.job, &mut sources.text)?;
    printed(put_cost(alloc, &spelled, &costs, out))
}

pub(super) fn put_cost<O: Sink>(
    alloc: Global,
    spelled: &Spelled,
    costs: &Costs,
    out: &mut O,
) -> Result<Cost, PrintFault>
    requires output { O.has_failed out.old ≡ false }
    requires costs { IsCosted spelled.now costs.now }
    ensures { PutsAnswer (TellsCost spelled.now.text.items spelled.now.job) ⊥
        (writing O.Sink out.old out.new) tells_conflict result }
{
    let pram = costs.cost.needs();
    let names = Costed {
        spelled,
        lines: costs.lines.as_slice(),
    };
    let rounds = rounds_line(alloc, &spelled.names, costs.rounds)?;
    print_cost(alloc, out, &costs.cost, pram, &names)?;
    put(out, rounds.as_slice())?;
    Ok(costs.cost)
}

/// Reads a job, and prints what its run costs in each counted line of its program, as records. It
/// takes the time of `cost`.
pub fn cost_by_lines<J: Source, P: Source, O: Sink>(
    alloc: Global,
    sources: &mut Sources<J, P>,
    out: &mut O,
) -> Result<Cost, CommandFault>
    requires { AreReady J.Source P.Source O.Sink sources.old out.old }
    ensures { Did (costing_by true) (taking J.Source P.Source sources.old sources.new)
        (writing O.Sink out.old out.new) tells_conflict result }
{
    let (spelled, costs) = take_costed(alloc, &mut sources.job, &mut sources.text)?;
    printed(put_records(alloc, &spelled, &costs, out))
}

pub(super) fn put_records<O: Sink>(
    alloc: Global,
    spelled: &Spelled,
    costs: &Costs,
    out: &mut O,
) -> Result<Cost, PrintFault>
    requires output { O.has_failed out.old ≡ false }
    requires costs { IsCosted spelled.now costs.now }
    ensures { PutsAnswer (TellsLines spelled.now.text.items spelled.now.job) ⊥
        (writing O.Sink out.old out.new) tells_conflict result }
{
    let records = records_of(alloc, spelled.text.as_slice(), costs.lines.as_slice())?;
    put(out, records.as_slice())?;
    Ok(costs.cost)
}

/// Reads a job, and prints what its run costs in one record, without a first field. It takes the
/// time of `cost`.
pub fn sweep<J: Source, P: Source, O: Sink>(
    alloc: Global,
    sources: &mut Sources<J, P>,
    out: &mut O,
) -> Result<Cost, CommandFault>
    requires { AreReady J.Source P.Source O.Sink sources.old out.old }
    ensures { Did sweeping (taking J.Source P.Source sources.old sources.new)
        (writing O.Sink out.old out.new) tells_conflict result }
{
    let (spelled, costs) = take_costed(alloc, &mut sources.job, &mut sources.text)?;
    printed(put_record(alloc, &spelled, &costs, out))
}

fn put_record<O: Sink>(
    alloc: Global,
    spelled: &Spelled,
    costs: &Costs,
    out: &mut O,
) -> Result<Cost, PrintFault>
    requires output { O.has_failed out.old ≡ false }
    requires costs { IsCosted spelled.now costs.now }
    ensures { PutsAnswer (TellsRecord spelled.now.text.items spelled.now.job) ⊥
        (writing O.Sink out.old out.new) tells_conflict result }
{
    let pram = costs.cost.needs();
    let record = record_of(alloc, &spelled.names, costs, pram)?;
    put(out, record.as_slice())?;
    Ok(costs.cost)
}

/// Reads a job, and prints the steps of the window as they are made, of a program with the lines of
/// its text and by its names, and then the answer unless they are to stand alone. A window that
/// begins after the job's last step is refused, but for one that begins with step 1. Where memory
/// runs out, a beginning of it may stand printed. It costs what `print_steps` does.
pub fn steps<J: Source, P: Source, O: Sink>(
    alloc: Global,
    window: Window,
    alone: bool,
    sources: &mut Sources<J, P>,
    out: &mut O,
) -> Result<RunAnswer, CommandFault>
    requires { AreReady J.Source P.Source O.Sink sources.old out.old }
    ensures { Did (stepping alone window) (taking J.Source P.Source sources.old sources.new)
        (writing O.Sink out.old out.new) tells result }
{
    let spelled = take_text(alloc, &mut sources.job, &mut sources.text)?;
    if let Some(step) = missing_step(&spelled.job, window.from) {
        return Err(CommandFault::OutsideStep { step });
    }
    printed(put_steps(alloc, &spelled, window, alone, out))
}

// The writer of rows is on the stack, so this keeps a frame of its own.
#[inline(never)]
fn put_steps<O: Sink>(
    alloc: Global,
    spelled: &Spelled,
    window: Window,
    alone: bool,
    out: &mut O,
) -> Result<RunAnswer, PrintFault>
    requires output { O.has_failed out.old ≡ false }
    requires names { AreNames spelled.now.text.items spelled.now.job spelled.now.names }
    ensures { let read = spelled.now in
        PutsAnswer (Showing alone (TellsSteps read.text.items read.job window) read.text.items
        read.job) ⊤
        (writing O.Sink out.old out.new) tells result }
{
    let requests = Requests { names: spelled };
    let answer = print_steps(alloc, out, &spelled.job, window, &requests)?;
    print_ending(alloc, out, spelled, &answer, alone)?;
    Ok(answer)
}

// The step, if the job does not have it.
fn missing_step(job: &Job, step: u32) -> Option<u32>
    ensures { result ≡ missing_step job.now step }
{
    (step > 1 && step > job.steps()).then_some(step)
}

/// Reads a job, and prints the lines of its program as they are made, and then the answer unless
/// they are to stand alone. Where memory runs out, a beginning of it may stand printed. It costs
/// what `print_steps` does.
pub fn trace<J: Source, P: Source, O: Sink>(
    alloc: Global,
    alone: bool,
    sources: &mut Sources<J, P>,
    out: &mut O,
) -> Result<RunAnswer, CommandFault>
    requires { AreReady J.Source P.Source O.Sink sources.old out.old }
    ensures { Did (tracing alone) (taking J.Source P.Source sources.old sources.new)
        (writing O.Sink out.old out.new) tells result }
{
    let spelled = take_text(alloc, &mut sources.job, &mut sources.text)?;
    printed(put_trace(alloc, &spelled, alone, out))
}

#[inline(never)]
fn put_trace<O: Sink>(
    alloc: Global,
    spelled: &Spelled,
    alone: bool,
    out: &mut O,
) -> Result<RunAnswer, PrintFault>
    requires output { O.has_failed out.old ≡ false }
    requires names { AreNames spelled.now.text.items spelled.now.job spelled.now.names }
    ensures { let read = spelled.now in
        PutsAnswer (Showing alone (TellsMadeLines read.text.items read.job) read.text.items
        read.job) ⊤
        (writing O.Sink out.old out.new) tells result }
{
    let traces = Traces { spelled };
    let answer = print_steps(alloc, out, &spelled.job, Window::ALL, &traces)?;
    print_ending(alloc, out, spelled, &answer, alone)?;
    Ok(answer)
}

/// Reads a job, then its plan, and prints the trace of their replay, as its steps are made, and its
/// answer unless the trace is to stand alone. Where memory runs out, a beginning of it may stand
/// printed.
pub fn replay<J: Source, P: Source, O: Sink>(
    alloc: Global,
    workers: Workers,
    alone: bool,
    sources: &mut Sources<J, P>,
    out: &mut O,
) -> Result<RunAnswer, CommandFault>
    requires { AreReady J.Source P.Source O.Sink sources.old out.old }
    ensures { Did (replaying alone workers.count) (taking J.Source P.Source sources.old sources.new)
        (writing O.Sink out.old out.new) tells result }
{
    let inputs = take_inputs(alloc, workers, sources)?;
    printed(put_replay(alloc, &inputs, alone, out))
}

// Prints the trace of a replay, then its answer, unless the trace is to stand alone. It keeps a
// frame of its own, as `put_steps` does.
#[inline(never)]
fn put_replay<O: Sink>(
    alloc: Global,
    inputs: &Inputs,
    alone: bool,
    out: &mut O,
) -> Result<RunAnswer, PrintFault>
    requires output { O.has_failed out.old ≡ false }
    requires names { let read = inputs.now.spelled in
        AreNames read.text.items read.job read.names }
    ensures { let read = inputs.now.spelled in
        PutsAnswer (Showing alone (TellsTrace read.job inputs.now.plan) read.text.items read.job) ⊤
        (writing O.Sink out.old out.new) tells result }
{
    let (spelled, plan) = (&inputs.spelled, &inputs.plan);
    let answer = replay_to(alloc, out, &spelled.job, plan.workers(), plan)?;
    print_ending(alloc, out, spelled, &answer, alone)?;
    Ok(answer)
}
