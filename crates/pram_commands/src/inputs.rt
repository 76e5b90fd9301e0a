//! A job and its plan from their sources.
ghost use Rattle.std.specs.Prelude.{◌≡◌, ◌⊎◌, ◌↔◌, false, [], IfOk, IfErr, IsErrOf, IsTrue};
ghost use Rattle.pram_streams.specs.Transfer.{GivesSome};
ghost use Rattle.pram_commands.specs.Faults.{fault_of_job_source, fault_of_plan_source};
ghost use Rattle.pram_commands.specs.Inputs.{ExplainsJob, ExplainsPlan, GivesJob, GivesPlan};
ghost use Rattle.pram_commands.specs.Inputs.{GivesText, Took, taking};
ghost use Rattle.naming.specs.BadTexts.{IsBadOrMemory};
ghost use Rattle.naming.specs.Costed.{IsCosted};
ghost use Rattle.naming.specs.Names.{AreNames};
ghost use Rattle.pram_commands.specs.Inner.Unrun.{GivesUnrun, IsUnrun};
ghost use Rattle.refusals.specs.declared.fault.CommandFault.TheVariants.{JobDevice};
ghost use Rattle.stop_plan.specs.Records.{FirstFault, SpellsPlan, no_memory, records_of};

use crate::sources::{Inputs, Sources};
use command_data::Workers;
use naming::{Spelled, drafted, read_costed, read_text};
use pardo_answers::Costs;
use pardo_job::Draft;
use pram_job::Job;
use pram_streams::{Source, TakeFault, take};
use refusals::CommandFault;
use std::alloc::{AllocError, Global};
use stop_plan::{Plan, PlanFault, PlanKind, read_plan};

/// The job of the text that a source gives, and then the plan that the bytes of another spell.
/// Where the job is refused, nothing is read of the plan.
pub fn take_inputs<J: Source, P: Source>(
    alloc: Global,
    workers: Workers,
    sources: &mut Sources<J, P>,
) -> Result<Inputs, CommandFault>
    requires job { J.has_failed sources.old.job ≡ false }
    requires plan { P.has_failed sources.old.plan ≡ false }
    ensures { Took workers.count (taking J.Source P.Source sources.old sources.new) result }
{
    let spelled = take_text(alloc, &mut sources.job, &mut sources.text)?;
    let plan = take_plan(alloc, &mut sources.plan, workers)?;
    Ok(Inputs { spelled, plan })
}

/// The job of the text that a source gives, which is kept.
pub fn take_job<J: Source>(
    alloc: Global,
    source: &mut J,
    kept: &mut Option<Vec<u8>>,
) -> Result<Job, CommandFault>
    requires { J.has_failed source.old ≡ false }
    ensures ok { IfOk result (GivesJob (J.remaining source.old) (J.remaining source.new)) }
    ensures explains { IfErr result (ExplainsJob (J.remaining source.old)
        (J.remaining source.new)) }
    ensures failed { IsTrue (J.has_failed source.new) ↔ IsErrOf result JobDevice }
    ensures reads { GivesSome (J.remaining source.old) (J.remaining source.new) }
{
    let Spelled { text, job, .. } = take_text(alloc, source, kept)?;
    *kept = Some(text);
    Ok(job)
}

/// The job of the text that a source gives, the text itself, and what its answers are told by; a
/// text that is refused is kept.
pub(crate) fn take_text<J: Source>(
    alloc: Global,
    source: &mut J,
    kept: &mut Option<Vec<u8>>,
) -> Result<Spelled, CommandFault>
    requires { J.has_failed source.old ≡ false }
    ensures names { IfOk result (λ read. AreNames read.text.items read.job read.names) }
    ensures ok { IfOk result (λ read. GivesText (J.remaining source.old)
        (J.remaining source.new) read.text.items read.job) }
    ensures explains { IfErr result (ExplainsJob (J.remaining source.old)
        (J.remaining source.new)) }
    ensures failed { IsTrue (J.has_failed source.new) ↔ IsErrOf result JobDevice }
    ensures reads { GivesSome (J.remaining source.old) (J.remaining source.new) }
{
    let text = take(alloc, source).map_err(job_fault)?;
    match read_text(alloc, text.as_slice()) {
        Ok((job, names)) => Ok(Spelled { text, job, names }),
        Err(fault) => {
            *kept = Some(text);
            Err(fault)
        }
    }
}

/// A text: of a job, or of a program that was not run.
#[derive(Drop)]
pub(crate) enum Unrun {
    Whole(Spelled),
    Drafted(Vec<u8>, Draft),
}

/// The text that a source gives, and its job, of a program before that is run; a text that is
/// refused is kept.
pub(crate) fn take_unrun<J: Source>(
    alloc: Global,
    source: &mut J,
    kept: &mut Option<Vec<u8>>,
) -> Result<Unrun, CommandFault>
    requires { J.has_failed source.old ≡ false }
    ensures ok { IfOk result (GivesUnrun (J.remaining source.old) (J.remaining source.new)) }
    ensures explains { IfErr result (ExplainsJob (J.remaining source.old)
        (J.remaining source.new)) }
    ensures failed { IsTrue (J.has_failed source.new) ↔ IsErrOf result JobDevice }
    ensures reads { GivesSome (J.remaining source.old) (J.remaining source.new) }
{
    let text = take(alloc, source).map_err(job_fault)?;
    match read_unrun(alloc, text) {
        Ok(unrun) => Ok(unrun),
        Err((fault, text)) => {
            *kept = Some(text);
            Err(fault)
        }
    }
}

// What a text is, or its fault, and the text.
fn read_unrun(alloc: Global, text: Vec<u8>) -> Result<Unrun, (CommandFault, Vec<u8>)>
    ensures ok { IfOk result (IsUnrun text.items) }
    ensures bad { IfErr result (λ refused. IsBadOrMemory text.items refused.0) }
{
    match drafted(alloc, text.as_slice()) {
        Ok(Some(draft)) => Ok(Unrun::Drafted(text, draft)),
        Ok(None) => match read_text(alloc, text.as_slice()) {
            Ok((job, names)) => Ok(Unrun::Whole(Spelled { text, job, names })),
            Err(fault) => Err((fault, text)),
        },
        Err(fault) => Err((fault, text)),
    }
}

/// The job of the text that a source gives, the text itself, what its answers are told by, and what
/// the run of the job costs; a text that is refused is kept.
pub(crate) fn take_costed<J: Source>(
    alloc: Global,
    source: &mut J,
    kept: &mut Option<Vec<u8>>,
) -> Result<(Spelled, Costs), CommandFault>
    requires { J.has_failed source.old ≡ false }
    ensures costs { IfOk result (λ read. IsCosted read.0 read.1) }
    ensures ok { IfOk result (λ read. GivesText (J.remaining source.old)
        (J.remaining source.new) read.0.text.items read.0.job) }
    ensures explains { IfErr result (ExplainsJob (J.remaining source.old)
        (J.remaining source.new)) }
    ensures failed { IsTrue (J.has_failed source.new) ↔ IsErrOf result JobDevice }
    ensures reads { GivesSome (J.remaining source.old) (J.remaining source.new) }
{
    let text = take(alloc, source).map_err(job_fault)?;
    match read_costed(alloc, text.as_slice()) {
        Ok((job, names, costs)) => Ok((Spelled { text, job, names }, costs)),
        Err(fault) => {
            *kept = Some(text);
            Err(fault)
        }
    }
}

/// The plan for so many workers that the bytes of a source spell.
pub fn take_plan<P: Source>(
    alloc: Global,
    source: &mut P,
    workers: Workers,
) -> Result<Plan, CommandFault>
    requires { P.has_failed source.old ≡ false }
    ensures ok { IfOk result (GivesPlan (P.remaining source.old) (P.remaining source.new)
        workers.count) }
    ensures explains { IfErr result (ExplainsPlan (P.remaining source.old)
        (P.remaining source.new) workers.count) }
    ensures failed { IsTrue (P.has_failed source.new)
        ↔ IsErrOf result CommandFault.PlanDevice }
    ensures reads { GivesSome (P.remaining source.old) (P.remaining source.new) }
{
    let text = take(alloc, source).map_err(plan_fault)?;
    match plan_in(alloc, text.as_slice(), workers) {
        Ok(plan) => Ok(plan),
        Err(
            PlanFault {
                kind: PlanKind::Memory,
                ..
            },
        ) => Err(CommandFault::Memory),
        Err(PlanFault { row, kind }) => Err(CommandFault::Plan { row, kind }),
    }
}

// The plan for so many workers that a text spells. The reader of its records is on the stack, so
// this keeps a frame of its own.
#[inline(never)]
fn plan_in(alloc: Global, text: &[u8], workers: Workers) -> Result<Plan, PlanFault>
    ensures plan { IfOk result (SpellsPlan workers.count (records_of text.now)) }
    ensures fault { IfErr result (λ fault. (fault ≡ no_memory)
        ⊎ FirstFault workers.count (records_of text.now) fault.row fault.kind) }
{
    read_plan(alloc, text, workers.count)
}

/// The plan without rows for so many workers.
pub(crate) fn no_plan(alloc: Global, workers: Workers) -> Result<Plan, AllocError>
    ensures { IfOk result (SpellsPlan workers.count (records_of [])) }
{
    match plan_in(alloc, b"", workers) {
        Ok(plan) => Ok(plan),
        Err(_) => Err(AllocError),
    }
}

fn job_fault(fault: TakeFault) -> CommandFault
    ensures { result ≡ fault_of_job_source fault }
{
    match fault {
        TakeFault::Device => CommandFault::JobDevice,
        TakeFault::Memory => CommandFault::Memory,
        TakeFault::TooLarge => CommandFault::JobTooLarge,
    }
}

fn plan_fault(fault: TakeFault) -> CommandFault
    ensures { result ≡ fault_of_plan_source fault }
{
    match fault {
        TakeFault::Device => CommandFault::PlanDevice,
        TakeFault::Memory => CommandFault::Memory,
        TakeFault::TooLarge => CommandFault::PlanTooLarge,
    }
}
