//! The answer of a run, and the summary of a job, as text.
ghost use Rattle.std.specs.Prelude.{◌≡◌, ◌++◌, ◌↔◌, false, string_bytes};
ghost use Rattle.std.specs.Prelude.{IfOk, OnOk, IsErrOf, IsTrue};
ghost use Rattle.std.specs.Io.KnownBytes.{Appends};
ghost use Rattle.pram_streams.specs.declared.print.PrintFault.TheVariants.{Device, Memory};
ghost use Rattle.pram_streams.specs.Printed.{cell_lines, conflict_line, printed, rule_mark};
ghost use Rattle.pram_streams.specs.Printed.{summary};
ghost use Rattle.pram_streams.specs.Transfer.{AppendsBeginning};

use crate::device::{Failed, Sink};
use crate::transfer::put;
use pram_job::{Job, Rule};
use pram_step::{Fault, RunAnswer};
use std::alloc::{AllocError, Global};
use thiserror::Error;

/// Why an answer was not printed whole.
#[derive(Debug, PartialEq, Eq, Drop, Error)]
pub enum PrintFault {
    #[error("Device")]
    Device,
    #[error("Memory")]
    Memory,
}

impl From<AllocError> for PrintFault {
    ghost from_gives = { λ _ made. made ≡ Memory };

    fn from(_error: AllocError) -> PrintFault {
        PrintFault::Memory
    }
}

impl From<Failed> for PrintFault {
    ghost from_gives = { λ _ made. made ≡ Device };

    fn from(_failed: Failed) -> PrintFault {
        PrintFault::Device
    }
}

/// Prints the answer of a job of so many steps, or a beginning of it where the sink fails. Nothing
/// is printed before memory for all of it was found.
pub fn print_answer<W: Sink>(
    alloc: Global,
    sink: &mut W,
    answer: &RunAnswer,
    steps: u32,
) -> Result<(), PrintFault>
    requires { W.has_failed sink.old ≡ false }
    ensures ok { OnOk result (Appends (W.taken sink.old) (W.taken sink.new)
        (printed answer.now steps)) }
    ensures beginning { AppendsBeginning (W.taken sink.old) (W.taken sink.new)
        (printed answer.now steps) }
    ensures memory { IsErrOf result PrintFault.Memory → sink.new ≡ sink.old }
    ensures failed { IsTrue (W.has_failed sink.new) ↔ IsErrOf result PrintFault.Device }
{
    let text = answer_text(alloc, answer, steps)?;
    put(sink, text.as_bytes())?;
    Ok(())
}

/// Prints the summary of a job, or a beginning of it where the sink fails. Nothing is printed
/// before memory for all of it was found.
pub fn print_summary<W: Sink>(alloc: Global, sink: &mut W, job: &Job) -> Result<(), PrintFault>
    requires { W.has_failed sink.old ≡ false }
    ensures ok { OnOk result (Appends (W.taken sink.old) (W.taken sink.new) (summary job.now)) }
    ensures beginning { AppendsBeginning (W.taken sink.old) (W.taken sink.new) (summary job.now) }
    ensures memory { IsErrOf result PrintFault.Memory → sink.new ≡ sink.old }
    ensures failed { IsTrue (W.has_failed sink.new) ↔ IsErrOf result PrintFault.Device }
{
    let text = summary_text(alloc, job)?;
    put(sink, text.as_bytes())?;
    Ok(())
}

fn answer_text(alloc: Global, answer: &RunAnswer, steps: u32) -> Result<String, AllocError>
    ensures { IfOk result (λ text. string_bytes text ≡ printed answer.now steps) }
{
    match answer {
        RunAnswer::Final(cells) => {
            let mut text = format!(in alloc; "done steps={steps}\n")?;
            push_cells(&mut text, cells.as_slice())?;
            Ok(text)
        }
        RunAnswer::Conflict(fault) => conflict_text(alloc, fault),
        RunAnswer::Unfinished { step } => format!(in alloc; "unfinished step={step}\n"),
    }
}

fn push_cells(text: &mut String, values: &[u32]) -> Result<(), AllocError>
    ensures { OnOk result (string_bytes text.new
        ≡ string_bytes text.old ++ cell_lines 0 values.now) }
{
    for (cell, value) in values.iter().enumerate() {
        writeln!(text, "{cell}: {value}")?;
    }
    Ok(())
}

fn conflict_text(alloc: Global, fault: &Fault) -> Result<String, AllocError>
    ensures { IfOk result (λ text. string_bytes text ≡ conflict_line fault.now) }
{
    let Fault {
        step,
        cell,
        first,
        second,
    } = *fault;
    format!(in alloc; "conflict step={step} cell={cell} processors={first},{second}\n")
}

fn summary_text(alloc: Global, job: &Job) -> Result<String, AllocError>
    ensures { IfOk result (λ text. string_bytes text ≡ summary job.now) }
{
    let (cells, procs, steps) = (job.cells(), job.procs(), job.steps());
    let code = job.code().len();
    let mark = rule_text(job.rule());
    format!(in alloc; "ok cells={cells} procs={procs} steps={steps} code={code}{mark}\n")
}

fn rule_text(rule: Rule) -> &'static str
    ensures { result.now ≡ rule_mark rule }
{
    match rule {
        Rule::Common => "",
        Rule::Priority => " rule=priority",
        Rule::Crew => " rule=crew",
    }
}
