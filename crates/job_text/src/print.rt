//! The text of a job, put into a sink.
ghost use Rattle.std.specs.Prelude.{◌≡◌, ◌++◌, ◌↔◌, false, string_bytes};
ghost use Rattle.std.specs.Prelude.{IfOk, OnOk, IsErrOf, IsTrue};
ghost use Rattle.std.specs.Io.KnownBytes.{Appends};
ghost use Rattle.pram_streams.specs.Transfer.{AppendsBeginning};
ghost use Rattle.job_text.specs.Printed.{header_lines, lines_text, rule_word, text_of};

use crate::array_names::ArrayNames;
use crate::arrays::{arrays_of, push_arrays};
use crate::code::{aims_of, push_code};
use crate::runs::push_runs;
use pram_job::{Job, Rule};
use pram_streams::{PrintFault, Sink, put};
use std::alloc::{AllocError, Global};

/// Prints a job as a text of version 3, its arrays by these names, or a beginning of it where the
/// sink fails. Nothing is printed before memory for all of it was found.
///
/// The time is that of the text's length, and for arrays with it the logarithm of how many the
/// code names.
pub fn print_text<W: Sink, N: ArrayNames>(
    alloc: Global,
    sink: &mut W,
    job: &Job,
    names: &N,
) -> Result<(), PrintFault>
    requires { W.has_failed sink.old ≡ false }
    ensures ok { OnOk result
        (Appends (W.taken sink.old) (W.taken sink.new) (text_of (N.words names.now) job.now)) }
    ensures beginning { AppendsBeginning (W.taken sink.old) (W.taken sink.new)
        (text_of (N.words names.now) job.now) }
    ensures memory { IsErrOf result PrintFault.Memory → sink.new ≡ sink.old }
    ensures failed { IsTrue (W.has_failed sink.new) ↔ IsErrOf result PrintFault.Device }
{
    let text = spell(alloc, job, names)?;
    put(sink, text.as_bytes())?;
    Ok(())
}

/// A job as a text of version 3, its arrays by these names.
pub fn spell<N: ArrayNames>(alloc: Global, job: &Job, names: &N) -> Result<String, AllocError>
    ensures { IfOk result (λ text. string_bytes text ≡ text_of (N.words names.now) job.now) }
{
    let mut text = String::new(alloc);
    let arrays = arrays_of(alloc, job.code())?;
    let aims = aims_of(alloc, job.code())?;
    push_header(&mut text, job)?;
    push_arrays(&mut text, names, arrays.as_slice())?;
    push_runs(&mut text, job.init())?;
    text.push_str("code\n")?;
    push_code(&mut text, names, job.code(), aims.as_slice())?;
    Ok(text)
}

fn push_header(text: &mut String, job: &Job) -> Result<(), AllocError>
    ensures { OnOk result (string_bytes text.new
        ≡ string_bytes text.old ++ lines_text (header_lines job.now)) }
{
    let (cells, procs, steps) = (job.cells(), job.procs(), job.steps());
    let rule = rule_name(job.rule());
    writeln!(
        text,
        "pram 3\ncells {cells}\nprocs {procs}\nsteps {steps}\nrule {rule}"
    )
}

fn rule_name(rule: Rule) -> &'static str
    ensures { result.now ≡ rule_word rule }
{
    match rule {
        Rule::Common => "common",
        Rule::Priority => "priority",
        Rule::Crew => "crew",
    }
}
