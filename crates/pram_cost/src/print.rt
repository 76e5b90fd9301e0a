//! What a run costs, as text.
ghost use Rattle.std.specs.Prelude.{◌≡◌, ◌++◌, ◌↔◌, false, string_bytes};
ghost use Rattle.std.specs.Prelude.{IfOk, OnOk, IsErrOf, IsTrue};
ghost use Rattle.std.specs.Io.KnownBytes.{Appends};
ghost use Rattle.pram_cost.specs.Printed.{cost_text, run_end_line, meeting_text, meetings_text};
ghost use Rattle.pram_cost.specs.Printed.{run_text, size_text, work_text};
ghost use Rattle.pram_streams.specs.Transfer.{AppendsBeginning};

use crate::cost::Cost;
use crate::cost_names::CostNames;
use crate::meeting::{Meeting, Meetings};
use crate::pram::Pram;
use crate::work::Work;
use pram_streams::{PrintFault, Sink, push_labelled, put};
use std::alloc::{AllocError, Global};

/// Prints what a run costs, the model that it needs, and by these names where processors met, or a
/// beginning of it where the sink fails. Nothing is printed before memory for all of it was found.
pub fn print_cost<W: Sink, C: CostNames>(
    alloc: Global,
    sink: &mut W,
    cost: &Cost,
    pram: Pram,
    names: &C,
) -> Result<(), PrintFault>
    requires { W.has_failed sink.old ≡ false }
    ensures ok { OnOk result (Appends (W.taken sink.old) (W.taken sink.new)
        (cost_text (C.words names.now) cost.now pram)) }
    ensures beginning { AppendsBeginning (W.taken sink.old) (W.taken sink.new)
        (cost_text (C.words names.now) cost.now pram) }
    ensures memory { IsErrOf result PrintFault.Memory → sink.new ≡ sink.old }
    ensures failed { IsTrue (W.has_failed sink.new) ↔ IsErrOf result PrintFault.Device }
{
    let text = cost_text(alloc, cost, pram, names)?;
    put(sink, text.as_slice())?;
    Ok(())
}

fn cost_text<C: CostNames>(
    alloc: Global,
    cost: &Cost,
    pram: Pram,
    names: &C,
) -> Result<Vec<u8>, AllocError>
    ensures { IfOk result (λ text. text.items ≡ cost_text (C.words names.now) cost.now pram) }
{
    let run = run_text(alloc, cost, pram, names)?;
    let mut text = Vec::new(alloc);
    names.push_head(&mut text)?;
    text.extend_from_slice(run.as_slice())?;
    Ok(text)
}

fn run_text<C: CostNames>(
    alloc: Global,
    cost: &Cost,
    pram: Pram,
    names: &C,
) -> Result<Vec<u8>, AllocError>
    ensures { IfOk result (λ text. text.items ≡ run_text (C.words names.now) cost.now pram) }
{
    let size = size_text(alloc, cost)?;
    let work = work_text(alloc, &cost.work)?;
    let mut text = Vec::from_slice(alloc, b"cost of this input\n")?;
    text.extend_from_slice(size.as_bytes())?;
    text.extend_from_slice(work.as_bytes())?;
    text.extend_from_slice(b"needs ")?;
    text.extend_from_slice(pram.name().as_bytes())?;
    text.push(b'\n')?;
    push_meetings(alloc, &mut text, &cost.meetings, names)?;
    push_end(&mut text, cost, names)?;
    Ok(text)
}

fn size_text(alloc: Global, cost: &Cost) -> Result<String, AllocError>
    ensures { IfOk result (λ text. string_bytes text ≡ size_text cost.now) }
{
    let (steps, procs, product) = (cost.steps, cost.procs, cost.product());
    format!(in alloc; "steps {steps}\nprocessors {procs}\nproduct {product}\n")
}

fn work_text(alloc: Global, work: &Work) -> Result<String, AllocError>
    ensures { IfOk result (λ text. string_bytes text ≡ work_text work.now) }
{
    let Work {
        executed,
        most,
        reading,
        writing,
    } = *work;
    format!(in alloc; "work {executed}\nmost {most}\nreading {reading}\nwriting {writing}\n")
}

fn push_meetings<C: CostNames>(
    alloc: Global,
    text: &mut Vec<u8>,
    meetings: &Meetings,
    names: &C,
) -> Result<(), AllocError>
    ensures { OnOk result (text.new.items
        ≡ text.old.items ++ meetings_text (C.words names.now) meetings.now) }
{
    text.extend_from_slice(b"same read ")?;
    push_meeting(alloc, text, meetings.same_read, names)?;
    text.extend_from_slice(b"\nsame write ")?;
    push_meeting(alloc, text, meetings.same_write, names)?;
    text.extend_from_slice(b"\nother value ")?;
    push_meeting(alloc, text, meetings.other_value, names)?;
    text.push(b'\n')?;
    Ok(())
}

/// Adds where two processors first meet, or that none do.
pub(crate) fn push_meeting<C: CostNames>(
    alloc: Global,
    text: &mut Vec<u8>,
    found: Option<Meeting>,
    names: &C,
) -> Result<(), AllocError>
    ensures { OnOk result (text.new.items
        ≡ text.old.items ++ meeting_text (C.words names.now) found) }
{
    let Some(meeting) = found else {
        return text.extend_from_slice(b"none");
    };
    push_labelled(text, b"step=", u64::from(meeting.step))?;
    names.push_spot(alloc, text, meeting)?;
    push_labelled(text, b" processors=", u64::from(meeting.first))?;
    push_labelled(text, b",", u64::from(meeting.second))
}

fn push_end<C: CostNames>(text: &mut Vec<u8>, cost: &Cost, names: &C) -> Result<(), AllocError>
    ensures { OnOk result (text.new.items
        ≡ text.old.items ++ run_end_line (C.words names.now) cost.now.steps cost.now.conflict) }
{
    match cost.conflict {
        Some(fault) => names.push_conflict(text, fault),
        None => {
            push_labelled(text, b"done steps=", u64::from(cost.steps))?;
            text.push(b'\n')?;
            Ok(())
        }
    }
}
