//! Where a run first goes beyond a model of the PRAM.
ghost use Rattle.std.specs.Prelude.{◌≡◌, ◌↔◌, ℕ, false, IfOk, IsErrOf, IsTrue, MatchOption, OnOk};
ghost use Rattle.std.specs.Io.KnownBytes.{Appends};
ghost use Rattle.pram_job.specs.Job.{JobData};
ghost use Rattle.pram_cost.specs.Beyond.{IsBeyond, beyond_line, sharing_text};
ghost use Rattle.pram_cost.specs.Costs.{AreFirst, IsCost};
ghost use Rattle.pram_cost.specs.Inner.Firsts.{sooner_of, so};
ghost use Rattle.pram_cost.specs.Models.{AcceptsSteps};
ghost use Rattle.pram_streams.specs.Transfer.{AppendsBeginning};

use crate::cost::Cost;
use crate::cost_names::CostNames;
use crate::meeting::{Meeting, Meetings, Sharing};
use crate::pram::Pram;
use crate::print::push_meeting;
use pram_streams::{PrintFault, Sink, put};
use std::alloc::{AllocError, Global};

/// How two processors meet that a model does not accept, and where.
#[derive(Clone, Copy, Debug, PartialEq, Eq)]
pub struct Beyond {
    pub sharing: Sharing,
    pub meeting: Meeting,
}

impl Cost {
    /// Where the run first goes beyond a model, if the model does not accept all of its steps.
    pub fn beyond(&self, pram: Pram) -> Option<Beyond>
        ensures { (job : JobData) → IsCost job self.now → MatchOption result
            (AcceptsSteps pram job self.now.steps) (IsBeyond pram job self.now.steps) }
    {
        first_beyond(&self.meetings, pram)
    }
}

// The first meeting that a model does not accept.
fn first_beyond(meetings: &Meetings, pram: Pram) -> Option<Beyond>
    ensures { (job : JobData) (n : ℕ) → AreFirst job n meetings.now → MatchOption result
        (AcceptsSteps pram job n) (IsBeyond pram job n) }
{
    match pram {
        Pram::Erew => sooner_of(meetings.same_read, meetings.same_write),
        Pram::Crew => so(Sharing::SameWrite, meetings.same_write),
        Pram::CommonCrcw => so(Sharing::OtherValue, meetings.other_value),
        Pram::PriorityCrcw => None,
    }
}

// The first of two meetings: where processors read a cell, or where they write one.
fn sooner_of(read: Option<Meeting>, write: Option<Meeting>) -> Option<Beyond>
    ensures { result ≡ sooner_of read write }
{
    match (read, write) {
        (Some(at), Some(other)) if other.step < at.step => so(Sharing::SameWrite, write),
        (None, _) => so(Sharing::SameWrite, write),
        _ => so(Sharing::SameRead, read),
    }
}

// A meeting of this kind.
fn so(sharing: Sharing, found: Option<Meeting>) -> Option<Beyond>
    ensures { result ≡ so sharing found }
{
    let meeting = found?;
    Some(Beyond { sharing, meeting })
}

/// Prints where a run first goes beyond a model, by these names, or a beginning of it where the sink
/// fails. Nothing is printed before memory for all of it was found.
pub fn print_beyond<W: Sink, C: CostNames>(
    alloc: Global,
    sink: &mut W,
    pram: Pram,
    beyond: Beyond,
    names: &C,
) -> Result<(), PrintFault>
    requires { W.has_failed sink.old ≡ false }
    ensures ok { OnOk result (Appends (W.taken sink.old) (W.taken sink.new)
        (beyond_line (C.words names.now) pram beyond)) }
    ensures beginning { AppendsBeginning (W.taken sink.old) (W.taken sink.new)
        (beyond_line (C.words names.now) pram beyond) }
    ensures memory { IsErrOf result PrintFault.Memory → sink.new ≡ sink.old }
    ensures failed { IsTrue (W.has_failed sink.new) ↔ IsErrOf result PrintFault.Device }
{
    let text = beyond_text(alloc, pram, beyond, names)?;
    put(sink, text.as_slice())?;
    Ok(())
}

fn beyond_text<C: CostNames>(
    alloc: Global,
    pram: Pram,
    beyond: Beyond,
    names: &C,
) -> Result<Vec<u8>, AllocError>
    ensures { IfOk result (λ text. text.items ≡ beyond_line (C.words names.now) pram beyond) }
{
    let mut text = Vec::from_slice(alloc, b"model ")?;
    text.extend_from_slice(pram.name().as_bytes())?;
    text.push(b' ')?;
    text.extend_from_slice(beyond.sharing.name().as_bytes())?;
    text.push(b' ')?;
    push_meeting(alloc, &mut text, Some(beyond.meeting), names)?;
    text.push(b'\n')?;
    Ok(text)
}

impl Sharing {
    // What it is called.
    fn name(self) -> &'static str
        ensures { result.now ≡ sharing_text self }
    {
        match self {
            Sharing::SameRead => "same read",
            Sharing::SameWrite => "same write",
            Sharing::OtherValue => "other value",
        }
    }
}
