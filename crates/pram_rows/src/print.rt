//! The steps of a job, printed.
ghost use Rattle.std.specs.Prelude.{◌≡◌, ◌++◌, ◌↔◌, false};
ghost use Rattle.std.specs.Prelude.{IfOk, OnErr, OnOk, IsErrOf, IsTrue};
ghost use Rattle.std.specs.Io.KnownBytes.{Appends};
ghost use Rattle.pram_step.specs.Arrivals.{IsArrival};
ghost use Rattle.pram_step.specs.Runs.{IsAnswer, IsStateAfter};
ghost use Rattle.pram_streams.specs.Transfer.{AppendsBeginning};
ghost use Rattle.pram_rows.specs.Inner.Printing.{TakesBut};
ghost use Rattle.pram_rows.specs.Inner.Spans.{OfAnswers};
ghost use Rattle.pram_rows.specs.Shown.{BeginsSteps, TakesSteps};
ghost use Rattle.pram_rows.specs.StepRows.{step_rows};

use crate::rows::Rows;
use crate::window::{Span, Window};
use pram_job::Job;
use pram_step::{Arrival, Moment, RunAnswer, State, go_to, laws, make_step, plain_answer};
use pram_streams::{PrintFault, Sink, put};
use std::alloc::{AllocError, Global};

/// Once so many bytes of rows stand in memory, they are put into the sink.
const PIECE: usize = 32_768;

/// Prints the rows of each step of the window, in order, and gives the job's answer. The step of a
/// conflict is the last one that is printed. Rows go out while steps are made, so where memory runs
/// out, a beginning of them stands printed, as where the sink fails.
///
/// It takes memory for one state and for the rows of one step and `PIECE` bytes more, wherever the
/// window is. Where the job has steps after the window, the answer is found once its rows are
/// printed, as `plain_answer` finds it: so the steps up to the window's end are made twice.
pub fn print_steps<W: Sink, R: Rows>(
    alloc: Global,
    sink: &mut W,
    job: &Job,
    window: Window,
    rows: &R,
) -> Result<RunAnswer, PrintFault>
    requires { W.has_failed sink.old ≡ false }
    ensures ok { IfOk result (TakesSteps (R.rows rows.now) job.now window
        (W.taken sink.old) (W.taken sink.new)) }
    ensures beginning { OnErr result (BeginsSteps (R.rows rows.now) job.now window
        (W.taken sink.old) (W.taken sink.new)) }
    ensures failed { IsTrue (W.has_failed sink.new) ↔ IsErrOf result PrintFault.Device }
{
    laws::has_answer();
    let end = window.to.min(job.steps());
    let first = window.from.saturating_sub(1).min(end);
    let span = Span { job, first, end };
    put(sink, rows.header().as_bytes())?;
    let arrival = print_span(alloc, sink, &span, rows)?;
    let answer = answer_after(alloc, &span, arrival)?;
    Ok(answer)
}

// Prints the rows of the span, up to the step of a conflict, and says what is there after it.
fn print_span<W: Sink, R: Rows>(
    alloc: Global,
    sink: &mut W,
    span: &Span<'_>,
    rows: &R,
) -> Result<Arrival, PrintFault>
    requires { W.has_failed sink.old ≡ false }
    ensures arrival { IfOk result (IsArrival span.now.job.now span.now.end span.now.end) }
    ensures rows { OnOk result
        (OfAnswers (R.rows rows.now) span.now (Appends (W.taken sink.old) (W.taken sink.new))) }
    ensures beginning { OnErr result
        (OfAnswers (R.rows rows.now) span.now (AppendsBeginning (W.taken sink.old) (W.taken sink.new))) }
    ensures failed { IsTrue (W.has_failed sink.new) ↔ IsErrOf result PrintFault.Device }
{
    match go_to(alloc, span.job, span.first, span.first)? {
        Arrival::Reached(state) => print_from(alloc, sink, span, rows, state),
        Arrival::Disputed(fault) => Ok(Arrival::Disputed(fault)),
        Arrival::TooFar => unreachable!(),
    }
}

// Prints the rows of the span, from the state before it, up to the step of a conflict, and says
// what is there after it.
fn print_from<W: Sink, R: Rows>(
    alloc: Global,
    sink: &mut W,
    span: &Span<'_>,
    rows: &R,
    state: State,
) -> Result<Arrival, PrintFault>
    requires sink { W.has_failed sink.old ≡ false }
    requires after { IsStateAfter span.now.job.now span.now.first state }
    ensures arrival { IfOk result (IsArrival span.now.job.now span.now.end span.now.end) }
    ensures rows { OnOk result
        (OfAnswers (R.rows rows.now) span.now (Appends (W.taken sink.old) (W.taken sink.new))) }
    ensures beginning { OnErr result
        (OfAnswers (R.rows rows.now) span.now (AppendsBeginning (W.taken sink.old) (W.taken sink.new))) }
    ensures failed { IsTrue (W.has_failed sink.new) ↔ IsErrOf result PrintFault.Device }
{
    let (arrival, left) = show_span(alloc, sink, span, rows, state)?;
    put(sink, left.as_slice())?;
    Ok(arrival)
}

// Shows the rows of the span, from the state before it, up to the step of a conflict, and says what
// is there after it. What is not put into the sink is given back.
fn show_span<W: Sink, R: Rows>(
    alloc: Global,
    sink: &mut W,
    span: &Span<'_>,
    rows: &R,
    mut state: State,
) -> Result<(Arrival, Vec<u8>), PrintFault>
    requires sink { W.has_failed sink.old ≡ false }
    requires after { IsStateAfter span.now.job.now span.now.first state }
    ensures arrival { IfOk result (λ r. IsArrival span.now.job.now span.now.end span.now.end r.0) }
    ensures rows { IfOk result
        (λ r. OfAnswers (R.rows rows.now) span.now (TakesBut (W.taken sink.old) (W.taken sink.new) r.1.items)) }
    ensures beginning { OnErr result
        (OfAnswers (R.rows rows.now) span.now (AppendsBeginning (W.taken sink.old) (W.taken sink.new))) }
    ensures failed { IsTrue (W.has_failed sink.new) ↔ IsErrOf result PrintFault.Device }
{
    let mut left = Vec::new(alloc);
    for made in span.first..span.end {
        let moment = Moment {
            job: span.job,
            state: &state,
            made,
        };
        left = show_step(alloc, sink, &moment, rows, left)?;
        if let Some(fault) = make_step(alloc, span.job, &mut state, made)? {
            return Ok((Arrival::Disputed(fault), left));
        }
    }
    Ok((Arrival::Reached(state), left))
}

// The rows of the step that comes next go after these bytes. What is not put into the sink is given
// back.
fn show_step<W: Sink, R: Rows>(
    alloc: Global,
    sink: &mut W,
    moment: &Moment<'_>,
    rows: &R,
    bytes: Vec<u8>,
) -> Result<Vec<u8>, PrintFault>
    requires { W.has_failed sink.old ≡ false }
    ensures ok { IfOk result (λ left. TakesBut (W.taken sink.old) (W.taken sink.new) left.items
        (bytes.items ++ step_rows (R.rows rows.now) moment.now.job.now moment.now.made)) }
    ensures beginning { AppendsBeginning (W.taken sink.old) (W.taken sink.new)
        (bytes.items ++ step_rows (R.rows rows.now) moment.now.job.now moment.now.made) }
    ensures failed { IsTrue (W.has_failed sink.new) ↔ IsErrOf result PrintFault.Device }
{
    let bytes = rows.push_step(alloc, moment, bytes)?;
    pass_on(sink, bytes)
}

// Puts the rows into the sink where they are many, and gives back those that are still to be put.
fn pass_on<W: Sink>(sink: &mut W, mut rows: Vec<u8>) -> Result<Vec<u8>, PrintFault>
    requires { W.has_failed sink.old ≡ false }
    ensures ok { IfOk result (λ left. TakesBut (W.taken sink.old) (W.taken sink.new)
        left.items rows.items) }
    ensures beginning { AppendsBeginning (W.taken sink.old) (W.taken sink.new) rows.items }
    ensures failed { IsTrue (W.has_failed sink.new) ↔ IsErrOf result PrintFault.Device }
{
    if rows.len() >= PIECE {
        put(sink, rows.as_slice())?;
        rows.clear();
    }
    Ok(rows)
}

// The answer of the job, by what is there after the span.
fn answer_after(alloc: Global, span: &Span<'_>, arrival: Arrival) -> Result<RunAnswer, AllocError>
    requires { IsArrival span.now.job.now span.now.end span.now.end arrival }
    ensures { IfOk result (IsAnswer span.now.job.now) }
{
    match arrival {
        Arrival::Reached(state) => answer_from(alloc, span.job, state, span.end),
        Arrival::Disputed(fault) => Ok(RunAnswer::Conflict(fault)),
        Arrival::TooFar => unreachable!(),
    }
}

// The job's answer, by the state after so many steps. Where there are more, the job is run from its
// start.
fn answer_from(alloc: Global, job: &Job, state: State, made: u32) -> Result<RunAnswer, AllocError>
    requires { IsStateAfter job.now made state }
    ensures { IfOk result (IsAnswer job.now) }
{
    if made == job.steps() {
        return Ok(RunAnswer::Final(state.into_cells(job)));
    }
    drop(state);
    plain_answer(alloc, job)
}
