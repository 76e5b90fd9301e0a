//! Replays: their answers and traces, and what is printed of them.
ghost use Rattle.std.specs.Prelude.{◌≤◌};

use crate::jobs::{answer_text, plan_of};
use pram_job::Job;
use pram_run::{OutFault, StepKind, Trace, TraceRow, print_trace, replay, replay_to, write_trace};
use pram_step::RunAnswer;
use pram_streams::IntoWrite;
use pram_text::read_job;
use std::alloc::{AllocError, Global};
use std::io::Write;
use std::process::Abort;
use std::test::Fail;
use std::{io, str};

/// The number of workers and the rows of a plan, of `WORKERS under PLAN`.
pub fn workers_of<'a>(rt: &impl Abort, given: &'a str) -> (u32, &'a str)
    ensures some { 1 ≤ result.0 }
    ensures most { result.0 ≤ 64 }
{
    let (workers, plan) = given.split_once(" under ").unwrap_or((given, ""));
    let workers = workers.parse().unwrap_or(0);
    assert!(rt; 1 <= workers && workers <= 64);
    (workers, plan)
}

// A replay of a text by so many workers under rows of a plan.
fn replayed(
    rt: &(impl AllocGlobal + Abort),
    workers: u32,
    plan: &str,
    text: &str,
) -> Result<(RunAnswer, Trace), Fail>
    requires some { 1 ≤ workers }
    requires most { workers ≤ 64 }
{
    let job = read_job(rt.alloc(), text.as_bytes())?;
    let plan = plan_of(rt, workers, plan)?;
    Ok(replay(rt.alloc(), &job, workers, &plan)?)
}

/// What a call says of a replay.
pub fn said(
    rt: &(impl AllocGlobal + Abort),
    call: &str,
    given: &str,
    text: &str,
) -> Result<String, Fail> {
    match call {
        "trace" => trace(rt, given, text),
        "written" => written(rt, given, text),
        "stream" => stream(rt, given, text),
        _ => answer(rt, given, text),
    }
}

// What a replay answers.
fn answer(rt: &(impl AllocGlobal + Abort), given: &str, text: &str) -> Result<String, Fail> {
    let (workers, plan) = workers_of(rt, given);
    let (answer, _) = replayed(rt, workers, plan, text)?;
    Ok(answer_text(rt.alloc(), &answer)?)
}

// A row of a trace: its worker, its kind, its word, and the values.
fn row_text(alloc: Global, row: &TraceRow) -> Result<String, AllocError> {
    let (worker, kind, word) = (row.worker, row.kind, row.word);
    format!(in alloc; "{worker} {kind:?} {word} {} {}", row.before, row.after)
}

// How many rows a trace has, one of them by its number, and the answer: of `WORKERS at NUMBER`.
fn trace(rt: &(impl AllocGlobal + Abort), given: &str, text: &str) -> Result<String, Fail> {
    let (workers, rest) = given.split_once(" at ").unwrap_or((given, ""));
    let (at, plan) = rest.split_once(" under ").unwrap_or((rest, ""));
    let (workers, _) = workers_of(rt, workers);
    let (answer, trace) = replayed(rt, workers, plan, text)?;
    let row = row_at(rt.alloc(), &trace, at.parse()?)?;
    let answer = answer_text(rt.alloc(), &answer)?;
    Ok(format!(in rt.alloc(); "{} {row} {answer}", trace.rows().len())?)
}

fn row_at(alloc: Global, trace: &Trace, at: usize) -> Result<String, AllocError> {
    match trace.rows().get(at) {
        Some(row) => row_text(alloc, row),
        None => Ok(String::new(alloc)),
    }
}

// The text of a trace.
fn trace_text(alloc: Global, trace: &Trace) -> Result<Vec<u8>, OutFault> {
    write_trace(alloc, trace, Vec::new(alloc))
}

// The text of a replay's trace.
fn written(rt: &(impl AllocGlobal + Abort), given: &str, text: &str) -> Result<String, Fail> {
    let (workers, plan) = workers_of(rt, given);
    let (_, trace) = replayed(rt, workers, plan, text)?;
    let bytes = trace_text(rt.alloc(), &trace)?;
    Ok(String::from_str(rt.alloc(), str::from_utf8(bytes.as_slice())?)?)
}

// What a replay prints while its steps are made, and what it answers.
fn streamed(
    rt: &(impl AllocGlobal + Abort),
    workers: u32,
    plan: &str,
    text: &str,
) -> Result<(Vec<u8>, RunAnswer), Fail>
    requires some { 1 ≤ workers }
    requires most { workers ≤ 64 }
{
    let job = read_job(rt.alloc(), text.as_bytes())?;
    let plan = plan_of(rt, workers, plan)?;
    let mut sink = IntoWrite::new(Vec::new(rt.alloc()));
    let answer = replay_to(rt.alloc(), &mut sink, &job, workers, &plan)?;
    Ok((sink.into_inner(), answer))
}

// Whether the trace is of several pieces, and its text is this, also where it is printed at once.
fn is_text(alloc: Global, trace: &Trace, printed: &[u8]) -> Result<bool, Fail> {
    let mut sink = IntoWrite::new(Vec::new(alloc));
    print_trace(alloc, &mut sink, trace.rows())?;
    let bytes = trace_text(alloc, trace)?;
    let is_printed = sink.into_inner().as_slice() == printed;
    Ok(is_printed && bytes.as_slice() == printed && trace.rows().len() > 2048)
}

// Whether a replay prints the text of its trace while its steps are made, and what it answers.
fn stream(rt: &(impl AllocGlobal + Abort), given: &str, text: &str) -> Result<String, Fail> {
    let (workers, plan) = workers_of(rt, given);
    let (_, trace) = replayed(rt, workers, plan, text)?;
    let (printed, answer) = streamed(rt, workers, plan, text)?;
    let is_text = is_text(rt.alloc(), &trace, printed.as_slice())?;
    let answer = answer_text(rt.alloc(), &answer)?;
    Ok(format!(in rt.alloc(); "{is_text} {answer}")?)
}

const BELOW_ZERO: &str = "pram 1\ncells 1\nprocs 1\nsteps 3\ncode\n\
    set r1 1\nsub r2 r0 r1\nst r0 r2\n";

#[test]
fn all_64_workers_start_at_the_root(rt: HostRuntime) -> Result<(), Fail> {
    let (_, trace) = replayed(&rt, 64, "", BELOW_ZERO)?;
    for (worker, first) in (0..64u32).zip(trace.rows()) {
        let wanted = TraceRow {
            before: 0,
            after: 0,
            word: 1,
            worker,
            kind: StepKind::Load,
        };
        assert!(rt; *first == wanted);
    }
    Ok(())
}

const LONG_SWAP: &str = "pram 1\ncells 2\nprocs 2\nsteps 20\ninit 0 7\ninit 1 9\ncode\n\
    pid r0\nset r1 1\nsub r1 r1 r0\nld r2 r1\nst r0 r2\n";

// Takes up to 8,192 bytes a write, and fails at the write of this number, counted from 0.
#[derive(Drop)]
struct Failing {
    left: u32,
}

impl Write for Failing {
    fn write(&mut self, buf: &[u8]) -> io::Result<usize> {
        if self.left == 0 {
            return Err(io::Error::from(io::ErrorKind::Other));
        }
        self.left -= 1;
        Ok(buf.len().min(8192))
    }

    fn flush(&mut self) -> io::Result<()> {
        Ok(())
    }
}

// Whether a trace is written to what fails at the write of this number, and is told where not.
fn is_written(rt: &(impl AllocGlobal + Abort), trace: &Trace, left: u32) -> bool {
    match write_trace(rt.alloc(), trace, Failing { left }) {
        Ok(_) => true,
        Err(fault) => {
            assert!(rt; fault == OutFault::Device);
            false
        }
    }
}

#[test]
fn each_write_that_fails_is_told(rt: HostRuntime) -> Result<(), Fail> {
    let (_, trace) = replayed(&rt, 2, "", LONG_SWAP)?;
    // the header is put by itself, and then the rows, 2,048 at a time
    assert!(rt; trace.rows().len() > 2048);
    let mut was_written = false;
    for left in 0..20 {
        let is_written = is_written(&rt, &trace, left);
        assert!(rt; is_written || !was_written);
        was_written = is_written;
    }
    assert!(rt; was_written);
    Ok(())
}
