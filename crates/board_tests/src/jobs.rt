//! The jobs that tables name, rows of tables, and what answers are as texts.
//!
//! A line `$ CALL` names the call that is made for the rows below it. A row is `NAME -> SAID` or
//! `GIVEN : NAME -> SAID`, with the name of a job; where ` & ` stands between what is given, all of
//! them say the same. In texts and plans `~` stands for a line feed,
//! and lines that begin with `--` are comments.
ghost use Rattle.std.specs.Prelude.{◌≡◌, IfOk};

use crate::rows::said;
use pram_step::{Fault, RunAnswer};
use std::alloc::{AllocError, Global};
use std::process::Abort;
use std::sync::Wait;
use std::test::Fail;
use std::thread::Threads;
use stop_plan::{Plan, read_plan};

// One job a line. Of those with five cells processors 1 and 3 write to cell 4 in step 5: equal
// values, or their numbers.
const JOBS: &str = "\
set : pram 1~cells 1~procs 1~steps 1~code~set r0 7~
swap : pram 1~cells 2~procs 2~steps 5~init 0 7~init 1 9~code~pid r0~set r1 1~sub r1 r1 r0~\
    ld r2 r1~st r0 r2~
later : pram 1~cells 1~procs 1~steps 2~init 0 4~code~set r1 7~st r0 r1~
below zero : pram 1~cells 1~procs 1~steps 3~code~set r1 1~sub r2 r0 r1~st r0 r2~
beyond : pram 1~cells 2~procs 2~steps 5~init 0 5~init 1 9~code~pid r0~set r1 1~add r2 r0 r1~\
    ld r3 r2~st r0 r3~
sums : pram 1~cells 3~procs 3~steps 4~code~pid r0~set r1 10~add r1 r0 r1~st r0 r1~
two cells : pram 1~cells 2~procs 4~steps 4~code~pid r0~set r1 1~and r2 r0 r1~st r2 r0~
two cells, priority : pram 2~cells 2~procs 4~steps 4~rule priority~code~pid r0~set r1 1~\
    and r2 r0 r1~st r2 r0~
all write, crew : pram 2~cells 1~procs 3~steps 1~rule crew~code~st r0 r1~
number : pram 1~cells 2~procs 2~steps 1~code~pid r0~
set, priority : pram 2~cells 1~procs 1~steps 1~rule priority~code~set r0 7~
store, priority : pram 2~cells 1~procs 1~steps 1~rule priority~code~st r0 r1~
store, crew : pram 2~cells 1~procs 1~steps 1~rule crew~code~st r0 r1~
equal, common : pram 2~cells 5~procs 4~steps 5~rule common~init 1 1~init 3 1~code~pid r0~\
    ld r1 r0~jz r1 end~set r2 4~st r2 r1~end: halt~
numbers, common : pram 2~cells 5~procs 4~steps 5~rule common~init 1 1~init 3 1~code~pid r0~\
    ld r1 r0~jz r1 end~set r2 4~st r2 r0~end: halt~
numbers, priority : pram 2~cells 5~procs 4~steps 5~rule priority~init 1 1~init 3 1~code~pid r0~\
    ld r1 r0~jz r1 end~set r2 4~st r2 r0~end: halt~
equal, crew : pram 2~cells 5~procs 4~steps 5~rule crew~init 1 1~init 3 1~code~pid r0~\
    ld r1 r0~jz r1 end~set r2 4~st r2 r1~end: halt~
three : pram 1~cells 1~procs 3~steps 1~code~set r0 7~
doubled : pram 1~cells 5~procs 5~steps 4~init 0 10~init 1 11~init 2 12~init 3 13~init 4 14~code~\
    pid r0~ld r1 r0~add r1 r1 r1~st r0 r1~
long swap : pram 1~cells 2~procs 2~steps 20~init 0 7~init 1 9~code~pid r0~set r1 1~sub r1 r1 r0~\
    ld r2 r1~st r0 r2~
count : pram 1~cells 4~procs 4~steps 12~code~pid r0~set r2 1~again: ld r1 r0~add r1 r1 r2~\
    st r0 r1~jmp again~
divided : pram 3~cells 2~procs 2~steps 4~rule crew~init 0 5 6~code~pid r0~set r1 7~div r2 r1 r0~\
    st r0 r2~
no steps : pram 1~cells 1~procs 1~steps 0~init 0 5~code~halt~
";

// The text of the job with this name, with `~` for a line feed.
fn job_named(name: &str) -> Option<&'static str> {
    for line in JOBS.lines() {
        let (known, text) = line.split_once(" : ")?;
        if known == name {
            return Some(text);
        }
    }
    None
}

/// A text of a table, with its line feeds.
pub fn lines_of(alloc: Global, text: &str) -> Result<String, AllocError> {
    text.replace(alloc, "~", "\n")
}

// What is given, the text of the job, and what is said.
fn row_of(line: &str) -> Option<(&str, &'static str, &str)> {
    let (left, said) = line.split_once(" -> ")?;
    let (given, name) = left.rsplit_once(" : ").unwrap_or(("", left));
    Some((given, job_named(name)?, said))
}

fn expect_row<R: AllocGlobal + Abort + Threads + Wait>(
    rt: &R,
    call: &str,
    line: &str,
) -> Result<(), Fail> {
    let (given, text, wanted) = row_of(line).expect(rt, line);
    let text = lines_of(rt.alloc(), text)?;
    let wanted = lines_of(rt.alloc(), wanted)?;
    for given in given.split(" & ") {
        let found = said(rt, call, given, text.as_str())?;
        let is_said = found.as_str() == wanted.as_str();
        assert!(rt; is_said, "{call}, {given}: {line}: {found}");
    }
    Ok(())
}

/// The rows of a table say what they are to say.
pub fn expect<R: AllocGlobal + Abort + Threads + Wait>(rt: &R, table: &str) -> Result<(), Fail> {
    let mut call = "";
    for line in table.lines() {
        if let Some(given) = line.strip_prefix("$ ") {
            call = given;
        } else if !line.starts_with("--") {
            expect_row(rt, call, line)?;
        }
    }
    Ok(())
}

/// The step, the cell and the two processors of a conflict.
pub fn fault_text(alloc: Global, fault: &Fault) -> Result<String, AllocError> {
    let (step, cell) = (fault.step, fault.cell);
    format!(in alloc; "conflict {step} {cell} {} {}", fault.first, fault.second)
}

/// The cells, a conflict, or the step that is unfinished.
pub fn answer_text(alloc: Global, answer: &RunAnswer) -> Result<String, AllocError> {
    match answer {
        RunAnswer::Final(cells) => format!(in alloc; "{:?}", cells.as_slice()),
        RunAnswer::Conflict(fault) => fault_text(alloc, fault),
        RunAnswer::Unfinished { step } => format!(in alloc; "unfinished {step}"),
    }
}

/// The plan for so many workers that has these rows.
pub fn plan_of(rt: &(impl AllocGlobal + Abort), workers: u32, rows: &str) -> Result<Plan, Fail>
    ensures { IfOk result (λ plan. plan.workers ≡ workers) }
{
    let text = format!(in rt.alloc(); "worker,act,ticks~{rows}")?;
    let text = lines_of(rt.alloc(), text.as_str())?;
    let plan = read_plan(rt.alloc(), text.as_bytes(), workers)?;
    assert!(rt; plan.workers() == workers);
    Ok(plan)
}
