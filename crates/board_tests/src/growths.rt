//! Growths of memory that are refused, as by `tools/growths --tests`: the call tells it, and made
//! again it succeeds.
use crate::gates::SWAP;
use crate::jobs::answer_text;
use crate::{board, world};
use pram_board::Board;
use pram_job::Job;
use pram_run::{replay, run, watch};
use pram_text::read_job;
use std::alloc::{AllocError, Global};
use std::sync::Wait;
use std::test::Fail;
use std::thread::Threads;
use stop_plan::{Open, Plan};

// Processors 1 and 3 write 1 and 3 to cell 4 in step 5.
const DISPUTED: &str = "pram 1\ncells 5\nprocs 4\nsteps 5\ninit 1 1\ninit 3 1\ncode\n\
    pid r0\nld r1 r0\njz r1 end\nset r2 4\nst r2 r0\nend: halt\n";

// Calls, the texts of their jobs, and what they say.
const CALLS: [(&str, &str, &str); 6] = [
    ("replay", SWAP, "[9, 7]"),
    ("run", SWAP, "[9, 7]"),
    ("watch", SWAP, "[9, 7]"),
    ("third", SWAP, "[9, 7]"),
    ("third", DISPUTED, "conflict 5 4 1 3"),
    ("twin", DISPUTED, "Some(Conflict(5)) conflict 5 4 1 3"),
];

fn replayed(alloc: Global, job: &Job) -> Result<String, AllocError> {
    let plan = Plan::empty(alloc, 2);
    let (answer, _) = replay(alloc, job, 2, &plan)?;
    answer_text(alloc, &answer)
}

fn ran(rt: &(impl AllocGlobal + Threads + Wait), job: &Job) -> Result<String, AllocError> {
    let alloc = rt.alloc();
    let plan = Plan::empty(alloc, 2);
    let (board, seat) = Board::open(alloc, job, 2)?;
    let (_seat, answer) = run(rt, alloc, job, &board, seat, &plan, &Open);
    answer_text(alloc, &answer?)
}

fn watched(rt: &(impl AllocGlobal + Threads + Wait), job: &Job) -> Result<String, AllocError> {
    let alloc = rt.alloc();
    let plan = Plan::empty(alloc, 2);
    let (board, seat) = Board::open(alloc, job, 2)?;
    let (_seat, watched) = watch(rt, alloc, job, &board, seat, &plan, &[], 3, &Open);
    let (answer, _) = watched?;
    answer_text(alloc, &answer)
}

// What a call says of a job: of a twin in a world, after 30 turns.
fn told(
    rt: &(impl AllocGlobal + Threads + Wait),
    call: &str,
    job: &Job,
) -> Result<String, AllocError> {
    match call {
        "replay" => replayed(rt.alloc(), job),
        "run" => ran(rt, job),
        "watch" => watched(rt, job),
        "third" => board::third_answer(rt.alloc(), job),
        _ => match world::twin(rt.alloc(), job, 30)? {
            Some(told) => Ok(told),
            None => Ok(String::new(rt.alloc())),
        },
    }
}

// What a call says of the job of a text. Where memory is refused, it is made again.
fn told_again(
    rt: &(impl AllocGlobal + Threads + Wait),
    call: &str,
    text: &str,
    refused: &mut u32,
) -> Result<String, Fail> {
    let job = match read_job(rt.alloc(), text.as_bytes()) {
        Ok(job) => job,
        Err(_) => read_job(rt.alloc(), text.as_bytes())?,
    };
    match told(rt, call, &job) {
        Ok(told) => Ok(told),
        Err(_) => {
            *refused = 1;
            Ok(told(rt, call, &job)?)
        }
    }
}

// It prints whether a growth was refused.
#[test]
fn refused_growths_are_told(rt: HostRuntime) -> Result<(), Fail> {
    let mut refused = 0u32;
    for (call, text, wanted) in &CALLS {
        let found = told_again(&rt, call, text, &mut refused)?;
        assert!(rt; found.as_str() == *wanted, "{call}: {found}");
    }
    println!(rt; "refused={refused}")?;
    Ok(())
}
