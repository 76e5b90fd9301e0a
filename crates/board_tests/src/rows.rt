//! What calls say of a job, and the rows of their tables.
use crate::board::{self, Lay};
use crate::jobs::{answer_text, expect};
use crate::{gates, replays, worker, world};
use pram_job::Job;
use pram_step::plain_answer;
use pram_text::read_job;
use std::alloc::{AllocError, Global};
use std::process::Abort;
use std::sync::Wait;
use std::test::Fail;
use std::thread::Threads;

/// What a call says of the job of a text, and of what is given with it.
pub fn said<R: AllocGlobal + Abort + Threads + Wait>(
    rt: &R,
    call: &str,
    given: &str,
    text: &str,
) -> Result<String, Fail> {
    let (kind, part) = call.split_once(' ').unwrap_or((call, ""));
    match kind {
        "worker" => worker::said(rt, part, given, text),
        "replay" => replays::said(rt, part, given, text),
        "run" => gates::said(rt, given, text),
        "third" => board::third(rt.alloc(), text),
        "plain" => plain(rt.alloc(), text),
        _ => survived(rt.alloc(), call, text),
    }
}

// What the plain machine answers.
fn plain(alloc: Global, text: &str) -> Result<String, Fail> {
    let job = read_job(alloc, text.as_bytes())?;
    let answer = plain_answer(alloc, &job)?;
    Ok(answer_text(alloc, &answer)?)
}

// What a call says where a worker is lost after so many steps, or nothing where it was over before.
fn lost_after(
    alloc: Global,
    call: &str,
    job: &Job,
    steps: u32,
) -> Result<Option<String>, AllocError> {
    match call {
        "world lost" => world::lost(alloc, job, steps),
        "world twin" => world::twin(alloc, job, steps),
        "board lost" => board::lost(alloc, job, Lay::Compact, steps),
        "board twin" => board::twin(alloc, job, Lay::Compact, steps),
        "blocks lost" => board::lost(alloc, job, Lay::Blocks, steps),
        _ => board::twin(alloc, job, Lay::Blocks, steps),
    }
}

// What a call says alike for each number of steps after which a worker may be lost, or what it says
// for the first one that differs.
fn alike(alloc: Global, call: &str, job: &Job) -> Result<String, AllocError> {
    let mut said = String::new(alloc);
    for steps in 0..2000 {
        match lost_after(alloc, call, job, steps)? {
            None => return Ok(said),
            Some(found) => {
                if steps != 0 && found.as_str() != said.as_str() {
                    return format!(in alloc; "{found} after {steps}");
                }
                said = found;
            }
        }
    }
    String::from_str(alloc, "not over")
}

fn survived(alloc: Global, call: &str, text: &str) -> Result<String, Fail> {
    let job = read_job(alloc, text.as_bytes())?;
    Ok(alike(alloc, call, &job)?)
}

const STEPS: &str = "\
-- scripts of one worker: `N!` tells N steps, `N` makes them, `over` tells how many are left
$ worker compact
33! over : set \
    -> Load(1) 0, Load(0) 0, Load(1) 0, Load(16) 0, Load(17) 0, Max(2, 4294967298) 0, \
    Max(3, 4294967303) 0, Max(4, 4294967297) 0, Max(1, 1) 0, Load(1) 1, Load(1) 1, Load(1) 1, \
    Load(2) 4294967298, Load(3) 4294967303, Load(4) 4294967297, Load(8) 0, Load(9) 0, \
    Swap(8, 0, 4294967303) 0, Load(16) 0, Load(17) 0, Swap(16, 0, 4294967297) 0, Max(1, 2) 1, \
    Load(1) 2, Load(1) 2, Load(1) 2, Load(2) 4294967298, Load(3) 4294967303, Load(8) 4294967303, \
    Load(9) 0, Max(1, 3) 2, Load(1) 3, Load(1) 3, Load(0) 0, 0 Over(Done)
over : number -> 101 Over(Done)
-- a worker comes back where it stood
14 1! back 1! over : number -> Store(10, 3) 1, Load(10) 3, 88 Over(Done)
-- without a cell priority takes 30 steps; a cell is claimed and written in 36
over : set, priority -> 30 Over(Done)
17 1! over : store, priority -> Max(18, 4294967297) 0, 18 Over(Done)
28 1! over : store, priority -> Swap(6, 0, 4294967296) 0, 7 Over(Done)
19 1! over : store, crew -> Max(18, 4294967297) 0, 16 Over(Done)
-- three processors of a block each change a register, in a step in which none of them settles: the \
    first pass asks nothing, since it is known what they hold before the first step; the second one \
    loads the places of each, and finds no store, or is left out where that is known
$ worker blocks
4! 50 over : three -> Load(56) 0, Load(0) 0, Load(56) 0, Max(56, 1) 0, 0 Over(Done)
4 13! 20 4! over : three \
    -> Load(56) 1, Load(56) 1, Load(56) 1, Load(16) 0, Load(17) 0, Load(24) 0, Load(25) 0, \
    Load(32) 0, Load(33) 0, Load(40) 0, Load(41) 0, Load(48) 0, Load(49) 0, Max(56, 3) 1, \
    Load(56) 3, Load(56) 3, Load(0) 0, 0 Over(Done)
-- one that comes back begins its block again
19 at back 1! 2 1! : three -> Part(3, 1), Load(8) 1, Load(16) 0, 
$ worker remembering
3 1! 3! over : three -> Max(56, 3) 0, Load(56) 3, Load(56) 3, Load(0) 0, 0 Over(Done)
";

// A worker that is lost after any number of its steps changes no answer, nor does a twin beside it.
const WORLDS: &str = "\
$ world lost
swap -> None, Some(Done) [9, 7], Some(Done)
numbers, common -> None, Some(Conflict(5)) conflict 5 4 1 3, Some(Conflict(5))
numbers, priority -> None, Some(Done) [0, 1, 0, 1, 1], Some(Done)
equal, crew -> None, Some(Conflict(5)) conflict 5 4 1 3, Some(Conflict(5))
$ world twin
swap -> Some(Done) [9, 7]
numbers, common -> Some(Conflict(5)) conflict 5 4 1 3
numbers, priority -> Some(Done) [0, 1, 0, 1, 1]
equal, crew -> Some(Conflict(5)) conflict 5 4 1 3
";

const BOARDS: &str = "\
$ board lost
swap -> [9, 7], [9, 7]
numbers, common -> conflict 5 4 1 3, conflict 5 4 1 3
numbers, priority -> [0, 1, 0, 1, 1], [0, 1, 0, 1, 1]
equal, crew -> conflict 5 4 1 3, conflict 5 4 1 3
-- who divides by 0 writes nothing
divided -> [5, 7], [5, 7]
$ board twin
swap -> [9, 7]
numbers, common -> conflict 5 4 1 3
numbers, priority -> [0, 1, 0, 1, 1]
equal, crew -> conflict 5 4 1 3
-- a worker that comes back begins its block again
$ blocks lost
doubled -> [20, 22, 24, 26, 28], [20, 22, 24, 26, 28]
numbers, common -> conflict 5 4 1 3, conflict 5 4 1 3
$ blocks twin
doubled -> [20, 22, 24, 26, 28]
-- two workers take turns and are given up, and a third one ends what they began
$ third
doubled -> [20, 22, 24, 26, 28]
$ plain
doubled -> [20, 22, 24, 26, 28]
";

const RUNS: &str = "\
-- by so many workers, under a plan
$ run
1 : set -> [0]
1 under 0,go,8~0,stop,0~ : set -> unfinished 0
-- one worker finishes step 1 with its thirtieth tick: what it leaves is told, and nothing less
1 under 0,stop,0~ : below zero -> unfinished 0
1 under 0,go,28~0,stop,0~ : below zero -> unfinished 0
1 under 0,go,30~0,stop,0~ : below zero -> unfinished 1
2 under 0,go,50~0,sleep,9~1,back,0~ : swap -> [9, 7]
3 under 1,go,40~1,stop,0~2,stop,0~ : two cells -> conflict 4 0 0 2
64 : below zero -> [4294967295]
2 under 1,go,9~1,back,0~ : beyond -> [9, 9]
5 : sums -> [10, 11, 12]
1 under 0,go,30~0,stop,0~ : later -> unfinished 1
2 : equal, common -> [0, 1, 0, 1, 1]
4 : numbers, common -> conflict 5 4 1 3
4 : numbers, priority -> [0, 1, 0, 1, 1]
2 : equal, crew -> conflict 5 4 1 3
";

const REPLAYS: &str = "\
$ replay answer
1 & 2 & 4 & 7 : swap -> [9, 7]
1 under 0,go,50~0,sleep,9~ : swap -> [9, 7]
2 under 0,go,50~0,sleep,9~ : swap -> [9, 7]
4 under 0,go,50~0,sleep,9~ : swap -> [9, 7]
7 under 0,go,50~0,sleep,9~ : swap -> [9, 7]
1 & 2 & 4 & 7 : below zero -> [4294967295]
1 & 2 & 4 & 7 : beyond -> [9, 9]
1 & 2 & 4 & 7 : sums -> [10, 11, 12]
1 & 2 & 4 & 7 : equal, common -> [0, 1, 0, 1, 1]
1 & 2 & 4 & 7 : numbers, common -> conflict 5 4 1 3
1 & 2 & 4 & 7 : numbers, priority -> [0, 1, 0, 1, 1]
1 & 2 & 4 & 7 : two cells, priority -> [0, 1]
1 & 2 & 4 & 7 : equal, crew -> conflict 5 4 1 3
1 & 2 & 4 & 7 : all write, crew -> conflict 1 0 0 1
-- Whatever some workers do, the least of the disputed cells is named; and where all are stopped, \
    the job is unfinished. In the row of priority worker 3 alone goes at first, and begins at the \
    leaf of the last processor.
1 : two cells -> conflict 4 0 0 2
1 under 0,go,500~0,back,0~ : two cells -> conflict 4 0 0 2
2 under 1,go,700~1,stop,0~ : two cells -> conflict 4 0 0 2
2 under 0,stop,0~ : two cells -> conflict 4 0 0 2
4 under 3,go,1000~3,stop,0~2,go,20~2,back,0~2,go,20~2,stop,0~ : two cells -> conflict 4 0 0 2
4 under 1,go,1013~0,go,300~0,stop,0~ : two cells -> conflict 4 0 0 2
4 under 0,stop,0~1,stop,0~2,stop,0~ : two cells -> conflict 4 0 0 2
4 under 3,go,6008~ : numbers, priority -> [0, 1, 0, 1, 1]
1 under 0,go,8~0,stop,0~ : set -> unfinished 0
1 under 0,go,30~0,stop,0~ : later -> unfinished 1
-- how many rows a trace has, one of them with its worker, and the answer: a late swap changes \
    nothing; a worker comes back where its position says; a cell is claimed, and written
$ replay trace
1 at 17 : set -> 33 0 Swap 8 0 4294967303 [0]
2 at 40 under 0,go,17~1,go,23~0,go,1~ : set -> 47 0 Swap 9 4294967303 4294967303 [0]
2 at 41 under 0,go,17~1,go,23~0,go,1~ : set -> 47 0 Load 17 4294967297 4294967297 [0]
1 at 0 : number -> 101 0 Load 1 0 0 [0, 0]
1 at 14 under 0,go,15~0,back,0~ : number -> 104 0 Store 10 1 3 [0, 0]
1 at 15 under 0,go,15~0,back,0~ : number -> 104 0 Load 10 3 3 [0, 0]
1 at 0 : set, priority -> 30 0 Load 1 0 0 [0]
1 at 17 : store, priority -> 36 0 Max 18 0 4294967297 [0]
1 at 28 : store, priority -> 36 0 Swap 6 0 4294967296 [0]
1 at 19 : store, crew -> 36 0 Max 18 0 4294967297 [0]
-- the text of a trace
$ replay written
2 : no steps -> tick,worker,op,word,before,after~1,0,load,1,0,0~2,1,load,1,0,0~\
    3,0,load,0,0,0~4,1,load,0,0,0~
-- what is printed while the steps are made is the text of the trace, also where a piece ends \
    within it
$ replay stream
2 : long swap -> true [9, 7]
3 under 0,go,3000~1,sleep,9~0,back,0~1,go,70~ : count -> true [2, 2, 2, 2]
";

#[test]
fn steps_of_a_worker(rt: HostRuntime) -> Result<(), Fail> {
    expect(&rt, STEPS)
}

#[test]
fn a_body_lost_at_each_step(rt: HostRuntime) -> Result<(), Fail> {
    expect(&rt, WORLDS)
}

#[test]
fn a_worker_lost_at_each_step(rt: HostRuntime) -> Result<(), Fail> {
    expect(&rt, BOARDS)
}

#[test]
fn runs_and_replays(rt: HostRuntime) -> Result<(), Fail> {
    expect(&rt, RUNS)?;
    expect(&rt, REPLAYS)
}
