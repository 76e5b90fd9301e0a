//! Runs on threads, and gates that hold workers and readers at chosen ticks.
ghost use Rattle.std.specs.Prelude.{◌≤◌};

use crate::jobs::{answer_text, plan_of};
use crate::replays::workers_of;
use pram_board::Board;
use pram_run::{Sight, run, watch};
use pram_step::RunAnswer;
use pram_text::read_job;
use std::process::Abort;
use std::rt::Clock;
use std::sync::Wait;
use std::sync::atomic::{AtomicU64, Ordering};
use std::test::Fail;
use std::thread;
use std::thread::Threads;
use std::time::Duration;
use stop_plan::{Gate, Open, Plan};

// What a run answers, of a text by so many workers under rows of a plan.
fn ran<G: Gate + Sync>(
    rt: &(impl AllocGlobal + Abort + Threads + Wait),
    text: &str,
    workers: u32,
    plan: &str,
    gate: &G,
) -> Result<RunAnswer, Fail>
    requires some { 1 ≤ workers }
    requires most { workers ≤ 64 }
{
    let alloc = rt.alloc();
    let job = read_job(alloc, text.as_bytes())?;
    let plan = plan_of(rt, workers, plan)?;
    let (board, seat) = Board::open(alloc, &job, workers)?;
    let (_seat, answer) = run(rt, alloc, &job, &board, seat, &plan, gate);
    Ok(answer?)
}

/// What a run answers.
pub fn said(
    rt: &(impl AllocGlobal + Abort + Threads + Wait),
    given: &str,
    text: &str,
) -> Result<String, Fail> {
    let (workers, plan) = workers_of(rt, given);
    let answer = ran(rt, text, workers, plan, &Open)?;
    Ok(answer_text(rt.alloc(), &answer)?)
}

// A worker, or the reader, is held at a tick until another one has passed with a tick.
#[derive(Clone, Copy)]
struct Hold {
    worker: u32,
    tick: u64,
    other: u32,
    until: u64,
}

// A gate with holds. It keeps the last tick of each of two, counted from 1, and how many holds met
// their limit.
#[derive(Drop)]
struct Holds<C: Clock> {
    clock: C,
    holds: [Hold; 2],
    passed: [AtomicU64; 2],
    late: AtomicU64,
}

// The polls of a hold, a millisecond each.
const LIMIT: u32 = 10_000;

impl<C: Clock> Holds<C> {
    fn new(clock: C, holds: [Hold; 2]) -> Holds<C> {
        Holds {
            clock,
            holds,
            passed: [AtomicU64::new(0), AtomicU64::new(0)],
            late: AtomicU64::new(0),
        }
    }

    fn has_passed(&self, worker: u32, tick: u64) -> bool {
        match self.passed.get(worker as usize) {
            Some(passed) => passed.load(Ordering::SeqCst) > tick,
            None => false,
        }
    }

    fn wait_for(&self, worker: u32, tick: u64) {
        for _ in 0..LIMIT {
            if self.has_passed(worker, tick) {
                return;
            }
            thread::sleep(&self.clock, Duration::from_millis(1));
        }
        self.late.fetch_add(1, Ordering::SeqCst);
    }

    // Both have passed, and no hold met its limit.
    fn were_kept(&self) -> bool {
        self.has_passed(0, 0) && self.has_passed(1, 0) && self.late.load(Ordering::SeqCst) == 0
    }
}

impl<C: Clock> Gate for Holds<C> {
    fn pass(&self, worker: u32, tick: u64) {
        if let Some(passed) = self.passed.get(worker as usize) {
            passed.fetch_max(tick.saturating_add(1), Ordering::SeqCst);
        }
        for hold in &self.holds {
            if hold.worker == worker && hold.tick == tick {
                self.wait_for(hold.other, hold.until);
            }
        }
    }
}

fn holding(worker: u32, tick: u64, other: u32, until: u64) -> Hold {
    Hold {
        worker,
        tick,
        other,
        until,
    }
}

// A run of two workers at a gate answers so.
fn expect_answer<C: Clock + Sync>(
    rt: &(impl AllocGlobal + Abort + Threads + Wait),
    text: &str,
    plan: &str,
    gate: &Holds<C>,
    wanted: &str,
) -> Result<(), Fail> {
    let answer = ran(rt, text, 2, plan, gate)?;
    let found = answer_text(rt.alloc(), &answer)?;
    assert!(rt; found.as_str() == wanted);
    Ok(())
}

pub const SWAP: &str = "pram 1\ncells 2\nprocs 2\nsteps 5\ninit 0 7\ninit 1 9\ncode\n\
    pid r0\nset r1 1\nsub r1 r1 r0\nld r2 r1\nst r0 r2\n";

const SET: &str = "pram 1\ncells 1\nprocs 1\nsteps 1\ncode\nset r0 7\n";

pub const LATER: &str = "pram 1\ncells 1\nprocs 1\nsteps 2\ninit 0 4\ncode\n\
    set r1 7\nst r0 r1\n";

const BELOW_ZERO: &str = "pram 1\ncells 1\nprocs 1\nsteps 3\ncode\n\
    set r1 1\nsub r2 r0 r1\nst r0 r2\n";

// Two cells, each of which two processors write to.
pub const TWO_CELLS: &str = "pram 1\ncells 2\nprocs 4\nsteps 4\ncode\n\
    pid r0\nset r1 1\nand r2 r0 r1\nst r2 r0\n";

// A run of two workers at a gate whose holds are kept answers so.
fn expect_held<C: Clock + Sync + Drop>(
    rt: &(impl AllocGlobal + Abort + Threads + Wait),
    clock: C,
    text: &str,
    holds: [Hold; 2],
    wanted: &str,
) -> Result<(), Fail> {
    let gate = Holds::new(clock, holds);
    expect_answer(rt, text, "", &gate, wanted)?;
    assert!(rt; gate.were_kept());
    Ok(())
}

// Two workers each stand before their first step until the other one does; and worker 0 stands
// before its swap of register 0, and worker 1 makes it.
#[test]
fn two_at_once(rt: HostRuntime) -> Result<(), Fail> {
    let first = [holding(0, 0, 1, 0), holding(1, 0, 0, 0)];
    expect_held(&rt, rt.clone()?, SWAP, first, "[9, 7]")?;
    let late = [holding(0, 17, 1, 22), holding(1, 0, 0, 17)];
    expect_held(&rt, rt.clone()?, SET, late, "[0]")
}

// Worker 0 of two sleeps for as many ticks as a plan can name, and worker 1 is held until it has
// slept a thousand.
fn expect_sleep<C: Clock + Sync + Drop>(
    rt: &(impl AllocGlobal + Abort + Threads + Wait),
    clock: C,
    text: &str,
    wanted: &str,
) -> Result<(), Fail> {
    let plan = "0,sleep,4294967295~0,back,0~0,sleep,4294967295~0,stop,0~";
    let gate = Holds::new(clock, [holding(1, 0, 0, 999), holding(1, 0, 0, 999)]);
    expect_answer(rt, text, plan, &gate, wanted)?;
    assert!(rt; gate.were_kept() && !gate.has_passed(0, 4_294_967_294));
    Ok(())
}

// The sleep ends once the job is over, and with it the plan of worker 0.
#[test]
fn a_sleep_ends_with_the_job(rt: HostRuntime) -> Result<(), Fail> {
    expect_sleep(&rt, rt.clone()?, SWAP, "[9, 7]")?;
    expect_sleep(&rt, rt.clone()?, TWO_CELLS, "conflict 4 0 0 2")
}

// A worker that sleeps two thousand ticks is left by the other one.
fn expect_waking<C: Clock + Sync + Drop>(
    rt: &(impl AllocGlobal + Abort + Threads + Wait),
    clock: C,
    plan: &str,
    wanted: &str,
) -> Result<(), Fail> {
    let gate = Holds::new(clock, [holding(2, 0, 0, 0), holding(2, 0, 0, 0)]);
    expect_answer(rt, SWAP, plan, &gate, wanted)?;
    assert!(rt; gate.has_passed(0, 1999));
    Ok(())
}

// Where the other worker has stopped, a sleep is no end: the sleeper wakes and finishes the job.
#[test]
fn a_sleeper_that_is_left_goes_on(rt: HostRuntime) -> Result<(), Fail> {
    let goes_on = "0,sleep,2000~1,go,30~1,stop,0~";
    expect_waking(&rt, rt.clone()?, goes_on, "[9, 7]")?;
    let stops = "0,sleep,2000~0,stop,0~1,go,9~1,stop,0~";
    expect_waking(&rt, rt.clone()?, stops, "unfinished 0")
}

// What a watch of cell 0 lists, beside one worker, at a gate whose holds are kept.
fn watched<C: Clock + Sync>(
    rt: &(impl AllocGlobal + Abort + Threads + Wait),
    text: &str,
    rounds: u32,
    gate: &Holds<C>,
) -> Result<Vec<Sight>, Fail> {
    let alloc = rt.alloc();
    let job = read_job(alloc, text.as_bytes())?;
    let plan = Plan::empty(alloc, 1);
    let (board, seat) = Board::open(alloc, &job, 1)?;
    let (_seat, answer) = watch(rt, alloc, &job, &board, seat, &plan, &[0], rounds, gate);
    let (answer, sights) = answer?;
    assert!(rt; gate.were_kept());
    match answer {
        RunAnswer::Final(_) => Ok(sights),
        _ => panic!(rt; "not final"),
    }
}

// Checks how many sights a watch at a gate lists, and the first of them.
fn expect_sights<C: Clock + Sync>(
    rt: &(impl AllocGlobal + Abort + Threads + Wait),
    text: &str,
    rounds: u32,
    gate: &Holds<C>,
    first: &[Sight],
) -> Result<(), Fail> {
    let sights = watched(rt, text, rounds, gate)?;
    assert!(rt; sights.len() == rounds as usize);
    assert!(rt; sights.as_slice().starts_with(first));
    Ok(())
}

// The reader is held until the worker has passed, and the worker until the reader has; the worker
// is held until the reader's last read; and the first read finds a write of step 2 before the step
// is finished.
#[test]
fn the_reader_reads_beside_the_workers(rt: HostRuntime) -> Result<(), Fail> {
    let both = [holding(0, 0, 1, 0), holding(1, 0, 0, 0)];
    expect_sights(&rt, LATER, 1, &Holds::new(rt.clone()?, both), &[])?;
    let before = [holding(0, 0, 1, 3), holding(0, 0, 1, 3)];
    let start = [sight(0, 0), sight(0, 0), sight(0, 0)];
    expect_sights(&rt, BELOW_ZERO, 4, &Holds::new(rt.clone()?, before), &start)?;
    let between = [holding(1, 0, 0, 53), holding(0, 53, 1, 1)];
    let later = [sight(1, 4)];
    expect_sights(&rt, LATER, 2, &Holds::new(rt.clone()?, between), &later)
}

// A sight of cell 0.
fn sight(step: u32, value: u32) -> Sight {
    Sight {
        cell: 0,
        step,
        value,
    }
}
