//! Answers that are heard while a worker is held, and after all have left.
ghost use Rattle.std.specs.Prelude.{⊤, ◌≤◌};

use crate::gates::{SWAP, TWO_CELLS};
use crate::jobs::plan_of;
use pram_board::Board;
use pram_run::{Bell, Listener, ReadsNothing, Shared, run_heard};
use pram_step::RunAnswer;
use pram_text::read_job;
use std::alloc::AllocError;
use std::process::Abort;
use std::rt::Clock;
use std::sync::Wait;
use std::sync::atomic::{AtomicBool, Ordering};
use std::test::Fail;
use std::thread;
use std::thread::Threads;
use std::time::Duration;
use stop_plan::Gate;

// The polls of a hold, a millisecond each.
const LIMIT: u32 = 10_000;

// Whether it was heard how a run ended, and whether a worker was let go before that.
#[derive(Drop)]
struct Ear {
    heard: AtomicBool,
    let_go: AtomicBool,
}

impl Ear {
    fn new() -> Ear {
        Ear {
            heard: AtomicBool::new(false),
            let_go: AtomicBool::new(false),
        }
    }
}

// A gate that holds worker 0 until it was heard how the run ended.
#[derive(Drop)]
struct Held<'a, C: Clock> {
    clock: C,
    ear: &'a Ear,
}

impl<C: Clock> Gate for Held<'_, C> {
    fn pass(&self, worker: u32, _tick: u64) {
        if worker != 0 {
            return;
        }
        for _ in 0..LIMIT {
            if self.ear.heard.load(Ordering::SeqCst) {
                return;
            }
            thread::sleep(&self.clock, Duration::from_millis(1));
        }
        self.ear.let_go.store(true, Ordering::SeqCst);
    }
}

// How a run ended, as it was heard; the step of a conflict, or the last finished one.
#[derive(Clone, Copy, PartialEq, Eq)]
enum Sound {
    Done,
    Conflict(u32),
    Unfinished(u32),
    Memory,
}

#[derive(Drop)]
struct Hears<'a> {
    ear: &'a Ear,
}

impl Listener for Hears<'_> {
    type Heard = Sound;

    ghost can_hear = { λ _. ⊤ };

    ghost hears = { λ _ _ _. ⊤ };

    fn hear(self, ended: &Result<RunAnswer, AllocError>) -> Sound {
        self.ear.heard.store(true, Ordering::SeqCst);
        match ended {
            Ok(RunAnswer::Final(_)) => Sound::Done,
            Ok(RunAnswer::Conflict(fault)) => Sound::Conflict(fault.step),
            Ok(RunAnswer::Unfinished { step }) => Sound::Unfinished(*step),
            Err(_) => Sound::Memory,
        }
    }
}

// What is heard of a run of so many workers under rows of a plan, at a gate.
fn heard_at<G: Gate + Sync>(
    rt: &(impl AllocGlobal + Abort + Threads + Wait),
    text: &str,
    workers: u32,
    rows: &str,
    gate: &G,
    ear: &Ear,
) -> Result<Sound, Fail>
    requires some { 1 ≤ workers }
    requires most { workers ≤ 64 }
{
    let alloc = rt.alloc();
    let job = read_job(alloc, text.as_bytes())?;
    let plan = plan_of(rt, workers, rows)?;
    let (board, seat) = Board::open_wide(alloc, &job, workers)?;
    let bell = Bell::new();
    let shared = Shared::new(alloc, &job, &board, &plan, gate, &bell);
    let reader = ReadsNothing {
        listener: Hears { ear },
    };
    let (_seat, ended, sound) = run_heard(rt, &shared, seat, reader);
    assert!(rt; ended.is_ok());
    Ok(sound)
}

// The first worker is held until this is heard. No hold meets its limit.
fn expect_heard<C: Clock + Sync + Drop>(
    rt: &(impl AllocGlobal + Abort + Threads + Wait),
    clock: C,
    text: &str,
    plan: &str,
    wanted: Sound,
) -> Result<(), Fail> {
    let ear = Ear::new();
    let gate = Held { clock, ear: &ear };
    let sound = heard_at(rt, text, 3, plan, &gate, &ear)?;
    assert!(rt; sound == wanted && !ear.let_go.load(Ordering::SeqCst));
    Ok(())
}

// A gate that says that it holds nobody, so that workers stand by. It holds the first ones until the
// last one has come.
#[derive(Drop)]
struct Stuck<C: Clock> {
    clock: C,
    first: u32,
    last: u32,
    came: AtomicBool,
    let_go: AtomicBool,
}

impl<C: Clock> Gate for Stuck<C> {
    fn pass(&self, worker: u32, _tick: u64) {
        if worker == self.last {
            self.came.store(true, Ordering::SeqCst);
        }
        if worker >= self.first {
            return;
        }
        for _ in 0..LIMIT {
            if self.came.load(Ordering::SeqCst) {
                return;
            }
            thread::sleep(&self.clock, Duration::from_millis(1));
        }
        self.let_go.store(true, Ordering::SeqCst);
    }

    fn is_open(&self) -> bool {
        true
    }
}

// Texts, plans, and what is heard.
const HEARD: [(&str, &str, Sound); 5] = [
    (SWAP, "", Sound::Done),
    (SWAP, "1,go,30~1,stop,0~", Sound::Done),
    (SWAP, "0,sleep,4294967295~", Sound::Done),
    (TWO_CELLS, "2,stop,0~", Sound::Conflict(4)),
    (
        SWAP,
        "0,stop,0~1,stop,0~2,go,9~2,stop,0~",
        Sound::Unfinished(3),
    ),
];

// The answer is heard while worker 0 stands before its first step; where every worker is stopped,
// that is heard once they have left.
#[test]
fn an_answer_is_heard_while_a_worker_is_held(rt: HostRuntime) -> Result<(), Fail> {
    for (text, plan, wanted) in &HEARD {
        expect_heard(&rt, rt.clone()?, text, plan, *wanted)?;
    }
    Ok(())
}

// Where as many workers as the machine has processors stand still, the others take part.
#[test]
fn workers_that_stand_by_take_part(rt: HostRuntime) -> Result<(), Fail> {
    let processors = thread::available_parallelism(&rt)?;
    let gate = Stuck {
        clock: rt.clone()?,
        first: u32::try_from(processors.get()).unwrap_or(64),
        last: 63,
        came: AtomicBool::new(false),
        let_go: AtomicBool::new(false),
    };
    let ear = Ear::new();
    let sound = heard_at(&rt, SWAP, 64, "", &gate, &ear)?;
    assert!(&rt; sound == Sound::Done && !gate.let_go.load(Ordering::SeqCst));
    Ok(())
}
