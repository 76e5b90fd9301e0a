//! What the threads of a run share. The thread that waits for workers learns by it that they leave,
//! and a sleeper that the job is over.
ghost use Rattle.std.specs.Prelude.{◌≡◌, ◌<◌, All};

use pram_board::{Board, Stay};
use pram_job::Job;
use std::alloc::Global;
use std::sync::Wait;
use std::sync::atomic::{AtomicBool, AtomicU64, Ordering};
use std::thread::Parker;
use std::time::Duration;
use stop_plan::{Gate, Plan};

/// What the workers of a run go over, and a reader beside them: a board that was opened for the
/// job; a plan for all of the board's workers, who pass the gate before each atomic step, and ring
/// the bell as they leave, which is for this run alone; and so many rounds through cells of the
/// job, which the reader reads. What it read goes out after a round, once so many reads wait.
/// Memory comes from the allocator.
#[derive(Drop)]
pub struct Shared<'a, G> {
    pub alloc: Global,
    pub job: &'a Job,
    pub board: &'a Board,
    pub plan: &'a Plan,
    pub gate: &'a G,
    pub bell: &'a Bell,
    pub cells: &'a [u32],
    pub rounds: u32,
    pub piece: usize,
    pub ghost opened: { board.now.task.job ≡ job.now },
    pub ghost workers: { board.now.task.layout.workers ≡ plan.now.workers },
    pub ghost within: { All (λ c. c < board.now.task.job.cells) cells.now },
}

impl<'a, G> Shared<'a, G> {
    /// What a run shares where nobody reads beside the workers.
    pub fn new(
        alloc: Global,
        job: &'a Job,
        board: &'a Board,
        plan: &'a Plan,
        gate: &'a G,
        bell: &'a Bell,
    ) -> Self
        requires opened { board.now.task.job ≡ job.now }
        requires workers { board.now.task.layout.workers ≡ plan.now.workers }
        ensures board { result.board.now ≡ board.now }
        ensures plan { result.plan.now ≡ plan.now }
    {
        Shared {
            alloc,
            job,
            board,
            plan,
            gate,
            bell,
            cells: &[],
            rounds: 0,
            piece: 0,
        }
    }

    /// What it shares where a reader goes so many rounds through these cells.
    pub fn reading(self, cells: &'a [u32], rounds: u32, piece: usize) -> Self
        requires within { All (λ c. c < self.board.now.task.job.cells) cells.now }
        ensures board { result.board.now ≡ self.entry.board.now }
        ensures plan { result.plan.now ≡ self.entry.plan.now }
        ensures cells { result.cells.now ≡ cells.now }
        ensures rounds { result.rounds ≡ rounds }
    {
        let Shared {
            alloc,
            job,
            board,
            plan,
            gate,
            bell,
            ..
        } = self;
        Shared {
            alloc,
            job,
            board,
            plan,
            gate,
            bell,
            cells,
            rounds,
            piece,
        }
    }
}

impl<G: Gate> Shared<'_, G> {
    /// Passes the gate so many times, without an atomic step of the board, until the job is over.
    pub(crate) fn sleep(&self, worker: u32, ticks: u32) {
        if self.gate.is_open() {
            return;
        }
        for tick in 0..ticks {
            if self.bell.is_over() {
                return;
            }
            self.gate.pass(worker, u64::from(tick));
        }
    }

    /// Wakes the sleepers where a worker has ended so.
    pub(crate) fn note(&self, stay: Stay) {
        if let Stay::Ended(_) = stay {
            self.bell.end();
        }
    }
}

/// Rung by each worker that leaves, without a lock. One thread may wait at it.
#[derive(Drop)]
pub struct Bell {
    left: AtomicU64,
    over: AtomicBool,
    parker: Parker,
}

impl Bell {
    pub fn new() -> Bell {
        Bell {
            left: AtomicU64::new(0),
            over: AtomicBool::new(false),
            parker: Parker::new(),
        }
    }

    /// One worker more has left.
    pub(crate) fn ring(&self) {
        self.left.fetch_add(1, Ordering::SeqCst);
        self.parker.unpark();
    }

    /// How many workers have left.
    pub(crate) fn left(&self) -> u64 {
        self.left.load(Ordering::SeqCst)
    }

    /// A worker has seen that the job is over.
    pub(crate) fn end(&self) {
        self.over.store(true, Ordering::Relaxed);
    }

    /// Whether a worker has seen that.
    pub(crate) fn is_over(&self) -> bool {
        self.over.load(Ordering::Relaxed)
    }

    /// Waits so long, or until it is rung.
    pub(crate) fn wait_for<R: Wait>(&self, rt: &R, time: Duration) {
        self.parker.park_timeout(rt, time);
    }

    /// Waits until it was rung since the last wait.
    pub(crate) fn wait<R: Wait>(&self, rt: &R) {
        self.parker.park(rt);
    }
}
