//! Watches whose reads are printed while they are made: a round goes out while a worker is held,
//! the answer is heard while another is, and where the sink fails the watch goes on.
ghost use Rattle.std.specs.Prelude.{◌≡◌, ⊤, false};

use crate::gates::LATER;
use pram_board::{Board, Seat};
use pram_run::{Bell, Listener, Numbers, Reads, Shared, Sight, print_reads, run_heard};
use pram_step::RunAnswer;
use pram_streams::{Failed, IntoWrite, PrintFault, Sink};
use pram_text::read_job;
use std::alloc::AllocError;
use std::process::Abort;
use std::rt::Clock;
use std::sync::Wait;
use std::sync::atomic::{AtomicU64, Ordering};
use std::test::Fail;
use std::thread;
use std::thread::Threads;
use std::time::Duration;
use stop_plan::{Gate, Open, Plan};

// The bytes of the header and of the line of a read before the first step.
const FIRST: u64 = 22;

// What is added to the bytes once the answer is heard.
const HEARD: u64 = 1000;

// A sink that counts its bytes where a gate sees them.
#[derive(Drop)]
struct Counted<'a> {
    took: &'a AtomicU64,
}

impl Sink for Counted<'_> {
    ghost has_failed = { λ _. false };

    fn push(&mut self, bytes: &[u8]) -> Result<usize, Failed> {
        self.took.fetch_add(bytes.len() as u64, Ordering::SeqCst);
        Ok(bytes.len())
    }
}

// Holds worker 0 until a round was printed, and worker 1 until the answer was heard, each for ten
// seconds at most.
#[derive(Drop)]
struct Held<'a, C: Clock> {
    clock: C,
    took: &'a AtomicU64,
    late: AtomicU64,
}

impl<C: Clock> Gate for Held<'_, C> {
    fn pass(&self, worker: u32, _tick: u64) {
        let until = match worker {
            0 => FIRST,
            1 => HEARD,
            _ => 0,
        };
        for _ in 0..10_000 {
            if self.took.load(Ordering::SeqCst) >= until {
                return;
            }
            thread::sleep(&self.clock, Duration::from_millis(1));
        }
        self.late.fetch_add(1, Ordering::SeqCst);
    }
}

// Prints its reads, and gives what came of it when it hears that the job is done.
#[derive(Drop)]
struct Prints<'a, W> {
    took: &'a AtomicU64,
    sink: &'a mut W,
    printed: Result<(), PrintFault>,
}

impl<W> Listener for Prints<'_, W> {
    type Heard = Option<Result<(), PrintFault>>;

    ghost can_hear = { λ _. ⊤ };

    ghost hears = { λ _ _ _. ⊤ };

    fn hear(self, ended: &Result<RunAnswer, AllocError>) -> Option<Result<(), PrintFault>> {
        self.took.fetch_add(HEARD, Ordering::SeqCst);
        match ended {
            Ok(RunAnswer::Final(_)) => Some(self.printed),
            _ => None,
        }
    }
}

impl<W: Sink> Reads for Prints<'_, W> {
    ghost can_read = { λ prints. W.has_failed prints.sink.now ≡ false };

    ghost reads = { λ _ _ _ _ _ _ _. ⊤ };

    fn read<G: Gate>(
        self,
        shared: &Shared<'_, G>,
        seat: &mut Seat,
        sights: &mut Vec<Sight>,
    ) -> Self {
        let Prints { took, sink, .. } = self;
        let printed = print_reads(shared, seat, sights, sink, &Numbers);
        Prints {
            took,
            sink,
            printed,
        }
    }
}

// What comes of printing a watch of cell 0 for two rounds, beside two workers.
fn watched<W: Sink, G: Gate + Sync>(
    rt: &(impl AllocGlobal + Abort + Threads + Wait),
    gate: &G,
    piece: usize,
    took: &AtomicU64,
    sink: &mut W,
) -> Result<Option<Result<(), PrintFault>>, Fail>
    requires { W.has_failed sink.old ≡ false }
{
    let alloc = rt.alloc();
    let job = read_job(alloc, LATER.as_bytes())?;
    let plan = Plan::empty(alloc, 2);
    let (board, seat) = Board::open(alloc, &job, 2)?;
    let bell = Bell::new();
    let shared = Shared::new(alloc, &job, &board, &plan, gate, &bell);
    assert!(rt; job.cells() == 1);
    let shared = shared.reading(&[0], 2, piece);
    let printed = Ok(());
    let reader = Prints {
        took,
        sink,
        printed,
    };
    let (_seat, ended, heard) = run_heard(rt, &shared, seat, reader);
    assert!(rt; ended.is_ok());
    Ok(heard)
}

#[test]
fn a_round_goes_out_while_workers_are_held(rt: HostRuntime) -> Result<(), Fail> {
    let took = AtomicU64::new(0);
    let gate = Held {
        clock: rt.clone()?,
        took: &took,
        late: AtomicU64::new(0),
    };
    let heard = watched(&rt, &gate, 1, &took, &mut Counted { took: &took })?;
    assert!(rt; heard == Some(Ok(())));
    assert!(rt; gate.late.load(Ordering::SeqCst) == 0);
    Ok(())
}

#[test]
fn a_sink_that_fails_holds_up_nobody(rt: HostRuntime) -> Result<(), Fail> {
    let mut room = [0u8; 18];
    let mut sink = IntoWrite::new(room.as_mut_slice());
    let heard = watched(&rt, &Open, 2048, &AtomicU64::new(0), &mut sink)?;
    assert!(rt; heard == Some(Err(PrintFault::Device)));
    assert!(rt; sink.into_inner().is_empty());
    assert!(rt; room.starts_with(b"step,cell,value\n"));
    Ok(())
}
