//! Runs over a new board, with a reader beside the workers.
ghost use Rattle.std.specs.Prelude.{◌≡◌, ◌⊎◌, ◌<◌, ◌≤◌, ◌*◌, All, IfOk};
ghost use Rattle.std.specs.Duration.{as_nanos};
ghost use Rattle.pram_words.specs.declared.layout.Form.TheVariants.{Wide};
ghost use Rattle.pram_board.specs.Seats.{IsOpened};
ghost use Rattle.pram_run.specs.Running.{IsBoardFor};
ghost use Rattle.pram_commands.specs.Inner.Watching.{HasHeardAlone, IsWatchedBy};
ghost use Rattle.pram_commands.specs.Threads.{IsNewBoard, grain_by};

use crate::progress::{Teller, start_teller};
use crate::sources::Inputs;
use command_data::{Block, Manner};
use pram_board::{Board, Seat};
use pram_job::Job;
use pram_run::{Bell, Listener, Reads, Shared, Sight, run_beside};
use pram_step::RunAnswer;
use std::alloc::{AllocError, Global};
use std::rt::Clock;
use std::sync::Wait;
use std::thread;
use std::thread::Threads;
use std::time::Duration;
use stop_plan::{Gate, Open, Paced};

/// A job and its plan, with what a reader beside the workers reads: so many rounds through cells of
/// the job.
#[derive(Drop)]
pub(crate) struct Watched<'a> {
    pub inputs: &'a Inputs,
    pub cells: &'a [u32],
    pub rounds: u32,
    pub ghost within: { All (λ cell. cell < inputs.now.spelled.job.cells) cells.now },
}

// The gate whose passes each take so many microseconds.
fn paced<R: Clock>(rt: &R, micros: u32) -> Paced<'_, R>
    ensures { as_nanos result.pause ≡ micros * 1_000 }
{
    Paced::new(rt, Duration::from_micros(u64::from(micros)))
}

/// A new board for a job and so many workers, with blocks of this size, or of the size that the
/// board chooses.
pub(crate) fn open(
    alloc: Global,
    job: &Job,
    workers: u32,
    block: Option<Block>,
) -> Result<(Board, Seat), AllocError>
    requires some { 1 ≤ workers }
    requires most { workers ≤ 64 }
    ensures { IfOk result (IsOpened job.now (Wide (grain_by block job.now.procs)) workers) }
{
    match block {
        Some(block) => Board::open_with_blocks(alloc, job, workers, block.size()),
        None => Board::open_wide(alloc, job, workers),
    }
}

/// Runs the plan's workers, with a reader beside them, which takes a pause before each read too,
/// and then hears how the job ended, as soon as a worker knows it. Where the board is refused, or
/// so many threads that the others do not come to the end, it hears that alone. With a pace each
/// round of the reader goes out as it is read, and else 2,048 reads at once.
pub(crate) fn run_job<R: Threads + Wait + Clock + Eprint + Sync, H, P: Reads<Heard = H>>(
    rt: &R,
    alloc: Global,
    watched: &Watched<'_>,
    manner: Manner,
    reader: P,
) -> (Result<RunAnswer, AllocError>, H)
    requires reader { P.can_read reader }
    requires listener { P.can_hear reader }
    ensures { let inputs = watched.now.inputs.now in HasHeardAlone P.hears reader result
        ⊎ IsWatchedBy (P.reads reader) P.hears inputs.spelled.job inputs.plan watched.now.cells.now
        watched.now.rounds result }
{
    let inputs = watched.inputs;
    let (job, plan) = (&inputs.spelled.job, &inputs.plan);
    let Ok((board, seat)) = open(alloc, job, plan.workers(), manner.block) else {
        let heard = reader.hear(&Err(AllocError));
        return (Err(AllocError), heard);
    };
    let bell = Bell::new();
    let run = Shared::new(alloc, job, &board, plan, &Open, &bell);
    let piece = if manner.pace.is_some() { 1 } else { 2048 };
    let run = run.reading(watched.cells, watched.rounds, piece);
    run_at_pace(rt, &run, manner, seat, reader)
}

/// Does what `run_job` does on a board that is open, in this manner, what is shared having no pace.
pub(crate) fn run_at_pace<R: Threads + Wait + Clock + Eprint + Sync, H, P: Reads<Heard = H>>(
    rt: &R,
    shared: &Shared<'_, Open>,
    manner: Manner,
    seat: Seat,
    reader: P,
) -> (Result<RunAnswer, AllocError>, H)
    requires opened { IsNewBoard shared.now.job.now shared.now.plan.now
        (shared.now.board.now, seat) }
    requires reader { P.can_read reader }
    requires listener { P.can_hear reader }
    ensures { HasHeardAlone P.hears reader result ⊎ IsWatchedBy (P.reads reader) P.hears
        shared.now.job.now shared.now.plan.now shared.now.cells.now shared.now.rounds result }
{
    let teller = Teller::new(manner.progress, shared.job.steps());
    let Some(micros) = manner.pace else {
        return run_past(rt, &teller, shared, seat, reader);
    };
    let gate = paced(rt, micros);
    let (job, board, plan) = (shared.job, shared.board, shared.plan);
    let run = Shared::new(shared.alloc, job, board, plan, &gate, shared.bell);
    let run = run.reading(shared.cells, shared.rounds, shared.piece);
    run_past(rt, &teller, &run, seat, reader)
}

// Runs the workers of what is shared, beside a teller of how far their board is, and a reader.
fn run_past<R: Threads + Wait + Clock + Eprint + Sync, G: Gate + Sync, H, P: Reads<Heard = H>>(
    rt: &R,
    teller: &Teller,
    shared: &Shared<'_, G>,
    seat: Seat,
    reader: P,
) -> (Result<RunAnswer, AllocError>, H)
    requires opened { IsNewBoard shared.now.job.now shared.now.plan.now
        (shared.now.board.now, seat) }
    requires steps { teller.now.steps ≡ shared.now.board.now.task.job.steps }
    requires reader { P.can_read reader }
    requires listener { P.can_hear reader }
    ensures { HasHeardAlone P.hears reader result ⊎ IsWatchedBy (P.reads reader) P.hears
        shared.now.job.now shared.now.plan.now shared.now.cells.now shared.now.rounds result }
{
    let (job, board, plan) = (shared.job, shared.board, shared.plan);
    let (alloc, gate, bell) = (shared.alloc, shared.gate, shared.bell);
    let (cells, rounds, piece) = (shared.cells, shared.rounds, shared.piece);
    thread::scope(
        thread::scope_env(),
        rt,
        |scope| -> (Result<RunAnswer, AllocError>, H)
            requires opened { IsNewBoard job.now plan.now (board.now, seat) }
            requires given { IsBoardFor job.now plan.now board.now seat }
            requires within { All (λ cell. cell < board.now.task.job.cells) cells.now }
            requires steps { teller.now.steps ≡ board.now.task.job.steps }
            requires reader { P.can_read reader }
            requires listener { P.can_hear reader }
            ensures { HasHeardAlone P.hears reader result ⊎ IsWatchedBy (P.reads reader) P.hears
                job.entry.now plan.entry.now cells.entry.now rounds result }
        {
            let shared = Shared::new(alloc, job, board, plan, gate, bell);
            let shared = shared.reading(cells, rounds, piece);
            let seat = start_teller(scope, rt, &shared, seat, teller);
            let reader = StopsTeller { rt, teller, reader };
            let (_seat, ended, heard) = run_beside(scope, rt, &shared, seat, reader);
            (ended, heard)
        },
    )
}

// A reader before whose hearing the teller has no more to tell.
#[derive(Drop)]
struct StopsTeller<'a, R, L> {
    rt: &'a R,
    teller: &'a Teller,
    reader: L,
}

impl<R: Clock, L: Listener> Listener for StopsTeller<'_, R, L> {
    type Heard = L::Heard;

    ghost can_hear = { λ stops. L.can_hear stops.reader };

    ghost hears = { λ stops ended heard. L.hears stops.reader ended heard };

    fn hear(self, ended: &Result<RunAnswer, AllocError>) -> L::Heard {
        let StopsTeller { rt, teller, reader } = self;
        teller.end(rt);
        reader.hear(ended)
    }
}

impl<R: Clock, L: Reads> Reads for StopsTeller<'_, R, L> {
    ghost can_read = { λ stops. L.can_read stops.reader };

    ghost reads = { λ stops task cells rounds given later after.
        L.reads stops.reader task cells rounds given later after.reader };

    fn read<G: Gate>(
        self,
        shared: &Shared<'_, G>,
        seat: &mut Seat,
        sights: &mut Vec<Sight>,
    ) -> Self {
        StopsTeller {
            reader: self.reader.read(shared, seat, sights),
            ..self
        }
    }
}
