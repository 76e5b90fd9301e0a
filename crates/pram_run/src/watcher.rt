//! A reader beside the workers of a plan.
ghost use Rattle.std.specs.Prelude.{◌≡◌, ◌≤◌, ◌<◌, ◌+◌, ◌*◌, All, IfOk, length, vec_len};
ghost use Rattle.std.specs.Prelude.{vec_capacity};
ghost use Rattle.walkx.specs.declared.operation.Reading.TheVariants.{At};
ghost use Rattle.lawful_walk.specs.Seen.{BeginsWith};
ghost use Rattle.pram_run.specs.Inner.Obeying.{AllEndOrStop, IsContinued, IsToWatch};
ghost use Rattle.pram_run.specs.Inner.Reading.{IsWatchJoined, ReadsRound};
ghost use Rattle.pram_run.specs.Inner.Sharing.{board_of, plan_of, shared_task};
ghost use Rattle.pram_run.specs.Running.{IsBoardFor};
ghost use Rattle.pram_run.specs.Watching.{HasWatched, IsWatch};

use crate::ending::answer;
use crate::runner::work_in;
use crate::shared::{Bell, Shared};
use crate::sight::Sight;
use pram_board::{Board, Seat};
use pram_job::Job;
use pram_step::RunAnswer;
use std::alloc::{AllocError, Global};
use std::snapshot::Snapshot;
use std::sync::Wait;
use std::thread;
use std::thread::{Promise, PromisedHandle, Scope, Threads};
use stop_plan::{Gate, Plan};
use walkx::Reading;

/// Does what `run` does, with a reader beside the workers on a thread of its own: it goes so many
/// rounds through the cells, in order, with one read for each. Before each read it passes the gate
/// as the worker after the plan's last one, with the number of its reads so far. The list has all
/// that it read, in order.
pub fn watch<R: Threads + Wait, G: Gate + Sync>(
    rt: &R,
    alloc: Global,
    job: &Job,
    board: &Board,
    seat: Seat,
    plan: &Plan,
    cells: &[u32],
    rounds: u32,
    gate: &G,
) -> (Seat, Result<(RunAnswer, Vec<Sight>), AllocError>)
    requires given { IsBoardFor job.now plan.now board.now seat }
    requires cells { All (λ c. c < board.now.task.job.cells) cells.now }
    ensures watched { IfOk result.1 (λ r. HasWatched board.now.task plan.now cells.now rounds seat
        r.1.items result.0 r.0) }
    ensures begins { BeginsWith seat.record_of result.0.record_of }
    ensures desk { result.0.desk ≡ board.now }
{
    let bell = &Bell::new();
    let (mut seat, watched) = thread::scope(
        thread::scope_env(),
        rt,
        |scope| -> (Seat, Result<Vec<Sight>, AllocError>)
            requires given { IsBoardFor job.now plan.now board.now seat }
            requires within { All (λ c. c < board.now.task.job.cells) cells.now }
            ensures ends { IfOk result.1 (λ sights. AllEndOrStop plan.entry.now result.0) }
            ensures sights { IfOk result.1 (λ sights. IsWatchJoined board.entry.now.task
                plan.entry.now cells.entry.now rounds seat sights.items result.0) }
            ensures goes_on { IsContinued seat result.0 }
        {
            let shared = Shared::new(alloc, job, board, plan, gate, bell);
            watch_in(scope, rt, &shared.reading(cells, rounds, 0), seat)
        },
    );
    let sights = match watched {
        Ok(sights) => sights,
        Err(refused) => return (seat, Err(refused)),
    };
    match answer(alloc, job, board, &mut seat) {
        Ok(answer) => (seat, Ok((answer, sights))),
        Err(refused) => (seat, Err(refused)),
    }
}

/// What the reader's thread gives back: the seat after its reads, and what they told.
#[derive(Drop)]
struct Watched<'a> {
    before: Snapshot<Seat>,
    cells: &'a [u32],
    rounds: u32,
}

impl<'a> Promise<(Seat, Vec<Sight>)> for Watched<'a> {
    ghost kept_by = { λ p r. IsContinued p.before.value r.0
        × IsWatch p.before.value.desk.task p.cells.now p.rounds p.before.value r.1.items r.0 };
}

// Starts the reader and the workers in a scope, and joins them all.
fn watch_in<'s, E, R: Threads, G: Gate + Sync>(
    scope: &Scope<'s, E>,
    rt: &R,
    shared: &Shared<'s, G>,
    seat: Seat,
) -> (Seat, Result<Vec<Sight>, AllocError>)
    requires { seat.desk ≡ board_of shared.now }
    ensures ends { IfOk result.1 (λ sights. AllEndOrStop (plan_of shared.now) result.0) }
    ensures sights { IfOk result.1 (λ sights. let seen = shared.now in
        IsWatchJoined (shared_task seen) (plan_of seen) seen.cells.now seen.rounds seat sights.items
        result.0) }
    ensures goes_on { IsContinued seat result.0 }
{
    let board = shared.board;
    let (seat, theirs) = board.split(seat);
    let Ok(reader) = start_reader(scope, shared, theirs) else {
        return (seat, Err(AllocError));
    };
    let (seat, worked) = work_in(scope, rt, shared, seat);
    let (theirs, sights) = reader.join(rt);
    let seat = board.join(seat, theirs);
    match worked {
        Ok(()) => (seat, Ok(sights)),
        Err(refused) => (seat, Err(refused)),
    }
}

// Starts a thread of the scope that reads from this seat.
fn start_reader<'s, E, G: Gate + Sync>(
    scope: &Scope<'s, E>,
    shared: &Shared<'s, G>,
    seat: Seat,
) -> Result<PromisedHandle<(Seat, Vec<Sight>), Watched<'s>>, AllocError>
    requires { seat.desk ≡ board_of shared.now }
    ensures { IfOk result (λ reader. IsToWatch shared.now.cells.now shared.now.rounds seat
        reader.promise) }
{
    let (job, board, plan) = (shared.job, shared.board, shared.plan);
    let (alloc, gate, bell) = (shared.alloc, shared.gate, shared.bell);
    let (cells, rounds) = (shared.cells, shared.rounds);
    let sights = room_for(alloc, cells, rounds)?;
    let promise = Watched {
        before: Snapshot::of(&seat),
        cells,
        rounds,
    };
    let reads = move || -> (Seat, Vec<Sight>)
        requires given { IsBoardFor job.now plan.now board.now seat }
        requires within { All (λ c. c < board.now.task.job.cells) cells.now }
        requires empty { vec_len sights ≡ 0 }
        requires room { rounds * length cells.now ≤ vec_capacity sights }
        ensures goes_on { IsContinued seat result.0 }
        ensures watch { IsWatch board.entry.now.task cells.entry.now rounds seat result.1.items
            result.0 }
    {
        let shared = Shared::new(alloc, job, board, plan, gate, bell);
        read_all(&shared.reading(cells, rounds, 0), seat, sights)
    };
    Ok(scope.spawn_with(promise, reads)?)
}

// An empty list with room for all that is read.
fn room_for(alloc: Global, cells: &[u32], rounds: u32) -> Result<Vec<Sight>, AllocError>
    ensures empty { IfOk result (λ v. vec_len v ≡ 0) }
    ensures room { IfOk result (λ v. rounds * length cells.now ≤ vec_capacity v) }
{
    let count = (rounds as usize)
        .checked_mul(cells.len())
        .ok_or(AllocError)?;
    Vec::with_capacity(alloc, count)
}

// Goes through the cells as many times as there are rounds.
fn read_all<G: Gate>(
    shared: &Shared<'_, G>,
    mut seat: Seat,
    mut sights: Vec<Sight>,
) -> (Seat, Vec<Sight>)
    requires seat { seat.desk ≡ board_of shared.now }
    requires empty { vec_len sights ≡ 0 }
    requires room { shared.now.rounds * length shared.now.cells.now ≤ vec_capacity sights }
    ensures goes_on { IsContinued seat result.0 }
    ensures watch { IsWatch (shared_task shared.now) shared.now.cells.now shared.now.rounds seat
        result.1.items result.0 }
{
    for _ in 0..shared.rounds {
        let reads = sights.len() as u64;
        read_round(shared, shared.gate, &mut seat, reads, &mut sights);
    }
    (seat, sights)
}

/// Reads each of the cells, and notes what was read, so many reads having gone before. Before each
/// read it passes the gate as the worker after the plan's last one.
pub(crate) fn read_round<G, P: Gate>(
    shared: &Shared<'_, G>,
    gate: &P,
    seat: &mut Seat,
    reads: u64,
    sights: &mut Vec<Sight>,
)
    requires seat { seat.old.desk ≡ board_of shared.now }
    requires room { vec_len sights.old + length shared.now.cells.now ≤ vec_capacity sights.old }
    ensures desk { seat.new.desk ≡ board_of shared.now }
    ensures reads { ReadsRound (shared_task shared.now) shared.now.cells.now sights.old.items
        seat.old sights.new.items seat.new }
    ensures len { vec_len sights.new ≡ vec_len sights.old + length shared.now.cells.now }
    ensures capacity { vec_capacity sights.new ≡ vec_capacity sights.old }
{
    let mut passes = reads;
    for cell in shared.cells {
        let cell = *cell;
        gate.pass(shared.plan.workers(), passes);
        passes = passes.saturating_add(1);
        let sight = sight_of(cell, shared.board.read(seat, cell));
        sights.push_reserved(sight);
    }
}

// What a read of a cell told.
fn sight_of(cell: u32, reading: Reading) -> Sight
    ensures cell { result.cell ≡ cell }
    ensures tells { reading ≡ At result.step result.value }
{
    let Reading::At { step, value } = reading;
    Sight { cell, step, value }
}
