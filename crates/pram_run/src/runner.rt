//! A plan obeyed on threads, one for each worker, over a board.
ghost use Rattle.std.specs.Prelude.{◌≡◌, ℕ, ◌<◌, ◌↔◌, IfOk, IsTrue, OnOk, vec_len};
ghost use Rattle.pram_board.specs.Worked.{Works};
ghost use Rattle.lawful_walk.specs.Seen.{BeginsWith};
ghost use Rattle.pram_run.specs.Inner.Obeying.{AllWorked, EndsOrStops, IsContinued, HasObeyed};
ghost use Rattle.pram_run.specs.Inner.Sharing.{board_of, plan_of, shared_task};
ghost use Rattle.pram_run.specs.Inner.Teams.{IsAtWork};
ghost use Rattle.pram_run.specs.Obeyed.{AllObeyed, DoesRow, HasRun, ObeysAnew};
ghost use Rattle.pram_run.specs.Running.{IsBoardFor};

use crate::ending::answer;
use crate::shared::{Bell, Shared};
use pram_board::{Board, Seat};
use pram_job::Job;
use pram_step::RunAnswer;
use std::alloc::{AllocError, Global};
use std::snapshot::Snapshot;
use std::sync::Wait;
use std::thread;
use std::thread::{Promise, PromisedHandle, Scope, Threads};
use stop_plan::{Act, Gate, Plan, Row};
use walkx::Worker;

/// Runs the workers of the plan, each on a thread of its own, and answers how the job ended. The
/// board was opened for this job and so many workers; other threads may use seats of it meanwhile.
/// Each worker obeys its rows in order and then goes on without a limit, and passes the gate before
/// each atomic step. Where a thread is refused, that is out of memory: the threads that were
/// started run to their end and are joined. The seat given back has seen what all threads saw.
pub fn run<R: Threads + Wait, G: Gate + Sync>(
    rt: &R,
    alloc: Global,
    job: &Job,
    board: &Board,
    seat: Seat,
    plan: &Plan,
    gate: &G,
) -> (Seat, Result<RunAnswer, AllocError>)
    requires given { IsBoardFor job.now plan.now board.now seat }
    ensures ran { IfOk result.1 (HasRun board.now.task plan.now seat result.0) }
    ensures begins { BeginsWith seat.record_of result.0.record_of }
    ensures desk { result.0.desk ≡ board.now }
{
    let bell = &Bell::new();
    let (mut seat, worked) = thread::scope(
        thread::scope_env(),
        rt,
        |scope| -> (Seat, Result<(), AllocError>)
            requires given { IsBoardFor job.now plan.now board.now seat }
            ensures worked { OnOk result.1
                (AllWorked board.entry.now.task plan.entry.now seat result.0) }
            ensures goes_on { IsContinued seat result.0 }
        {
            let shared = Shared::new(alloc, job, board, plan, gate, bell);
            work_in(scope, rt, &shared, seat)
        },
    );
    if let Err(refused) = worked {
        return (seat, Err(refused));
    }
    let answer = answer(alloc, job, board, &mut seat);
    (seat, answer)
}

/// Starts a thread of the scope for each worker, and joins them all.
pub(crate) fn work_in<'s, E, R: Threads, G: Gate + Sync>(
    scope: &Scope<'s, E>,
    rt: &R,
    shared: &Shared<'s, G>,
    seat: Seat,
) -> (Seat, Result<(), AllocError>)
    requires { seat.desk ≡ board_of shared.now }
    ensures worked { OnOk result.1
        (AllWorked (shared_task shared.now) (plan_of shared.now) seat result.0) }
    ensures goes_on { IsContinued seat result.0 }
{
    let team = start_all(scope, shared, seat);
    let whole = team.is_whole(shared);
    let seat = join_all(rt, shared, team);
    if whole {
        (seat, Ok(()))
    } else {
        (seat, Err(AllocError))
    }
}

/// What a worker's thread gives back: the seat that comes of obeying its rows from the one that the
/// thread was given.
#[derive(Drop)]
pub(crate) struct Obeyed<'a> {
    before: Snapshot<Seat>,
    worker: u32,
    rows: &'a [Row],
}

impl<'a> Promise<Seat> for Obeyed<'a> {
    ghost kept_by = { λ p seat. HasObeyed p.rows.now p.worker p.before.value seat };
}

/// Threads of the first workers of a plan, and the seat that theirs were split from.
#[derive(Drop)]
pub(crate) struct Team<'s> {
    pub seat: Seat,
    pub threads: Vec<PromisedHandle<Seat, Obeyed<'s>>>,
}

impl Team<'_> {
    /// No thread, and room for one for each worker, if there is memory for it.
    pub fn new<G>(shared: &Shared<'_, G>, seat: Seat) -> Self
        ensures { IsAtWork (plan_of shared.now) seat result }
    {
        let count = shared.plan.workers() as usize;
        let threads = match Vec::with_capacity(shared.alloc, count) {
            Ok(threads) => threads,
            Err(_) => Vec::new(shared.alloc),
        };
        Team { seat, threads }
    }

    /// Whether no worker is missing.
    pub fn is_whole<G>(&self, shared: &Shared<'_, G>) -> bool
        ensures { IsTrue result ↔ (vec_len self.now.threads ≡ (plan_of shared.now).workers) }
    {
        self.threads.len() == shared.plan.workers() as usize
    }
}

/// Starts a thread for each worker, until one is refused. Each rings the bell as it leaves.
pub(crate) fn start_all<'s, E, G: Gate + Sync>(
    scope: &Scope<'s, E>,
    shared: &Shared<'s, G>,
    seat: Seat,
) -> Team<'s>
    requires { seat.desk ≡ board_of shared.now }
    ensures { IsAtWork (plan_of shared.now) seat result }
{
    start_to(
        scope,
        shared,
        Team::new(shared, seat),
        shared.plan.workers(),
    )
}

/// Starts a thread for each worker that has none yet, up to so many in all, until one is refused.
/// Each rings the bell as it leaves.
pub(crate) fn start_to<'s, E, G: Gate + Sync>(
    scope: &Scope<'s, E>,
    shared: &Shared<'s, G>,
    team: Team<'s>,
    count: u32,
) -> Team<'s>
    requires seat { team.seat.desk ≡ board_of shared.now }
    requires team { IsAtWork (plan_of shared.now) team.seat team }
    ensures { IsAtWork (plan_of shared.now) team.entry.seat result }
{
    let (job, board, plan) = (shared.job, shared.board, shared.plan);
    let (alloc, gate, bell) = (shared.alloc, shared.gate, shared.bell);
    let Team {
        mut seat,
        mut threads,
    } = team;
    let end = count.min(plan.workers());
    for worker in threads.len() as u32..end {
        if threads.len() == threads.capacity() {
            break;
        }
        let (mine, theirs) = board.split(seat);
        seat = mine;
        let rows = plan.rows();
        let promise = Obeyed {
            before: Snapshot::of(&theirs),
            worker,
            rows,
        };
        let work = move || -> Seat
            requires worker { worker < board.now.task.layout.workers }
            requires given { IsBoardFor job.now plan.now board.now theirs }
            ensures goes_on { IsContinued theirs result }
            ensures ends { EndsOrStops rows.entry.now worker result }
            ensures obeys { ObeysAnew theirs.desk.task worker rows.entry.now theirs result }
        {
            let shared = Shared::new(alloc, job, board, plan, gate, bell);
            let seat = obey_rows(&shared, theirs, worker, rows, end);
            bell.ring();
            seat
        };
        match scope.spawn_with(promise, work) {
            Ok(thread) => threads.push_reserved(thread),
            Err(_) => break,
        }
    }
    Team { seat, threads }
}

/// Joins the threads, and their seats to the one that they were split from.
pub(crate) fn join_all<'s, R: Threads, G>(rt: &R, shared: &Shared<'s, G>, team: Team<'s>) -> Seat
    requires seat { team.seat.desk ≡ board_of shared.now }
    requires team { IsAtWork (plan_of shared.now) team.seat team }
    ensures ends { (k : ℕ) → k < vec_len team.entry.threads →
        EndsOrStops (plan_of shared.now).rows k result }
    ensures obeyed { AllObeyed (shared_task shared.now) (plan_of shared.now).rows team.entry.seat
        (vec_len team.entry.threads) result }
    ensures goes_on { IsContinued team.entry.seat result }
{
    let board = shared.board;
    let Team { mut seat, threads } = team;
    for thread in threads {
        seat = board.join(seat, thread.join(rt));
    }
    seat
}

// Obeys the worker's rows, and then goes on without a limit, among so many that take part.
fn obey_rows<G: Gate>(
    shared: &Shared<'_, G>,
    mut seat: Seat,
    number: u32,
    rows: &[Row],
    fellows: u32,
) -> Seat
    requires worker { number < (shared_task shared.now).layout.workers }
    requires seat { seat.desk ≡ board_of shared.now }
    ensures goes_on { IsContinued seat result }
    ensures ends { EndsOrStops rows.now number result }
    ensures obeys { ObeysAnew seat.desk.task number rows.now seat result }
{
    let mut worker = Worker::start_with(number, shared.board.worker_memory(shared.alloc));
    for row in rows {
        if row.worker == number {
            if row.act == Act::Stop {
                return seat;
            }
            obey_row(shared, &mut seat, &mut worker, row);
        }
    }
    let stay = shared
        .board
        .work_among(&mut seat, &mut worker, shared.gate, fellows);
    shared.note(stay);
    seat
}

// Obeys a row of the worker. What stops it, its caller looks after.
fn obey_row<G: Gate>(shared: &Shared<'_, G>, seat: &mut Seat, worker: &mut Worker, row: &Row)
    requires worker { row.now.worker < (shared_task shared.now).layout.workers }
    requires works { Works (board_of shared.now) seat.old worker.old }
    ensures does { DoesRow (shared_task shared.now) row.now seat.old worker.old.walking seat.new
        worker.new.walking }
    ensures works { Works (board_of shared.now) seat.new worker.new }
{
    match row.act {
        Act::Go => {
            let limit = Some(u64::from(row.ticks));
            let stay = shared.board.work(seat, worker, shared.gate, limit);
            shared.note(stay);
        }
        Act::Sleep => shared.sleep(row.worker, row.ticks),
        Act::Back => {
            *worker = Worker::back_with(row.worker, shared.board.worker_memory(shared.alloc));
        }
        Act::Stop => {}
    }
}
