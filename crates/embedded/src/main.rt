//! Runs a job by three workers on threads, one of which is lost in the midst and comes back.
#![tactic(auto)]

ghost use Rattle.std.specs.Prelude.{◌≡◌, ◌<◌};
ghost use Rattle.kaolinsilk.specs.Words.{Works};

use kaolinsilk::{Board, Job, Open, Reading, Seat, Worker, read_job};
use std::alloc::Global;
use std::io;
use std::thread::{Threads, join};

// Each of four processors doubles a cell of its own ten times.
const JOB: &str =
    "pram 1\ncells 4\nprocs 4\nsteps 41\ninit 0 3\ninit 1 1\ninit 2 4\ninit 3 1\ncode\n\
    pid r0\nround: ld r1 r0\nadd r1 r1 r1\nst r0 r1\njmp round\n";

fn main(rt: HostRuntime) -> io::Result<()> {
    let Ok(job) = read_job(rt.alloc(), JOB.as_bytes()) else {
        return println!(rt; "no job");
    };
    let alloc = rt.alloc();
    let (board, seat) = Board::open_wide(alloc, &job, 3)?;
    let (mine, theirs) = board.split(seat);
    let (first, others) = join(
        &rt,
        || work(alloc, &board, mine, 0),
        || two(&rt, alloc, &board, theirs),
    );
    tell(&rt, &job, &board, board.join(first, others))
}

fn two<R: Threads + Sync>(rt: &R, alloc: Global, board: &Board, seat: Seat) -> Seat
    requires workers { board.now.task.layout.workers ≡ 3 }
    requires seat { seat.desk ≡ board.now }
    ensures { result.desk ≡ board.now }
{
    let (mine, theirs) = board.split(seat);
    let (first, second) = join(
        rt,
        || work(alloc, board, mine, 1),
        || work(alloc, board, theirs, 2),
    );
    board.join(first, second)
}

// A piece of 100 atomic steps, a look at cell 0, and the rest.
fn work(alloc: Global, board: &Board, mut seat: Seat, number: u32) -> Seat
    requires worker { number < board.now.task.layout.workers }
    requires seat { seat.desk ≡ board.now }
    ensures { result.desk ≡ board.now }
{
    let mut worker = Worker::start_with(number, board.worker_memory(alloc));
    board.work(&mut seat, &mut worker, &Open, Some(100));
    let mut worker = lost(alloc, board, &seat, worker);
    let Reading::At { .. } = look(board, &mut seat, &worker);
    board.work(&mut seat, &mut worker, &Open, None);
    seat
}

// A look at cell 0, after which the worker is known as before.
fn look(board: &Board, seat: &mut Seat, worker: &Worker) -> Reading
    requires { Works board.now seat.old worker.now }
    ensures { Works board.now seat.new worker.now }
{
    board.facts();
    Seat::workers_stay_known();
    let _ = worker;
    board.read(seat, 0)
}

// Worker 2 is lost, and comes back.
fn lost(alloc: Global, board: &Board, seat: &Seat, worker: Worker) -> Worker
    requires { Works board.now seat.now worker }
    ensures { Works board.now seat.now result }
{
    if worker.number() != 2 {
        return worker;
    }
    Worker::back_with(worker.number(), board.worker_memory(alloc))
}

fn tell<R: AllocGlobal + Print>(rt: &R, job: &Job, board: &Board, mut seat: Seat) -> io::Result<()>
    requires job { board.now.task.job ≡ job.now }
    requires seat { seat.desk ≡ board.now }
{
    if board.progress(&mut seat).step != job.steps() {
        return println!(rt; "not over");
    }
    println!(rt; "{:?}", board.memory(rt.alloc(), &mut seat)?)
}
