//! Boards on one thread: workers that are lost, gates, and what readers see.
ghost use Rattle.std.specs.Prelude.{◌≡◌, ◌<◌, ◌≤◌, IfOk};
ghost use Rattle.pram_board.specs.Worked.{Works};

use crate::jobs::fault_text;
use pram_board::{Board, Progress, Seat, Stay};
use pram_job::Job;
use pram_text::read_job;
use std::alloc::{AllocError, Global};
use std::process::Abort;
use std::sync::atomic::{AtomicU64, Ordering};
use std::test::Fail;
use stop_plan::{Gate, Open};
use walkx::{Ended, Reading, Worker};

/// How the words of a board for two workers lie.
#[derive(Clone, Copy)]
pub enum Lay {
    Compact,
    Blocks,
}

// A board for two workers.
fn opened(alloc: Global, job: &Job, lay: Lay) -> Result<(Board, Seat), AllocError>
    ensures seat { IfOk result (λ made. made.1.desk ≡ made.0) }
    ensures workers { IfOk result (λ made. made.0.task.layout.workers ≡ 2) }
    ensures job { IfOk result (λ made. made.0.task.job ≡ job.now) }
{
    match lay {
        Lay::Compact => Board::open(alloc, job, 2),
        Lay::Blocks => Board::open_with_blocks(alloc, job, 2, 4),
    }
}

// Lets a worker go on to its end, and tells what it answers.
fn finished(
    alloc: Global,
    board: &Board,
    seat: &mut Seat,
    worker: &mut Worker,
) -> Result<String, AllocError>
    requires works { Works board.now seat.old worker.old }
    ensures desk { seat.new.desk ≡ board.now }
{
    match board.work(seat, worker, &Open, None) {
        Stay::Ended(Ended::Done) => {
            let cells = board.memory(alloc, seat)?;
            format!(in alloc; "{cells:?}")
        }
        Stay::Ended(Ended::Conflict(_)) => {
            let fault = board.fault(alloc, seat)?;
            fault_text(alloc, &fault)
        }
        Stay::Stopped => Ok(String::new(alloc)),
    }
}

/// Worker 0 makes so many steps and is given up, worker 1 finishes, and worker 0 comes back: what
/// both answer. Nothing where worker 0 was over before.
pub fn lost(alloc: Global, job: &Job, lay: Lay, steps: u32) -> Result<Option<String>, AllocError> {
    let (board, seat) = opened(alloc, job, lay)?;
    let (mut seat, mut other) = board.split(seat);
    let mut worker = Worker::start(0);
    let stay = board.work(&mut seat, &mut worker, &Open, Some(u64::from(steps)));
    if let Stay::Ended(_) = stay {
        return Ok(None);
    }
    let first = finished(alloc, &board, &mut other, &mut Worker::start(1))?;
    let second = finished(alloc, &board, &mut seat, &mut Worker::back(0))?;
    Ok(Some(format!(in alloc; "{first}, {second}")?))
}

// A worker, and the seat that it works at.
#[derive(Drop)]
struct Hand {
    seat: Seat,
    worker: Worker,
}

// A worker that starts.
fn starting(board: &Board, seat: Seat, number: u32) -> Hand
    requires worker { number < board.now.task.layout.workers }
    requires seat { seat.desk ≡ board.now }
    ensures { Works board.now result.seat result.worker }
{
    Hand {
        seat,
        worker: Worker::start(number),
    }
}

// A worker that comes back.
fn back(board: &Board, seat: Seat, number: u32) -> Hand
    requires worker { number < board.now.task.layout.workers }
    requires seat { seat.desk ≡ board.now }
    ensures { Works board.now result.seat result.worker }
{
    Hand {
        seat,
        worker: Worker::back(number),
    }
}

// Two workers take turns, so many steps each.
fn take_turns(board: &Board, first: &mut Hand, second: &mut Hand, steps: u32)
    requires first { Works board.now first.old.seat first.old.worker }
    requires second { Works board.now second.old.seat second.old.worker }
    ensures second { Works board.now second.new.seat second.new.worker }
{
    for _ in 0..steps {
        board.tick(&mut first.seat, &mut first.worker);
        board.tick(&mut second.seat, &mut second.worker);
    }
}

/// Two workers of number 0 take turns; one is given up, the other finishes: what it answers.
/// Nothing where the first one was over before.
pub fn twin(alloc: Global, job: &Job, lay: Lay, steps: u32) -> Result<Option<String>, AllocError> {
    let (board, seat) = opened(alloc, job, lay)?;
    let (seat, other) = board.split(seat);
    let mut first = starting(&board, seat, 0);
    let mut twin = starting(&board, other, 0);
    take_turns(&board, &mut first, &mut twin, steps);
    let answer = finished(alloc, &board, &mut twin.seat, &mut twin.worker)?;
    if first.worker.ended().is_some() {
        return Ok(None);
    }
    Ok(Some(answer))
}

/// Two of three workers take turns on a board of blocks and are given up, and the third one ends
/// what they began.
pub fn third(alloc: Global, text: &str) -> Result<String, Fail> {
    let job = read_job(alloc, text.as_bytes())?;
    Ok(third_answer(alloc, &job)?)
}

/// What the third worker answers of a job.
pub fn third_answer(alloc: Global, job: &Job) -> Result<String, AllocError> {
    let (board, seat) = Board::open_with_blocks(alloc, job, 3, 4)?;
    let (seat, rest) = board.split(seat);
    let (other, last) = board.split(rest);
    let mut first = starting(&board, seat, 0);
    let mut second = starting(&board, other, 1);
    take_turns(&board, &mut first, &mut second, 100);
    let mut third = starting(&board, last, 2);
    finished(alloc, &board, &mut third.seat, &mut third.worker)
}

// How far the job is, and what a cell holds.
fn seen(board: &Board, seat: &mut Seat, cell: u32) -> (Progress, Reading)
    requires desk { seat.old.desk ≡ board.now }
    requires cell { cell < board.now.task.job.cells }
    ensures { seat.new.desk ≡ board.now }
{
    let progress = board.progress(seat);
    (progress, board.read(seat, cell))
}

fn at(step: u32, conflict: Option<u32>, seen: u32, value: u32) -> (Progress, Reading) {
    (
        Progress { step, conflict },
        Reading::At { step: seen, value },
    )
}

// A board for two workers, for the job of a text that has so many cells.
fn opened_for(
    rt: &(impl AllocGlobal + Abort),
    text: &[u8],
    cells: u32,
) -> Result<(Board, Seat), Fail>
    ensures seat { IfOk result (λ made. made.1.desk ≡ made.0) }
    ensures workers { IfOk result (λ made. made.0.task.layout.workers ≡ 2) }
    ensures cells { IfOk result (λ made. made.0.task.job.cells ≡ cells) }
{
    let job = read_job(rt.alloc(), text)?;
    assert!(rt; job.cells() == cells);
    Ok(opened(rt.alloc(), &job, Lay::Compact)?)
}

const BELOW_ZERO: &[u8] =
    b"pram 1\ncells 1\nprocs 1\nsteps 3\ncode\nset r1 1\nsub r2 r0 r1\nst r0 r2\n";

#[test]
fn looks_before_and_after_the_work(rt: HostRuntime) -> Result<(), Fail> {
    let (board, mut seat) = opened_for(&rt, BELOW_ZERO, 1)?;
    board.facts();
    seat.facts();
    assert!(rt; seen(&board, &mut seat, 0) == at(0, None, 0, 0));
    let (mut seat, mut other) = board.split(seat);
    let stay = board.work(&mut seat, &mut Worker::start(0), &Open, None);
    assert!(rt; stay == Stay::Ended(Ended::Done));
    // The other seat hears it from the words.
    assert!(rt; seen(&board, &mut other, 0) == at(3, None, 3, 4294967295));
    let mut joined = board.join(other, seat);
    assert!(rt; seen(&board, &mut joined, 0) == at(3, None, 3, 4294967295));
    Ok(())
}

// Goes on by at least one step at a time, and tells how often the worker stopped.
fn stops_by_turns(board: &Board, seat: &mut Seat, worker: &mut Worker) -> u32
    requires works { Works board.now seat.old worker.old }
    ensures works { Works board.now seat.new worker.new }
{
    for calls in 0..1000 {
        if board.work_turns(seat, worker, &Open, 1) != Stay::Stopped {
            return calls;
        }
    }
    1000
}

// It ends as one without a limit.
#[test]
fn turns_go_on_where_they_stopped(rt: HostRuntime) -> Result<(), Fail> {
    let (board, seat) = opened_for(&rt, BELOW_ZERO, 1)?;
    let mut hand = starting(&board, seat, 0);
    let stops = stops_by_turns(&board, &mut hand.seat, &mut hand.worker);
    assert!(rt; 9 < stops && stops < 1000);
    let stay = board.work_turns(&mut hand.seat, &mut hand.worker, &Open, 1);
    assert!(rt; stay == Stay::Ended(Ended::Done));
    assert!(rt; seen(&board, &mut hand.seat, 0) == at(3, None, 3, 4294967295));
    Ok(())
}

#[test]
fn a_job_without_steps(rt: HostRuntime) -> Result<(), Fail> {
    let text = b"pram 1\ncells 1\nprocs 1\nsteps 0\ninit 0 5\ncode\nhalt\n";
    let job = read_job(rt.alloc(), text)?;
    let (board, mut seat) = Board::open_wide(rt.alloc(), &job, 64)?;
    assert!(rt; seen(&board, &mut seat, 0) == at(0, None, 0, 5));
    let mut last = starting(&board, seat, 63);
    let answer = finished(rt.alloc(), &board, &mut last.seat, &mut last.worker)?;
    assert!(rt; answer.as_str() == "[5]");
    Ok(())
}

// Counts the passes of worker 0 that come with the right number of steps.
#[derive(Drop)]
struct Counting {
    passes: AtomicU64,
}

impl Gate for Counting {
    fn pass(&self, worker: u32, tick: u64) {
        if worker == 0 && self.passes.load(Ordering::SeqCst) == tick {
            self.passes.fetch_add(1, Ordering::SeqCst);
        }
    }
}

// How a worker stays at a board, and how often it passes its gate, each time with the steps that it
// has made.
fn passes(board: &Board, seat: &mut Seat, limit: Option<u64>) -> (Stay, u64)
    requires seat { seat.old.desk ≡ board.now }
    requires worker { 0 < board.now.task.layout.workers }
    ensures { seat.new.desk ≡ board.now }
{
    let gate = Counting {
        passes: AtomicU64::new(0),
    };
    let stay = board.work(seat, &mut Worker::start(0), &gate, limit);
    (stay, gate.passes.load(Ordering::SeqCst))
}

// Processors 1 and 3 write 1 and 3 to cell 4 in step 5.
const DISPUTED: &[u8] = b"pram 1\ncells 5\nprocs 4\nsteps 5\ninit 1 1\ninit 3 1\ncode\n\
    pid r0\nld r1 r0\njz r1 end\nset r2 4\nst r2 r0\nend: halt\n";

// It passes it before each atomic step: the last one ends the worker.
#[test]
fn a_gate_is_passed_before_each_step(rt: HostRuntime) -> Result<(), Fail> {
    let (board, mut seat) = opened_for(&rt, DISPUTED, 5)?;
    let (stay, passes) = passes(&board, &mut seat, None);
    assert!(rt; stay == Stay::Ended(Ended::Conflict(5)));
    let (board, mut seat) = opened_for(&rt, DISPUTED, 5)?;
    let mut worker = Worker::start(0);
    let stay = board.work(&mut seat, &mut worker, &Open, passes.checked_sub(1));
    assert!(rt; stay == Stay::Stopped);
    assert!(rt; board.tick(&mut seat, &mut worker) == Some(Ended::Conflict(5)));
    Ok(())
}

// So it is by turns.
#[test]
fn a_gate_is_passed_before_each_step_of_turns(rt: HostRuntime) -> Result<(), Fail> {
    let (board, mut seat) = opened_for(&rt, DISPUTED, 5)?;
    let (_, passes) = passes(&board, &mut seat, None);
    let (board, mut seat) = opened_for(&rt, DISPUTED, 5)?;
    let gate = Counting {
        passes: AtomicU64::new(0),
    };
    let stay = board.work_turns(&mut seat, &mut Worker::start(0), &gate, u64::MAX);
    assert!(rt; stay == Stay::Ended(Ended::Conflict(5)));
    assert!(rt; gate.passes.load(Ordering::SeqCst) == passes);
    Ok(())
}

// The worker comes back where its position says: one that lost its place would make more steps.
#[test]
fn a_position_that_was_stored_is_found(rt: HostRuntime) -> Result<(), Fail> {
    let job = read_job(
        rt.alloc(),
        b"pram 1\ncells 2\nprocs 2\nsteps 1\ncode\npid r0\n",
    )?;
    let (board, mut seat) = Board::open(rt.alloc(), &job, 1)?;
    assert!(rt; passes(&board, &mut seat, Some(15)) == (Stay::Stopped, 15));
    let mut first = back(&board, seat, 0);
    let stay = board.work(&mut first.seat, &mut first.worker, &Open, Some(88));
    assert!(rt; stay == Stay::Stopped);
    assert!(rt; board.tick(&mut first.seat, &mut first.worker) == Some(Ended::Done));
    Ok(())
}

// Two processors write to cell 4 in step 5, which is against the rule.
const CREW: &[u8] = b"pram 2\ncells 5\nprocs 4\nsteps 5\nrule crew\ninit 1 1\ninit 3 1\ncode\n\
    pid r0\nld r1 r0\njz r1 end\nset r2 4\nst r2 r1\nend: halt\n";

// Step 5 is against the rule: the memory after step 4 stays readable.
fn look_after_conflict<R: AllocGlobal + Abort>(rt: &R, text: &[u8]) -> Result<(), Fail> {
    let (board, seat) = opened_for(rt, text, 5)?;
    let (mut seat, mut other) = board.split(seat);
    let answer = finished(rt.alloc(), &board, &mut seat, &mut Worker::start(0))?;
    assert!(rt; answer.as_str() == "conflict 5 4 1 3");
    assert!(rt; seen(&board, &mut seat, 4) == at(4, Some(5), 4, 0));
    assert!(rt; seen(&board, &mut other, 4) == at(4, Some(5), 4, 0));
    Ok(())
}

#[test]
fn looks_after_a_conflict(rt: HostRuntime) -> Result<(), Fail> {
    look_after_conflict(&rt, DISPUTED)?;
    look_after_conflict(&rt, CREW)
}

// The cell is written in steps 3, 5, 7 and 8.
const EIGHT_STEPS: &[u8] = b"pram 1\ncells 1\nprocs 1\nsteps 8\ncode\n\
    set r1 30\nset r2 50\nst r0 r1\nset r1 70\nst r0 r2\nset r2 80\nst r0 r1\nst r0 r2\n";

// What the cell holds after each step.
const AFTER_STEPS: [u32; 9] = [0, 0, 0, 30, 30, 50, 50, 70, 80];

// Whether a read tells what the cell holds after its step, which is that of the read before or the
// next one.
fn is_next(reading: Reading, seen: u32) -> bool {
    let Reading::At { step, value } = reading;
    (step == seen || step.checked_sub(1) == Some(seen))
        && AFTER_STEPS.get(step as usize) == Some(&value)
}

// Reads cell 0 before each atomic step of a worker, until that is over: each read tells what the
// cell holds after its step, and no step is left out. It answers the step of the last read.
fn read_beside(
    rt: &impl Abort,
    board: &Board,
    reader: &mut Seat,
    seat: &mut Seat,
    worker: &mut Worker,
) -> u32
    requires cell { 0 < board.now.task.job.cells }
    requires reader { reader.old.desk ≡ board.now }
    requires works { Works board.now seat.old worker.old }
{
    let mut seen = 0;
    for _ in 0..2000 {
        let reading = board.read(reader, 0);
        assert!(rt; is_next(reading, seen));
        let Reading::At { step, .. } = reading;
        seen = step;
        if board.tick(seat, worker).is_some() {
            return seen;
        }
    }
    panic!(rt; "not over")
}

#[test]
fn reads_between_the_steps_of_a_worker(rt: HostRuntime) -> Result<(), Fail> {
    let (board, seat) = opened_for(&rt, EIGHT_STEPS, 1)?;
    let (mut seat, mut reader) = board.split(seat);
    let last = read_beside(&rt, &board, &mut reader, &mut seat, &mut Worker::start(0));
    assert!(rt; last == 8);
    Ok(())
}

// A write of step 2 stands in the cell, and step 2 is not finished.
#[test]
fn a_read_beside_a_write_sees_the_older_value(rt: HostRuntime) -> Result<(), Fail> {
    let text = b"pram 1\ncells 1\nprocs 1\nsteps 2\ninit 0 4\ncode\nset r1 7\nst r0 r1\n";
    let (board, seat) = opened_for(&rt, text, 1)?;
    let (mut seat, mut reader) = board.split(seat);
    let stay = board.work(&mut seat, &mut Worker::start(0), &Open, Some(53));
    assert!(rt; stay == Stay::Stopped);
    assert!(rt; board.read(&mut reader, 0) == (Reading::At { step: 1, value: 4 }));
    Ok(())
}
