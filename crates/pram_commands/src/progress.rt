//! How far a board is, told beside its workers.
ghost use Rattle.std.specs.Prelude.{◌≡◌, ◌++◌, Some, codes};
ghost use Rattle.pram_commands.specs.Progress.{TellsProgress, progress_text};

use command_data::Telling;
use pram_board::{Board, Seat};
use pram_run::Shared;
use std::rt::Clock;
use std::sync::atomic::{AtomicBool, Ordering};
use std::thread::Scope;
use std::time::Duration;
use std::{fmt, thread};

/// The sleep between two looks at whether the work is done, in milliseconds.
const NAP: u64 = 10;

/// How many sleeps lie between two looks at the board.
const NAPS: u64 = 25;

/// How many sleeps the end of a run waits for a line to be wiped.
const WAITS: u64 = 20;

/// How far a board is, as standard error tells it.
#[derive(Clone, Copy, Debug, PartialEq, Eq)]
pub(crate) struct ProgressLine {
    step: u32,
    steps: u32,
}

impl fmt::Display for ProgressLine {
    ghost output = { λ line. Some (progress_text line) };

    fn fmt<W: fmt::Write>(&self, f: &mut fmt::Formatter<W>) -> fmt::Result {
        write!(f, "step {} of {}", self.step, self.steps)
    }
}

/// A line of progress that is written over the one before it.
#[derive(Clone, Copy, Debug, PartialEq, Eq)]
struct Rewritten(ProgressLine);

impl fmt::Display for Rewritten {
    ghost output = { λ line. Some (codes "\r" ++ progress_text line.0) };

    fn fmt<W: fmt::Write>(&self, f: &mut fmt::Formatter<W>) -> fmt::Result {
        write!(f, "\r{}", self.0)
    }
}

/// Wipes the line that the cursor is in.
const WIPE: &str = "\r\x1b[K";

/// Who tells how far a board of a job of so many steps is.
#[derive(Drop)]
pub struct Teller {
    pub telling: Telling,
    pub steps: u32,
    done: AtomicBool,
    wiped: AtomicBool,
}

impl Teller {
    pub fn new(telling: Telling, steps: u32) -> Teller
        ensures telling { result.telling ≡ telling }
        ensures steps { result.steps ≡ steps }
    {
        Teller {
            telling,
            steps,
            done: AtomicBool::new(false),
            wiped: AtomicBool::new(false),
        }
    }

    /// The work is done, and there is no more to tell.
    pub fn stop(&self) {
        self.done.store(true, Ordering::SeqCst);
    }

    /// The work is done, and an answer is printed next: a line that is rewritten has to be wiped
    /// first. It waits for that a fifth of a second at most, since standard error may be held up.
    pub fn end<R: Clock>(&self, rt: &R) {
        self.stop();
        if self.telling != Telling::OneLine {
            return;
        }
        for _ in 0..WAITS {
            if self.wiped.load(Ordering::SeqCst) {
                return;
            }
            nap(rt);
        }
    }

    fn is_done(&self) -> bool {
        self.done.load(Ordering::SeqCst)
    }

    // Sleeps until the next look at the board is due, or the work is done.
    fn rest<R: Clock>(&self, rt: &R) {
        for _ in 0..NAPS {
            nap(rt);
            if self.is_done() {
                return;
            }
        }
    }
}

fn nap<R: Clock>(rt: &R) {
    thread::sleep(rt, Duration::from_millis(NAP));
}

/// Starts a thread of the scope that tells on standard error how far the run's board is, until the
/// work is done; a silent teller starts none, and one whose thread is refused tells nothing. It
/// asks about four times a second, and tells each step once.
pub(crate) fn start_teller<'s, E, R: Clock + Eprint + Sync, G>(
    scope: &Scope<'s, E>,
    rt: &'s R,
    shared: &Shared<'s, G>,
    seat: Seat,
    teller: &'s Teller,
) -> Seat
    requires seat { seat.desk ≡ shared.now.board.now }
    requires steps { teller.now.steps ≡ shared.now.board.now.task.job.steps }
    ensures { result ≡ seat }
{
    if teller.telling == Telling::Silent {
        return seat;
    }
    let board = shared.board;
    let (seat, theirs) = board.split(seat);
    let tell = move || -> ()
        requires seat { theirs.desk ≡ board.now }
        requires steps { teller.now.steps ≡ board.now.task.job.steps }
    { tell_steps(rt, board, theirs, teller) };
    if scope.spawn(tell).is_err() {
        teller.wiped.store(true, Ordering::SeqCst);
    }
    seat
}

/// Tells the line whenever it has changed, until the work is done. Where standard error fails, that
/// is all.
pub fn tell_steps<R: Clock + Eprint>(rt: &R, board: &Board, mut seat: Seat, teller: &Teller)
    requires seat { seat.desk ≡ board.now }
    requires steps { teller.now.steps ≡ board.now.task.job.steps }
{
    let mut told = None;
    for _ in 0..u64::MAX {
        if teller.is_done() {
            break;
        }
        told = Some(tell_news(rt, board, &mut seat, teller, told));
        teller.rest(rt);
    }
    wipe(rt, teller);
}

// Looks at the board, and tells the line unless it was told last.
fn tell_news<R: Eprint>(
    rt: &R,
    board: &Board,
    seat: &mut Seat,
    teller: &Teller,
    told: Option<ProgressLine>,
) -> ProgressLine
    requires seat { seat.old.desk ≡ board.now }
    requires steps { teller.now.steps ≡ board.now.task.job.steps }
    ensures tells { TellsProgress board.now.task seat.old seat.new result }
    ensures desk { seat.new.desk ≡ board.now }
{
    let line = progress_line(board, seat, teller.steps);
    if told != Some(line) {
        tell_line(rt, teller.telling, line);
    }
    line
}

fn tell_line<R: Eprint>(rt: &R, telling: Telling, line: ProgressLine) {
    let _ = match telling {
        Telling::OneLine => rt.eprint(Rewritten(line)),
        Telling::Silent | Telling::Lines => rt.eprintln(line),
    };
}

fn wipe<R: Eprint>(rt: &R, teller: &Teller) {
    if teller.telling == Telling::OneLine {
        let _ = rt.eprint(WIPE);
        teller.wiped.store(true, Ordering::SeqCst);
    }
}

/// Looks at the board, and gives the line to tell.
fn progress_line(board: &Board, seat: &mut Seat, steps: u32) -> ProgressLine
    requires seat { seat.old.desk ≡ board.now }
    requires steps { steps ≡ board.now.task.job.steps }
    ensures tells { TellsProgress board.now.task seat.old seat.new result }
    ensures desk { seat.new.desk ≡ board.now }
{
    ProgressLine {
        step: board.progress(seat).step,
        steps,
    }
}
