//! Lines of progress.
ghost use Rattle.std.specs.Prelude.{◌≡◌};

use pram_board::{Board, Seat};
use pram_commands::{Teller, Telling, tell_steps};
use pram_job::Job;
use pram_run::run;
use pram_text::read_job;
use std::alloc::Global;
use std::cell::RefCell;
use std::fmt::{Display, Write};
use std::io;
use std::rt::Clock;
use std::sync::Wait;
use std::test::Fail;
use std::thread::Threads;
use std::time::Duration;
use stop_plan::{Open, Plan};

const JOB: &[u8] = b"pram 1\ncells 1\nprocs 1\nsteps 2\ncode\nhalt\n";

// A standard error that keeps its text, and a clock at whose sleep the work is done.
#[derive(Drop)]
struct Ends {
    teller: Teller,
    told: RefCell<String>,
}

impl Clock for Ends {
    fn monotonic(&self) -> io::Result<Duration> {
        Ok(Duration::ZERO)
    }

    fn since_1970(&self) -> io::Result<Duration> {
        self.monotonic()
    }

    fn sleep(&self, _duration: Duration) {
        self.teller.stop();
    }
}

impl Eprint for Ends {
    fn eprint<D: Display + Drop>(&self, value: D) -> io::Result<()> {
        if let Ok(mut told) = self.told.try_borrow_mut() {
            let _ = write!(told, "{value}");
        }
        Ok(())
    }

    fn eprintln<D: Display + Drop>(&self, value: D) -> io::Result<()> {
        self.eprint(format_args!("{value}\n"))
    }
}

// What is told of a board at one look.
fn told(alloc: Global, telling: Telling, board: &Board, seat: Seat, steps: u32) -> String
    requires seat { seat.desk ≡ board.now }
    requires steps { steps ≡ board.now.task.job.steps }
{
    let rt = Ends {
        teller: Teller::new(telling, steps),
        told: RefCell::new(String::new(alloc)),
    };
    tell_steps(&rt, board, seat, &rt.teller);
    rt.told.into_inner()
}

// What is told of a board before and after a run on it.
fn told_around<R: Threads + Wait>(
    rt: &R,
    alloc: Global,
    job: &Job,
    board: &Board,
    seat: Seat,
) -> (String, String)
    requires seat { seat.desk ≡ board.now }
    requires job { board.now.task.job ≡ job.now }
    requires workers { board.now.task.layout.workers ≡ 1 }
{
    let (seat, early) = board.split(seat);
    let (seat, late) = board.split(seat);
    let before = told(alloc, Telling::Lines, board, early, job.steps());
    let plan = Plan::empty(alloc, 1);
    let (_seat, _answer) = run(rt, alloc, job, board, seat, &plan, &Open);
    let after = told(alloc, Telling::OneLine, board, late, job.steps());
    (before, after)
}

#[test]
fn the_finished_step_is_told(rt: HostRuntime) -> Result<(), Fail> {
    let job = read_job(rt.alloc(), JOB)?;
    let (board, seat) = Board::open_wide(rt.alloc(), &job, 1)?;
    let (before, after) = told_around(&rt, rt.alloc(), &job, &board, seat);
    assert!(rt; before.as_str() == "step 0 of 2\n");
    assert!(rt; after.as_str() == "\rstep 2 of 2\r\x1b[K");
    Ok(())
}
