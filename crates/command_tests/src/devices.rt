//! Files and outputs that fail, at each place in turn, and files that are too large.
ghost use Rattle.std.specs.Prelude.{⊤};

use crate::table::{AMPLE, Room, Shelf, answer};
use failing_devices::Drip;
use pram_commands::Folder;
use pram_streams::MOST;
use std::alloc::Global;
use std::process::Abort;
use std::rt::Clock;
use std::sync::Wait;
use std::test::Fail;
use std::thread::Threads;

const JOB: &[u8] = b"pram 1\ncells 5\nprocs 4\nsteps 5\ninit 1 1\ninit 3 1\ncode\n\
    pid r0\nld r1 r0\njz r1 end\nset r2 4\nst r2 r1\nend: halt\n";

/// A job whose replay is short.
const SHORT: &[u8] = b"pram 1\ncells 1\nprocs 1\nsteps 0\ncode\nhalt\n";

const PLAN: &[u8] = b"worker,act,ticks\n0,go,2\n";

/// Words that are answered over these files.
const LINES: &str = "\
pramx check job
pramx plain job
pramx run job --workers 2 --plan plan
pramx replay job --workers 2 --plan plan
";

const REPLAY: &str = "pramx replay job --workers 2 --plan plan";

// The files of these words.
fn shelf_of(words: &str) -> Shelf<'static> {
    let job = job_of(words);
    Shelf { job, plan: PLAN }
}

// The job of these words.
fn job_of(words: &str) -> &'static [u8] {
    if words == REPLAY { SHORT } else { JOB }
}

/// Files that give so many bytes, and then fail.
#[derive(Drop)]
struct Drips {
    job: &'static [u8],
    pulls: usize,
    plan_pulls: usize,
}

impl Folder for Drips {
    type File = Drip<'static>;

    ghost holds = { λ _ _ _. ⊤ };

    fn open(&self, name: &str) -> Drip<'static> {
        if name == "plan" {
            Drip::new(PLAN, self.plan_pulls)
        } else {
            Drip::new(self.job, self.pulls)
        }
    }
}

// Words are answered by this alone on standard error, with this status.
fn expect_refused<R: Abort + Threads + Wait + Clock + Eprint + Sync, F: Folder>(
    rt: &R,
    alloc: Global,
    folder: &F,
    words: &str,
    (status, told): (u8, &str),
) -> Result<(), Fail> {
    let answered = answer(rt, alloc, folder, words, AMPLE)?;
    assert!(rt; answered.is(status, told), "{words}: {told}");
    Ok(())
}

// Nothing is printed where the files fail after so many bytes, and this one is named.
fn expect_failed<R: Abort + Threads + Wait + Clock + Eprint + Sync>(
    rt: &R,
    alloc: Global,
    words: &str,
    (pulls, plan_pulls): (usize, usize),
    told: &str,
) -> Result<(), Fail> {
    let job = job_of(words);
    let drips = Drips {
        job,
        pulls,
        plan_pulls,
    };
    expect_refused(rt, alloc, &drips, words, (4, told))
}

// Where a pull of the job fails nothing is printed.
fn expect_failures<R: Abort + Threads + Wait + Clock + Eprint + Sync>(
    rt: &R,
    alloc: Global,
    words: &str,
) -> Result<(), Fail> {
    for pulls in 0..=job_of(words).len() {
        expect_failed(rt, alloc, words, (pulls, usize::MAX), "file job\n")?;
    }
    Ok(())
}

#[test]
fn nothing_is_printed_where_a_pull_fails(rt: HostRuntime) -> Result<(), Fail> {
    for words in LINES.lines() {
        expect_failures(&rt, rt.alloc(), words)?;
    }
    for pulls in 0..=PLAN.len() {
        expect_failed(&rt, rt.alloc(), REPLAY, (usize::MAX, pulls), "file plan\n")?;
    }
    Ok(())
}

// An output that takes so few bytes took a beginning of the whole.
fn expect_beginning<R: Abort + Threads + Wait + Clock + Eprint + Sync>(
    rt: &R,
    alloc: Global,
    words: &str,
    (whole, count): (&[u8], usize),
) -> Result<(), Fail> {
    let room = Room {
        out: count,
        ..AMPLE
    };
    let shelf = shelf_of(words);
    let taken = answer(rt, alloc, &shelf, words, room)?;
    assert!(rt; taken.out.len() == count && whole.starts_with(&taken.out));
    assert!(rt; taken.status == 4 && taken.err.as_slice() == b"file -\n".as_slice());
    Ok(())
}

fn expect_beginnings<R: Abort + Threads + Wait + Clock + Eprint + Sync>(
    rt: &R,
    alloc: Global,
    words: &str,
) -> Result<(), Fail> {
    let whole = answer(rt, alloc, &shelf_of(words), words, AMPLE)?.out;
    for count in 0..whole.len() {
        expect_beginning(rt, alloc, words, (whole.as_slice(), count))?;
    }
    Ok(())
}

#[test]
fn a_beginning_is_printed_where_a_push_fails(rt: HostRuntime) -> Result<(), Fail> {
    for words in LINES.lines() {
        expect_beginnings(&rt, rt.alloc(), words)?;
    }
    Ok(())
}

#[test]
fn the_status_stays_where_standard_error_fails(rt: HostRuntime) -> Result<(), Fail> {
    let shelf = Shelf {
        job: &JOB[..6],
        plan: PLAN,
    };
    let words = "pramx plain job --explain";
    let answered = answer(&rt, rt.alloc(), &shelf, words, Room { err: 3, ..AMPLE })?;
    assert!(rt; answered.status == 2 && answered.out.is_empty() && answered.err.len() == 3);
    Ok(())
}

// Files of these bytes are refused so.
fn expect_large<R: Abort + Threads + Wait + Clock + Eprint + Sync>(
    rt: &R,
    alloc: Global,
    words: &str,
    (job, plan): (&[u8], &[u8]),
    refusal: (u8, &str),
) -> Result<(), Fail> {
    let shelf = Shelf { job, plan };
    expect_refused(rt, alloc, &shelf, words, refusal)
}

// One byte more is too many, and a text of the greatest size is judged.
#[test]
fn large_files(rt: HostRuntime) -> Result<(), Fail> {
    let alloc = rt.alloc();
    let text = vec![in alloc; b';'; MOST + 1]?;
    let large = text.as_slice();
    for words in LINES.lines() {
        expect_large(&rt, alloc, words, (large, PLAN), (4, "size job\n"))?;
    }
    expect_large(&rt, alloc, REPLAY, (SHORT, large), (4, "size plan\n"))?;
    let most = large.get(..MOST).unwrap_or(&[]);
    let judged = (2, "text line=1 kind=BadHeader\n");
    expect_large(&rt, alloc, "pramx check job", (most, PLAN), judged)
}
