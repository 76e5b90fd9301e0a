//! Workers over words in a vector, by scripts; and what readers of those words see.
ghost use Rattle.std.specs.Prelude.{◌≡◌, ◌<◌, IfOk};
ghost use Rattle.walkx.specs.Reads.{LooksFit};
ghost use Rattle.walkx.specs.Serving.{FollowsScript, Serves};
ghost use Rattle.walk_memory.specs.Blocks.{IsLayoutOf};

use pram_job::Job;
use pram_machine::Request;
use pram_text::read_job;
use pram_words::{Kind, Layout, phase, stamped};
use std::alloc::{AllocError, Global};
use std::mem;
use std::process::Abort;
use std::test::Fail;
use walkx::{Memory, Op, ReadOp, Reader, Reading, Worker, request_of, seen_step};

const EIGHT_STEPS: &str = "pram 1\ncells 1\nprocs 1\nsteps 8\ncode\n\
    set r1 30\nset r2 50\nst r0 r1\nset r1 70\nst r0 r2\nset r2 80\nst r0 r1\nst r0 r2\n";

// The cell is written in step 2.
pub(crate) const WRITTEN: &str = "pram 1\ncells 1\nprocs 1\nsteps 2\ninit 0 4\ncode\n\
    set r1 7\nst r0 r1\n";

// A phase that no job has.
const NEVER: u64 = u64::MAX;

// A job, and a layout of its board for one worker.
#[derive(Drop)]
pub(crate) struct Bench {
    pub job: Job,
    pub layout: Layout,
    pub ghost is: { IsLayoutOf job layout },
}

// A job with its board for one worker.
fn fresh(alloc: Global, text: &str) -> Result<Bench, Fail>
    ensures { IfOk result (λ bench. bench.layout.workers ≡ 1) }
{
    let job = read_job(alloc, text.as_bytes())?;
    let layout = Layout::new(&job, 1);
    Ok(Bench { job, layout })
}

// A job with a wide board, of blocks of four processors.
fn fresh_block(alloc: Global, text: &str) -> Result<Bench, Fail>
    ensures { IfOk result (λ bench. bench.layout.workers ≡ 1) }
{
    let job = read_job(alloc, text.as_bytes())?;
    let layout = Layout::with_blocks(&job, 1, 4);
    Ok(Bench { job, layout })
}

// The word of this number.
fn word(words: &[u64], k: u32) -> u64 {
    match words.get(k as usize) {
        Some(word) => *word,
        None => 0,
    }
}

// Gives a word this value, and tells the one before it.
fn set_word(words: &mut [u64], k: u32, value: u64) -> u64 {
    match words.get_mut(k as usize) {
        Some(word) => mem::replace(word, value),
        None => 0,
    }
}

// Carries an operation out, and gives the word before it.
fn act(words: &mut [u64], op: Op) -> u64 {
    match op {
        Op::Load(k) => word(words, k),
        Op::Store(k, value) => set_word(words, k, value),
        Op::Max(k, value) => {
            let before = word(words, k);
            set_word(words, k, before.max(value))
        }
        Op::Swap(k, old, new) => {
            let before = word(words, k);
            set_word(words, k, if before == old { new } else { before })
        }
        Op::Over(_) => 0,
    }
}

// Makes one step of a worker: the operation, and the word before it.
fn go(rt: &impl Abort, bench: &Bench, worker: &mut Worker, words: &mut [u64]) -> (Op, u64)
    requires { Serves bench.now.job bench.now.layout worker.old }
    ensures { Serves bench.now.job bench.now.layout worker.new }
{
    let Bench { job, layout } = bench;
    let op = worker.ask(job, layout);
    let before = act(words, op);
    if let Op::Load(k) = op {
        assert!(rt; layout.admits(job, k, before));
    }
    worker.tell(job, layout, before);
    (op, before)
}

// Makes steps of a worker until it is over, or word 1 holds this: how many.
fn run(rt: &impl Abort, bench: &Bench, worker: &mut Worker, words: &mut [u64], root: u64) -> u32
    requires { Serves bench.now.job bench.now.layout worker.old }
    ensures { Serves bench.now.job bench.now.layout worker.new }
{
    for made in 0..1000 {
        if worker.ended().is_some() || word(words, 1) == root {
            return made;
        }
        go(rt, bench, worker, words);
    }
    1000
}

// Makes so many steps of a worker.
fn make(rt: &impl Abort, bench: &Bench, worker: &mut Worker, words: &mut [u64], most: u32)
    requires { Serves bench.now.job bench.now.layout worker.old }
    ensures { Serves bench.now.job bench.now.layout worker.new }
{
    for _ in 0..most {
        go(rt, bench, worker, words);
    }
}

// Makes so many steps of a worker, and tells each operation with the word before it.
fn tell(
    rt: &(impl AllocGlobal + Abort),
    bench: &Bench,
    worker: &mut Worker,
    words: &mut [u64],
    most: u32,
) -> Result<String, AllocError>
    requires { Serves bench.now.job bench.now.layout worker.old }
    ensures { Serves bench.now.job bench.now.layout worker.new }
{
    let mut told = String::new(rt.alloc());
    for _ in 0..most {
        let (op, before) = go(rt, bench, worker, words);
        push(rt, &mut told, op, before)?;
    }
    Ok(told)
}

fn push(rt: &impl AllocGlobal, told: &mut String, op: Op, before: u64) -> Result<(), AllocError> {
    told.push_str(format!(in rt.alloc(); "{op:?} {before}, ")?.as_str())
}

// What a part of a script tells: `N!` makes N steps and tells them, `N` makes them alone, `at`
// tells what the worker does, and `over` how many steps it makes until it is over.
fn play(
    rt: &(impl AllocGlobal + Abort),
    bench: &Bench,
    worker: &mut Worker,
    words: &mut [u64],
    part: &str,
) -> Result<String, Fail>
    requires { Serves bench.now.job bench.now.layout worker.old }
    ensures { Serves bench.now.job bench.now.layout worker.new }
{
    if let Some(count) = part.strip_suffix('!') {
        Ok(tell(rt, bench, worker, words, count.parse()?)?)
    } else if let Ok(count) = part.parse() {
        make(rt, bench, worker, words, count);
        Ok(String::new(rt.alloc()))
    } else if part == "at" {
        Ok(format!(in rt.alloc(); "{:?}, ", worker.activity())?)
    } else {
        let made = run(rt, bench, worker, words, NEVER);
        let asked = worker.ask(&bench.job, &bench.layout);
        Ok(format!(in rt.alloc(); "{made} {asked:?}")?)
    }
}

// What a script of worker 0, with a memory of so many processors, tells. At `back` it is lost, and
// comes back.
fn told(
    rt: &(impl AllocGlobal + Abort),
    bench: &Bench,
    size: u32,
    script: &str,
) -> Result<String, Fail>
    requires { bench.now.layout.workers ≡ 1 }
{
    let mut words = bench.layout.start_words(rt.alloc(), &bench.job)?;
    let mut told = String::new(rt.alloc());
    let mut worker = Worker::start_with(0, Memory::of(rt.alloc(), size)?);
    for part in script.split(' ') {
        if part == "back" {
            worker = Worker::back(0);
        } else {
            let played = play(rt, bench, &mut worker, &mut words, part)?;
            told.push_str(played.as_str())?;
        }
    }
    Ok(told)
}

/// What a script tells, on a compact board or on one of blocks of four, there also of a worker that
/// remembers.
pub fn said(
    rt: &(impl AllocGlobal + Abort),
    lay: &str,
    script: &str,
    text: &str,
) -> Result<String, Fail> {
    let bench = if lay == "compact" {
        fresh(rt.alloc(), text)?
    } else {
        fresh_block(rt.alloc(), text)?
    };
    let size = if lay == "remembering" { 4 } else { 0 };
    told(rt, &bench, size, script)
}

// Makes these steps of a reader: each operation, with the word.
fn look(rt: &impl Abort, bench: &Bench, reader: &mut Reader, words: &[u64], looks: &[(u32, u64)])
    requires follows { FollowsScript bench.now.layout reader.old }
    requires fits { LooksFit bench.now.job bench.now.layout reader.old.looking }
    ensures follows { FollowsScript bench.now.layout reader.new }
    ensures fits { LooksFit bench.now.job bench.now.layout reader.new.looking }
{
    for (number, value) in looks {
        let ReadOp::Load(k) = reader.ask(&bench.layout) else {
            panic!(rt; "over");
        };
        let found = word(words, k);
        assert!(rt; bench.layout.admits(&bench.job, k, found));
        reader.tell(&bench.job, &bench.layout, found);
        assert!(rt; k == *number && found == *value);
    }
}

// A write of step 2 stands in the cell, and step 2 is not finished.
pub(crate) fn sees_the_older_value(rt: &impl Abort, bench: &Bench, words: &[u64])
    requires { 0 < bench.now.layout.cells }
{
    let mut reader = Reader::new(0);
    let looks = [(1, phase(2, Kind::Compute)), (6, stamped(2, 7)), (7, 4)];
    look(rt, bench, &mut reader, words, &looks);
    let found = Reading::At { step: 1, value: 4 };
    assert!(rt; reader.ask(&bench.layout) == ReadOp::Over(found));
}

#[test]
fn a_read_beside_a_write_sees_the_older_value(rt: HostRuntime) -> Result<(), Fail> {
    let bench = fresh(rt.alloc(), WRITTEN)?;
    let mut words = bench.layout.start_words(rt.alloc(), &bench.job)?;
    let mut worker = Worker::start(0);
    make(&rt, &bench, &mut worker, &mut words, 53);
    sees_the_older_value(&rt, &bench, words.as_slice());
    Ok(())
}

#[test]
fn a_read_looks_again(rt: HostRuntime) -> Result<(), Fail> {
    let bench = fresh(rt.alloc(), EIGHT_STEPS)?;
    let mut words = bench.layout.start_words(rt.alloc(), &bench.job)?;
    let mut worker = Worker::start(0);
    let sixth = phase(6, Kind::Verify);
    run(&rt, &bench, &mut worker, &mut words, sixth);
    let mut reader = Reader::new(0);
    let looks = [(1, sixth), (0, 0), (6, stamped(3, 30))];
    look(&rt, &bench, &mut reader, words.as_slice(), &looks);
    run(&rt, &bench, &mut worker, &mut words, phase(8, Kind::Verify));
    let looks = [(7, stamped(8, 80)), (6, stamped(7, 70))];
    look(&rt, &bench, &mut reader, words.as_slice(), &looks);
    let found = Reading::At { step: 7, value: 70 };
    assert!(rt; reader.ask(&bench.layout) == ReadOp::Over(found));
    Ok(())
}

#[test]
fn steps_are_seen_and_requests_are_heard(rt: HostRuntime) {
    let early = (seen_step(0, 0), seen_step(4, 0), seen_step(5, 0));
    assert!(rt; early == (0, 1, 1));
    assert!(rt; (seen_step(6, 0), seen_step(6, 2)) == (2, 1));
    let none = Request { put: None, next: 4 };
    assert!(rt; request_of(stamped(1, 0), stamped(1, 0), stamped(1, 4)) == none);
    let some = Request {
        put: Some((0, 9)),
        next: 1,
    };
    assert!(rt; request_of(stamped(1, 1), stamped(1, 9), stamped(1, 1)) == some);
    assert!(rt; Worker::start(0).number() == 0);
}
