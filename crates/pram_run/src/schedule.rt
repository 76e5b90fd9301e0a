//! A plan obeyed on one thread, over a world.
ghost use Rattle.std.specs.Prelude.{◌≡◌, ℕ, ◌<◌, ◌≤◌, ◌↔◌, List, [], ◌∷◌, true, false};
ghost use Rattle.std.specs.Prelude.{IfOk, OnErr, OnOk, IsErrOf, IsTrue};
ghost use Rattle.pram_world.specs.Worlds.{going};
ghost use Rattle.pram_run.specs.Inner.Progress.{MakesProgress, go_on, one_round, one_step};
ghost use Rattle.pram_run.specs.Inner.Progress.{one_turn};
ghost use Rattle.pram_run.specs.Inner.Underway.{Advances, HasCome, IsReplayUnderWay};
ghost use Rattle.pram_run.specs.Replays.{BeginsReplay, IsReplay, TakesReplay};
ghost use Rattle.pram_run.specs.declared.trace.TraceRow.{TraceRow};

use crate::print::{HEADER, pass_on, put_rows};
use crate::trace::{PART, Trace};
use pram_job::Job;
use pram_step::RunAnswer;
use pram_streams::{PrintFault, Sink, put};
use pram_world::{Event, World};
use std::alloc::{AllocError, Global};
use stop_plan::{Act, Plan, Row};

/// The outcome of a world of so many workers after the plan's schedule, and the atomic steps that
/// were made. It costs constant time for an atomic step, and memory for a row of the trace.
pub fn replay(
    alloc: Global,
    job: &Job,
    workers: u32,
    plan: &Plan,
) -> Result<(RunAnswer, Trace), AllocError>
    requires some { 1 ≤ workers }
    requires most { workers ≤ 64 }
    requires plan { plan.now.workers ≡ workers }
    ensures { IfOk result (λ r. IsReplay job.now plan.now r.0 r.1) }
{
    let mut replaying = Replaying::new(alloc, job, workers, plan)?;
    let mut trace = Trace::new(alloc);
    while replaying.advance(&mut trace)? {}
    let answer = replaying.world.outcome()?;
    Ok((answer, trace))
}

/// The outcome of a replay, whose trace is printed while its steps are made, as `print_trace`
/// prints it: rows go out piece by piece, so that it takes memory for the world and for one piece.
/// Out of memory, a beginning of the trace was printed, as where the sink fails.
pub fn replay_to<W: Sink>(
    alloc: Global,
    sink: &mut W,
    job: &Job,
    workers: u32,
    plan: &Plan,
) -> Result<RunAnswer, PrintFault>
    requires sink { W.has_failed sink.old ≡ false }
    requires some { 1 ≤ workers }
    requires most { workers ≤ 64 }
    requires plan { plan.now.workers ≡ workers }
    ensures ok { IfOk result (TakesReplay job.now plan.now (W.taken sink.old) (W.taken sink.new)) }
    ensures beginning { OnErr result
        (BeginsReplay job.now plan.now (W.taken sink.old) (W.taken sink.new)) }
    ensures failed { IsTrue (W.has_failed sink.new) ↔ IsErrOf result PrintFault.Device }
{
    job.limits_hold();
    let mut replaying = Replaying::new(alloc, job, workers, plan)?;
    put(sink, HEADER.as_bytes())?;
    let mut kept = Trace::new(alloc);
    let mut printed = 0;
    while replaying.advance(&mut kept)? {
        printed = pass_on(alloc, sink, printed, &mut kept)?;
    }
    put_rows(alloc, sink, printed, kept.rows())?;
    let answer = replaying.world.outcome()?;
    Ok(answer)
}

/// A replay under way: its world, the steps that are left of the row that was begun, with their
/// worker, the rows after it, and how many rounds were made.
#[derive(Drop)]
pub(crate) struct Replaying<'a> {
    world: World,
    workers: u32,
    worker: u32,
    ticks: u32,
    rows: &'a [Row],
    rounds: u64,
}

impl<'a> Replaying<'a> {
    fn new(
        alloc: Global,
        job: &Job,
        workers: u32,
        plan: &'a Plan,
    ) -> Result<Replaying<'a>, AllocError>
        requires some { 1 ≤ workers }
        requires most { workers ≤ 64 }
        requires plan { plan.now.workers ≡ workers }
        ensures { IfOk result (λ replaying. HasCome job.now plan.now replaying []) }
    {
        job.limits_hold();
        let world = World::new(alloc, job, workers)?;
        Ok(Replaying {
            world,
            workers,
            worker: 0,
            ticks: 0,
            rows: plan.rows(),
            rounds: 0,
        })
    }

    // Goes on in the plan's schedule, by `PART` steps at most: of the row that was begun, or else
    // it begins the next one, or else it makes a round. Says whether anything was left.
    fn advance(&mut self, trace: &mut Trace) -> Result<bool, AllocError>
        requires { IsReplayUnderWay self.old }
        ensures { IfOk result (Advances self.old trace.old self.new trace.new) }
    {
        if self.ticks > 0 {
            self.obey_part(trace)?;
            return Ok(true);
        }
        match self.rows.split_first() {
            None => self.go_round(trace),
            Some((row, rows)) => {
                self.begin_row(row, rows);
                Ok(true)
            }
        }
    }

    // Makes steps of the row that was begun. Nothing is left of it where its worker is not going.
    fn obey_part(&mut self, trace: &mut Trace) -> Result<(), AllocError>
        requires { 0 < self.old.ticks }
        ensures { OnOk result (Advances self.old trace.old self.new trace.new true) }
    {
        let part = self.ticks.min(PART);
        go(&mut self.world, trace, self.worker, part)?;
        if self.world.is_going(self.worker as usize) {
            self.ticks -= part;
        } else {
            self.ticks = 0;
        }
        Ok(())
    }

    // Begins the next row: its steps are still to be made, and whatever else it asks is done.
    fn begin_row(&mut self, row: &Row, rows: &'a [Row])
        requires none { self.old.ticks ≡ 0 }
        requires next { self.old.rows.now ≡ row.now ∷ rows.now }
        ensures { (trace : List TraceRow) → Advances self.old trace self.new trace true }
    {
        self.rows = rows;
        match row.act {
            Act::Go => {
                self.worker = row.worker;
                self.ticks = row.ticks;
            }
            Act::Sleep => {}
            Act::Back => {
                self.world.event(Event::Back(row.worker as usize));
            }
            Act::Stop => {
                self.world.event(Event::Stop(row.worker as usize));
            }
        }
    }

    // Makes a round, if some worker is neither stopped nor over.
    fn go_round(&mut self, trace: &mut Trace) -> Result<bool, AllocError>
        requires come { IsReplayUnderWay self.old }
        requires row { self.old.ticks ≡ 0 }
        requires rows { self.old.rows.now ≡ [] }
        ensures { IfOk result (Advances self.old trace.old self.new trace.new) }
    {
        if !some_goes(&self.world, self.workers) {
            return Ok(false);
        }
        make_round(&mut self.world, trace, self.workers)?;
        self.rounds += 1;
        Ok(true)
    }
}

// Makes up to so many steps of a worker.
fn go(world: &mut World, trace: &mut Trace, worker: u32, ticks: u32) -> Result<(), AllocError>
    ensures { OnOk result
        (MakesProgress world.old trace.old world.new trace.new (go_on worker ticks)) }
{
    for _ in 0..ticks {
        if !world.is_going(worker as usize) {
            return Ok(());
        }
        step(world, trace, worker)?;
    }
    Ok(())
}

// One step of a worker.
fn step(world: &mut World, trace: &mut Trace, worker: u32) -> Result<(), AllocError>
    ensures { OnOk result
        (MakesProgress world.old trace.old world.new trace.new (one_step worker)) }
{
    let effect = world.event(Event::Go(worker as usize));
    trace.note(worker, effect)
}

// One step of each worker that is neither stopped nor over.
fn make_round(world: &mut World, trace: &mut Trace, workers: u32) -> Result<(), AllocError>
    ensures { OnOk result
        (MakesProgress world.old trace.old world.new trace.new (one_round workers)) }
{
    for worker in 0..workers {
        take_turn(world, trace, worker)?;
    }
    Ok(())
}

// One step of a worker that is neither stopped nor over.
fn take_turn(world: &mut World, trace: &mut Trace, worker: u32) -> Result<(), AllocError>
    ensures { OnOk result
        (MakesProgress world.old trace.old world.new trace.new (one_turn worker)) }
{
    if world.is_going(worker as usize) {
        step(world, trace, worker)
    } else {
        Ok(())
    }
}

// Whether some worker is neither stopped nor over.
fn some_goes(world: &World, workers: u32) -> bool
    ensures some { IsTrue result → (b : ℕ) × (b < workers) × (going world.now b ≡ true) }
    ensures none { result ≡ false → (b : ℕ) → b < workers → going world.now b ≡ false }
{
    for worker in 0..workers {
        if world.is_going(worker as usize) {
            return true;
        }
    }
    false
}
