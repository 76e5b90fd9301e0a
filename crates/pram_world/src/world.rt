//! The world.
ghost use Rattle.std.specs.Prelude.{◌≡◌, ℕ, ◌<◌, ◌≤◌, IfOk, IfErr, length, slice_index};
ghost use Rattle.std.specs.Prelude.{option_map, slice_get, slice_set};
ghost use Rattle.pram_words.specs.Words.{length_of, places_of};
ghost use Rattle.pram_words.specs.declared.words.Word.TheVariants.{Stored};
ghost use Rattle.pram_job.specs.Job.{JobData};
ghost use Rattle.pram_words.specs.Words.{LayoutData};
ghost use Rattle.walkx.specs.Operations.{words_after};
ghost use Rattle.walkx.specs.Serving.{Serves};
ghost use Rattle.walkx.specs.Walk.{come_back};
ghost use Rattle.lawful_walk.specs.Board.{Grows, held};
ghost use Rattle.pram_world.specs.declared.event.Event.TheVariants.{Go, Stop, Back};
ghost use Rattle.pram_world.specs.Ends.{Finishes, end_in};
ghost use Rattle.pram_world.specs.Inner.Holding.{AreStarted, Held, HearsEffect, IsOnBoard};
ghost use Rattle.pram_world.specs.Inner.Holding.{body_of_runner};
ghost use Rattle.pram_world.specs.Interleavings.{IsInterleaved};
ghost use Rattle.pram_world.specs.Outcomes.{IsWorldOutcome};
ghost use Rattle.pram_world.specs.Standings.{standing_of};
ghost use Rattle.pram_world.specs.Worlds.{IsLawful, IsLawfulThroughout, IsTwinned, KeepsBoard};
ghost use Rattle.pram_world.specs.Worlds.{StaleChangesNothing, as_act, effect_of, going, happens};
ghost use Rattle.pram_world.specs.Worlds.{number as number_of, run, shown, start_compact};

use crate::event::{Effect, Event, Standing};
use crate::outcome::{answer, place_words};
use pram_job::Job;
use pram_step::RunAnswer;
use pram_words::Layout;
use std::alloc::{AllocError, Global};
use std::marker::Model;
use walkx::{Ended, Op, Worker};

/// A worker, or one that was stopped, of which the number is left.
#[derive(Drop)]
pub enum Runner {
    Walks(Worker),
    Stopped(u32),
}

/// Words, and bodies that walk on them: any number of workers in any order, one atomic step at a
/// time. None has a memory.
#[derive(Drop)]
pub struct World {
    alloc: Global,
    job: Job,
    layout: Layout,
    words: Vec<u64>,
    bodies: Vec<Runner>,
}

impl Model for World {
    ghost use Rattle.pram_world.specs.Worlds.{WorldData};
    ghost use Rattle.pram_world.specs.Inner.Holding.{IsWorld, world_of};

    ghost Value = { WorldData };

    ghost view = { λ w. world_of w.job w.layout w.words.items w.bodies.items };

    ghost invariant = { λ w. IsWorld w.job w.layout w.words.items w.bodies.items };
}

const NOTHING: Effect = Effect {
    op: None,
    before: 0,
    after: 0,
};

impl World {
    /// A world with the words of the start and so many bodies, each the worker of its number, newly
    /// started. It takes memory for the words and the bodies, and for a copy of the job.
    pub fn new(alloc: Global, job: &Job, workers: u32) -> Result<World, AllocError>
        requires some { 1 ≤ workers }
        requires most { workers ≤ 64 }
        ensures { IfOk result (λ w. w ≡ start_compact job.now workers) }
    {
        let job = job.try_clone()?;
        let layout = Layout::new(&job, workers);
        let words = layout.start_words(alloc, &job)?;
        let bodies = start_bodies(alloc, workers)?;
        Ok(World {
            alloc,
            job,
            layout,
            words,
            bodies,
        })
    }

    /// Adds a body that is worker w newly started, and gives its number.
    pub fn twin(&mut self, w: u32) -> Result<usize, AllocError>
        requires { w < self.old.layout.workers }
        ensures added { IfOk result (λ b. IsTwinned self.old w b self.new) }
        ensures refused { IfErr result (λ _. self.new ≡ self.old) }
    {
        let number = self.bodies.len();
        self.bodies.push(Runner::Walks(Worker::start(w)))?;
        Ok(number)
    }

    /// What happens. It takes constant time and no memory.
    pub fn event(&mut self, event: Event) -> Effect
        ensures world { self.new ≡ happens self.old event }
        ensures effect { result ≡ shown self.old event }
        ensures board { KeepsBoard self.old self.new }
        ensures lawful { IsLawful self.new }
        ensures grows { Grows self.old.layout self.old.words self.new.words }
        ensures stale { StaleChangesNothing self.old (as_act event) self.new }
    {
        self.invariant_holds();
        match event {
            Event::Go(b) => self.go(b),
            Event::Stop(b) => {
                self.stop(b);
                NOTHING
            }
            Event::Back(b) => {
                self.back(b);
                NOTHING
            }
        }
    }

    /// One event after the other.
    pub fn run_events(&mut self, events: &[Event])
        ensures world { self.new ≡ run self.old events.now }
        ensures board { KeepsBoard self.old self.new }
        ensures lawful { IsLawfulThroughout self.old events.now }
    {
        self.invariant_holds();
        for event in events {
            self.event(*event);
        }
    }

    /// Word k.
    pub fn load(&self, k: u32) -> u64
        requires { k < length_of self.now.layout }
        ensures { result ≡ slice_index self.now.words k }
    {
        self.words[k as usize]
    }

    /// The two words of a place.
    pub fn place_words(&self, place: u32) -> (u64, u64)
        requires { place < places_of self.now.layout }
        ensures first { result.0 ≡ held self.now.layout self.now.words (Stored place 0) }
        ensures second { result.1 ≡ held self.now.layout self.now.words (Stored place 1) }
    {
        place_words(&self.layout, self.words.as_slice(), place)
    }

    /// Whether this body is neither stopped nor over.
    pub fn is_going(&self, b: usize) -> bool
        ensures { result ≡ going self.now b }
    {
        match self.bodies.get(b) {
            Some(Runner::Walks(worker)) => worker.ended().is_none(),
            Some(Runner::Stopped(_)) | None => false,
        }
    }

    /// The job.
    pub fn job(&self) -> &Job
        ensures { result.now ≡ self.now.job }
    {
        &self.job
    }

    /// Where the words lie.
    pub fn layout(&self) -> &Layout
        ensures { result.now ≡ self.now.layout }
    {
        &self.layout
    }

    /// How many bodies there are.
    pub fn count(&self) -> usize
        ensures { result ≡ length self.now.bodies }
    {
        self.bodies.len()
    }

    /// What body b is doing, if there is one of this number.
    pub fn standing(&self, b: usize) -> Option<Standing>
        ensures { result ≡ option_map standing_of (slice_get self.now.bodies b) }
    {
        match self.bodies.get(b)? {
            Runner::Walks(worker) => Some(Standing::Walks {
                worker: worker.number(),
                node: worker.node(),
                activity: worker.activity(),
                heard: worker.heard(),
            }),
            Runner::Stopped(worker) => Some(Standing::Stopped { worker: *worker }),
        }
    }

    /// What holds of a world at every moment, whatever happened to it: its words are lawful and
    /// show the machine, and there is a record of atomic steps that they bear out and that knows
    /// every body. It does nothing.
    pub fn facts(&self)
        ensures lawful { IsLawful self.now }
        ensures interleaved { IsInterleaved self.now }
    {
        self.invariant_holds();
    }

    // Says to a proof what any world keeps: a field that is named brings the type's invariant. It
    // does nothing.
    fn invariant_holds(&self)
        ensures { Held self.now }
    {
        let _ = &self.words;
    }

    /// The conflict that word 0 names, or the cells once the root shows the last step, or the
    /// number of finished steps.
    pub fn outcome(&self) -> Result<RunAnswer, AllocError>
        ensures { IfOk result (IsWorldOutcome self.now) }
    {
        answer(self.alloc, &self.job, &self.layout, self.words.as_slice())
    }

    /// Lets this body make atomic steps until it is over, and gives its end; `None` where no body
    /// has the number, or it is stopped. It takes no memory.
    pub fn finish(&mut self, b: usize) -> Option<Ended>
        ensures finishes { Finishes self.old b self.new result }
        ensures board { KeepsBoard self.old self.new }
    {
        self.invariant_holds();
        let mut made: u64 = 0;
        loop {
            if !self.is_going(b) {
                return self.ended(b);
            }
            self.go(b);
            made += 1;
        }
    }

    fn ended(&self, b: usize) -> Option<Ended>
        ensures { result ≡ end_in self.now b }
    {
        match self.bodies.get(b) {
            Some(Runner::Walks(worker)) => worker.ended(),
            Some(Runner::Stopped(_)) | None => None,
        }
    }

    fn go(&mut self, b: usize) -> Effect
        ensures world { self.new ≡ happens self.old (Go b) }
        ensures effect { result ≡ shown self.old (Go b) }
    {
        if b >= self.bodies.len() {
            return NOTHING;
        }
        match &mut self.bodies[b] {
            Runner::Stopped(_) => NOTHING,
            Runner::Walks(worker) => {
                let op = worker.ask(&self.job, &self.layout);
                let effect = make(&mut self.words, op);
                worker.tell(&self.job, &self.layout, heard(effect));
                effect
            }
        }
    }

    fn stop(&mut self, b: usize)
        ensures { self.new ≡ happens self.old (Stop b) }
    {
        if b < self.bodies.len() {
            let number = number(&self.bodies[b]);
            put(&mut self.bodies, b, Runner::Stopped(number));
        }
    }

    fn back(&mut self, b: usize)
        ensures { self.new ≡ happens self.old (Back b) }
    {
        if b < self.bodies.len() {
            let worker = returning(&self.bodies[b]);
            put(&mut self.bodies, b, Runner::Walks(worker));
        }
    }
}

// Body b becomes this one.
fn put(bodies: &mut Vec<Runner>, b: usize, body: Runner)
    requires { b < length bodies.old.items }
    ensures { bodies.new.items ≡ slice_set bodies.old.items b body }
{
    bodies[b] = body;
}

// The number of the worker that a body is, or was.
fn number(body: &Runner) -> u32
    ensures { result ≡ number_of (body_of_runner body.now) }
{
    match body {
        Runner::Walks(worker) => worker.number(),
        Runner::Stopped(number) => *number,
    }
}

// The worker of a body's number, coming back.
fn returning(body: &Runner) -> Worker
    ensures value { result.walking ≡ come_back (number_of (body_of_runner body.now)) }
    ensures serves { (job : JobData) (y : LayoutData) →
        number_of (body_of_runner body.now) < y.workers → Serves job y result }
{
    Worker::back(number(body))
}

// Makes an operation on the words.
fn make(words: &mut Vec<u64>, op: Op) -> Effect
    requires { IsOnBoard (length words.old.items) op }
    ensures words { words.new.items ≡ words_after words.old.items op }
    ensures effect { result ≡ effect_of words.old.items op }
{
    match op {
        Op::Load(k) => {
            let found = words[k as usize];
            shows(op, found, found)
        }
        Op::Store(k, value) => {
            let before = words[k as usize];
            words[k as usize] = value;
            shows(op, before, value)
        }
        Op::Max(k, value) => {
            let before = words[k as usize];
            let after = before.max(value);
            words[k as usize] = after;
            shows(op, before, after)
        }
        Op::Swap(k, old, new) => {
            let before = words[k as usize];
            let after = if before == old { new } else { before };
            words[k as usize] = after;
            shows(op, before, after)
        }
        Op::Over(_) => NOTHING,
    }
}

fn shows(op: Op, before: u64, after: u64) -> Effect
    ensures { result ≡ record { op = Some op; before = before; after = after } }
{
    Effect {
        op: Some(op),
        before,
        after,
    }
}

// What a worker hears of its step.
fn heard(effect: Effect) -> u64
    ensures { HearsEffect effect result }
{
    match effect.op {
        None | Some(Op::Store(_, _)) => 0,
        Some(_) => effect.before,
    }
}

// Newly started workers, one for each number below the count.
fn start_bodies(alloc: Global, workers: u32) -> Result<Vec<Runner>, AllocError>
    ensures { IfOk result (λ bodies. AreStarted workers bodies.items) }
{
    let mut bodies = Vec::with_capacity(alloc, workers as usize)?;
    for w in 0..workers {
        bodies.push(Runner::Walks(Worker::start(w)))?;
    }
    Ok(bodies)
}
