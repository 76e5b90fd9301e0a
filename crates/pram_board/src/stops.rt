//! After which step the processors of a board whose job has come to its end had stopped.
ghost use Rattle.std.specs.Prelude.{◌≡◌, ◌≢◌, ◌<◌, ◌≤◌, ◌∷◌, [], length, slice_get, IfNone};
ghost use Rattle.std.specs.Prelude.{IfSome, MatchOption, Some};
ghost use Rattle.pram_job.specs.Job.{IsInstr};
ghost use Rattle.pram_machine.specs.Machine.{counter, halted};
ghost use Rattle.pram_step.specs.Runs.{state_after};
ghost use Rattle.walk_memory.specs.Learned.{newest_of, learned_own};
ghost use Rattle.walk_memory.specs.Memory.{asked, own_after, own_at, settled_at};
ghost use Rattle.pram_board.specs.Inner.Ends.{EndsThere};

use crate::board::Board;
use crate::seat::Seat;
use pram_job::{Instr, Job};
use pram_machine::{Put, decided_by};
use pram_words::{Form, newer, payload, stamp};
use walk_memory::{Own, is_load};
use walkx::Op;

impl Board {
    ghost use Rattle.std.specs.Prelude.{◌≡◌, ◌<◌, IfNone, IfSome};
    ghost use Rattle.pram_words.specs.Words.{places_of};
    ghost use Rattle.walk_memory.specs.Blocks.{IsWide};
    ghost use Rattle.walk_memory.specs.Memory.{own_at, settled_at};
    ghost use Rattle.lawful_walk.specs.Lands.{settled};
    ghost use Rattle.lawful_walk.specs.Seen.{KnowsStep};
    ghost use Rattle.pram_board.specs.Seats.{HasLoaded, HasSeen, IsLater};
    ghost use Rattle.pram_board.specs.Stops.{EndsApart, StopsThere};

    /// The step after which all processors had stopped, each at its end. The seat is to have seen
    /// the last step. None where some processor is not at its end then; and in the compact form,
    /// whose words do not tell. It takes ten loads a processor, or fewer, and no memory. Each
    /// processor goes on alone from where its words tell that it was, by 64 steps at most.
    pub fn stop(&self, seat: &mut Seat) -> Option<u32>
        requires desk { seat.old.desk ≡ self.now }
        requires knows { HasSeen self.now.task.layout seat.old.record_of self.now.task.job.steps }
        ensures stops { IfSome result (StopsThere self.now.task.job) }
        ensures none { IfNone result (IsWide self.now.task.layout.form
            → EndsApart self.now.task.job) }
        ensures later { IsLater self.now seat.old seat.new }
    {
        match self.task.layout.form() {
            Form::Compact => None,
            Form::Wide(_) => self.last_stop(seat),
        }
    }

    // The same in the wide form.
    fn last_stop(&self, seat: &mut Seat) -> Option<u32>
        requires desk { seat.old.desk ≡ self.now }
        requires knows { HasSeen self.now.task.layout seat.old.record_of self.now.task.job.steps }
        requires wide { IsWide self.now.task.layout.form }
        ensures stops { IfSome result (StopsThere self.now.task.job) }
        ensures none { IfNone result (EndsApart self.now.task.job) }
        ensures later { IsLater self.now seat.old seat.new }
    {
        self.facts();
        seat.facts();
        let mut last: u32 = 0;
        for i in 0..self.task.job.procs() {
            let (since, own) = self.told(seat, i);
            let stop = stop_alone(&self.task.job, i, since, own)?;
            last = last.max(stop);
        }
        Some(last)
    }

    // The step in which processor i last settled, and what was its own after it.
    fn told(&self, seat: &mut Seat, i: u32) -> (u32, Own)
        requires desk { seat.old.desk ≡ self.now }
        requires knows { KnowsStep self.now.task.layout seat.old.record_of
            self.now.task.job.steps }
        requires wide { IsWide self.now.task.layout.form }
        requires processor { i < self.now.task.job.procs }
        ensures since { result.0 ≡ settled_at self.now.task.job self.now.task.job.steps i }
        ensures own { result.1 ≡ own_at self.now.task.job result.0 i }
        ensures loads { HasLoaded 10 seat.old seat.new }
    {
        self.facts();
        let job = &self.task.job;
        let counter = self.settled_word(seat, job.counter_place(i));
        let first = self.settled_word(seat, job.register_place(i, 0));
        let second = self.settled_word(seat, job.register_place(i, 1));
        let third = self.settled_word(seat, job.register_place(i, 2));
        let fourth = self.settled_word(seat, job.register_place(i, 3));
        told_by(counter, first, second, third, fourth)
    }

    // The last word that was written of a place.
    fn settled_word(&self, seat: &mut Seat, place: u32) -> u64
        requires desk { seat.old.desk ≡ self.now }
        requires knows { KnowsStep self.now.task.layout seat.old.record_of
            self.now.task.job.steps }
        requires place { place < places_of self.now.task.layout }
        ensures value { result ≡ settled self.now.task.layout.form self.now.task.job
            self.now.task.job.steps place }
        ensures loads { HasLoaded 2 seat.old seat.new }
        ensures desk { seat.new.desk ≡ self.now }
        ensures knows { KnowsStep self.now.task.layout seat.new.record_of
            self.now.task.job.steps }
    {
        self.facts();
        let word = self.task.layout.place_word(place);
        let first = self.step(seat, Op::Load(word));
        let second = self.step(seat, Op::Load(word + 1));
        newer(first, second)
    }
}

// What these words tell, a counter's first, and the step after which it was so.
fn told_by(counter: u64, first: u64, second: u64, third: u64, fourth: u64) -> (u32, Own)
    ensures since { result.0 ≡ newest_of (counter ∷ first ∷ second ∷ third ∷ fourth ∷ []) }
    ensures own { result.1 ≡ learned_own (counter ∷ first ∷ second ∷ third ∷ fourth ∷ []) }
{
    let own = Own {
        counter: payload(counter),
        registers: [
            payload(first),
            payload(second),
            payload(third),
            payload(fourth),
        ],
    };
    let late = stamp(third).max(stamp(fourth));
    let early = stamp(first).max(stamp(second));
    (stamp(counter).max(early).max(late), own)
}

// The step after which processor i had stopped at its end, if it has, where this was its own after
// the step in which it last settled.
fn stop_alone(job: &Job, i: u32, since: u32, told: Own) -> Option<u32>
    requires processor { i < job.now.procs }
    requires since { since ≡ settled_at job.now job.now.steps i }
    requires told { told ≡ own_at job.now since i }
    ensures stops { IfSome result (EndsThere job.now i) }
    ensures none { IfNone result (counter job.now (state_after job.now job.now.steps) i
        ≢ halted job.now) }
{
    job.limits_hold();
    let last = job.steps().min(since.saturating_add(64));
    let mut own = told;
    for step in since..last {
        match fetch(job, own.counter) {
            None => return stop_at(job, step, own.counter),
            Some(instr) => {
                if is_load(instr) {
                    return None;
                }
                go_on(job, i, &mut own, instr);
            }
        }
    }
    stop_at(job, last, own.counter)
}

// The instruction at a counter, if there is one.
fn fetch(job: &Job, counter: u32) -> Option<&Instr>
    ensures value { MatchOption result (length job.now.code ≤ counter)
        (λ instr. slice_get job.now.code counter ≡ Some instr.now) }
    ensures fits { IfSome result (λ instr. (counter < length job.now.code)
        × IsInstr job.now.cells (length job.now.code) instr.now) }
{
    job.code().get(counter as usize)
}

// This step, if the counter says that a processor is at its end.
fn stop_at(job: &Job, step: u32, counter: u32) -> Option<u32>
    ensures some { IfSome result (λ stop. (stop ≡ step) × (counter ≡ halted job.now)) }
    ensures none { IfNone result (counter ≢ halted job.now) }
{
    if counter as usize == job.code().len() {
        Some(step)
    } else {
        None
    }
}

// A step of processor i by this instruction, which reads no cell.
fn go_on(job: &Job, i: u32, own: &mut Own, instr: &Instr)
    requires processor { i < job.now.procs }
    requires counter { own.old.counter < length job.now.code }
    requires code { slice_get job.now.code own.old.counter ≡ Some instr.now }
    requires instr { IsInstr job.now.cells (length job.now.code) instr.now }
    ensures { own.new ≡ own_after job.now i own.old (asked job.now i own.old 0) }
{
    job.limits_hold();
    let turn = decided_by(job, i, own.counter, instr, &own.registers, 0);
    if let Put::Register(place, value) = turn.put {
        own.registers[(place - job.register_place(i, 0)) as usize] = value;
    }
    own.counter = turn.next;
}
