//! What a board whose job has come to its end answers.
ghost use Rattle.std.specs.Prelude.{◌≡◌};

use crate::board::Board;
use crate::seat::Seat;
use pram_machine::Request;
use pram_step::{Arrival, Fault, fault_of, go_to};
use pram_words::{Form, newer_payload};
use std::alloc::{AllocError, Global};
use walkx::{Op, request_of};

impl Board {
    ghost use Rattle.std.specs.Prelude.{◌≡◌, ◌≢◌, ℕ, suc, ◌<◌, ◌+◌, ◌*◌, slice_index, IfOk, IfErr};
    ghost use Rattle.pram_step.specs.History.{part_after};
    ghost use Rattle.pram_machine.specs.Instructions.{request_in};
    ghost use Rattle.pram_step.specs.Runs.{IsAnswer, IsFault, state_after};
    ghost use Rattle.pram_step.specs.declared.answer.RunAnswer.TheVariants.{Final};
    ghost use Rattle.pram_words.specs.Forms.{by_form};
    ghost use Rattle.pram_words.specs.Words.{length_of, number_of, places_of};
    ghost use Rattle.pram_words.specs.declared.layout.Form.TheVariants.{Compact};
    ghost use Rattle.pram_words.specs.Stamps.{payload_of, stamp_of};
    ghost use Rattle.pram_words.specs.declared.words.Word.TheVariants.{Conflict, Stored};
    ghost use Rattle.lawful_walk.specs.Moments.{Sound};
    ghost use Rattle.lawful_walk.specs.Seen.{Heard, KnowsStep};
    ghost use Rattle.pram_board.specs.Seats.{HasLoaded, HasSeen, IsLater, KnowsConflict};

    /// What each cell holds after the last step, cell 0 first. The seat is to have seen that step.
    /// It takes two loads a cell; where memory is refused, it takes none.
    pub fn memory(&self, alloc: Global, seat: &mut Seat) -> Result<Vec<u32>, AllocError>
        requires desk { seat.old.desk ≡ self.now }
        requires knows { HasSeen self.now.task.layout seat.old.record_of self.now.task.job.steps }
        ensures cells { IfOk result (λ cells. IsAnswer self.now.task.job (Final cells.items)) }
        ensures loads { IfOk result (λ cells. HasLoaded (2 * self.now.task.job.cells) seat.old
            seat.new) }
        ensures refused { IfErr result (λ refusal. seat.new ≡ seat.old) }
        ensures later { IsLater self.now seat.old seat.new }
    {
        self.facts();
        seat.facts();
        let mut values = Vec::with_capacity(alloc, self.task.job.cells() as usize)?;
        for cell in 0..self.task.job.cells() {
            let value = self.last_value(seat, cell);
            values.push_reserved(value);
        }
        Ok(values)
    }

    /// The first step that is against the rule, and who disputes what in it. The seat is to have
    /// heard that there is one. It takes one load, and in the compact form three more a processor;
    /// where memory is refused, some of them. In the wide form the plain machine makes the steps up
    /// to that one.
    pub fn fault(&self, alloc: Global, seat: &mut Seat) -> Result<Fault, AllocError>
        requires desk { seat.old.desk ≡ self.now }
        requires knows { KnowsConflict self.now.task.layout seat.old.record_of }
        ensures fault { IfOk result (IsFault self.now.task.job) }
        ensures loads { IfOk result (λ fault. HasLoaded (by_form self.now.task.layout.form
            (1 + 3 * self.now.task.job.procs) 1) seat.old seat.new) }
        ensures refused { IfErr result (λ refusal. (n : ℕ) × HasLoaded n seat.old seat.new) }
        ensures later { IsLater self.now seat.old seat.new }
    {
        match self.task.layout.form() {
            Form::Compact => self.asked_fault(alloc, seat),
            Form::Wide(_) => self.replayed_fault(alloc, seat),
        }
    }

    // That of the wide form.
    fn replayed_fault(&self, alloc: Global, seat: &mut Seat) -> Result<Fault, AllocError>
        requires desk { seat.old.desk ≡ self.now }
        requires knows { KnowsConflict self.now.task.layout seat.old.record_of }
        ensures fault { IfOk result (IsFault self.now.task.job) }
        ensures loads { HasLoaded 1 seat.old seat.new }
        ensures later { IsLater self.now seat.old seat.new }
    {
        seat.facts();
        let named = self.named(seat);
        let job = &self.task.job;
        match go_to(alloc, job, named, job.steps())? {
            Arrival::Disputed(fault) => Ok(fault),
            Arrival::Reached(_) | Arrival::TooFar => unreachable!(),
        }
    }

    // That of the compact form, whose request words tell it.
    fn asked_fault(&self, alloc: Global, seat: &mut Seat) -> Result<Fault, AllocError>
        requires desk { seat.old.desk ≡ self.now }
        requires knows { KnowsConflict self.now.task.layout seat.old.record_of }
        requires compact { self.now.task.layout.form ≡ Compact }
        ensures fault { IfOk result (IsFault self.now.task.job) }
        ensures loads { IfOk result (λ fault. HasLoaded (1 + 3 * self.now.task.job.procs) seat.old
            seat.new) }
        ensures refused { IfErr result (λ refusal. (n : ℕ) × HasLoaded n seat.old seat.new) }
        ensures later { IsLater self.now seat.old seat.new }
    {
        seat.facts();
        let mut requests = Vec::with_capacity(alloc, self.task.job.procs() as usize)?;
        let named = self.named(seat);
        for processor in 0..self.task.job.procs() {
            requests.push_reserved(self.request(seat, processor));
        }
        fault_of(alloc, &self.task.job, named, requests.as_slice())
    }

    // The step that word 0 names.
    fn named(&self, seat: &mut Seat) -> u32
        requires { seat.old.desk ≡ self.now }
        ensures is { (u : ℕ) → u ≢ 0 → Heard self.now.task.layout seat.old.record_of Conflict u →
            result ≡ u }
        ensures loads { HasLoaded 1 seat.old seat.new }
        ensures sound { Sound self.now.task.job self.now.task.layout seat.new.record_of }
    {
        self.facts();
        self.step(seat, Op::Load(self.task.layout.conflict_word())) as u32
    }

    // The request of a processor in the step that word 0 was heard to name, after s steps.
    fn request(&self, seat: &mut Seat, processor: u32) -> Request
        requires desk { seat.old.desk ≡ self.now }
        requires compact { self.now.task.layout.form ≡ Compact }
        requires processor { processor < self.now.task.job.procs }
        ensures is { (s : ℕ) → Heard self.now.task.layout seat.old.record_of Conflict (suc s) →
            result ≡ request_in self.now.task.job (state_after self.now.task.job s) processor }
        ensures loads { HasLoaded 3 seat.old seat.new }
        ensures sound { Sound self.now.task.job self.now.task.layout seat.new.record_of }
    {
        let place = self.part(seat, processor, 0);
        let value = self.part(seat, processor, 1);
        let next = self.part(seat, processor, 2);
        request_of(place, value, next)
    }

    // The word of a part of that request.
    fn part(&self, seat: &mut Seat, processor: u32, part: u32) -> u64
        requires desk { seat.old.desk ≡ self.now }
        requires compact { self.now.task.layout.form ≡ Compact }
        requires processor { processor < self.now.task.job.procs }
        requires part { part < 3 }
        ensures is { (s : ℕ) → Heard self.now.task.layout seat.old.record_of Conflict (suc s) →
            (stamp_of result ≡ suc s)
            × (payload_of result ≡ part_after self.now.task.job s processor part) }
        ensures loads { HasLoaded 1 seat.old seat.new }
        ensures sound { Sound self.now.task.job self.now.task.layout seat.new.record_of }
    {
        self.facts();
        self.step(
            seat,
            Op::Load(self.task.layout.request_word(processor, part)),
        )
    }

    // What a cell holds after the last step.
    fn last_value(&self, seat: &mut Seat, cell: u32) -> u32
        requires desk { seat.old.desk ≡ self.now }
        requires knows { KnowsStep self.now.task.layout seat.old.record_of
            self.now.task.job.steps }
        requires cell { cell < self.now.task.job.cells }
        ensures loads { HasLoaded 2 seat.old seat.new }
        ensures value { result ≡ slice_index (state_after self.now.task.job
            self.now.task.job.steps) cell }
        ensures sound { Sound self.now.task.job self.now.task.layout seat.new.record_of }
    {
        self.facts();
        let word = self.cell_word(cell);
        let first = self.step(seat, Op::Load(word));
        let second = self.step(seat, Op::Load(word + 1));
        newer_payload(first, second)
    }

    // The first of the two words of a cell.
    fn cell_word(&self, cell: u32) -> u32
        requires { cell < self.now.task.job.cells }
        ensures first { result ≡ number_of self.now.task.layout (Stored cell 0) }
        ensures second { result + 1 ≡ number_of self.now.task.layout (Stored cell 1) }
        ensures below { result + 1 < length_of self.now.task.layout }
        ensures place { cell < places_of self.now.task.layout }
    {
        self.facts();
        self.task.layout.place_word(cell)
    }
}
