//! Workers on a board.
ghost use Rattle.std.specs.Prelude.{◌≡◌};

use crate::board::Board;
use crate::driver::Driver;
use crate::seat::Seat;
use crate::until::Until;
use pram_words::Form;
use std::alloc::Global;
use stop_plan::Gate;
use walkx::{Ended, Memory, Op, Worker};

/// How work ended: with the worker, or at the limit.
#[derive(Clone, Copy, Debug, PartialEq, Eq)]
pub enum Stay {
    /// The worker is over.
    Ended(Ended),
    /// The limit was reached, and the worker is not over.
    Stopped,
}

impl Board {
    ghost use Rattle.std.specs.Prelude.{◌≡◌, None, length};
    ghost use Rattle.walk_memory.specs.Memory.{blank};
    ghost use Rattle.walkx.specs.Walk.{end_of};
    ghost use Rattle.pram_board.specs.Inner.Next.{IsNextOperation};
    ghost use Rattle.pram_board.specs.Inner.Until.{StaysUntil, limit_in};
    ghost use Rattle.pram_board.specs.Seats.{IsLater};
    ghost use Rattle.pram_board.specs.Worked.{EndShows, IsTick, Ticked, Worked, WorkedAs};
    ghost use Rattle.pram_board.specs.Worked.{WorkedTurns, Works};

    /// One atomic step of a worker, or none where it is over. The seat is to know the worker: it
    /// knows one that is newly started or come back, one that was moved on through it, and those
    /// that the seats knew which it was split from or joined of. The answer is how the worker
    /// ended, if it is over now.
    pub fn tick(&self, seat: &mut Seat, worker: &mut Worker) -> Option<Ended>
        requires works { Works self.now seat.old worker.old }
        ensures tick { IsTick self.now.task seat.old worker.old seat.new worker.new }
        ensures end { result ≡ end_of worker.new.walking.now }
        ensures shows { EndShows self.now.task seat.new.record_of result }
        ensures later { IsLater self.now seat.old seat.new }
        ensures works { Works self.now seat.new worker.new }
    {
        seat.facts();
        if let Some(ended) = worker.ended() {
            return Some(ended);
        }
        let op = worker.ask(&self.task.job, &self.task.layout);
        self.advance(seat, worker, op);
        seat.facts();
        worker.ended()
    }

    /// Ticks until the worker is over or has made as many atomic steps as the limit. The gate is
    /// passed before each atomic step, with the worker's number and the steps made so far in this
    /// call. Without a limit it makes at most 300 L T + 8 steps of its walk, T being the steps of
    /// the job and L the least power of two with a place for each processor, whatever other seats
    /// do; and in the wide form no more looks at blocks that it leaves to others, which are atomic
    /// steps, too. With a limit it does not look.
    pub fn work<G: Gate>(
        &self,
        seat: &mut Seat,
        worker: &mut Worker,
        gate: &G,
        limit: Option<u64>,
    ) -> Stay
        requires works { Works self.now seat.old worker.old }
        ensures worked { Worked self.now.task seat.old worker.old.walking limit seat.new
            worker.new.walking result }
        ensures later { IsLater self.now seat.old seat.new }
        ensures works { Works self.now seat.new worker.new }
    {
        let workers = self.task.layout.workers();
        self.go(seat, worker, gate, workers, Until::of(limit))
    }

    /// As `work` without a limit, where only so many workers take part so far: this one leaves to
    /// each of them as large a share of the blocks as there is for so many. That is a hint: what is
    /// promised is so whoever takes part.
    pub fn work_among<G: Gate>(
        &self,
        seat: &mut Seat,
        worker: &mut Worker,
        gate: &G,
        fellows: u32,
    ) -> Stay
        requires works { Works self.now seat.old worker.old }
        ensures worked { Worked self.now.task seat.old worker.old.walking None seat.new
            worker.new.walking result }
        ensures later { IsLater self.now seat.old seat.new }
        ensures works { Works self.now seat.new worker.new }
    {
        self.go(seat, worker, gate, fellows, Until::End)
    }

    /// As `work` without a limit, and as fast, to the end of the worker if so many atomic steps of
    /// its walk, looks apart, lead there. Else it stops after so many or more, at the end of a
    /// phase, of which a step of the job has three. Any call may go on with the worker.
    pub fn work_turns<G: Gate>(
        &self,
        seat: &mut Seat,
        worker: &mut Worker,
        gate: &G,
        least: u64,
    ) -> Stay
        requires works { Works self.now seat.old worker.old }
        ensures worked { WorkedTurns self.now.task seat.old worker.old.walking least seat.new
            worker.new.walking result }
        ensures later { IsLater self.now seat.old seat.new }
        ensures works { Works self.now seat.new worker.new }
    {
        let workers = self.task.layout.workers();
        self.go(seat, worker, gate, workers, Until::Least(least))
    }

    // The worker goes on so far, where so many take part.
    fn go<G: Gate>(
        &self,
        seat: &mut Seat,
        worker: &mut Worker,
        gate: &G,
        fellows: u32,
        until: Until,
    ) -> Stay
        requires works { Works self.now seat.old worker.old }
        ensures worked { WorkedAs (StaysUntil until) self.now.task seat.old worker.old.walking
            (limit_in until) seat.new worker.new.walking result }
        ensures later { IsLater self.now seat.old seat.new }
        ensures works { Works self.now seat.new worker.new }
    {
        let mut driver = Driver::new(self, seat, gate, worker.number(), fellows);
        let stay = driver.work(worker, until);
        driver.end();
        stay
    }

    /// A memory for a worker of the board, 4 KB for each 64 processors, of which nothing is known
    /// yet. In the compact form, which has no use for one, it is empty, and so it is where there is
    /// no memory left: then the worker loads what it does not remember.
    pub fn worker_memory(&self, alloc: Global) -> Memory
        ensures { result ≡ blank (length result) }
    {
        match self.task.layout.form() {
            Form::Compact => Memory::none(),
            Form::Wide(_) => match Memory::of(alloc, self.task.job.procs()) {
                Ok(memory) => memory,
                Err(_) => Memory::none(),
            },
        }
    }

    // One atomic step of a worker, its next operation.
    fn advance(&self, seat: &mut Seat, worker: &mut Worker, op: Op)
        requires works { Works self.now seat.old worker.old }
        requires next { IsNextOperation self.now.task worker.old.walking op }
        requires going { end_of worker.old.walking.now ≡ None }
        ensures ticked { Ticked self.now.task seat.old worker.old.walking seat.new
            worker.new.walking }
        ensures later { IsLater self.now seat.old seat.new }
        ensures works { Works self.now seat.new worker.new }
    {
        let answer = self.step(seat, op);
        worker.tell(&self.task.job, &self.task.layout, answer);
    }
}
