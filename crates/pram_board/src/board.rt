//! The board.
ghost use Rattle.std.specs.Prelude.{◌≡◌, IfOk};

use crate::plays::{Law, Loads, Raises, Shares, Stores, Swaps, Unites};
use crate::seat::Seat;
use crate::task::{Task, View};
use atomic_table::Table;
use pram_job::Job;
use pram_words::Layout;
use std::alloc::{AllocError, Global};
use std::marker::Model;
use walkx::Op;

/// The words of a job's board, which threads share by reference, each with a seat of its own. They
/// stand under the job's rule between any two atomic steps, whatever its callers do.
#[derive(Drop)]
pub struct Board {
    pub(crate) task: Task,
    table: Table<(), View, Task, Law, Global>,
}

impl Model for Board {
    ghost use Rattle.std.specs.Prelude.{◌≡◌};
    ghost use Rattle.pram_words.specs.Words.{length_of};
    ghost use Rattle.walk_memory.specs.Blocks.{IsBoard};
    ghost use Rattle.pram_board.specs.Seats.{Desk, coded_desk};

    ghost Value = { Desk };

    ghost coded = { coded_desk };

    ghost view = { λ b. record { id = b.table.shared.table_id; task = b.task } };

    ghost invariant = { λ b. (b.table.shared.key ≡ b.task)
        × (b.table.shared.table_id.words ≡ length_of b.task.layout)
        × IsBoard b.task.job b.task.layout };
}

impl Board {
    ghost use Rattle.std.specs.Prelude.{◌≡◌, ◌≤◌, ◌<◌, ◌*◌, IfOk};
    ghost use Rattle.pram_words.specs.Words.{IsGrain, grain_for};
    ghost use Rattle.pram_words.specs.declared.layout.Form.TheVariants.{Compact, Wide};
    ghost use Rattle.walk_memory.specs.Blocks.{IsBoard, IsLayoutOf};
    ghost use Rattle.walkx.specs.declared.operation.Op.TheVariants.{Load, Swap};
    ghost use Rattle.lawful_walk.specs.Moments.{Sound};
    ghost use Rattle.pram_board.specs.Rules.{May};
    ghost use Rattle.pram_board.specs.Seats.{HasLoaded, IsOpened, Remembers, hears, unites};
    ghost use Rattle.walkx.specs.Records.{empty};

    /// A new board for a job and so many workers, and a seat that has seen nothing. The board lies
    /// in the compact form and keeps its own copy of the job.
    pub fn open(alloc: Global, job: &Job, workers: u32) -> Result<(Board, Seat), AllocError>
        requires some { 1 ≤ workers }
        requires most { workers ≤ 64 }
        ensures { IfOk result (IsOpened job.now Compact workers) }
    {
        Board::of_layout(alloc, job, Layout::new(job, workers))
    }

    /// A new board for a job and so many workers in the wide form, and a seat that has seen
    /// nothing. Workers start far apart and do not share lines of memory: this form is the faster
    /// one with two workers and more. A leaf stands for a block of 64 processors, or of all where
    /// there are fewer.
    pub fn open_wide(alloc: Global, job: &Job, workers: u32) -> Result<(Board, Seat), AllocError>
        requires some { 1 ≤ workers }
        requires most { workers ≤ 64 }
        ensures { IfOk result (IsOpened job.now (Wide (grain_for job.now.procs)) workers) }
    {
        Board::of_layout(alloc, job, Layout::wide(job, workers))
    }

    /// A new board in the wide form, whose blocks have as many processors as `grain` says, a power
    /// of two up to 64, and a seat that has seen nothing.
    pub fn open_with_blocks(
        alloc: Global,
        job: &Job,
        workers: u32,
        grain: u32,
    ) -> Result<(Board, Seat), AllocError>
        requires some { 1 ≤ workers }
        requires most { workers ≤ 64 }
        requires grain { IsGrain grain }
        ensures { IfOk result (IsOpened job.now (Wide grain) workers) }
    {
        Board::of_layout(alloc, job, Layout::with_blocks(job, workers, grain))
    }

    // A new board of this layout.
    fn of_layout(alloc: Global, job: &Job, layout: Layout) -> Result<(Board, Seat), AllocError>
        requires { IsLayoutOf job.now layout }
        ensures { IfOk result (IsOpened job.now layout.form layout.workers) }
    {
        let job = job.try_clone()?;
        let words = layout.start_words(alloc, &job)?;
        job.limits_hold();
        layout.limits_hold();
        let task = Task { job, layout };
        let (table, seat) = Table::of_words(alloc, words.as_slice(), &task)?;
        Ok((Board { task, table }, Seat { seat }))
    }

    /// A seat of this board without another one, as for a thread that has none to split. It has
    /// seen one load of word 0, which is in its record, and nothing else. It takes no memory.
    pub fn new_seat(&self) -> Seat
        ensures desk { result.desk ≡ self.now }
        ensures seen { HasLoaded 1 (record { desk = self.now; record_of = empty }) result }
    {
        let (_, seat) = self.table.shared.load_new_seat::<Loads>(0);
        Seat { seat }
    }

    /// Two seats that have seen what one had seen. It takes no memory and one load, which is in no
    /// record.
    pub fn split(&self, seat: Seat) -> (Seat, Seat)
        requires { seat.desk ≡ self.now }
        ensures first { result.0 ≡ seat }
        ensures second { result.1 ≡ seat }
        ensures desks { (result.0.desk ≡ self.now) × (result.1.desk ≡ self.now) }
        ensures keeps_first { Remembers seat.record_of result.0.record_of }
        ensures keeps_second { Remembers seat.record_of result.1.record_of }
    {
        let Seat { mut seat } = seat;
        let other = self.table.shared.split_seat::<Shares>(&mut seat);
        (Seat { seat }, Seat { seat: other })
    }

    /// One seat that has seen what both had seen. Between the two records there is no order; what
    /// it does from now on comes after both. It takes no memory and one load, which is in no
    /// record.
    pub fn join(&self, first: Seat, second: Seat) -> Seat
        requires first { first.desk ≡ self.now }
        requires second { second.desk ≡ self.now }
        ensures unites { result ≡ unites first second }
        ensures desk { result.desk ≡ self.now }
        ensures keeps_first { Remembers first.record_of result.record_of }
        ensures keeps_second { Remembers second.record_of result.record_of }
    {
        let Seat { mut seat } = first;
        let Seat { seat: other } = second;
        self.table.shared.join_seat::<Unites>(&mut seat, other);
        Seat { seat }
    }

    /// The job and its layout are within their limits and fit each other. The call does nothing.
    pub fn facts(&self)
        ensures { IsBoard self.now.task.job self.now.task.layout }
    {
        self.task();
    }

    // What the board is about.
    #[inline(always)]
    pub(crate) fn task(&self) -> &Task
        ensures value { result.now ≡ self.now.task }
        ensures board { IsBoard self.now.task.job self.now.task.layout }
    {
        &self.task
    }

    // A load, and what it found.
    #[inline(always)]
    pub(crate) fn load(&self, seat: &mut Seat, word: u32) -> u64
        requires desk { seat.old.desk ≡ self.now }
        requires allowed { May self.now.task seat.old.record_of (Load word) }
        ensures grows { seat.new ≡ hears seat.old (Load word) result }
        ensures sound { Sound self.now.task.job self.now.task.layout seat.new.record_of }
    {
        let shared = &self.table.shared;
        shared.load::<Loads>(&mut seat.seat, word as usize)
    }

    // A swap, and what it found.
    #[inline(always)]
    pub(crate) fn swap(&self, seat: &mut Seat, word: u32, old: u64, new: u64) -> u64
        requires desk { seat.old.desk ≡ self.now }
        requires allowed { May self.now.task seat.old.record_of (Swap word old new) }
        ensures grows { seat.new ≡ hears seat.old (Swap word old new) result }
        ensures sound { Sound self.now.task.job self.now.task.layout seat.new.record_of }
    {
        let shared = &self.table.shared;
        shared.compare_exchange::<Swaps>(&mut seat.seat, word as usize, old, new)
    }

    /// What the root holds: the greater, the farther the workers are. It takes one load.
    pub fn hint(&self, seat: &mut Seat) -> u64
        requires { seat.old.desk ≡ self.now }
        ensures loads { HasLoaded 1 seat.old seat.new }
        ensures desk { seat.new.desk ≡ self.now }
    {
        self.facts();
        self.load(seat, self.task.layout.node_word(1))
    }

    /// How many leaves the tree has, each for a block of processors.
    pub fn leaves(&self) -> u32
        ensures { result ≡ self.now.task.layout.leaves }
    {
        self.task().layout.leaves()
    }

    // One atomic step, and its answer.
    #[inline(always)]
    pub(crate) fn step(&self, seat: &mut Seat, op: Op) -> u64
        requires desk { seat.old.desk ≡ self.now }
        requires allowed { May self.now.task seat.old.record_of op }
        ensures grows { seat.new ≡ hears seat.old op result }
        ensures sound { Sound self.now.task.job self.now.task.layout seat.new.record_of }
    {
        let shared = &self.table.shared;
        let seat = &mut seat.seat;
        match op {
            Op::Load(word) => shared.load::<Loads>(seat, word as usize),
            Op::Store(word, value) => {
                shared.store::<Stores>(seat, word as usize, value);
                0
            }
            Op::Max(word, value) => shared.fetch_max::<Raises>(seat, word as usize, value),
            Op::Swap(word, old, new) => {
                shared.compare_exchange::<Swaps>(seat, word as usize, old, new)
            }
            Op::Over(_) => unreachable!(),
        }
    }
}
