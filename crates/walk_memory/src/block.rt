//! What a worker remembers of 64 processors in a row, side by side by kind.
ghost use Rattle.walk_memory.specs.Standing.{StandThere};

use crate::as_one::Standing;
use crate::entries::{entries_of, set_entries};
use crate::memo::{Memo, Own};

/// The memos of 64 processors: entry k of each of these is of lane k. It remembers some lanes that
/// stand together, if it knows of any.
#[derive(Clone, Copy)]
pub struct Block {
    pub acted: [u64; 64],
    pub step: [u32; 64],
    pub counter: [u32; 64],
    pub registers: [[u32; 64]; 4],
    pub settled: [u32; 64],
    pub told_counter: [u32; 64],
    pub told: [[u32; 64]; 4],
    pub stored: [bool; 64],
    pub cell: [u32; 64],
    pub value: [u32; 64],
    pub standing: Standing,
    ghost stand: { StandThere standing acted step settled counter stored },
}

impl Block {
    ghost use Rattle.std.specs.Prelude.{◌≡◌, ◌≢◌, ◌<◌, ℕ, None, is_some};
    ghost use Rattle.walk_memory.specs.Lanes.{lane};
    ghost use Rattle.walk_memory.specs.Memory.{at_start};

    /// What is known of each before the first step.
    pub fn at_start() -> Block
        ensures { (k : ℕ) → lane result k ≡ at_start }
    {
        Block {
            acted: [0; 64],
            step: [0; 64],
            counter: [0; 64],
            registers: [[0; 64]; 4],
            settled: [0; 64],
            told_counter: [0; 64],
            told: [[0; 64]; 4],
            stored: [false; 64],
            cell: [0; 64],
            value: [0; 64],
            standing: Standing::none(),
        }
    }

    /// What is known of a lane.
    #[inline(always)]
    pub fn memo(&self, k: usize) -> Memo
        requires { k < 64 }
        ensures { result ≡ lane self.now k }
    {
        let store = if self.stored[k] {
            Some((self.cell[k], self.value[k]))
        } else {
            None
        };
        Memo {
            acted: self.acted[k],
            step: self.step[k],
            own: Own {
                counter: self.counter[k],
                registers: entries_of(&self.registers, k),
            },
            settled: self.settled[k],
            told: Own {
                counter: self.told_counter[k],
                registers: entries_of(&self.told, k),
            },
            store,
        }
    }

    /// What is its own.
    #[inline(always)]
    pub fn own(&self, k: usize) -> Own
        requires { k < 64 }
        ensures { result ≡ (lane self.now k).own }
    {
        Own {
            counter: self.counter[k],
            registers: entries_of(&self.registers, k),
        }
    }

    /// A store is remembered of it.
    #[inline(always)]
    pub fn has_store(&self, k: usize) -> bool
        requires { k < 64 }
        ensures { result ≡ is_some (lane self.now k).store }
    {
        self.stored[k]
    }

    /// This is known of it now.
    #[inline(always)]
    pub fn set(&mut self, k: usize, memo: &Memo)
        requires { k < 64 }
        ensures same { lane self.new k ≡ memo.now }
        ensures others { (j : ℕ) → j ≢ k → lane self.new j ≡ lane self.old j }
    {
        self.standing.end = 0;
        self.acted[k] = memo.acted;
        self.step[k] = memo.step;
        self.counter[k] = memo.own.counter;
        set_entries(&mut self.registers, k, &memo.own.registers);
        self.settled[k] = memo.settled;
        self.told_counter[k] = memo.told.counter;
        set_entries(&mut self.told, k, &memo.told.registers);
        match memo.store {
            Some((cell, value)) => {
                self.stored[k] = true;
                self.cell[k] = cell;
                self.value[k] = value;
            }
            None => {
                self.stored[k] = false;
            }
        }
    }

    /// It last acted in this phase, and this is its store.
    #[inline(always)]
    pub fn set_store(&mut self, k: usize, acted: u64, store: Option<(u32, u32)>)
        requires { k < 64 }
        ensures same { lane self.new k ≡ record (lane self.old k) { acted = acted; store = store } }
        ensures others { (j : ℕ) → j ≢ k → lane self.new j ≡ lane self.old j }
    {
        self.standing.end = 0;
        self.acted[k] = acted;
        match store {
            Some((cell, value)) => {
                self.stored[k] = true;
                self.cell[k] = cell;
                self.value[k] = value;
            }
            None => {
                self.stored[k] = false;
            }
        }
    }

    /// Its store was carried out in this phase.
    #[inline(always)]
    pub fn carry(&mut self, k: usize, phase: u64)
        requires { k < 64 }
        ensures same { lane self.new k ≡ record (lane self.old k) { acted = phase; store = None } }
        ensures others { (j : ℕ) → j ≢ k → lane self.new j ≡ lane self.old j }
    {
        self.standing.end = 0;
        self.acted[k] = phase;
        self.stored[k] = false;
    }
}
