//! The tasks of a block in another pass, by a driver.
use crate::driver::Driver;
use pram_job::Rule;
use std::mem;
use stop_plan::Gate;
use walkx::taking::carry;
use walkx::{Leaf, Left, Memory, Stores, carry_until, report_store};

impl<'a, G: Gate> Driver<'a, G> {
    ghost use Rattle.std.specs.Prelude.{◌≡◌, suc, None, List, Some};
    ghost use Rattle.walk_memory.specs.declared.memo.Memo.{Memo};
    ghost use Rattle.walk_memory.specs.Inner.Posts.{at_rank};
    ghost use Rattle.walk_memory.specs.Plain.{AllHoldStore, AllStore};
    ghost use Rattle.pram_board.specs.Inner.Plays.{Moved, driving, AtPart, AtTask, DonePart};
    ghost use Rattle.pram_board.specs.Inner.Plays.{DoneTo, Driving, StoredIn, StoredTo, WasSwapped, in_block};
    ghost use Rattle.pram_board.specs.Inner.Plays.{post_task};

    /// The tasks of a block of this length, from the leaf's processor on, in another pass.
    #[inline(always)]
    pub(crate) fn second_tasks(&mut self, leaf: Leaf<'_>, len: u32, memory: &mut Memory)
        requires at { AtTask leaf len (driving self.old) memory.old }
        ensures same { self.new.seat.ghost_name ≡ self.old.seat.ghost_name }
        ensures moved { Moved (post_task leaf.entry) (driving self.old)
            (in_block leaf.entry leaf.entry.rank memory.old) (driving self.new)
            (in_block leaf.entry len memory.new) }
    {
        if memory.stores_plainly(&leaf, len) {
            self.plain_stores(leaf, len, memory)
        } else {
            self.other_tasks(leaf, len, memory)
        }
    }

    // Those of the second pass, where all have stores that are remembered.
    #[inline(never)]
    fn plain_stores(&mut self, leaf: Leaf<'_>, len: u32, memory: &mut Memory)
        requires at { AtTask leaf len (driving self.old) memory.old }
        requires stores { AllStore leaf len memory.old }
        ensures same { self.new.seat.ghost_name ≡ self.old.seat.ghost_name }
        ensures moved { Moved (post_task leaf.entry) (driving self.old)
            (in_block leaf.entry leaf.entry.rank memory.old) (driving self.new)
            (in_block leaf.entry len memory.new) }
    {
        let mut leaf = leaf;
        loop {
            let last = self.stores(leaf, len, memory);
            if last.rank() + 1 == len {
                return;
            }
            leaf = last.next();
        }
    }

    // Those from the leaf's processor up to the first of which a report is due, which is made, or for
    // which the worker is late: the leaf of the last of them.
    #[inline(always)]
    fn stores<'b>(&mut self, leaf: Leaf<'b>, len: u32, memory: &mut Memory) -> Leaf<'b>
        requires at { AtTask leaf len (driving self.old) memory.old }
        requires stores { AllStore leaf len memory.old }
        ensures same { self.new.seat.ghost_name ≡ self.old.seat.ghost_name }
        ensures leaf { result ≡ at_rank leaf.entry result.rank }
        ensures done { DoneTo leaf.entry len (driving self.old) memory.old result.rank
            (driving self.new) memory.new }
        ensures stores { AllStore (at_rank result (suc result.rank)) len memory.new }
    {
        let (last, due) = self.store_apart(leaf, len, memory);
        match due {
            Some(write) => {
                self.report(&last, write);
                last
            }
            None => last,
        }
    }

    // The same but for the report, by a driver of its own: and the store of which one is due.
    #[inline(always)]
    fn store_apart<'b>(
        &mut self,
        leaf: Leaf<'b>,
        len: u32,
        memory: &mut Memory,
    ) -> (Leaf<'b>, Option<(u32, u32)>)
        requires at { AtTask leaf len (driving self.old) memory.old }
        requires stores { AllStore leaf len memory.old }
        ensures same { self.new.seat.ghost_name ≡ self.old.seat.ghost_name }
        ensures stored { StoredTo leaf.entry len (driving self.old) memory.old result
            (driving self.new) memory.new }
    {
        let mut driver = Driver {
            seat: self.seat,
            ..*self
        };
        let stores = memory.stores(&leaf, len);
        let (last, due, end) = driver.store_by(leaf.again(), len, stores);
        (self.made, self.rest) = driver.end();
        memory.carry_stores(&leaf, len, end);
        (last, due)
    }

    // The same by this driver, but that none of it is remembered yet: and up to which rank the
    // stores were carried out. Each rule has a loop of its own.
    #[inline(always)]
    fn store_by<'b>(
        &mut self,
        leaf: Leaf<'b>,
        len: u32,
        stores: Stores<'_>,
    ) -> (Leaf<'b>, Option<(u32, u32)>, u32)
        requires at { AtTask leaf len (driving self.old) stores.memory.now }
        requires stores { AllHoldStore leaf len stores.memory.now stores.block.now }
        ensures same { self.new.seat.ghost_name ≡ self.old.seat.ghost_name }
        ensures stored { StoredIn leaf.entry len (driving self.old) stores.entry.memory.now result
            (driving self.new) }
    {
        match leaf.rule() {
            Rule::Common => self.store_on(leaf, len, stores, Rule::Common),
            Rule::Priority => self.store_on(leaf, len, stores, Rule::Priority),
            Rule::Crew => self.store_on(leaf, len, stores, Rule::Crew),
        }
    }

    // The same, by what is the rule. The loop writes no memory.
    #[inline(always)]
    fn store_on<'b>(
        &mut self,
        leaf: Leaf<'b>,
        len: u32,
        stores: Stores<'_>,
        rule: Rule,
    ) -> (Leaf<'b>, Option<(u32, u32)>, u32)
        requires rule { rule ≡ leaf.job.rule }
        requires at { AtTask leaf len (driving self.old) stores.memory.now }
        requires stores { AllHoldStore leaf len stores.memory.now stores.block.now }
        ensures same { self.new.seat.ghost_name ≡ self.old.seat.ghost_name }
        ensures stored { StoredIn leaf.entry len (driving self.old) stores.entry.memory.now result
            (driving self.new) }
    {
        let mut leaf = leaf;
        loop {
            let done = carry_until(self, &leaf, stores.write(&leaf), rule);
            self.seat.facts();
            let rank = leaf.rank();
            match done {
                Ok(true) => {
                    let due = stores.write(&leaf);
                    return (leaf, Some(due), rank + 1);
                }
                Ok(false) => {}
                Err(Left::Late) => return (leaf, None, rank),
                Err(Left::Held) => unreachable!(),
            }
            if rank + 1 == len {
                return (leaf, None, len);
            }
            leaf = leaf.next();
        }
    }

    // The report that is due of this store is made, and what is left of it.
    #[inline(never)]
    fn report(&mut self, leaf: &Leaf, write: (u32, u32))
        requires due { (before : Driving) × (memory : List Memo) × (now : List Memo)
            × WasSwapped leaf.now before memory (Some write) (driving self.old) now }
        ensures same { self.new.seat.ghost_name ≡ self.old.seat.ghost_name }
        ensures reported { (before : Driving) (memory now : List Memo) →
            WasSwapped leaf.now before memory (Some write) (driving self.old) now →
            WasSwapped leaf.now before memory None (driving self.new) now }
    {
        match report_store(self, leaf, write) {
            Ok(()) => self.seat.facts(),
            Err(_) => unreachable!(),
        }
    }

    // The same one by one. A loop in a function of its own, and by a driver of its own, has what
    // it uses in registers.
    #[inline(never)]
    fn other_tasks(&mut self, leaf: Leaf<'_>, len: u32, memory: &mut Memory)
        requires at { AtTask leaf len (driving self.old) memory.old }
        ensures same { self.new.seat.ghost_name ≡ self.old.seat.ghost_name }
        ensures moved { Moved (post_task leaf.entry) (driving self.old)
            (in_block leaf.entry leaf.entry.rank memory.old) (driving self.new)
            (in_block leaf.entry len memory.new) }
    {
        let mut driver = Driver {
            seat: self.seat,
            ..*self
        };
        let mut own = mem::replace(memory, Memory::none());
        driver.parts(leaf, len, &mut own);
        *memory = own;
        (self.made, self.rest) = driver.end();
    }

    // The tasks of a block of this length, from the leaf's processor on, one by one.
    #[inline(always)]
    fn parts(&mut self, leaf: Leaf<'_>, len: u32, memory: &mut Memory)
        requires at { AtTask leaf len (driving self.old) memory.old }
        ensures same { self.new.seat.ghost_name ≡ self.old.seat.ghost_name }
        ensures moved { Moved (post_task leaf.entry) (driving self.old)
            (in_block leaf.entry leaf.entry.rank memory.old) (driving self.new)
            (in_block leaf.entry len memory.new) }
    {
        let mut leaf = leaf;
        loop {
            self.second_part(&leaf, memory);
            if leaf.rank() + 1 == len {
                return;
            }
            leaf = leaf.next();
        }
    }

    // The task of the leaf's processor. Where its step is known, little is left of it, and what
    // else there may be is kept out of the loop.
    #[inline(always)]
    fn second_part(&mut self, leaf: &Leaf, memory: &mut Memory)
        requires at { AtPart leaf.now (driving self.old) memory.old }
        ensures same { self.new.seat.ghost_name ≡ self.old.seat.ghost_name }
        ensures done { DonePart leaf.now (driving self.old) memory.old (driving self.new)
            memory.new }
    {
        match carry(memory, self, leaf) {
            Ok(true) => self.seat.facts(),
            Ok(false) => self.part_apart(leaf, memory),
            Err(_) => unreachable!(),
        }
    }

    // The task of the leaf's processor, by a driver of its own.
    #[inline(always)]
    fn part_apart(&mut self, leaf: &Leaf, memory: &mut Memory)
        requires at { AtPart leaf.now (driving self.old) memory.old }
        ensures same { self.new.seat.ghost_name ≡ self.old.seat.ghost_name }
        ensures done { DonePart leaf.now (driving self.old) memory.old (driving self.new)
            memory.new }
    {
        let mut driver = Driver {
            seat: self.seat,
            ..*self
        };
        let mut own = mem::replace(memory, Memory::none());
        driver.part(&leaf.again(), &mut own);
        *memory = own;
        (self.made, self.rest) = driver.end();
    }
}
