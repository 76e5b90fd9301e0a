//! The tasks of a block in the first pass, by a driver.
ghost use Rattle.std.specs.Prelude.{◌≡◌, ◌≢◌, ◌+◌, ◌<◌, ◌≤◌, ℕ, slice_index};
ghost use Rattle.walk_memory.specs.Inner.Posts.{IsLeafPost, at_rank};
ghost use Rattle.pram_board.specs.Inner.Doing.{done_up_to};
ghost use Rattle.pram_board.specs.Inner.Plain.{AllBy, by_lanes};

use crate::driver::Driver;
use crate::plain::{Lagging, PlainTasks};
use pram_job::{Instr, Place};
use pram_words::Kind;
use std::mem;
use stop_plan::Gate;
use walkx::taking::take_up_at;
use walkx::{Claims, Formed, Leaf, Loads, Memory, Stand};

impl<'a, G: Gate> Driver<'a, G> {
    ghost use Rattle.std.specs.Prelude.{◌≡◌};
    ghost use Rattle.pram_words.specs.Phases.{kind_at};
    ghost use Rattle.walk_memory.specs.Inner.Posts.{processor_of};
    ghost use Rattle.walk_memory.specs.Memory.{memo_of};
    ghost use Rattle.walk_memory.specs.Stands.{IsStand, GivesInstr};
    ghost use Rattle.pram_board.specs.Inner.Doing.{AtAlike, DoneAlike, done_up_to};
    ghost use Rattle.pram_board.specs.Inner.Plain.{AllBy, by_lanes};
    ghost use Rattle.pram_board.specs.Inner.Plays.{Moved, driving, AtPart, AtTask, DoneMore};
    ghost use Rattle.pram_board.specs.Inner.Plays.{DoneTo, PastTask, Tried, in_block};
    ghost use Rattle.pram_board.specs.Inner.Plays.{post_task};

    /// The tasks of a block of this length, from the leaf's processor on, in the first pass.
    #[inline(always)]
    pub(crate) fn first_tasks(&mut self, leaf: Leaf<'_>, len: u32, memory: &mut Memory)
        requires first { kind_at leaf.phase ≡ Kind.Compute }
        requires at { AtTask leaf len (driving self.old) memory.old }
        ensures same { self.new.seat.ghost_name ≡ self.old.seat.ghost_name }
        ensures moved { Moved (post_task leaf.entry) (driving self.old)
            (in_block leaf.entry leaf.entry.rank memory.old) (driving self.new)
            (in_block leaf.entry len memory.new) }
    {
        let mut leaf = leaf;
        loop {
            let last = self.task(&leaf, len, memory);
            if last + 1 == len {
                return;
            }
            leaf = leaf.after(last);
        }
    }

    // The first pass of the leaf's processor, and that of the next ones where all are known to
    // stand at one instruction: the rank of the last of them.
    #[inline(always)]
    fn task(&mut self, leaf: &Leaf, len: u32, memory: &mut Memory) -> u32
        requires first { kind_at leaf.now.phase ≡ Kind.Compute }
        requires at { AtTask leaf.now len (driving self.old) memory.old }
        ensures same { self.new.seat.ghost_name ≡ self.old.seat.ghost_name }
        ensures done { DoneTo leaf.now len (driving self.old) memory.old result
            (driving self.new) memory.new }
    {
        if let Some(stand) = memory.stand(leaf) {
            if self.has_more(leaf, len, memory, stand) {
                return self.stand_tasks(leaf, len, memory, stand);
            }
        }
        self.part(leaf, memory);
        leaf.rank()
    }

    // The next one, too, is known to stand at this instruction. Loops are entered for two or more.
    #[inline(always)]
    fn has_more(&self, leaf: &Leaf, len: u32, memory: &Memory, stand: Stand<'_>) -> bool
        requires at { AtTask leaf.now len (driving self.now) memory.now }
        requires stand { IsStand leaf.now stand.counter stand.instr.now }
    {
        leaf.rank() + 1 < len && memory.stands_at(&leaf.next(), stand)
    }

    // The first pass of the leaf's processor and of the next ones, which are known to stand at this
    // instruction: the rank of the last of them.
    #[inline(always)]
    fn stand_tasks(&mut self, leaf: &Leaf, len: u32, memory: &mut Memory, stand: Stand<'_>) -> u32
        requires at { AtTask leaf.now len (driving self.old) memory.old }
        requires stand { IsStand leaf.now stand.counter stand.instr.now }
        ensures same { self.new.seat.ghost_name ≡ self.old.seat.ghost_name }
        ensures done { DoneTo leaf.now len (driving self.old) memory.old result
            (driving self.new) memory.new }
    {
        match *stand.instr {
            Instr::Ld(..) => self.load_tasks(leaf, len, memory, stand),
            Instr::St(..) => self.plain_tasks::<Claims>(leaf, len, memory, stand),
            _ => self.form_tasks(leaf, len, memory, stand),
        }
    }

    // The same, by forms of instructions.
    #[inline(never)]
    fn form_tasks(&mut self, leaf: &Leaf, len: u32, memory: &mut Memory, stand: Stand<'_>) -> u32
        requires at { AtTask leaf.now len (driving self.old) memory.old }
        requires stand { IsStand leaf.now stand.counter stand.instr.now }
        ensures same { self.new.seat.ghost_name ≡ self.old.seat.ghost_name }
        ensures done { DoneTo leaf.now len (driving self.old) memory.old result
            (driving self.new) memory.new }
    {
        self.part(leaf, memory);
        self.run_form(leaf, len, memory, stand)
    }

    // The same, where they load: plainly if all do.
    #[inline(never)]
    fn load_tasks(&mut self, leaf: &Leaf, len: u32, memory: &mut Memory, stand: Stand<'_>) -> u32
        requires at { AtTask leaf.now len (driving self.old) memory.old }
        requires stand { IsStand leaf.now stand.counter stand.instr.now }
        ensures same { self.new.seat.ghost_name ≡ self.old.seat.ghost_name }
        ensures done { DoneTo leaf.now len (driving self.old) memory.old result
            (driving self.new) memory.new }
    {
        let found = Loads::of(memory, leaf, len, stand);
        match &found {
            Some(loads) => self.plain_by(leaf, len, memory, loads),
            None => self.plain_tasks::<Lagging>(leaf, len, memory, stand),
        }
    }

    // The same, plainly if all in the block do so.
    #[inline(never)]
    fn plain_tasks<P: PlainTasks>(
        &mut self,
        leaf: &Leaf,
        len: u32,
        memory: &mut Memory,
        stand: Stand<'_>,
    ) -> u32
        requires at { AtTask leaf.now len (driving self.old) memory.old }
        requires stand { IsStand leaf.now stand.counter stand.instr.now }
        ensures same { self.new.seat.ghost_name ≡ self.old.seat.ghost_name }
        ensures done { DoneTo leaf.now len (driving self.old) memory.old result
            (driving self.new) memory.new }
    {
        let found = P::of(memory, leaf, len, stand);
        match &found {
            Some(plain) => self.plain_by(leaf, len, memory, plain),
            None => self.form_tasks(leaf, len, memory, stand),
        }
    }

    // Plain tasks, by a driver and a copy of their own: so what the loop uses is in registers. What
    // they did is remembered once all is done, so the loop writes no memory of the worker's.
    #[inline(always)]
    fn plain_by<P: PlainTasks>(
        &mut self,
        leaf: &Leaf,
        len: u32,
        memory: &mut Memory,
        plain: &P,
    ) -> u32
        requires at { AtTask leaf.now len (driving self.old) memory.old }
        requires plain { AllBy P.by leaf.now len memory.old plain.now }
        ensures same { self.new.seat.ghost_name ≡ self.old.seat.ghost_name }
        ensures done { DoneTo leaf.now len (driving self.old) memory.old result
            (driving self.new) memory.new }
    {
        let mut driver = Driver {
            seat: self.seat,
            ..*self
        };
        let own = *plain;
        let mut values = [0; 64];
        let last = driver.plain_all(leaf.again(), len, memory, &own, &mut values);
        (self.made, self.rest) = driver.end();
        remember(memory, leaf, last, plain, &values);
        last.0
    }

    // The first pass of all from the leaf's on, by plain tasks, which gave these values: the rank
    // of the last of them, and whether the worker was late there.
    #[inline(always)]
    fn plain_all<P: PlainTasks>(
        &mut self,
        leaf: Leaf<'_>,
        len: u32,
        memory: &Memory,
        plain: &P,
        values: &mut [u32; 64],
    ) -> (u32, bool)
        requires at { AtTask leaf len (driving self.old) memory.now }
        requires plain { AllBy P.by leaf len memory.now plain.now }
        ensures same { self.new.seat.ghost_name ≡ self.old.seat.ghost_name }
        ensures done { DoneTo leaf.entry len (driving self.old) memory.now result.0
            (driving self.new) (done_up_to leaf.entry (by_lanes (P.does plain.now leaf.entry)
            values.new memory.now) memory.now result) }
    {
        let mut leaf = leaf;
        loop {
            let rank = leaf.rank();
            match self.plain_part(&leaf, memory, plain) {
                Some(value) => set_lane(values, (leaf.processor() % 64) as usize, value),
                None => return (rank, true),
            }
            if rank + 1 == len {
                return (rank, false);
            }
            leaf = leaf.next();
        }
    }

    // The first pass of the leaf's processor, by a plain task: the value that it gave, unless the
    // worker was late.
    #[inline(always)]
    fn plain_part<P: PlainTasks>(&mut self, leaf: &Leaf, memory: &Memory, plain: &P) -> Option<u32>
        requires at { AtAlike leaf.now (driving self.old) memory.now }
        requires plain { P.by leaf.now memory.now plain.now }
        ensures same { self.new.seat.ghost_name ≡ self.old.seat.ghost_name }
        ensures done { DoneAlike leaf.now (driving self.old) memory.now (P.does plain.now leaf.now
            (processor_of leaf.now) (memo_of memory.now (processor_of leaf.now))) result
            (driving self.new) }
    {
        match plain.take(memory, self, leaf) {
            Ok(value) => {
                self.seat.facts();
                value
            }
            Err(_) => unreachable!(),
        }
    }

    // The first pass of the next ones, after this leaf's, that stand at this instruction: the rank
    // of the last of them. Each form that has a row here has a loop of its own, in which no other
    // is looked at.
    #[inline(always)]
    fn run_form(&mut self, leaf: &Leaf, len: u32, memory: &mut Memory, stand: Stand<'_>) -> u32
        requires past { PastTask leaf.now len (driving self.old) memory.old }
        requires stand { IsStand leaf.now stand.counter stand.instr.now }
        ensures same { self.new.seat.ghost_name ≡ self.old.seat.ghost_name }
        ensures done { DoneMore leaf.now len (driving self.old) memory.old result
            (driving self.new) memory.new }
    {
        match *stand.instr {
            Instr::Set(r, k) => self.run(leaf, len, memory, &stand.by(|| Instr::Set(r, k))),
            Instr::Pid(r) => self.run(leaf, len, memory, &stand.by(|| Instr::Pid(r))),
            Instr::Jz(r, index) => self.run(leaf, len, memory, &stand.by(|| Instr::Jz(r, index))),
            Instr::Jmp(index) => self.run(leaf, len, memory, &stand.by(|| Instr::Jmp(index))),
            Instr::Add(r, a, b) => self.run(leaf, len, memory, &stand.by(|| Instr::Add(r, a, b))),
            Instr::Sub(r, a, b) => self.run(leaf, len, memory, &stand.by(|| Instr::Sub(r, a, b))),
            Instr::Mul(r, a, b) => self.run(leaf, len, memory, &stand.by(|| Instr::Mul(r, a, b))),
            Instr::Shl(r, a, b) => self.run(leaf, len, memory, &stand.by(|| Instr::Shl(r, a, b))),
            Instr::Shr(r, a, b) => self.run(leaf, len, memory, &stand.by(|| Instr::Shr(r, a, b))),
            Instr::Div(r, a, b) => self.run(leaf, len, memory, &stand.by(|| Instr::Div(r, a, b))),
            Instr::Rem(r, a, b) => self.run(leaf, len, memory, &stand.by(|| Instr::Rem(r, a, b))),
            Instr::And(r, a, b) => self.run(leaf, len, memory, &stand.by(|| Instr::And(r, a, b))),
            Instr::Or(r, a, b) => self.run(leaf, len, memory, &stand.by(|| Instr::Or(r, a, b))),
            Instr::Xor(r, a, b) => self.run(leaf, len, memory, &stand.by(|| Instr::Xor(r, a, b))),
            Instr::Lt(r, a, b) => self.run(leaf, len, memory, &stand.by(|| Instr::Lt(r, a, b))),
            Instr::Eq(r, a, b) => self.run(leaf, len, memory, &stand.by(|| Instr::Eq(r, a, b))),
            Instr::Ld(r, Place::Cell(a)) => self.run(
                leaf,
                len,
                memory,
                &stand.by(|| Instr::Ld(r, Place::Cell(a))),
            ),
            Instr::Ld(r, Place::Named(array, a)) => self.run(
                leaf,
                len,
                memory,
                &stand.by(|| Instr::Ld(r, Place::Named(array, a))),
            ),
            Instr::St(Place::Cell(a), b) => self.run(
                leaf,
                len,
                memory,
                &stand.by(|| Instr::St(Place::Cell(a), b)),
            ),
            Instr::St(Place::Named(array, a), b) => self.run(
                leaf,
                len,
                memory,
                &stand.by(|| Instr::St(Place::Named(array, a), b)),
            ),
            instr => self.run(leaf, len, memory, &stand.by(|| instr)),
        }
    }

    // The same by a driver of its own, and a memory of its own: so what the loop uses is in
    // registers.
    #[inline(never)]
    fn run<F: Fn() -> Instr>(
        &mut self,
        leaf: &Leaf,
        len: u32,
        memory: &mut Memory,
        by: &Formed<'_, F>,
    ) -> u32
        requires past { PastTask leaf.now len (driving self.old) memory.old }
        requires stand { IsStand leaf.now by.now.stand.counter by.now.stand.instr.now }
        requires form { GivesInstr F.Fn by.now.form by.now.stand.instr.now }
        ensures same { self.new.seat.ghost_name ≡ self.old.seat.ghost_name }
        ensures done { DoneMore leaf.now len (driving self.old) memory.old result
            (driving self.new) memory.new }
    {
        let mut driver = Driver {
            seat: self.seat,
            ..*self
        };
        let instr = (by.form)();
        let mut own = mem::replace(memory, Memory::none());
        let last = driver.run_on(leaf, len, &mut own, by.stand.counter, &instr);
        *memory = own;
        (self.made, self.rest) = driver.end();
        last
    }

    // The same by this driver.
    #[inline(always)]
    fn run_on(
        &mut self,
        leaf: &Leaf,
        len: u32,
        memory: &mut Memory,
        counter: u32,
        instr: &Instr,
    ) -> u32
        requires past { PastTask leaf.now len (driving self.old) memory.old }
        requires stand { IsStand leaf.now counter instr.now }
        ensures same { self.new.seat.ghost_name ≡ self.old.seat.ghost_name }
        ensures done { DoneMore leaf.now len (driving self.old) memory.old result
            (driving self.new) memory.new }
    {
        let first = leaf.rank();
        if first + 1 == len {
            return first;
        }
        let mut next = leaf.next();
        loop {
            let rank = next.rank();
            if !self.part_at(&next, memory, counter, instr) {
                return rank - 1;
            }
            if rank + 1 == len {
                return rank;
            }
            next = next.next();
        }
    }

    // The first pass of the leaf's processor, if it is known to stand at this instruction.
    #[inline(always)]
    fn part_at(&mut self, leaf: &Leaf, memory: &mut Memory, counter: u32, instr: &Instr) -> bool
        requires stand { IsStand leaf.now counter instr.now }
        requires at { AtPart leaf.now (driving self.old) memory.old }
        ensures same { self.new.seat.ghost_name ≡ self.old.seat.ghost_name }
        ensures tried { Tried leaf.now (driving self.old) memory.old (driving self.new) memory.new
            result }
    {
        match take_up_at(memory, self, leaf, counter, instr) {
            Ok(true) => {
                self.seat.facts();
                true
            }
            Ok(false) => false,
            Err(_) => unreachable!(),
        }
    }
}

// The plain tasks of the processors from the leaf's on, up to this rank, gave these values, but for
// the last one, if the worker was late there.
#[inline(always)]
fn remember<P: PlainTasks>(
    memory: &mut Memory,
    leaf: &Leaf,
    last: (u32, bool),
    plain: &P,
    values: &[u32; 64],
)
    requires later { leaf.now.rank ≤ last.0 }
    requires leaf { IsLeafPost (at_rank leaf.now last.0) }
    requires plain { AllBy P.by leaf.now (last.0 + 1) memory.old plain.now }
    ensures { memory.new ≡ done_up_to leaf.now (by_lanes (P.does plain.now leaf.now) values.now
        memory.old) memory.old last }
{
    let (rank, late) = last;
    if late {
        plain.remember(memory, leaf, rank, values);
        memory.forget(leaf.processor() + (rank - leaf.rank()));
    } else {
        plain.remember(memory, leaf, rank + 1, values);
    }
}

// Lane k has this value now.
#[inline(always)]
fn set_lane(values: &mut [u32; 64], k: usize, value: u32)
    requires { k < 64 }
    ensures here { slice_index values.new k ≡ value }
    ensures others { (j : ℕ) → j ≢ k → slice_index values.new j ≡ slice_index values.old j }
{
    values[k] = value;
}
