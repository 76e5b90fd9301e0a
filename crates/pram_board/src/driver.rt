//! The driver of a worker on a board.
ghost use Rattle.std.specs.Prelude.{◌≡◌};

use crate::board::Board;
use crate::rest::{Patience, Rest, pause_between};
use crate::seat::Seat;
use crate::until::Until;
use crate::work::Stay;
use pram_words::Kind;
use stop_plan::Gate;
use walkx::taking::take_up;
use walkx::turns::{Turned, mark, turn};
use walkx::{Leaf, Memory, Op, Post, Steps, Stopped, Worker};

/// Makes the atomic steps of a worker on a board, passing the gate before each, and counts them.
#[derive(Drop)]
pub(crate) struct Driver<'a, G: Gate> {
    pub board: &'a Board,
    pub seat: &'a mut Seat,
    pub gate: &'a G,
    pub worker: u32,
    pub made: u64,
    pub rest: Rest,
}

impl<'a, G: Gate> Steps for Driver<'a, G> {
    ghost use Rattle.std.specs.Prelude.{◌≡◌};
    ghost use Rattle.pram_board.specs.Inner.Plays.{drives, driving, post_task};

    ghost stands = { λ at from d where_to. (d.seat.ghost_name ≡ from.0.seat.ghost_name)
        × drives (post_task at) (driving from.0, from.1) (driving d) where_to };

    #[inline(always)]
    fn make(&mut self, op: Op) -> Result<u64, Stopped> {
        Ok(self.step(op))
    }

    #[inline(always)]
    fn load(&mut self, word: u32) -> Result<u64, Stopped> {
        Ok(self.look(word))
    }

    #[inline(always)]
    fn swap(&mut self, word: u32, old: u64, new: u64) -> Result<u64, Stopped> {
        Ok(self.exchange(word, old, new))
    }
}

impl<'a, G: Gate> Driver<'a, G> {
    ghost use Rattle.std.specs.Prelude.{◌≡◌, ◌≤◌, ◌<◌, ◌+◌, ◌*◌, ◌%◌, ◌^◌, None, false, true};
    ghost use Rattle.walkx.specs.declared.operation.Op.TheVariants.{Load, Swap};
    ghost use Rattle.walk_memory.specs.Memory.{FitsMemory};
    ghost use Rattle.walkx.specs.Turns.{beginning, turning};
    ghost use Rattle.walkx.specs.Walk.{end_of};
    ghost use Rattle.walk_memory.specs.Blocks.{has_rank};
    ghost use Rattle.pram_board.specs.Worked.{WorkedAs, Works};
    ghost use Rattle.lawful_walk.specs.Moments.{Sound};
    ghost use Rattle.pram_board.specs.Rules.{May};
    ghost use Rattle.pram_board.specs.Seats.{IsLater, hears};
    ghost use Rattle.pram_board.specs.Inner.Plays.{IsAt, IsWalking, Led, Moved, OnlyLooked};
    ghost use Rattle.pram_board.specs.Inner.Plays.{RoamedThrough, WorkerGoesOn, driving};
    ghost use Rattle.pram_board.specs.Inner.Plays.{AtPart, AtTask, DonePart, in_block, led_to};
    ghost use Rattle.pram_board.specs.Inner.Plays.{turn_after, post_task, turning_at};
    ghost use Rattle.pram_board.specs.Inner.Until.{StaysUntil, limit_in};

    /// A driver that has made no step, where so many workers take part.
    #[inline(always)]
    pub(crate) fn new(
        board: &'a Board,
        seat: &'a mut Seat,
        gate: &'a G,
        worker: u32,
        fellows: u32,
    ) -> Driver<'a, G>
        ensures same { result.seat.ghost_name ≡ seat.entry.ghost_name }
        ensures is { driving result ≡ record { desk = board.now; seat = seat.old; made = 0 } }
    {
        Driver {
            board,
            seat,
            gate,
            worker,
            made: 0,
            rest: Rest::new(worker, fellows),
        }
    }

    // One atomic step after the gate was passed, and its answer.
    #[inline(always)]
    fn step(&mut self, op: Op) -> u64
        requires desk { self.old.seat.now.desk ≡ self.old.board.now }
        requires allowed { May self.old.board.now.task self.old.seat.now.record_of op }
        ensures same { self.new.seat.ghost_name ≡ self.old.seat.ghost_name }
        ensures board { self.new.board.now ≡ self.old.board.now }
        ensures grows { self.new.seat.now ≡ hears self.old.seat.now op result }
        ensures count { self.new.made ≡ (self.old.made + 1) % 2 ^ 64 }
        ensures sound { Sound self.old.board.now.task.job self.old.board.now.task.layout
            self.new.seat.now.record_of }
    {
        let made = self.made;
        self.gate.pass(self.worker, made);
        self.made = made.wrapping_add(1);
        let answer = self.board.step(self.seat, op);
        self.rest.hear(op, answer);
        answer
    }

    // The same, where it is a load.
    #[inline(always)]
    fn look(&mut self, word: u32) -> u64
        requires desk { self.old.seat.now.desk ≡ self.old.board.now }
        requires allowed { May self.old.board.now.task self.old.seat.now.record_of (Load word) }
        ensures same { self.new.seat.ghost_name ≡ self.old.seat.ghost_name }
        ensures board { self.new.board.now ≡ self.old.board.now }
        ensures grows { self.new.seat.now ≡ hears self.old.seat.now (Load word) result }
        ensures count { self.new.made ≡ (self.old.made + 1) % 2 ^ 64 }
        ensures sound { Sound self.old.board.now.task.job self.old.board.now.task.layout
            self.new.seat.now.record_of }
    {
        let made = self.made;
        self.gate.pass(self.worker, made);
        self.made = made.wrapping_add(1);
        self.board.load(self.seat, word)
    }

    // The same, where it is a swap.
    #[inline(always)]
    fn exchange(&mut self, word: u32, old: u64, new: u64) -> u64
        requires desk { self.old.seat.now.desk ≡ self.old.board.now }
        requires allowed { May self.old.board.now.task self.old.seat.now.record_of
            (Swap word old new) }
        ensures same { self.new.seat.ghost_name ≡ self.old.seat.ghost_name }
        ensures board { self.new.board.now ≡ self.old.board.now }
        ensures grows { self.new.seat.now ≡ hears self.old.seat.now (Swap word old new) result }
        ensures count { self.new.made ≡ (self.old.made + 1) % 2 ^ 64 }
        ensures sound { Sound self.old.board.now.task.job self.old.board.now.task.layout
            self.new.seat.now.record_of }
    {
        let made = self.made;
        self.gate.pass(self.worker, made);
        self.made = made.wrapping_add(1);
        self.board.swap(self.seat, word, old, new)
    }

    /// The seat has done what the driver did: how many steps it made, and its rest.
    #[inline(always)]
    pub(crate) fn end(self) -> (u64, Rest)
        ensures seat { self.exit.1.0.now ≡ self.entry.seat.now }
        ensures made { result.0 ≡ self.entry.made }
    {
        (self.made, self.rest)
    }

    /// Ticks until the worker is over or has come so far.
    #[inline(always)]
    pub(crate) fn work(&mut self, worker: &mut Worker, until: Until) -> Stay
        requires none { self.old.made ≡ 0 }
        requires works { Works self.old.board.now self.old.seat.now worker.old }
        ensures same { self.new.seat.ghost_name ≡ self.old.seat.ghost_name }
        ensures worked { WorkedAs (StaysUntil until) self.old.board.now.task self.old.seat.now
            worker.old.walking (limit_in until) self.new.seat.now worker.new.walking result }
        ensures later { IsLater self.old.board.now self.old.seat.now self.new.seat.now }
        ensures works { Works self.old.board.now self.new.seat.now worker.new }
    {
        self.board.facts();
        self.seat.facts();
        let mut patience = Patience::none();
        loop {
            if let Some(ended) = worker.ended() {
                return Stay::Ended(ended);
            }
            if until.is_reached(self.made - patience.looks) {
                return Stay::Stopped;
            }
            self.go_on(worker, until.is_limited(), &mut patience);
            self.seat.facts();
        }
    }

    // One atomic step of a worker; or whole turns up to the end of the phase, where the worker is
    // at the start of one and there is no limit.
    #[inline(always)]
    fn go_on(&mut self, worker: &mut Worker, limited: bool, patience: &mut Patience)
        requires room { self.old.made < 2 ^ 60 }
        requires few { 2 * patience.old.looks ≤ self.old.made }
        requires going { end_of worker.old.walking.now ≡ None }
        requires works { Works self.old.board.now self.old.seat.now worker.old }
        ensures same { self.new.seat.ghost_name ≡ self.old.seat.ghost_name }
        ensures goes { WorkerGoesOn limited (driving self.old, patience.old.looks) worker.old
            (driving self.new, patience.new.looks) worker.new }
    {
        if limited {
            return self.go_one(worker, *patience);
        }
        match worker.turn() {
            Some((node, phase)) => self.go_through(worker, node, phase, patience),
            None => self.go_one(worker, *patience),
        }
    }

    // One atomic step of a worker.
    #[inline(always)]
    fn go_one(&mut self, worker: &mut Worker, patience: Patience)
        requires room { self.old.made < 2 ^ 60 }
        requires few { 2 * patience.looks ≤ self.old.made }
        requires going { end_of worker.old.walking.now ≡ None }
        requires works { Works self.old.board.now self.old.seat.now worker.old }
        ensures same { self.new.seat.ghost_name ≡ self.old.seat.ghost_name }
        ensures goes { WorkerGoesOn true (driving self.old, patience.looks) worker.old
            (driving self.new, patience.looks) worker.new }
    {
        self.gate.pass(worker.number(), self.made);
        self.made = self.made.wrapping_add(1);
        let _ = self.board.tick(self.seat, worker);
    }

    // Whole turns up to the end of the phase.
    #[inline(always)]
    fn go_through(&mut self, worker: &mut Worker, node: u32, phase: u64, patience: &mut Patience)
        requires room { self.old.made < 2 ^ 60 }
        requires few { 2 * patience.old.looks ≤ self.old.made }
        requires turn { worker.old.walking ≡ turning worker.old.walking.number node phase
            worker.old.walking.memory }
        requires works { Works self.old.board.now self.old.seat.now worker.old }
        ensures same { self.new.seat.ghost_name ≡ self.old.seat.ghost_name }
        ensures goes { WorkerGoesOn false (driving self.old, patience.old.looks) worker.old
            (driving self.new, patience.new.looks) worker.new }
    {
        self.board.facts();
        self.rest.take();
        patience.begin(self.made);
        let number = worker.number();
        let mut memory = worker.lend();
        self.turns(number, &mut memory, node, phase, patience);
        worker.begin_at(1, memory);
    }

    // Turns of a phase, from the start of the one at this node until the root is finished, with the
    // blocks between them.
    #[inline(always)]
    fn turns(
        &mut self,
        number: u32,
        memory: &mut Memory,
        start: u32,
        phase: u64,
        patience: &mut Patience,
    )
        requires room { self.old.made < 2 ^ 60 }
        requires few { 2 * patience.old.looks + patience.old.left ≤ self.old.made }
        requires most { patience.old.left ≤ 512 }
        requires walks { IsWalking self.old.board.now.task (driving self.old)
            (turning number start phase memory.old) }
        ensures same { self.new.seat.ghost_name ≡ self.old.seat.ghost_name }
        ensures led { RoamedThrough self.old.board.now.task (driving self.old, patience.old.looks)
            (turning number start phase memory.old) (driving self.new, patience.new.looks)
            (beginning number 1 memory.new) }
    {
        let board = self.board;
        let task = board.task();
        let layout = task.layout;
        let mut node = start;
        'visits: loop {
            let post = Post::new(&task.job, &layout, number, node, phase);
            self.keep_off(&post, memory, patience);
            match self.visit(&post, memory) {
                None => {
                    self.seat.facts();
                    return;
                }
                Some(next) => {
                    self.seat.facts();
                    node = next;
                }
            }
        }
    }

    // A turn at the post's node comes next. A block of another's share that the worker does not
    // know is left to that one for a while.
    #[inline(always)]
    fn keep_off(&mut self, post: &Post, memory: &Memory, patience: &mut Patience)
        requires room { self.old.made < 2 ^ 62 }
        requires few { 2 * patience.old.looks + patience.old.left ≤ self.old.made }
        requires most { patience.old.left ≤ 512 }
        requires here { IsAt (post_task post.now) (driving self.old) }
        ensures same { self.new.seat.ghost_name ≡ self.old.seat.ghost_name }
        ensures looked { OnlyLooked (post_task post.now) (driving self.old) patience.old
            (driving self.new) patience.new }
    {
        let leaves = self.rest.leaves_to_another(post, memory);
        if leaves {
            self.wait(post, patience);
        }
    }

    // Looks at the node until it is finished in the phase, or the worker has no patience left.
    #[inline(never)]
    fn wait(&mut self, post: &Post, patience: &mut Patience)
        requires room { self.old.made < 2 ^ 62 }
        requires few { 2 * patience.old.looks + patience.old.left ≤ self.old.made }
        requires most { patience.old.left ≤ 512 }
        requires here { IsAt (post_task post.now) (driving self.old) }
        ensures same { self.new.seat.ghost_name ≡ self.old.seat.ghost_name }
        ensures looked { OnlyLooked (post_task post.now) (driving self.old) patience.old
            (driving self.new) patience.new }
    {
        post.limits_hold();
        let word = self.board.task().layout.node_word(post.node());
        let mut finished = false;
        'looks: while 0 < patience.left && !finished {
            patience.spend();
            finished = post.phase <= self.look(word);
            pause_between();
        }
    }

    // A turn, and the block that it enters: the node of the next turn, or none where the root is
    // finished.
    #[inline(always)]
    fn visit(&mut self, post: &Post, memory: &mut Memory) -> Option<u32>
        requires first { post.now.rank ≡ 0 }
        requires walks { IsWalking (post_task post.now) (driving self.old)
            (turning_at post.now memory.old) }
        ensures same { self.new.seat.ghost_name ≡ self.old.seat.ghost_name }
        ensures led { Led (post_task post.now) (driving self.old) (turning_at post.now memory.old)
            (driving self.new) (turn_after post.now memory.new result) }
    {
        match self.turn(post, memory) {
            Turned::Finished => None,
            Turned::To(next) => Some(next),
            Turned::Enters => {
                self.block(post, memory);
                Some(post.node())
            }
        }
    }

    // A turn, and what comes of it.
    #[inline(always)]
    fn turn(&mut self, post: &Post, memory: &Memory) -> Turned
        requires first { post.now.rank ≡ 0 }
        requires walks { IsWalking (post_task post.now) (driving self.old)
            (turning_at post.now memory.now) }
        ensures same { self.new.seat.ghost_name ≡ self.old.seat.ghost_name }
        ensures led { Led (post_task post.now) (driving self.old) (turning_at post.now memory.now)
            (driving self.new) (led_to post.now memory.now result) }
    {
        match turn(self, post) {
            Ok(turned) => {
                self.rest.mark(self.board.task().layout.leaves(), turned);
                self.seat.facts();
                turned
            }
            Err(_) => unreachable!(),
        }
    }

    // The tasks of a leaf's block, and its mark.
    #[inline(always)]
    fn block(&mut self, post: &Post, memory: &mut Memory)
        requires fits { FitsMemory post.now.job memory.old }
        requires walks { IsWalking (post_task post.now) (driving self.old)
            (in_block post.now 0 memory.old) }
        ensures same { self.new.seat.ghost_name ≡ self.old.seat.ghost_name }
        ensures led { Led (post_task post.now) (driving self.old) (in_block post.now 0 memory.old)
            (driving self.new) (turning_at post.now memory.new) }
    {
        let len = post.block_len();
        if 0 < len {
            self.tasks(post.at(0).leaf(), len, memory);
        }
        self.mark(post, len, memory);
    }

    // The tasks of a block of this length, from the leaf's processor on.
    #[inline(always)]
    fn tasks(&mut self, leaf: Leaf<'_>, len: u32, memory: &mut Memory)
        requires at { AtTask leaf len (driving self.old) memory.old }
        ensures same { self.new.seat.ghost_name ≡ self.old.seat.ghost_name }
        ensures moved { Moved (post_task leaf.entry) (driving self.old)
            (in_block leaf.entry leaf.entry.rank memory.old) (driving self.new)
            (in_block leaf.entry len memory.new) }
    {
        match leaf.kind() {
            Kind::Compute => self.first_tasks(leaf, len, memory),
            _ => self.second_tasks(leaf, len, memory),
        }
    }

    /// The task of the leaf's processor.
    #[inline(never)]
    pub(crate) fn part(&mut self, leaf: &Leaf, memory: &mut Memory)
        requires at { AtPart leaf.now (driving self.old) memory.old }
        ensures same { self.new.seat.ghost_name ≡ self.old.seat.ghost_name }
        ensures done { DonePart leaf.now (driving self.old) memory.old (driving self.new)
            memory.new }
    {
        match take_up(memory, self, leaf) {
            Ok(()) => self.seat.facts(),
            Err(_) => unreachable!(),
        }
    }

    // After the task of the last processor all go on alone, and the leaf is marked as they are
    // known.
    #[inline(always)]
    fn mark(&mut self, post: &Post, rank: u32, memory: &mut Memory)
        requires last { has_rank post.now.layout post.now.node rank ≡ false }
        requires walks { IsWalking (post_task post.now) (driving self.old)
            (in_block post.now rank memory.old) }
        ensures same { self.new.seat.ghost_name ≡ self.old.seat.ghost_name }
        ensures led { Led (post_task post.now) (driving self.old) (in_block post.now rank
            memory.old) (driving self.new) (turning_at post.now memory.new) }
    {
        let reach = memory.go_on(post);
        match mark(self, post, reach) {
            Ok(turned) => {
                self.rest.mark(self.board.task().layout.leaves(), turned);
                self.seat.facts();
            }
            Err(_) => unreachable!(),
        }
    }
}
