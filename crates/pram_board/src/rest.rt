//! How a worker keeps out of the way of others.
ghost use Rattle.std.specs.Prelude.{◌≤◌, ◌<◌, ◌*◌, ◌+◌, ◌^◌, ◌≡◌};

use pram_words::{Form, Layout};
use std::hint::spin_loop;
use walkx::turns::Turned;
use walkx::{Memory, Op, Post};

// How long a worker rests after the first phase in vain, and at most, in pauses of the processor.
const FIRST: u32 = 16;

const MOST: u32 = 1_024;

// How often in a phase it looks whether another one has finished a block, and how long it rests
// between two looks: in all about as long as it takes to load a block.
const LOOKS: u64 = 512;

const BETWEEN: u32 = 8;

/// What a worker knows of its own use. One that was the first to mark no leaf in a phase did there
/// what others did as well, and took lines of memory from them. So it rests before the next phase,
/// and twice as long each time, until it is the first somewhere. A worker whose fellows are lost
/// is that as soon as its rest is over. The idea is that of exponential backoff.
///
/// In the wide form each worker has a share of the leaves, into which its first turns lead. To load
/// a block that it does not remember costs a worker as much as several that it does, and the other
/// as much again when it comes back. So it leaves a block of another's share to that one for about
/// as long, once in a phase, and takes it over then. The idea is that of renting skis. The shares
/// are those of so many fellows as take part.
#[derive(Clone, Copy, Debug)]
pub(crate) struct Rest {
    worker: u32,
    fellows: u32,
    pauses: u32,
    raised: bool,
    is_first: bool,
}

impl Rest {
    /// A worker that has not rested.
    #[inline(always)]
    pub(crate) fn new(worker: u32, fellows: u32) -> Rest {
        Rest {
            worker,
            fellows,
            pauses: 0,
            raised: false,
            is_first: true,
        }
    }

    /// An atomic step was made, and this was its answer.
    #[inline(always)]
    pub(crate) fn hear(&mut self, op: Op, answer: u64) {
        match op {
            Op::Max(_, phase) => self.raised = answer < phase,
            Op::Store(_, _) => self.raised = false,
            _ => {}
        }
    }

    /// A script came to its end. One that leads to a leaf has marked it, or has stored the leaf as
    /// the position.
    #[inline(always)]
    pub(crate) fn mark(&mut self, leaves: u32, turned: Turned) {
        if let Turned::To(node) = turned {
            self.is_first |= leaves <= node && self.raised;
        }
    }

    /// A phase begins: the rest before it, if the last one was in vain.
    pub(crate) fn take(&mut self)
        ensures { self.new.pauses ≤ 1024 }
    {
        self.pauses = if self.is_first {
            0
        } else {
            self.pauses.saturating_mul(2).max(FIRST).min(MOST)
        };
        self.is_first = false;
        pause(self.pauses);
    }

    /// The node of the post is a leaf whose block the worker leaves to another one for a while: it
    /// lies in another's share, and the worker does not know it.
    #[inline(always)]
    pub(crate) fn leaves_to_another(&self, post: &Post, memory: &Memory) -> bool {
        let layout = post.layout;
        layout.leaves() <= post.node
            && !knows(layout, memory, post.node, post.phase)
            && self.is_anothers(layout, post.node)
    }

    // The form is wide, and the leaf lies in no share of this worker.
    fn is_anothers(self, layout: &Layout, node: u32) -> bool {
        layout.form() != Form::Compact && !self.is_in_share(layout, node)
    }

    // The leaf lies in the share of this worker. Where there are more workers than leaves, those
    // beyond have none.
    fn is_in_share(self, layout: &Layout, node: u32) -> bool {
        let shares = self.fellows.clamp(1, layout.workers()).next_power_of_two();
        let share = (layout.leaves() / shares).max(1);
        self.worker < layout.leaves() && node / share == layout.first_leaf(self.worker) / share
    }
}

/// The looks at blocks that a worker leaves to others: how many it has made, and how many more it
/// may make in this phase. It never looks more often than it has worked.
#[derive(Clone, Copy, Debug)]
pub(crate) struct Patience {
    pub looks: u64,
    pub left: u64,
}

impl Patience {
    /// That of a worker that has not looked.
    #[inline(always)]
    pub(crate) fn none() -> Patience
        ensures looks { result.looks ≡ 0 }
        ensures left { result.left ≡ 0 }
    {
        Patience { looks: 0, left: 0 }
    }

    /// A phase begins, after so many atomic steps, looks among them.
    #[inline(always)]
    pub(crate) fn begin(&mut self, made: u64)
        requires few { 2 * self.old.looks ≤ made }
        requires room { made < 2 ^ 63 }
        ensures looks { self.new.looks ≡ self.old.looks }
        ensures few { 2 * self.new.looks + self.new.left ≤ made }
        ensures most { self.new.left ≤ 512 }
    {
        self.left = LOOKS.min(made - 2 * self.looks);
    }

    /// One look more.
    #[inline(always)]
    pub(crate) fn spend(&mut self)
        requires left { 1 ≤ self.old.left }
        requires room { self.old.looks < 2 ^ 63 }
        ensures looks { self.new.looks ≡ self.old.looks + 1 }
        ensures left { self.new.left + 1 ≡ self.old.left }
    {
        self.looks += 1;
        self.left -= 1;
    }
}

/// The pause between two looks.
pub(crate) fn pause_between() {
    pause(BETWEEN);
}

// So many pauses of the processor.
fn pause(count: u32) {
    for _ in 0..count {
        spin_loop();
    }
}

// The worker remembers how the block of the leaf stood before this phase, or later, by its first
// processor.
#[inline(always)]
fn knows(layout: &Layout, memory: &Memory, node: u32, phase: u64) -> bool
    requires { layout.now.leaves ≤ node }
{
    let first = layout.grain().saturating_mul(node - layout.leaves());
    phase <= 3 * u64::from(memory.memo(first).step) + 1
}
