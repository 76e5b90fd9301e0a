//! The reader of a cell.
ghost use Rattle.std.specs.Prelude.{◌≡◌, ℕ, ◌<◌};
ghost use Rattle.walkx.specs.Inner.Glances.{HearsGlance, IsGlance, IsLaterGlance};
ghost use Rattle.walkx.specs.Inner.Glances.{StandsAfterGlance, most_looked, reads_again};
ghost use Rattle.walkx.specs.Inner.Glances.{reads_both, script_of_glance};
ghost use Rattle.walkx.specs.Reads.{LooksOnBoard, lesser, looks_for, told_at};
ghost use Rattle.walkx.specs.Scripts.{ends};
ghost use Rattle.walk_memory.specs.Blocks.{IsBoard};

use crate::operation::{ReadOp, Reading};
use crate::words::seen_step;
use pram_job::Job;
use pram_words::{Layout, newer_payload, payload, stamp};
use std::marker::Model;
use walk_memory::within_limits;

/// What a reader asks next, and what for.
#[derive(Clone, Copy)]
pub(crate) enum Glance {
    /// The root is loaded.
    Begin,
    /// The conflict is loaded, the root being this.
    Look(u64),
    /// The first word is loaded, this step having been seen.
    First(u32),
    /// The second word is loaded, the first being this.
    Second(u32, u64),
    /// The first word is loaded again, the two having been these.
    Again(u32, u64, u64),
    /// The reader is over.
    Over(Reading),
}

/// A reader of a cell. It asks for one atomic step at a time, five at most, and is told the answer.
#[derive(Drop)]
pub struct Reader {
    cell: u32,
    stage: Glance,
    heard: [u64; 5],
    count: usize,
}

impl Model for Reader {
    ghost use Rattle.std.specs.Prelude.{◌≤◌};
    ghost use Rattle.walkx.specs.Inner.Glances.{ReaderData, most_looked, reader_data};
    ghost use Rattle.walkx.specs.Inner.Heard.{newest};

    ghost Value = { ReaderData };

    ghost view = { λ r. reader_data r.cell r.stage (newest r.count r.heard) };

    ghost invariant = { λ r. r.count ≤ most_looked r.stage };
}

impl Reader {
    ghost use Rattle.std.specs.Prelude.{◌≡◌, ℕ, ◌<◌, [], length};
    ghost use Rattle.pram_job.specs.Job.{JobData};
    ghost use Rattle.pram_words.specs.Words.{LayoutData};
    ghost use Rattle.walkx.specs.Serving.{FollowsScript};
    ghost use Rattle.walkx.specs.Reads.{HeardAdmitted, LooksFit, LooksOnBoard, answered, op_by};
    ghost use Rattle.walk_memory.specs.Blocks.{IsLayoutOf};

    /// A reader of this cell.
    pub fn new(cell: u32) -> Reader
        ensures value { result.looking ≡ record { cell = cell; heard = [] } }
        ensures fits { (job : JobData) (y : LayoutData) → LooksFit job y result.looking }
        ensures follows { (y : LayoutData) → cell < y.cells → FollowsScript y result }
    {
        Reader {
            cell,
            stage: Glance::Begin,
            heard: [0; 5],
            count: 0,
        }
    }

    /// The reader's next atomic step, or its answer.
    pub fn ask(&self, layout: &Layout) -> ReadOp
        requires { FollowsScript layout.now self.now }
        ensures asks { result ≡ op_by layout.now self.now.looking }
        ensures on_board { LooksOnBoard layout.now result }
        ensures few { (k : ℕ) → result ≡ ReadOp.Load k → length self.now.looking.heard < 5 }
    {
        operation(layout, self.cell, self.stage)
    }

    /// Hears the answer of the step that it asks for.
    pub fn tell(&mut self, job: &Job, layout: &Layout, answer: u64)
        requires layout { IsLayoutOf job.now layout.now }
        requires follows { FollowsScript layout.now self.old }
        requires fits { LooksFit job.now layout.now self.old.looking }
        requires admitted { HeardAdmitted job.now layout.now
            (op_by layout.now self.old.looking) answer }
        ensures told { self.new.looking ≡ answered layout.now self.old.looking answer }
        ensures follows { FollowsScript layout.now self.new }
        ensures fits { LooksFit job.now layout.now self.new.looking }
    {
        if let Glance::Over(_) = self.stage {
            return;
        }
        within_limits(job, layout);
        self.stage = after(job, layout, self.cell, self.stage, answer);
        self.heard[self.count] = answer;
        self.count += 1;
    }
}

// The operation that a stage asks for.
#[tactic(auto, unfolding(crate::specs::Reads::reader_script, crate::specs::Reads::read_script))]
fn operation(layout: &Layout, cell: u32, stage: Glance) -> ReadOp
    requires cell { cell < layout.now.cells }
    ensures asks { result ≡ looks_for (script_of_glance layout.now cell stage) }
    ensures on_board { LooksOnBoard layout.now result }
    ensures few { (k : ℕ) → result ≡ ReadOp.Load k → most_looked stage < 5 }
{
    layout.limits_hold();
    match stage {
        Glance::Begin => ReadOp::Load(layout.node_word(1)),
        Glance::Look(_) => ReadOp::Load(layout.conflict_word()),
        Glance::First(_) | Glance::Again(_, _, _) => ReadOp::Load(layout.place_word(cell)),
        Glance::Second(_, _) => ReadOp::Load(layout.place_word(cell) + 1),
        Glance::Over(reading) => ReadOp::Over(reading),
    }
}

// What the answer to a stage leads to.
#[tactic(auto, unfolding(crate::specs::Reads::reader_script, crate::specs::Reads::read_script))]
fn after(job: &Job, layout: &Layout, cell: u32, stage: Glance, answer: u64) -> Glance
    requires board { IsBoard job.now layout.now }
    requires stage { IsGlance stage }
    requires answer { HearsGlance job.now layout.now cell stage answer }
    ensures rest { StandsAfterGlance layout.now cell stage answer result }
    ensures stage { IsGlance result }
    ensures later { IsLaterGlance stage result }
{
    match stage {
        Glance::Begin => after_root(job, layout, cell, answer),
        Glance::Look(root) => Glance::First(seen_step(root, answer)),
        Glance::First(step) => Glance::Second(step, answer),
        Glance::Second(step, first) => after_both(layout, cell, step, first, answer),
        Glance::Again(step, first, second) => Glance::Over(after_again(
            step, first, second, answer,
        )),
        Glance::Over(reading) => Glance::Over(reading),
    }
}

// The root was heard.
#[tactic(auto, unfolding(crate::specs::Reads::reader_script))]
fn after_root(job: &Job, layout: &Layout, cell: u32, root: u64) -> Glance
    requires board { IsBoard job.now layout.now }
    requires root { HearsGlance job.now layout.now cell Glance.Begin root }
    ensures rest { StandsAfterGlance layout.now cell Glance.Begin root result }
    ensures stage { IsGlance result }
    ensures later { IsLaterGlance Glance.Begin result }
{
    if root % 3 == 0 {
        Glance::Look(root)
    } else {
        Glance::First(seen_step(root, 0))
    }
}

// Both words were heard.
fn after_both(layout: &Layout, cell: u32, step: u32, first: u64, second: u64) -> Glance
    ensures rest { script_of_glance layout.now cell result ≡ reads_both layout.now cell step first
        second }
    ensures stage { IsGlance result }
    ensures later { IsLaterGlance (Glance.Second step first) result }
{
    if stamp(first) <= step {
        if stamp(second) <= step {
            Glance::Over(Reading::At {
                step,
                value: newer_payload(first, second),
            })
        } else {
            Glance::Again(step, first, second)
        }
    } else if stamp(second) <= step {
        Glance::Over(Reading::At {
            step,
            value: payload(second),
        })
    } else {
        Glance::Over(reading(lesser(first, second)))
    }
}

// The first word was heard once more.
fn after_again(step: u32, first: u64, second: u64, again: u64) -> Reading
    ensures { ends result ≡ reads_again step first second again }
{
    if again == first {
        Reading::At {
            step,
            value: payload(first),
        }
    } else {
        reading(lesser(again, second))
    }
}

// The word with the lesser stamp, the first one if the stamps are equal.
fn lesser(first: u64, second: u64) -> u64
    ensures { result ≡ lesser first second }
{
    if stamp(first) <= stamp(second) {
        first
    } else {
        second
    }
}

// What a word says.
fn reading(word: u64) -> Reading
    ensures { ends result ≡ told_at word }
{
    Reading::At {
        step: stamp(word),
        value: payload(word),
    }
}
