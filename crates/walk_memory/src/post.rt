//! Where a worker stands.
ghost use Rattle.std.specs.Prelude.{◌≡◌, ◌+◌, ◌-◌, ◌<◌, ◌≤◌, nat_lt, ℕ, ◌*◌, suc};
ghost use Rattle.pram_machine.specs.Machine.{counter_place, register_place};
ghost use Rattle.pram_words.specs.Phases.{kind_at};
ghost use Rattle.pram_words.specs.Words.{grain, number_of, places_of};
ghost use Rattle.pram_words.specs.declared.words.Word.TheVariants.{Asked, Claim};
ghost use Rattle.walk_memory.specs.Inner.Posts.{ClaimsFrom, IsCell, IsLeafPost, IsLeafOf, IsPairAt};
ghost use Rattle.walk_memory.specs.Inner.Posts.{IsPost, PostData, at_rank, post_data, processor_of};
ghost use Rattle.walk_memory.specs.Inner.Posts.{step_of};
ghost use Rattle.walk_memory.specs.Blocks.{IsBoard, IsLayoutOf, IsWide, has_rank, last_phase};
ghost use Rattle.walk_memory.specs.Blocks.{processor_at};

use pram_job::{Job, Rule};
use pram_words::{Kind, Layout, OwnWords, kind_of, step_of};
use std::marker::Model;

/// Says to a proof that a job and the layout of its board are within their limits. It does nothing.
#[inline(always)]
pub fn within_limits(job: &Job, layout: &Layout)
    requires { IsLayoutOf job.now layout.now }
    ensures { IsBoard job.now layout.now }
{
    job.limits_hold();
    layout.limits_hold();
}

/// A worker at a node, in the phase of its turn, at the processor of a rank in the node's block,
/// with the job and the layout of its board.
#[derive(Drop)]
pub struct Post<'a> {
    pub job: &'a Job,
    pub layout: &'a Layout,
    pub worker: u32,
    pub node: u32,
    pub phase: u64,
    pub rank: u32,
}

impl<'a> Model for Post<'a> {
    ghost Value = { PostData };

    ghost view = { λ p. post_data p.job.now p.layout.now p.worker p.node p.phase p.rank };

    ghost invariant = { λ p. IsPost
        (post_data p.job.now p.layout.now p.worker p.node p.phase p.rank) };
}

impl<'a> Post<'a> {
    /// A worker at this node, in this phase, at the first processor of its block.
    #[inline(always)]
    pub fn new(job: &'a Job, layout: &'a Layout, worker: u32, node: u32, phase: u64) -> Post<'a>
        requires { IsPost (post_data job.now layout.now worker node phase 0) }
        ensures { result ≡ post_data job.now layout.now worker node phase 0 }
    {
        Post {
            job,
            layout,
            worker,
            node,
            phase,
            rank: 0,
        }
    }

    /// This post, at the processor of another rank.
    #[inline(always)]
    pub fn at_rank(self, rank: u32) -> Post<'a>
        ensures { result ≡ at_rank self.entry rank }
    {
        Post { rank, ..self }
    }

    /// The same by reference.
    #[inline(always)]
    pub fn at(&self, rank: u32) -> Post<'a>
        ensures { result ≡ at_rank self.now rank }
    {
        Post { rank, ..*self }
    }

    /// The node where the worker stands.
    #[inline(always)]
    pub fn node(&self) -> u32
        ensures { result ≡ self.now.node }
    {
        self.node
    }

    /// The processor of the rank.
    #[inline(always)]
    pub fn processor(&self) -> u32
        requires { IsLeafPost self.now }
        ensures { result ≡ processor_of self.now }
    {
        self.processor_at(self.rank)
    }

    // The processor of another rank.
    #[inline(always)]
    fn processor_at(&self, rank: u32) -> u32
        requires { IsLeafPost (at_rank self.now rank) }
        ensures { result ≡ processor_of (at_rank self.now rank) }
    {
        self.layout.grain() * (self.node - self.layout.leaves()) + rank
    }

    /// The processor of the first rank, where there is one.
    #[inline(always)]
    pub(crate) fn first_processor(&self) -> u32
        requires { self.now.layout.leaves ≤ self.now.node }
        ensures { result ≡ processor_at self.now.layout self.now.node 0 }
    {
        self.limits_hold();
        self.layout.grain() * (self.node - self.layout.leaves())
    }

    /// The step of the phase.
    #[inline(always)]
    pub(crate) fn step(&self) -> u32
        requires { self.now.phase ≤ 3 * self.now.job.steps }
        ensures { result ≡ step_of self.now }
    {
        self.limits_hold();
        step_of(self.phase)
    }

    /// The last phase of that step.
    #[inline(always)]
    pub fn last_phase(&self) -> u64
        requires { self.now.phase ≤ 3 * self.now.job.steps }
        ensures { result ≡ last_phase self.now.phase }
    {
        3 * u64::from(self.step())
    }

    /// Says to a proof that the worker is on its board. It does nothing.
    #[inline(always)]
    pub fn limits_hold(&self)
        ensures { IsPost self.now }
    {
        let _ = &self.node;
    }

    /// How many processors the leaf's block has.
    #[inline(always)]
    pub fn block_len(&self) -> u32
        requires leaf { self.now.layout.leaves ≤ self.now.node }
        ensures ranks { (rank : ℕ) → has_rank self.now.layout self.now.node rank
            ≡ nat_lt rank result }
        ensures most { result ≤ grain self.now.layout }
    {
        self.limits_hold();
        let layout = self.layout;
        let first = layout.grain() * (self.node - layout.leaves());
        layout.grain().min(layout.procs().saturating_sub(first))
    }

    // Where the claim words begin, if there are any: one a cell.
    #[inline(always)]
    fn first_claim(&self) -> u32
        ensures { ClaimsFrom self.now.layout result }
    {
        self.limits_hold();
        if self.job.cells() == 0 {
            return 0;
        }
        match self.job.rule() {
            Rule::Common => 0,
            Rule::Priority => self.layout.claim_word(0),
            Rule::Crew => self.layout.claim_word(0),
        }
    }

    /// This post, known to be a leaf of a processor.
    #[inline(always)]
    pub fn leaf(&self) -> Leaf<'a>
        requires { IsLeafPost self.now }
        ensures { result ≡ self.now }
    {
        self.leaf_at(self.rank)
    }

    /// The post at the processor of another rank, known to be a leaf.
    #[inline(always)]
    pub fn leaf_at(&self, rank: u32) -> Leaf<'a>
        requires { IsLeafPost (at_rank self.now rank) }
        ensures { result ≡ at_rank self.now rank }
    {
        Leaf {
            job: self.job,
            layout: self.layout,
            worker: self.worker,
            node: self.node,
            phase: self.phase,
            step: step_of(self.phase),
            kind: kind_of(self.phase),
            rank,
            processor: self.processor_at(rank),
            own: self.layout.own_words(self.processor_at(rank)),
            first_cell: self.layout.cells_word(),
            first_claim: self.first_claim(),
        }
    }
}

/// A worker at the leaf of a processor.
#[derive(Drop)]
pub struct Leaf<'a> {
    job: &'a Job,
    layout: &'a Layout,
    worker: u32,
    node: u32,
    phase: u64,
    rank: u32,
    step: u32,
    kind: Kind,
    processor: u32,
    own: OwnWords,
    first_cell: u32,
    first_claim: u32,
}

impl<'a> Model for Leaf<'a> {
    ghost Value = { PostData };

    ghost view = { λ p. post_data p.job.now p.layout.now p.worker p.node p.phase p.rank };

    ghost invariant = { λ p. (IsLeafOf
        (post_data p.job.now p.layout.now p.worker p.node p.phase p.rank) p.step p.kind
        p.processor p.own p.first_cell) × ClaimsFrom p.layout.now p.first_claim };
}

impl<'a> Leaf<'a> {
    /// The leaf at the next processor of the block, in the wide form.
    #[inline(always)]
    pub fn next(&self) -> Leaf<'a>
        requires wide { IsWide self.now.layout.form }
        requires leaf { IsLeafPost (at_rank self.now (suc self.now.rank)) }
        ensures { result ≡ at_rank self.now (suc self.now.rank) }
    {
        Leaf {
            rank: self.rank + 1,
            processor: self.processor + 1,
            own: OwnWords {
                counter: self.own.counter + 2,
                registers: self.own.registers + 2,
                stride: self.own.stride,
            },
            ..*self
        }
    }

    /// The leaf at the processor after that of this rank, which comes later in the block, in the
    /// wide form.
    #[inline(always)]
    pub fn after(&self, rank: u32) -> Leaf<'a>
        requires wide { IsWide self.now.layout.form }
        requires later { self.now.rank ≤ rank }
        requires leaf { IsLeafPost (at_rank self.now (suc rank)) }
        ensures { result ≡ at_rank self.now (suc rank) }
    {
        let more = rank - self.rank + 1;
        Leaf {
            rank: rank + 1,
            processor: self.processor + more,
            own: OwnWords {
                counter: self.own.counter + 2 * more,
                registers: self.own.registers + 2 * more,
                stride: self.own.stride,
            },
            ..*self
        }
    }

    /// The same leaf once more.
    #[inline(always)]
    pub fn again(&self) -> Leaf<'a>
        ensures { result ≡ self.now }
    {
        Leaf {
            own: self.layout.own_words(self.processor),
            ..*self
        }
    }

    /// The processor's rank in the block.
    #[inline(always)]
    pub fn rank(&self) -> u32
        ensures { result ≡ self.now.rank }
    {
        self.rank
    }

    #[inline(always)]
    pub fn job(&self) -> &'a Job
        ensures value { result.now ≡ self.now.job }
        ensures limits { IsLeafPost self.now }
    {
        self.job
    }

    #[inline(always)]
    pub fn layout(&self) -> &'a Layout
        ensures { result.now ≡ self.now.layout }
    {
        self.layout
    }

    /// The processor of the leaf.
    #[inline(always)]
    pub fn processor(&self) -> u32
        ensures value { result ≡ processor_of self.now }
        ensures below { result < self.now.layout.procs }
        ensures limits { IsLeafPost self.now }
    {
        self.processor
    }

    /// The step of the phase.
    #[inline(always)]
    pub fn step(&self) -> u32
        ensures value { result ≡ step_of self.now }
        ensures limits { IsLeafPost self.now }
    {
        self.step
    }

    /// The phase.
    #[inline(always)]
    pub fn phase(&self) -> u64
        ensures value { result ≡ self.now.phase }
        ensures limits { IsLeafPost self.now }
    {
        self.phase
    }

    /// What the phase does.
    #[inline(always)]
    pub fn kind(&self) -> Kind
        ensures value { result ≡ kind_at self.now.phase }
        ensures limits { IsLeafPost self.now }
    {
        self.kind
    }

    /// The rule of writing.
    #[inline(always)]
    pub fn rule(&self) -> Rule
        ensures value { result ≡ self.now.job.rule }
        ensures limits { IsLeafPost self.now }
    {
        self.job.rule()
    }

    /// How many cells there are.
    #[inline(always)]
    pub fn cells(&self) -> u32
        ensures value { result ≡ self.now.job.cells }
        ensures limits { IsLeafPost self.now }
    {
        self.job.cells()
    }

    /// The place of the processor's counter.
    #[inline(always)]
    pub fn counter_place(&self) -> u32
        ensures value { result ≡ counter_place self.now.job (processor_of self.now) }
        ensures below { result < places_of self.now.layout }
        ensures limits { IsLeafPost self.now }
    {
        self.job.counter_place(self.processor())
    }

    /// The place of a register of the processor.
    #[inline(always)]
    pub fn register_place(&self, register: u8) -> u32
        requires { register < 4 }
        ensures value { result ≡ register_place self.now.job (processor_of self.now) register }
        ensures below { result < places_of self.now.layout }
        ensures limits { IsLeafPost self.now }
    {
        self.job.register_place(self.processor(), register)
    }

    /// The word of part j of the processor's request.
    #[inline(always)]
    pub fn request_word(&self, j: u32) -> u32
        requires { j < 3 }
        ensures { result ≡ number_of self.now.layout (Asked (processor_of self.now) j) }
    {
        self.layout.request_word(self.processor(), j)
    }

    /// The first word of the processor's counter.
    #[inline(always)]
    pub fn counter_word(&self) -> u32
        ensures { IsPairAt self.now.layout (counter_place self.now.job (processor_of self.now))
            result }
    {
        self.own.counter
    }

    /// That of one of its registers.
    #[inline(always)]
    pub fn register_word(&self, register: u8) -> u32
        requires { register < 4 }
        ensures { IsPairAt self.now.layout
            (register_place self.now.job (processor_of self.now) register) result }
    {
        self.own.registers + self.own.stride * u32::from(register)
    }

    /// That of a cell.
    #[inline(always)]
    pub fn cell_word(&self, cell: u32) -> u32
        requires { cell < self.now.job.cells }
        ensures { IsPairAt self.now.layout cell result }
    {
        self.first_cell + 2 * cell
    }

    /// The first word of a place; the second one comes next.
    #[tactic(auto, using(crate::proofs::Boards::length_small))]
    #[inline(always)]
    pub fn place_word(&self, place: u32) -> u32
        requires { place < places_of self.now.layout }
        ensures { IsPairAt self.now.layout place result }
    {
        self.layout.place_word(place)
    }

    /// The claim word of a cell.
    #[inline(always)]
    pub fn claim_word(&self, cell: u32) -> u32
        requires { IsCell self.now.layout cell }
        ensures { result ≡ number_of self.now.layout (Claim cell) }
    {
        self.first_claim + cell
    }
}
