//! What a worker remembers.
ghost use Rattle.std.specs.Prelude.{◌≡◌, ◌==◌, ◌+◌, ◌-◌, ◌*◌, ◌%◌, ◌<◌, ◌≤◌, ℕ, suc, nat_lt};
ghost use Rattle.std.specs.Prelude.{Some, None, IfNone, IfOk, IfSome, List, [], length, slice_get};
ghost use Rattle.std.specs.Prelude.{slice_set, IsTrue};
ghost use Rattle.pram_machine.specs.Instructions.{gives};
ghost use Rattle.pram_machine.specs.Turns.{IsSorted, request_of};
ghost use Rattle.walk_memory.specs.declared.memo.Memo.{Memo};
ghost use Rattle.pram_words.specs.Phases.{kind_at};
ghost use Rattle.pram_words.specs.Words.{grain};
ghost use Rattle.walk_memory.specs.Inner.Posts.{processor_of, step_of};
ghost use Rattle.walk_memory.specs.AsOne.{AllStay};
ghost use Rattle.walk_memory.specs.Lanes.{lane, memos_of};
ghost use Rattle.walk_memory.specs.Rows.{AllIn};
ghost use Rattle.walk_memory.specs.Together.{gone_from};
ghost use Rattle.walk_memory.specs.Memory.{at_start, blank, has_store, is_past, memo_of, own_after};
ghost use Rattle.walk_memory.specs.Memory.{own_at_start, reach, settles_in};
ghost use Rattle.walk_memory.specs.OwnWrites.{cell_write};
ghost use Rattle.walk_memory.specs.Plain.{AllClaimBy, AllHeld, AllLoadBy, AllStore, taken};
ghost use Rattle.walk_memory.specs.Turned.{IsShaped, landed, stored};
ghost use Rattle.walk_memory.specs.Learned.{memo_after};
ghost use Rattle.walk_memory.specs.Stands.{IsStand, StandsAt};
ghost use Rattle.walk_memory.specs.Blocks.{least_of, block_gone_on, block_reach, has_rank};
ghost use Rattle.walk_memory.specs.Blocks.{reach_from_phase};

use crate::asked::fetch;
use crate::block::Block;
use crate::claim_plain::plain_claims;
use crate::load_in::{Claims, Loads};
use crate::plain::{last_stands, plain_loads, take_loads};
use crate::post::{Leaf, Post};
use crate::row_walk::{all_stored, go_far, lanes_from, lanes_to, span_of};
use crate::span::Span;
use crate::together::go_apart;
use pram_job::{Instr, Job};
use pram_machine::{Put, Turn};
use pram_words::Kind;
use std::alloc::{AllocError, Global};
use std::marker::Model;

/// What is a processor's own.
#[derive(Clone, Copy, Debug, PartialEq, Eq)]
pub struct Own {
    pub counter: u32,
    pub registers: [u32; 4],
}

impl Own {
    /// What each processor has before the first step.
    #[inline(always)]
    pub fn at_start() -> Own
        ensures { result ≡ own_at_start }
    {
        Own {
            counter: 0,
            registers: [0; 4],
        }
    }

    /// It is this after a turn of the leaf's processor.
    #[inline(always)]
    pub fn take(&mut self, leaf: &Leaf, turn: Turn)
        requires { IsShaped leaf.now.job (processor_of leaf.now) turn }
        ensures { self.new ≡ own_after leaf.now.job (processor_of leaf.now) self.old
            (request_of turn) }
    {
        if let Put::Register(place, value) = turn.put {
            self.registers[(place - leaf.register_place(0)) as usize] = value;
        }
        self.counter = turn.next;
    }

    /// And this after a load into a register.
    #[inline(always)]
    pub fn load(&mut self, leaf: &Leaf, register: u8, value: u32)
        requires register { register < 4 }
        requires counter { self.old.counter < length leaf.now.job.code }
        ensures { self.new ≡ own_after leaf.now.job (processor_of leaf.now) self.old
            (gives leaf.now.job (processor_of leaf.now) self.old.counter register value) }
    {
        let _ = leaf.job();
        self.registers[register as usize] = value;
        self.counter += 1;
    }
}

/// What a worker of the wide form knows of a processor, which goes on alone as far as it neither
/// reads a cell nor stores.
#[derive(Clone, Copy, Debug, PartialEq, Eq)]
pub struct Memo {
    /// The last phase in which it did something.
    pub acted: u64,
    /// After how many steps it is so.
    pub step: u32,
    pub own: Own,
    /// The step in which it last settled.
    pub settled: u32,
    /// What its words tell, which are written where it settles.
    pub told: Own,
    /// The cell and the value of the store in the last of the steps, while it is still to be carried
    /// out.
    pub store: Option<(u32, u32)>,
}

impl Memo {
    /// What is known of each processor before the first step.
    #[inline(always)]
    pub fn at_start() -> Memo
        ensures { result ≡ at_start }
    {
        Memo {
            acted: 0,
            step: 0,
            own: Own::at_start(),
            settled: 0,
            told: Own::at_start(),
            store: None,
        }
    }

    /// What was known is forgotten.
    #[inline(always)]
    pub fn forget(&mut self)
        ensures { self.new ≡ at_start }
    {
        *self = Memo::at_start();
    }

    /// It is of the step before this one.
    #[inline(always)]
    pub fn is_before(&self, t: u32) -> bool
        ensures { result ≡ (suc self.now.step == t) }
    {
        u64::from(self.step) + 1 == u64::from(t)
    }

    /// Up to which phase nothing is to be done, but for what was done when it last acted.
    #[inline(always)]
    pub(crate) fn reach(&self) -> u64
        ensures { result ≡ reach self.now }
    {
        let last = 3 * u64::from(self.step);
        if self.store.is_some() {
            last.saturating_sub(2)
        } else {
            last
        }
    }

    /// Nothing is to be done in this phase.
    #[inline(always)]
    pub fn is_past(&self, phase: u64) -> bool
        ensures { result ≡ is_past phase self.now }
    {
        self.acted < phase && phase <= self.reach()
    }

    /// The store of this step is still to be carried out.
    #[inline(always)]
    pub fn has_store(&self, t: u32) -> bool
        ensures { result ≡ has_store t self.now }
    {
        self.step == t && self.store.is_some()
    }

    /// What is known after a turn of the leaf's step, in which it settles or not.
    #[inline(always)]
    pub fn take_up(&mut self, leaf: &Leaf, turn: Turn, settles: bool)
        requires first { kind_at leaf.now.phase ≡ Kind.Compute }
        requires shape { IsShaped leaf.now.job (processor_of leaf.now) turn }
        requires settles { settles ≡ settles_in leaf.now.job (step_of leaf.now) self.old.settled
            self.old.own }
        ensures { self.new ≡ memo_after leaf.now.job (step_of leaf.now) (processor_of leaf.now)
            self.old (request_of turn) }
    {
        self.own.take(leaf, turn);
        self.acted = leaf.phase();
        self.step = leaf.step();
        if settles {
            self.settled = leaf.step();
            self.told = self.own;
        }
        self.store = store_of(leaf.job(), turn);
    }

    /// Its words tell in the leaf's step what it is. It stores nothing in it.
    #[inline(always)]
    pub fn land(&mut self, leaf: &Leaf)
        ensures { self.new ≡ landed leaf.now self.old }
    {
        self.told = self.own;
        self.settled = leaf.step();
        self.acted = leaf.phase();
        self.step = leaf.step();
        self.store = None;
    }

    /// The store is carried out, if it was remembered.
    #[inline(always)]
    pub fn carry(&mut self, leaf: &Leaf)
        requires { kind_at leaf.now.phase ≡ Kind.Verify }
        ensures { self.new ≡ stored leaf.now self.old }
    {
        if self.has_store(leaf.step()) {
            self.acted = leaf.phase();
            self.store = None;
        }
    }
}

/// The cell and the value that a turn stores, if it stores.
#[inline(always)]
pub fn store_of(job: &Job, turn: Turn) -> Option<(u32, u32)>
    requires { IsSorted job.now turn.put }
    ensures { result ≡ cell_write job.now (request_of turn).put }
{
    let _ = job;
    match turn.put {
        Put::Cell(cell, value) => Some((cell, value)),
        _ => None,
    }
}

/// The instruction at a counter, which processors stand at.
#[derive(Clone, Copy)]
pub struct Stand<'a> {
    pub counter: u32,
    pub instr: &'a Instr,
}

/// The same, and a closure that gives the instruction by a name that tells its form.
#[derive(Drop)]
pub struct Formed<'a, F: Fn() -> Instr> {
    pub stand: Stand<'a>,
    pub form: F,
}

impl<'a> Stand<'a> {
    /// This stand with a closure that gives its instruction.
    #[inline(always)]
    pub fn by<F: Fn() -> Instr>(self, form: F) -> Formed<'a, F>
        ensures stand { result.stand ≡ self.entry }
        ensures form { result.form ≡ form }
    {
        Formed { stand: self, form }
    }
}

/// What a worker remembers of each processor, 64 to a block. One without memory knows what each is
/// before the first step, and nothing else.
#[derive(Drop)]
pub struct Memory {
    pub blocks: Option<Vec<Block>>,
}

impl Model for Memory {
    ghost Value = { List Memo };

    ghost view = { λ m. elim m.blocks [ None ↦ [] | Some blocks ↦ memos_of blocks.items ] };
}

impl Memory {
    /// No memory.
    #[inline(always)]
    pub fn none() -> Memory
        ensures { result ≡ [] }
    {
        Memory { blocks: None }
    }

    /// A memory for so many processors at least: 4 KB for each 64 of them.
    pub fn of(alloc: Global, procs: u32) -> Result<Memory, AllocError>
        ensures blank { IfOk result (λ memory. memory ≡ blank (length memory)) }
        ensures most { IfOk result (λ memory. procs ≤ length memory) }
    {
        let start = Block::at_start();
        let blocks = vec![in alloc; start; procs.div_ceil(64) as usize]?;
        Ok(Memory {
            blocks: Some(blocks),
        })
    }

    /// What is known of processor i.
    #[inline(always)]
    pub fn memo(&self, i: u32) -> Memo
        ensures { result ≡ memo_of self.now i }
    {
        match self.block(i / 64) {
            Some(block) => block.memo((i % 64) as usize),
            None => Memo::at_start(),
        }
    }

    /// Block q, if there is memory of it.
    #[inline(always)]
    pub fn block(&self, q: u32) -> Option<&Block>
        ensures some { IfSome result (λ block. (k : ℕ) → k < 64 →
            slice_get self.now (64 * q + k) ≡ Some (lane block.now k)) }
        ensures none { IfNone result (length self.now ≤ 64 * q) }
    {
        match &self.blocks {
            Some(blocks) => blocks.get(q as usize),
            None => None,
        }
    }

    /// This is known of it now. Without memory it is forgotten.
    #[inline(always)]
    pub fn keep(&mut self, i: u32, memo: Memo)
        ensures { self.new ≡ slice_set self.old i memo }
    {
        self.put(i, &memo);
    }

    /// The same by reference.
    #[inline(always)]
    pub fn put(&mut self, i: u32, memo: &Memo)
        ensures { self.new ≡ slice_set self.old i memo.now }
    {
        let i = i as usize;
        match &mut self.blocks {
            Some(blocks) => {
                if i / 64 < blocks.len() {
                    let block = &mut blocks[i / 64];
                    block.set(i % 64, memo);
                }
            }
            None => {}
        }
    }

    /// What was known of it is forgotten.
    #[inline(never)]
    pub fn forget(&mut self, i: u32)
        ensures { self.new ≡ slice_set self.old i at_start }
    {
        self.put(i, &Memo::at_start());
    }

    /// Whether the processors of a block of this length, from the leaf's on, all have their stores
    /// of the step still to be carried out.
    #[inline(always)]
    pub fn stores_plainly(&self, leaf: &Leaf, len: u32) -> bool
        ensures { IsTrue result → AllStore leaf.now len self.now }
    {
        match leaf.kind() {
            Kind::Verify => self.all_store(leaf, len),
            _ => false,
        }
    }

    // The same, in the second pass.
    fn all_store(&self, leaf: &Leaf, len: u32) -> bool
        requires second { kind_at leaf.now.phase ≡ Kind.Verify }
        ensures { IsTrue result → AllStore leaf.now len self.now }
    {
        let i = leaf.processor();
        let start = i % 64;
        let more = len.saturating_sub(leaf.rank());
        if 64 - start < more {
            return false;
        }
        let lanes = Span {
            first: i - start,
            start: start as usize,
            end: (start + more) as usize,
        };
        match self.block(i / 64) {
            Some(block) => all_stored(block, lanes, leaf.step()),
            None => false,
        }
    }

    /// All of a block go on as far as they can, if they stand together all the way: up to which phase
    /// the block then has nothing to do. Else some have gone on by some steps.
    pub(crate) fn go_as_one(&mut self, post: &Post) -> Option<u64>
        requires leaf { post.now.layout.leaves ≤ post.now.node }
        requires phase { post.now.phase ≤ 3 * post.now.job.steps }
        ensures far { gone_from post.now 0 self.new ≡ gone_from post.now 0 self.old }
        ensures stay { IfSome result (λ _. AllStay post.now self.new) }
        ensures reach { IfSome result (λ reach. reach ≡ block_reach post.now.job post.now.layout
            post.now.node post.now.phase self.new) }
    {
        let lanes = span_of(post);
        let q = (lanes.first / 64) as usize;
        match &mut self.blocks {
            Some(blocks) => {
                if q < blocks.len() {
                    let block = &mut blocks[q];
                    let reach = go_far(post.job, post.phase, lanes, block)?;
                    return Some(post.phase.max(reach));
                }
            }
            None => {}
        }
        None
    }

    /// The processors of a block go on alone, as they do once the last one's task is done. Up to
    /// which phase it then has nothing to do, by what is known of them.
    #[inline(always)]
    pub fn go_on(&mut self, post: &Post) -> u64
        requires leaf { post.now.layout.leaves ≤ post.now.node }
        requires phase { post.now.phase ≤ 3 * post.now.job.steps }
        ensures gone { self.new ≡ block_gone_on (grain post.now.layout) post.now.job post.now.layout
            post.now.node 0 self.old }
        ensures reach { result ≡ block_reach post.now.job post.now.layout post.now.node
            post.now.phase self.new }
    {
        match self.go_as_one(post) {
            Some(reach) => reach,
            None => {
                self.go_apart(post);
                self.reach(post)
            }
        }
    }

    // The same where they do not stand together, without that phase.
    fn go_apart(&mut self, post: &Post)
        requires { post.now.layout.leaves ≤ post.now.node }
        ensures { self.new ≡ gone_from post.now 0 self.old }
    {
        let lanes = span_of(post);
        let q = (lanes.first / 64) as usize;
        match &mut self.blocks {
            Some(blocks) => {
                if q < blocks.len() {
                    let block = &mut blocks[q];
                    go_apart(post.job, lanes, block);
                }
            }
            None => {}
        }
    }

    /// Up to which phase a block has nothing to do at the end of this one, by what is known of its
    /// processors.
    #[inline(always)]
    pub fn reach(&self, post: &Post) -> u64
        requires { post.now.layout.leaves ≤ post.now.node }
        ensures { result ≡ block_reach post.now.job post.now.layout post.now.node post.now.phase
            self.now }
    {
        let lanes = span_of(post);
        let most = 3 * u64::from(post.job.steps());
        post.phase.max(self.least_in(lanes, post.phase, most))
    }

    // Up to which phase the processors of these lanes have nothing to do, or up to this one.
    #[inline(always)]
    fn least_in(&self, lanes: Span, phase: u64, most: u64) -> u64
        requires { lanes.first % 64 ≡ 0 }
        ensures { result ≡ least_of most phase (lanes.end - lanes.start) (lanes.first + lanes.start)
            self.now }
    {
        match self.block(lanes.first / 64) {
            Some(block) => least_reach(block, lanes, phase, most),
            None => none_reach(lanes, most),
        }
    }

    /// The instruction that the leaf's processor stands at in the first pass, where it is known
    /// before the step.
    #[inline(always)]
    pub fn stand<'a>(&self, leaf: &Leaf<'a>) -> Option<Stand<'a>>
        requires { kind_at leaf.now.phase ≡ Kind.Compute }
        ensures { IfSome result (λ stand. StandsAt leaf.now self.now stand.counter
            stand.instr.now) }
    {
        let memo = self.memo(leaf.processor());
        if !memo.is_before(leaf.step()) {
            return None;
        }
        let counter = memo.own.counter;
        let instr = fetch(leaf, counter)?;
        Some(Stand { counter, instr })
    }

    /// Whether the leaf's processor is known before the step, and stands at this instruction.
    #[inline(always)]
    pub fn stands_at(&self, leaf: &Leaf, stand: Stand<'_>) -> bool
        requires first { kind_at leaf.now.phase ≡ Kind.Compute }
        requires code { slice_get leaf.now.job.code stand.counter ≡ Some stand.instr.now }
        ensures { IsTrue result → StandsAt leaf.now self.now stand.entry.counter
            stand.entry.instr.now }
    {
        let memo = self.memo(leaf.processor());
        memo.is_before(leaf.step()) && memo.own.counter == stand.counter
    }
}

impl Memory {
    /// The block of memory that holds a block of this length, from the leaf's processor on, and its
    /// lanes, if the last one stands at this counter.
    #[inline(always)]
    pub(crate) fn block_standing(
        &self,
        leaf: &Leaf,
        len: u32,
        counter: u32,
    ) -> Option<(&Block, Span)>
        requires { (rank : ℕ) → has_rank leaf.now.layout leaf.now.node rank ≡ nat_lt rank len }
        ensures { IfSome result (λ held. AllHeld leaf.now len self.now held.0.now held.1) }
    {
        let lanes = lanes_from(leaf, len);
        let block = self.block(lanes.first / 64)?;
        if last_stands(block, lanes, counter) {
            Some((block, lanes))
        } else {
            None
        }
    }
}

impl Memory {
    /// The loads of a block of this length, from the leaf's processor on, if all load plainly by the
    /// instruction that this one stands at.
    #[inline(always)]
    pub fn plain_loads(&self, leaf: &Leaf, len: u32, stand: Stand<'_>) -> Option<Loads>
        requires stand { IsStand leaf.now stand.counter stand.instr.now }
        requires ranks { (rank : ℕ) → has_rank leaf.now.layout leaf.now.node rank
            ≡ nat_lt rank len }
        ensures { IfSome result (λ loads. AllLoadBy leaf.now len self.now loads) }
    {
        if !matches!(*stand.instr, Instr::Ld(..)) {
            return None;
        }
        let (block, lanes) = self.block_standing(leaf, len, stand.counter)?;
        plain_loads(leaf, block, lanes, stand)
    }

    /// The register of each processor from the leaf's on, up to this rank of its block, took its
    /// lane's value.
    #[inline(always)]
    pub fn take_loads(&mut self, leaf: &Leaf, end: u32, register: u8, values: &[u32; 64])
        requires later { leaf.now.rank ≤ end }
        requires within { end ≤ grain leaf.now.layout }
        requires four { register < 4 }
        ensures { self.new ≡ taken leaf.now (end - leaf.now.rank) register values.now self.old }
    {
        let lanes = lanes_to(leaf, end);
        let q = (lanes.first / 64) as usize;
        match &mut self.blocks {
            Some(blocks) => {
                if q < blocks.len() {
                    let block = &mut blocks[q];
                    take_loads(leaf, block, lanes, register, values);
                }
            }
            None => {}
        }
    }
}

impl Memory {
    /// The claims of a block of this length, from the leaf's processor on, if all claim plainly by
    /// the instruction that this one stands at.
    #[inline(always)]
    pub fn plain_claims(&self, leaf: &Leaf, len: u32, stand: Stand<'_>) -> Option<Claims>
        requires stand { IsStand leaf.now stand.counter stand.instr.now }
        requires ranks { (rank : ℕ) → has_rank leaf.now.layout leaf.now.node rank
            ≡ nat_lt rank len }
        ensures { IfSome result (λ claims. AllClaimBy leaf.now len self.now claims) }
    {
        if !matches!(*stand.instr, Instr::St(..)) {
            return None;
        }
        let (block, lanes) = self.block_standing(leaf, len, stand.counter)?;
        plain_claims(leaf, block, lanes, stand)
    }
}

// Up to which phase these lanes have nothing to do, or up to this one.
#[inline(never)]
fn least_reach(block: &Block, lanes: Span, phase: u64, most: u64) -> u64
    ensures { (memory : List Memo) → AllIn lanes.start lanes.end (λ k.
        memo_of memory (lanes.first + k) ≡ lane block.now k) → result
        ≡ least_of most phase (lanes.end - lanes.start) (lanes.first + lanes.start) memory }
{
    let mut least = most;
    for k in lanes.start..lanes.end {
        least = least.min(reach_in(block, k, phase));
    }
    least
}

// Up to which phase a lane has, unless it acted in a later phase than this.
#[inline(always)]
fn reach_in(block: &Block, k: usize, phase: u64) -> u64
    requires { k < 64 }
    ensures { result ≡ reach_from_phase phase (lane block.now k) }
{
    let memo = block.memo(k);
    if memo.acted <= phase { memo.reach() } else { 0 }
}

// Of lanes without memory nothing is known.
#[inline(always)]
fn none_reach(lanes: Span, most: u64) -> u64
    ensures { (memory : List Memo) → length memory ≤ lanes.first → (phase : ℕ) → result
        ≡ least_of most phase (lanes.end - lanes.start) (lanes.first + lanes.start) memory }
{
    if lanes.start < lanes.end { 0 } else { most }
}
