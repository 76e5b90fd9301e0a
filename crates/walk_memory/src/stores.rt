//! Stores of a block that are remembered.
ghost use Rattle.std.specs.Prelude.{◌≡◌, ◌+◌, ◌-◌, ◌*◌, ◌/◌, ◌%◌, ◌<◌, ◌≤◌, ℕ, None, nat_lt, slice_index};
ghost use Rattle.walk_memory.specs.Blocks.{has_rank};
ghost use Rattle.walk_memory.specs.Inner.Posts.{processor_of};
ghost use Rattle.walk_memory.specs.Lanes.{lane};
ghost use Rattle.walk_memory.specs.Plain.{AllHoldStore, AllStore, carried_all};
ghost use Rattle.walk_memory.specs.Rows.{AllIn};

use crate::as_one::Together;
use crate::block::Block;
use crate::memo::Memory;
use crate::plain::phase_in;
use crate::post::Leaf;
use crate::row_walk::{lanes_from, lanes_to, so_in};
use crate::span::Span;
use crate::standing::{is_of, remember};

/// A memory, and the block of it in which some stores are held.
#[derive(Clone, Copy)]
pub struct Stores<'a> {
    pub memory: &'a Memory,
    pub block: &'a Block,
}

impl<'a> Stores<'a> {
    /// The store of the leaf's processor.
    #[inline(always)]
    pub fn write(self, leaf: &Leaf) -> (u32, u32)
        ensures { result ≡ (
          slice_index self.entry.block.now.cell (processor_of leaf.now % 64),
          slice_index self.entry.block.now.value (processor_of leaf.now % 64),
        ) }
    {
        let k = (leaf.processor() % 64) as usize;
        (self.block.cell[k], self.block.value[k])
    }
}

impl Memory {
    /// The stores of a block of this length, from the leaf's processor on, all of which are still
    /// to be carried out.
    #[inline(always)]
    pub fn stores(&self, leaf: &Leaf, len: u32) -> Stores<'_>
        requires stores { AllStore leaf.now len self.now }
        requires ranks { (rank : ℕ) → has_rank leaf.now.layout leaf.now.node rank
            ≡ nat_lt rank len }
        ensures memory { result.memory.now ≡ self.now }
        ensures held { AllHoldStore leaf.now len self.now result.block.now }
    {
        let lanes = lanes_from(leaf, len);
        match self.block(lanes.first / 64) {
            Some(block) => Stores {
                memory: self,
                block,
            },
            None => unreachable!(),
        }
    }

    /// Those up to this rank were carried out.
    #[inline(always)]
    pub fn carry_stores(&mut self, leaf: &Leaf, len: u32, end: u32)
        requires ranks { (rank : ℕ) → has_rank leaf.now.layout leaf.now.node rank
            ≡ nat_lt rank len }
        requires from { leaf.now.rank ≤ end }
        requires most { end ≤ len }
        ensures { self.new ≡ carried_all leaf.now (end - leaf.now.rank) self.old }
    {
        let _ = len;
        let _ = leaf.job();
        let lanes = lanes_to(leaf, end);
        let q = (lanes.first / 64) as usize;
        match &mut self.blocks {
            Some(blocks) => {
                if q < blocks.len() {
                    carry_in(&mut blocks[q], lanes, leaf.phase());
                }
            }
            None => {}
        }
    }
}

// The stores of these lanes were carried out in this phase. Where they stood together, they still do.
#[inline(always)]
fn carry_in(block: &mut Block, lanes: Span, phase: u64)
    ensures there { AllIn lanes.start lanes.end (λ k. lane block.new k
        ≡ record (lane block.old k) { acted = phase; store = None }) }
    ensures before { (k : ℕ) → k < lanes.start → lane block.new k ≡ lane block.old k }
    ensures after { (k : ℕ) → lanes.end ≤ k → lane block.new k ≡ lane block.old k }
{
    let standing = block.standing;
    carry_rows(block, lanes, phase);
    if is_of(standing, lanes) {
        let at = Together {
            stored: false,
            ..standing.at
        };
        remember(block, lanes, at, phase);
    }
}

// The same by their rows.
#[inline(always)]
fn carry_rows(block: &mut Block, lanes: Span, phase: u64)
    ensures there { AllIn lanes.start lanes.end (λ k. lane block.new k
        ≡ record (lane block.old k) { acted = phase; store = None }) }
    ensures before { (k : ℕ) → k < lanes.start → lane block.new k ≡ lane block.old k }
    ensures after { (k : ℕ) → lanes.end ≤ k → lane block.new k ≡ lane block.old k }
{
    block.standing.end = 0;
    phase_in(&mut block.acted, lanes, phase);
    so_in(&mut block.stored, lanes, false);
}
