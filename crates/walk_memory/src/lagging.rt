//! Loads of processors whose words do not tell what they are.
ghost use Rattle.std.specs.Prelude.{◌≡◌, ◌+◌, ◌-◌, ◌^◌, ◌<◌, ◌≤◌, ℕ, IfSome, nat_lt, slice_index};
ghost use Rattle.pram_words.specs.Words.{grain};
ghost use Rattle.walk_memory.specs.Blocks.{has_rank};
ghost use Rattle.walk_memory.specs.Lagging.{AllLagBy, landed_all, load_landed};
ghost use Rattle.walk_memory.specs.Lanes.{entries, lane};
ghost use Rattle.walk_memory.specs.Rows.{AllIn};
ghost use Rattle.walk_memory.specs.Stands.{IsStand, LoadsKnown};

use crate::block::Block;
use crate::load_in::Loads;
use crate::memo::{Memory, Stand};
use crate::plain::phase_in;
use crate::post::Leaf;
use crate::row_walk::{lanes_to, so_in};
use crate::rows::{cells_of, copy_in, count_in, put_values, set_in};
use crate::span::{LANES, Span};
use crate::standing::{remember_done, stand_before};
use pram_job::Instr;

impl Memory {
    /// The loads of a block of this length, from the leaf's processor on, if all are known to stand
    /// at the instruction that this one stands at, whatever their words tell.
    #[inline(always)]
    pub fn lagging_loads(&self, leaf: &Leaf, len: u32, stand: Stand<'_>) -> Option<Loads>
        requires stand { IsStand leaf.now stand.counter stand.instr.now }
        requires ranks { (rank : ℕ) → has_rank leaf.now.layout leaf.now.node rank
            ≡ nat_lt rank len }
        ensures { IfSome result (λ loads. AllLagBy leaf.now len self.now loads) }
    {
        let (block, lanes) = self.block_standing(leaf, len, stand.counter)?;
        known_loads(leaf, block, lanes, stand)
    }
}

impl Memory {
    /// The register of each processor from the leaf's on, up to this rank of its block, took its
    /// lane's value, and their words tell what they are.
    #[inline(always)]
    pub fn take_landed(&mut self, leaf: &Leaf, end: u32, loads: &Loads, values: &[u32; 64])
        requires later { leaf.now.rank ≤ end }
        requires within { end ≤ grain leaf.now.layout }
        requires known { AllLagBy leaf.now end self.old loads.now }
        ensures { self.new ≡ landed_all leaf.now (end - leaf.now.rank) loads.now.register values.now
            self.old }
    {
        leaf.job().limits_hold();
        let lanes = lanes_to(leaf, end);
        let q = (lanes.first / 64) as usize;
        match &mut self.blocks {
            Some(blocks) => {
                if q < blocks.len() {
                    land_loads(leaf, &mut blocks[q], lanes, loads.register, values);
                }
            }
            None => {}
        }
    }
}

// The loads of these lanes, if all are known to stand at the instruction that the leaf's stands at.
#[inline(never)]
fn known_loads(leaf: &Leaf, block: &Block, lanes: Span, stand: Stand<'_>) -> Option<Loads>
    requires { IsStand leaf.now stand.counter stand.instr.now }
    ensures { IfSome result (λ loads. AllIn lanes.start lanes.end (λ k. LoadsKnown leaf.now
        (lane block.now k) loads.register (slice_index loads.cells k))) }
{
    let Instr::Ld(register, ref place) = *stand.instr else {
        return None;
    };
    let job = leaf.job();
    job.limits_hold();
    if !stand_before(leaf, block, lanes, stand.counter) {
        return None;
    }
    let cells = cells_of(job, lanes, block, place)?;
    Some(Loads { register, cells })
}

// The register of each of these took its lane's value, and their words tell what they are.
#[inline(always)]
fn land_loads(leaf: &Leaf, block: &mut Block, lanes: Span, r: u8, values: &[u32; LANES])
    requires four { r < 4 }
    requires next { AllIn lanes.start lanes.end
        (λ k. slice_index block.old.counter k + 1 < 2 ^ 32) }
    ensures there { AllIn lanes.start lanes.end (λ k. lane block.new k
        ≡ load_landed leaf.now (lane block.old k) r (slice_index values.now k)) }
    ensures before { (k : ℕ) → k < lanes.start → lane block.new k ≡ lane block.old k }
    ensures after { (k : ℕ) → lanes.end ≤ k → lane block.new k ≡ lane block.old k }
{
    land_rows(leaf, block, lanes, r, values);
    remember_done(block, lanes, leaf.step(), leaf.phase());
}

// The same, by their rows.
#[inline(always)]
fn land_rows(leaf: &Leaf, block: &mut Block, lanes: Span, r: u8, values: &[u32; LANES])
    requires four { r < 4 }
    requires next { AllIn lanes.start lanes.end
        (λ k. slice_index block.old.counter k + 1 < 2 ^ 32) }
    ensures there { AllIn lanes.start lanes.end (λ k. lane block.new k
        ≡ load_landed leaf.now (lane block.old k) r (slice_index values.now k)) }
    ensures before { (k : ℕ) → k < lanes.start → lane block.new k ≡ lane block.old k }
    ensures after { (k : ℕ) → lanes.end ≤ k → lane block.new k ≡ lane block.old k }
{
    block.standing.end = 0;
    phase_in(&mut block.acted, lanes, leaf.phase());
    set_in(&mut block.step, lanes, leaf.step());
    set_in(&mut block.settled, lanes, leaf.step());
    count_in(&mut block.counter, lanes);
    copy_in(&mut block.told_counter, lanes, &block.counter);
    put_values(&mut block.registers, lanes, r, values);
    copy_rows(&mut block.told, lanes, &block.registers);
    so_in(&mut block.stored, lanes, false);
}

// Each of these lanes takes its own of these four rows.
#[inline(always)]
fn copy_rows(to: &mut [[u32; LANES]; 4], lanes: Span, rows: &[[u32; LANES]; 4])
    ensures there { AllIn lanes.start lanes.end (λ k. entries to.new k ≡ entries rows.now k) }
    ensures before { (k : ℕ) → k < lanes.start → entries to.new k ≡ entries to.old k }
    ensures after { (k : ℕ) → lanes.end ≤ k → entries to.new k ≡ entries to.old k }
{
    put_values(to, lanes, 0, &rows[0]);
    put_values(to, lanes, 1, &rows[1]);
    put_values(to, lanes, 2, &rows[2]);
    put_values(to, lanes, 3, &rows[3]);
}
