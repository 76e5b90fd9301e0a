//! Tasks of the first pass that all processors of a block do alike, and of which little is to be
//! done.
ghost use Rattle.std.specs.Prelude.{◌≡◌, ◌≤◌, ◌-◌, ℕ, List, IfSome, nat_lt};
ghost use Rattle.pram_words.specs.Words.{grain};
ghost use Rattle.walk_memory.specs.declared.memo.Memo.{Memo};
ghost use Rattle.walk_memory.specs.Blocks.{has_rank};
ghost use Rattle.walk_memory.specs.Inner.Posts.{PostData, at_rank, processor_of};
ghost use Rattle.walk_memory.specs.Memory.{memo_of};
ghost use Rattle.walk_memory.specs.Plain.{ClaimsBy, LoadsBy, done_all};
ghost use Rattle.walk_memory.specs.Stands.{IsStand};
ghost use Rattle.walkx.specs.Driving.{IsNextPart};
ghost use Rattle.walkx.specs.Parts.{does_wide};
ghost use Rattle.walkx.specs.Passing.{PlaysUp};
ghost use Rattle.pram_board.specs.Inner.Plain.{AllBy, by_lanes, claims_does, claims_ranks};
ghost use Rattle.pram_board.specs.Inner.Plain.{lagging_by, lagging_does, lagging_ranks};
ghost use Rattle.pram_board.specs.Inner.Plain.{loads_does, loads_ranks};

use walkx::taking::{take_claim, take_lagging, take_load};
use walkx::{Claims, Leaf, Loads, Memory, Stand, Steps, Stopped};

/// Such tasks of a block.
pub(crate) trait PlainTasks: Copy {
    /// The task of the post's processor is one of them, by what is remembered of it.
    ghost by: { PostData → List Memo → Self → Type 0 };

    /// What is known of this processor once its task in the post's phase gave this value, where
    /// this was known before.
    ghost does: { Self → PostData → ℕ → Memo → ℕ → Memo };

    /// Those of a block of this length, from the leaf's processor on, if all do them by the
    /// instruction that this one stands at.
    fn of(memory: &Memory, leaf: &Leaf, len: u32, stand: Stand<'_>) -> Option<Self>
        requires stand { IsStand leaf.now stand.counter stand.instr.now }
        requires ranks { (rank : ℕ) → has_rank leaf.now.layout leaf.now.node rank
            ≡ nat_lt rank len }
        ensures { IfSome result (λ plain. AllBy by leaf.now len memory.now plain) };

    /// The task of the leaf's processor: the value that it gave, or none where the worker was late.
    fn take<S: Steps>(
        &self,
        memory: &Memory,
        steps: &mut S,
        leaf: &Leaf,
    ) -> Result<Option<u32>, Stopped>
        requires plain { by leaf.now memory.now self.now }
        requires next { IsNextPart (S.stands leaf.now) steps.old
            (does_wide leaf.now (memo_of memory.now (processor_of leaf.now))) }
        ensures { PlaysUp (S.stands leaf.now) leaf.now steps.old
            (memo_of memory.now (processor_of leaf.now)) (does self.now leaf.now
            (processor_of leaf.now) (memo_of memory.now (processor_of leaf.now))) steps.new
            result };

    /// Each processor from the leaf's on, up to this rank of its block, did its task, which gave
    /// its lane's value.
    fn remember(&self, memory: &mut Memory, leaf: &Leaf, end: u32, values: &[u32; 64])
        requires later { leaf.now.rank ≤ end }
        requires within { end ≤ grain leaf.now.layout }
        requires plain { AllBy by leaf.now end memory.old self.now }
        ensures { memory.new ≡ done_all leaf.now (end - leaf.now.rank)
            (by_lanes (does self.now leaf.now) values.now memory.old) memory.old };

    /// The rank of the post does not matter.
    ghost ranks: { (plain : Self) (at : PostData) (rank i value : ℕ) (memo : Memo) →
        does plain (at_rank at rank) i memo value ≡ does plain at i memo value };
}

impl PlainTasks for Loads {
    ghost by = { LoadsBy };

    ghost does = { loads_does };

    ghost ranks = { loads_ranks };

    #[inline(always)]
    fn of(memory: &Memory, leaf: &Leaf, len: u32, stand: Stand<'_>) -> Option<Loads> {
        memory.plain_loads(leaf, len, stand)
    }

    #[inline(always)]
    fn take<S: Steps>(
        &self,
        memory: &Memory,
        steps: &mut S,
        leaf: &Leaf,
    ) -> Result<Option<u32>, Stopped> {
        take_load(memory, steps, leaf, self)
    }

    #[inline(always)]
    fn remember(&self, memory: &mut Memory, leaf: &Leaf, end: u32, values: &[u32; 64]) {
        memory.take_loads(leaf, end, self.register, values);
    }
}

/// Loads of processors whose words do not tell what they are: each writes those that do not, too.
#[derive(Clone, Copy)]
pub(crate) struct Lagging {
    pub loads: Loads,
}

impl PlainTasks for Lagging {
    ghost by = { lagging_by };

    ghost does = { lagging_does };

    ghost ranks = { lagging_ranks };

    #[inline(always)]
    fn of(memory: &Memory, leaf: &Leaf, len: u32, stand: Stand<'_>) -> Option<Lagging> {
        let loads = memory.lagging_loads(leaf, len, stand)?;
        Some(Lagging { loads })
    }

    #[inline(always)]
    fn take<S: Steps>(
        &self,
        memory: &Memory,
        steps: &mut S,
        leaf: &Leaf,
    ) -> Result<Option<u32>, Stopped> {
        take_lagging(memory, steps, leaf, &self.loads)
    }

    #[inline(always)]
    fn remember(&self, memory: &mut Memory, leaf: &Leaf, end: u32, values: &[u32; 64]) {
        memory.take_landed(leaf, end, &self.loads, values);
    }
}

impl PlainTasks for Claims {
    ghost by = { ClaimsBy };

    ghost does = { claims_does };

    ghost ranks = { claims_ranks };

    #[inline(always)]
    fn of(memory: &Memory, leaf: &Leaf, len: u32, stand: Stand<'_>) -> Option<Claims> {
        memory.plain_claims(leaf, len, stand)
    }

    #[inline(always)]
    fn take<S: Steps>(
        &self,
        memory: &Memory,
        steps: &mut S,
        leaf: &Leaf,
    ) -> Result<Option<u32>, Stopped> {
        take_claim(memory, steps, leaf, self)
    }

    #[inline(always)]
    fn remember(&self, memory: &mut Memory, leaf: &Leaf, end: u32, _values: &[u32; 64]) {
        memory.take_claims(leaf, end, self);
    }
}
