//! Processors of a block whose task asks nothing.
ghost use Rattle.std.specs.Prelude.{◌≡◌, ◌≤◌, false};
ghost use Rattle.pram_words.specs.Phases.{kind_at};
ghost use Rattle.pram_words.specs.Words.{grain};
ghost use Rattle.walkx.specs.Passing.{idle, idle_in, if_so, passed, passed_alone};
ghost use Rattle.walkx.specs.Rests.{IsBlockPost};

use crate::turns::has_rank;
use crate::wide_own::{passes_by, stay};
use pram_words::Kind;
use walk_memory::{Leaf, Memo, Memory, Post, fetch};

/// From the rank of the post on, passes over the processors whose task asks nothing, and remembers
/// what is then known of them. Answers the rank of the first other one, or that after the last
/// one's; then the processors go on alone.
pub(crate) fn pass_over(memory: &mut Memory, post: &Post) -> u32
    requires { IsBlockPost post.now }
    ensures { (result, memory.new) ≡ passed post.now memory.old }
{
    post.limits_hold();
    let rank = pass(memory, post);
    if !has_rank(post, rank) {
        memory.go_on(post);
    }
    rank
}

// From the rank on, those whose task asks nothing.
#[inline(always)]
fn pass(memory: &mut Memory, post: &Post) -> u32
    requires { IsBlockPost post.now }
    ensures value { (result, memory.new) ≡ passed_alone post.now memory.old }
    ensures most { result ≤ grain post.now.layout }
{
    let mut rank = post.rank;
    while has_rank(post, rank) {
        let leaf = post.leaf_at(rank);
        let mut memo = memory.memo(leaf.processor());
        if !passes(&leaf, &mut memo) {
            break;
        }
        memory.keep(leaf.processor(), memo);
        rank += 1;
    }
    rank
}

/// Whether the task of a processor asks nothing. Then this is what is known after it.
#[inline(always)]
pub(crate) fn passes(leaf: &Leaf, memo: &mut Memo) -> bool
    ensures idle { idle leaf.now memo.old ≡ if_so result memo.new }
    ensures other { result ≡ false → memo.new ≡ memo.old }
{
    match leaf.kind() {
        Kind::Compute => passes_own(leaf, memo),
        Kind::Apply => true,
        Kind::Verify => memo.is_past(leaf.phase()),
    }
}

// In the first pass: it is past, or is known, claims nothing and does not settle.
#[inline(always)]
fn passes_own(leaf: &Leaf, memo: &mut Memo) -> bool
    requires { kind_at leaf.now.phase ≡ Kind.Compute }
    ensures idle { idle_in Kind.Compute leaf.now memo.old ≡ if_so result memo.new }
    ensures other { result ≡ false → memo.new ≡ memo.old }
{
    if memo.is_past(leaf.phase()) {
        return true;
    }
    if !memo.is_before(leaf.step()) {
        return false;
    }
    match fetch(leaf, memo.own.counter) {
        None => {
            stay(leaf, memo);
            true
        }
        Some(instr) => passes_by(leaf, memo, instr),
    }
}
