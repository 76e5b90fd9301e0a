//! What a processor of the wide form asks for in a step, worked out from what is remembered of it,
//! or from its own places.
ghost use Rattle.std.specs.Prelude.{◌≡◌, suc, ◌<◌, None, Ok, Err};
ghost use Rattle.pram_machine.specs.Machine.{register_place};
ghost use Rattle.walkx.specs.Driving.{IsNextPart, Plays, loads};
ghost use Rattle.walk_memory.specs.Inner.Posts.{IsPairAt, processor_of, step_of};
ghost use Rattle.walkx.specs.Passes.{is_beyond, word_before};
ghost use Rattle.walk_memory.specs.Learned.{loaded_memo};
ghost use Rattle.walkx.specs.WideParts.{heard_before, hears_own, memo_known};
ghost use Rattle.walkx.specs.WideParts.{memo_loaded};

use crate::judging::{is_of, is_past};
use crate::left::Left;
use crate::parts::hear_both;
use crate::steps::Steps;
use pram_words::{newer, payload, stamp};
use walk_memory::{Leaf, Memo, Own, own_alone};

// The word of a place of the processor's own that was written before the step. Whoever finds it
// written later is late.
#[inline(always)]
fn hear_before<S: Steps>(steps: &mut S, leaf: &Leaf, place: u32, word: u32) -> Result<u64, Left>
    requires word { IsPairAt leaf.now.layout place word }
    requires next { IsNextPart (S.stands leaf.now) steps.old (heard_before leaf.now place) }
    ensures plays { Plays (S.stands leaf.now) steps.old (heard_before leaf.now place) steps.new
        result }
{
    let (first, second) = hear_both(steps, leaf, place, word)?;
    if is_beyond(leaf, first, second) {
        Err(Left::Late)
    } else {
        Ok(word_before(leaf, first, second))
    }
}

// One of them is of a later step.
#[inline(always)]
fn is_beyond(leaf: &Leaf, first: u64, second: u64) -> bool
    ensures { result ≡ is_beyond (step_of leaf.now) first second }
{
    is_past(leaf, first) || is_past(leaf, second)
}

// A word of the step stands beside it.
#[inline(always)]
fn word_before(leaf: &Leaf, first: u64, second: u64) -> u64
    ensures { result ≡ word_before (step_of leaf.now) first second }
{
    if is_of(leaf, first) {
        second
    } else if is_of(leaf, second) {
        first
    } else {
        newer(first, second)
    }
}

// That of one of its registers.
#[inline(always)]
fn hear_register<S: Steps>(steps: &mut S, leaf: &Leaf, r: u8) -> Result<u64, Left>
    requires register { r < 4 }
    requires next { IsNextPart (S.stands leaf.now) steps.old (heard_before leaf.now (register_place
        leaf.now.job (processor_of leaf.now) r)) }
    ensures plays { Plays (S.stands leaf.now) steps.old (heard_before leaf.now (register_place
        leaf.now.job (processor_of leaf.now) r)) steps.new result }
{
    hear_before(steps, leaf, leaf.register_place(r), leaf.register_word(r))
}

// Those of its counter and of its registers.
#[inline(always)]
fn hear_own<S: Steps>(steps: &mut S, leaf: &Leaf) -> Result<[u64; 5], Left>
    requires next { IsNextPart (S.stands leaf.now) steps.old (hears_own leaf.now) }
    ensures plays { Plays (S.stands leaf.now) steps.old (hears_own leaf.now) steps.new result }
{
    let counter = hear_before(steps, leaf, leaf.counter_place(), leaf.counter_word())?;
    let a = hear_register(steps, leaf, 0)?;
    let b = hear_register(steps, leaf, 1)?;
    let c = hear_register(steps, leaf, 2)?;
    let d = hear_register(steps, leaf, 3)?;
    Ok([counter, a, b, c, d])
}

// What is known of the processor before the step by these words.
fn memo_of_words(leaf: &Leaf, words: [u64; 5]) -> Memo
    ensures { result ≡ loaded_memo leaf.now.job (step_of leaf.now) (processor_of leaf.now) words }
{
    let [counter, a, b, c, d] = words;
    let told = Own {
        counter: payload(counter),
        registers: [payload(a), payload(b), payload(c), payload(d)],
    };
    let newest = stamp(counter)
        .max(stamp(a))
        .max(stamp(b))
        .max(stamp(c))
        .max(stamp(d));
    let before = leaf.step().saturating_sub(1);
    Memo {
        acted: 3 * u64::from(before),
        step: before,
        own: own_alone(leaf, told, before.saturating_sub(newest)),
        settled: newest,
        told,
        store: None,
    }
}

/// What the processor's own places tell before the step.
#[inline(never)]
pub(crate) fn load_memo<S: Steps>(steps: &mut S, leaf: &Leaf) -> Result<Memo, Left>
    requires next { IsNextPart (S.stands leaf.now) steps.old (memo_loaded leaf.now) }
    ensures plays { Plays (S.stands leaf.now) steps.old (memo_loaded leaf.now) steps.new result }
{
    let words = hear_own(steps, leaf)?;
    Ok(memo_of_words(leaf, words))
}

/// What is known of the processor before the step: remembered, or loaded.
#[inline(always)]
pub(crate) fn know<S: Steps>(steps: &mut S, leaf: &Leaf, memo: &mut Memo) -> Result<(), Left>
    requires next { IsNextPart (S.stands leaf.now) steps.old (memo_known leaf.now memo.old) }
    ensures late { result ≡ Err Left.Late → memo.new ≡ memo.old }
    ensures known { suc memo.old.step ≡ step_of leaf.now →
        (result ≡ Ok tt) × (memo.new ≡ memo.old) × (steps.new ≡ steps.old) }
    ensures plays { Plays (S.stands leaf.now) steps.old (memo_known leaf.now memo.old) steps.new
        (loads result memo.new) }
{
    if !memo.is_before(leaf.step()) {
        *memo = load_memo(steps, leaf)?;
    }
    Ok(())
}
