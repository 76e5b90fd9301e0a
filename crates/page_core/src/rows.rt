//! What an event did.
ghost use Rattle.std.specs.Prelude.{◌≡◌};
ghost use Rattle.pram_words.specs.Words.{IsWord};
ghost use Rattle.page_core.specs.Scenes.{kind_of_step, older_before, row_after_event, step_meaning};
ghost use Rattle.page_core.specs.Scenes.{word_touched};

use crate::board::Event;
use crate::bodies::{BodyRow, body_row};
use crate::words::{Meaning, meaning_of};
use pram_words::{Word, older, words_keep_apart};
use pram_world::{Effect, World};
use walkx::Op;

/// What an event did: its atomic step (0 none, 1 a load, 2 a store, 3 a maximum, 4 a swap) with its
/// word before it and after it, what that word is (as in `WordRow`; form 7 where no step was made),
/// whether it was the older word of its place, and what the event's body is doing after it.
#[repr(C)]
#[derive(Clone, Copy)]
pub struct EventRow {
    pub before: u64,
    pub after: u64,
    pub kind: u32,
    pub word: u32,
    pub form: u32,
    pub which: u32,
    pub part: u32,
    pub older: u32,
    pub event: u32,
    pub body: u32,
    pub now: BodyRow,
}

/// What an event did that led to this world, the bodies before it being so many.
pub(crate) fn event_row(world: &World, event: Event, bodies: u32, effect: Effect) -> EventRow
    ensures { result ≡ row_after_event world.now event bodies effect }
{
    let body = if event.kind < 3 { event.body } else { bodies };
    let step = step_of_effect(effect.op);
    let meaning = meaning_of_step(world, step, effect.before);
    EventRow {
        before: effect.before,
        after: effect.after,
        kind: step.kind,
        word: step.word,
        form: meaning.form,
        which: meaning.which,
        part: meaning.part,
        older: meaning.older,
        event: event.kind,
        body,
        now: body_row(world, body as usize),
    }
}

/// The kind of an atomic step, and its word.
#[derive(Clone, Copy)]
pub struct StepWord {
    pub kind: u32,
    pub word: u32,
}

/// What the word of a step is, and whether it was the older word of its place.
#[derive(Clone, Copy)]
pub struct StepMeaning {
    pub form: u32,
    pub which: u32,
    pub part: u32,
    pub older: u32,
}

fn step_of_effect(op: Option<Op>) -> StepWord
    ensures kind { result.kind ≡ kind_of_step op }
    ensures word { result.word ≡ word_touched op }
{
    let (kind, word) = match op {
        Some(Op::Load(word)) => (1, word),
        Some(Op::Store(word, _)) => (2, word),
        Some(Op::Max(word, _)) => (3, word),
        Some(Op::Swap(word, _, _)) => (4, word),
        Some(Op::Over(_)) | None => (0, 0),
    };
    StepWord { kind, word }
}

fn meaning_of_step(world: &World, step: StepWord, before: u64) -> StepMeaning
    ensures { result ≡ step_meaning world.now.layout world.now.words step before }
{
    if step.kind == 0 || step.word >= world.layout().length() {
        return StepMeaning {
            form: 7,
            which: 0,
            part: 0,
            older: 0,
        };
    }
    words_keep_apart();
    let word = world.layout().word(step.word);
    let Meaning { form, which, part } = meaning_of(word);
    StepMeaning {
        form,
        which,
        part,
        older: was_older(world, word, before),
    }
}

// 1 where the word of a step was the older word of its place.
fn was_older(world: &World, word: Word, before: u64) -> u32
    requires { IsWord world.now.layout word }
    ensures { result ≡ older_before world.now.layout world.now.words before word }
{
    world.layout().limits_hold();
    match word {
        Word::Stored(place, part) => {
            let (first, second) = world.place_words(place);
            if part == 0 {
                u32::from(older(before, second) == 0)
            } else {
                u32::from(older(first, before) == 1)
            }
        }
        _ => 0,
    }
}
