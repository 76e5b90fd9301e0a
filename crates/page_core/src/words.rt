//! What the words of a board are, and hold.
ghost use Rattle.std.specs.Prelude.{◌≡◌, ◌<◌, ◌≤◌, length};
ghost use Rattle.pram_words.specs.Words.{IsWord, length_of};
ghost use Rattle.page_core.specs.Findings.{IsKeptBehind};
ghost use Rattle.page_core.specs.Scenes.{AreWords, form_of, newer_of, part_of_word, which_of};
ghost use Rattle.page_core.specs.Scenes.{word_in};

use pram_words::{Word, older, payload, stamp, words_keep_apart};
use pram_world::World;

/// A word of a board: what it holds, and what it is. The form is 0 for the conflict, 1 for a node,
/// 2 for a part of the request of a processor, 3 for the position of a worker, 4 for one of the two
/// words of a place, 5 for the claim to a cell; `which` is the node, the processor, the worker, the
/// place or the cell, and `part` the part of a request (0 the data place plus 1, 1 the value, 2 the
/// next counter) or 0 and 1 for the first and the second word of a place. `newer` is 1 for the
/// newer of the two.
#[repr(C)]
#[derive(Clone, Copy)]
pub struct WordRow {
    pub value: u64,
    pub form: u32,
    pub which: u32,
    pub part: u32,
    pub newer: u32,
    pub stamp: u32,
    pub payload: u32,
}

/// What a word is, in numbers.
#[derive(Clone, Copy)]
pub struct Meaning {
    pub form: u32,
    pub which: u32,
    pub part: u32,
}

/// What each word is and holds is written to the front of the rows.
pub(crate) fn write_words(world: &World, rows: &mut [WordRow])
    requires { length_of world.now.layout ≤ length rows.old }
    ensures words { AreWords world.now rows.new }
    ensures behind { IsKeptBehind (length_of world.now.layout) rows.old rows.new }
{
    for k in 0..world.layout().length() {
        rows[k as usize] = word_row(world, k);
    }
}

// Word k of the board.
fn word_row(world: &World, k: u32) -> WordRow
    requires { k < length_of world.now.layout }
    ensures { result ≡ word_in world.now.layout world.now.words k }
{
    words_keep_apart();
    world.layout().limits_hold();
    let value = world.load(k);
    let word = world.layout().word(k);
    let Meaning { form, which, part } = meaning_of(word);
    WordRow {
        value,
        form,
        which,
        part,
        newer: newer(world, word),
        stamp: stamp(value),
        payload: payload(value),
    }
}

/// What a word is.
pub(crate) fn meaning_of(word: Word) -> Meaning
    ensures form { result.form ≡ form_of word }
    ensures which { result.which ≡ which_of word }
    ensures part { result.part ≡ part_of_word word }
{
    let (form, which, part) = match word {
        Word::Conflict => (0, 0, 0),
        Word::Node(node) => (1, node, 0),
        Word::Asked(processor, part) => (2, processor, part),
        Word::Position(worker) => (3, worker, 0),
        Word::Stored(place, part) => (4, place, part),
        Word::Claim(cell) => (5, cell, 0),
        Word::Spare(number) => (6, number, 0),
    };
    Meaning { form, which, part }
}

// 1 for the newer word of a place.
fn newer(world: &World, word: Word) -> u32
    requires { IsWord world.now.layout word }
    ensures { result ≡ newer_of world.now.layout world.now.words word }
{
    world.layout().limits_hold();
    match word {
        Word::Stored(place, part) => {
            let (first, second) = world.place_words(place);
            u32::from(older(first, second) != part)
        }
        _ => 0,
    }
}
