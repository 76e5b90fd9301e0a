//! Calls about a board after events.
ghost use Rattle.std.specs.Prelude.{◌-◌, length};
ghost use Rattle.page_core.specs.Answers.{AreReadsFound, IsOutcomeFound};
ghost use Rattle.page_core.specs.Findings.{IsKeptBehind, IsToldOf, told_written};
ghost use Rattle.page_core.specs.Scenes.{IsScene, bodies_told, words_told};

use page_core::board::Event;
use page_core::bodies::BodyRow;
use page_core::finding::{Told, tell};
use page_core::outcome::{no_board, outcome};
use page_core::reads::{ReadRow, reads};
use page_core::rows::EventRow;
use page_core::scene::{Query, Scene, hindered, shown, tell_board, watched};
use page_core::words::WordRow;
use std::alloc::Global;

/// Tells the board after the events: its words, its bodies, and, from event `from` on, what as many
/// events did as `rows` has room for. And tells what a reader of each cell answers that makes its
/// loads then: each is a lawful read.
///
/// There is no room where words or bodies are too few (there are as many bodies as workers and
/// twins so far): a call with both empty learns the sizes. `read` is told by itself.
#[unsafe(no_mangle)]
pub extern "C" fn pram_page_scene(
    alloc: Global,
    text: &[u8],
    workers: u32,
    events: &[Event],
    from: usize,
    rows: &mut [EventRow],
    words: &mut [WordRow],
    bodies: &mut [BodyRow],
    told: &mut Scene,
    cells: &mut [ReadRow],
    read: &mut Told,
)
    ensures scene { IsScene text.now workers events.now from rows.new words.new bodies.new
        told.new }
    ensures rows { IsKeptBehind (length events.now - from) rows.old rows.new }
    ensures words { IsKeptBehind (words_told told.new) words.old words.new }
    ensures bodies { IsKeptBehind (bodies_told told.new) bodies.old bodies.new }
    ensures read { IsToldOf (AreReadsFound text.now workers events.now cells.old cells.new)
        read.new }
    ensures cells { IsKeptBehind (told_written read.new) cells.old cells.new }
{
    let query = Query {
        text,
        workers,
        events,
        from,
    };
    match watched(alloc, &query, rows) {
        Err(hindrance) => {
            *told = hindered(hindrance);
            *read = tell(no_board(hindrance));
        }
        Ok(world) => {
            let count = shown(&query, rows.len());
            *read = tell(reads(&world, cells));
            *told = match tell_board(&world, count, words, bodies) {
                Ok(scene) => scene,
                Err(hindrance) => hindered(hindrance),
            };
        }
    }
}

/// Tells what the board answers after the events: the cells, or the conflict, or how many steps are
/// finished.
#[unsafe(no_mangle)]
pub extern "C" fn pram_page_outcome(
    alloc: Global,
    text: &[u8],
    workers: u32,
    events: &[Event],
    cells: &mut [u32],
    told: &mut Told,
)
    ensures told { IsToldOf (IsOutcomeFound text.now workers events.now cells.old cells.new)
        told.new }
    ensures behind { IsKeptBehind (told_written told.new) cells.old cells.new }
{
    *told = tell(outcome(alloc, text, workers, events, cells));
}
