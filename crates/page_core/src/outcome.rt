//! What a board answers.
ghost use Rattle.std.specs.Prelude.{◌≡◌};
ghost use Rattle.page_core.specs.Answers.{IsOutcomeFound, finding_of};
ghost use Rattle.page_core.specs.Findings.{IsKeptBehind, count_written};

use crate::board::{Event, Hindrance};
use crate::finding::Finding;
use crate::machine::copy;
use crate::scene::after;
use crate::text::Refusal;
use pram_step::RunAnswer;
use std::alloc::Global;

/// What the board answers after the events: the cells, or the conflict, or how many steps are
/// finished.
pub fn outcome(
    alloc: Global,
    text: &[u8],
    workers: u32,
    events: &[Event],
    cells: &mut [u32],
) -> Finding
    ensures found { IsOutcomeFound text.now workers events.now cells.old cells.new result }
    ensures behind { IsKeptBehind (count_written result) cells.old cells.new }
{
    let world = match after(alloc, text, workers, events) {
        Ok(world) => world,
        Err(hindrance) => return no_board(hindrance),
    };
    match world.outcome() {
        Err(_) => Finding::Refused(Refusal::Memory),
        Ok(RunAnswer::Conflict(fault)) => Finding::Conflict { fault, count: 0 },
        Ok(RunAnswer::Unfinished { step }) => Finding::Unfinished { step },
        Ok(RunAnswer::Final(held)) => {
            let count = held.as_slice().len() as u64;
            if copy(held.as_slice(), cells) {
                Finding::Done {
                    step: world.job().steps(),
                    count,
                }
            } else {
                Finding::NoRoom { needed: count }
            }
        }
    }
}

/// Why there is no board.
pub fn no_board(hindrance: Hindrance) -> Finding
    ensures { result ≡ finding_of hindrance }
{
    match hindrance {
        Hindrance::Refused(refusal) => Finding::Refused(refusal),
        Hindrance::BadWorkers => Finding::BadWorkers,
        Hindrance::BadEvent(number) => Finding::BadEvent { number },
    }
}
