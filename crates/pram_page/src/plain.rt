//! Calls about a text of the machine: its job, its answer, its moments.
ghost use Rattle.page_core.specs.Findings.{IsKeptBehind, IsToldOf, told_written};
ghost use Rattle.page_core.specs.Moments.{IsAnswerFound, IsStateFound};
ghost use Rattle.page_core.specs.Requests.{AreRequestsFound};
ghost use Rattle.page_core.specs.Texts.{IsJudged};

use page_core::finding::{Told, tell};
use page_core::machine::answer;
use page_core::moment::{go, tell_state};
use page_core::requests::{RequestRow, requests};
use page_core::text::{Judgement, judge};
use std::alloc::Global;

/// Judges a text: tells the sizes of the job that it spells, or the first line that is wrong.
#[unsafe(no_mangle)]
pub extern "C" fn pram_page_judge(alloc: Global, text: &[u8], told: &mut Judgement)
    ensures { IsJudged text.now told.new }
{
    *told = judge(alloc, text);
}

/// Tells the answer of a text: the cells after the last step, or the first conflict. At most
/// `most` steps are made; a machine whose processors have all stopped makes none.
#[unsafe(no_mangle)]
pub extern "C" fn pram_page_answer(
    alloc: Global,
    text: &[u8],
    most: u32,
    cells: &mut [u32],
    told: &mut Told,
)
    ensures told { IsToldOf (IsAnswerFound text.now most cells.old cells.new) told.new }
    ensures behind { IsKeptBehind (told_written told.new) cells.old cells.new }
{
    *told = tell(answer(alloc, text, most, cells));
}

/// Tells the state after so many steps: the cells, then four registers a processor, then a counter
/// a processor; or the conflict that comes before it. And tells what each processor asks for in the
/// step after it, and whether that step is against the rule, and where. At most `most` steps are
/// made.
///
/// Each is told by itself. `state` is a conflict where step `state.step`, at most `step`, is
/// against the rule. `asked` says that there is no step where the job has none after these; it is a
/// conflict with the rows where that step is against the rule, and one with a lesser `asked.step`
/// and none where it is not reached.
#[unsafe(no_mangle)]
pub extern "C" fn pram_page_moment(
    alloc: Global,
    text: &[u8],
    step: u32,
    most: u32,
    places: &mut [u32],
    state: &mut Told,
    rows: &mut [RequestRow],
    asked: &mut Told,
)
    ensures state { IsToldOf (IsStateFound text.now step most places.old places.new) state.new }
    ensures places { IsKeptBehind (told_written state.new) places.old places.new }
    ensures asked { IsToldOf (AreRequestsFound text.now step most rows.old rows.new) asked.new }
    ensures rows { IsKeptBehind (told_written asked.new) rows.old rows.new }
{
    match go(alloc, text, step, most) {
        Ok(reached) => {
            *state = tell(tell_state(&reached, places));
            *asked = tell(requests(alloc, reached, rows));
        }
        Err(finding) => {
            *state = tell(finding);
            *asked = tell(finding);
        }
    }
}
