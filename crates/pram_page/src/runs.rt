//! Calls about a whole run.
ghost use Rattle.page_core.specs.Costs.{IsCostTold};
ghost use Rattle.page_core.specs.Fates.{AreFatesTold};
ghost use Rattle.page_core.specs.Findings.{IsKeptBehind, IsToldOf, told_written};
ghost use Rattle.page_core.specs.Last.{AreLastFound};
ghost use Rattle.page_core.specs.Steps.{AreStepsFound};

use page_core::cost::{CostTold, cost};
use page_core::fates::{FatesTold, fates};
use page_core::finding::{Told, tell};
use page_core::last::{LastRow, last};
use page_core::steps::{StepRow, steps};
use std::alloc::Global;

/// Tells what became of the processors in all steps of a text's job. None is made after one that
/// changes nothing. There is no limit: call it where the answer is told.
#[unsafe(no_mangle)]
pub extern "C" fn pram_page_fates(alloc: Global, text: &[u8], told: &mut FatesTold)
    ensures { AreFatesTold text.now told.new }
{
    *told = fates(alloc, text);
}

/// Tells what the run of a text's job costs: all of its steps, or those up to its first conflict.
/// None is made after one that changes nothing. There is no limit: call it where the answer is
/// told.
#[unsafe(no_mangle)]
pub extern "C" fn pram_page_cost(alloc: Global, text: &[u8], told: &mut CostTold)
    ensures { IsCostTold text.now told.new }
{
    *told = cost(alloc, text);
}

/// Tells what the steps after these do, a row each: as many as there is room for, up to the last
/// one, or up to the first conflict, that one too: `told.step` is `from` and `told.count`. The last
/// row of a conflict is its step's; there is none where it comes before. At most `most` steps are
/// made before them.
#[unsafe(no_mangle)]
pub extern "C" fn pram_page_steps(
    alloc: Global,
    text: &[u8],
    from: u32,
    most: u32,
    rows: &mut [StepRow],
    told: &mut Told,
)
    ensures told { IsToldOf (AreStepsFound text.now from most rows.old rows.new) told.new }
    ensures behind { IsKeptBehind (told_written told.new) rows.old rows.new }
{
    *told = tell(steps(alloc, text, from, most, rows));
}

/// Tells what each processor executed last in so many steps, or in those up to the first conflict,
/// that one too, and in which step. No more than `most` steps are made.
#[unsafe(no_mangle)]
pub extern "C" fn pram_page_last(
    alloc: Global,
    text: &[u8],
    step: u32,
    most: u32,
    rows: &mut [LastRow],
    told: &mut Told,
)
    ensures told { IsToldOf (AreLastFound text.now step most rows.old rows.new) told.new }
    ensures behind { IsKeptBehind (told_written told.new) rows.old rows.new }
{
    *told = tell(last(alloc, text, step, most, rows));
}
