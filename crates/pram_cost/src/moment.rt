//! The steps that come next, and what they access.
ghost use Rattle.std.specs.Prelude.{◌≡◌, ◌+◌, ◌<◌, ◌^◌};
ghost use Rattle.pram_cost.specs.Inner.Found.{AreFound};
ghost use Rattle.pram_step.specs.Running.{Repeats};
ghost use Rattle.pram_step.specs.Runs.{IsStateAfter};

use crate::found::Accesses;
use pram_step::Sight;

/// What is seen before some steps, and the accesses of each of them.
#[derive(Drop)]
pub(crate) struct Moment<'a> {
    pub sight: Sight<'a>,
    pub accesses: &'a Accesses,
    pub ghost after: { IsStateAfter sight.job.now sight.made sight.state.now },
    pub ghost some: { 0 < sight.times },
    pub ghost fits: { sight.made + sight.times < 2 ^ 32 },
    pub ghost repeats: { Repeats sight.job.now sight.made sight.times sight.state.now },
    pub ghost found: { AreFound sight.job.now sight.state.now sight.job.now.procs accesses.now },
}
