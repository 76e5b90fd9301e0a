//! What the steps of a run do.
ghost use Rattle.std.specs.Prelude.{◌≡◌, ◌+◌, if◌then◌else◌};
ghost use Rattle.pram_cost.specs.Costs.{IsWork, has_access};

use crate::meeting::Sharing;
use crate::moment::Moment;

/// What the steps of a run do.
#[derive(Clone, Copy, Debug, PartialEq, Eq)]
pub struct Work {
    /// The instructions that are executed.
    pub executed: u64,
    /// The most processors that run in a step.
    pub most: u32,
    /// The steps in which some processor reads a cell.
    pub reading: u32,
    /// The steps in which some processor writes a cell.
    pub writing: u32,
}

impl Work {
    /// That of no step.
    pub(crate) const NONE: Work = Work {
        executed: 0,
        most: 0,
        reading: 0,
        writing: 0,
    };

    /// That after the steps that come next.
    pub(crate) fn after(self, moment: &Moment<'_>) -> Work
        requires { IsWork moment.now.sight.job.now moment.now.sight.made self }
        ensures { IsWork moment.now.sight.job.now
            (moment.now.sight.made + moment.now.sight.times) result }
    {
        moment.sight.job.limits_hold();
        let running = moment.accesses.running;
        let reading = steps_with(Sharing::SameRead, moment);
        let writing = steps_with(Sharing::SameWrite, moment);
        Work {
            executed: self.executed + u64::from(moment.sight.times) * u64::from(running),
            most: self.most.max(running),
            reading: self.reading + reading,
            writing: self.writing + writing,
        }
    }
}

// How many of the steps that come next have such an access: all or none.
fn steps_with(sharing: Sharing, moment: &Moment<'_>) -> u32
    ensures { result ≡ (if has_access sharing moment.now.sight.job.now moment.now.sight.state.now
        then moment.now.sight.times else 0) }
{
    if moment.accesses.of_kind(sharing).is_empty() {
        0
    } else {
        moment.sight.times
    }
}
