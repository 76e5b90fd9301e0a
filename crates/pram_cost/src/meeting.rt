//! Where processors first meet at a cell.
ghost use Rattle.std.specs.Prelude.{◌≡◌, ◌≢◌, ℕ, ◌+◌, ◌<◌, length, MatchBool, IfSome};
ghost use Rattle.pram_cost.specs.Costs.{AreFirst};
ghost use Rattle.pram_cost.specs.Inner.Found.{of_kind, NamesFirst};
ghost use Rattle.pram_cost.specs.Inner.Seen.{HasSearched, IsOfStep};
ghost use Rattle.pram_cost.specs.Meetings.{access_by, Differ, IsLeastOrNone, IsFirstOrNone};
ghost use Rattle.pram_cost.specs.declared.meeting.Sharing.TheVariants.{SameWrite, OtherValue};

use crate::found::Access;
use crate::moment::Moment;
use pram_step::{counter, laws};

/// How two processors meet at a cell in a step.
#[derive(Clone, Copy, Debug, PartialEq, Eq)]
pub enum Sharing {
    /// They read it.
    SameRead,
    /// They write it.
    SameWrite,
    /// They write different values to it.
    OtherValue,
}

/// The first step in which two processors meet, counted from 1, the least cell at which two do, the
/// least processor that goes there, and the least that meets it. The counter is that of the first
/// one before the step: the index of the instruction by which it goes there.
#[derive(Clone, Copy, Debug, PartialEq, Eq)]
pub struct Meeting {
    pub step: u32,
    pub cell: u32,
    pub first: u32,
    pub second: u32,
    pub counter: u32,
}

/// The first meeting of each kind in a run, if it has one.
#[derive(Clone, Copy, Debug, PartialEq, Eq)]
pub struct Meetings {
    /// The first cell that two processors read in one step.
    pub same_read: Option<Meeting>,
    /// The first that two write.
    pub same_write: Option<Meeting>,
    /// The first that two write different values to.
    pub other_value: Option<Meeting>,
}

impl Meetings {
    /// Those of no step.
    pub(crate) const NONE: Meetings = Meetings {
        same_read: None,
        same_write: None,
        other_value: None,
    };

    /// Those after the steps that come next. The old marks may be anything.
    pub(crate) fn after(self, moment: &Moment<'_>, marks: &mut [u32]) -> Meetings
        requires first { AreFirst moment.now.sight.job.now moment.now.sight.made self }
        requires marks { length marks.old ≡ moment.now.sight.job.now.cells }
        ensures { AreFirst moment.now.sight.job.now
            (moment.now.sight.made + moment.now.sight.times) result }
    {
        let same_read = next(Sharing::SameRead, moment, marks, self.same_read);
        let same_write = next(Sharing::SameWrite, moment, marks, self.same_write);
        let other_value = next_other(moment, marks, same_write, self.other_value);
        Meetings {
            same_read,
            same_write,
            other_value,
        }
    }
}

// The first writes of different values, the next step being looked at too. Where none have written
// to one cell there is nothing to look for.
fn next_other(
    moment: &Moment<'_>,
    marks: &mut [u32],
    same_write: Option<Meeting>,
    found: Option<Meeting>,
) -> Option<Meeting>
    requires marks { length marks.old ≡ moment.now.sight.job.now.cells }
    requires write { IsFirstOrNone SameWrite moment.now.sight.job.now (moment.now.sight.made + 1)
        same_write }
    requires found { IsFirstOrNone OtherValue moment.now.sight.job.now moment.now.sight.made found }
    ensures { IsFirstOrNone OtherValue moment.now.sight.job.now (moment.now.sight.made + 1) result }
{
    match same_write {
        None => None,
        Some(_) => next(Sharing::OtherValue, moment, marks, found),
    }
}

// The first meeting, the next step being looked at too.
fn next(
    sharing: Sharing,
    moment: &Moment<'_>,
    marks: &mut [u32],
    found: Option<Meeting>,
) -> Option<Meeting>
    requires marks { length marks.old ≡ moment.now.sight.job.now.cells }
    requires found { IsFirstOrNone sharing moment.now.sight.job.now moment.now.sight.made found }
    ensures { IsFirstOrNone sharing moment.now.sight.job.now (moment.now.sight.made + 1) result }
{
    match found {
        Some(_) => found,
        None => least(sharing, moment, marks),
    }
}

// The least meeting in the next step. It costs time in the number of its accesses.
fn least(sharing: Sharing, moment: &Moment<'_>, marks: &mut [u32]) -> Option<Meeting>
    requires { length marks.old ≡ moment.now.sight.job.now.cells }
    ensures least { IsLeastOrNone sharing (access_by sharing moment.now.sight.job.now
        moment.now.sight.state.now) moment.now.sight.job.now.procs result }
    ensures step { IfSome result (IsOfStep moment.now.sight.job.now moment.now.sight.state.now
        (moment.now.sight.made + 1)) }
{
    moment.sight.job.limits_hold();
    let count = moment.accesses.of_kind(sharing).len() as u32;
    let mut found = None;
    for k in 0..count {
        found = look(sharing, moment, marks, k, found);
    }
    found
}

// The least meeting so far, access k being looked at too. The mark of a cell is the number of the
// first access to it, of those before access k, and then of this one too.
fn look(
    sharing: Sharing,
    moment: &Moment<'_>,
    marks: &mut [u32],
    k: u32,
    found: Option<Meeting>,
) -> Option<Meeting>
    requires access { k < length (of_kind sharing moment.now.accesses.now) }
    requires marks { length marks.old ≡ moment.now.sight.job.now.cells }
    requires looked { HasSearched sharing moment.now.sight.job.now moment.now.sight.state.now
        (moment.now.sight.made + 1) (of_kind sharing moment.now.accesses.now) k marks.old found }
    ensures { HasSearched sharing moment.now.sight.job.now moment.now.sight.state.now
        (moment.now.sight.made + 1) (of_kind sharing moment.now.accesses.now) (k + 1) marks.new
        result }
{
    laws::states_have_all_places();
    moment.sight.job.limits_hold();
    let accesses = moment.accesses.of_kind(sharing);
    let access = accesses[k as usize];
    let cell = access.cell;
    let Some(first) = first_to(accesses, marks[cell as usize], k) else {
        marks[cell as usize] = k;
        return found;
    };
    if !differ(sharing, first.value, access.value) {
        return found;
    }
    match found {
        Some(meeting) if meeting.cell <= cell => found,
        _ => Some(Meeting {
            step: moment.sight.made + 1,
            cell,
            first: first.processor,
            second: access.processor,
            counter: counter(moment.sight.job, moment.sight.state, first.processor),
        }),
    }
}

// The access that a mark names, if it comes before access k and goes to the same cell.
#[inline(always)]
fn first_to(accesses: &[Access], mark: u32, k: u32) -> Option<Access>
    requires { k < length accesses.now }
    ensures { NamesFirst accesses.now mark k result }
{
    if mark >= k {
        return None;
    }
    let first = accesses[mark as usize];
    if first.cell == accesses[k as usize].cell {
        Some(first)
    } else {
        None
    }
}

// Whether two processors that bring these values to one cell meet there.
fn differ(sharing: Sharing, first: u32, second: u32) -> bool
    ensures { MatchBool result ((i j : ℕ) → i ≢ j → Differ sharing i first j second)
        ((i j : ℕ) → i ≢ j → Differ sharing i first j second → ⊥) }
{
    match sharing {
        Sharing::SameRead | Sharing::SameWrite => true,
        Sharing::OtherValue => first != second,
    }
}
