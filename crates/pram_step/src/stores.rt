//! The stores of a step, which wait for its end.
ghost use Rattle.std.specs.Prelude.{◌≡◌, ◌<◌, ◌≤◌, ◌+◌, length, All, OnOk};
ghost use Rattle.pram_step.specs.Inner.Marks.{AreStored, AsksNext, HasRoom, store_at};
ghost use Rattle.pram_machine.specs.Turns.{put_of, IsSorted};
ghost use Rattle.pram_step.specs.Inner.Marks.{JudgesAll, JudgesNext, JudgesStore, TellsFirst};

use crate::answer::Dispute;
use crate::conflict::is_forbidden;
use pram_job::{Job, Rule};
use pram_machine::Put;
use std::alloc::{AllocError, Global};

/// A store to a cell.
#[derive(Clone, Copy, Debug)]
pub(crate) struct Store {
    pub processor: u32,
    pub cell: u32,
    pub value: u32,
}

/// Room for the stores of a step, in the order of the processors, and a mark of each cell: where
/// the first store to it stands. Marks are never cleared. Whether a mark is of this step is told by
/// the store that it names.
#[derive(Debug, Drop)]
pub(crate) struct Stores {
    pub asked: Vec<Store>,
    pub marks: Vec<u32>,
}

impl Stores {
    /// Room for nothing.
    pub(crate) fn new(alloc: Global) -> Self {
        Stores {
            asked: Vec::new(alloc),
            marks: Vec::new(alloc),
        }
    }

    /// Makes room for a store of each processor and a mark of each cell, where there is none.
    pub(crate) fn make_room(&mut self, alloc: Global, job: &Job) -> Result<(), AllocError>
        ensures { OnOk result (HasRoom job.now self.new) }
    {
        let procs = job.procs() as usize;
        if self.asked.len() != procs {
            self.asked = vec![in alloc; NO_STORE; procs]?;
        }
        let cells = job.cells() as usize;
        if self.marks.len() != cells {
            self.marks = vec![in alloc; 0; cells]?;
        }
        Ok(())
    }
}

/// What stands where no store was made yet.
const NO_STORE: Store = Store {
    processor: 0,
    cell: 0,
    value: 0,
};

/// Takes up what the next processor stores to a cell, if it does, after so many stores, and answers
/// how many there are then.
#[inline(always)]
pub(crate) fn take_up(job: &Job, asked: &mut [Store], count: u32, processor: u32, put: Put) -> u32
    requires room { length asked.old ≡ job.now.procs }
    requires count { count < job.now.procs }
    requires sorted { IsSorted job.now put }
    ensures few { result ≤ count + 1 }
    ensures asked { AsksNext job.now processor (put_of put) asked.old count asked.new result }
{
    job.limits_hold();
    let Put::Cell(cell, value) = put else {
        return count;
    };
    asked[count as usize] = Store {
        processor,
        cell,
        value,
    };
    count + 1
}

/// What two of the stores dispute. With rule priority there is nothing to judge.
#[inline(always)]
pub(crate) fn judge_all(job: &Job, asked: &[Store], marks: &mut [u32]) -> Option<Dispute>
    requires asked { length asked.now ≤ job.now.procs }
    requires marks { length marks.old ≡ job.now.cells }
    requires cells { All (λ store. store.cell < job.now.cells) asked.now }
    ensures { JudgesAll job.now asked.now result }
{
    job.limits_hold();
    if let Rule::Priority = job.rule() {
        return None;
    }
    let mut found = None;
    for k in 0..asked.len() as u32 {
        found = judge(job, asked, marks, k, found);
    }
    found
}

/// The dispute of the first stores and of store k, which is judged beside the first to its cell. It
/// is marked where it is the first.
#[inline(always)]
fn judge(
    job: &Job,
    asked: &[Store],
    marks: &mut [u32],
    k: u32,
    found: Option<Dispute>,
) -> Option<Dispute>
    requires store { k < length asked.now }
    requires marks { length marks.old ≡ job.now.cells }
    requires cell { (store_at asked.now k).cell < job.now.cells }
    ensures { JudgesNext job.now asked.now k marks.old found marks.new result }
{
    let store = asked[k as usize];
    let Some(first) = first_to(asked, marks, k, store.cell) else {
        marks[store.cell as usize] = k;
        return found;
    };
    dispute_of(job, found, first, store)
}

/// The first store to the cell, of the first k.
#[inline(always)]
fn first_to(asked: &[Store], marks: &[u32], k: u32, cell: u32) -> Option<Store>
    requires stores { k ≤ length asked.now }
    requires cell { cell < length marks.now }
    ensures { TellsFirst asked.now marks.now k cell result }
{
    let mark = marks[cell as usize];
    if mark >= k {
        return None;
    }
    let first = asked[mark as usize];
    if first.cell == cell {
        Some(first)
    } else {
        None
    }
}

/// The dispute so far, a store being judged beside the first to its cell.
fn dispute_of(job: &Job, found: Option<Dispute>, first: Store, store: Store) -> Option<Dispute>
    requires { store.cell < job.now.cells }
    ensures { JudgesStore job.now found first store result }
{
    if !is_forbidden(job.rule(), first.value, store.value) {
        return found;
    }
    match found {
        Some(dispute) if dispute.cell <= store.cell => found,
        _ => Some(Dispute {
            cell: store.cell,
            first: first.processor,
            second: store.processor,
        }),
    }
}

/// Makes the stores, the last one first, so that each cell holds what the first one to it stores.
#[inline(always)]
pub(crate) fn write_stores(places: &mut [u32], asked: &[Store])
    requires { All (λ store. store.cell < length places.old) asked.now }
    ensures { AreStored asked.now places.old places.new }
{
    for k in (0..asked.len()).rev() {
        let store = asked[k];
        places[store.cell as usize] = store.value;
    }
}
