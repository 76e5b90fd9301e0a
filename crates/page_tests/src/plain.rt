//! What is told of a text of the machine: its job, its answer, its moments.
use page_core::codes::{self, Status, TEXT_MOST};
use page_core::finding::{Finding, tell};
use page_core::machine::answer;
use page_core::moment::{go, tell_state};
use page_core::requests::{RequestRow, requests};
use page_core::text::judge;
use std::alloc::Global;
use std::process::Abort;
use std::test::Fail;

// Two processors exchange the values of two cells.
pub(crate) const SWAP: &[u8] = b"pram 1\ncells 2\nprocs 2\nsteps 5\ninit 0 7\ninit 1 9\ncode\n\
    pid r0\nset r1 1\nsub r1 r1 r0\nld r2 r1\nst r0 r2\n";

// Processors 1 and 3 write 1 and 3 to cell 4 in step 5.
pub(crate) const DISPUTED: &[u8] = b"pram 1\ncells 5\nprocs 4\nsteps 5\ninit 1 1\ninit 3 1\ncode\n\
    pid r0\nld r1 r0\njz r1 end\nset r2 4\nst r2 r0\nend: halt\n";

// Of no text.
pub(crate) const BAD: &[u8] = b"pram 1\ncells 0\n";

pub(crate) const CONFLICT: u64 = codes::CONFLICT as u64;

pub(crate) const DONE: u64 = codes::DONE as u64;

pub(crate) const NO_JOB: u64 = codes::NO_JOB as u64;

pub(crate) const NO_ROOM: u64 = codes::NO_ROOM as u64;

pub(crate) const NO_STEP: u64 = codes::NO_STEP as u64;

pub(crate) const TEXT_TOO_LONG: u64 = codes::TEXT_TOO_LONG as u64;

pub(crate) const TOO_FAR: u64 = codes::TOO_FAR as u64;

/// Checks numbers. The comparison stands once, since each one costs its proof.
pub(crate) fn is<R: Abort>(rt: &R, found: &[u64], wanted: &[u64]) {
    assert!(rt; found == wanted, "{found:?}, and not {wanted:?}");
}

/// Checks numbers of 32 bits.
pub(crate) fn are<R: Abort>(rt: &R, found: &[u32], wanted: &[u32]) {
    assert!(rt; found == wanted, "{found:?}, and not {wanted:?}");
}

// A status in numbers: its code, its fault and its line.
pub(crate) fn numbers(status: Status) -> [u64; 3] {
    [u64::from(status.code), u64::from(status.fault), status.line]
}

// What is told of a finding: its code, its step and its count.
pub(crate) fn told(finding: Finding) -> [u64; 3] {
    let told = tell(finding);
    [
        u64::from(told.status.code),
        u64::from(told.step),
        told.count,
    ]
}

// What is told of a conflict: its step, its cell, and the two processors, or nothing.
pub(crate) fn disputed(finding: Finding) -> [u32; 4] {
    let told = tell(finding);
    if told.status.code == codes::CONFLICT {
        [told.step, told.cell, told.first, told.second]
    } else {
        [0; 4]
    }
}

#[test]
fn a_text_is_judged(rt: HostRuntime) -> Result<(), Fail> {
    let told = judge(rt.alloc(), SWAP);
    is(&rt, &numbers(told.status), &[DONE, 0, 0]);
    are(&rt, &[told.cells, told.procs, told.steps], &[2, 2, 5]);
    are(
        &rt,
        &[told.rule, told.instructions, told.places],
        &[0, 5, 12],
    );
    is(
        &rt,
        &numbers(judge(rt.alloc(), BAD).status),
        &[NO_JOB, 4, 2],
    );
    let long = vec![in rt.alloc(); b' '; TEXT_MOST + 1]?;
    is(
        &rt,
        &numbers(judge(rt.alloc(), &long).status),
        &[TEXT_TOO_LONG, 0, 0],
    );
    Ok(())
}

#[test]
fn an_answer_is_told(rt: HostRuntime) {
    let mut cells = [0, 0, 5];
    is(
        &rt,
        &told(answer(rt.alloc(), SWAP, 100, &mut cells)),
        &[DONE, 5, 2],
    );
    are(&rt, &cells, &[9, 7, 5]);
    is(
        &rt,
        &told(answer(rt.alloc(), SWAP, 4, &mut cells)),
        &[TOO_FAR, 0, 0],
    );
    let found = answer(rt.alloc(), DISPUTED, 100, &mut cells);
    are(&rt, &disputed(found), &[5, 4, 1, 3]);
    let mut few = [6; 1];
    is(
        &rt,
        &told(answer(rt.alloc(), SWAP, 100, &mut few)),
        &[NO_ROOM, 0, 2],
    );
    are(&rt, &few, &[6]);
}

// The state after so many steps of a text, and what is asked for in the step after them.
fn moment(
    alloc: Global,
    text: &[u8],
    (step, most): (u32, u32),
    places: &mut [u32],
    rows: &mut [RequestRow],
) -> (Finding, Finding) {
    match go(alloc, text, step, most) {
        Ok(reached) => {
            let state = tell_state(&reached, places);
            (state, requests(alloc, reached, rows))
        }
        Err(finding) => (finding, finding),
    }
}

const NO_ROW: RequestRow = RequestRow {
    counter: 0,
    status: 0,
    reads: 0,
    held: 0,
    target: 0,
    number: 0,
    value: 0,
    next: 0,
};

// What a processor asks for: where it stands, what it reads, and what it writes.
fn asked(row: RequestRow) -> [u32; 8] {
    let [counter, status, reads, held] = [row.counter, row.status, row.reads, row.held];
    [
        counter, status, reads, held, row.target, row.number, row.value, row.next,
    ]
}

#[test]
fn moments_are_told(rt: HostRuntime) {
    let mut places = [0; 13];
    let mut rows = [NO_ROW; 3];
    let (state, wanted) = moment(rt.alloc(), SWAP, (3, 100), &mut places, &mut rows);
    is(&rt, &told(state), &[DONE, 3, 12]);
    is(&rt, &told(wanted), &[DONE, 3, 2]);
    are(&rt, &places, &[7, 9, 0, 1, 0, 0, 1, 0, 0, 0, 3, 3, 0]);
    are(&rt, &asked(rows[0]), &[3, 0, 2, 9, 2, 2, 9, 4]);
    are(&rt, &asked(rows[2]), &asked(NO_ROW));
    // After the last step nothing is asked for.
    let (state, wanted) = moment(rt.alloc(), SWAP, (5, 100), &mut places, &mut rows);
    is(&rt, &told(state), &[DONE, 5, 12]);
    is(&rt, &told(wanted), &[NO_STEP, 0, 0]);
    are(&rt, &places[..2], &[9, 7]);
    let (state, wanted) = moment(rt.alloc(), SWAP, (6, 100), &mut places, &mut rows);
    is(&rt, &told(state), &[NO_STEP, 0, 0]);
    is(&rt, &told(wanted), &[NO_STEP, 0, 0]);
    let (state, wanted) = moment(rt.alloc(), SWAP, (5, 4), &mut places, &mut rows);
    is(&rt, &told(state), &[TOO_FAR, 0, 0]);
    is(&rt, &told(wanted), &[TOO_FAR, 0, 0]);
}

#[test]
fn moments_of_a_conflict_are_told(rt: HostRuntime) {
    let mut places = [0; 25];
    let mut rows = [NO_ROW; 4];
    let (state, wanted) = moment(rt.alloc(), DISPUTED, (4, 100), &mut places, &mut rows);
    is(&rt, &told(state), &[DONE, 4, 25]);
    is(&rt, &told(wanted), &[CONFLICT, 5, 4]);
    are(&rt, &asked(rows[3]), &[4, 0, 0, 0, 1, 4, 3, 5]);
    let (state, wanted) = moment(rt.alloc(), DISPUTED, (5, 9), &mut places, &mut rows);
    is(&rt, &told(state), &[CONFLICT, 5, 0]);
    is(&rt, &told(wanted), &[CONFLICT, 5, 0]);
    // Each list is told where it has room.
    let mut few = [6; 1];
    let (state, wanted) = moment(rt.alloc(), DISPUTED, (3, 9), &mut few, &mut rows);
    is(&rt, &told(state), &[NO_ROOM, 0, 25]);
    is(&rt, &told(wanted), &[DONE, 3, 4]);
    are(&rt, &few, &[6]);
    let (state, wanted) = moment(rt.alloc(), DISPUTED, (3, 9), &mut places, &mut []);
    is(&rt, &told(state), &[DONE, 3, 25]);
    is(&rt, &told(wanted), &[NO_ROOM, 0, 4]);
}
