//! What is told of a whole run.
use crate::plain::{
    BAD, CONFLICT, DISPUTED, DONE, NO_JOB, NO_ROOM, NO_STEP, SWAP, TOO_FAR, are, is, numbers, told,
};
use page_core::cost::{MeetingRow, cost};
use page_core::fates::{FatesTold, fates};
use page_core::last::{LastRow, last};
use page_core::steps::{StepRow, steps};
use std::process::Abort;

// Processor 1 names a cell that there is not in step 3, the last one.
const LEAVING: &[u8] = b"pram 1\ncells 2\nprocs 2\nsteps 3\ncode\n\
    pid r0\nadd r1 r0 r0\nst r1 r0\nhalt\n";

// How the processors end: the kind, how many run, the first of them, its line, and the last step.
fn end(told: &FatesTold) -> [u64; 5] {
    let end = told.end;
    [
        u64::from(end.kind),
        u64::from(end.count),
        u64::from(end.first),
        end.line,
        u64::from(end.step),
    ]
}

// Which processor was lost: the step, the processor and the line.
fn lost(told: &FatesTold) -> [u64; 3] {
    let lost = told.lost;
    [u64::from(lost.step), u64::from(lost.processor), lost.line]
}

fn expect_fates<R: AllocGlobal + Abort>(
    rt: &R,
    text: &[u8],
    wanted_end: [u64; 5],
    wanted_loss: [u64; 3],
) {
    let told = fates(rt.alloc(), text);
    is(rt, &numbers(told.status), &[DONE, 0, 0]);
    is(rt, &end(&told), &wanted_end);
    is(rt, &lost(&told), &wanted_loss);
}

#[test]
fn fates_are_told(rt: HostRuntime) {
    expect_fates(&rt, LEAVING, [1, 1, 0, 9, 0], [3, 1, 8]);
    expect_fates(&rt, SWAP, [2, 0, 0, 0, 5], [0, 0, 0]);
    expect_fates(&rt, DISPUTED, [0, 0, 0, 0, 0], [0, 0, 0]);
    is(
        &rt,
        &numbers(fates(rt.alloc(), BAD).status),
        &[NO_JOB, 4, 2],
    );
}

fn meeting(row: MeetingRow) -> [u32; 4] {
    [row.step, row.cell, row.first, row.second]
}

// What a text costs: the work; what model it needs, the steps, the processors, and the most at
// work, reading and writing in a step; and one meeting of writers, where no reader meets another.
fn expect_cost<R: AllocGlobal + Abort>(
    rt: &R,
    text: &[u8],
    work: u64,
    sizes: [u32; 6],
    write: [u32; 4],
) {
    let told = cost(rt.alloc(), text);
    is(rt, &numbers(told.status), &[DONE, 0, 0]);
    is(rt, &[told.executed], &[work]);
    let most = [told.most, told.reading, told.writing];
    are(rt, &[told.needs, told.steps, told.procs], &sizes[..3]);
    are(rt, &most, &sizes[3..]);
    are(rt, &meeting(told.same_read), &[0; 4]);
    are(rt, &meeting(told.same_write), &write);
    are(rt, &meeting(told.other_value), &write);
}

#[test]
fn a_cost_is_told(rt: HostRuntime) {
    expect_cost(&rt, SWAP, 10, [0, 5, 2, 2, 1, 1], [0; 4]);
    // The disputed step is one of those that count, and no weaker model accepts it.
    expect_cost(&rt, DISPUTED, 18, [3, 5, 4, 4, 1, 1], [5, 4, 1, 3]);
    is(&rt, &numbers(cost(rt.alloc(), BAD).status), &[NO_JOB, 4, 2]);
}

const IDLE: StepRow = StepRow {
    running: 0,
    reading: 0,
    writing: 0,
    at: 0,
};

// How many run, read and write in a step, and where the first one stands.
fn did(row: StepRow) -> [u32; 4] {
    [row.running, row.reading, row.writing, row.at]
}

#[test]
fn steps_are_told(rt: HostRuntime) {
    let mut rows = [IDLE; 3];
    is(
        &rt,
        &told(steps(rt.alloc(), SWAP, 3, 100, &mut rows)),
        &[DONE, 5, 2],
    );
    are(&rt, &did(rows[0]), &[2, 2, 0, 3]);
    are(&rt, &did(rows[1]), &[2, 0, 2, 4]);
    are(&rt, &did(rows[2]), &[0; 4]);
    is(
        &rt,
        &told(steps(rt.alloc(), SWAP, 3, 100, &mut [IDLE])),
        &[DONE, 4, 1],
    );
    is(
        &rt,
        &told(steps(rt.alloc(), DISPUTED, 4, 100, &mut rows)),
        &[CONFLICT, 5, 1],
    );
    are(&rt, &did(rows[0]), &[2, 0, 2, 4]);
    is(
        &rt,
        &told(steps(rt.alloc(), DISPUTED, 5, 100, &mut rows)),
        &[CONFLICT, 5, 0],
    );
    is(
        &rt,
        &told(steps(rt.alloc(), SWAP, 6, 100, &mut rows)),
        &[NO_STEP, 0, 0],
    );
    is(
        &rt,
        &told(steps(rt.alloc(), SWAP, 3, 2, &mut rows)),
        &[TOO_FAR, 0, 0],
    );
}

const NEVER: LastRow = LastRow { step: 0, index: 0 };

// What each did last: the step and the index.
fn pairs(rows: &[LastRow; 5]) -> [u32; 10] {
    let [a, b, c, d, e] = *rows;
    [
        a.step, a.index, b.step, b.index, c.step, c.index, d.step, d.index, e.step, e.index,
    ]
}

#[test]
fn what_was_executed_last_is_told(rt: HostRuntime) {
    let mut rows = [NEVER; 5];
    is(
        &rt,
        &told(last(rt.alloc(), DISPUTED, 5, 100, &mut rows)),
        &[CONFLICT, 5, 4],
    );
    are(&rt, &pairs(&rows), &[4, 5, 5, 4, 4, 5, 5, 4, 0, 0]);
    is(
        &rt,
        &told(last(rt.alloc(), SWAP, 3, 100, &mut rows)),
        &[DONE, 3, 2],
    );
    are(&rt, &pairs(&rows), &[3, 2, 3, 2, 4, 5, 5, 4, 0, 0]);
    is(
        &rt,
        &told(last(rt.alloc(), SWAP, 0, 100, &mut rows)),
        &[DONE, 0, 2],
    );
    are(&rt, &pairs(&rows), &[0, 0, 0, 0, 4, 5, 5, 4, 0, 0]);
    is(
        &rt,
        &told(last(rt.alloc(), SWAP, 6, 100, &mut rows)),
        &[NO_STEP, 0, 0],
    );
    is(
        &rt,
        &told(last(rt.alloc(), DISPUTED, 4, 0, &mut [NEVER; 3])),
        &[NO_ROOM, 0, 4],
    );
    is(
        &rt,
        &told(last(rt.alloc(), DISPUTED, 4, 3, &mut rows)),
        &[TOO_FAR, 0, 0],
    );
}
