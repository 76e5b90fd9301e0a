//! What is told of boards.
use crate::plain::{DISPUTED, DONE, NO_ROOM, are, disputed, is, told};
use page_core::board::Event;
use page_core::bodies::BodyRow;
use page_core::codes;
use page_core::outcome::{no_board, outcome};
use page_core::reads::{ReadRow, reads};
use page_core::rows::EventRow;
use page_core::scene::{Query, Scene, hindered, shown, tell_board, watched};
use page_core::words::WordRow;
use std::alloc::Global;
use std::process::Abort;

const BAD_EVENT: u64 = codes::BAD_EVENT as u64;

const BAD_WORKERS: u64 = codes::BAD_WORKERS as u64;

const UNFINISHED: u64 = codes::UNFINISHED as u64;

const NO_BODY: BodyRow = BodyRow {
    phase: 0,
    worker: 0,
    doing: 0,
    node: 0,
    heard: 0,
    step: 0,
    pass: 0,
};

const NO_EVENT: EventRow = EventRow {
    before: 0,
    after: 0,
    kind: 0,
    word: 0,
    form: 0,
    which: 0,
    part: 0,
    older: 0,
    event: 0,
    body: 0,
    now: NO_BODY,
};

const NO_WORD: WordRow = WordRow {
    value: 0,
    form: 0,
    which: 0,
    part: 0,
    newer: 0,
    stamp: 0,
    payload: 0,
};

const GO: Event = Event { kind: 0, body: 0 };

const LOSS: Event = Event { kind: 1, body: 0 };

const RETURN: Event = Event { kind: 2, body: 0 };

const TWIN: Event = Event { kind: 3, body: 0 };

const TWIN_GOES: Event = Event { kind: 0, body: 1 };

// Worker 0 of one finishes the job of one cell: 53 atomic steps are within its second step.
const COUNTER: &[u8] = b"pram 1\ncells 1\nprocs 1\nsteps 2\ninit 0 4\ncode\nset r1 7\nst r0 r1\n";

fn query(events: &[Event], from: usize) -> Query<'_> {
    Query {
        text: COUNTER,
        workers: 1,
        events,
        from,
    }
}

fn scene(
    alloc: Global,
    query: &Query<'_>,
    rows: &mut [EventRow],
    words: &mut [WordRow],
    bodies: &mut [BodyRow],
) -> Scene {
    match watched(alloc, query, rows) {
        Err(hindrance) => hindered(hindrance),
        Ok(world) => match tell_board(&world, shown(query, rows.len()), words, bodies) {
            Ok(scene) => scene,
            Err(hindrance) => hindered(hindrance),
        },
    }
}

// How much a scene tells: its code, how many words, bodies and rows, and how far the board is: the
// leaves, the root, the finished steps and the conflict.
fn sizes(told: &Scene) -> [u64; 8] {
    [
        u64::from(told.status.code),
        u64::from(told.words),
        u64::from(told.bodies),
        u64::from(told.rows),
        u64::from(told.leaves),
        told.root,
        u64::from(told.finished),
        u64::from(told.conflict),
    ]
}

// What a body is doing: whose it is, what, where, and in which phase.
fn doing(row: BodyRow) -> [u64; 7] {
    [
        u64::from(row.worker),
        u64::from(row.doing),
        u64::from(row.node),
        u64::from(row.heard),
        row.phase,
        u64::from(row.step),
        u64::from(row.pass),
    ]
}

// The atomic step of an event: its kind, its word before and after it; what that word is, which
// event it was, and of which body.
fn step(row: &EventRow) -> [u64; 10] {
    [
        u64::from(row.kind),
        u64::from(row.word),
        row.before,
        row.after,
        u64::from(row.form),
        u64::from(row.which),
        u64::from(row.part),
        u64::from(row.older),
        u64::from(row.event),
        u64::from(row.body),
    ]
}

// An event of this kind made no atomic step, and leaves its body so.
fn expect_no_step<R: Abort>(rt: &R, row: &EventRow, event: u64, body: u64, now: BodyRow) {
    is(rt, &step(row), &[0, 0, 0, 0, 7, 0, 0, 0, event, body]);
    is(rt, &doing(row.now), &doing(now));
}

#[test]
fn a_scene_is_told(rt: HostRuntime) {
    let events = [GO; 53];
    let mut rows = [NO_EVENT; 2];
    let mut words = [NO_WORD; 20];
    let mut bodies = [NO_BODY; 1];
    let told = scene(
        rt.alloc(),
        &query(&events, 51),
        &mut rows,
        &mut words,
        &mut bodies,
    );
    is(&rt, &sizes(&told), &[DONE, 18, 1, 2, 1, 4, 1, 0]);
    is(
        &rt,
        &step(&rows[1]),
        &[4, 6, 4, 8_589_934_599, 4, 0, 0, 1, 0, 0],
    );
    is(&rt, &doing(rows[1].now), &doing(bodies[0]));
    is(&rt, &doing(bodies[0]), &[0, 3, 1, 7, 5, 2, 2]);
    is(&rt, &[words[6].value], &[8_589_934_599]);
    are(&rt, &[words[6].newer, words[7].newer], &[1, 0]);
}

#[test]
fn a_loss_a_twin_and_a_return_are_told(rt: HostRuntime) {
    let mut events = [TWIN_GOES; 120];
    events[..6].copy_from_slice(&[GO, GO, LOSS, GO, TWIN, RETURN]);
    let mut rows = [NO_EVENT; 4];
    let mut words = [NO_WORD; 18];
    let mut bodies = [NO_BODY; 3];
    let told = scene(
        rt.alloc(),
        &query(&events, 2),
        &mut rows,
        &mut words,
        &mut bodies,
    );
    is(&rt, &sizes(&told), &[DONE, 18, 2, 4, 1, 6, 2, 0]);
    // The body that is lost makes no step.
    expect_no_step(&rt, &rows[0], 1, 0, NO_BODY);
    expect_no_step(&rt, &rows[1], 0, 0, NO_BODY);
    let begins = BodyRow {
        doing: 2,
        node: 1,
        ..NO_BODY
    };
    expect_no_step(&rt, &rows[2], 3, 1, begins);
    let returns = BodyRow {
        doing: 1,
        ..NO_BODY
    };
    expect_no_step(&rt, &rows[3], 2, 0, returns);
    // The twin alone came to the end; the other one is still coming back.
    is(&rt, &doing(bodies[0]), &doing(returns));
    are(&rt, &[bodies[1].worker, bodies[1].doing], &[0, 4]);
    // A body that is over makes no step.
    let told = scene(
        rt.alloc(),
        &query(&events, 119),
        &mut rows,
        &mut words,
        &mut bodies,
    );
    are(&rt, &[told.rows], &[1]);
    expect_no_step(&rt, &rows[0], 0, 1, bodies[1]);
    expect_no_step(&rt, &rows[3], 2, 0, returns);
}

// Of no board this code is told, and at which event.
fn expect_no_board<R: AllocGlobal + Abort>(rt: &R, query: &Query<'_>, code: u64, at: u64) {
    let told = scene(rt.alloc(), query, &mut [], &mut [], &mut []);
    is(rt, &sizes(&told), &[code, 0, 0, 0, 0, 0, 0, 0]);
    is(rt, &[u64::from(told.at)], &[at]);
}

#[test]
fn bad_sizes_have_codes_of_their_own(rt: HostRuntime) {
    for workers in [0, 65, u32::MAX] {
        let asked = Query {
            workers,
            ..query(&[], 0)
        };
        expect_no_board(&rt, &asked, BAD_WORKERS, 0);
    }
    // Of no board: a body, a worker and a kind of event.
    for (kind, body) in [(0, 1), (3, 1), (4, 0)] {
        let events = [GO, Event { kind, body }];
        expect_no_board(&rt, &query(&events, 0), BAD_EVENT, 1);
    }
    // Rows from after the last event are none, and how many words and bodies there are is told.
    let mut rows = [NO_EVENT; 1];
    let mut words = [NO_WORD; 17];
    let told = scene(
        rt.alloc(),
        &query(&[GO], usize::MAX),
        &mut rows,
        &mut words,
        &mut [NO_BODY],
    );
    let told = sizes(&told);
    is(&rt, &told[..4], &[NO_ROOM, 18, 1, 0]);
    is(&rt, &step(&rows[0]), &[0; 10]);
    are(&rt, &[words[16].form], &[0]);
}

#[test]
fn reads_are_told(rt: HostRuntime) {
    let mut cells = [ReadRow { step: 0, value: 0 }; 2];
    let Ok(world) = watched(rt.alloc(), &query(&[GO; 53], 53), &mut []) else {
        panic!(rt; "there is no board");
    };
    is(&rt, &told(reads(&world, &mut cells)), &[DONE, 0, 1]);
    let [first, second] = cells;
    are(
        &rt,
        &[first.step, first.value, second.step, second.value],
        &[1, 4, 0, 0],
    );
    is(&rt, &told(reads(&world, &mut [])), &[NO_ROOM, 0, 1]);
    let events = [TWIN, Event { kind: 2, body: 2 }];
    match watched(rt.alloc(), &query(&events, 0), &mut []) {
        Err(hindrance) => is(&rt, &told(no_board(hindrance)), &[BAD_EVENT, 0, 1]),
        Ok(_) => panic!(rt; "there is a board"),
    }
}

#[test]
fn outcomes_are_told(rt: HostRuntime) {
    let mut cells = [8; 5];
    let found = outcome(rt.alloc(), DISPUTED, 1, &[GO; 2000], &mut cells);
    are(&rt, &disputed(found), &[5, 4, 1, 3]);
    are(&rt, &cells, &[8; 5]);
    let found = outcome(rt.alloc(), COUNTER, 1, &[GO; 53], &mut cells);
    is(&rt, &told(found), &[UNFINISHED, 1, 0]);
    let found = outcome(rt.alloc(), COUNTER, 1, &[GO; 99], &mut cells);
    is(&rt, &told(found), &[DONE, 2, 1]);
    are(&rt, &cells, &[7, 8, 8, 8, 8]);
    let found = outcome(rt.alloc(), COUNTER, 65, &[], &mut cells);
    is(&rt, &told(found), &[BAD_WORKERS, 0, 0]);
    let unknown = [GO, Event { kind: 4, body: 0 }];
    let found = outcome(rt.alloc(), COUNTER, 1, &unknown, &mut cells);
    is(&rt, &told(found), &[BAD_EVENT, 0, 1]);
}
