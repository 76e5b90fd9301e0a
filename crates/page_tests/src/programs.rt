//! What is told of programs of `pardo`.
use crate::plain::{DONE, NO_JOB, NO_ROOM, SWAP, TEXT_TOO_LONG, are, is, numbers};
use page_core::codes::{ARRAY, KEPT, LOOP, MASK, OTHER_LANGUAGE, PRIVATE, SCALAR, TEXT_MOST};
use page_core::names::take_names;
use page_core::program::{
    LineRow, NoProgram, ProgramTold, compiled, lines_of, put, put_rows, tell_none,
};
use page_core::text::judge;
use std::test::Fail;

// Two processors of three write their numbers to places of an array.
const PROGRAM: &[u8] = b"pardo 1\nrule crew\nprocs i < 3\nshared s = 7\nshared A[2]\n\
    private own\ncode\nfor k = 1 to 1\n  if i < 2\n    A[i] := i\n  end\nend\n";

fn sizes(told: ProgramTold) -> [u64; 3] {
    [u64::from(told.status.code), told.bytes, told.rows]
}

// Why nothing is told: the code, the fault and its line.
fn why<T: Drop>(found: Result<T, NoProgram>) -> [u64; 3] {
    match found {
        Ok(_) => [DONE, 0, 0],
        Err(why) => numbers(tell_none(why).status),
    }
}

#[test]
fn a_job_of_a_program_is_told(rt: HostRuntime) {
    let Ok(made) = compiled(rt.alloc(), PROGRAM) else {
        panic!(rt; "the program is refused");
    };
    let (text, lines) = (made.text.as_bytes(), made.numbers.as_slice());
    let judged = judge(rt.alloc(), text);
    is(&rt, &numbers(judged.status), &[DONE, 0, 0]);
    are(&rt, &[judged.rule, judged.cells, judged.procs], &[2, 12, 3]);
    assert!(rt; judged.instructions as usize == lines.len());
    assert!(rt; lines.starts_with(&[0, 8]) && lines.ends_with(&[12]));
}

#[test]
fn bytes_and_rows_are_put_where_there_is_room(rt: HostRuntime) {
    let (mut bytes, mut rows) = ([b'-'; 4], [99; 3]);
    is(
        &rt,
        &sizes(put(b"ab", &[5, 6, 7], &mut bytes, &mut rows)),
        &[DONE, 2, 3],
    );
    assert!(rt; bytes == *b"ab--");
    is(&rt, &rows, &[5, 6, 7]);
    // Without room it is told how much is needed.
    is(
        &rt,
        &sizes(put(b"c", &[1, 2, 3, 4], &mut bytes, &mut rows)),
        &[NO_ROOM, 1, 4],
    );
    assert!(rt; bytes == *b"ab--");
    is(&rt, &rows, &[5, 6, 7]);
}

#[test]
fn lines_of_code_are_told(rt: HostRuntime) {
    let Ok(lines) = lines_of(rt.alloc(), PROGRAM) else {
        panic!(rt; "the program is refused");
    };
    assert!(rt; lines.len() == 5);
    let wanted: [[u64; 2]; 5] = [[8, 0], [9, 0], [10, 1], [11, 0], [12, 0]];
    for (line, wanted) in lines.iter().zip(wanted) {
        is(&rt, &[line.number, u64::from(line.depth)], &wanted);
    }
    let mut few = [LineRow {
        number: 0,
        depth: 0,
    }; 4];
    is(
        &rt,
        &sizes(put_rows(lines.as_slice(), &mut few)),
        &[NO_ROOM, 0, 5],
    );
}

#[test]
fn names_of_cells_are_told(rt: HostRuntime) {
    let Ok(named) = take_names(rt.alloc(), PROGRAM) else {
        panic!(rt; "the program is refused");
    };
    assert!(rt; named.names.as_slice() == &b"sAown"[..]);
    assert!(rt; named.rows.len() == 5);
    let wanted = [
        [0, 1, 1, SCALAR],
        [1, 2, 1, ARRAY],
        [3, 3, 3, PRIVATE],
        [6, 3, 0, LOOP],
        [9, 3, 0, MASK],
    ];
    for (row, wanted) in named.rows.iter().zip(wanted) {
        is(&rt, &[row.base, row.len, row.name, row.kind], &wanted);
    }
}

#[test]
fn parts_of_long_lines_are_told(rt: HostRuntime) {
    let text = b"pardo 1\nrule crew\nprocs i < 2\nshared A[2]\nprivate x\ncode\nfor k = 1 to 1\n\
        x := A[0] + (A[1] + (A[0] + A[i]))\nfor l = k to k + (1 * (k + (k * k)))\nend\nend\n";
    let Ok(named) = take_names(rt.alloc(), text) else {
        panic!(rt; "the program is refused");
    };
    assert!(rt; named.names.as_slice() == &b"Ax"[..]);
    let kinds = [ARRAY, PRIVATE, KEPT, LOOP, LOOP, KEPT];
    assert!(rt; named.rows.len() == kinds.len());
    for (at, (row, kind)) in named.rows.iter().zip(kinds).enumerate() {
        is(
            &rt,
            &[row.base, row.len, row.kind],
            &[2 * at as u64, 2, kind],
        );
    }
}

#[test]
fn what_is_no_program_is_refused(rt: HostRuntime) -> Result<(), Fail> {
    let other = u64::from(OTHER_LANGUAGE);
    is(&rt, &why(compiled(rt.alloc(), SWAP)), &[other, 0, 0]);
    is(
        &rt,
        &why(lines_of(rt.alloc(), b"pardo 1\nrule x\n")),
        &[NO_JOB, 3, 2],
    );
    let long = vec![in rt.alloc(); b' '; TEXT_MOST + 1]?;
    is(
        &rt,
        &why(take_names(rt.alloc(), &long)),
        &[TEXT_TOO_LONG, 0, 0],
    );
    Ok(())
}
