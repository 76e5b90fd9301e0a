//! Judged submissions: what is printed, and the status.
ghost use Rattle.std.specs.Prelude.{⊤};

use crate::table::{AMPLE, answer, lines_of};
use pram_commands::{Bytes, Folder};
use std::str::from_utf8;
use std::test::Fail;

const DOUBLE: &[u8] = b"exercise 1
title double
task Each place is to hold twice what it holds.
time <= 2
want A
given
  pardo 1
  rule crew
  const n = 4
  procs i < n
  shared A[n] = 0, 1, 2, ...
start
  code
reference
  code
  A[i] := A[i] + A[i]
input n=4
hidden n=16 A=any:3:100
";

const RIGHT: &[u8] = b"pardo 1\nrule crew\nconst n = 4\nprocs i < n\nshared A[n] = 0\ncode\n\
    A[i] := 2 * A[i]\n";

const WRONG: &[u8] = b"pardo 1\nrule crew\nconst n = 4\nprocs i < n\nshared A[n] = 0\ncode\n\
    A[i] := A[i] + 1\n";

// Right with four processors alone.
const LATE: &[u8] = b"pardo 1\nrule crew\nconst n = 4\nprocs i < n\nshared A[n] = 0\ncode\n\
    A[i] := 2 * A[i] + n / 16\n";

/// Files by their names.
#[derive(Drop)]
struct Desk;

impl Folder for Desk {
    type File = Bytes<'static>;

    ghost holds = { λ _ _ _. ⊤ };

    fn open(&self, name: &str) -> Bytes<'static> {
        Bytes::new(match name {
            "double" => DOUBLE,
            "right" => RIGHT,
            "wrong" => WRONG,
            "late" => LATE,
            _ => b"",
        })
    }
}

// Words, the status, and what the output and standard error took.
const ROWS: &str = "\
judge double right -> 0 file,passed,input,what~right,yes,,~;
judge double right wrong -> 1 file,passed,input,what~right,yes,,~wrong,no,1,\"A[0] holds 1, wanted \
    0\"~;
judge double late -> 1 file,passed,input,what~late,no,2,a value is not the one that is wanted~;
judge nothing right -> 2 ;exercise line=1 kind=BadHeader~
judge nothing right --explain -> 2 ;exercise line=1 kind=BadHeader~nothing: line 1: the first line \
    must be exercise 1~";

#[test]
fn submissions_have_records(rt: HostRuntime) -> Result<(), Fail> {
    let alloc = rt.alloc();
    for row in ROWS.lines() {
        let (words, wanted) = row.split_once(" -> ").expect(&rt, row);
        let words = format!(in alloc; "pramx {words}")?;
        let told = answer(&rt, alloc, &Desk, words.as_str(), AMPLE)?;
        let out = from_utf8(told.out.as_slice()).expect(&rt, row);
        let err = from_utf8(told.err.as_slice()).expect(&rt, row);
        let found = format!(in alloc; "{} {out};{err}", told.status)?;
        let wanted = lines_of(alloc, wanted)?;
        assert!(rt; found == wanted, "{row}: {found}");
    }
    Ok(())
}
