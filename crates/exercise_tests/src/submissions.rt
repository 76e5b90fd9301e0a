//! Submissions, and what is said of them.
use crate::said::submission_said;
use std::rt::HostRuntime;
use std::test::Fail;

pub const SUMS: &str = "exercise 1
title prefix sums
task A[i] becomes A[0] + .. + A[i], modulo 2^32.
model EREW
time <= 6 * lg(n) + 4
operations <= 9 * n * lg(n)
steps <= 60 * lg(n) + 100
lines <= 8
want A
given
  pardo 1
  rule crew
  const n = 16
  procs i < n
  shared A[n] = 3, 1, 4, 1, 5, ...
start
  code
  A[i] := A[i]
reference
  code
  if i = 0
    for k = 1 to n - 1
      A[k] := A[k] + A[k - 1]
    end
  end
input n=4 A=5,3,9,1
input n=2 A=7,9 -> A=7,16
hidden n=64 A=any:7:100
hidden n=8 A=1,...
";

pub const GOOD: &str =
    "pardo 1~rule common~const n = 16~procs i<n~shared A[n] = 3, ...~private x~code~\
for k = 0 to lg(n) - 1~if i >= 1 << k~x := A[i - (1 << k)]~end~if i >= 1 << k~A[i] := A[i] + x~end~end";

// the rows: what stands in the place of what, and what is said then
const ROWS: &str = "\
for => for => passed
const n = 16 => const n = 99 => passed
rule common => ; => 1 missing   rule crew
A[i] + x => A[i] + x + 1 => 1 A[1] holds 9, wanted 8
A[i] + x => A[i] + x + k => 1 A[2] holds 18, wanted 17
code => const m = 3~code => passed
x := A[i - (1 << k)] => x := A[0] => 1 A[2] holds 19, wanted 17
A[i] := A[i] + x => A[0] := x => 1 conflict line=13 place=A[0] processors=1,2
code => code~while 1~A[i] := A[i]~end => 1 Job(JobFault { line: 8, kind: Endless })
A[i] + x~end~end => A[i] + x~end~end~x := A[i + 1] => 1 processor 3 gone line=16
x := => x = => 1 Text(PardoFault { line: 10, kind: BadLine })
(1 << k)] => (1 << k)] + A[0] - A[0] => 1 Crew for Erew SameRead line=10 place=A[0] processors=1,2";

// what stands in the place of what in the exercise, and what is said of the good submission then
const CHANGES: &str = "\
for => for => passed
model EREW => model priority => passed
model EREW => lines <= 8 => 8 Duplicate
model EREW => gone allowed => passed
model EREW => gone forbidden => 4 BadLine
lines <= 8 => lines <= 5 => 1 Lines 8 of 5
want A => want A B => unfit 26 unknown B
input n=4 A=5,3,9,1 => input n=4 a=5,3,9,1 => unfit 26 unknown a=5,3,9,1
-> A=7,16 => -> B=7,16 => unfit 27 unknown B=7,16
-> A=7,16 => -> -> A=7,16 => unfit 27 unknown ->
-> A=7,16 => -> => unfit 27 Contradiction
-> A=7,16 => -> A=7,17 => unfit 27 Contradiction";

#[test]
fn exercises_are_judged_by(rt: HostRuntime) -> Result<(), Fail> {
    let alloc = rt.alloc();
    let good = GOOD.replace(alloc, "~", "\n")?;
    for row in CHANGES.lines() {
        let (old, rest) = row.split_once(" => ").expect(&rt, row);
        let (new, wanted) = rest.split_once(" => ").expect(&rt, row);
        let exercise = SUMS.replace(alloc, old, new)?;
        let found = submission_said(alloc, exercise.as_str(), good.as_str())?;
        let is_said = found.as_str() == wanted;
        assert!(rt; is_said, "{row} but {found}");
    }
    Ok(())
}

#[test]
fn processors_may_leave_where_that_is_allowed(rt: HostRuntime) -> Result<(), Fail> {
    let alloc = rt.alloc();
    let good = GOOD.replace(alloc, "~", "\n")?;
    let left = format!(in alloc; "{good}\nx := A[i + 1]")?;
    let found = submission_said(alloc, SUMS, left.as_str())?;
    assert!(rt; found.as_str() == "1 processor 3 gone line=16");
    let allowed = SUMS.replace(alloc, "lines <= 8\n", "gone allowed\n")?;
    let found = submission_said(alloc, allowed.as_str(), left.as_str())?;
    assert!(rt; found.as_str() == "passed");
    Ok(())
}

#[test]
fn a_wanted_name_has_its_places(rt: HostRuntime) -> Result<(), Fail> {
    let alloc = rt.alloc();
    let wanted = SUMS.replace(alloc, "want A", "want A B")?;
    let wanted = wanted.replace(alloc, " -> A=7,16", "")?;
    let exercise = wanted.replace(alloc, "reference\n", "reference\n  shared B[2]\n")?;
    let good = GOOD.replace(alloc, "~", "\n")?;
    let found = submission_said(alloc, exercise.as_str(), good.as_str())?;
    assert!(rt; found.as_str() == "1 B length 0, wanted 2");
    let with_one = good.replace(alloc, "code\n", "shared B\ncode\n")?;
    let found = submission_said(alloc, exercise.as_str(), with_one.as_str())?;
    assert!(rt; found.as_str() == "1 B length 1, wanted 2");
    Ok(())
}

#[test]
fn submissions_are_judged(rt: HostRuntime) -> Result<(), Fail> {
    let alloc = rt.alloc();
    for row in ROWS.lines() {
        let (old, rest) = row.split_once(" => ").expect(&rt, row);
        let (new, wanted) = rest.split_once(" => ").expect(&rt, row);
        let text = GOOD.replace(alloc, old, new)?;
        let text = text.replace(alloc, "~", "\n")?;
        let found = submission_said(alloc, SUMS, text.as_str())?;
        let is_said = found.as_str() == wanted;
        assert!(rt; is_said, "{row} but {found}");
    }
    Ok(())
}
