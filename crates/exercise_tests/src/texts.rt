//! Texts that are exercises, and those that are none.
use exercise_text::{ExerciseFault, Key, read_exercise};
use std::alloc::Global;
use std::rt::HostRuntime;
use std::test::Fail;

// In the rows `~` stands for a line feed.
const ROWS: &str = "\
exercise 1~title t~want A~given~ pardo 1~start~ code~reference~ code~input n=2~hidden n=3 => 8 entries, 9 bytes given
exercise 1~title t~want A~given~~start~input n=4 -> A=1~ ; a note => 6 entries, 1 bytes given
exercise 1~title t~given~ pardo 1~; a note~ ; another~start~want A~input -> A=1 => 7 entries, 9 bytes given
exercise 2 => 1 BadHeader
 => 1 BadHeader
exercise 1~title t~title u => 3 Duplicate
exercise 1~title t~what => 3 UnknownKey
exercise 1~title t~ what => 3 BadLine
exercise 1~model SREW => 2 BadLine
exercise 1~time n => 2 BadLine
exercise 1~lines <= n => 2 BadLine
exercise 1~given 4 => 2 BadLine
exercise 1~gone allowed~gone allowed => 3 Duplicate
exercise 1~gone => 2 BadLine
exercise 1~gone allowed here => 2 BadLine
exercise 1~want ; A => 2 BadLine
exercise 1~title é => 2 NotAscii
exercise 1~want A~given~start~input => 5 Missing(Title)
exercise 1~title t~want A~given~start => 5 Missing(Input)
exercise 1~title t~want A~given~start~input n=4 -> A=1~input => 7 NoAnswer";

fn said(alloc: Global, text: &str) -> Result<String, Fail> {
    Ok(match read_exercise(alloc, text.as_bytes()) {
        Ok(exercise) => {
            let entries = exercise.entries().len();
            let given = exercise.text(Key::Given).unwrap_or(b"").len();
            format!(in alloc; "{entries} entries, {given} bytes given")?
        }
        Err(ExerciseFault { line, kind }) => format!(in alloc; "{line} {kind:?}")?,
    })
}

#[test]
fn exercises_are_read(rt: HostRuntime) -> Result<(), Fail> {
    let alloc = rt.alloc();
    for row in ROWS.lines() {
        let (text, wanted) = row.split_once(" => ").expect(&rt, row);
        let text = text.replace(alloc, "~", "\n")?;
        let found = said(alloc, text.as_str())?;
        let is_said = found.as_str() == wanted;
        assert!(rt; is_said, "{row} but {found}");
    }
    Ok(())
}

#[test]
fn bars_are_said(rt: HostRuntime) -> Result<(), Fail> {
    let text = "exercise 1\ntitle t\nwant A\ngiven\nstart\ninput ->\ntime <= 2 * n\nlines <= 7";
    let exercise = read_exercise(rt.alloc(), text.as_bytes());
    let said = match &exercise {
        Ok(exercise) => exercise.bar(Key::Time) == Some(b"2 * n")
            && exercise.most_lines() == Some(7),
        Err(_) => false,
    };
    assert!(rt; said);
    Ok(())
}
