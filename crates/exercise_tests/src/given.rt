//! Headers as an input sets them, and submissions with them.
use exercise_text::{Size, code_lines, judged_text, missing_line, set_text};
use std::alloc::Global;
use std::rt::HostRuntime;
use std::str::from_utf8;
use std::test::Fail;

const HEADER: &str =
    "pardo 1\nconst n = 4\nprocs i < n\nshared A[n] = 1, 2, ... ; values\nshared s";

// The words of an input, and the lines of the header that they change.
const SETS: &str = "\
n=2 => pardo 1|const n = 2|procs i < n|shared A[n] = 1, 2, ... ; values|shared s|
n=2 A=5,7 s=9 => pardo 1|const n = 2|procs i < n|shared A[n] = 5,7|shared s= 9|
i=2 m=2 -> n=2 => pardo 1|const n = 4|procs i < n|shared A[n] = 1, 2, ... ; values|shared s|
A=any:7:100 => pardo 1|const n = 4|procs i < n|shared A[n] = 23, 91, 61, ...|shared s|
A=any:7 => pardo 1|const n = 4|procs i < n|shared A[n] = any:7|shared s|";

// The lines of a submission and of what is judged, or the line that it does not have.
const JUDGED: &str = "\
pardo 1|const n = 9|procs i<9|shared A[9]|shared s = 7|code|x := 1 => pardo 1|const n = 4|procs i < n|shared A[n] = 1, 2, ... ; values|shared s|code|x := 1|
 shared s ;|const m = 1|pardo 1|const n|procs i|shared A => shared s|const m = 1|pardo 1|const n = 4|procs i < n|shared A[n] = 1, 2, ... ; values|
pardo 1|const n = 9|procs j < n|shared A[9]|shared s => missing procs i < n
const n|procs i|shared A[9]|shared s|code => missing pardo 1";

fn shown(alloc: Global, text: &[u8]) -> Result<String, Fail> {
    Ok(from_utf8(text)?.replace(alloc, "\n", "|")?)
}

fn set(alloc: Global, words: &str) -> Result<String, Fail> {
    let name = Vec::from_slice(alloc, b"A")?;
    let sizes = [Size { name, places: 3 }];
    let text = set_text(alloc, &sizes, words.as_bytes(), HEADER.as_bytes())?;
    shown(alloc, text.as_slice())
}

fn judged(alloc: Global, lines: &str) -> Result<String, Fail> {
    let text = lines.replace(alloc, "|", "\n")?;
    match missing_line(HEADER.as_bytes(), text.as_bytes()) {
        Some(line) => Ok(format!(in alloc; "missing {}", from_utf8(line)?)?),
        None => {
            let judged = judged_text(alloc, HEADER.as_bytes(), text.as_bytes())?;
            shown(alloc, judged.as_slice())
        }
    }
}

#[test]
fn headers_are_set(rt: HostRuntime) -> Result<(), Fail> {
    for row in SETS.lines() {
        let (words, wanted) = row.split_once(" => ").expect(&rt, row);
        let found = set(rt.alloc(), words)?;
        let is_said = found.as_str() == wanted;
        assert!(rt; is_said, "{row} but {found}");
    }
    Ok(())
}

#[test]
fn submissions_have_the_header(rt: HostRuntime) -> Result<(), Fail> {
    for row in JUDGED.lines() {
        let (lines, wanted) = row.split_once(" => ").expect(&rt, row);
        let found = judged(rt.alloc(), lines)?;
        let is_said = found.as_str() == wanted;
        assert!(rt; is_said, "{row} but {found}");
    }
    Ok(())
}

#[test]
fn lines_of_code_are_counted(rt: HostRuntime) {
    let text = b"pardo 1\n code ; here\n; none\n\n x := 1\nend";
    assert!(rt; code_lines(text) == 2);
    assert!(rt; code_lines(b"x := 1") == 0);
}
