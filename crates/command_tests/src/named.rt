//! Programs of `pardo`: those of the gallery, with their answers by names, and how programs are
//! refused.
use crate::courses::COURSES;
use crate::programs::PROGRAMS;
use crate::table::{AMPLE, Row, Shelf, answer, expect, expect_row, lines_of};
use std::alloc::Global;
use std::process::Abort;
use std::rt::Clock;
use std::str;
use std::sync::Wait;
use std::test::Fail;
use std::thread::Threads;

/// A program, the status of its calls, what `plain` answers, and what `cost` says, where `~` ends a
/// line.
#[derive(Clone, Copy)]
struct Program<'a> {
    text: &'a str,
    status: u8,
    answer: &'a str,
    cost: &'a str,
}

// The parts of a piece of the gallery.
fn program_of(piece: &str) -> Option<Program<'_>> {
    let (text, told) = piece.split_once("=== plain ")?;
    let (status, told) = told.split_once('\n')?;
    let (answer, cost) = told.split_once("=== ")?;
    Some(Program {
        text,
        status: status.parse().ok()?,
        answer,
        cost,
    })
}

impl<'a> Program<'a> {
    // This is written where words are answered over the program.
    fn row(self, words: &'a str, written: &'a str) -> Row<'a> {
        Row {
            words,
            front: "",
            text: self.text,
            plan: "",
            status: self.status,
            written,
        }
    }
}

const RUNS: &str = "\
    pramx plain job & pramx run job --workers 1 & pramx run job --workers 3";

// The answer comes by `plain` and by runs. A replay has a row for each atomic step: those of a few
// programs are short.
fn expect_answers<R: Abort + Threads + Wait + Clock + Eprint + Sync>(
    rt: &R,
    alloc: Global,
    program: Program<'_>,
) -> Result<(), Fail> {
    expect_row(rt, alloc, &program.row(RUNS, program.answer))?;
    let cost = lines_of(alloc, program.cost.trim_end())?;
    expect_row(rt, alloc, &program.row("pramx cost job", cost.as_str()))?;
    if program.status == 1 || program.answer.len() < 30 {
        let written = format!(in alloc; "{{}}{}", program.answer)?;
        let words = "pramx replay job --workers 2";
        expect_row(rt, alloc, &program.row(words, written.as_str()))?;
    }
    Ok(())
}

// What `compile` prints of a text.
fn printed<R: Abort + Threads + Wait + Clock + Eprint + Sync>(
    rt: &R,
    alloc: Global,
    text: &str,
) -> Result<Vec<u8>, Fail> {
    let shelf = Shelf {
        job: text.as_bytes(),
        plan: &[],
    };
    Ok(answer(rt, alloc, &shelf, "pramx compile job", AMPLE)?.out)
}

// The text of a program's job ends with this status and beginning. Printed again it is by numbers,
// and from then on as it is.
fn expect_text<R: Abort + Threads + Wait + Clock + Eprint + Sync>(
    rt: &R,
    alloc: Global,
    text: &str,
    status: u8,
    beginning: &str,
) -> Result<(), Fail> {
    let again = printed(rt, alloc, text)?;
    let numbered = str::from_utf8(again.as_slice())?;
    let job = Program {
        text: numbered,
        status: 0,
        answer: "",
        cost: "",
    };
    expect_row(rt, alloc, &job.row("pramx compile job", numbered))?;
    let written = format!(in alloc; "{beginning}{{}}")?;
    let ended = Program {
        text,
        status,
        ..job
    };
    expect_row(rt, alloc, &ended.row("pramx plain job", written.as_str()))
}

// The text of the program's job ends as the program does.
fn expect_printed<R: Abort + Threads + Wait + Clock + Eprint + Sync>(
    rt: &R,
    alloc: Global,
    program: Program<'_>,
) -> Result<(), Fail> {
    let compiled = printed(rt, alloc, program.text)?;
    let beginning = if program.status == 0 {
        program.answer.lines().next()
    } else {
        None
    };
    let text = str::from_utf8(compiled.as_slice())?;
    expect_text(rt, alloc, text, program.status, beginning.unwrap_or(""))
}

// The programs of a table are answered as they say.
fn expect_programs<R: Abort + Threads + Wait + Clock + Eprint + Sync>(
    rt: &R,
    alloc: Global,
    table: &str,
) -> Result<(), Fail> {
    for piece in table.split("=== program\n") {
        let program = program_of(piece).expect(rt, piece);
        expect_answers(rt, alloc, program)?;
        expect_printed(rt, alloc, program)?;
    }
    Ok(())
}

#[test]
fn programs_are_answered_by_names(rt: HostRuntime) -> Result<(), Fail> {
    expect_programs(&rt, rt.alloc(), PROGRAMS)
}

#[test]
fn programs_of_courses_are_answered_by_names(rt: HostRuntime) -> Result<(), Fail> {
    expect_programs(&rt, rt.alloc(), COURSES)
}

const HEADER: &str = "pardo 1~rule common~procs i < 4~shared A[4]~shared s~private x~code~";

// How programs are refused. `@` stands for the header, and `MANY` for many lines.
const REFUSED: &str = "\
$ pramx check job --explain
@x := 1 \x07~ \
    | 2 text line=8 kind=NotAscii~\
    job:8:8: a character that is not allowed: a program is ASCII, but for its comments~    x := 1 \
    ?~           ^~
@x := 1 # 2~ \
    | 2 text line=8 kind=BadSymbol~\
    job:8:8: a comment begins with `;`~    x := 1 # 2~           ^~
@x = 1~ \
    | 2 text line=8 kind=BadLine~\
    job:8:3: an assignment is `:=`; `=` compares~    x = 1~      ^~
@x := y~ \
    | 2 text line=8 kind=UnknownName~\
    job:8:6: nothing is named `y`; there is `i`~    x := y~         ^~
@for x = 1 to 2~end~ \
    | 2 text line=8 kind=DuplicateName~\
    job:8:5: `x` is declared already, in line 6: the variable of a loop has a new name~    for \
    x = 1 to 2~        ^~
@while x~end~ \
    | 2 text line=8 kind=WrongKind~\
    job:8:7: the condition of a `while` is the same for all processors: constants, shared \
    scalars and the variables of loops around may stand, and `x` is a private variable; let an \
    `if` within the loop look at it~    while x~          ^~
@x := 4294967296~ \
    | 2 text line=8 kind=OutOfLimits~\
    job:8:6: 4294967296 is out of limits: numbers go from 0 to 4,294,967,295~    x := \
    4294967296~         ^~
@end~ \
    | 2 text line=8 kind=BadBlock~\
    job:8:1: no block is open here: one `end` is too many~    end~    ^~
@if i~x := 1~ \
    | 2 text line=10 kind=OpenBlock~\
    job:10:1: the `if` of line 8 has no `end`~    ~    ^~
@ \
    | 2 text line=8 kind=NoCode~\
    job:8:1: no line of code follows `code`~    ~    ^~
pardo 2~ \
    | 2 text line=1 kind=BadHeader~\
    job:1:1: the language is `pardo 1`~    pardo 2~    ^~
pardo 1~rule crew~shared A[1] = 1, 2~ \
    | 2 text line=3 kind=WrongLength~\
    job:3:15: there are not as many values as places; `, ...` fills the rest with the last \
    one~    shared A[1] = 1, 2~                  ^~
pardo 1~rule crew~procs i < 1~code~while 1~end~ \
    | 2 text line=5 kind=Endless~\
    job:5:1: the program is still here after 1,048,576 steps, or 2^30 in all~    \
    while 1~    ^~
pardo 1~rule crew~procs i < 1~code~for k = 0 to lg(1) - 1~end~ \
    | 2 text line=6 kind=Endless~\
    job:6:1: the program is still here after 1,048,576 steps, or 2^30 in all: in line 5 a bound \
    is 4294967295~    end~    ^~
pardo 1~rule crew~shared A[1048000]~shared B[600]~ \
    | 2 text line=4 kind=TooManyCells~\
    job:4:1: more than 1,048,576 cells: an array takes one for each place; a private variable, a \
    depth of loops and one of `if`s take one for each processor~    shared B[600]~    ^~
pardo 1~rule crew~procs i < 4~shared A[1048573]~code~A[i] := A[i] * (A[i] * (A[i] * A[i]))~ \
    | 2 text line=6 kind=TooManyCells~\
    job:6:1: with its hidden lines a program has at most 1,048,576 cells~    A[i] := \
    A[i] * (A[i] * (A[i] * A[i]))~    ^~
@MANY \
    | 2 text line=380 kind=TooLong~\
    job:380:1: a program has at most 4,096 instructions~    x := x + s + A[x] + A[x + 1]~    ^~
";

#[test]
fn refused_programs_are_explained(rt: HostRuntime) -> Result<(), Fail> {
    let alloc = rt.alloc();
    let many = "x := x + s + A[x] + A[x + 1]~".repeat(alloc, 600)?;
    let table = REFUSED.replace(alloc, "MANY", many.as_str())?;
    let table = table.replace(alloc, "@", HEADER)?;
    expect(&rt, alloc, table.as_str())
}

// Rounds of loops without a counted line; in one another; up to a conflict in the second round; and
// with an `end` that takes hidden lines.
const ROUNDS: &str = "\
$ pramx cost job
pardo 1~rule crew~procs i < 2~shared A[2]~code~for k = 1 to 10~end~ \
    | 0 time 0~operations 0~cost of this input~steps 63~processors 2~product 126~work 126~most 2~\
    reading 10~writing 10~needs EREW~same read none~same write none~other value none~\
    done steps=63~rounds 10~
pardo 1~rule crew~procs i < 2~shared n = 3~shared A[2]~code~while n > 0~for k = 1 to 2~\
A[i] := k~end~if i = 0~n := n - 1~end~end~ \
    | 0 time 9~operations 15~cost of this input~steps 96~processors 2~product 192~work 192~most 2~\
    reading 22~writing 18~needs CREW~same read step=2 line=7 place=n processors=0,1~\
    same write none~other value none~done steps=96~rounds 9~
pardo 1~rule common~procs i < 2~shared s~code~for k = 1 to 3~if k = 2~s := i~end~end~ \
    | 1 time 1~operations 2~cost of this input~steps 25~processors 2~product 50~work 50~most 2~\
    reading 5~writing 5~needs CRCW priority~same read none~\
    same write step=25 line=8 place=s processors=0,1~\
    other value step=25 line=8 place=s processors=0,1~\
    conflict line=8 place=s processors=0,1~rounds 1~
pardo 1~rule crew~procs i < 2~shared A[2]~code~for j = 1 to 2~for k = 0 to (((j + 1) * \
(j + 2) + (j + 3) * (j + 4)) * ((j + 5) * (j + 6) + (j + 7) * (j + 8))) % 4~end~end~A[i] := 1~ \
    | 0 time 1~operations 2~cost of this input~steps 256~processors 2~product 512~work 512~\
    most 2~reading 80~writing 13~needs EREW~same read none~same write none~other value none~\
    done steps=256~rounds 4~
";

#[test]
fn costs_tell_rounds(rt: HostRuntime) -> Result<(), Fail> {
    expect(&rt, rt.alloc(), ROUNDS)
}
