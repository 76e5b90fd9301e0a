//! Runs and watches.
use crate::table::expect;
use pram_commands::{Block, CellList};
use std::alloc::Global;
use std::process::Abort;
use std::rt::Clock;
use std::sync::Wait;
use std::test::Fail;
use std::thread::Threads;
use std::time::Duration;

// Runs and watches: answers, reads, and cells that a job does not have.
const RUNS: &str = "\
$ pramx run job --workers 2 --plan plan & pramx run job --workers 2 --plan plan --progress & \
    pramx run job --workers 2 --plan plan --progress on a terminal
pram 1~cells 1~procs 1~steps 1~code~set r0 7~ | 0 done steps=1~0: 0~
pram 1~cells 2~procs 2~steps 5~init 0 7~init 1 9~code~pid r0~set r1 1~sub r1 r1 r0~ld r2 r1~\
    st r0 r2~ under 0,go,50~1,back,0~ | 0 done steps=5~0: 9~1: 7~
pram 1~cells 2~procs 4~steps 4~code~pid r0~set r1 1~and r2 r0 r1~st r2 r0~ \
    | 1 conflict step=4 cell=0 processors=0,2~
pram 1~cells 1~procs 1~steps 1~code~set r0 7~ under 0,stop,0~1,go,3~1,stop,0~ \
    | 3 unfinished step=0~
pram 1~cells 0~ | 2 text line=2 kind=OutOfLimits~
pram 1~cells 1~procs 1~steps 1~code~set r0 7~ under 4,go,1~ | 2 plan row=2 kind=BadWorker~
$ pramx run job --workers 2 --plan plan --why
-- an unfinished run speaks of the step that its answer names: after one step more the processor \
    had stopped
same under 0,stop,0~1,stop,0~ | 3 unfinished step=0~running count=1 first=0 line=6~
pram 1~cells 1~procs 1~steps 0~init 0 5~code~halt~ under 1,go,2~ \
    | 0 done steps=0~0: 5~running count=1 first=0 line=7~
-- reads stand above the answer of the plain machine, also where they are more than wait at once
$ pramx watch job --workers 2 --plan plan --cells 1,0 --rounds 2000
pram 1~cells 2~procs 2~steps 5~init 0 7~init 1 9~code~pid r0~set r1 1~sub r1 r1 r0~ld r2 r1~\
    st r0 r2~ | 0 step,cell,value~{4000}done steps=5~0: 9~1: 7~
$ pramx watch job --workers 2 --plan plan --cells 1,0 --rounds 3
pram 1~cells 2~procs 4~steps 4~code~pid r0~set r1 1~and r2 r0 r1~st r2 r0~ \
    | 1 step,cell,value~{6}conflict step=4 cell=0 processors=0,2~
pram 1~cells 2~procs 2~steps 5~init 0 7~init 1 9~code~pid r0~set r1 1~sub r1 r1 r0~ld r2 r1~\
    st r0 r2~ under 0,stop,0~1,stop,0~ | 3 step,cell,value~{6}unfinished step=0~
$ pramx watch job --workers 2 --plan plan --cells 0,0 --rounds 2
pram 1~cells 1~procs 1~steps 0~init 0 5~code~halt~ under 1,go,2~ \
    | 0 step,cell,value~0,0,5~0,0,5~0,0,5~0,0,5~done steps=0~0: 5~
-- the first cell that a job does not have is named, after the job and its plan were judged
$ pramx watch job --workers 2 --plan plan --cells 1,2,0,3 --rounds 3
pram 1~cells 2~procs 2~steps 5~init 0 7~init 1 9~code~pid r0~set r1 1~sub r1 r1 r0~ld r2 r1~\
    st r0 r2~ | 2 watch cell=2~
same under 4,go,1~ | 2 plan row=2 kind=BadWorker~
pram 1~cells 0~ | 2 text line=2 kind=OutOfLimits~
-- blocks of every size give the plain machine's answer
$ pramx run job --workers 2 --plan plan --block *
1 : pram 1~cells 5~procs 5~steps 4~code~pid r0~set r1 3~add r1 r1 r0~st r0 r1~ under 0,go,40~\
    0,back,0~ | 0 done steps=4~0: 3~1: 4~2: 5~3: 6~4: 7~
2 : same under 0,go,40~0,back,0~ | 0 done steps=4~0: 3~1: 4~2: 5~3: 6~4: 7~
4 : same under 0,go,40~0,back,0~ | 0 done steps=4~0: 3~1: 4~2: 5~3: 6~4: 7~
8 : same under 0,go,40~0,back,0~ | 0 done steps=4~0: 3~1: 4~2: 5~3: 6~4: 7~
16 : same under 0,go,40~0,back,0~ | 0 done steps=4~0: 3~1: 4~2: 5~3: 6~4: 7~
32 : same under 0,go,40~0,back,0~ | 0 done steps=4~0: 3~1: 4~2: 5~3: 6~4: 7~
64 : same under 0,go,40~0,back,0~ | 0 done steps=4~0: 3~1: 4~2: 5~3: 6~4: 7~
";

// Programs without plan and pace: their steps are found once they were run. Where somebody is gone, a step
// is against the rule, or the program never ends, the plain machine finds the lines.
const DRAFTED: &str = "\
$ pramx run job --workers 2 & pramx run job --workers 2 --block 1 & \
    pramx run job --workers 2 --pace 1
pardo 1~rule crew~procs i < 4~shared A[4]~code~A[i] := i + 7~ | 0 done steps=4~A = 7 8 9 10~
pardo 1~rule crew~procs i < 4~shared A[2]~code~A[i] := i + 7~ \
    | 0 done steps=4~A = 7 8~gone processor=2 line=6~gone processor=3 line=6~
pardo 1~rule crew~procs i < 4~shared s~code~s := i~ | 1 conflict line=6 place=s processors=0,1~
pardo 1~rule crew~procs i < 3~shared A[3]~code~if i = 2~for k = 1 to 30~A[i] := A[i] + k~end~end~ \
    | 0 done steps=395~A = 0 0 465~
pardo 1~rule crew~procs i < 1~code~x~ | 2 text line=5 kind=UnknownName~
$ pramx run job --workers 2 & pramx run job --workers 2 --pace 1000
pardo 1~rule crew~procs i < 1~code~while 1~end~ | 2 text line=5 kind=Endless~
$ pramx run job --workers 2 --why
pardo 1~rule crew~procs i < 4~shared A[4]~code~A[i] := i + 7~ \
    | 0 done steps=4~A = 7 8 9 10~stopped step=4~
";

// The first place that a program does not have is named.
const PLACES: &str = "\
$ pramx watch job --workers 2 --plan plan --cells * --rounds 1
-- places are told as they are named, and a cell by its number as its place
A[1],s,0 : pardo 1~rule crew~procs i < 2~shared A[2]~shared s~code~A[i] := i + 7~ under 0,stop,0~\
    1,stop,0~ | 3 step,place,value~0,A[1],0~0,s,0~0,A[0],0~unfinished step=0~
s,A[2],9 : same under 0,stop,0~1,stop,0~ | 2 watch place=A[2]~
s,9,A[2] : same under 0,stop,0~1,stop,0~ | 2 watch cell=9~
s,A,0 : same under 0,stop,0~1,stop,0~ \
    | 3 step,place,value~0,s,0~0,A[0],0~0,A[1],0~0,A[0],0~unfinished step=0~
0,s : pram 1~cells 1~procs 1~steps 1~code~set r0 7~ under 0,stop,0~1,stop,0~ | 2 watch place=s~
A[11],A1,B[1],A[1],13,A1,A[0] : pardo 1~rule crew~procs i < 2~shared A[12]~shared A1~shared B[2]~\
    code~A[i] := i + 7~ under 0,stop,0~1,stop,0~ \
    | 3 step,place,value~0,A[11],0~0,A1,0~0,B[1],0~0,A[1],0~0,B[0],0~0,A1,0~0,A[0],0~\
    unfinished step=0~
A[1,0],A,0 : pardo 1~rule crew~procs i < 2~shared A[2, 1]~code~A[i, 0] := i + 7~ under 0,stop,0~\
    1,stop,0~ | 3 step,place,value~0,\"A[1,0]\",0~0,\"A[0,0]\",0~0,\"A[1,0]\",0~\
    0,\"A[0,0]\",0~unfinished step=0~
A[0],A[1,1] : same under 0,stop,0~1,stop,0~ | 2 watch place=A[0]~
A[1,1],A[0 : same under 0,stop,0~1,stop,0~ | 2 watch place=A[1,1]~
-- words that are nearly places
A] : pardo 1~rule crew~procs i < 2~shared A[12]~shared A1~code~A[i] := i + 7~ under 0,stop,0~\
    1,stop,0~ | 2 watch place=A]~
A[ : same under 0,stop,0~1,stop,0~ | 2 watch place=A[~
A[] : same under 0,stop,0~1,stop,0~ | 2 watch place=A[]~
A[1 : same under 0,stop,0~1,stop,0~ | 2 watch place=A[1~
A[01] : same under 0,stop,0~1,stop,0~ | 2 watch place=A[01]~
A[12] : same under 0,stop,0~1,stop,0~ | 2 watch place=A[12]~
A[1]] : same under 0,stop,0~1,stop,0~ | 2 watch place=A[1]]~
A[0][1] : same under 0,stop,0~1,stop,0~ | 2 watch place=A[0][1]~
A1[0] : same under 0,stop,0~1,stop,0~ | 2 watch place=A1[0]~
A12 : same under 0,stop,0~1,stop,0~ | 2 watch place=A12~
a[1] : same under 0,stop,0~1,stop,0~ | 2 watch place=a[1]~
A[4294967297] : same under 0,stop,0~1,stop,0~ | 2 watch place=A[4294967297]~
";

#[test]
fn runs_and_watches_are_answered(rt: HostRuntime) -> Result<(), Fail> {
    expect(&rt, rt.alloc(), RUNS)?;
    expect(&rt, rt.alloc(), PLACES)
}

#[test]
fn programs_are_run_before_their_steps_are_counted(rt: HostRuntime) -> Result<(), Fail> {
    expect(&rt, rt.alloc(), DRAFTED)
}

// One worker finishes step 2 with its fourth tick: a run tells that step, and so does a watch below
// its two reads. Where all have stopped, no more passes are made.
const LEFT: &str = "\
$ pramx run job --workers 1 --plan plan
pram 1~cells 1~procs 5~steps 1000000~code~set r1 7~st r0 r1~halt~ under 0,go,120~0,stop,0~ \
    | 0 done steps=1000000~0: 7~
pram 1~cells 1~procs 1~steps 3~code~set r1 1~sub r2 r0 r1~st r0 r2~ under 0,go,3~0,stop,0~ \
    | 3 unfinished step=0~
same under 0,go,4~0,stop,0~ | 3 unfinished step=2~
$ pramx watch job --workers 1 --plan plan --cells 0 --rounds 2
same under 0,go,3~0,stop,0~ | 3 step,cell,value~{2}unfinished step=0~
same under 0,go,4~0,stop,0~ | 3 step,cell,value~{2}unfinished step=2~
";

#[test]
fn an_unfinished_step_is_told(rt: HostRuntime) -> Result<(), Fail> {
    expect(&rt, rt.alloc(), LEFT)
}

// These ticks finish a step where all processors stand at one leaf, and else they do not.
const BLOCKS: &str = "\
$ pramx run job --workers 1 --plan plan --block *
1 : pram 1~cells 1~procs 8~steps 3~code~set r1 1~ld r2 r0~set r3 3~ under 0,go,50~0,stop,0~ \
    | 3 unfinished step=0~
8 : same under 0,go,50~0,stop,0~ | 3 unfinished step=1~
";

#[test]
fn the_block_of_a_line_is_the_boards(rt: HostRuntime) -> Result<(), Fail> {
    expect(&rt, rt.alloc(), BLOCKS)
}

const PACED_RUN: &str = "\
$ pramx run job --workers 2 --plan plan --pace 4000
pram 1~cells 1~procs 1~steps 1~code~set r0 7~ under 0,go,3~0,sleep,2~0,stop,0~1,stop,0~ \
    | 3 unfinished step=0~
";

const PACED_WATCH: &str = "\
$ pramx watch job --workers 2 --plan plan --cells 0 --rounds 5 --pace 4000
pram 1~cells 1~procs 1~steps 1~code~set r0 7~ under 0,stop,0~1,stop,0~ \
    | 3 step,cell,value~0,0,0~0,0,0~0,0,0~0,0,0~0,0,0~unfinished step=0~
";

// How long it takes to answer a table.
fn time_of<R: Abort + Threads + Wait + Clock + Eprint + Sync>(
    rt: &R,
    alloc: Global,
    table: &str,
) -> Result<Duration, Fail> {
    let start = rt.monotonic()?;
    expect(rt, alloc, table)?;
    Ok(rt.monotonic()?.saturating_sub(start))
}

// Each atomic step, each tick of a sleep and each read takes its pause of 4 milliseconds.
#[test]
fn a_pace_is_kept(rt: HostRuntime) -> Result<(), Fail> {
    for table in [PACED_RUN, PACED_WATCH] {
        let time = time_of(&rt, rt.alloc(), table)?;
        assert!(rt; time >= Duration::from_millis(20), "{table}");
    }
    Ok(())
}

// No other size is one of a block.
#[test]
fn sizes_of_blocks(rt: HostRuntime) {
    for size in 0..130_u32 {
        let is_size = size <= 64 && size.is_power_of_two();
        assert!(rt; Block::of(size).is_some() == is_size, "{size}");
    }
}

// Lists of cells, and texts that are none.
const LISTS: [(&str, bool); 12] = [
    ("3,0,4294967295,3", true),
    ("A[3],_s,+7", true),
    ("", false),
    (",", false),
    ("1,", false),
    (",1", false),
    ("1,,2", false),
    ("3x", false),
    ("1;2", false),
    ("-1", false),
    ("4294967296", false),
    (" 1", false),
];

#[test]
fn lists_of_cells(rt: HostRuntime) {
    for (text, is_list) in LISTS {
        assert!(rt; CellList::read(text).is_some() == is_list, "{text}");
    }
}
