//! Devices that fail at each place, and memory that is refused.
use crate::printed::print;
use crate::table::lines_of;
use failing_devices::{Drip, Trickle};
use pram_job::Job;
use pram_rows::{ByNumbers, Requests, Window, print_steps};
use pram_streams::{FromRead, IntoWrite, MOST, PrintFault, TakeFault, put, take};
use pram_text::{TextFault, read_job};
use std::alloc::{AllocError, Global};
use std::process::Abort;
use std::test::Fail;

/// Calls that print, what is given, and texts.
const PRINTS: &str = "\
rows 1 4294967295 : pram 1~cells 2~procs 2~steps 6~code~pid r0~jz r0 end~set r1 7~ld r2 r1~\
    end: halt~
rows 2 2 : pram 1~cells 2~procs 2~steps 6~code~pid r0~jz r0 end~set r1 7~ld r2 r1~end: halt~
rows 1 4294967295 : pram 1~cells 1~procs 3~steps 9~code~pid r0~st r1 r0~
text : pram 3~cells 8~procs 8~steps 32~rule crew~array A 0 8~init 0 3 1 4 1 5 9 2 6~code~\
    pid r0~set r1 4~round: lt r2 r0 r1~jz r2 done~add r2 r0 r1~ld r2 A r2~ld r3 A r0~\
    add r2 r2 r3~st A r0 r2~shr r1 r1 1~jz r1 done~jmp round~done: halt~
unfinished : pardo 1~rule crew~procs i < 1~code~if 0~end~
";

// A sink that takes so few bytes took a beginning.
fn expect_beginning(
    rt: &impl Abort,
    alloc: Global,
    row: (&str, &str, &str),
    wanted: &[u8],
    pushes: usize,
) {
    let (call, given, text) = row;
    let mut sink = Trickle::new(alloc, pushes);
    let printed = print(alloc, call, given, text, &mut sink);
    assert!(rt; printed == Err(PrintFault::Device));
    assert!(rt; sink.taken.len() == pushes && wanted.starts_with(sink.taken.as_slice()));
}

// A sink that fails at each byte took those before it.
fn expect_beginnings(rt: &impl Abort, alloc: Global, line: &str) -> Result<(), Fail> {
    let (left, text) = line.split_once(" : ").expect(rt, line);
    let (call, given) = left.split_once(' ').unwrap_or((left, ""));
    let text = lines_of(alloc, text)?;
    let mut whole = Trickle::new(alloc, usize::MAX);
    print(alloc, call, given, text.as_str(), &mut whole)?;
    let wanted = whole.taken;
    for pushes in 0..wanted.len() {
        let row = (call, given, text.as_str());
        expect_beginning(rt, alloc, row, wanted.as_slice(), pushes);
    }
    Ok(())
}

#[test]
fn a_beginning_is_printed_where_a_push_fails(rt: HostRuntime) -> Result<(), Fail> {
    for line in PRINTS.lines() {
        expect_beginnings(&rt, rt.alloc(), line)?;
    }
    Ok(())
}

/// The line above rows of steps.
const HEADER: &str = "step,processor,place,instruction,writes,value,next\n";

// No test waits for the end of this job, but its first rows are printed.
const ENDLESS: &str = "pram 1\ncells 1\nprocs 64\nsteps 4294967295\ncode\n\
    l: add r1 r1 r1\njmp l\n";

// The rows of the first step of a job of 64 processors.
fn first_rows(alloc: Global) -> Result<String, AllocError> {
    let mut rows = String::from_str(alloc, HEADER)?;
    for i in 0..64 {
        rows.push_str(format!(in alloc; "1,{i},0,add r1 r1 r1,r1,0,1\n")?.as_str())?;
    }
    Ok(rows)
}

#[test]
fn first_rows_go_out_before_later_steps_are_made(rt: HostRuntime) -> Result<(), Fail> {
    let wanted = first_rows(rt.alloc())?;
    let pushes = wanted.len().saturating_sub(1);
    let row = ("rows", "1 1", ENDLESS);
    expect_beginning(&rt, rt.alloc(), row, wanted.as_bytes(), pushes);
    Ok(())
}

// Adds the rows of a step of a thousand processors.
fn push_rows(alloc: Global, rows: &mut String, step: u32, place: u32) -> Result<(), AllocError> {
    for i in 0..1000 {
        let row = format!(in alloc; "{step},{i},{place},set r3 4294967295,r3,4294967295,{step}\n")?;
        rows.push_str(row.as_str())?;
    }
    Ok(())
}

// The rows of two steps.
fn many_rows(alloc: Global) -> Result<String, AllocError> {
    let mut rows = String::from_str(alloc, HEADER)?;
    push_rows(alloc, &mut rows, 1, 0)?;
    push_rows(alloc, &mut rows, 2, 1)?;
    Ok(rows)
}

fn many_steps(alloc: Global) -> Result<Job, TextFault> {
    let text = b"pram 1\ncells 1\nprocs 1000\nsteps 3\ncode\n\
        set r3 4294967295\nset r3 4294967295\nhalt\n";
    read_job(alloc, text)
}

// The rows of two steps of three. They are of more than one piece, and go out in order. Where a
// growth is refused, as by `tools/growths`, a beginning of them stands printed, and the same call
// then succeeds. It prints how many bytes stood there, and whether a growth was refused.
#[test]
fn refused_growths_leave_a_beginning(rt: HostRuntime) -> Result<(), Fail> {
    let alloc = rt.alloc();
    let job = many_steps(alloc).or_else(|_| many_steps(alloc))?;
    let wanted = many_rows(alloc).or_else(|_| many_rows(alloc))?;
    let window = Window { from: 1, to: 2 };
    let names = ByNumbers { lines: None };
    let requests = Requests { names: &names };
    let mut refused = 0u32;
    let mut sink = IntoWrite::new(Vec::new(alloc));
    if print_steps(alloc, &mut sink, &job, window, &requests).is_err() {
        let taken = sink.into_inner();
        assert!(rt; wanted.as_bytes().starts_with(taken.as_slice()));
        println!(rt; "taken={}", taken.len())?;
        refused = 1;
        sink = IntoWrite::new(Vec::new(alloc));
        print_steps(alloc, &mut sink, &job, window, &requests)?;
    }
    assert!(rt; sink.into_inner().as_slice() == wanted.as_bytes());
    println!(rt; "refused={refused}")?;
    Ok(())
}

const TEXT: &[u8] = b"seven";

#[test]
fn takes_what_comes_in_pieces(rt: HostRuntime) -> Result<(), Fail> {
    let alloc = rt.alloc();
    for pulls in 0..6 {
        let fault = take(alloc, &mut Drip::new(TEXT, pulls)).err();
        assert!(rt; fault == Some(TakeFault::Device));
    }
    let taken = take(alloc, &mut Drip::new(TEXT, 6))?;
    assert!(rt; taken.as_slice() == TEXT);
    let taken = take(alloc, &mut FromRead::new(TEXT))?;
    assert!(rt; taken.as_slice() == TEXT);
    Ok(())
}

#[test]
fn refuses_one_byte_too_many(rt: HostRuntime) -> Result<(), Fail> {
    let alloc = rt.alloc();
    let mut text = vec![in alloc; b';'; MOST + 1]?;
    let fault = take(alloc, &mut FromRead::new(text.as_slice())).err();
    assert!(rt; fault == Some(TakeFault::TooLarge));
    text.truncate(MOST);
    let taken = take(alloc, &mut FromRead::new(text.as_slice()))?;
    assert!(rt; taken.len() == MOST);
    Ok(())
}

// What a sink takes that fails after so many bytes.
fn put_into(alloc: Global, pushes: usize) -> (bool, Vec<u8>) {
    let mut sink = Trickle::new(alloc, pushes);
    let is_put = put(&mut sink, TEXT).is_ok();
    (is_put, sink.taken)
}

#[test]
fn puts_a_beginning_where_a_push_fails(rt: HostRuntime) -> Result<(), Fail> {
    for pushes in 0..6 {
        let (is_put, taken) = put_into(rt.alloc(), pushes);
        assert!(rt; is_put == (pushes == 5));
        assert!(rt; taken.len() == pushes && TEXT.starts_with(taken.as_slice()));
    }
    let mut sink = IntoWrite::new(Vec::new(rt.alloc()));
    put(&mut sink, TEXT)?;
    assert!(rt; sink.into_inner().as_slice() == TEXT);
    Ok(())
}

#[test]
fn faults_tell_their_names(rt: HostRuntime) -> Result<(), Fail> {
    let alloc = rt.alloc();
    let faults = (TakeFault::Device, TakeFault::Memory, TakeFault::TooLarge);
    let puts = (PrintFault::Device, PrintFault::Memory);
    let told = format!(in alloc;
        "{} {} {} {} {}",
        faults.0, faults.1, faults.2, puts.0, puts.1
    )?;
    assert!(rt; told.as_str() == "Device Memory TooLarge Device Memory");
    Ok(())
}
