//! What is printed of jobs and of programs: rows of steps, costs, texts and answers.
ghost use Rattle.std.specs.Prelude.{◌≡◌, false};

use crate::table::expect;
use failing_devices::Trickle;
use job_text::{Dotted, print_text};
use pardo_answers::{Names, print_named};
use pardo_job::{Compiled, Lines, compile};
use pardo_text::Program;
use pram_cost::{ByCells, cost_of, print_cost};
use pram_job::{Array, Instr, Job, Operand, Place};
use pram_rows::{ByNumbers, Requests, Window, instruction_text, print_steps};
use pram_step::{RunAnswer, plain_answer};
use pram_streams::{PrintFault, Sink, print_answer};
use pram_text::read_job;
use std::alloc::{AllocError, Global};
use std::test::Fail;

/// Prints what a call says of a text.
pub fn print(
    alloc: Global,
    call: &str,
    given: &str,
    text: &str,
    sink: &mut Trickle,
) -> Result<(), PrintFault>
    requires { ⟦<Trickle as Sink>⟧.has_failed sink.old ≡ false }
{
    match call {
        "named" => named(alloc, text, sink),
        "unfinished" => unfinished(alloc, text, sink),
        _ => of_job(alloc, call, given, text, sink),
    }
}

// A text that is no job or program prints nothing.
fn of_job(
    alloc: Global,
    call: &str,
    given: &str,
    text: &str,
    sink: &mut Trickle,
) -> Result<(), PrintFault>
    requires { ⟦<Trickle as Sink>⟧.has_failed sink.old ≡ false }
{
    let Ok(job) = read_job(alloc, text.as_bytes()) else {
        return Err(PrintFault::Memory);
    };
    match call {
        "rows" => rows(alloc, given, &job, sink),
        "cost" => cost(alloc, &job, sink),
        "text" => print_text(alloc, sink, &job, &Dotted),
        "again" => again(alloc, &job, sink),
        _ => printed(alloc, &job, sink),
    }
}

// A window, and the numbers of lines behind it.
fn window_of(given: &str) -> Option<(Window, &str)> {
    let (from, rest) = given.split_once(' ')?;
    let (to, lines) = rest.split_once(' ').unwrap_or((rest, ""));
    let (from, to) = (from.parse().ok()?, to.parse().ok()?);
    Some((Window { from, to }, lines))
}

fn numbers_of(alloc: Global, words: &str) -> Result<Vec<u64>, AllocError> {
    let mut numbers = Vec::new(alloc);
    for word in words.split(' ') {
        if let Ok(number) = word.parse() {
            numbers.push(number)?;
        }
    }
    Ok(numbers)
}

// What each processor asks for in the steps of a window, and the answer.
fn rows(alloc: Global, given: &str, job: &Job, sink: &mut Trickle) -> Result<(), PrintFault>
    requires { ⟦<Trickle as Sink>⟧.has_failed sink.old ≡ false }
{
    let Some((window, lines)) = window_of(given) else {
        return Err(PrintFault::Memory);
    };
    let numbers = numbers_of(alloc, lines)?;
    let lines = if numbers.is_empty() {
        None
    } else {
        Some(numbers.as_slice())
    };
    let names = ByNumbers { lines };
    let requests = Requests { names: &names };
    let answer = print_steps(alloc, sink, job, window, &requests)?;
    print_answer(alloc, sink, &answer, job.steps())
}

// What the run of a job costs.
fn cost(alloc: Global, job: &Job, sink: &mut Trickle) -> Result<(), PrintFault>
    requires { ⟦<Trickle as Sink>⟧.has_failed sink.old ≡ false }
{
    let cost = cost_of(alloc, job)?;
    print_cost(alloc, sink, &cost, cost.needs(), &ByCells)
}

// The text of the job that the text of a job spells.
fn again(alloc: Global, job: &Job, sink: &mut Trickle) -> Result<(), PrintFault>
    requires { ⟦<Trickle as Sink>⟧.has_failed sink.old ≡ false }
{
    let mut once = Trickle::new(alloc, usize::MAX);
    print_text(alloc, &mut once, job, &Dotted)?;
    match read_job(alloc, once.taken.as_slice()) {
        Ok(job) => print_text(alloc, sink, &job, &Dotted),
        Err(_) => Err(PrintFault::Memory),
    }
}

// The answer of the plain machine.
fn printed(alloc: Global, job: &Job, sink: &mut Trickle) -> Result<(), PrintFault>
    requires { ⟦<Trickle as Sink>⟧.has_failed sink.old ≡ false }
{
    let answer = plain_answer(alloc, job)?;
    print_answer(alloc, sink, &answer, job.steps())
}

// The answer of a program's job by names.
fn named(alloc: Global, text: &str, sink: &mut Trickle) -> Result<(), PrintFault>
    requires { ⟦<Trickle as Sink>⟧.has_failed sink.old ≡ false }
{
    match compile(alloc, text.as_bytes()) {
        Ok((program, compiled)) => put_named(alloc, &program, &compiled, sink),
        Err(_) => Err(PrintFault::Memory),
    }
}

fn put_named(
    alloc: Global,
    program: &Program,
    compiled: &Compiled,
    sink: &mut Trickle,
) -> Result<(), PrintFault>
    requires { ⟦<Trickle as Sink>⟧.has_failed sink.old ≡ false }
{
    let ended = compiled.ended();
    let names = Names {
        program,
        steps: compiled.job().steps(),
        lines: &ended.lines,
    };
    print_named(alloc, sink, &names, &ended.answer)
}

// An answer that is unfinished, by cells and by names.
fn unfinished(alloc: Global, text: &str, sink: &mut Trickle) -> Result<(), PrintFault>
    requires { ⟦<Trickle as Sink>⟧.has_failed sink.old ≡ false }
{
    match compile(alloc, text.as_bytes()) {
        Ok((program, _)) => put_unfinished(alloc, &program, sink),
        Err(_) => Err(PrintFault::Memory),
    }
}

fn put_unfinished(alloc: Global, program: &Program, sink: &mut Trickle) -> Result<(), PrintFault>
    requires { ⟦<Trickle as Sink>⟧.has_failed sink.old ≡ false }
{
    let answer = RunAnswer::Unfinished { step: 2 };
    print_answer(alloc, sink, &answer, 3)?;
    let lines = Lines {
        gone: Vec::new(alloc),
        disputed: 0,
    };
    let names = Names {
        program,
        steps: 3,
        lines: &lines,
    };
    print_named(alloc, sink, &names, &answer)
}

// What each processor asks for in each step.
const ROWS: &str = "\
-- the rows of the steps from one to another, and the answer; numbers behind these are those of \
    lines
$ print rows
1 4294967295 : pram 1~cells 1~procs 3~steps 9~code~pid r0~st r1 r0~ \
    -> step,processor,place,instruction,writes,value,next~1,0,0,pid r0,r0,0,1~\
    1,1,0,pid r0,r0,1,1~1,2,0,pid r0,r0,2,1~2,0,1,st r1 r0,cell 0,0,2~2,1,1,st r1 r0,cell 0,1,2~\
    2,2,1,st r1 r0,cell 0,2,2~conflict step=2 cell=0 processors=0,1~
-- the conflict comes after the window's end, or before its first step
1 1 : same \
    -> step,processor,place,instruction,writes,value,next~1,0,0,pid r0,r0,0,1~\
    1,1,0,pid r0,r0,1,1~1,2,0,pid r0,r0,2,1~conflict step=2 cell=0 processors=0,1~
3 9 : same \
    -> step,processor,place,instruction,writes,value,next~conflict step=2 cell=0 processors=0,1~
-- one processor halts, the other names a cell that there is not
1 4294967295 : pram 1~cells 2~procs 2~steps 6~code~pid r0~jz r0 end~set r1 7~ld r2 r1~end: halt~ \
    -> step,processor,place,instruction,writes,value,next~1,0,0,pid r0,r0,0,1~\
    1,1,0,pid r0,r0,1,1~2,0,1,jz r0 4,,,4~2,1,1,jz r0 4,,,2~3,0,4,halt,,,5~3,1,2,set r1 7,r1,7,3~\
    4,0,5,halted,,,5~4,1,3,ld r2 r1,,,6~5,0,5,halted,,,5~5,1,6,out_of_range,,,6~6,0,5,halted,,,5~\
    6,1,6,out_of_range,,,6~done steps=6~0: 0~1: 0~
3 4 : same \
    -> step,processor,place,instruction,writes,value,next~3,0,4,halt,,,5~3,1,2,set r1 7,r1,7,3~\
    4,0,5,halted,,,5~4,1,3,ld r2 r1,,,6~done steps=6~0: 0~1: 0~
6 100 : same \
    -> step,processor,place,instruction,writes,value,next~6,0,5,halted,,,5~\
    6,1,6,out_of_range,,,6~done steps=6~0: 0~1: 0~
0 1 : same \
    -> step,processor,place,instruction,writes,value,next~1,0,0,pid r0,r0,0,1~\
    1,1,0,pid r0,r0,1,1~done steps=6~0: 0~1: 0~
7 100 : same -> step,processor,place,instruction,writes,value,next~done steps=6~0: 0~1: 0~
4 3 : same -> step,processor,place,instruction,writes,value,next~done steps=6~0: 0~1: 0~
1 0 : same -> step,processor,place,instruction,writes,value,next~done steps=6~0: 0~1: 0~
-- the first instruction came from no line; numbers of more or fewer instructions than there are \
    make no line of a processor that has stopped, and none of an instruction without a number
1 5 0 12 12 14 9 9 9 : same \
    -> step,processor,place,instruction,writes,value,next,line~1,0,0,pid r0,r0,0,1,~\
    1,1,0,pid r0,r0,1,1,~2,0,1,jz r0 4,,,4,12~2,1,1,jz r0 4,,,2,12~3,0,4,halt,,,5,9~\
    3,1,2,set r1 7,r1,7,3,12~4,0,5,halted,,,5,~4,1,3,ld r2 r1,,,6,14~5,0,5,halted,,,5,~\
    5,1,6,out_of_range,,,6,~done steps=6~0: 0~1: 0~
1 5 18446744073709551615 12 3 : same \
    -> step,processor,place,instruction,writes,value,next,line~\
    1,0,0,pid r0,r0,0,1,18446744073709551615~1,1,0,pid r0,r0,1,1,18446744073709551615~\
    2,0,1,jz r0 4,,,4,12~2,1,1,jz r0 4,,,2,12~3,0,4,halt,,,5,~3,1,2,set r1 7,r1,7,3,3~\
    4,0,5,halted,,,5,~4,1,3,ld r2 r1,,,6,~5,0,5,halted,,,5,~5,1,6,out_of_range,,,6,~done steps=6~\
    0: 0~1: 0~
-- all processors have stopped long before
4294967295 4294967295 : pram 1~cells 1~procs 1~steps 4294967295~code~halt~ \
    -> step,processor,place,instruction,writes,value,next~4294967295,0,1,halted,,,1~\
    done steps=4294967295~0: 0~
";

// What the run of a job costs.
const COSTS: &str = "\
$ print cost
-- processors with a cell each need EREW
pram 1~cells 4~procs 3~steps 6~code~pid r0~ld r1 r0~set r2 1~add r1 r0 r2~st r1 r0~halt~ \
    -> cost of this input~steps 6~processors 3~product 18~work 18~most 3~reading 1~writing 1~\
    needs EREW~same read none~same write none~other value none~done steps=6~
-- one cell that all read needs CREW
pram 1~cells 2~procs 3~steps 9~code~pid r0~jz r0 end~set r1 1~ld r2 r1~end: halt~ \
    -> cost of this input~steps 9~processors 3~product 27~work 13~most 3~reading 1~writing 0~\
    needs CREW~same read step=4 cell=1 processors=1,2~same write none~other value none~\
    done steps=9~
-- equal writes need common
pram 1~cells 2~procs 4~steps 4~code~pid r0~set r1 1~lt r2 r0 r1~st r2 r1~ \
    -> cost of this input~steps 4~processors 4~product 16~work 16~most 4~reading 0~writing 1~\
    needs CRCW common~same read none~same write step=4 cell=0 processors=1,2~other value none~\
    done steps=4~
-- other values need priority
pram 2~cells 2~procs 4~steps 9~rule priority~code~pid r0~set r1 1~and r2 r0 r1~st r1 r1~st r2 r0~ \
    -> cost of this input~steps 9~processors 4~product 36~work 20~most 4~reading 0~writing 2~\
    needs CRCW priority~same read none~same write step=4 cell=1 processors=0,1~\
    other value step=5 cell=0 processors=0,2~done steps=9~
-- conflicting step counts
pram 1~cells 2~procs 4~steps 9~code~pid r0~set r1 1~and r2 r0 r1~st r2 r0~halt~ \
    -> cost of this input~steps 4~processors 4~product 16~work 16~most 4~reading 0~writing 1~\
    needs CRCW priority~same read none~same write step=4 cell=0 processors=0,2~\
    other value step=4 cell=0 processors=0,2~conflict step=4 cell=0 processors=0,2~
-- endless jumps are counted at once
pram 1~cells 1~procs 3~steps 4294967295~code~pid r0~jz r0 end~l: jmp l~end: halt~ \
    -> cost of this input~steps 4294967295~processors 3~product 12884901885~work 8589934593~\
    most 3~reading 0~writing 0~needs EREW~same read none~same write none~other value none~\
    done steps=4294967295~
-- reads do not meet writes
pram 1~cells 1~procs 2~steps 9~code~pid r0~jz r0 end~set r1 0~st r1 r0~halt~end: set r1 0~\
    ld r2 r1~halt~ \
    -> cost of this input~steps 9~processors 2~product 18~work 10~most 2~reading 1~writing 1~\
    needs EREW~same read none~same write none~other value none~done steps=9~
-- one cell that all write needs common
pram 1~cells 1~procs 2~steps 4~code~ld r1 r0~set r1 7~st r0 r1~ \
    -> cost of this input~steps 4~processors 2~product 8~work 6~most 2~reading 1~writing 1~\
    needs CRCW common~same read step=1 cell=0 processors=0,1~\
    same write step=3 cell=0 processors=0,1~other value none~done steps=4~
";

// Jobs printed as texts, and answers.
const PRINTED: &str = "\
-- each is printed as a text that is read as a job of which the same is printed
$ print text & print again
pram 3~cells 8~procs 8~steps 32~rule crew~array A 0 8~init 0 3 1 4 1 5 9 2 6~code~pid r0~\
    set r1 4~round: lt r2 r0 r1~jz r2 done~add r2 r0 r1~ld r2 A r2~ld r3 A r0~add r2 r2 r3~\
    st A r0 r2~shr r1 r1 1~jz r1 done~jmp round~done: halt~ \
    -> pram 3~cells 8~procs 8~steps 32~rule crew~array .a0_8 0 8~init 0 3 1 4 1 5 9 2 6~code~\
    pid r0~set r1 4~L2: lt r2 r0 r1~jz r2 L12~add r2 r0 r1~ld r2 .a0_8 r2~ld r3 .a0_8 r0~\
    add r2 r2 r3~st .a0_8 r0 r2~shr r1 r1 1~jz r1 L12~jmp L2~L12: halt~
pram 1~cells 22~procs 8~steps 184~init 0 5~init 1 3~init 2 8~init 3 1~init 4 9~init 5 2~init 6 7~\
    init 7 4~init 8 9~init 9 2~init 10 1~init 11 4~init 12 2~init 13 4~init 14 1~init 15 8~\
    init 16 4~init 17 8~init 18 2~init 19 8~init 20 1~code~round: set r3 8~ld r3 r3~ld r1 r3~\
    jz r1 done~pid r0~and r1 r0 r1~set r2 0~eq r1 r1 r2~set r2 1~add r3 r3 r2~ld r2 r3~\
    and r0 r0 r2~lt r0 r0 r2~eq r1 r1 r0~set r0 1~add r3 r3 r0~set r0 8~st r0 r3~pid r0~\
    xor r2 r0 r2~ld r2 r2~ld r0 r0~lt r3 r2 r0~eq r3 r3 r1~sub r2 r2 r0~mul r2 r2 r3~\
    add r2 r2 r0~pid r0~st r0 r2~jmp round~done: halt~ \
    -> pram 3~cells 22~procs 8~steps 184~rule common~\
    init 0 5 3 8 1 9 2 7 4 9 2 1 4 2 4 1 8 4 8 2 8 1~code~L0: set r3 8~ld r3 r3~ld r1 r3~\
    jz r1 L30~pid r0~and r1 r0 r1~set r2 0~eq r1 r1 r2~set r2 1~add r3 r3 r2~ld r2 r3~\
    and r0 r0 r2~lt r0 r0 r2~eq r1 r1 r0~set r0 1~add r3 r3 r0~set r0 8~st r0 r3~pid r0~\
    xor r2 r0 r2~ld r2 r2~ld r0 r0~lt r3 r2 r0~eq r3 r3 r1~sub r2 r2 r0~mul r2 r2 r3~\
    add r2 r2 r0~pid r0~st r0 r2~jmp L0~L30: halt~
pram 3~cells 9~procs 2~steps 4294967295~rule priority~init 7 5 0~init 1 1 2 0 4294967295~code~\
    halt~ \
    -> pram 3~cells 9~procs 2~steps 4294967295~rule priority~init 1 1 2~init 4 4294967295~\
    init 7 5~code~halt~
pram 3~cells 16~procs 1~steps 9~rule common~array B 0 4~array A 8 4~array C 8 8~code~\
    x: ld r0 A 3~st B r0 4294967295~or r1 r2 7~st C 7 r3~ld r3 A r1~st r0 r1~st 3 r2~\
    shl r1 r1 31~y: jz r3 y~jmp x~ \
    -> pram 3~cells 16~procs 1~steps 9~rule common~array .a8_4 8 4~array .a0_4 0 4~\
    array .a8_8 8 8~code~L0: ld r0 .a8_4 3~st .a0_4 r0 4294967295~or r1 r2 7~st .a8_8 7 r3~\
    ld r3 .a8_4 r1~st r0 r1~st 3 r2~shl r1 r1 31~L8: jz r3 L8~jmp L0~
-- each answer as it is printed
$ print answer
pram 1~cells 3~procs 1~steps 12~init 1 7~init 2 4294967295~code~halt~ \
    -> done steps=12~0: 0~1: 7~2: 4294967295~
pram 1~cells 5~procs 4~steps 5~init 1 1~init 3 1~code~pid r0~ld r1 r0~jz r1 end~set r2 4~\
    st r2 r0~end: halt~ -> conflict step=5 cell=4 processors=1,3~
-- arrays by name, and who left; a conflict by line and place; a scalar by its name alone
$ print named
pardo 1~rule priority~procs i < 4~shared A[3] = 5, ...~shared found~code~A[i] := 2 * i~\
    found := 9~ -> done steps=5~A = 0 2 4~found = 9~gone processor=3 line=7~
pardo 1~rule common~procs i < 4~shared A[3] = 5, ...~shared found~code~A[0] := 1~\
    A[1 + (i >> 1)] := i~ -> conflict line=8 place=A[1] processors=0,1~
pardo 1~rule crew~procs i < 4~shared A[3] = 5, ...~shared found~code~found := 1~ \
    -> conflict line=7 place=found processors=0,1~
-- an answer that is unfinished, by cells and by names
$ print unfinished
pardo 1~rule crew~procs i < 1~code~if 0~end~ -> unfinished step=2~unfinished step=2~
-- the first word decides what a text is
$ program language
pardo 1~ -> pardo
; a comment~~\t pardo 1 ; and one more~ -> pardo
pardo -> pardo
pardo;1 -> pardo
pram 1~pardo 1~ -> another
pardo1~ -> another
Pardo 1~ -> another
;pardo 1~ -> another
 -> another
";

#[test]
fn jobs_and_answers_are_printed(rt: HostRuntime) -> Result<(), Fail> {
    expect(&rt, rt.alloc(), ROWS)?;
    expect(&rt, rt.alloc(), COSTS)?;
    expect(&rt, rt.alloc(), PRINTED)
}

#[test]
fn each_instruction_as_a_text_spells_it(rt: HostRuntime) -> Result<(), Fail> {
    let array = Array { base: 8, len: 4 };
    let rows = [
        (Instr::Set(0, u32::MAX), "set r0 4294967295"),
        (Instr::Pid(3), "pid r3"),
        (Instr::Add(0, 1, Operand::Register(2)), "add r0 r1 r2"),
        (Instr::Sub(0, 1, Operand::Register(2)), "sub r0 r1 r2"),
        (Instr::Mul(0, 1, Operand::Register(2)), "mul r0 r1 r2"),
        (Instr::And(0, 1, Operand::Register(2)), "and r0 r1 r2"),
        (Instr::Or(0, 1, Operand::Register(2)), "or r0 r1 r2"),
        (Instr::Xor(0, 1, Operand::Register(2)), "xor r0 r1 r2"),
        (Instr::Lt(0, 1, Operand::Register(2)), "lt r0 r1 r2"),
        (Instr::Eq(0, 1, Operand::Register(2)), "eq r0 r1 r2"),
        (Instr::Shl(0, 1, Operand::Number(31)), "shl r0 r1 31"),
        (Instr::Shr(0, 1, Operand::Register(2)), "shr r0 r1 r2"),
        (Instr::Div(0, 1, Operand::Number(10)), "div r0 r1 10"),
        (Instr::Rem(0, 1, Operand::Register(2)), "rem r0 r1 r2"),
        (Instr::Ld(1, Place::Cell(Operand::Register(2))), "ld r1 r2"),
        (
            Instr::Ld(1, Place::Named(array, Operand::Number(3))),
            "ld r1 8..11 3",
        ),
        (
            Instr::St(Place::Cell(Operand::Register(2)), Operand::Register(1)),
            "st r2 r1",
        ),
        (
            Instr::St(
                Place::Named(array, Operand::Register(2)),
                Operand::Number(0),
            ),
            "st 8..11 r2 0",
        ),
        (Instr::Jz(3, 17), "jz r3 17"),
        (Instr::Jmp(0), "jmp 0"),
        (Instr::Halt, "halt"),
    ];
    for (instr, wanted) in rows {
        let text = instruction_text(rt.alloc(), &ByNumbers { lines: None }, instr)?;
        assert!(rt; text.as_str() == wanted);
    }
    Ok(())
}
