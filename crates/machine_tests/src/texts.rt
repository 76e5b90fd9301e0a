//! Texts that are read, and each kind of fault.
use crate::table::expect;
use pram_job::Job;
use pram_rows::{ByNumbers, instruction_text};
use pram_text::{TextFault, TextKind, instruction_line, read_job};
use std::alloc::{AllocError, Global};
use std::test::Fail;

/// What a call says of a text.
pub fn said(alloc: Global, call: &str, number: &str, text: &str) -> Result<String, Fail> {
    match call {
        "fault" => fault(alloc, text),
        "line" => line(alloc, number, text),
        "clone" => clone(alloc, text),
        _ => job(alloc, text),
    }
}

// The line and the kind of a text's fault.
fn fault(alloc: Global, text: &str) -> Result<String, Fail> {
    Ok(match read_job(alloc, text.as_bytes()) {
        Ok(_) => String::from_str(alloc, "none")?,
        Err(TextFault { line, kind }) => format!(in alloc; "{line} {kind:?}")?,
    })
}

/// The rule, the cells, the processors, the steps, the start values, and the instructions.
pub fn job_text(alloc: Global, job: &Job) -> Result<String, AllocError> {
    let (cells, procs, steps) = (job.cells(), job.procs(), job.steps());
    let (rule, init) = (job.rule(), job.init());
    let names = ByNumbers { lines: None };
    let mut told = format!(in alloc; "{rule:?} {cells} {procs} {steps} {init:?}\n")?;
    for instr in job.code() {
        told.push_str(instruction_text(alloc, &names, *instr)?.as_str())?;
        told.push_str("\n")?;
    }
    Ok(told)
}

// What a text spells.
fn job(alloc: Global, text: &str) -> Result<String, Fail> {
    let job = read_job(alloc, text.as_bytes())?;
    Ok(job_text(alloc, &job)?)
}

// What a clone of its job is.
fn clone(alloc: Global, text: &str) -> Result<String, Fail> {
    let job = read_job(alloc, text.as_bytes())?;
    Ok(job_text(alloc, &job.try_clone()?)?)
}

// The line of the instruction with this number.
fn line(alloc: Global, number: &str, text: &str) -> Result<String, Fail> {
    let line = instruction_line(text.as_bytes(), number.parse()?);
    Ok(format!(in alloc; "{line}")?)
}

// Texts that are read, and each kind of fault.
const READ: &str = "\
$ text fault
 -> 1 BadHeader -- no byte at all
pram 4~ -> 1 BadHeader -- version 4
pram x~ -> 1 BadNumber -- version x
pram 1~cells 0~ -> 2 OutOfLimits -- no cell
pram 1~cells 65537~ -> 2 OutOfLimits -- one cell too many
pram 2~cells 65537~ -> 2 OutOfLimits
pram 3~cells 1048577~ -> 2 OutOfLimits
pram 1~cells 1~procs 1025~ -> 3 OutOfLimits -- one processor too many
pram 2~cells 1~procs 1025~ -> 3 OutOfLimits
pram 3~cells 1~procs 65537~ -> 3 OutOfLimits
pram 1~cells 65536~procs 1024~steps 0~code~halt~ -> none -- as large as can be
pram 2~cells 65536~procs 1024~steps 0~rule crew~code~halt~ -> none
pram 3~cells 1048576~procs 65536~steps 0~rule crew~code~halt~ -> none
pram 1~cells 1~procs 1~steps 4294967296~ -> 4 OutOfLimits -- one step too many
pram 1~cells 1~procs 1~steps 0~init 0 1~init 0 1~code~halt~ -> 6 BadHeader -- a second start value
pram 1~cells 1~procs 1~steps 0~init 1 0~ -> 5 OutOfLimits -- a start value of no cell
pram 1~cells 1~procs 1~steps 1~~ -> 6 BadHeader -- no line code
pram 1~cells 1~procs 1~steps 1~rule common~ -> 5 BadHeader -- a rule in version 1
pram 2~cells 1~procs 1~steps 1~code~ -> 5 BadHeader -- no rule in version 2
pram 2~cells 1~procs 1~steps 1~rule arbitrary~ -> 5 BadHeader -- an unknown rule
$ text fault: pram 1~cells 1~procs 1~steps 1~code~
 -> 6 NoCode -- no instruction
a: halt~a: halt~ -> 7 DuplicateLabel -- a second label
ad -> 6 UnknownInstruction -- half a name
1a: halt~ -> 6 UnknownInstruction -- a label with a digit first
a:~ -> 6 UnknownInstruction -- a label alone
a: b: halt~ -> 6 UnknownInstruction -- a second word with a colon
jz r4 x~ -> 6 BadRegister -- register 4
set r0 1x~ -> 6 BadNumber -- digits and a letter
set r0 99999999999999999999~ -> 6 OutOfLimits -- a number of 20 digits
jmp x~ -> 6 UnknownLabel -- an unknown label
jmp x~foo~ -> 7 UnknownInstruction -- an unknown label, then a fault
jmp y~set r0~ -> 7 WrongOperands -- an unknown label, then one operand
halt~~jmp x~jmp y~ -> 8 UnknownLabel -- two unknown labels
{4097 halt~} -> 4102 TooLong
{4096 halt~} -> none
set r0 {1000000 9}~ -> 6 OutOfLimits
{100000 a}: halt~ -> none
$ text fault: pram 3~cells 9~procs 1~steps 1~rule crew~
array A 2~ -> 6 BadHeader -- an array without a length
array r3 0 1~ -> 6 BadHeader -- a register's name
array 1a 0 1~ -> 6 BadHeader -- a digit first
array ..a 0 1~ -> 6 BadHeader -- two dots
array A x 1~ -> 6 BadNumber -- a base that is no number
array A 0 0~ -> 6 OutOfLimits -- an array of no place
array A 9 1~ -> 6 OutOfLimits -- a base past the cells
array A 2 8~ -> 6 OutOfLimits -- an end past the cells
array A 2 7~array A 0 1~ -> 7 BadHeader -- a name twice
init 0 1~array A 0 1~ -> 7 BadHeader -- an array after a value
init 7 1 2 3 x~ -> 6 OutOfLimits -- a value past the cells
init 8 x 3~ -> 6 BadNumber -- a value that is none
init 8~ -> 6 BadHeader -- no value
init 2 1 1 1~init 0 1 1 1~ -> 7 BadHeader -- a cell twice
code~ld r0 A r1~ -> 7 BadRegister -- an unknown array
array A 0 1~code~st A r0~ -> 8 BadRegister -- an array without an index
code~add r0 1 r1~ -> 7 BadRegister -- a first operand that is a number
code~ld 0 r1~ -> 7 BadRegister -- a target that is a number
code~st r0 4294967296~ -> 7 OutOfLimits -- a number of 33 bits
array A 0 1~code~st A r0 r1 r2~ -> 8 WrongOperands -- four operands
code~jz 0 x~ -> 7 BadRegister -- a jump on a number
$ text fault: pram 2~cells 9~procs 1~steps 1~rule crew~
array A 0 1~ -> 6 BadHeader -- an array
init 0 1 2~ -> 6 BadHeader -- two values
code~shl r0 r1 r2~ -> 7 UnknownInstruction -- a shift
code~add r0 r1 1~ -> 7 BadRegister -- a number to add
code~ld r0 0~ -> 7 BadRegister -- a number as an index
code~st r0 0~ -> 7 BadRegister -- a number to store
code~st A r0 r1~ -> 7 WrongOperands -- three operands of st
code~ld r0 A r1~ -> 7 WrongOperands -- three operands of ld
-- the rule, the cells, the processors, the steps, the start values and the instructions
$ text job & text clone
pram 1 ; sizes~cells 3~procs 0002~~\tsteps 4294967295\r~init 2 7~init 0 1~code~set r1 5~pid r0~\
    start: add r0 r1 r2~sub r1 r2 r3~mul r2 r3 r0~and r3 r0 r1~or r0 r0 r0~xor r1 r1 r1~\
    lt r0 r1 r2~eq r0 r1 r2~ld r0 r1~st r0 r1~jz r0 end~jmp start~ end: halt; \
    -> Common 3 2 4294967295 [1, 0, 7]~set r1 5~pid r0~add r0 r1 r2~sub r1 r2 r3~mul r2 r3 r0~\
    and r3 r0 r1~or r0 r0 r0~xor r1 r1 r1~lt r0 r1 r2~eq r0 r1 r2~ld r0 r1~st r0 r1~jz r0 14~\
    jmp 2~halt~
pram 3~cells 9~procs 1~steps 1~rule crew~array A 2 4~array .r0 8 1~init 1 7 8 9~init 0 6~code~\
    a: add r0 r1 4294967295~eq r0 r1 r2~shl r0 r1 31~shr r2 r3 r0~ld r1 5~ld r1 A 3~ld r1 .r0 r2~\
    st 8 r1~st r0 7~st A r3 9~st .r0 0 r2~ \
    -> Crew 9 1 1 [6, 7, 8, 9, 0, 0, 0, 0, 0]~add r0 r1 4294967295~eq r0 r1 r2~shl r0 r1 31~\
    shr r2 r3 r0~ld r1 5~ld r1 2..5 3~ld r1 8..8 r2~st 8 r1~st r0 7~st 2..5 r3 9~st 8..8 0 r2~
pram 3~cells 1~procs 1~steps 1~rule common~code~div r1 r2 8~rem r0 r1 r3~ \
    -> Common 1 1 1 [0]~div r1 r2 8~rem r0 r1 r3~
pram 2~cells 1~procs 1~steps 1~rule common~code~halt~ -> Common 1 1 1 [0]~halt~
pram 2~cells 1~procs 1~steps 1~rule priority~code~halt~ -> Priority 1 1 1 [0]~halt~
pram 2~cells 1~procs 1~steps 1~rule crew~code~halt~ -> Crew 1 1 1 [0]~halt~
pram 1~cells 1~procs 1~steps 1~code~halt~ -> Common 1 1 1 [0]~halt~
";

#[test]
fn texts_are_read(rt: HostRuntime) -> Result<(), Fail> {
    expect(&rt, rt.alloc(), READ)
}

const WHOLE: &[u8] = b"\
pram 1
cells 5
procs 4
steps 5
init 1 1
init 3 1
code
pid r0
ld r1 r0
jz r1 end
set r2 4
st r2 r1
end: halt
";

#[test]
fn beginnings_of_a_text(rt: HostRuntime) {
    for len in 0..WHOLE.len() {
        let is_read = read_job(rt.alloc(), &WHOLE[..len]).is_ok();
        let wanted = matches!(len, 60 | 61 | 69 | 70 | 107);
        assert!(rt; is_read == wanted, "{len} bytes");
    }
}

#[test]
fn a_comment_with_a_byte_that_is_not_allowed(rt: HostRuntime) {
    let text = b"pram 1\ncells 1\nprocs 1\nsteps 1\ncode\n; \xff\nhalt\n";
    let fault = TextFault {
        line: 6,
        kind: TextKind::NotAscii,
    };
    assert!(rt; read_job(rt.alloc(), text).err() == Some(fault));
}
