//! Jobs on the plain machine: how they end, their steps, and what became of their processors.
ghost use Rattle.std.specs.Prelude.{◌≡◌, ◌<◌, length};
ghost use Rattle.pram_machine.specs.Machine.{place_count};
ghost use Rattle.pram_step.specs.Runs.{IsStateAfter};

use crate::table::expect;
use pram_job::Job;
use pram_machine::Request;
use pram_rows::{ByNumbers, Origin, why_after, why_text};
use pram_step::{
    Arrival, Cells, Dispute, Fault, Outcome, RunAnswer, State, counter, dispute, go_to, laws,
    make_step, plain_answer, request, request_after, run_plain, step,
};
use pram_text::read_job;
use std::alloc::{AllocError, Global};
use std::process::Abort;
use std::test::Fail;

// The cells, or the step, the cell and the two processors of a conflict.
fn answer_text(alloc: Global, answer: &RunAnswer) -> Result<String, AllocError> {
    match answer {
        RunAnswer::Final(cells) => format!(in alloc; "{:?}", cells.as_slice()),
        RunAnswer::Conflict(fault) => fault_text(alloc, *fault),
        RunAnswer::Unfinished { step } => format!(in alloc; "unfinished {step}"),
    }
}

fn fault_text(alloc: Global, fault: Fault) -> Result<String, AllocError> {
    let (step, cell) = (fault.step, fault.cell);
    let (first, second) = (fault.first, fault.second);
    format!(in alloc; "conflict {step} {cell} {first} {second}")
}

/// What a call says of the run of a text.
pub fn said(alloc: Global, call: &str, number: &str, text: &str) -> Result<String, Fail> {
    match call {
        "answer" => answer(alloc, text),
        "run" => run(alloc, text),
        "fates" => fates(alloc, number, text),
        "asked" => asked(alloc, number, text),
        _ => first_steps(alloc, text),
    }
}

// What the plain machine answers.
fn answer(alloc: Global, text: &str) -> Result<String, Fail> {
    let job = read_job(alloc, text.as_bytes())?;
    let answer = plain_answer(alloc, &job)?;
    Ok(answer_text(alloc, &answer)?)
}

// What a run's outcome says.
fn answer_of(job: &Job, outcome: Outcome) -> RunAnswer {
    match outcome {
        Outcome::Final(state) => RunAnswer::Final(Cells::new(state.into_cells(job).into_vec())),
        Outcome::Conflict {
            step,
            cell,
            first,
            second,
        } => RunAnswer::Conflict(Fault {
            step,
            cell,
            first,
            second,
        }),
    }
}

// How a run ends.
fn run(alloc: Global, text: &str) -> Result<String, Fail> {
    let job = read_job(alloc, text.as_bytes())?;
    let answer = answer_of(&job, run_plain(alloc, &job)?);
    Ok(answer_text(alloc, &answer)?)
}

// Makes a step, and says what is wrong with it, and the places after it.
fn stepped(alloc: Global, job: &Job, state: &mut State) -> Result<String, AllocError>
    requires { length state.old ≡ place_count job.now }
    ensures { length state.new ≡ place_count job.now }
{
    let made = step(alloc, job, state);
    let places = state.places();
    match made {
        Ok(()) => format!(in alloc; "{places:?}"),
        Err(fault) => format!(in alloc; "{fault:?} {places:?}"),
    }
}

// Makes the first two steps.
fn two_steps(alloc: Global, job: &Job) -> Result<String, AllocError> {
    job.limits_hold();
    laws::start_is_a_state();
    laws::states_have_all_places();
    let mut state = State::start(alloc, job)?;
    let first = stepped(alloc, job, &mut state)?;
    let second = stepped(alloc, job, &mut state)?;
    format!(in alloc; "{first} {second}")
}

// The first two steps.
fn first_steps(alloc: Global, text: &str) -> Result<String, Fail> {
    let job = read_job(alloc, text.as_bytes())?;
    Ok(two_steps(alloc, &job)?)
}

// What a processor asks for in the first step, and what cell 0 holds before it.
fn asked(alloc: Global, processor: &str, text: &str) -> Result<String, Fail> {
    let job = read_job(alloc, text.as_bytes())?;
    Ok(asked_at_start(alloc, &job, processor.parse()?)?)
}

fn asked_at_start(alloc: Global, job: &Job, processor: u32) -> Result<String, AllocError> {
    job.limits_hold();
    laws::start_is_a_state();
    laws::states_have_all_places();
    let state = State::start(alloc, job)?;
    if job.procs() <= processor {
        return Ok(String::new(alloc));
    }
    let (asked, first) = (request(job, &state, processor), state.get(0));
    format!(in alloc; "{asked:?} {first}")
}

// What became of the processors in so many steps.
fn fates(alloc: Global, steps: &str, text: &str) -> Result<String, Fail> {
    let job = read_job(alloc, text.as_bytes())?;
    let answer = plain_answer(alloc, &job)?;
    let why = why_after(alloc, &job, steps.parse()?, &answer)?;
    let names = ByNumbers { lines: None };
    Ok(why_text(alloc, Origin::Text(text.as_bytes()), &names, &why)?)
}

// Jobs that are run on the plain machine.
const RUN: &str = "\
-- by the answer alone, and by the last state
$ job answer & job run
pram 1~cells 1~procs 1~steps 0~init 0 5~code~halt~ -> [5] -- no steps leave the start
pram 1~cells 1~procs 1~steps 1~code~set r0 7~ -> [0] -- registers are no cells
pram 1~cells 2~procs 2~steps 5~init 0 7~init 1 9~code~pid r0~set r1 1~sub r1 r1 r0~ld r2 r1~\
    st r0 r2~ -> [9, 7] -- loads come before stores
pram 1~cells 5~procs 4~steps 5~init 1 1~init 3 1~code~pid r0~ld r1 r0~jz r1 end~set r2 4~\
    st r2 r1~end: halt~ -> [0, 1, 0, 1, 1] -- two writers of equal values
pram 1~cells 1~procs 1~steps 3~code~set r1 1~sub r2 r0 r1~st r0 r2~ \
    -> [4294967295] -- sub goes below zero
pram 1~cells 2~procs 2~steps 5~init 0 5~init 1 9~code~pid r0~set r1 1~add r2 r0 r1~ld r3 r2~\
    st r0 r3~ -> [9, 9] -- load out of range
pram 1~cells 3~procs 3~steps 4~code~pid r0~set r1 10~add r1 r0 r1~st r0 r1~ \
    -> [10, 11, 12] -- three processors write apart
pram 1~cells 3~procs 2~steps 3~init 2 8~code~pid r0~set r1 6~st r0 r1~ \
    -> [6, 6, 8] -- cells that nobody writes
pram 1~cells 1~procs 2~steps 2~code~pid r0~st r0 r0~ -> [0] -- store out of range
pram 1~cells 1~procs 1~steps 4~code~set r1 4294967295~mul r2 r1 r1~lt r3 r2 r1~st r0 r3~ \
    -> [1] -- mul goes past the greatest number
pram 1~cells 1~procs 1~steps 6~code~set r1 1~l: add r2 r2 r1~st r0 r2~jmp l~ \
    -> [2] -- a loop counts
pram 1~cells 2~procs 3~steps 4294967295~code~pid r0~halt~ -> [0, 0] -- halted machine ends at once
pram 2~cells 5~procs 4~steps 5~rule common~init 1 1~init 3 1~code~pid r0~ld r1 r0~jz r1 end~\
    set r2 4~st r2 r1~end: halt~ -> [0, 1, 0, 1, 1] -- common takes equal values
pram 2~cells 5~procs 4~steps 5~rule priority~init 1 1~init 3 1~code~pid r0~ld r1 r0~jz r1 end~\
    set r2 4~st r2 r0~end: halt~ -> [0, 1, 0, 1, 1] -- priority takes the least writer
pram 2~cells 2~procs 4~steps 4~rule priority~code~pid r0~set r1 1~and r2 r0 r1~st r2 r0~ \
    -> [0, 1] -- priority takes the least writer of each cell
pram 3~cells 5~procs 1~steps 9~rule common~code~st 1 7~set r0 1~shl r1 r0 32~st 0 r1~\
    shl r1 r0 31~st 2 r1~ld r2 1~st r2 r0~halt~ \
    -> [0, 7, 2147483648, 0, 0] -- version 3, one processor: places that are numbers, and shifts
pram 1~cells 5~procs 4~steps 5~init 1 1~init 3 1~code~pid r0~ld r1 r0~jz r1 end~set r2 4~\
    st r2 r0~end: halt~ -> conflict 5 4 1 3 -- two writers of different values
pram 1~cells 2~procs 4~steps 4~code~pid r0~set r1 1~and r2 r0 r1~st r2 r0~ \
    -> conflict 4 0 0 2 -- least of two disputed cells
pram 1~cells 1~procs 3~steps 2~code~pid r0~st r1 r0~ -> conflict 2 0 0 1 -- least of three writers
pram 2~cells 5~procs 4~steps 5~rule crew~init 1 1~init 3 1~code~pid r0~ld r1 r0~jz r1 end~\
    set r2 4~st r2 r1~end: halt~ -> conflict 5 4 1 3 -- crew refuses equal values
pram 2~cells 1~procs 3~steps 1~rule crew~code~st r0 r1~ \
    -> conflict 1 0 0 1 -- crew names the two least writers
-- version 3, each processor in its own rows: the shifts, numbers as operands, and places of an \
    array, the last of which is none. Processor 3 has stopped where it loads; of the others the \
    last stores are against the rule
pram 3~cells 8~procs 4~steps 9~rule crew~array A 1 3~array B 4 4~init 0 9 20 30 40~code~pid r0~\
    ld r1 A r0~add r1 r1 4294967295~shl r2 r1 r0~shr r2 r2 1~st B r0 r2~ld r3 A 0~lt r3 r3 20~\
    st B 2 r3~ -> conflict 9 6 0 1
pram 3~cells 8~procs 4~steps 8~rule crew~array A 1 3~array B 4 4~init 0 9 20 30 40~code~pid r0~\
    ld r1 A r0~add r1 r1 4294967295~shl r2 r1 r0~shr r2 r2 1~st B r0 r2~st B 3 r2~halt~ \
    -> conflict 7 7 0 1 -- a store into one place of an array
-- quotient and remainder of 17 by each processor's number; who divides by 0 writes nothing
pram 3~cells 6~procs 3~steps 9~rule crew~array A 0 3~array B 3 3~code~pid r0~set r1 17~\
    div r2 r1 r0~rem r3 r1 r0~mul r2 r2 10~add r2 r2 r3~st A r0 r2~rem r3 r2 7~st B r0 r3~ \
    -> [0, 170, 81, 0, 2, 4]
-- what is wrong with a step, and the places after it, twice: an address out of range stops its \
    processor, and a step against the rule changes nothing
$ job steps
pram 1~cells 1~procs 1~steps 2~code~set r0 1~ld r1 r0~ -> [0, 1, 0, 0, 0, 1] [0, 1, 0, 0, 0, 3]
pram 1~cells 1~procs 1~steps 2~code~set r0 1~st r0 r0~ -> [0, 1, 0, 0, 0, 1] [0, 1, 0, 0, 0, 3]
pram 2~cells 1~procs 2~steps 1~rule crew~init 0 5~code~st r0 r1~ \
    -> Conflict { cell: 0, first: 0, second: 1 } [5, 0, 0, 0, 0, 0, 0, 0, 0, 0, 0] Conflict { \
    cell: 0, first: 0, second: 1 } [5, 0, 0, 0, 0, 0, 0, 0, 0, 0, 0]
-- what a processor asks for in the first step, and what cell 0 holds before it
$ job asked
1 : pram 2~cells 1~procs 2~steps 1~rule crew~init 0 5~code~st r0 r1~ \
    -> Request { put: Some((0, 0)), next: 1 } 5
";

// What became of the processors, and from which lines.
const FATES: &str = "\
-- what became of the processors in so many steps
$ job fates
0 : pram 1~cells 1~procs 4~steps 9~code~pid r0~set r1 1~and r2 r0 r1~~; the even ones leave~\
    jz r2 end~round: jmp round~end: halt~ -> running count=4 first=0 line=6~
4 : same -> running count=4 first=0 line=13~
5 : same -> running count=2 first=1 line=12~
4294967295 : same -> running count=2 first=1 line=12~
1 : pram 1~cells 2~procs 4~steps 9~init 0 5~ code ; and so on~pid r0~ld r1 r0~st r0 r1~ \
    -> running count=4 first=0 line=8~
2 : same -> running count=2 first=0 line=9~lost processor=2 step=2 line=8~\
    outside array=0..1 index=2 length=2~
4294967295 : same -> stopped step=3~lost processor=2 step=2 line=8~\
    outside array=0..1 index=2 length=2~
3 : pram 1~cells 2~procs 4~steps 9~code~pid r0~ld r1 r0~set r2 0~st r2 r0~ \
    -> wrote values=0,1~running count=2 first=0 line=9~lost processor=2 step=2 line=7~\
    outside array=0..1 index=2 length=2~
4 : same -> wrote values=0,1~lost processor=2 step=2 line=7~outside array=0..1 index=2 length=2~
-- one that divides by 0, and one whose remainder is by 0
4294967295 : pram 3~cells 1~procs 3~steps 9~rule common~code~pid r0~set r1 9~div r2 r1 r0~\
    eq r0 r0 1~rem r2 r1 r0~halt~ -> stopped step=6~lost processor=0 step=3 line=9~\
    divided value=9 by=0~
4 : pram 3~cells 1~procs 3~steps 9~rule common~code~pid r0~set r1 9~eq r0 r0 1~rem r2 r1 r0~halt~ \
    -> running count=1 first=1 line=11~lost processor=0 step=4 line=10~divided value=9 by=0~
-- a place of an array by a register and by a number; and a number above a bound that it is tested \
    by, but not below it
9 : pram 3~cells 8~procs 4~steps 9~rule crew~array A 2 3~code~pid r0~add r0 r0 1~st A r0 7~ \
    -> stopped step=3~lost processor=2 step=3 line=10~outside array=2..4 index=3 length=3~
9 : pram 3~cells 8~procs 1~steps 9~rule crew~array A 2 3~code~ld r1 A 5~ \
    -> stopped step=1~lost processor=0 step=1 line=8~outside array=2..4 index=5 length=3~
9 : pram 3~cells 8~procs 4~steps 9~rule crew~code~pid r0~lt r1 r0 3~div r2 r0 r1~ \
    -> stopped step=3~lost processor=3 step=3 line=9~outside index=3 length=3~
9 : pram 3~cells 8~procs 1~steps 9~rule crew~code~jmp l~lt r1 r0 3~l: div r2 r0 r1~ \
    -> stopped step=2~lost processor=0 step=2 line=9~divided value=0 by=0~
-- the values of two processors that clash
9 : pram 3~cells 8~procs 4~steps 9~rule crew~code~pid r0~add r1 r0 7~shr r0 r0 1~st r0 r1~ \
    -> wrote values=7,8~
-- the line of an instruction
$ text line
2 : pram 1~cells 2~procs 4~steps 9~init 0 5~ code ; and so on~pid r0~ld r1 r0~st r0 r1~ -> 9
3 : same -> 0
0 : code~code~~code~A B~code~x~ -> 7
0 :  -> 0
";

#[test]
fn jobs_are_run(rt: HostRuntime) -> Result<(), Fail> {
    expect(&rt, rt.alloc(), RUN)?;
    expect(&rt, rt.alloc(), FATES)
}

/// A write of two processors to one place is against the rule.
const CREW: &[u8] = b"pram 2\ncells 1\nprocs 2\nsteps 3\nrule crew\ncode\npid r0\nst r1 r0\n";

// Processors 0 and 1 write to cell 0.
const DISPUTED: Fault = Fault {
    step: 2,
    cell: 0,
    first: 0,
    second: 1,
};

// The step after the first one is asked for and made.
fn expect_second_step<R: AllocGlobal + Abort>(
    rt: &R,
    job: &Job,
    mut state: State,
) -> Result<(), Fail>
    requires procs { 1 < job.now.procs }
    requires after { IsStateAfter job.now 1 state }
{
    laws::states_have_all_places();
    job.limits_hold();
    assert!(rt; counter(job, &state, 1) == 1);
    let wanted = asks(Some((0, 1)), 2);
    assert!(rt; request(job, &state, 1) == wanted);
    assert!(rt; request_after(job, &state, 1) == wanted);
    let made = make_step(rt.alloc(), job, &mut state, 1)?;
    assert!(rt; made == Some(DISPUTED));
    Ok(())
}

#[test]
fn steps_are_gone_through(rt: HostRuntime) -> Result<(), Fail> {
    let job = read_job(rt.alloc(), CREW)?;
    assert!(rt; job.procs() == 2);
    let is_disputed = match go_to(rt.alloc(), &job, 3, 3)? {
        Arrival::Disputed(found) => found == DISPUTED,
        _ => false,
    };
    assert!(rt; is_disputed);
    let is_too_far = matches!(go_to(rt.alloc(), &job, 3, 1)?, Arrival::TooFar);
    assert!(rt; is_too_far);
    match go_to(rt.alloc(), &job, 1, 1)? {
        Arrival::Reached(state) => expect_second_step(&rt, &job, state),
        _ => panic!(rt; "step 1"),
    }
}

fn asks(put: Option<(u32, u32)>, next: u32) -> Request {
    Request { put, next }
}

fn disputed(cell: u32, first: u32, second: u32) -> Option<Dispute> {
    Some(Dispute {
        cell,
        first,
        second,
    })
}

// Five requests to write, and the least dispute among them.
fn expect_dispute<R: AllocGlobal + Abort>(
    rt: &R,
    job: &Job,
    puts: [Option<(u32, u32)>; 5],
    wanted: Option<Dispute>,
) -> Result<(), Fail>
    requires { job.now.procs ≡ 5 }
{
    let [a, b, c, d, e] = puts;
    let requests = [asks(a, 0), asks(b, 0), asks(c, 0), asks(d, 0), asks(e, 0)];
    let found = dispute(rt.alloc(), job, &requests)?;
    assert!(rt; found == wanted);
    Ok(())
}

#[test]
fn disputes_in_lists_of_requests(rt: HostRuntime) -> Result<(), Fail> {
    let job = read_job(
        rt.alloc(),
        b"pram 1\ncells 6\nprocs 5\nsteps 1\ncode\nhalt\n",
    )?;
    assert!(rt; job.procs() == 5);
    let several = [Some((4, 1)), None, Some((4, 3)), Some((0, 9)), Some((0, 9))];
    expect_dispute(&rt, &job, several, disputed(4, 0, 2))?;
    let least = [
        Some((1, 5)),
        Some((0, 2)),
        Some((1, 6)),
        Some((0, 2)),
        Some((0, 3)),
    ];
    expect_dispute(&rt, &job, least, disputed(0, 1, 4))?;
    let alike = [Some((4, 1)), Some((4, 1)), Some((4, 1)), None, None];
    expect_dispute(&rt, &job, alike, None)
}
