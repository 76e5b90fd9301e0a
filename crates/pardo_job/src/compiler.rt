//! The compiler.
ghost use Rattle.std.specs.Prelude.{◌≡◌, Ok, IfOk, IfErr, map, slice_index};
ghost use Rattle.pram_job.specs.Job.{IsJob};
ghost use Rattle.pram_step.specs.Last.{AreLast};
ghost use Rattle.pram_step.specs.Runs.{IsFirstConflict};
ghost use Rattle.pardo_program.specs.Lawful.{IsProgram};
ghost use Rattle.pardo_text.specs.Reading.{program_of};
ghost use Rattle.pardo_flat.specs.Layouts.{program_layout, start_values};
ghost use Rattle.pardo_job.specs.Compiled.{IsCompiled};
ghost use Rattle.pardo_job.specs.Drafts.{AreLinePlaces, ArePlacesOf, IsComplete, IsDraft};
ghost use Rattle.pardo_job.specs.Drafts.{IsLinesDraft};
ghost use Rattle.pardo_job.specs.Ends.{HasEnded};
ghost use Rattle.pardo_job.specs.Inner.Listings.{AreFirstPlaces};
ghost use Rattle.pardo_job.specs.Inner.Endings.{IsFinished, EndsTooLate, IsRest};
ghost use Rattle.pardo_job.specs.Refusals.{IsLinesFault, IsProgramFault, IsProgramRefusal};

use crate::ended::{Ended, Lines};
use crate::fault::{JobFault, JobKind, Refusal};
use crate::lines::Listing;
use crate::run::{Rest, Run, disputed_line, gone_lines, line_at, run_of};
use pardo_flat::{Flat, Flattened, Layout, flatten};
use pardo_text::{Program, laws, read_program};
use pram_job::Job;
use pram_step::{Fault, LastRow, Nobody, Observer, RunAnswer};
use std::alloc::{AllocError, Global};
use std::marker::Model;

/// The job of a program, the lines that its instructions came from, and how it ends.
#[derive(Drop)]
pub struct Compiled {
    job: Job,
    numbers: Vec<u64>,
    ended: Ended,
}

impl Model for Compiled {
    ghost use Rattle.pardo_job.specs.Compiled.{CompiledData};

    ghost Value = { CompiledData };

    ghost use Rattle.std.specs.Coded.{codes};
    ghost use Rattle.pardo_job.specs.contracts.ended.Ended as an_end;

    ghost coded = { Prim.hlevel (codes, an_end.the_row.coded) };

    ghost view = { λ c. record { job = c.job; numbers = c.numbers.items; ended = c.ended } };
}

impl Compiled {
    /// The job.
    pub fn job(&self) -> &Job
        ensures { result.now ≡ self.now.job }
    {
        &self.job
    }

    /// The number of the text's line that each instruction came from; 0 of the first one.
    pub fn lines(&self) -> &[u64]
        ensures { result.now ≡ self.now.numbers }
    {
        self.numbers.as_slice()
    }

    /// How the job ends, and in which lines.
    pub fn ended(&self) -> &Ended
        ensures { result.now ≡ self.now.ended }
    {
        &self.ended
    }

    /// The job, the numbers of the lines, and how it ends.
    pub fn into_parts(self) -> (Job, Vec<u64>, Ended)
        ensures job { result.0 ≡ self.job }
        ensures lines { result.1.items ≡ self.numbers }
        ensures ended { result.2 ≡ self.ended }
    {
        let Compiled {
            job,
            numbers,
            ended,
        } = self;
        (job, numbers, ended)
    }

    /// The number of the text's line that an instruction came from, or 0.
    pub fn line_of(&self, index: usize) -> u64
        ensures { result ≡ slice_index self.now.numbers index }
    {
        self.numbers.get(index).copied().unwrap_or(0)
    }
}

/// The program that a text spells and its job, or why there is none.
///
/// The time is linear in the text, and in what the program does: it is run once, to find after how
/// many steps it is over, and how it ends.
pub fn compile(alloc: Global, text: &[u8]) -> Result<(Program, Compiled), Refusal>
    ensures program { IfOk result (λ given. program_of text.now ≡ Ok given.0) }
    ensures job { IfOk result (λ given.
        IsCompiled given.0 given.1.job (slice_index given.1.numbers)) }
    ensures ended { IfOk result (λ given.
        HasEnded given.1.job (slice_index given.1.numbers) given.1.ended) }
    ensures refused { IfErr result (IsProgramRefusal text.now) }
{
    let draft = draft_in(alloc, text)?;
    let (program, compiled, _) = finish(alloc, draft, Nobody)?;
    Ok((program, compiled))
}

/// A program, its job before that is run, which has no steps, the number of the text's line that
/// each instruction came from, and where the code of each line begins.
#[derive(Drop)]
pub struct Draft {
    pub program: Program,
    pub job: Job,
    pub numbers: Vec<u64>,
    pub places: Vec<u32>,
}

/// The first half of `compile`: nothing is run.
pub fn draft_in(alloc: Global, text: &[u8]) -> Result<Draft, Refusal>
    ensures program { IfOk result (λ draft. program_of text.now ≡ Ok draft.program) }
    ensures draft { IfOk result (λ draft. IsDraft draft.program draft.job draft.numbers.items) }
    ensures places { IfOk result (λ draft. ArePlacesOf draft.program draft.places.items) }
    ensures refused { IfErr result (IsProgramRefusal text.now) }
{
    laws::programs_are_lawful();
    let program = read_program(alloc, text)?;
    let Coded {
        job,
        numbers,
        places,
    } = draft_of(alloc, &program)?;
    Ok(Draft {
        program,
        job,
        numbers,
        places,
    })
}

/// The other half: the job is run once. The observer sees all its steps.
pub fn finish<O: Observer + Drop>(
    alloc: Global,
    draft: Draft,
    observer: O,
) -> Result<(Program, Compiled, O), JobFault>
    requires draft { IsDraft draft.program draft.job draft.numbers.items }
    requires seen { O.has_seen draft.job 0 observer }
    ensures program { IfOk result (λ given. given.0 ≡ draft.program) }
    ensures made { IfOk result (λ given. IsComplete draft.program given.1) }
    ensures seen { IfOk result (λ given.
        O.has_seen (record given.1.job { steps = 0 }) given.1.job.steps given.2) }
    ensures refused { IfErr result (λ fault. IsProgramFault draft.program fault.line fault.kind) }
{
    let Draft {
        program,
        job,
        numbers,
        ..
    } = draft;
    let (compiled, observer) = finished(alloc, job, numbers, observer)?;
    Ok((program, compiled, observer))
}

/// A job that is not run, the numbers of the lines that its instructions came from, and the places
/// of lines in it.
#[derive(Drop)]
struct Coded {
    job: Job,
    numbers: Vec<u64>,
    places: Vec<u32>,
}

// The job of a program, or why there is none.
fn draft_of(alloc: Global, program: &Program) -> Result<Coded, JobFault>
    requires { IsProgram program.now }
    ensures draft { IfOk result (λ given. IsDraft program.now given.job given.numbers.items) }
    ensures places { IfOk result (λ given. ArePlacesOf program.now given.places.items) }
    ensures refused { IfErr result (λ fault. IsProgramFault program.now fault.line fault.kind) }
{
    match flatten(alloc, program)? {
        Flattened::Same => draft_of_lines(alloc, program),
        Flattened::Flat(flat) => draft_of_flat(alloc, &flat),
        Flattened::TooWide(line) => Err(JobFault {
            line,
            kind: JobKind::TooManyCells,
        }),
    }
}

// That of the flat program of one; and where the first of the lines for each of its lines stands.
fn draft_of_flat(alloc: Global, flat: &Flat) -> Result<Coded, JobFault>
    requires { IsProgram flat.now.program }
    ensures draft { IfOk result (λ given.
        IsLinesDraft flat.now.program given.job given.numbers.items) }
    ensures places { IfOk result (λ given.
        AreFirstPlaces flat.now.program flat.now.firsts.items given.places.items) }
    ensures refused { IfErr result (λ fault.
        IsLinesFault flat.now.program fault.line fault.kind) }
{
    let Coded {
        job,
        numbers,
        places,
    } = draft_of_lines(alloc, &flat.program)?;
    let places = first_places(alloc, &places, &flat.firsts)?;
    Ok(Coded {
        job,
        numbers,
        places,
    })
}

// The places of these lines.
fn first_places(alloc: Global, places: &[u32], firsts: &[usize]) -> Result<Vec<u32>, AllocError>
    ensures { IfOk result (λ given. given.items ≡ map (slice_index places.now) firsts.now) }
{
    let mut given = Vec::with_capacity(alloc, firsts.len())?;
    for first in firsts {
        given.push(places.get(*first).copied().unwrap_or(0))?;
    }
    Ok(given)
}

// The job of these lines as they stand, which is not run, or why there is none.
fn draft_of_lines(alloc: Global, program: &Program) -> Result<Coded, JobFault>
    requires { IsProgram program.now }
    ensures draft { IfOk result (λ given. IsLinesDraft program.now given.job given.numbers.items) }
    ensures places { IfOk result (λ given. AreLinePlaces program.now given.places.items) }
    ensures refused { IfErr result (λ fault. IsLinesFault program.now fault.line fault.kind) }
{
    let listing = Listing::of(alloc, program)?;
    let code = listing.code(alloc)?;
    let numbers = listing.numbers(alloc)?;
    let init = start_values(alloc, program, &listing.layout)?;
    let job = Job::of_parts(program.rule(), program.procs(), 0, init, code);
    let Listing { places, .. } = listing;
    Ok(Coded {
        job,
        numbers,
        places,
    })
}

// The job with as many steps as it needs, and how it ends.
fn finished<O: Observer + Drop>(
    alloc: Global,
    job: Job,
    numbers: Vec<u64>,
    observer: O,
) -> Result<(Compiled, O), JobFault>
    requires { O.has_seen job 0 observer }
    ensures job { IfOk result (λ given. IsJob given.0.job) }
    ensures given { IfOk result (λ given. IsFinished job numbers.items given.0) }
    ensures seen { IfOk result (λ given. O.has_seen job given.0.job.steps given.1) }
    ensures refused { IfErr result (λ fault. EndsTooLate job numbers.items fault.line fault.kind) }
{
    let (run, observer) = run_of(alloc, &job, observer)?;
    match run {
        Run::Stopped(rest) => Ok((stopped(alloc, job, numbers, rest)?, observer)),
        Run::Disputed(fault, last) => {
            Ok((
                disputed(alloc, job, numbers, fault, last.as_slice()),
                observer,
            ))
        }
        Run::Endless(index) => Err(JobFault {
            line: line_at(numbers.as_slice(), index),
            kind: JobKind::Endless,
        }),
    }
}

// The job with the steps that it needs and its ending, where all processors have stopped.
fn stopped(alloc: Global, job: Job, numbers: Vec<u64>, rest: Rest) -> Result<Compiled, AllocError>
    requires { IsRest job rest }
    ensures job { IfOk result (λ compiled. IsJob compiled.job) }
    ensures given { IfOk result (IsFinished job numbers.items) }
    ensures steps { IfOk result (λ compiled. compiled.job.steps ≡ rest.steps) }
{
    let gone = gone_lines(alloc, &job, &rest, numbers.as_slice())?;
    let Rest { steps, state, .. } = rest;
    let answer = RunAnswer::Final(state.into_cells(&job));
    let lines = Lines { gone, disputed: 0 };
    let job = job.with_steps(steps);
    job.limits_hold();
    let ended = Ended { answer, lines };
    Ok(Compiled {
        job,
        numbers,
        ended,
    })
}

// The job with the steps that it makes and its ending, where a step is against the rule.
fn disputed(alloc: Global, job: Job, numbers: Vec<u64>, fault: Fault, last: &[LastRow]) -> Compiled
    requires conflict { IsFirstConflict job fault }
    requires last { AreLast job fault.step last.now }
    ensures job { IsJob result.job }
    ensures given { IsFinished job numbers.items result }
    ensures steps { result.job.steps ≡ fault.step }
{
    let disputed = disputed_line(&job, fault, last, numbers.as_slice());
    let gone = Vec::new(alloc);
    let lines = Lines { gone, disputed };
    let job = job.with_steps(fault.step);
    job.limits_hold();
    let answer = RunAnswer::Conflict(fault);
    let ended = Ended { answer, lines };
    Compiled {
        job,
        numbers,
        ended,
    }
}

// The values that the cells start with.
fn start_values(alloc: Global, program: &Program, layout: &Layout) -> Result<Vec<u32>, AllocError>
    requires lawful { IsProgram program.now }
    requires layout { layout.now ≡ program_layout program.now }
    ensures { IfOk result (λ values. values.items ≡ start_values program.now) }
{
    let mut values = Vec::with_capacity(alloc, layout.cells() as usize)?;
    for array in program.arrays() {
        values.extend_from_slice(array.start())?;
    }
    for variable in program.privates() {
        values.extend_from_slice(variable.start())?;
    }
    values.resize(layout.cells() as usize, 0)?;
    Ok(values)
}
