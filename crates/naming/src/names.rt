//! What a text is, and how an answer is told by it.
ghost use Rattle.std.specs.Prelude.{◌≡◌, ◌<◌, ◌++◌, ℕ, true, false, Some, None, IfOk, IfErr, OnOk};
ghost use Rattle.std.specs.Option.{option_copied};
ghost use Rattle.std.specs.Prelude.{MatchOption, ◌≤◌};
ghost use Rattle.pardo_program.specs.Lawful.{AreArrays};
ghost use Rattle.pardo_job.specs.Ends.{gone_in};
ghost use Rattle.pardo_job.specs.Printed.{cell_text};
ghost use Rattle.pardo_answers.specs.Language.{is_program};
ghost use Rattle.pram_rows.specs.Told.{line_in};
ghost use Rattle.naming.specs.Writing.{writing};
ghost use Rattle.naming.specs.Costed.{AreCosts};
ghost use Rattle.naming.specs.Puts.{PutText};
ghost use Rattle.naming.specs.BadTexts.{IsBadOrMemory};
ghost use Rattle.naming.specs.CellLists.{AreAnArrays, IsPlaceOf};
ghost use Rattle.naming.specs.declared.places.Stretch.{Stretch};
ghost use Rattle.naming.specs.Costs.{cost_words, spot_in};
ghost use Rattle.naming.specs.Names.{AreNames, IsMachines, line_at, printed_answer};
ghost use Rattle.naming.specs.Names.{recorded, styled};
ghost use Rattle.naming.specs.RowNames.{row_words};
ghost use Rattle.naming.specs.CellNames.{cell_words, or_number};

use crate::costs::{Costed, push_sums};
use crate::drafts::{counted, drafted, fault_of, program_draft};
use crate::places::{Stretch, array_at, cell_at, place_text, push_told};
use crate::texts::Spelled;
use pardo_answers::{
    Costs, Names, Run, Tracer, finish_costed, is_program, print_named, print_records, push_conflict,
};
use pardo_job::{Ended, Refusal};
use pardo_text::{Array, Program};
use pram_cost::{ByCells, CostNames, Meeting, cost_of};
use pram_job::Job;
use pram_rows::{Origin, print_cells};
use pram_run::{CellNames, Numbers};
use pram_step::{Cells, Fault, RunAnswer};
use pram_streams::{PrintFault, Sink, print_answer};
use pram_text::{TextFault, TextKind, read_job};
use refusals::CommandFault;
use std::alloc::{AllocError, Global};
use std::marker::Model;

/// What the answers of a program are told by: the program, where the code of each of its lines
/// begins, the numbers of the lines that its job's instructions came from, and how the job ends,
/// and in which lines.
#[derive(Drop)]
pub struct Naming {
    pub(crate) program: Program,
    pub(crate) places: Vec<u32>,
    pub(crate) numbers: Vec<u64>,
    pub(crate) ended: Ended,
}

impl Model for Naming {
    ghost use Rattle.naming.specs.Names.{NamingData};

    ghost Value = { NamingData };

    ghost use Rattle.std.specs.Coded.{codes};
    ghost use Rattle.pardo_program.specs.contracts.program.Program as a_program;
    ghost use Rattle.pardo_job.specs.contracts.ended.Ended as an_end;

    ghost coded = { Prim.hlevel (codes, a_program.the_row.coded, an_end.the_row.coded) };

    ghost view = { λ n.
        record {
          program = n.program;
          places = n.places.items;
          numbers = n.numbers.items;
          ended = n.ended;
        } };

    ghost use Rattle.pardo_program.specs.Lawful.{AreArrays};

    ghost invariant = { λ n. AreArrays n.program.arrays 0 };
}

impl Naming {
    /// The program.
    pub(crate) fn program(&self) -> &Program
        ensures program { result.now ≡ self.now.program }
        ensures arrays { AreArrays result.now.arrays 0 }
    {
        &self.program
    }

    /// The cell, of so many, whose place is told by this text, if there is one.
    pub(crate) fn cell_at(
        &self,
        alloc: Global,
        place: &[u8],
        count: u32,
    ) -> Result<Option<u32>, AllocError>
        ensures { IfOk result (λ found. MatchOption found
            ((cell : ℕ) → cell < count → ¬ IsPlaceOf (Some self.now) cell place.now)
            (λ cell. (cell < count) × IsPlaceOf (Some self.now) cell place.now)) }
    {
        cell_at(alloc, self.program.arrays(), place, count)
    }

    /// The cells of the array of this name, if there is one and all of them are below the count.
    pub(crate) fn array_at(&self, name: &[u8], count: u32) -> Option<Stretch>
        ensures { MatchOption result
            ((cells : Stretch) → cells.end ≤ count → ¬ AreAnArrays (Some self.now) name.now cells)
            (λ cells. (cells.end ≤ count) × AreAnArrays (Some self.now) name.now cells) }
    {
        array_at(self.program.arrays(), name, count)
    }

    /// What the run of the program is told by, line by line.
    pub fn tracer(&self) -> Tracer<'_>
        ensures program { result.program.now ≡ self.now.program }
        ensures places { result.places.now ≡ self.now.places }
        ensures numbers { result.numbers.now ≡ self.now.numbers }
    {
        Tracer {
            program: &self.program,
            places: self.places.as_slice(),
            numbers: self.numbers.as_slice(),
        }
    }

    /// The line in which a processor is gone, if it is.
    pub fn gone_in(&self, processor: u32) -> Option<u64>
        ensures { result ≡ gone_in self.now.ended.lines.gone.items processor }
    {
        let gone = self.ended.lines.gone.as_slice();
        gone.get(processor as usize).copied().unwrap_or(None)
    }

    /// The answer of the job, which was found with its lines.
    pub fn answer(&self, alloc: Global) -> Result<RunAnswer, AllocError>
        ensures { IfOk result (λ answer. answer ≡ self.now.ended.answer) }
    {
        copy_of(alloc, &self.ended.answer)
    }
}

impl CellNames for Spelled {
    ghost words = { λ spelled. cell_words spelled.names };

    fn header(&self) -> &str {
        match &self.names {
            None => Numbers.header(),
            Some(_) => "step,place,value\n",
        }
    }

    fn push_cell(&self, text: &mut Vec<u8>, cell: u32) -> Result<(), AllocError> {
        match &self.names {
            None => Numbers.push_cell(text, cell),
            Some(naming) => push_place(text, naming.program.arrays(), cell),
        }
    }
}

impl CostNames for Costed<'_> {
    ghost words = { λ costed. cost_words costed.spelled.now.names costed.lines.now };

    fn push_head(&self, text: &mut Vec<u8>) -> Result<(), AllocError> {
        match &self.spelled.names {
            None => ByCells.push_head(text),
            Some(_) => push_sums(text, self.lines),
        }
    }

    fn push_spot(
        &self,
        alloc: Global,
        text: &mut Vec<u8>,
        meeting: Meeting,
    ) -> Result<(), AllocError> {
        match &self.spelled.names {
            None => ByCells.push_spot(alloc, text, meeting),
            Some(naming) => push_spot(alloc, text, naming, meeting),
        }
    }

    fn push_conflict(&self, text: &mut Vec<u8>, fault: Fault) -> Result<(), AllocError> {
        match &self.spelled.names {
            None => ByCells.push_conflict(text, fault),
            Some(naming) => {
                let names = Names {
                    program: &naming.program,
                    steps: self.spelled.job.steps(),
                    lines: &naming.ended.lines,
                };
                push_conflict(text, &names, &fault)
            }
        }
    }
}

// In which line, and about which place, two processors meet.
fn push_spot(
    alloc: Global,
    text: &mut Vec<u8>,
    naming: &Naming,
    meeting: Meeting,
) -> Result<(), AllocError>
    ensures { OnOk result (text.new.items ≡ text.old.items ++ spot_in naming.now meeting) }
{
    let number = naming
        .numbers
        .get(meeting.counter as usize)
        .copied()
        .unwrap_or(0);
    let line = format!(in alloc; " line={number}")?;
    let place = place_text(alloc, naming.program.arrays(), meeting.cell as usize)?;
    text.extend_from_slice(line.as_bytes())?;
    if place.is_empty() {
        return ByCells.push_spot(alloc, text, meeting);
    }
    text.extend_from_slice(b" place=")?;
    text.extend_from_slice(place.as_slice())
}

// The place of a cell as a field of a record, or where it has none its number.
fn push_place(text: &mut Vec<u8>, arrays: &[Array], cell: u32) -> Result<(), AllocError>
    requires { AreArrays arrays.now 0 }
    ensures { OnOk result (text.new.items ≡ text.old.items
        ++ or_number (cell_text arrays.now cell) cell) }
{
    let before = text.len();
    push_told(text, arrays, cell as usize)?;
    if text.len() == before {
        return Numbers.push_cell(text, cell);
    }
    if text.as_slice()[before..].contains(&b',') {
        text.insert(before, b'"')?;
        text.push(b'"')?;
    }
    Ok(())
}

/// The job of a text, and what its answers are told by if it is a program.
pub fn read_text(alloc: Global, text: &[u8]) -> Result<(Job, Option<Naming>), CommandFault>
    ensures read { IfOk result (λ read. AreNames text.now read.0 read.1) }
    ensures bad { IfErr result (IsBadOrMemory text.now) }
{
    match drafted(alloc, text)? {
        Some(draft) => {
            let (job, naming) = counted(alloc, text, draft)?;
            Ok((job, Some(naming)))
        }
        None => {
            let job = read_machine(alloc, text)?;
            Ok((job, None))
        }
    }
}

// The job of a text in the machine's language.
fn read_machine(alloc: Global, text: &[u8]) -> Result<Job, CommandFault>
    requires { is_program text.now ≡ false }
    ensures read { IfOk result (IsMachines text.now) }
    ensures bad { IfErr result (IsBadOrMemory text.now) }
{
    match read_job(alloc, text) {
        Ok(job) => Ok(job),
        Err(
            TextFault {
                kind: TextKind::Memory,
                ..
            },
        ) => Err(CommandFault::Memory),
        Err(TextFault { line, kind }) => Err(CommandFault::Text { line, kind }),
    }
}

/// The job of a text, what its answers are told by if it is a program, and what its run costs. A
/// program is run once for all of it.
pub fn read_costed(alloc: Global, text: &[u8]) -> Result<(Job, Option<Naming>, Costs), CommandFault>
    ensures read { IfOk result (λ read. AreNames text.now read.0 read.1) }
    ensures costs { IfOk result (λ read. AreCosts read.1 read.0 read.2) }
    ensures bad { IfErr result (IsBadOrMemory text.now) }
{
    if is_program(text) {
        let (job, naming, costs) = cost_program(alloc, text)?;
        Ok((job, Some(naming), costs))
    } else {
        let job = read_machine(alloc, text)?;
        let cost = cost_of(alloc, &job)?;
        let costs = Costs {
            cost,
            lines: Vec::new(alloc),
            rounds: 0,
        };
        Ok((job, None, costs))
    }
}

// A program's job, what its answers are told by, and what its run costs.
fn cost_program(alloc: Global, text: &[u8]) -> Result<(Job, Naming, Costs), CommandFault>
    requires { is_program text.now ≡ true }
    ensures read { IfOk result (λ read. AreNames text.now read.0 (Some read.1)) }
    ensures costs { IfOk result (λ read. AreCosts (Some read.1) read.0 read.2) }
    ensures bad { IfErr result (IsBadOrMemory text.now) }
{
    let draft = program_draft(alloc, text)?;
    let places = Vec::from_slice(alloc, draft.places.as_slice())?;
    let run = match finish_costed(alloc, draft) {
        Ok(run) => run,
        Err(fault) => return Err(fault_of(Refusal::Job(fault))),
    };
    let Run {
        program,
        job,
        numbers,
        ended,
        costs,
    } = run;
    let naming = Naming {
        program,
        places,
        numbers,
        ended,
    };
    Ok((job, naming, costs))
}

fn copy_of(alloc: Global, answer: &RunAnswer) -> Result<RunAnswer, AllocError>
    ensures { IfOk result (λ copy. copy ≡ answer.now) }
{
    match answer {
        RunAnswer::Final(cells) => {
            let values = Vec::from_slice(alloc, cells.as_slice())?;
            Ok(RunAnswer::Final(Cells::new(values)))
        }
        RunAnswer::Conflict(fault) => Ok(RunAnswer::Conflict(*fault)),
        RunAnswer::Unfinished { step } => Ok(RunAnswer::Unfinished { step: *step }),
    }
}

/// Prints an answer, or a beginning of it where the sink fails. Nothing is printed before memory
/// for all of it was found.
pub fn print_told<O: Sink>(
    alloc: Global,
    out: &mut O,
    spelled: &Spelled,
    answer: &RunAnswer,
) -> Result<(), PrintFault>
    requires { O.has_failed out.old ≡ false }
    ensures { PutText (writing O.Sink out.old out.new)
        (printed_answer spelled.now.names answer.now spelled.now.job.steps) result }
{
    print_by(alloc, out, &spelled.names, spelled.job.steps(), answer)
}

// Prints the answer of a job of so many steps by these names.
fn print_by<O: Sink>(
    alloc: Global,
    out: &mut O,
    names: &Option<Naming>,
    steps: u32,
    answer: &RunAnswer,
) -> Result<(), PrintFault>
    requires { O.has_failed out.old ≡ false }
    ensures { PutText (writing O.Sink out.old out.new) (printed_answer names.now answer.now steps)
        result }
{
    match names {
        None => print_answer(alloc, out, answer, steps),
        Some(naming) => {
            let names = Names {
                program: &naming.program,
                steps,
                lines: &naming.ended.lines,
            };
            print_named(alloc, out, &names, answer)
        }
    }
}

/// Prints an answer as records, or as it is told without, or a beginning of it where the sink
/// fails. Nothing is printed before memory for all of it was found.
pub fn print_styled<O: Sink>(
    alloc: Global,
    out: &mut O,
    csv: bool,
    spelled: &Spelled,
    answer: &RunAnswer,
) -> Result<(), PrintFault>
    requires { O.has_failed out.old ≡ false }
    ensures { PutText (writing O.Sink out.old out.new)
        (styled csv spelled.now.names answer.now spelled.now.job.steps) result }
{
    if csv {
        return print_recorded(alloc, out, &spelled.names, spelled.job.steps(), answer);
    }
    print_told(alloc, out, spelled, answer)
}

// Prints the answer of a job of so many steps by these names, with its cells as records.
fn print_recorded<O: Sink>(
    alloc: Global,
    out: &mut O,
    names: &Option<Naming>,
    steps: u32,
    answer: &RunAnswer,
) -> Result<(), PrintFault>
    requires { O.has_failed out.old ≡ false }
    ensures { PutText (writing O.Sink out.old out.new) (recorded names.now answer.now steps)
        result }
{
    match names {
        None => print_cells(alloc, out, answer, steps),
        Some(naming) => {
            let names = Names {
                program: &naming.program,
                steps,
                lines: &naming.ended.lines,
            };
            print_records(alloc, out, &names, answer)
        }
    }
}

/// What the instructions of the job of a text came from.
pub fn origin_of<'a>(text: &'a [u8], names: &'a Option<Naming>) -> Origin<'a>
    ensures { line_in result ≡ line_at text.now names.now }
{
    match names {
        None => Origin::Text(text),
        Some(naming) => Origin::Lines(naming.numbers.as_slice()),
    }
}

/// The numbers of the lines that the instructions of a program's job came from.
pub(crate) fn lines_of(spelled: &Spelled) -> Option<&[u64]>
    ensures { option_copied result ≡ (row_words spelled.now.names).lines }
{
    let naming = spelled.names.as_ref()?;
    Some(naming.numbers.as_slice())
}
