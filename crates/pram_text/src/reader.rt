//! Reads a text line by line.
ghost use Rattle.std.specs.Prelude.{◌≡◌, ◌≢◌, ◌≤◌, ℕ, [], List, IfOk, IfErr, vec_len};
ghost use Rattle.pram_job.specs.Job.{IsJob};
ghost use Rattle.text_lines.specs.Lines.{Line, words_of};
ghost use Rattle.pram_text.specs.Inner.Reading.{FinishesJob, HoldsLines, HoldsAt};
ghost use Rattle.pram_text.specs.Inner.Reading.{TakesInLine, TakesWords, job_of_head, numbers_of};
ghost use Rattle.pram_text.specs.Text.{IsRefusal, Spells};

use crate::fault::{TextFault, TextKind};
use crate::head::{Head, Next};
use crate::header::is_code_line;
use crate::program::Program;
use crate::start::{Setup, start_values};
use crate::statement::Names;
use pram_job::{Instr, Job};
use std::alloc::Global;
use text_lines::{TextLines, has_words, is_lawful};

/// The job that a text spells, or the first line that is wrong, and what is wrong with it.
///
/// The time is linear in the text, and in the number of cells that it asks for; each label and each
/// jump adds a search among at most 4,096 labels.
pub fn read_job(alloc: Global, text: &[u8]) -> Result<Job, TextFault>
    ensures spells { IfOk result (λ job. Spells text.now job) }
    ensures bears { IfErr result (λ fault. IsRefusal text.now fault.line fault.kind) }
{
    let mut reader = Reader::new(alloc);
    let mut lines = TextLines::new(text);
    while let Some(line) = lines.take_line() {
        if let Err(kind) = reader.take(lines.number(), line) {
            return Err(refusal(lines.number(), kind));
        }
    }
    reader.finish(lines.number())
}

// The fault of a line. Out of memory it is no line's.
fn refusal(line: u64, kind: TextKind) -> TextFault
    ensures kind { result.kind ≡ kind }
    ensures line { kind ≢ TextKind.Memory → result.line ≡ line }
    ensures memory { kind ≡ TextKind.Memory → result.line ≡ 0 }
{
    let line = match kind {
        TextKind::Memory => 0,
        _ => line,
    };
    TextFault { line, kind }
}

// What the lines so far say.
#[derive(Drop)]
struct Reader<'t> {
    head: Head,
    setup: Setup<'t>,
    program: Program<'t>,
}

impl<'t> Reader<'t> {
    // A reader that has read nothing.
    fn new(alloc: Global) -> Self
        ensures held { HoldsLines [] result }
        ensures numbers { numbers_of result.program ≡ [] }
    {
        Reader {
            head: Head::new(),
            setup: Setup::new(alloc),
            program: Program::new(alloc),
        }
    }

    // Reads one line more.
    fn take(&mut self, number: u64, line: &'t [u8]) -> Result<(), TextKind>
        requires { (before : List Line) × HoldsLines before self.old }
        ensures { (before : List Line) → HoldsLines before self.old
            → TakesInLine before line.now self.old number result self.new }
    {
        if !is_lawful(line) {
            Err(TextKind::NotAscii)
        } else if has_words(line) {
            self.take_words(number, line)
        } else {
            Ok(())
        }
    }

    // Reads one line more, with words.
    fn take_words(&mut self, number: u64, line: &'t [u8]) -> Result<(), TextKind>
        requires { (before : List Line) × HoldsLines before self.old }
        ensures { (before : List Line) → HoldsLines before self.old
            → TakesWords before (words_of line.now) self.old number result self.new }
    {
        match self.head.next {
            Next::Code => {
                let names = Names {
                    later: self.head.is_later(),
                    arrays: &self.setup.arrays,
                };
                self.program.take(number, line, &names)
            }
            Next::Start if is_code_line(line) => {
                self.head.next = Next::Code;
                Ok(())
            }
            Next::Start => {
                let later = self.head.is_later();
                self.setup.take(later, self.head.cells, line)
            }
            _ => {
                self.head = self.head.with(line)?;
                Ok(())
            }
        }
    }

    // The job that the lines spell, where all of them were read and the last one has this number.
    fn finish(self, last: u64) -> Result<Job, TextFault>
        requires { (before : List Line) × HoldsLines before self }
        ensures told { (before : List Line) → HoldsLines before self.entry
            → FinishesJob before (numbers_of self.entry.program) last result }
        ensures memory { IfErr result (λ fault. fault.kind ≡ TextKind.Memory → fault.line ≡ 0) }
    {
        let Next::Code = self.head.next else {
            return Err(TextFault {
                line: last,
                kind: TextKind::BadHeader,
            });
        };
        if self.program.written.is_empty() {
            return Err(TextFault {
                line: last,
                kind: TextKind::NoCode,
            });
        }
        self.job()
    }

    // The job that the lines spell, unless a jump leads to an unknown label.
    fn job(&self) -> Result<Job, TextFault>
        requires held { (before : List Line) × HoldsAt Next.Code before self.now }
        requires some { 1 ≤ vec_len self.now.program.written }
        ensures told { (before : List Line) (last : ℕ) → HoldsAt Next.Code before self.now
            → FinishesJob before (numbers_of self.now.program) last result }
        ensures memory { IfErr result (λ fault. fault.kind ≡ TextKind.Memory → fault.line ≡ 0) }
    {
        let code = self.program.code()?;
        let alloc = *self.setup.values.allocator();
        let init = start_values(alloc, &self.setup.values, self.head.cells)?;
        Ok(job_of(&self.head, init, code))
    }
}

// The job of a header, of start values and of instructions.
fn job_of(head: &Head, init: Vec<u32>, code: Vec<Instr>) -> Job
    requires { IsJob (job_of_head head.now init.items code.items) }
    ensures { result ≡ job_of_head head.now init.items code.items }
{
    Job::of_parts(head.rule, head.procs, head.steps, init, code)
}
