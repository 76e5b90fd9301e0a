//! The places of lines in the code, and the whole code.
ghost use Rattle.std.specs.Prelude.{◌≡◌, ◌≢◌, ◌<◌, ◌≤◌, [], length, IfOk, IfErr, slice_index};
ghost use Rattle.std.specs.Prelude.{vec_len};
ghost use Rattle.pram_job.specs.declared.limits.TheConstants.{MAX_CODE as MOST};
ghost use Rattle.pardo_program.specs.Lawful.{IsLine, IsProgram, bounds_of};
ghost use Rattle.pardo_job.specs.Inner.Listings.{AreAllPlaces, IsFaultAt, IsPlaceAfter};
ghost use Rattle.pardo_job.specs.Inner.Pieces.{PutsLine};
ghost use Rattle.pardo_job.specs.Lines.{code_of, line_code};
ghost use Rattle.pardo_job.specs.Refusals.{IsLinesFault, line_numbers};

use crate::fault::{JobFault, JobKind};
use crate::held::OWN;
use crate::lines::Listing;
use pardo_flat::Layout;
use pardo_text::{Line, Program};
use pram_job::Instr;
use pram_job::limits::MAX_CODE;
use std::alloc::{AllocError, Global};

impl<'p> Listing<'p> {
    /// The places of the lines of a program, unless one is too deep or too long.
    pub(crate) fn of(alloc: Global, program: &'p Program) -> Result<Self, JobFault>
        requires { IsProgram program.now }
        ensures program { IfOk result (λ listing. listing.program.now ≡ program.now) }
        ensures places { IfOk result (λ listing. AreAllPlaces program.now listing.places.items) }
        ensures refused { IfErr result (λ fault. IsLinesFault program.now fault.line fault.kind) }
    {
        let layout = Layout::of(alloc, program)?;
        let mut listing = Listing {
            program,
            layout,
            places: Vec::new(alloc),
        };
        listing.places = listing.find_places(alloc)?;
        Ok(listing)
    }

    // The place of each line, and that after the last one. The code begins with one instruction,
    // and has one after the lines.
    fn find_places(&self, alloc: Global) -> Result<Vec<u32>, JobFault>
        requires program { IsProgram self.now.program.now }
        requires unknown { self.now.places.items ≡ [] }
        ensures given { IfOk result (λ places.
            AreAllPlaces self.now.program.now places.items) }
        ensures refused { IfErr result (λ fault.
            IsLinesFault self.now.program.now fault.line fault.kind) }
    {
        let lines = self.program.lines();
        let mut code = Vec::new(alloc);
        let mut places = Vec::with_capacity(alloc, lines.len() + 1)?;
        let mut place = 1;
        places.push(place)?;
        for line in lines {
            code.clear();
            place = self.next_place(&mut code, alloc, line, place)?;
            places.push(place)?;
        }
        Ok(places)
    }

    // The place after a line that stands at this one.
    fn next_place(
        &self,
        code: &mut Vec<Instr>,
        alloc: Global,
        line: &Line,
        place: u32,
    ) -> Result<u32, JobFault>
        requires unknown { (self.now.places.items ≡ []) × (code.old.items ≡ []) }
        requires place { place < MOST }
        requires program { IsProgram self.now.program.now }
        requires line { IsLine (bounds_of self.now.program.now) line.now }
        ensures given { IfOk result (IsPlaceAfter self.now.program.now line.now place) }
        ensures refused { IfErr result (λ fault.
            IsFaultAt self.now.program.now line.now place fault.line fault.kind) }
    {
        match self.put_judged(code, alloc, line) {
            Ok(()) => (),
            Err(kind) => return Err(fault_of(line, kind)),
        }
        if place as usize + code.len() >= MAX_CODE {
            return Err(fault_of(line, JobKind::TooLong));
        }
        Ok(place + code.len() as u32)
    }

    // The code of a line, unless it is too long whatever else the line says.
    fn put_judged(&self, code: &mut Vec<Instr>, alloc: Global, line: &Line) -> Result<(), JobKind>
        requires room { vec_len code.old ≤ MOST }
        requires program { IsProgram self.now.program.now }
        requires line { IsLine (bounds_of self.now.program.now) line.now }
        ensures { PutsLine code.old.items code.new.items result
            (line_code self.now.program.now (slice_index self.now.places.items)
            (length code.old.items) line.now.depth line.now.statement) }
    {
        self.judge(alloc, line)?;
        self.put_line(code, alloc, line)
    }

    /// The code of the program.
    pub(crate) fn code(&self, alloc: Global) -> Result<Vec<Instr>, JobFault>
        requires program { IsProgram self.now.program.now }
        requires places { AreAllPlaces self.now.program.now self.now.places.items }
        ensures given { IfOk result (λ code. code.items ≡ code_of self.now.program.now) }
        ensures refused { IfErr result (λ fault.
            IsLinesFault self.now.program.now fault.line fault.kind) }
    {
        let mut code = Vec::new(alloc);
        code.push(Instr::Pid(OWN))?;
        for line in self.program.lines() {
            match self.put_line(&mut code, alloc, line) {
                Ok(()) => (),
                Err(kind) => return Err(fault_of(line, kind)),
            }
        }
        code.push(Instr::Halt)?;
        Ok(code)
    }

    /// The number of the text's line for each instruction.
    pub(crate) fn numbers(&self, alloc: Global) -> Result<Vec<u64>, AllocError>
        requires { AreAllPlaces self.now.program.now self.now.places.items }
        ensures { IfOk result (λ numbers. numbers.items ≡ line_numbers self.now.program.now) }
    {
        let mut numbers = Vec::new(alloc);
        let mut last = 0;
        numbers.push(last)?;
        for (index, line) in self.program.lines().iter().enumerate() {
            last = line.number;
            numbers.resize(self.place_after(index) as usize, last)?;
        }
        numbers.push(last)?;
        Ok(numbers)
    }
}

// The fault of a line. Out of memory it is no line's.
fn fault_of(line: &Line, kind: JobKind) -> JobFault
    ensures kind { result.kind ≡ kind }
    ensures line { kind ≢ JobKind.Memory → result.line ≡ line.now.number }
    ensures memory { kind ≡ JobKind.Memory → result.line ≡ 0 }
{
    let line = match kind {
        JobKind::Memory => 0,
        _ => line.number,
    };
    JobFault { line, kind }
}
