//! The code of lines. After each line all processors that are not gone stand at one place.
ghost use Rattle.std.specs.Prelude.{◌≡◌, ◌+◌, ◌<◌, ◌≤◌, ◌^◌, ◌∷◌, [], ◌++◌, true, length};
ghost use Rattle.std.specs.Prelude.{slice_index, vec_len};
ghost use Rattle.pram_job.specs.declared.limits.TheConstants.{MAX_CODE as MOST};
ghost use Rattle.pram_job.specs.declared.instr.Instr.TheVariants.{Jz as JzTo, Jmp as JmpTo};
ghost use Rattle.pardo_program.specs.Lawful.{IsLine, IsProgram, IsStatement, bounds_of};
ghost use Rattle.pardo_flat.specs.Layouts.{program_layout};
ghost use Rattle.pardo_job.specs.Inner.Emitting.{PutsCode};
ghost use Rattle.pardo_job.specs.Inner.Pieces.{PutsLine, choice_code, rest_code, under};
ghost use Rattle.pardo_job.specs.Lines.{choosing, no_code, line_code, loop_end, masked, next_value};
ghost use Rattle.pardo_job.specs.Lines.{others};
ghost use Rattle.pardo_job.specs.Operations.{is_shallow};

use crate::fault::JobKind;
use crate::operations::{put, put_each};
use crate::pieces::{
    none_test, own_load, own_store, put_all, put_assignment, put_condition, put_first_value,
    put_while_test,
};
use crate::values::put_value;
use pardo_flat::Layout;
use pardo_text::{Line, Program, Statement};
use pram_job::limits::MAX_CODE;
use pram_job::{Instr, Operand};
use std::alloc::Global;

/// A program with the layout of its cells, and the places of its lines in the code, as far as they
/// are known.
#[derive(Drop)]
pub(crate) struct Listing<'p> {
    pub(crate) program: &'p Program,
    pub(crate) layout: Layout,
    pub(crate) places: Vec<u32>,
    ghost laid_out: { layout ≡ program_layout program.now },
}

impl Listing<'_> {
    /// The code of a line.
    pub(crate) fn put_line(
        &self,
        code: &mut Vec<Instr>,
        alloc: Global,
        line: &Line,
    ) -> Result<(), JobKind>
        requires room { vec_len code.old ≤ MOST }
        requires program { IsProgram self.now.program.now }
        requires line { IsLine (bounds_of self.now.program.now) line.now }
        ensures { PutsLine code.old.items code.new.items result
            (line_code self.now.program.now (slice_index self.now.places.items)
            (length code.old.items) line.now.depth line.now.statement) }
    {
        let layout = &self.layout;
        let site = Site {
            layout,
            depth: line.depth,
        };
        match &line.statement {
            Statement::Assign(target, value) => {
                let mut body = Vec::new(alloc);
                put_assignment(&mut body, alloc, layout, target, value)?;
                site.put_masked(code, &body)
            }
            Statement::If(expr) => {
                let mut body = Vec::new(alloc);
                put_condition(&mut body, alloc, layout, expr)?;
                site.put_if(code, &body)
            }
            Statement::Else => site.put_else(code),
            Statement::EndIf => Ok(()),
            Statement::While(expr, end) => {
                let register = put_while_test(code, alloc, layout, expr)?;
                put(code, Instr::Jz(register, self.place_after(*end)))
            }
            Statement::EndWhile(begin) => put(code, Instr::Jmp(self.place_of(*begin))),
            Statement::For(nest, first, last, up, end) => {
                let test = none_test(alloc, layout, first, last, *up)?;
                let mut start = Vec::new(alloc);
                put_first_value(&mut start, alloc, layout, *nest, first)?;
                put_loop(code, &test, &start, self.place_after(*end))
            }
            Statement::EndFor(begin) => {
                let first = &self.program.lines()[*begin].statement;
                self.put_turn(code, alloc, *begin, first)
            }
        }
    }

    // The end of a loop whose first line is this one: register 0 becomes its variable, and register
    // 1 is 0 in the last turn; else the next turn begins.
    #[tactic(auto, unfolding(crate::specs::Lines::turn_code))]
    fn put_turn(
        &self,
        code: &mut Vec<Instr>,
        alloc: Global,
        begin: usize,
        first: &Statement,
    ) -> Result<(), JobKind>
        requires { IsStatement (bounds_of self.now.program.now) first.now }
        ensures { PutsCode code.old.items code.new.items result
            (loop_end (program_layout self.now.program.now) (slice_index self.now.places.items)
            begin
            first.now) }
    {
        match first {
            Statement::For(nest, _, last, up, end) => {
                let variable = self.layout.loop_variable(*nest);
                put(code, own_load(0, variable))?;
                let held = put_value(code, alloc, &self.layout, 1, last)?;
                put_each(
                    code,
                    &[
                        Instr::Sub(1, 0, held.operand),
                        Instr::Jz(1, self.place_after(*end)),
                        next_turn(*up),
                        own_store(variable),
                        Instr::Jmp(self.place_after(begin)),
                    ],
                )
            }
            _ => Ok(()),
        }
    }

    /// The place after a line, or 0 where it is not known.
    pub(crate) fn place_after(&self, line: usize) -> u32
        ensures { result ≡ slice_index self.now.places.items (line + 1) }
    {
        if line >= self.places.len() {
            return 0;
        }
        self.place_of(line + 1)
    }

    // The place of a line, or 0 where it is not known.
    fn place_of(&self, line: usize) -> u32
        ensures { result ≡ slice_index self.now.places.items line }
    {
        self.places.get(line).copied().unwrap_or(0)
    }
}

// A place in the code of a line, so many `if`s being open there.
#[derive(Drop)]
struct Site<'l> {
    layout: &'l Layout,
    depth: usize,
    ghost within: { depth ≤ layout.now.choices },
}

impl Site<'_> {
    // What an active processor does, which takes the others as many steps.
    fn put_masked(&self, code: &mut Vec<Instr>, body: &[Instr]) -> Result<(), JobKind>
        requires room { vec_len code.old ≤ MOST }
        requires shallow { is_shallow body.now ≡ true }
        ensures { PutsLine code.old.items code.new.items result
            (masked self.now.layout.now (length code.old.items) self.now.depth body.now) }
    {
        if body.len() > MAX_CODE {
            return Err(JobKind::TooLong);
        }
        if self.depth == 0 {
            return put_all(code, body);
        }
        self.put_under(code, body)
    }

    // What an active processor does where an `if` is open, which takes the others as many steps.
    fn put_under(&self, code: &mut Vec<Instr>, body: &[Instr]) -> Result<(), JobKind>
        requires room { vec_len code.old + length body.now ≤ MOST + MOST }
        requires depth { 0 < self.now.depth }
        requires shallow { is_shallow body.now ≡ true }
        ensures { PutsCode code.old.items code.new.items result
            (under self.now.layout.now (length code.old.items) self.now.depth body.now) }
    {
        let at = code.len() as u32;
        let len = body.len() as u32;
        put_each(
            code,
            &[
                own_load(0, self.layout.mask(self.depth)),
                Instr::Jz(0, at + 3),
                Instr::Jmp(at + 4 + len),
            ],
        )?;
        put_idle(code, len)?;
        put(code, Instr::Jmp(at + 4 + 2 * len))?;
        put_all(code, body)
    }

    // The mask after an `if`, whose condition comes into register 0.
    fn put_if(&self, code: &mut Vec<Instr>, body: &[Instr]) -> Result<(), JobKind>
        requires room { vec_len code.old ≤ MOST }
        requires depth { self.now.depth < self.now.layout.now.choices }
        requires shallow { is_shallow body.now ≡ true }
        ensures { PutsLine code.old.items code.new.items result
            (choosing self.now.layout.now (length code.old.items) self.now.depth body.now) }
    {
        if body.len() > MAX_CODE {
            return Err(JobKind::TooLong);
        }
        self.put_choice(code, body)?;
        put(code, own_store(self.layout.inner_mask(self.depth)))
    }

    // The condition of active processors, and 0 of the others.
    fn put_choice(&self, code: &mut Vec<Instr>, body: &[Instr]) -> Result<(), JobKind>
        requires room { vec_len code.old + length body.now ≤ MOST + MOST }
        requires shallow { is_shallow body.now ≡ true }
        ensures { PutsCode code.old.items code.new.items result
            (choice_code self.now.layout.now (length code.old.items) self.now.depth body.now) }
    {
        if self.depth == 0 {
            return put_all(code, body);
        }
        let at = code.len() as u32;
        let len = body.len() as u32;
        put(code, own_load(0, self.layout.mask(self.depth)))?;
        put(code, Instr::Jz(0, at + 3 + len))?;
        put_all(code, body)?;
        put(code, Instr::Jmp(at + 4 + 2 * len))?;
        put_idle(code, len + 1)
    }

    // The mask after an `else`.
    #[tactic(auto, unfolding(crate::specs::Lines::others))]
    fn put_else(&self, code: &mut Vec<Instr>) -> Result<(), JobKind>
        requires { self.now.depth < self.now.layout.now.choices }
        ensures { PutsCode code.old.items code.new.items result
            (others self.now.layout.now self.now.depth) }
    {
        let mask = self.layout.inner_mask(self.depth);
        put(code, own_load(0, mask))?;
        self.put_rest(code)?;
        put(code, own_store(mask))
    }

    // Register 0 becomes 1 for those of the mask around that it is 0 for.
    fn put_rest(&self, code: &mut Vec<Instr>) -> Result<(), JobKind>
        requires { self.now.depth < self.now.layout.now.choices }
        ensures { PutsCode code.old.items code.new.items result
            (rest_code self.now.layout.now self.now.depth) }
    {
        if self.depth == 0 {
            return put(code, Instr::Eq(0, 0, Operand::Number(0)));
        }
        put(code, own_load(1, self.layout.mask(self.depth)))?;
        put(code, Instr::Lt(0, 0, Operand::Register(1)))
    }
}

// The first line of a loop: to the place after it where it has no turn.
fn put_loop(
    code: &mut Vec<Instr>,
    test: &[Instr],
    start: &[Instr],
    after: u32,
) -> Result<(), JobKind>
    requires room { vec_len code.old ≤ MOST }
    requires test { is_shallow test.now ≡ true }
    requires start { is_shallow start.now ≡ true }
    ensures { PutsLine code.old.items code.new.items result
        (test.now ++ JzTo 0 (length code.old.items + length test.now + 2)
        ∷ JmpTo after ∷ start.now) }
{
    if test.len() > MAX_CODE {
        return Err(JobKind::TooLong);
    }
    let at = (code.len() + test.len()) as u32;
    put_all(code, test)?;
    put_each(code, &[Instr::Jz(0, at + 2), Instr::Jmp(after)])?;
    put_all(code, start)
}

// Register 0 becomes the next value of a loop's variable.
fn next_turn(up: bool) -> Instr
    ensures { result ≡ next_value up }
{
    let one = Operand::Number(1);
    if up {
        Instr::Add(0, 0, one)
    } else {
        Instr::Sub(0, 0, one)
    }
}

// Puts instructions that do nothing, as many as the count says.
fn put_idle(code: &mut Vec<Instr>, count: u32) -> Result<(), JobKind>
    requires { vec_len code.old + count < 2 ^ 32 }
    ensures { PutsCode code.old.items code.new.items result
        (no_code (length code.old.items) count) }
{
    for _pad in 0..count {
        let next = code.len() as u32 + 1;
        put(code, Instr::Jmp(next))?;
    }
    Ok(())
}
