//! What a processor asks for in a step, worked out from what is its own.
ghost use Rattle.std.specs.Prelude.{◌≡◌, ◌<◌, length, slice_get, IfSome, MatchOption, None, Some};
ghost use Rattle.pram_job.specs.Job.{IsInstr};
ghost use Rattle.pram_machine.specs.Turns.{request_of};
ghost use Rattle.walk_memory.specs.Inner.Posts.{processor_of};
ghost use Rattle.walk_memory.specs.Memory.{asked_by, is_due, is_load};
ghost use Rattle.walk_memory.specs.Turned.{IsShaped};

use crate::memo::Own;
use crate::post::Leaf;
use pram_job::{Instr, Job};
use pram_machine::{Turn, decided_by};

/// The instruction at a counter, if there is one.
#[inline(always)]
pub fn fetch<'a>(leaf: &Leaf<'a>, counter: u32) -> Option<&'a Instr>
    ensures value { MatchOption result (slice_get leaf.now.job.code counter ≡ None)
        (λ instr. slice_get leaf.now.job.code counter ≡ Some instr.now) }
    ensures fits { IfSome result (λ instr. (counter < length leaf.now.job.code)
        × IsInstr leaf.now.job.cells (length leaf.now.job.code) instr.now) }
{
    leaf.job().code().get(counter as usize)
}

/// What it asks for, the cell having held this.
#[inline(always)]
pub fn turn_by(leaf: &Leaf, own: &Own, instr: &Instr, value: u32) -> Turn
    requires counter { own.now.counter < length leaf.now.job.code }
    requires instr { IsInstr leaf.now.job.cells (length leaf.now.job.code) instr.now }
    ensures value { request_of result ≡ asked_by leaf.now.job (processor_of leaf.now) own.now
        (Some instr.now) value }
    ensures shape { IsShaped leaf.now.job (processor_of leaf.now) result }
{
    turn_of(leaf.job(), leaf.processor(), own, instr, value)
}

/// The same of processor i.
#[inline(always)]
pub fn turn_of(job: &Job, i: u32, own: &Own, instr: &Instr, value: u32) -> Turn
    requires processor { i < job.now.procs }
    requires counter { own.now.counter < length job.now.code }
    requires instr { IsInstr job.now.cells (length job.now.code) instr.now }
    ensures value { request_of result ≡ asked_by job.now i own.now (Some instr.now) value }
    ensures shape { IsShaped job.now i result }
{
    decided_by(job, i, own.counter, instr, &own.registers, value)
}

/// The instruction is a load.
#[inline(always)]
pub fn is_load(instr: &Instr) -> bool
    ensures { result ≡ is_load (Some instr.now) }
{
    matches!(*instr, Instr::Ld(_, _))
}

/// Words that were last written in one step are due in the other.
#[inline(always)]
pub fn is_due(since: u32, step: u32) -> bool
    ensures { result ≡ is_due since step }
{
    step.saturating_sub(since) >= 64
}
