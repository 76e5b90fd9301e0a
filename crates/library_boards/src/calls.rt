//! What calls of another language do with a member.
ghost use Rattle.std.specs.Prelude.{◌≡◌, ◌≢◌, ◌⊎◌, ◌<◌, ◌≤◌, IfErr, IfOk, IsTrue};
ghost use Rattle.library_boards.specs.Calls.{HasComeBack, HasWorked, IsFaultTold};
ghost use Rattle.library_boards.specs.Calls.{IsNoWorkerStatus, IsOpenStatus, IsPut};
ghost use Rattle.library_boards.specs.Calls.{TellsMemberProgress};
ghost use Rattle.library_boards.specs.Calls.{WasReadTold, buffer_front, status_of_fault};
ghost use Rattle.library_boards.specs.Calls.{status_of_stay};
ghost use Rattle.library_boards.specs.Grains.{IsGrainAsked};
ghost use Rattle.library_boards.specs.Jobs.{IsJobOf, IsUncountedJobOf};
ghost use Rattle.library_boards.specs.Members.{MemberGoesOn, IsMember, IsOpenedFor, IsReaderAt};
ghost use Rattle.library_boards.specs.Members.{IsWorkerAt, NoStopIsKnown, NoneIsKnown};
ghost use Rattle.library_boards.specs.Members.{StepsAreLeft, by_limit, by_turns, job_at, shared_at};
ghost use Rattle.pram_board.specs.Stops.{StopsThere};
ghost use Rattle.library_boards.specs.declared.status.TheConstants.{CONFLICT, DONE, FAILED};
ghost use Rattle.library_boards.specs.declared.status.TheConstants.{MEMORY, UNFINISHED};

use crate::job::OpenFault;
use crate::member::Member;
use crate::status::{CONFLICT, DONE, FAILED, MEMORY, REFUSED, UNFINISHED};
use crate::told::{FaultTold, ProgressTold, ReadingTold, StopTold};
use command_data::Block;
use pardo_job::{JobFault, JobKind, Refusal};
use pardo_text::{PardoFault, PardoKind};
use pram_board::Stay;
use pram_text::{TextFault, TextKind};
use std::alloc::Global;
use walkx::{Ended, Reading};

/// A reader at a new board, on the heap, or the status that says why there is none.
pub fn open(
    alloc: Global,
    text: &[u8],
    workers: u32,
    grain: u32,
) -> Result<Box<Member, Global>, u32>
    ensures opened { IfOk result (λ boxed.
        IsOpenedFor (IsJobOf text.now) workers grain boxed.value) }
    ensures status { IfErr result (IsOpenStatus text.now workers grain) }
    ensures undone { IfErr result (λ status. status ≢ DONE) }
{
    if workers < 1 || workers > 64 || !is_grain(grain) {
        return Err(FAILED);
    }
    match Member::open(alloc, text, workers, grain) {
        Ok(member) => put_on_heap(alloc, member),
        Err(fault) => Err(fault_status(fault)),
    }
}

/// The same, where a program's steps are not counted.
pub fn open_uncounted(
    alloc: Global,
    text: &[u8],
    workers: u32,
    grain: u32,
) -> Result<Box<Member, Global>, u32>
    ensures opened { IfOk result (λ boxed.
        IsOpenedFor (IsUncountedJobOf text.now) workers grain boxed.value) }
    ensures status { IfErr result (IsOpenStatus text.now workers grain) }
    ensures undone { IfErr result (λ status. status ≢ DONE) }
{
    if workers < 1 || workers > 64 || !is_grain(grain) {
        return Err(FAILED);
    }
    match Member::open_uncounted(alloc, text, workers, grain) {
        Ok(member) => put_on_heap(alloc, member),
        Err(fault) => Err(fault_status(fault)),
    }
}

// Whether a leaf may stand for so many processors, or the board is to choose.
pub(crate) fn is_grain(grain: u32) -> bool
    ensures yes { IsTrue result → IsGrainAsked grain }
    ensures no { IsGrainAsked grain → IsTrue result }
{
    if grain == 0 {
        return true;
    }
    match Block::of(grain) {
        Some(block) => block.size() == grain,
        None => false,
    }
}

pub(crate) fn fault_status(fault: OpenFault) -> u32
    ensures status { result ≡ status_of_fault fault }
    ensures undone { result ≢ DONE }
{
    match fault {
        OpenFault::Text(
            TextFault {
                kind: TextKind::Memory,
                ..
            },
        ) => MEMORY,
        OpenFault::Program(
            Refusal::Text(
                PardoFault {
                    kind: PardoKind::Memory,
                    ..
                },
            ),
        ) => MEMORY,
        OpenFault::Program(
            Refusal::Job(
                JobFault {
                    kind: JobKind::Memory,
                    ..
                },
            ),
        ) => MEMORY,
        OpenFault::Text(_) | OpenFault::Program(_) => REFUSED,
        OpenFault::Memory => MEMORY,
    }
}

/// A reader at the member's board, on the heap, or the status that says why there is none.
pub fn reader(member: &Member, alloc: Global) -> Result<Box<Member, Global>, u32>
    ensures made { IfOk result (λ boxed. IsReaderAt (shared_at member.now) boxed.value) }
    ensures memory { IfErr result (λ status. status ≡ MEMORY) }
{
    match member.reader() {
        Ok(made) => put_on_heap(alloc, made),
        Err(_) => Err(MEMORY),
    }
}

/// A worker of this number at the member's board, on the heap, or the status that says why there is
/// none.
pub fn worker(member: &Member, alloc: Global, number: u32) -> Result<Box<Member, Global>, u32>
    ensures made { IfOk result (λ boxed. IsWorkerAt (shared_at member.now) number boxed.value) }
    ensures status { IfErr result (IsNoWorkerStatus (shared_at member.now).workers number) }
    ensures undone { IfErr result (λ status. status ≢ DONE) }
{
    if number >= member.shared.workers {
        return Err(FAILED);
    }
    match member.worker(alloc, number) {
        Ok(made) => put_on_heap(alloc, made),
        Err(_) => Err(MEMORY),
    }
}

pub(crate) fn put_on_heap(alloc: Global, member: Member) -> Result<Box<Member, Global>, u32>
    ensures put { IfOk result (λ boxed. boxed.value ≡ member) }
    ensures memory { IfErr result (λ status. status ≡ MEMORY) }
{
    match Box::new(alloc, member) {
        Ok(boxed) => Ok(boxed),
        Err(_) => Err(MEMORY),
    }
}

/// At most so many atomic steps of the member's worker.
pub fn work(member: &mut Member, limit: u64) -> u32
    requires { IsMember member.old }
    ensures { HasWorked (by_limit limit) result member.old member.new }
{
    stay_status(member.work(limit))
}

/// At least so many, by whole turns.
pub fn turns(member: &mut Member, least: u64) -> u32
    requires { IsMember member.old }
    ensures { HasWorked (by_turns least) result member.old member.new }
{
    stay_status(member.turns(least))
}

fn stay_status(stay: Option<Stay>) -> u32
    ensures { result ≡ status_of_stay stay }
{
    match stay {
        None => FAILED,
        Some(Stay::Ended(Ended::Done)) => DONE,
        Some(Stay::Ended(Ended::Conflict(_))) => CONFLICT,
        Some(Stay::Stopped) => UNFINISHED,
    }
}

/// The member's worker comes back.
pub fn back(member: &mut Member, alloc: Global) -> u32
    requires { IsMember member.old }
    ensures { HasComeBack result member.old member.new }
{
    if member.back(alloc) { DONE } else { FAILED }
}

/// How far the steps are finished.
pub fn progress(member: &mut Member) -> ProgressTold
    requires { IsMember member.old }
    ensures { TellsMemberProgress result member.old member.new }
{
    let found = member.progress();
    ProgressTold {
        step: found.step,
        steps: member.shared.steps,
        conflict: found.conflict.unwrap_or(0),
        cells: member.shared.cells,
    }
}

/// What a cell held after a step, if there is such a cell.
pub fn read(member: &mut Member, cell: u32, told: &mut ReadingTold) -> u32
    requires { IsMember member.old }
    ensures read { cell < (shared_at member.old).cells →
        (result ≡ DONE) × WasReadTold cell told.new member.old member.new }
    ensures none { (shared_at member.old).cells ≤ cell →
        (result ≡ FAILED) × (told.new ≡ told.old) × (member.new ≡ member.old) }
    ensures member { IsMember member.new }
{
    if cell >= member.shared.cells {
        return FAILED;
    }
    let Reading::At { step, value } = member.read(cell);
    *told = ReadingTold { step, value };
    DONE
}

/// Puts the final memory to the front of the cells, as much as there is room for.
pub fn memory(member: &mut Member, alloc: Global, cells: &mut [u32]) -> u32
    requires { IsMember member.old }
    ensures put { result ≡ DONE → IsPut cells.old cells.new member.old member.new }
    ensures left { result ≡ UNFINISHED → StepsAreLeft member.old member.new }
    ensures ends { (result ≡ DONE) ⊎ ((result ≡ UNFINISHED) ⊎ (result ≡ MEMORY)) }
    ensures kept { result ≢ DONE → cells.new ≡ cells.old }
    ensures goes_on { MemberGoesOn member.old member.new }
{
    match member.memory(alloc) {
        Ok(Some(found)) => {
            put_front(found.as_slice(), cells);
            DONE
        }
        Ok(None) => UNFINISHED,
        Err(_) => MEMORY,
    }
}

// Puts numbers to the front of a buffer, as many as there is room for.
fn put_front(numbers: &[u32], buffer: &mut [u32])
    ensures { buffer.new ≡ buffer_front numbers.now buffer.old }
{
    if numbers.len() > buffer.len() {
        buffer.copy_from_slice(&numbers[..buffer.len()]);
    } else {
        buffer[..numbers.len()].copy_from_slice(numbers);
    }
}

/// The first step that is against the rule, and who disputes what in it, if one is known.
pub fn fault(member: &mut Member, alloc: Global, told: &mut FaultTold) -> u32
    requires { IsMember member.old }
    ensures fault { result ≡ CONFLICT → IsFaultTold told.new member.old member.new }
    ensures none { result ≡ UNFINISHED → NoneIsKnown member.old member.new }
    ensures ends { (result ≡ CONFLICT) ⊎ ((result ≡ UNFINISHED) ⊎ (result ≡ MEMORY)) }
    ensures kept { result ≢ CONFLICT → told.new ≡ told.old }
    ensures goes_on { MemberGoesOn member.old member.new }
{
    match member.fault(alloc) {
        Ok(Some(fault)) => {
            *told = FaultTold {
                step: fault.step,
                cell: fault.cell,
                first: fault.first,
                second: fault.second,
            };
            CONFLICT
        }
        Ok(None) => UNFINISHED,
        Err(_) => MEMORY,
    }
}

/// After which step all processors had stopped, if the board tells that.
pub fn stop(member: &mut Member, told: &mut StopTold) -> u32
    requires { IsMember member.old }
    ensures stops { result ≡ DONE → StopsThere (job_at member.old) told.new.step }
    ensures none { result ≡ UNFINISHED → NoStopIsKnown member.old member.new }
    ensures ends { (result ≡ DONE) ⊎ (result ≡ UNFINISHED) }
    ensures kept { result ≢ DONE → told.new ≡ told.old }
    ensures goes_on { MemberGoesOn member.old member.new }
{
    match member.stop() {
        Some(step) => {
            *told = StopTold { step };
            DONE
        }
        None => UNFINISHED,
    }
}
