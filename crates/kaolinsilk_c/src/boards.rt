//! Calls of boards. A handle is used by one call at a time.
ghost use Rattle.std.specs.Prelude.{◌≡◌, ◌≢◌, ◌<◌, ◌≤◌, None};
ghost use Rattle.library_boards.specs.Calls.{Between, HasComeBack, HasMade, HasOpened, HasWorked};
ghost use Rattle.library_boards.specs.Calls.{IsHeld, IsNoWorkerFor, IsOpenStatus};
ghost use Rattle.library_boards.specs.Calls.{TellsFault, TellsMemory, TellsMemberProgress};
ghost use Rattle.library_boards.specs.Calls.{TellsReading};
ghost use Rattle.library_boards.specs.Calls.{TellsStop};
ghost use Rattle.library_boards.specs.Givens.{IsGivenJob, IsGivenStatus};
ghost use Rattle.library_boards.specs.Jobs.{IsJobOf, IsUncountedJobOf};
ghost use Rattle.library_boards.specs.Members.{IsReaderAt, IsWorkerAt, by_limit, by_turns};
ghost use Rattle.library_boards.specs.declared.status.TheConstants.{DONE, MEMORY};

use library_boards::status::DONE;
use library_boards::{
    FaultTold, Given, Handle, ProgressTold, ReadingTold, StopTold, calls, open_with,
};
use std::alloc::Global;

/// Opens a board for the job of a text, and gives the handle of it.
#[unsafe(no_mangle)]
#[tactic(auto, using(crate::proofs::Passing::opened))]
pub extern "C" fn ks_open(
    alloc: Global,
    text: &[u8],
    workers: u32,
    grain: u32,
    board: &mut Handle,
) -> u32
    ensures opened { result ≡ DONE →
        HasOpened (IsJobOf text.now) workers grain board.new.member }
    ensures undone { result ≢ DONE → IsOpenStatus text.now workers grain result }
    ensures kept { result ≢ DONE → board.new ≡ board.old }
{
    match calls::open(alloc, text, workers, grain) {
        Ok(member) => {
            *board = Handle::of(member);
            DONE
        }
        Err(status) => status,
    }
}

/// Opens a board for the job of a text, and runs nothing before: where the text is a program, the
/// job has as many steps as one may take, and its workers are done once all processors have
/// stopped. `ks_stop` then tells after which step that was. A program that never ends is not
/// refused here.
#[unsafe(no_mangle)]
#[tactic(auto, using(crate::proofs::Passing::opened))]
pub extern "C" fn ks_open_uncounted(
    alloc: Global,
    text: &[u8],
    workers: u32,
    grain: u32,
    board: &mut Handle,
) -> u32
    ensures opened { result ≡ DONE →
        HasOpened (IsUncountedJobOf text.now) workers grain board.new.member }
    ensures undone { result ≢ DONE → IsOpenStatus text.now workers grain result }
    ensures kept { result ≢ DONE → board.new ≡ board.old }
{
    match calls::open_uncounted(alloc, text, workers, grain) {
        Ok(member) => {
            *board = Handle::of(member);
            DONE
        }
        Err(status) => status,
    }
}

/// Opens a board as `ks_open_uncounted` does, for the job of a text in which shared arrays and
/// scalars start with the values that are given, each by its name. Of a name that is given twice
/// the last counts. Neither the values nor what is given are kept.
#[unsafe(no_mangle)]
#[tactic(auto, using(crate::proofs::Passing::opened))]
pub extern "C" fn ks_open_with(
    alloc: Global,
    text: &[u8],
    workers: u32,
    grain: u32,
    given: &[Given<'_>],
    board: &mut Handle,
) -> u32
    ensures opened { result ≡ DONE →
        HasOpened (IsGivenJob text.now given.now) workers grain board.new.member }
    ensures undone { result ≢ DONE → IsGivenStatus text.now given.now workers grain result }
    ensures kept { result ≢ DONE → board.new ≡ board.old }
{
    match open_with(alloc, text, workers, grain, given) {
        Ok(member) => {
            *board = Handle::of(member);
            DONE
        }
        Err(status) => status,
    }
}

/// Gives the handle of a new reader at a board.
#[unsafe(no_mangle)]
pub extern "C" fn ks_seat_of(alloc: Global, board: &mut Handle, seat: &mut Handle) -> u32
    requires { IsHeld board.old.member }
    ensures board { board.new.member ≡ board.old.member }
    ensures made { result ≡ DONE → HasMade board.old.member IsReaderAt seat.new.member }
    ensures undone { result ≢ DONE → (result ≡ MEMORY) }
    ensures kept { result ≢ DONE → seat.new ≡ seat.old }
{
    let member = board.take(alloc);
    let made = calls::reader(&member, alloc);
    *board = Handle::of(member);
    match made {
        Ok(reader) => {
            *seat = Handle::of(reader);
            DONE
        }
        Err(status) => status,
    }
}

/// Gives the handle of a new worker at a board.
#[unsafe(no_mangle)]
pub extern "C" fn ks_worker_of(
    alloc: Global,
    board: &mut Handle,
    number: u32,
    worker: &mut Handle,
) -> u32
    requires { IsHeld board.old.member }
    ensures board { board.new.member ≡ board.old.member }
    ensures made { result ≡ DONE → HasMade board.old.member
        (λ shared. IsWorkerAt shared number) worker.new.member }
    ensures undone { result ≢ DONE → IsNoWorkerFor board.old.member number result }
    ensures kept { result ≢ DONE → worker.new ≡ worker.old }
{
    let member = board.take(alloc);
    let made = calls::worker(&member, alloc, number);
    *board = Handle::of(member);
    match made {
        Ok(made) => {
            *worker = Handle::of(made);
            DONE
        }
        Err(status) => status,
    }
}

/// Makes at most so many atomic steps of a worker, one by one. With the greatest number as limit,
/// UINT64_MAX, it makes all that are left, at full speed: in a twentieth of the time.
#[unsafe(no_mangle)]
pub extern "C" fn ks_work(alloc: Global, worker: &mut Handle, limit: u64) -> u32
    requires { IsHeld worker.old.member }
    ensures { Between worker.old.member worker.new.member (HasWorked (by_limit limit) result) }
{
    let mut member = worker.take(alloc);
    let status = calls::work(&mut member, limit);
    *worker = Handle::of(member);
    status
}

/// Makes at least so many atomic steps of a worker, at full speed, unless it is over before, and
/// stops at the end of a phase, of which each step of the job has three. A million take some
/// milliseconds, so who may have to stop calls it again and again.
#[unsafe(no_mangle)]
pub extern "C" fn ks_turns(alloc: Global, worker: &mut Handle, least: u64) -> u32
    requires { IsHeld worker.old.member }
    ensures { Between worker.old.member worker.new.member (HasWorked (by_turns least) result) }
{
    let mut member = worker.take(alloc);
    let status = calls::turns(&mut member, least);
    *worker = Handle::of(member);
    status
}

/// A worker loses all that it knew, and comes back.
#[unsafe(no_mangle)]
pub extern "C" fn ks_back(alloc: Global, worker: &mut Handle) -> u32
    requires { IsHeld worker.old.member }
    ensures { Between worker.old.member worker.new.member (HasComeBack result) }
{
    let mut member = worker.take(alloc);
    let status = calls::back(&mut member, alloc);
    *worker = Handle::of(member);
    status
}

/// Tells how far the steps are finished.
#[unsafe(no_mangle)]
pub extern "C" fn ks_progress(alloc: Global, seat: &mut Handle, progress: &mut ProgressTold) -> u32
    requires { IsHeld seat.old.member }
    ensures told { Between seat.old.member seat.new.member (TellsMemberProgress progress.new) }
    ensures done { result ≡ DONE }
{
    let mut member = seat.take(alloc);
    *progress = calls::progress(&mut member);
    *seat = Handle::of(member);
    DONE
}

/// Tells what a cell held after a finished step.
#[unsafe(no_mangle)]
pub extern "C" fn ks_read(
    alloc: Global,
    seat: &mut Handle,
    cell: u32,
    reading: &mut ReadingTold,
) -> u32
    requires { IsHeld seat.old.member }
    ensures { Between seat.old.member seat.new.member
        (TellsReading cell reading.old reading.new result) }
{
    let mut member = seat.take(alloc);
    let status = calls::read(&mut member, cell, reading);
    *seat = Handle::of(member);
    status
}

/// Puts the final memory to the front of the cells, as much as there is room for.
#[unsafe(no_mangle)]
pub extern "C" fn ks_memory(alloc: Global, seat: &mut Handle, cells: &mut [u32]) -> u32
    requires { IsHeld seat.old.member }
    ensures { Between seat.old.member seat.new.member (TellsMemory cells.old cells.new result) }
{
    let mut member = seat.take(alloc);
    let status = calls::memory(&mut member, alloc, cells);
    *seat = Handle::of(member);
    status
}

/// Tells after which step all processors had stopped, each at its end.
#[unsafe(no_mangle)]
pub extern "C" fn ks_stop(alloc: Global, seat: &mut Handle, stop: &mut StopTold) -> u32
    requires { IsHeld seat.old.member }
    ensures { Between seat.old.member seat.new.member (TellsStop stop.old stop.new result) }
{
    let mut member = seat.take(alloc);
    let status = calls::stop(&mut member, stop);
    *seat = Handle::of(member);
    status
}

/// Tells the first step that is against the rule, and who disputes what in it.
#[unsafe(no_mangle)]
pub extern "C" fn ks_fault(alloc: Global, seat: &mut Handle, fault: &mut FaultTold) -> u32
    requires { IsHeld seat.old.member }
    ensures { Between seat.old.member seat.new.member (TellsFault fault.old fault.new result) }
{
    let mut member = seat.take(alloc);
    let status = calls::fault(&mut member, alloc, fault);
    *seat = Handle::of(member);
    status
}

/// Closes a board: frees what is its handle's alone.
#[unsafe(no_mangle)]
pub extern "C" fn ks_close(alloc: Global, board: &mut Handle)
    requires { IsHeld board.old.member }
    ensures { board.new.member ≡ None }
{
    drop(board.take(alloc));
}

/// Closes a seat.
#[unsafe(no_mangle)]
pub extern "C" fn ks_close_seat(alloc: Global, seat: &mut Handle)
    requires { IsHeld seat.old.member }
    ensures { seat.new.member ≡ None }
{
    drop(seat.take(alloc));
}

/// Closes a worker.
#[unsafe(no_mangle)]
pub extern "C" fn ks_close_worker(alloc: Global, worker: &mut Handle)
    requires { IsHeld worker.old.member }
    ensures { worker.new.member ≡ None }
{
    drop(worker.take(alloc));
}
