//! Reads that go out while they are made.
ghost use Rattle.std.specs.Prelude.{◌≡◌, ◌+◌, ◌≤◌, ◌↔◌, IsErrOf, IsTrue, false, length};
ghost use Rattle.std.specs.Prelude.{vec_len, vec_capacity};
ghost use Rattle.pram_run.specs.Inner.Obeying.{IsContinued};
ghost use Rattle.pram_run.specs.Inner.Reading.{PassedSights, PutAfter, ReadsRound};
ghost use Rattle.pram_run.specs.PutReads.{PutReads};
ghost use Rattle.pram_run.specs.Watching.{most_waiting};

use crate::cell_names::CellNames;
use crate::print::{begin_sights, put_sights};
use crate::shared::Shared;
use crate::sight::Sight;
use crate::watcher::read_round;
use pram_board::Seat;
use pram_streams::{PrintFault, Sink};
use std::alloc::Global;
use stop_plan::{Gate, Open};

/// Goes so many rounds through the cells, and prints what it reads, as `print_sights` prints it.
/// Where that fails, the rounds that are left are read at once: without printing, and without the
/// gate.
pub fn print_reads<G: Gate, W: Sink, C: CellNames>(
    shared: &Shared<'_, G>,
    seat: &mut Seat,
    sights: &mut Vec<Sight>,
    sink: &mut W,
    names: &C,
) -> Result<(), PrintFault>
    requires sink { W.has_failed sink.old ≡ false }
    requires seat { seat.old.desk ≡ shared.now.board.now }
    requires empty { vec_len sights.old ≡ 0 }
    requires room { most_waiting shared.now ≤ vec_capacity sights.old }
    ensures reads { PutReads (C.words names.now) shared.now seat.old seat.new
        (W.taken sink.old) (W.taken sink.new) result }
    ensures failed { IsTrue (W.has_failed sink.new) ↔ IsErrOf result PrintFault.Device }
    ensures goes_on { IsContinued seat.old seat.new }
{
    let mut printed = begin_sights(sink, names);
    let mut reads = 0u64;
    for _ in 0..shared.rounds {
        read_next(shared, printed.is_ok(), seat, reads, sights);
        reads = reads.saturating_add(shared.cells.len() as u64);
        printed = pass_sights(sink, printed, sights, shared.piece, names);
    }
    put_after(*sights.allocator(), sink, printed, sights.as_slice(), names)
}

// Reads each of the cells, past the gate or not.
fn read_next<G: Gate>(
    shared: &Shared<'_, G>,
    past_the_gate: bool,
    seat: &mut Seat,
    reads: u64,
    sights: &mut Vec<Sight>,
)
    requires seat { seat.old.desk ≡ shared.now.board.now }
    requires room { vec_len sights.old + length shared.now.cells.now
        ≤ vec_capacity sights.old }
    ensures desk { seat.new.desk ≡ shared.now.board.now }
    ensures reads { ReadsRound shared.now.board.now.task shared.now.cells.now
        sights.old.items seat.old sights.new.items seat.new }
    ensures capacity { vec_capacity sights.new ≡ vec_capacity sights.old }
{
    if past_the_gate {
        read_round(shared, shared.gate, seat, reads, sights);
        return;
    }
    read_round(shared, &Open, seat, reads, sights);
}

// Prints the sights and lets them go, once there are so many.
fn pass_sights<W: Sink, C: CellNames>(
    sink: &mut W,
    printed: Result<(), PrintFault>,
    sights: &mut Vec<Sight>,
    piece: usize,
    names: &C,
) -> Result<(), PrintFault>
    requires { IsTrue (W.has_failed sink.old) ↔ IsErrOf printed PrintFault.Device }
    ensures passed { PassedSights (C.words names.now) printed result (W.taken sink.old)
        (W.taken sink.new) sights.old.items sights.new.items }
    ensures failed { IsTrue (W.has_failed sink.new) ↔ IsErrOf result PrintFault.Device }
    ensures few { vec_len sights.new ≤ piece }
    ensures capacity { vec_capacity sights.new ≡ vec_capacity sights.old }
{
    if sights.len() < piece {
        return printed;
    }
    let printed = put_after(*sights.allocator(), sink, printed, sights.as_slice(), names);
    sights.clear();
    printed
}

// Prints the lines of sights, unless printing has failed.
fn put_after<W: Sink, C: CellNames>(
    alloc: Global,
    sink: &mut W,
    printed: Result<(), PrintFault>,
    sights: &[Sight],
    names: &C,
) -> Result<(), PrintFault>
    requires { IsTrue (W.has_failed sink.old) ↔ IsErrOf printed PrintFault.Device }
    ensures put { PutAfter (C.words names.now) printed result (W.taken sink.old)
        (W.taken sink.new) sights.now }
    ensures failed { IsTrue (W.has_failed sink.new) ↔ IsErrOf result PrintFault.Device }
{
    match printed {
        Ok(()) => put_sights(alloc, sink, sights, names),
        Err(fault) => Err(fault),
    }
}
