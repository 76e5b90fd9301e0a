//! Who prints the answer of a run as it is heard, and what a watch reads.
ghost use Rattle.std.specs.Prelude.{◌≡◌, ◌↔◌, IsErrOf, IsTrue, false};
ghost use Rattle.pram_streams.specs.declared.print.PrintFault.TheVariants.{Device};
ghost use Rattle.pram_run.specs.PutReads.{PutWatch};
ghost use Rattle.naming.specs.Writing.{writing};
ghost use Rattle.pram_commands.specs.Inner.Hearing.{HasPrinted, HasToldEnd};
ghost use Rattle.pram_commands.specs.Inner.Puts.{outcome};
ghost use Rattle.pram_commands.specs.Inner.Watching.{HasPrintedAfter};
ghost use Rattle.naming.specs.Names.{AreNames};
ghost use Rattle.naming.specs.CellNames.{cell_words};

use crate::why::put_told;
use command_data::Style;
use naming::{Spelled, print_told};
use pram_board::Seat;
use pram_run::{Listener, Reads, Shared, Sight, print_reads};
use pram_step::RunAnswer;
use pram_streams::{PrintFault, Sink};
use std::alloc::{AllocError, Global};
use stop_plan::Gate;

/// Prints the answer of a job to an output in a style. It hands the output back with what came of
/// that.
#[derive(Drop)]
pub(crate) struct Printing<'a, O> {
    pub alloc: Global,
    pub style: Style,
    pub spelled: &'a Spelled,
    pub out: &'a mut O,
}

impl<'a, O: Sink> Listener for Printing<'a, O> {
    type Heard = (&'a mut O, Result<(), PrintFault>);

    ghost can_hear = { λ p. (O.has_failed p.out.now ≡ false)
        × AreNames p.spelled.now.text.items p.spelled.now.job p.spelled.now.names };

    ghost hears = { λ p ended heard. (heard.0.ghost_name ≡ p.out.ghost_name)
        × HasToldEnd p.style p.spelled.now.text.items p.spelled.now.job
        (writing O.Sink p.out.now heard.0.now) ended heard.1 };

    fn hear(self, ended: &Result<RunAnswer, AllocError>) -> (&'a mut O, Result<(), PrintFault>) {
        let Printing {
            alloc,
            style,
            spelled,
            out,
        } = self;
        let printed = match ended {
            Ok(answer) => put_told(alloc, out, style, spelled, answer),
            Err(AllocError) => Err(PrintFault::Memory),
        };
        (out, printed)
    }
}

/// Prints what a reader reads, and then the answer of a job, unless printing has failed.
#[derive(Drop)]
pub(crate) struct PrintingReads<'a, O> {
    pub alloc: Global,
    pub spelled: &'a Spelled,
    pub out: &'a mut O,
    pub printed: Result<(), PrintFault>,
}

impl<'a, O: Sink> Listener for PrintingReads<'a, O> {
    type Heard = (&'a mut O, Result<(), PrintFault>);

    ghost can_hear = { λ p. IsTrue (O.has_failed p.out.now) ↔ IsErrOf p.printed Device };

    ghost hears = { λ p ended heard. (heard.0.ghost_name ≡ p.out.ghost_name)
        × HasPrintedAfter p.printed (writing O.Sink p.out.now heard.0.now) p.spelled.now.names
        p.spelled.now.job.steps ended heard.1 };

    fn hear(self, ended: &Result<RunAnswer, AllocError>) -> (&'a mut O, Result<(), PrintFault>) {
        let PrintingReads {
            alloc,
            spelled,
            out,
            printed,
        } = self;
        let printed = match printed {
            Ok(()) => print_end(alloc, out, spelled, ended),
            Err(fault) => Err(fault),
        };
        (out, printed)
    }
}

impl<O: Sink> Reads for PrintingReads<'_, O> {
    ghost can_read = { λ p. O.has_failed p.out.now ≡ false };

    ghost reads = { λ p task cells rounds given later after.
        (after.out.ghost_name ≡ p.out.ghost_name) × (after.spelled ≡ p.spelled)
        × PutWatch (cell_words p.spelled.now.names) task cells rounds given later
        (O.taken p.out.now) (O.taken after.out.now) after.printed
        × (IsTrue (O.has_failed after.out.now) ↔ IsErrOf after.printed Device) };

    fn read<G: Gate>(
        self,
        shared: &Shared<'_, G>,
        seat: &mut Seat,
        sights: &mut Vec<Sight>,
    ) -> Self {
        let PrintingReads {
            alloc,
            spelled,
            out,
            ..
        } = self;
        let printed = print_reads(shared, seat, sights, out, spelled);
        PrintingReads {
            alloc,
            spelled,
            out,
            printed,
        }
    }
}

// Prints the answer of a job.
fn print_end<O: Sink>(
    alloc: Global,
    out: &mut O,
    spelled: &Spelled,
    ended: &Result<RunAnswer, AllocError>,
) -> Result<(), PrintFault>
    requires { O.has_failed out.old ≡ false }
    ensures { HasPrinted (writing O.Sink out.old out.new) spelled.now.names spelled.now.job.steps
        ended.now result }
{
    match ended {
        Ok(answer) => print_told(alloc, out, spelled, answer),
        Err(AllocError) => Err(PrintFault::Memory),
    }
}

/// What a run answers, of which was printed how it ended.
pub(crate) fn outcome(
    put: Result<(), PrintFault>,
    ended: Result<RunAnswer, AllocError>,
) -> Result<RunAnswer, PrintFault>
    ensures { result ≡ outcome put ended }
{
    put?;
    Ok(ended?)
}

/// Does nothing: the use of an output that was handed back ties it to the one that was lent.
pub(crate) fn take_back<O>(out: &mut O)
    ensures { out.new ≡ out.old }
{}
