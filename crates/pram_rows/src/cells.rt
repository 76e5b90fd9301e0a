//! The final cells of a job, printed.
ghost use Rattle.std.specs.Prelude.{◌≡◌, ◌++◌, ◌↔◌, false, string_bytes};
ghost use Rattle.std.specs.Prelude.{IfOk, OnOk, IsErrOf, IsTrue, codes};
ghost use Rattle.std.specs.Io.KnownBytes.{Appends};
ghost use Rattle.pram_streams.specs.Transfer.{AppendsBeginning};
ghost use Rattle.pram_rows.specs.Cells.{answer_records, cell_records};

use pram_step::RunAnswer;
use pram_streams::{PrintFault, Sink, print_answer, put};
use std::alloc::{AllocError, Global};

/// Prints the answer of a job of so many steps, its cells as records, or a beginning of it where
/// the sink fails. Nothing is printed before memory for all of it was found.
pub fn print_cells<W: Sink>(
    alloc: Global,
    sink: &mut W,
    answer: &RunAnswer,
    steps: u32,
) -> Result<(), PrintFault>
    requires { W.has_failed sink.old ≡ false }
    ensures ok { OnOk result (Appends (W.taken sink.old) (W.taken sink.new)
        (answer_records answer.now steps)) }
    ensures beginning { AppendsBeginning (W.taken sink.old) (W.taken sink.new)
        (answer_records answer.now steps) }
    ensures memory { IsErrOf result PrintFault.Memory → sink.new ≡ sink.old }
    ensures failed { IsTrue (W.has_failed sink.new) ↔ IsErrOf result PrintFault.Device }
{
    match answer {
        RunAnswer::Final(cells) => {
            let text = cells_text(alloc, cells.as_slice())?;
            put(sink, text.as_bytes())?;
            Ok(())
        }
        RunAnswer::Conflict(_) => print_answer(alloc, sink, answer, steps),
        RunAnswer::Unfinished { .. } => print_answer(alloc, sink, answer, steps),
    }
}

fn cells_text(alloc: Global, values: &[u32]) -> Result<String, AllocError>
    ensures { IfOk result (λ text. string_bytes text
        ≡ codes "cell,value\n" ++ cell_records 0 values.now) }
{
    let mut text = format!(in alloc; "cell,value\n")?;
    push_cells(&mut text, values)?;
    Ok(text)
}

fn push_cells(text: &mut String, values: &[u32]) -> Result<(), AllocError>
    ensures { OnOk result (string_bytes text.new
        ≡ string_bytes text.old ++ cell_records 0 values.now) }
{
    for (cell, value) in values.iter().enumerate() {
        writeln!(text, "{cell},{value}")?;
    }
    Ok(())
}
