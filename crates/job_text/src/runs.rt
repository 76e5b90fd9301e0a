//! The start values of a job, in runs between the cells that hold 0.
ghost use Rattle.std.specs.Prelude.{◌≡◌, ◌+◌, ◌++◌, ◌∷◌, ◌==◌, length, string_bytes};
ghost use Rattle.std.specs.Prelude.{MatchOption, OnOk};
ghost use Rattle.std.specs.List.{position, slice_split};
ghost use Rattle.job_text.specs.Inner.Printing.{runs_after};
ghost use Rattle.job_text.specs.Printed.{init_lines, line_if_any, lines_text};

use std::alloc::AllocError;

/// Adds a line for each run.
pub(crate) fn push_runs(text: &mut String, init: &[u32]) -> Result<(), AllocError>
    ensures { OnOk result (string_bytes text.new
        ≡ string_bytes text.old ++ lines_text (init_lines init.now)) }
{
    let mut cell = 0;
    let mut rest = Some(init);
    while let Some(cells) = rest {
        let (run, after) = first_run(cells);
        push_run(text, cell, run)?;
        cell += run.len() + 1;
        rest = after;
    }
    Ok(())
}

// The first run, and what is after the 0 that ends it, if one does.
fn first_run(cells: &[u32]) -> (&[u32], Option<&[u32]>)
    ensures runs { slice_split (λ value. value == 0) cells.now
        ≡ result.0.now ∷ runs_after result.1 }
    ensures len { MatchOption result.1 (length result.0.now ≡ length cells.now)
        (λ rest. length result.0.now + 1 + length rest.now ≡ length cells.now) }
{
    match first_zero(cells) {
        None => (cells, None),
        Some(end) => {
            let (run, rest) = cells.split_at(end);
            (run, Some(&rest[1..]))
        }
    }
}

fn first_zero(cells: &[u32]) -> Option<usize>
    ensures { result ≡ position (λ value. value == 0) cells.now }
{
    cells.iter().position(|&value| value == 0)
}

// Adds the line of a run, unless it is empty.
fn push_run(text: &mut String, cell: usize, run: &[u32]) -> Result<(), AllocError>
    ensures { OnOk result (string_bytes text.new
        ≡ string_bytes text.old ++ lines_text (line_if_any cell run.now)) }
{
    if run.is_empty() {
        return Ok(());
    }
    write!(text, "init {cell}")?;
    for value in run {
        write!(text, " {value}")?;
    }
    text.push_str("\n")
}
