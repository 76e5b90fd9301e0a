//! Calls about a program of `pardo`.
ghost use Rattle.std.specs.Prelude.{[]};
ghost use Rattle.page_core.specs.Findings.{IsKeptBehind};
ghost use Rattle.page_core.specs.Programs.{AreLinesOf, AreNamesOf, AreToldOf, IsCompiledJobOf};
ghost use Rattle.page_core.specs.Programs.{IsNoProgram};
ghost use Rattle.page_core.specs.Programs.{bytes_told, rows_told};

use page_core::names::{CellsRow, take_names};
use page_core::program::{LineRow, ProgramTold, compiled, lines_of, put, put_rows, tell_none};
use std::alloc::Global;

/// Tells the job of the program that a text spells: a text of the machine that spells the job, and
/// the number of the line that each of its instructions came from, 0 for the first one. The program
/// is run, up to 1,048,576 steps.
#[unsafe(no_mangle)]
pub extern "C" fn pram_page_compile(
    alloc: Global,
    text: &[u8],
    job: &mut [u8],
    lines: &mut [u64],
    told: &mut ProgramTold,
)
    ensures told { AreToldOf (IsNoProgram text.now) (IsCompiledJobOf text.now) job.old lines.old
        job.new
        lines.new told.new }
    ensures job { IsKeptBehind (bytes_told told.new) job.old job.new }
    ensures lines { IsKeptBehind (rows_told told.new) lines.old lines.new }
{
    *told = match compiled(alloc, text) {
        Ok(made) => put(made.text.as_bytes(), made.numbers.as_slice(), job, lines),
        Err(why) => tell_none(why),
    };
}

/// Tells the lines of code of the program that a text spells, in their order.
#[unsafe(no_mangle)]
pub extern "C" fn pram_page_lines(
    alloc: Global,
    text: &[u8],
    lines: &mut [LineRow],
    told: &mut ProgramTold,
)
    ensures told { AreToldOf (IsNoProgram text.now) (AreLinesOf text.now) [] lines.old []
        lines.new told.new }
    ensures lines { IsKeptBehind (rows_told told.new) lines.old lines.new }
{
    *told = match lines_of(alloc, text) {
        Ok(rows) => put_rows(rows.as_slice(), lines),
        Err(why) => tell_none(why),
    };
}

/// Tells the names of the cells of the program that a text spells: the names one after the other,
/// and a row for each array and for each row of cells, in their order. Loops, masks and parts of
/// long lines have no names.
#[unsafe(no_mangle)]
pub extern "C" fn pram_page_names(
    alloc: Global,
    text: &[u8],
    names: &mut [u8],
    cells: &mut [CellsRow],
    told: &mut ProgramTold,
)
    ensures told { AreToldOf (IsNoProgram text.now) (AreNamesOf text.now) names.old cells.old
        names.new cells.new told.new }
    ensures names { IsKeptBehind (bytes_told told.new) names.old names.new }
    ensures cells { IsKeptBehind (rows_told told.new) cells.old cells.new }
{
    *told = match take_names(alloc, text) {
        Ok(found) => put(found.names.as_slice(), found.rows.as_slice(), names, cells),
        Err(why) => tell_none(why),
    };
}
