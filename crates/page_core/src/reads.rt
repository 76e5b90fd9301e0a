//! The cells of a board as readers get them.
ghost use Rattle.std.specs.Prelude.{◌≡◌, ◌<◌, ◌≤◌, length};
ghost use Rattle.page_core.specs.Answers.{AreRead, AreReadsTold, read_in};
ghost use Rattle.page_core.specs.Findings.{IsKeptBehind, count_written};

use crate::finding::Finding;
use pram_world::World;
use walkx::{ReadOp, Reader, Reading};

/// What a reader of a cell answers: it held this value after this step.
#[repr(C)]
#[derive(Clone, Copy)]
pub struct ReadRow {
    pub step: u32,
    pub value: u32,
}

/// Tells what a reader of each cell answers that makes its loads on this board, before any further
/// event.
pub fn reads(world: &World, cells: &mut [ReadRow]) -> Finding
    ensures read { AreReadsTold world.now cells.old cells.new result }
    ensures behind { IsKeptBehind (count_written result) cells.old cells.new }
{
    let count = u64::from(world.job().cells());
    if cells.len() < world.job().cells() as usize {
        return Finding::NoRoom { needed: count };
    }
    write_reads(world, cells);
    Finding::Done { step: 0, count }
}

// What a reader of each cell answers is written to the front of the rows.
fn write_reads(world: &World, rows: &mut [ReadRow])
    requires { world.now.job.cells ≤ length rows.old }
    ensures read { AreRead world.now rows.new }
    ensures behind { IsKeptBehind world.now.job.cells rows.old rows.new }
{
    world.facts();
    for cell in 0..world.job().cells() {
        rows[cell as usize] = read(world, cell);
    }
}

// A reader's own loads.
fn read(world: &World, cell: u32) -> ReadRow
    requires { cell < world.now.job.cells }
    ensures { result ≡ read_in world.now cell }
{
    world.facts();
    let mut reader = Reader::new(cell);
    loop {
        match reader.ask(world.layout()) {
            ReadOp::Over(Reading::At { step, value }) => return ReadRow { step, value },
            ReadOp::Load(word) => {
                let found = world.load(word);
                reader.tell(world.job(), world.layout(), found);
            }
        }
    }
}
