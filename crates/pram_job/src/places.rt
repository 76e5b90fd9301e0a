//! The places of the machine: cells, then four registers of each processor, then the counters.
ghost use Rattle.std.specs.Prelude.{◌≡◌, ◌+◌, ◌*◌, ◌<◌, ◌^◌};
ghost use Rattle.pram_job.specs.Places.{register_at, counters_at};

/// The place of a register, where there are so many cells.
#[inline(always)]
pub fn register_at(cells: u32, processor: u32, register: u32) -> u32
    requires { register_at cells processor register < 2 ^ 32 }
    ensures { result ≡ register_at cells processor register }
{
    cells + 4 * processor + register
}

/// The place of the first counter, where there are so many cells and processors.
#[inline(always)]
pub fn counters_at(cells: u32, procs: u32) -> u32
    requires { counters_at cells procs < 2 ^ 32 }
    ensures { result ≡ counters_at cells procs }
{
    cells + 4 * procs
}
