//! Some processors in a row.
ghost use Rattle.std.specs.Prelude.{◌+◌, ◌≤◌, ◌^◌};

/// How many lanes a row has.
pub const LANES: usize = 64;

/// Some lanes of a row: lane k is the processor first + k.
#[derive(Clone, Copy)]
pub struct Span {
    pub first: u32,
    pub start: usize,
    pub end: usize,
    ghost ordered: { start ≤ end },
    ghost within: { end ≤ 64 },
    ghost fits: { first + end ≤ 2 ^ 32 },
}
