//! How many workers there are.
ghost use Rattle.std.specs.Prelude.{◌≤◌};

/// A number of workers, from 1 to 64.
#[derive(Clone, Copy, Debug, PartialEq, Eq)]
pub struct Workers {
    pub count: u32,
    pub ghost some: { 1 ≤ count },
    pub ghost most: { count ≤ 64 },
}
