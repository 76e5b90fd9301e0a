//! Where processors of a block stand that stand together.
ghost use Rattle.std.specs.Prelude.{◌≡◌};

/// Where the processors of a block stand, and whether they have a store to carry out.
#[derive(Clone, Copy, Debug, PartialEq, Eq)]
pub struct Together {
    pub counter: u32,
    pub step: u32,
    pub settled: u32,
    pub stored: bool,
}

/// The lanes from start to end all stand there, and none of them acted in a later phase than this.
/// Nothing is known where end is 0.
#[derive(Clone, Copy, Debug, PartialEq, Eq)]
pub struct Standing {
    pub start: usize,
    pub end: usize,
    pub at: Together,
    pub acted: u64,
}

impl Standing {
    /// Nothing is known.
    #[inline(always)]
    pub fn none() -> Standing
        ensures { result.end ≡ 0 }
    {
        Standing {
            start: 0,
            end: 0,
            at: Together {
                counter: 0,
                step: 0,
                settled: 0,
                stored: false,
            },
            acted: 0,
        }
    }
}
