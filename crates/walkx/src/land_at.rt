//! A lane that settles.
ghost use Rattle.std.specs.Prelude.{◌<◌};

/// A lane, and the register whose word tells the step, or none where that of the counter does.
#[derive(Clone, Copy)]
pub struct Landing {
    pub lane: usize,
    pub tells: Option<u8>,
    ghost row: { lane < 64 },
}

/// A lane, and the register that takes a value.
#[derive(Clone, Copy)]
pub struct Taking {
    pub lane: usize,
    pub register: u8,
    pub value: u32,
    ghost row: { lane < 64 },
    ghost four: { register < 4 },
}
