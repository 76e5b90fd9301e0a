//! How large a block of processors is.
ghost use Rattle.std.specs.Prelude.{◌≤◌};

/// How many processors a leaf of a run's board stands for: a power of two from 1 to 64.
#[derive(Clone, Copy, Debug, PartialEq, Eq)]
pub struct Block {
    pub exponent: u32,
    pub ghost most: { exponent ≤ 6 },
}

impl Block {
    ghost use Rattle.std.specs.Prelude.{◌≡◌, None, IfSome};
    ghost use Rattle.command_data.specs.Manner.{IsGrain, size_of};

    /// The block of so many processors, if that is a power of two from 1 to 64.
    pub fn of(size: u32) -> Option<Block>
        ensures some { IfSome result (λ block. size_of block ≡ size) }
        ensures none { result ≡ None → ¬ IsGrain size }
    {
        if size == 0 || size > 64 {
            return None;
        }
        let exponent = size.ilog2();
        if size != 1 << exponent {
            return None;
        }
        Some(Block { exponent })
    }

    /// How many processors it has.
    pub fn size(self) -> u32
        ensures value { result ≡ size_of self }
        ensures grain { IsGrain result }
    {
        1 << self.exponent
    }
}
