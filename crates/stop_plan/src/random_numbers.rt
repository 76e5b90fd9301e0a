//! Random numbers.
ghost use Rattle.std.specs.Prelude.{◌≡◌, ◌<◌};
ghost use Rattle.stop_plan.specs.Random.{next_number, pick};

/// A linear congruential generator, and the last of its numbers.
#[derive(Clone, Copy)]
pub(crate) struct Numbers {
    pub number: u32,
}

impl Numbers {
    /// One of so many, by the next number.
    #[tactic(auto, unfolding(crate::specs::Random::next_number))]
    pub(crate) fn pick(&mut self, many: u32) -> u32
        requires { 0 < many }
        ensures next { self.new.number ≡ next_number self.old.number }
        ensures picked { result ≡ pick many self.new.number }
    {
        self.number = self
            .number
            .wrapping_mul(1_664_525)
            .wrapping_add(1_013_904_223);
        (self.number >> 16) % many
    }
}
