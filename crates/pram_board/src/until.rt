//! How far a worker goes on.

/// How far a worker goes on, by ticks of its walk, looks apart.
#[derive(Clone, Copy, Debug)]
pub(crate) enum Until {
    /// To its end.
    End,
    /// To its end, or by so many ticks, one at a time.
    Most(u64),
    /// To its end, or to the end of the phase in which it has made so many ticks.
    Least(u64),
}

impl Until {
    ghost use Rattle.std.specs.Prelude.{◌≡◌};
    ghost use Rattle.std.specs.Option.{is_some};
    ghost use Rattle.pram_board.specs.Inner.Until.{is_reached, limit_in, until_of};

    /// To this limit, if there is one.
    pub(crate) fn of(limit: Option<u64>) -> Until
        ensures { result ≡ until_of limit }
    {
        match limit {
            None => Until::End,
            Some(most) => Until::Most(most),
        }
    }

    /// It goes on by one tick at a time.
    #[inline(always)]
    pub(crate) fn is_limited(self) -> bool
        ensures { result ≡ is_some (limit_in self) }
    {
        matches!(self, Until::Most(_))
    }

    /// It goes no further once it has made so many ticks.
    #[inline(always)]
    pub(crate) fn is_reached(self, ticks: u64) -> bool
        ensures { result ≡ is_reached self ticks }
    {
        match self {
            Until::End => false,
            Until::Most(most) => most == ticks,
            Until::Least(least) => least <= ticks,
        }
    }
}
