//! Why a part of a script was left before its end.

/// The walk is held at an operation that has no answer yet.
#[derive(Clone, Copy, Debug, PartialEq, Eq)]
pub struct Stopped;

/// Why a part of a task was left.
#[derive(Clone, Copy, Debug, PartialEq, Eq)]
pub enum Left {
    /// The rest of the task is not for the worker: it is late, or the processor asks for nothing.
    Late,
    /// The walk is held.
    Held,
}

impl From<Stopped> for Left {
    ghost use Rattle.std.specs.Prelude.{◌≡◌};
    ghost use Rattle.walkx.specs.declared.left.Left.TheVariants.{Held};

    ghost from_gives = { λ _ left. left ≡ Held };

    fn from(_: Stopped) -> Left {
        Left::Held
    }
}
