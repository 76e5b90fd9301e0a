//! Phases: the passes over all processors that carry out one step of the machine after the other.
ghost use Rattle.std.specs.Prelude.{◌≡◌, ◌*◌, ◌≤◌};
ghost use Rattle.pram_words.specs.Phases.{phase_of, step_at, kind_at};

/// The last phase that a job can have: the third pass of step 4,294,967,295.
pub const LAST_PHASE: u64 = 12_884_901_885;

/// What a pass does, in the order of the passes of a step. The wide form has the first and the
/// last: in the first a processor writes what is its own, in the last its store.
#[derive(Clone, Copy, Debug, PartialEq, Eq)]
pub enum Kind {
    /// Computes the request of each processor.
    Compute,
    /// Carries the requests to the memory.
    Apply,
    /// Looks for requests that disagree.
    Verify,
}

/// The number of a pass of a step; steps count from 1, and so do phases.
pub fn phase(step: u32, kind: Kind) -> u64
    requires { 1 ≤ step }
    ensures value { result ≡ phase_of step kind }
    ensures some { 1 ≤ result }
    ensures most { result ≤ 3 * step }
{
    let before = 3 * u64::from(step - 1);
    match kind {
        Kind::Compute => before + 1,
        Kind::Apply => before + 2,
        Kind::Verify => before + 3,
    }
}

/// The step of a phase.
pub fn step_of(phase: u64) -> u32
    requires { phase ≤ LAST_PHASE }
    ensures { result ≡ step_at phase }
{
    ((phase + 2) / 3) as u32
}

/// What a phase does.
pub fn kind_of(phase: u64) -> Kind
    ensures { result ≡ kind_at phase }
{
    match phase % 3 {
        0 => Kind::Verify,
        1 => Kind::Compute,
        _ => Kind::Apply,
    }
}
