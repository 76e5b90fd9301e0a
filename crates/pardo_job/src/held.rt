//! Values that are at hand while an expression is evaluated.
ghost use Rattle.std.specs.Prelude.{◌≡◌, ◌+◌, ◌<◌, ◌≤◌, ◌++◌, ◌∷◌, [], sum_by, vec_len, OnOk};
ghost use Rattle.pardo_job.specs.Operations.{taken_by};

use pram_job::Operand;
use std::alloc::{AllocError, Global};

/// The register that holds a processor's own number throughout. Those below it are for values.
pub(crate) const OWN: u8 = 3;

/// A value: where it is, and whether it is 0 or 1 whatever the program does.
#[derive(Clone, Copy, Debug, PartialEq, Eq)]
pub(crate) struct Held {
    pub(crate) operand: Operand,
    pub(crate) is_truth: bool,
}

/// How many registers were taken for an operand: a number and the own number need none.
pub(crate) fn taken_by(operand: Operand) -> u8
    ensures { result ≡ taken_by operand }
{
    match operand {
        Operand::Register(register) if register < OWN => 1,
        _ => 0,
    }
}

/// The values at hand, the last one last. Those that were computed are in the registers from `base`
/// on, in their order.
#[derive(Drop)]
pub(crate) struct Stack {
    pub(crate) values: Vec<Held>,
    base: u8,
    pub(crate) taken: u8,
    ghost count: { taken ≡ base + sum_by (λ held. taken_by held.operand) values.items },
    ghost few: { taken ≤ 3 },
}

impl Stack {
    /// No value, where the registers below `base` are taken.
    pub(crate) fn above(alloc: Global, base: u8) -> Self
        requires { base ≤ 3 }
        ensures values { result.values.items ≡ [] }
        ensures taken { result.taken ≡ base }
    {
        Stack {
            values: Vec::new(alloc),
            base,
            taken: base,
        }
    }

    /// The next free register.
    pub(crate) fn free(&self) -> u8
        ensures value { result ≡ self.now.taken }
        ensures few { result ≤ 3 }
    {
        self.taken
    }

    /// One value more.
    #[tactic(auto, using(crate::proofs::Stacks::taken))]
    pub(crate) fn push(&mut self, operand: Operand, is_truth: bool) -> Result<(), AllocError>
        requires { self.old.taken + taken_by operand ≤ 3 }
        ensures values { OnOk result (self.new.values.items
            ≡ self.old.values.items ++ record { operand = operand; is_truth = is_truth } ∷ []) }
        ensures taken { OnOk result (self.new.taken ≡ self.old.taken + taken_by operand) }
    {
        self.values.push(Held { operand, is_truth })?;
        self.taken += taken_by(operand);
        Ok(())
    }

    /// The value that came last, which is no longer at hand.
    #[tactic(auto, using(crate::proofs::Stacks::taken))]
    pub(crate) fn pop(&mut self) -> Held
        requires { 0 < vec_len self.old.values }
        ensures values { self.old.values.items ≡ self.new.values.items ++ result ∷ [] }
        ensures taken { self.old.taken ≡ self.new.taken + taken_by result.operand }
    {
        let Some(value) = self.values.pop() else {
            unreachable!()
        };
        self.taken -= taken_by(value.operand);
        value
    }
}
