//! Operations.
ghost use Rattle.std.specs.Prelude.{◌≡◌, ◌≢◌, ◌<◌, IsTrue};
ghost use Rattle.pardo_program.specs.Operations.{level_of, is_division, operation_value};

/// An operation of two numbers below 2^32.
#[derive(Clone, Copy, Debug, PartialEq, Eq)]
pub enum Op {
    /// `+`
    Add,
    /// `-`
    Sub,
    /// `*`
    Mul,
    /// `/`
    Div,
    /// `%`
    Rem,
    /// `<<`
    Shl,
    /// `>>`
    Shr,
    /// `&`
    BitAnd,
    /// `|`
    BitOr,
    /// `xor`
    BitXor,
    /// `=`
    Eq,
    /// `!=`
    Ne,
    /// `<`
    Lt,
    /// `<=`
    Le,
    /// `>`
    Gt,
    /// `>=`
    Ge,
    /// `and`
    And,
    /// `or`
    Or,
    /// `min`
    Min,
    /// `max`
    Max,
    /// The test of an index, which no token spells: the first one, where it is below the second.
    Within,
}

impl Op {
    /// The level at which the operation stands between its operands: those of level 1 bind most
    /// tightly. It is 0 for `min` and `max`, which stand before theirs, and 6, where nothing stands,
    /// for the test of an index.
    #[tactic(auto, unfolding(crate::specs::Operations::level_of))]
    pub fn level(self) -> u8
        ensures { result ≡ level_of self }
    {
        match self {
            Op::Min | Op::Max => 0,
            Op::Mul | Op::Div | Op::Rem | Op::Shl | Op::Shr | Op::BitAnd => 1,
            Op::Add | Op::Sub | Op::BitOr | Op::BitXor => 2,
            Op::Eq | Op::Ne | Op::Lt | Op::Le | Op::Gt | Op::Ge => 3,
            Op::And => 4,
            Op::Or => 5,
            Op::Within => 6,
        }
    }

    /// Whether it is a division, whose divisor must not be 0.
    #[tactic(auto, unfolding(crate::specs::Operations::is_division))]
    pub fn is_division(self) -> bool
        ensures { result ≡ is_division self }
    {
        matches!(self, Op::Div | Op::Rem)
    }

    /// The value of the operation, where there is one. Arithmetic is modulo 2^32, and what is true
    /// is 1, what is not true 0.
    #[tactic(auto, unfolding(crate::specs::Operations::operation_value, crate::specs::Operations::is_division))]
    pub fn value(self, a: u32, b: u32) -> u32
        requires { IsTrue (is_division self) → b ≢ 0 }
        ensures { result ≡ operation_value self a b }
    {
        match self {
            Op::Add => a.wrapping_add(b),
            Op::Sub => a.wrapping_sub(b),
            Op::Mul => a.wrapping_mul(b),
            Op::Div => a / b,
            Op::Rem => a % b,
            Op::Shl => a.checked_shl(b).unwrap_or(0),
            Op::Shr => a.checked_shr(b).unwrap_or(0),
            Op::BitAnd => a & b,
            Op::BitOr => a | b,
            Op::BitXor => a ^ b,
            Op::Eq => u32::from(a == b),
            Op::Ne => u32::from(a != b),
            Op::Lt => u32::from(a < b),
            Op::Le => u32::from(a <= b),
            Op::Gt => u32::from(a > b),
            Op::Ge => u32::from(a >= b),
            Op::And => u32::from(a != 0 && b != 0),
            Op::Or => u32::from(a != 0 || b != 0),
            Op::Min => a.min(b),
            Op::Max => a.max(b),
            Op::Within => a,
        }
    }
}
