//! What could stand in a point of a line.
use crate::words::{begins_operand, is_among, is_name, is_operator};

/// What could stand in a point of a line.
#[derive(Clone, Copy, PartialEq, Eq)]
pub(crate) enum Wanted {
    Version,
    Rule,
    Declaration,
    LineOfCode,
    NewName,
    Operand,
    /// A start value, or `...` in its point.
    Value,
    Opening,
    Closing,
    ClosingIndex,
    /// The end of the second index of two.
    ClosingColumn,
    /// The end of how many places or rows there are.
    ClosingLength,
    /// The `,` between two operands, or two indices.
    Comma,
    /// `:=` after a target.
    Assignment,
    Equals,
    Less,
    EqualsOrEnd,
    Length,
    /// `to` or `downto`
    Way,
    /// The end of an expression that ends its line.
    Whole,
    /// The end of a start value.
    NextValue,
    End,
}

impl Wanted {
    /// As a sentence names it.
    pub(crate) fn phrase(self) -> &'static str {
        match self {
            Wanted::Version => "`pardo 1`",
            Wanted::Rule => "`rule common`, `rule priority` or `rule crew`",
            Wanted::Declaration => "`const`, `procs`, `shared`, `private` or `code`",
            Wanted::LineOfCode =>
                "a name, `if`, `elsif`, `else`, `for`, `while`, `assert` or `end`",
            Wanted::NewName => "a new name",
            Wanted::Operand => "a number, a name, `(`, `min`, `max` or `lg`",
            Wanted::Value => "a number, a name, `(`, `min`, `max`, `lg` or `...`",
            Wanted::Opening => "`(`",
            Wanted::Closing => "an operator or `)`",
            Wanted::ClosingIndex | Wanted::ClosingColumn => "an operator or `]`",
            Wanted::ClosingLength => "an operator, `,` or `]`",
            Wanted::Comma => "an operator or `,`",
            Wanted::Assignment => "`:=`",
            Wanted::Equals => "`=`",
            Wanted::Less => "`<`",
            Wanted::EqualsOrEnd => "`=` or the end of the line",
            Wanted::Length => "`[`, `=` or the end of the line",
            Wanted::Way => "an operator, `to` or `downto`",
            Wanted::Whole => "an operator or the end of the line",
            Wanted::NextValue => "an operator, `,` or the end of the line",
            Wanted::End => "the end of the line",
        }
    }

    /// Whether an operator could stand there.
    pub(crate) fn is_operator(self) -> bool {
        matches!(
            self,
            Wanted::Closing
                | Wanted::ClosingIndex
                | Wanted::ClosingColumn
                | Wanted::ClosingLength
                | Wanted::Comma
                | Wanted::Way
                | Wanted::Whole
                | Wanted::NextValue
        )
    }

    /// Whether this token, if it is no operator, could stand there.
    pub(crate) fn admits(self, token: &[u8]) -> bool {
        match self {
            Wanted::Version => is_among("pardo", token),
            Wanted::Rule => is_among("rule", token),
            Wanted::Declaration => is_among("const procs shared private code", token),
            Wanted::LineOfCode => is_name(token) || is_among("if else for while end", token),
            Wanted::NewName => is_name(token),
            Wanted::Operand => begins_operand(token),
            Wanted::Value => begins_operand(token) || is_among("...", token),
            Wanted::Opening => is_among("(", token),
            Wanted::Closing => is_among(")", token),
            Wanted::ClosingIndex | Wanted::ClosingColumn => is_among("]", token),
            Wanted::ClosingLength => is_among(", ]", token),
            Wanted::Comma | Wanted::NextValue => is_among(",", token),
            Wanted::Assignment => is_among(":= [", token),
            Wanted::Equals | Wanted::EqualsOrEnd => is_among("=", token),
            Wanted::Less => is_among("<", token),
            Wanted::Length => is_among("[ =", token),
            Wanted::Way => is_among("to downto", token),
            Wanted::Whole | Wanted::End => false,
        }
    }

    /// Whether this token could stand there.
    pub(crate) fn takes(self, token: &[u8]) -> bool {
        self.admits(token) || (self.is_operator() && is_operator(token))
    }
}
