//! Symbols.
use pardo_program::Op;

/// A token that is always spelled alike.
#[derive(Clone, Copy)]
pub(crate) enum Symbol {
    /// An operation; `=` and `<` stand elsewhere too.
    Operator(Op),
    /// `:=`
    Assign,
    /// `,`
    Comma,
    /// `...`
    Dots,
    /// `(`
    Open,
    /// `)`
    Close,
    /// `[`
    OpenIndex,
    /// `]`
    CloseIndex,
    Pardo,
    Rule,
    Const,
    Procs,
    Shared,
    Private,
    Code,
    For,
    To,
    Downto,
    While,
    If,
    Else,
    End,
    Lg,
}
