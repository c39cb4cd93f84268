//! What is wrong with a line of a policy.
use periodic_expr::ExprFault;

/// Why a line of a policy says nothing. On one line the first of this order is told.
#[derive(Clone, Copy, PartialEq, Eq)]
pub enum TextKind {
    /// It has more than 4,096 bytes.
    Long,
    /// Its first word is `policy`, and it is not `policy 1` or `policy 2` as the first line that is
    /// not silent.
    Version,
    /// Its first word begins no line of the text's version.
    Word,
    /// Its words are not of the form that its first word begins, or name an edge in a text of
    /// version 1.
    Form,
    /// A trigger has more than 16 items, or neither an event nor a signal.
    Body,
    /// A period's first instant is after its last.
    Bounds,
    /// A period's expression has a fault.
    Expr(ExprFault),
    /// Want of memory.
    Memory,
}
