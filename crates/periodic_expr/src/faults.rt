//! What is wrong with a text.

/// The kinds of faults of a text that is no expression.
#[derive(Clone, Copy, PartialEq, Eq, Debug)]
pub enum ExprKind {
    /// Outside the grammar.
    Syntax,
    /// The first part has a set.
    FirstNotAll,
    /// A calendar does not stand below the one before it.
    NotFiner,
    /// A number of a set is 0.
    ZeroIndex,
    /// A set has no number.
    EmptySet,
    /// The length's number is not 1 to 1,000.
    BadLength,
    /// Want of memory, at 0.
    Memory,
}

/// The fault of the least place, from 0 in the text.
#[derive(Clone, Copy, PartialEq, Eq, Debug)]
pub struct ExprFault {
    pub at: u32,
    pub kind: ExprKind,
}
