//! What is wrong with the text of a policy.
use policy_words::TextKind;

/// The fault of the least line that has one, counted from 1. Want of memory has the line 0.
#[derive(Clone, Copy, PartialEq, Eq)]
pub struct TextFault {
    pub line: u32,
    pub kind: TextKind,
}
