//! How the links of a front end.

/// Why a link ended.
#[derive(Clone, Copy, PartialEq, Eq)]
pub enum PollEnd {
    /// It has no bytes left.
    Ended,
    /// A read failed.
    ReadFault,
    /// A write failed.
    WriteFault,
    /// As many bytes were taken as a link may send.
    Spent,
    /// As many other links were open as may be, so it was let go at once.
    Full,
    /// The run ended while it was open.
    Stopped,
    /// The pass has drawn 2^40 turns.
    Worn { draws: u64 },
}

/// What a link came to: how many entries of requests it has, how many request lines were answered
/// by `no memory` or `no steps`, and how it ended.
#[derive(Clone, Copy, PartialEq, Eq)]
pub struct Polled {
    pub asked: u64,
    pub denied: u64,
    pub outcome: PollEnd,
}
