//! How the service of a link ended, and what it came to.

/// Why the service of a link ended.
#[derive(Clone, Copy, PartialEq)]
pub enum LinkEnd {
    /// The link has no bytes left.
    Ended,
    /// A read failed.
    ReadFault,
    /// A write failed.
    WriteFault,
    /// As many bytes were taken as a link may send.
    Spent,
    /// The pass has drawn 2^40 turns.
    Worn { draws: u64 },
}

/// What the service of a link came to: how many entries of requests it has, how many request lines
/// were answered by `no memory` or `no steps`, and how it ended.
#[derive(Clone, Copy)]
pub struct Report {
    pub asked: u64,
    pub denied: u64,
    pub outcome: LinkEnd,
}
