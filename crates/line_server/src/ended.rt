//! What a worker's links came to.
use connection_laws::Report;

/// A link that was served, and its report.
#[derive(Drop)]
pub struct Served<L> {
    pub link: L,
    pub report: Report,
}

/// Why a worker ended.
#[derive(Clone, Copy)]
pub enum WorkEnd {
    /// It has not begun.
    Fresh,
    /// Its door has no link left.
    Done,
    /// Its door failed.
    DoorFault,
    /// It has served 100,000 links.
    Enough,
    /// Its pass has drawn 2^40 turns.
    Worn { draws: u64 },
    /// There was no memory for a further link.
    Memory,
}
