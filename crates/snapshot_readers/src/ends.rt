//! How the service of a viewer's link ended, and what it came to.
use gt_base::List;

/// Why the service of a link ended.
#[derive(Clone, Copy, PartialEq, Eq)]
pub enum ViewEnd {
    /// The link has no bytes left.
    Ended,
    /// A read failed.
    ReadFault,
    /// A write failed.
    WriteFault,
    /// As many bytes were taken as a link may send.
    Spent,
}

/// Why a viewer ended.
#[derive(Clone, Copy, PartialEq, Eq)]
pub enum ViewerEnd {
    /// It has not begun.
    Fresh,
    /// Its door has no link left.
    Done,
    /// Its door failed.
    DoorFault,
    /// It has served 100,000 links.
    Enough,
    /// There was no memory for a further link.
    Memory,
}

/// A link that was served: the numbers of entries of the histories that its replies are of, how
/// many request lines were answered by `no memory`, and how it ended.
#[derive(Drop)]
pub struct Viewed<L> {
    pub link: L,
    pub lens: List<u64>,
    pub denied: u64,
    pub outcome: ViewEnd,
}
