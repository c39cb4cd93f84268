//! What the host's ports keep of a link.
use crate::conn::Conn;
use gt_io::Called;

/// A link by its number, and what is told of it. It has a stream until it is finished, or until a
/// call on its stream failed.
#[derive(Drop)]
pub(crate) struct HostPort {
    pub(crate) conn: Option<Box<Conn>>,
    pub(crate) last: Called,
    pub(crate) owed: bool,
    pub(crate) others: u64,
    pub(crate) finished: Option<u64>,
}
