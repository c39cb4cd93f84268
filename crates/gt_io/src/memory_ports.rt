//! What ports in memory keep.
ghost use Rattle.std.specs.Prelude.{◌≡◌, ◌<◌, ◌≤◌, ◌^◌, [], length, drop, vec_capacity, All};
ghost use Rattle.gt_io.specs.Ports.{open_in};

use crate::port::{Called, PortEvent};
use crate::source::Failed;
use gt_base::List;

/// An event that ports in memory are to tell.
#[derive(Clone, Copy, PartialEq, Eq)]
pub enum MemEvent {
    /// The next link is opened.
    Open,
    /// The link of this number is ready.
    Ready(u32),
}

/// Numbers of calls, counted from 1, that fail or answer that there is nothing yet.
#[derive(Drop)]
pub struct Hitches {
    pub bad_reads: List<u64>,
    pub late_reads: List<u64>,
    pub bad_writes: List<u64>,
    pub late_writes: List<u64>,
}

/// A link in memory. Its bytes come piece by piece: each time that it is ready one more of its
/// marks counts, which tells how many bytes have come by then; behind the last mark all have, and
/// its peer may have ended it.
#[derive(Drop)]
pub struct MemPort {
    pub(crate) bytes: List<u8>,
    pub(crate) at: usize,
    pub(crate) marks: List<usize>,
    pub(crate) readies: usize,
    pub(crate) ends: bool,
    pub(crate) given: Vec<u8>,
    pub(crate) room: usize,
    pub(crate) most: usize,
    pub(crate) reads: u64,
    pub(crate) writes: u64,
    pub(crate) hitches: Hitches,
    pub(crate) last: Called,
    pub(crate) owed: bool,
    pub(crate) others: u64,
    pub(crate) finished: Option<u64>,
    ghost within: { at ≤ length bytes.items },
    ghost reserved: { room ≤ vec_capacity given },
    ghost some: { 0 < most },
}

/// Links in memory, and the events that they are to have. Behind the last event, and at an opening
/// with no link left or a readiness of a link that is not opened, they stop.
#[derive(Drop)]
pub struct MemPorts {
    pub(crate) events: List<MemEvent>,
    pub(crate) at: usize,
    pub(crate) ports: Vec<MemPort>,
    pub(crate) opened: u32,
    /// How many of them are open.
    pub(crate) busy: u32,
    pub(crate) told: Option<Result<PortEvent, Failed>>,
    pub(crate) nexts: u64,
    pub(crate) bad_nexts: List<u64>,
    pub(crate) faults: u64,
    pub(crate) ends: u64,
    ghost few: { length ports.items < 2 ^ 32 },
    ghost within: { opened ≤ length ports.items },
    ghost counted: { busy ≡ open_in (λ p. p.finished) ports.items opened },
    ghost unused: { All (λ p. (p.at ≡ 0) × (p.given.items ≡ [])) (drop opened ports.items) },
}
