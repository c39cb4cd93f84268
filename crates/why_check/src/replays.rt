//! The running state of the checker.
use duration_limits::Ages;
use gt_base::{Instant, Prioritised, Signal, Status};
use indexmap::IndexMap;
use session_table::Sessions;
use std::alloc::Global;

/// What a history has come to: its instant, the status after it, when its fluents last changed,
/// what is due at each minute, the table of sessions, and the signals of the next minute.
pub(crate) struct Replay {
    pub alloc: Global,
    pub present: Instant,
    pub status: Status,
    pub ages: Ages,
    pub due: IndexMap<u32, Vec<Prioritised>>,
    pub table: Sessions,
    pub waiting: Vec<Signal>,
}

impl Drop for Replay {
    fn drop(self) {
        let Replay {
            alloc: _,
            present: _,
            status: _,
            ages: _,
            due: _,
            table: _,
            waiting: _,
        } = self;
    }
}
