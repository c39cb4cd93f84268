//! The parts of a book.
use crate::prepared::Prepared;
use gt_base::{Entry, Instant, List};
use session_table::Sessions;
use std::alloc::Global;
use time_engine::Timeline;

/// The policy with what was made of it, the birth, the timeline and the table of sessions of now,
/// and the entries.
pub(crate) struct State {
    pub alloc: Global,
    pub ground: Prepared,
    pub birth: Instant,
    pub line: Timeline,
    pub table: Sessions,
    pub entries: List<Entry>,
}

impl Drop for State {
    fn drop(self) {
        let State {
            alloc: _,
            ground: _,
            birth: _,
            line: _,
            table: _,
            entries: _,
        } = self;
    }
}
