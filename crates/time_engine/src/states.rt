//! The parts of a timeline.
use crate::traces::Trace;
use crate::waiting::Waiting;
use delay_agenda::Agenda;
use duration_limits::Ages;
use gt_base::{Happened, Instant, Status};
use instant_bases::WatchedPeriod;
use std::alloc::Global;

/// The periods, the instant now, the status after it and when its fluents changed, the sets so far,
/// what is due later, the signals of the next minute, and the empty set.
pub(crate) struct TimelineState {
    pub alloc: Global,
    pub watches: Vec<WatchedPeriod>,
    pub present: Instant,
    pub status: Status,
    pub ages: Ages,
    pub trace: Trace,
    pub pending: Agenda,
    pub signals: Waiting,
    pub quiet: Happened,
}

impl Drop for TimelineState {
    fn drop(self) {
        let TimelineState {
            alloc: _,
            watches: _,
            present: _,
            status: _,
            ages: _,
            trace: _,
            pending: _,
            signals: _,
            quiet: _,
        } = self;
    }
}
