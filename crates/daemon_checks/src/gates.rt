//! A gate at which the request lines of workers and viewers wait for one another, and clocks that
//! see whether each line passed the gate before they were read.
ghost use Rattle.std.specs.Prelude.{None};

use gt_base::Instant;
use gt_io::{Clock, Gate, MemClock};
use std::sync::atomic::{AtomicBool, AtomicU64, Ordering};

/// A worker's or a viewer's call with this number waits until another one has come to so many
/// calls. The first viewer passes the gate as 8.
#[derive(Clone, Copy)]
pub(crate) struct Rule {
    pub worker: u32,
    pub call: u64,
    pub other: u32,
    pub calls: u64,
}

/// How many calls each of three has passed. Where a call is numbered otherwise, or waits for more
/// than so many looks, that is seen.
#[derive(Clone, Copy)]
pub(crate) struct GateTurns<'a> {
    pub rules: &'a [Rule],
    pub zero: &'a AtomicU64,
    pub one: &'a AtomicU64,
    pub two: &'a AtomicU64,
    pub is_wrong: &'a AtomicBool,
}

const LOOKS: u32 = 400_000_000;

impl<'a> GateTurns<'a> {
    fn calls(&self, worker: u32) -> &'a AtomicU64 {
        match worker {
            0 => self.zero,
            1 => self.one,
            _ => self.two,
        }
    }

    /// Looks until a rule is met.
    fn wait(&self, rule: &Rule) {
        for _ in 0..LOOKS {
            if self.calls(rule.other).load(Ordering::SeqCst) >= rule.calls {
                return;
            }
        }
        self.is_wrong.store(true, Ordering::SeqCst);
    }
}

impl Gate for GateTurns<'_> {
    fn pass(&self, worker: u32, call: u64) {
        if self
            .calls(worker)
            .swap(call, Ordering::SeqCst)
            .saturating_add(1)
            != call
        {
            self.is_wrong.store(true, Ordering::SeqCst);
        }
        for rule in self.rules {
            if rule.worker == worker && rule.call == call {
                self.wait(rule);
            }
        }
    }

    fn may_wait(&self) -> bool {
        !self.rules.is_empty()
    }
}

/// A worker's clock. It sees whether one line more has passed the gate at each reading.
pub(crate) struct Watch<'a> {
    pub clock: MemClock,
    pub gate: GateTurns<'a>,
    pub worker: u32,
    pub read: u64,
}

impl Drop for Watch<'_> {
    fn drop(self) {
        let Watch {
            clock: _,
            gate: _,
            worker: _,
            read: _,
        } = self;
    }
}

impl Watch<'_> {
    /// Sees whether as many lines have passed the gate as there were readings.
    pub fn compare(&self) {
        if self.gate.calls(self.worker).load(Ordering::SeqCst) != self.read {
            self.gate.is_wrong.store(true, Ordering::SeqCst);
        }
    }
}

impl Clock for Watch<'_> {
    ghost readings = { λ _. None };

    fn now(&mut self) -> Instant {
        self.read = self.read.saturating_add(1);
        self.compare();
        self.clock.now()
    }
}
