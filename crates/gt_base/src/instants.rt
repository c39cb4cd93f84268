//! Civil minutes and priorities.
ghost use Rattle.std.specs.Prelude.{◌≡◌, ◌↔◌, ◌≤◌, ◌<◌, IsNone, IfSome};

use crate::limits::{LAST_MINUTE, MAX_PRIO};
use std::marker::Model;

/// A civil minute of the years 2000 to 2099, seen as its number.
#[derive(Clone, Copy, PartialEq, Eq, PartialOrd, Ord)]
pub struct Instant {
    minute: u32,
}

impl Model for Instant {
    ghost use Rattle.std.specs.Prelude.{ℕ, ◌≤◌};
    ghost use Rattle.gt_base.specs.declared.limits.TheConstants.{LAST_MINUTE};

    ghost Value = { ℕ };

    ghost view = { λ t. t.minute };

    ghost invariant = { λ t. t.minute ≤ LAST_MINUTE };

    ghost inverse = { λ t. record { minute = t } };
}

impl Instant {
    /// The minute of this number, counted from 2000-01-01T00:00; none exactly past
    /// 2099-12-31T23:59.
    pub fn new(m: u32) -> Option<Instant>
        ensures none { IsNone result ↔ (LAST_MINUTE < m) }
        ensures some { IfSome result (λ t. t ≡ m) }
    {
        if m <= LAST_MINUTE {
            Some(Instant { minute: m })
        } else {
            None
        }
    }

    /// Its number, from 0 at 2000-01-01T00:00 to 52,595,999.
    pub fn minute(self) -> u32
        ensures value { result ≡ self }
        ensures bound { result ≤ LAST_MINUTE }
    {
        self.minute
    }

    /// What every instant keeps: it is not after the last.
    pub fn keeps(self)
        ensures { self ≤ LAST_MINUTE }
    {
        let _ = self.minute;
    }
}

/// A priority, 0 to 100, seen as its number.
#[derive(Clone, Copy, PartialEq, Eq, PartialOrd, Ord)]
pub struct Prio {
    level: u8,
}

impl Model for Prio {
    ghost use Rattle.std.specs.Prelude.{ℕ, ◌≤◌};
    ghost use Rattle.gt_base.specs.declared.limits.TheConstants.{MAX_PRIO};

    ghost Value = { ℕ };

    ghost view = { λ p. p.level };

    ghost invariant = { λ p. p.level ≤ MAX_PRIO };

    ghost inverse = { λ p. record { level = p } };
}

impl Prio {
    /// The priority of this number; none exactly above 100.
    pub fn new(p: u8) -> Option<Prio>
        ensures none { IsNone result ↔ (MAX_PRIO < p) }
        ensures some { IfSome result (λ q. q ≡ p) }
    {
        if p <= MAX_PRIO {
            Some(Prio { level: p })
        } else {
            None
        }
    }

    /// Its number, 0 to 100.
    pub fn get(self) -> u8
        ensures value { result ≡ self }
        ensures bound { result ≤ MAX_PRIO }
    {
        self.level
    }
}
