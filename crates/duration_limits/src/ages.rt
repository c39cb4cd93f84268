//! When each fluent last changed, and from when on a duration limit has run for long enough.
ghost use Rattle.std.specs.Prelude.{◌≡◌, ℕ, ◌≤◌, ◌+◌, ◌-◌, cond, [], IfOk, OnOk};
ghost use Rattle.gt_base.specs.declared.events.Fluent.{Fluent};
ghost use Rattle.gt_base.specs.Sets.{has};
ghost use Rattle.gt_base.specs.declared.limits.TheConstants.{LAST_MINUTE};
ghost use Rattle.gtrbac_model.specs.Same.{same_fluent};
ghost use Rattle.gtrbac_model.specs.Trigger.{holds};
ghost use Rattle.duration_limits.specs.Since.{since_in};
ghost use Rattle.duration_limits.specs.Aged.{is_running, is_aged, minute_after, aged_from, has_come};

use gt_base::{Cond, Fluent, Instant, LimitId, LimitRule, Memory, Status};
use indexmap::IndexMap;
use std::alloc::Global;
use std::marker::Model;

/// For each fluent the instant at which it last changed, or the birth where it has not changed
/// since. It is seen as the birth, the rows of the fluents that have changed, and the number of
/// further fluents that it has room for.
pub struct Ages {
    birth: Instant,
    changes: IndexMap<Fluent, Instant>,
}

impl Drop for Ages {
    fn drop(self) {
        let Ages {
            birth: _,
            changes: _,
        } = self;
    }
}

impl Model for Ages {
    ghost use Rattle.indexmap.specs.IndexMap.{spare};
    ghost use Rattle.duration_limits.specs.Since.{AgesView};

    ghost Value = { AgesView };

    ghost view = { λ a. record {
      birth = a.birth;
      rows = a.changes.entries;
      spare = spare a.changes;
    } };
}

impl Ages {
    /// The ages at the birth, when no fluent has changed. It takes no memory yet.
    pub fn new(alloc: Global, birth: Instant) -> Ages
        ensures birth { result.birth ≡ birth }
        ensures rows { result.rows ≡ [] }
        ensures since { (f : Fluent) → since_in result f ≡ birth }
    {
        Ages {
            birth,
            changes: IndexMap::new(alloc),
        }
    }

    /// The birth.
    pub fn birth(&self) -> Instant
        ensures { result ≡ self.now.birth }
    {
        self.birth
    }

    /// Makes room for n more fluents. After a refusal each fluent has what it had, and no room is
    /// lost.
    pub fn reserve(&mut self, n: usize) -> Result<(), Memory>
        ensures birth { self.new.birth ≡ self.old.birth }
        ensures rows { self.new.rows ≡ self.old.rows }
        ensures since { (f : Fluent) → since_in self.new f ≡ since_in self.old f }
        ensures spare { self.old.spare ≤ self.new.spare }
        ensures room { OnOk result (n ≤ self.new.spare) }
    {
        self.changes.reserve(n)
    }

    /// Ages that say the same of each fluent. The room of the copy may differ.
    pub fn copied(&self) -> Result<Ages, Memory>
        ensures birth { IfOk result (λ copy. copy.birth ≡ self.now.birth) }
        ensures rows { IfOk result (λ copy. copy.rows ≡ self.now.rows) }
        ensures since { IfOk result (λ copy. (f : Fluent) → since_in copy f ≡ since_in self.now f) }
    {
        Ok(Ages {
            birth: self.birth,
            changes: self.changes.clone()?,
        })
    }

    /// The fluent changed at t. It takes no memory: a fluent that had not changed before goes into
    /// room that was made before, and uses one place of it.
    pub fn changed(&mut self, f: Fluent, t: Instant)
        requires { 1 ≤ self.old.spare }
        ensures birth { self.new.birth ≡ self.old.birth }
        ensures since { (g : Fluent)
            → since_in self.new g ≡ cond (same_fluent f g) t (since_in self.old g) }
        ensures spare { self.old.spare ≤ self.new.spare + 1 }
    {
        match self.changes.insert(f, t) {
            Ok(_) => {}
            Err(_) => unreachable!(),
        }
    }

    /// The instant at which the fluent last changed, or the birth where it has not changed since.
    pub fn since(&self, f: Fluent) -> Instant
        ensures { result ≡ since_in self.now f }
    {
        self.changes.get(&f).copied().unwrap_or(self.birth)
    }

    /// Whether the limit of this number has run for long enough at t, on the status before t. Its
    /// period is not asked. It takes no memory.
    pub fn ripe(&self, id: LimitId, rule: &LimitRule, before: &Status, t: Instant) -> bool
        ensures { result ≡ is_aged (has before.now.set) (since_in self.now) id.0 rule.now t }
    {
        runs(id, rule, before) && rule.most <= minutes_between(self.since(rule.cond.fluent), t)
    }

    /// The first instant from which the limit of this number has run for long enough, as long as
    /// the status stays. None exactly where it does not run, or would only have run for long enough
    /// after 2099-12-31T23:59. It takes no memory.
    pub fn ripe_from(&self, id: LimitId, rule: &LimitRule, status: &Status) -> Option<Instant>
        ensures from { result ≡ aged_from (has status.now.set) (since_in self.now) id.0 rule.now }
        ensures first { (t : ℕ) → since_in self.now rule.now.cond.fluent ≤ t → t ≤ LAST_MINUTE
            → is_aged (has status.now.set) (since_in self.now) id.0 rule.now t ≡ has_come result t }
    {
        if runs(id, rule, status) {
            later(self.since(rule.cond.fluent), rule.most)
        } else {
            None
        }
    }
}

/// Whether the condition holds in the status.
fn is_held(status: &Status, condition: Cond) -> bool
    ensures { result ≡ holds (has status.now.set) condition }
{
    let on = status.is_on(condition.fluent);
    if condition.on { on } else { !on }
}

/// Whether the limit is on in the status and its condition holds there.
fn runs(id: LimitId, rule: &LimitRule, status: &Status) -> bool
    ensures { result ≡ is_running (has status.now.set) id.0 rule.now }
{
    status.is_on(Fluent::Limit(id)) && is_held(status, rule.cond)
}

/// The minutes from the first instant to the second, 0 where the second is before it.
fn minutes_between(from: Instant, to: Instant) -> u32
    ensures { result ≡ to - from }
{
    to.minute().saturating_sub(from.minute())
}

/// The instant that many minutes later, if there is one.
fn later(t: Instant, minutes: u32) -> Option<Instant>
    ensures { result ≡ minute_after t minutes }
{
    Instant::new(t.minute().checked_add(minutes)?)
}
