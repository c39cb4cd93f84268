//! A set with the greatest priorities at which each fluent is set on and off, by which it is told at
//! once what is blocked and what wins.
ghost use Rattle.std.specs.Prelude.{◌≡◌, not, true, Some, IfOk};
ghost use Rattle.gt_base.specs.Sets.{has};
ghost use Rattle.gtrbac_model.specs.Conflict.{blocked, won, after};
ghost use Rattle.why_check.specs.Peaks.{ArePeaks, peak_in, side, sides_in, beaten_from, wins_from};

use crate::sides::{SideTable, Sides, side};
use gt_base::{Event, Fluent, Happened, Memory, Prioritised, Status};
use std::alloc::Global;
use std::marker::Model;

/// What happens at an instant, with the greatest priority of each event. It is seen as the set.
pub struct Peaks {
    set: Happened,
    sides: SideTable,
}

impl Drop for Peaks {
    fn drop(self) {
        let Peaks { set: _, sides: _ } = self;
    }
}

impl Model for Peaks {
    ghost use Rattle.gt_base.specs.Happening.{HappenedView, happening_code};
    ghost use Rattle.gt_base.specs.Sets.{members};
    ghost use Rattle.why_check.specs.Peaks.{ArePeaks, peak_in, sides_in};

    ghost Value = { HappenedView };

    ghost coded = { happening_code };

    ghost view = { λ p. p.set.set };

    ghost invariant = { λ p. ArePeaks (members p.set.set.events) (peak_in (sides_in p.sides)) };
}

impl Peaks {
    /// Those of the set.
    pub fn new(alloc: Global, set: Happened) -> Result<Peaks, Memory>
        ensures { IfOk result (λ x. x ≡ set.set) }
    {
        let sides = sides_of(alloc, set.events())?;
        Ok(Peaks { set, sides })
    }

    /// The set.
    pub fn set(&self) -> &Happened
        ensures { result.now.set ≡ self.now }
    {
        &self.set
    }

    /// Whether the event, at its priority, is blocked in the set.
    pub fn blocks(&self, e: &Prioritised) -> bool
        ensures { result ≡ blocked self.now e.now }
    {
        let against = side(self.sides.of(e.event.fluent), !e.event.on);
        is_beaten(e.event.on, e.prio.get(), against)
    }

    /// Whether the event stands in the set at some priority at which it is not blocked.
    pub fn is_won(&self, e: Event) -> bool
        ensures { result ≡ won self.now e }
    {
        wins(self.sides.of(e.fluent), e.on)
    }

    /// Whether the fluent is on in the status after the set, given the status before it.
    pub fn is_on_after(&self, f: Fluent, before: &Status) -> bool
        ensures { result ≡ after self.now (has before.now.set) f }
    {
        let sides = self.sides.of(f);
        if wins(sides, true) {
            return true;
        }
        !wins(sides, false) && before.is_on(f)
    }

    /// Whether the set has the event at this priority.
    pub fn has(&self, e: Prioritised) -> bool
        ensures { result ≡ has self.now.events e }
    {
        let peak = side(self.sides.of(e.event.fluent), e.event.on);
        if is_peak(peak, e.prio.get()) {
            return true;
        }
        self.set.has(e)
    }
}

/// The greatest priorities at which the events set each fluent on and off.
fn sides_of(alloc: Global, events: &[Prioritised]) -> Result<SideTable, Memory>
    ensures { IfOk result (λ t. ArePeaks events.now (peak_in (sides_in t))) }
{
    let mut sides = SideTable::new(alloc, events.len())?;
    for o in events {
        sides.note(o.event, o.prio.get())?;
    }
    Ok(sides)
}

/// Whether the peak is this priority.
fn is_peak(peak: Option<u8>, prio: u8) -> bool
    ensures { result ≡ true → peak ≡ Some prio }
{
    match peak {
        Some(p) => p == prio,
        None => false,
    }
}

/// Whether the fluent of the sides is set so at some priority at which that is not blocked.
fn wins(sides: Option<Sides>, on: bool) -> bool
    ensures { result ≡ wins_from on (side on sides) (side (not on) sides) }
{
    match side(sides, on) {
        Some(p) => !is_beaten(on, p, side(sides, !on)),
        None => false,
    }
}

/// Whether an event that sets its fluent on or off at the priority is blocked where its converse
/// has this peak, or none.
fn is_beaten(on: bool, prio: u8, against: Option<u8>) -> bool
    ensures { result ≡ beaten_from on prio against }
{
    match against {
        Some(q) => { if on { prio <= q } else { prio < q } }
        None => false,
    }
}
