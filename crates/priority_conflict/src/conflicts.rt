//! Blocked events, what is seen of an event, and the status after a set.
ghost use Rattle.std.specs.Prelude.{◌≡◌, ◌≤◌, ◌<◌, ◌+◌, ◌-◌, true, length, IfSome, IsNone};
ghost use Rattle.std.specs.List.{HoldsAt};
ghost use Rattle.gt_base.specs.declared.events.Event.{Event};
ghost use Rattle.gt_base.specs.declared.events.Fluent.{Fluent};
ghost use Rattle.gt_base.specs.Events.{converse};
ghost use Rattle.gt_base.specs.Sets.{has, members};
ghost use Rattle.gtrbac_model.specs.Conflict.{beats, blocked, stands_at, greatest_below, seen};
ghost use Rattle.priority_conflict.specs.Winning.{IsApart, IsStrongest, turned_by};

use gt_base::{Event, EventSet, Happened, MAX_PRIO, Prio, Prioritised, Seen, Status};

/// Whether the converse at priority q blocks an event that sets its fluent on or off at priority p.
pub(crate) fn beats(on: bool, q: u8, p: u8) -> bool
    ensures { result ≡ beats on q p }
{
    if on { p <= q } else { p < q }
}

/// The greatest priority below a number at which the event stands in the set, blocked or not. It
/// takes no memory, and passes over the priorities at which nothing stands.
pub fn greatest(x: &Happened, e: Event, below: u8) -> Option<Prio>
    requires { below ≤ MAX_PRIO + 1 }
    ensures { result ≡ greatest_below (stands_at x.now.set e) below }
{
    let mut above = below;
    while above > 0 {
        let prio = Prio::new(above - 1).unwrap();
        match lower(x, e, prio) {
            Some(next) => above = next,
            None => return Some(prio),
        }
    }
    None
}

/// None where the event stands in the set at the priority; else a number no greater than that, such
/// that the event stands at no priority from the number up to that one.
fn lower(x: &Happened, e: Event, prio: Prio) -> Option<u8>
    ensures none { IsNone result → stands_at x.now.set e prio ≡ true }
    ensures less { IfSome result (λ n. n ≤ prio) }
    ensures same { IfSome result (λ n. greatest_below (stands_at x.now.set e) (prio + 1)
        ≡ greatest_below (stands_at x.now.set e) n) }
{
    let events = x.events();
    match events.binary_search(&Prioritised { prio, event: e }) {
        Ok(_) => None,
        Err(place) => Some(prio.get().min(past_front(events, place))),
    }
}

/// The number after the priority of the event in front of a place, 0 where none is.
fn past_front(events: &[Prioritised], place: usize) -> u8
    requires { place ≤ length events.now }
    ensures none { place ≡ 0 → result ≡ 0 }
    ensures front { 0 < place → HoldsAt (λ p. result ≡ p.prio + 1) events.now (place - 1) }
{
    match place {
        0 => 0,
        _ => events[place - 1].prio.get() + 1,
    }
}

/// The greatest priority at which the event stands in the set, if it stands there. The events rise
/// by priority, so that none stands above that of the last.
fn strongest(x: &Happened, e: Event) -> Option<Prio>
    ensures { IsStrongest (has x.now.set.events) e result }
{
    match x.events().last() {
        Some(last) => greatest(x, e, last.prio.get() + 1),
        None => None,
    }
}

/// Whether the event, at its priority, is blocked in the set: an on event by its converse at its
/// own priority or a higher one, an off event by its converse at a higher one. It takes no memory.
pub fn blocked(x: &Happened, p: Prioritised) -> bool
    ensures { result ≡ blocked x.now.set p }
{
    match strongest(x, p.event.converse()) {
        Some(q) => beats(p.event.on, q.get(), p.prio.get()),
        None => false,
    }
}

/// Sets each fluent as its winner says; the others stay. It takes no memory.
pub fn next_status(s: &mut Status, won: &EventSet)
    requires room { length (members won.now.set) ≤ s.old.spare }
    requires apart { IsApart won.now.set }
    ensures status { (f : Fluent) → has s.new.set f
        ≡ turned_by (has won.now.set) (has s.old.set) f }
    ensures spare { s.old.spare ≤ s.new.spare + length (members won.now.set) }
{
    for e in won.as_slice() {
        s.set(e.fluent, e.on);
    }
}

/// The greatest priority below a number at which the event stands in the set unblocked, else the
/// greatest at which it stands there blocked, else that it is absent. It takes no memory.
pub fn seen(x: &Happened, e: Event) -> Seen
    ensures { result ≡ seen x.now.set e }
{
    let Some(prio) = greatest(x, e, MAX_PRIO + 1) else {
        return Seen::Absent;
    };
    // what is blocked at a priority is so at each lower one
    if blocked(x, Prioritised { prio, event: e }) {
        Seen::Blocked(prio)
    } else {
        Seen::Unblocked(prio)
    }
}
