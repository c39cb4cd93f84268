//! Whether the set that a certificate lists at an instant is closed and in an order that supports
//! it.
ghost use Rattle.std.specs.Prelude.{◌≡◌, ◌≤◌, ◌&&◌, ◌||◌, not, [], length, IsTrue, ◌↔◌, IfOk, IsPermutation};
ghost use Rattle.std.specs.List.{list_all, list_any};
ghost use Rattle.std.specs.Ordering.{eq_by_cmp};
ghost use Rattle.gt_base.specs.Happening.{nothing};
ghost use Rattle.gt_base.specs.Orders.{prioritised_cmp, signal_cmp};
ghost use Rattle.gt_base.specs.Sets.{has, set_of};
ghost use Rattle.gt_base.specs.declared.events.Prioritised.{Prioritised as PrioritisedOf};
ghost use Rattle.gt_base.specs.declared.events.Signal.{Signal as SignalOf};
ghost use Rattle.gtrbac_model.specs.Graph.{item_at};
ghost use Rattle.gtrbac_model.specs.History.{is_some_item};
ghost use Rattle.gtrbac_model.specs.Instant.{closed, grounded_after};
ghost use Rattle.gtrbac_model.specs.Same.{same_prioritised};
ghost use Rattle.gtrbac_model.specs.Trigger.{met, immediate};
ghost use Rattle.time_engine.specs.Traces.{is_something};
ghost use Rattle.why_check.specs.Certificates.{IsShown, set_in};
ghost use Rattle.why_check.specs.Heads.{passes};
ghost use Rattle.why_check.specs.Standing.{stands_in};

use crate::blocking::Peaks;
use crate::certificates::Listing;
use crate::heads::Headed;
use crate::meeting::met_in;
use crate::standing::Standing;
use gt_base::{Event, Happened, Memory, Prioritised, Signal, Status, Trigger};
use std::alloc::Global;

/// The set of the events and signals.
pub(crate) fn set_of_lists(
    alloc: Global,
    events: &[Prioritised],
    signals: &[Signal],
) -> Result<Happened, Memory>
    ensures events { IfOk result (λ x. x.set.events ≡ set_of events.now) }
    ensures signals { IfOk result (λ x. x.set.signals ≡ set_of signals.now) }
{
    let events = ascending(alloc, events)?;
    let signals = ascending(alloc, signals)?;
    let mut set = Happened::new(alloc);
    set.reserve(events.len())?;
    add_events(&mut set, &events);
    set.reserve(signals.len())?;
    add_signals(&mut set, &signals);
    Ok(set)
}

/// The items in ascending order, in which a set takes them without moving any.
fn ascending<K: Ord + Copy + Drop>(alloc: Global, items: &[K]) -> Result<Vec<K>, Memory>
    ensures { IfOk result (λ sorted. IsPermutation items.now sorted.items) }
{
    let mut sorted = Vec::from_slice(alloc, items)?;
    sorted.sort_unstable();
    Ok(sorted)
}

/// Adds the events, into room that was made before.
fn add_events(into: &mut Happened, events: &[Prioritised])
    requires { length events.now ≤ into.old.spare }
    ensures events { (e : PrioritisedOf)
        → has into.new.set.events e ≡ (has into.old.set.events e
        || list_any (eq_by_cmp prioritised_cmp e) events.now) }
    ensures signals { into.new.set.signals ≡ into.old.set.signals }
{
    for e in events {
        into.add(*e);
    }
}

/// Adds the signals, into room that was made before.
fn add_signals(into: &mut Happened, signals: &[Signal])
    requires { length signals.now ≤ into.old.spare }
    ensures events { into.new.set.events ≡ into.old.set.events }
    ensures signals { (x : SignalOf)
        → has into.new.set.signals x
        ≡ (has into.old.set.signals x || list_any (eq_by_cmp signal_cmp x) signals.now) }
{
    for x in signals {
        into.add_signal(*x);
    }
}

/// The set of the listing.
pub(crate) fn set_listed(alloc: Global, listing: &Listing) -> Result<Happened, Memory>
    ensures { IfOk result (λ x. x.set ≡ set_in listing.now) }
{
    set_of_lists(alloc, listing.events.as_slice(), listing.signals.as_slice())
}

/// Whether the set of the listing, which is this one, is closed over the base and the status before
/// it, has the signals of the base, and is listed in an order that supports it.
pub(crate) fn is_shown(
    alloc: Global,
    rules: &Headed,
    base: &Happened,
    before: &Status,
    x: &Peaks,
    listing: &Listing,
) -> Result<bool, Memory>
    requires { x.now ≡ set_in listing.now }
    ensures { IfOk result (λ yes. IsTrue yes ↔ IsShown rules.now base.now.set
        (has before.now.set) listing.now) }
{
    if !same_signals(x.set(), base) {
        return Ok(false);
    }
    if !is_closed(rules, base, before, x) {
        return Ok(false);
    }
    let order = listing.events.as_slice();
    let supported = is_supported(alloc, rules, base, before, x, order)?;
    Ok(supported)
}

/// Whether the two have the same signals.
fn same_signals(x: &Happened, base: &Happened) -> bool
    ensures { IsTrue result ↔ (x.now.set.signals ≡ base.now.set.signals) }
{
    all_signalled(base, x.signals()) && all_signalled(x, base.signals())
}

/// Whether all of the signals are there.
fn all_signalled(x: &Happened, signals: &[Signal]) -> bool
    ensures { result ≡ list_all (has x.now.set.signals) signals.now }
{
    signals.iter().all(|s| x.signalled(*s))
}

/// Whether the set has the base and the head of each immediate trigger that is met in it.
fn is_closed(rules: &Headed, base: &Happened, before: &Status, x: &Peaks) -> bool
    ensures { result ≡ closed rules.now base.now.set (has before.now.set) x.now }
{
    has_all(x.set(), base.events()) && has_heads(rules, before, x)
}

/// Whether the set has the head of each immediate trigger that is met in it.
fn has_heads(rules: &Headed, before: &Status, x: &Peaks) -> bool
    ensures { result ≡ list_all (λ r. not (immediate r && met r x.now (has before.now.set))
        || has x.now.events r.head) rules.now }
{
    rules.triggers().iter().all(|r| has_head(r, before, x))
}

/// Whether the set has the head of the trigger, if that is immediate and met in it.
fn has_head(r: &Trigger, before: &Status, x: &Peaks) -> bool
    ensures { result ≡ (not (immediate r.now && met r.now x.now (has before.now.set))
        || has x.now.events r.now.head) }
{
    !fires(r, x, before) || x.has(r.head)
}

/// Whether the set has all of the events.
fn has_all(x: &Happened, events: &[Prioritised]) -> bool
    ensures { result ≡ list_all (has x.now.set.events) events.now }
{
    events.iter().all(|e| x.has(*e))
}

/// Whether the trigger is immediate and met in the set.
fn fires(r: &Trigger, x: &Peaks, before: &Status) -> bool
    ensures { result ≡ (immediate r.now && met r.now x.now (has before.now.set)) }
{
    r.delay == 0 && met_in(r, x, before)
}

/// Whether each of the events is supported by those before it.
fn is_supported(
    alloc: Global,
    rules: &Headed,
    base: &Happened,
    before: &Status,
    x: &Peaks,
    order: &[Prioritised],
) -> Result<bool, Memory>
    ensures { IfOk result (λ yes. yes ≡ grounded_after rules.now base.now.set
        (has before.now.set) x.now [] order.now) }
{
    let mut standing = Standing::new(alloc, order.len())?;
    for e in order {
        if !has_support(rules, base, before, x, &standing, e) {
            return Ok(false);
        }
        standing.note(x, e)?;
    }
    Ok(true)
}

/// Whether the event is in the base, or the head of an immediate trigger that is met in the set and
/// whose body events stand already.
fn has_support(
    rules: &Headed,
    base: &Happened,
    before: &Status,
    x: &Peaks,
    standing: &Standing,
    e: &Prioritised,
) -> bool
    ensures { result ≡ (has base.now.set.events e.now
        || list_any (λ r. immediate r && same_prioritised r.head e.now
        && met r x.now (has before.now.set) && list_all (stands_in standing.now) r.events)
        rules.now) }
{
    base.has(*e) || is_head(rules, before, x, standing, e)
}

/// Whether the event is the head of such a trigger.
fn is_head(rules: &Headed, before: &Status, x: &Peaks, standing: &Standing, e: &Prioritised) -> bool
    ensures { result ≡ list_any (λ r. immediate r && same_prioritised r.head e.now
        && met r x.now (has before.now.set) && list_all (stands_in standing.now) r.events)
        rules.now }
{
    let numbers = rules.by_head(e.event);
    is_headed_by(rules, numbers, before, x, standing, *e)
}

/// Whether a trigger with one of the numbers supports the event.
fn is_headed_by(
    rules: &Headed,
    numbers: &[u32],
    before: &Status,
    x: &Peaks,
    standing: &Standing,
    e: Prioritised,
) -> bool
    ensures { result ≡ list_any (λ n. passes (λ r. immediate r && same_prioritised r.head e
        && met r x.now (has before.now.set) && list_all (stands_in standing.now) r.events)
        (item_at rules.now n)) numbers.now }
{
    numbers
        .iter()
        .any(|n| supports_at(rules, *n, before, x, standing, e))
}

/// Whether the trigger of this number supports the event.
fn supports_at(
    rules: &Headed,
    n: u32,
    before: &Status,
    x: &Peaks,
    standing: &Standing,
    e: Prioritised,
) -> bool
    ensures { result ≡ passes (λ r. immediate r && same_prioritised r.head e
        && met r x.now (has before.now.set) && list_all (stands_in standing.now) r.events)
        (item_at rules.now n) }
{
    match rules.at(n) {
        Some(r) => supports(r, before, x, standing, e),
        None => false,
    }
}

/// Whether the trigger supports the event.
fn supports(r: &Trigger, before: &Status, x: &Peaks, standing: &Standing, e: Prioritised) -> bool
    ensures { result ≡ (immediate r.now && same_prioritised r.now.head e
        && met r.now x.now (has before.now.set)
        && list_all (stands_in standing.now) r.now.events) }
{
    if r.delay != 0 || !r.head.cmp(&e).is_eq() {
        return false;
    }
    met_in(r, x, before) && all_stand(r.events.as_slice(), standing)
}

/// Whether each of the events is there.
fn all_stand(events: &[Event], standing: &Standing) -> bool
    ensures { result ≡ list_all (stands_in standing.now) events.now }
{
    events.iter().all(|e| standing.has(*e))
}

/// Whether the base has neither an event nor a signal.
pub(crate) fn is_empty(base: &Happened) -> bool
    ensures { IsTrue result ↔ (base.now.set ≡ nothing) }
{
    !has_something(base)
}

/// Whether the set has an event or a signal.
fn has_something(x: &Happened) -> bool
    ensures { result ≡ is_something x.now.set }
{
    has_item(x.events()) || has_item(x.signals())
}

/// Whether there is an item.
pub(crate) fn has_item<T>(items: &[T]) -> bool
    ensures { result ≡ is_some_item items.now }
{
    !items.is_empty()
}
