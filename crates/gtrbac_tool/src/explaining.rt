//! Certificates of what happened in a book's history.
ghost use Rattle.std.specs.Prelude.{◌≡◌, ◌++◌, [], ◌∷◌, cond, flat_map, nat_lt, true, IfOk, OnOk};
ghost use Rattle.std.specs.List.{list_all};
ghost use Rattle.gt_base.specs.declared.events.Fluent.{Fluent as FluentOf};
ghost use Rattle.gt_base.specs.Happening.{HappenedView};
ghost use Rattle.gt_base.specs.Sets.{has, members};
ghost use Rattle.gtrbac_model.specs.Conflict.{after};
ghost use Rattle.gtrbac_model.specs.Graph.{item_at};
ghost use Rattle.gtrbac_model.specs.History.{now_of};
ghost use Rattle.gtrbac_model.specs.Instant.{IsGrounding, Settled};
ghost use Rattle.gtrbac_model.specs.WholePolicy.{has_cause};
ghost use Rattle.trigger_rules.specs.Indexed.{with_event, with_signal};
ghost use Rattle.why_check.specs.Certificates.{Accepts};
ghost use Rattle.why_check.specs.Standing.{stands_in};
ghost use Rattle.gtrbac_tool.specs.Listing.{AddsListing, AreListings, AreSettled, OnlyLastReaches, Tracks, raises_next, next_head, with_head, waiting_with};
ghost use Rattle.gtrbac_tool.specs.Standing.{made_before};

use crate::joined::Joined;
use core_machine::{Book, Closed};
use gt_base::{Event, Happened, Instant, List, Memory, Prioritised, Signal, Status, Trigger};
use std::alloc::Global;
use trigger_rules::Rules;
use why_check::{Cert, Peaks, Standing, accept, met_in, turn};

/// A certificate of a history, and the status before the history's last instant.
#[derive(Drop)]
pub(crate) struct Explanation {
    pub(crate) cert: Cert,
    pub(crate) before: Status,
}

/// A certificate of the book's history. Each set of the trace is listed in an order that supports
/// it: its base, and then head after head whose trigger is met and whose body events stand already.
/// The certificate is given out after it was accepted, which it always is: only want of memory is
/// free.
pub fn explain(alloc: Global, book: &Book) -> Result<Cert, Memory>
    ensures { IfOk result (λ cert. Accepts book.now.named.policy book.now.birth book.now.entries
        cert) }
{
    let Explanation { cert, before: _ } = explained(alloc, book)?;
    Ok(cert)
}

/// A certificate that was accepted, and the status that the sets before the last instant make.
pub(crate) fn explained(alloc: Global, book: &Book) -> Result<Explanation, Memory>
    ensures cert { IfOk result (λ it. Accepts book.now.named.policy book.now.birth
        book.now.entries it.cert) }
    ensures before { IfOk result (λ it. (f : FluentOf) → has it.before.set f
        ≡ made_before (now_of book.now.birth book.now.entries) book.now.trace
        (has book.now.named.policy.opening) f) }
{
    book.keeps();
    let made = listed(alloc, book)?;
    let policy = book.ground().policy();
    if accept(policy, book.birth(), book.entries(), &made.cert)? {
        Ok(made)
    } else {
        unreachable!()
    }
}

/// The sets of the trace in their orders, and the status before the last instant.
fn listed(alloc: Global, book: &Book) -> Result<Explanation, Memory>
    ensures cert { IfOk result (λ it. Accepts book.now.named.policy book.now.birth
        book.now.entries it.cert) }
    ensures before { IfOk result (λ it. (f : FluentOf) → has it.before.set f
        ≡ made_before (now_of book.now.birth book.now.entries) book.now.trace
        (has book.now.named.policy.opening) f) }
{
    book.keeps();
    book.timeline().keeps();
    let policy = book.policy();
    policy.keeps();
    let rules = Rules::new(alloc, policy.triggers())?;
    let now = book.now();
    listings(
        alloc,
        &rules,
        policy.opening(),
        book.trace().as_slice(),
        now,
    )
}

/// The sets in their orders, over the status before the first, and the status that those before an
/// instant make, which all but the last are.
fn listings(
    alloc: Global,
    rules: &Rules,
    opening: &Status,
    trace: &[Closed],
    now: Instant,
) -> Result<Explanation, Memory>
    requires caused { list_all has_cause rules.now ≡ true }
    requires settled { AreSettled rules.now (has opening.now.set) trace.now }
    requires ends { OnlyLastReaches now trace.now }
    ensures cert { IfOk result
        (λ it. AreListings rules.now (has opening.now.set) trace.now it.cert) }
    ensures before { IfOk result (λ it. (f : FluentOf) → has it.before.set f
        ≡ made_before now trace.now (has opening.now.set) f) }
{
    let mut cert = Cert::new(alloc);
    let mut before = opening.copied()?;
    for closed in trace {
        add(alloc, &mut cert, rules, closed, &mut before, now)?;
    }
    Ok(Explanation { cert, before })
}

/// Adds the set of an instant in its order, and turns the status to that after it, where it is
/// before now.
fn add(
    alloc: Global,
    cert: &mut Cert,
    rules: &Rules,
    closed: &Closed,
    status: &mut Status,
    now: Instant,
) -> Result<(), Memory>
    requires caused { list_all has_cause rules.now ≡ true }
    requires settled { Settled rules.now closed.now.base (has status.old.set) closed.now.set }
    ensures added { OnOk result (AddsListing rules.now (has status.old.set) closed.now cert.old
        cert.new) }
    ensures turned { OnOk result ((f : FluentOf) → has status.new.set f
        ≡ cond (nat_lt closed.now.at now) (after closed.now.set (has status.old.set) f)
        (has status.old.set f)) }
{
    let x = Peaks::new(alloc, closed.set.copied()?)?;
    let events = support_order(alloc, rules, &closed.base, status, &x)?;
    let signals = Vec::from_slice(alloc, closed.set.signals())?;
    cert.add(closed.at, events, List::from(signals))?;
    turn_before(status, &x, closed.at, now)?;
    Ok(())
}

/// Turns the status to that after the set of an instant, where that is before now.
fn turn_before(status: &mut Status, x: &Peaks, at: Instant, now: Instant) -> Result<(), Memory>
    ensures { OnOk result ((f : FluentOf) → has status.new.set f
        ≡ cond (nat_lt at now) (after x.now (has status.old.set) f) (has status.old.set f)) }
{
    if at < now {
        turn(status, x)?;
    }
    Ok(())
}

/// The events in an order that supports them.
#[derive(Drop)]
struct Order {
    events: Vec<Prioritised>,
    there: Joined,
    standing: Standing,
}

/// The events of the set, first those of the base, then the heads that those before support. Each
/// trigger has an event or a signal in its body; it is looked at for each signal of its body that
/// is there, and each time that an event of its body joins.
fn support_order(
    alloc: Global,
    rules: &Rules,
    base: &Happened,
    before: &Status,
    x: &Peaks,
) -> Result<List<Prioritised>, Memory>
    requires caused { list_all has_cause rules.now ≡ true }
    requires settled { Settled rules.now base.now.set (has before.now.set) x.now }
    ensures { IfOk result (λ es. IsGrounding rules.now base.now.set
        (has before.now.set) x.now es.items) }
{
    let mut order = no_order(alloc, x.set().len())?;
    let mut pending = Vec::new(alloc);
    wake_by_signals(&mut pending, rules, base.signals())?;
    join_all(&mut order, &mut pending, rules, x, base.events())?;
    while let Some(t) = pending.pop() {
        let head = head_next(&order, rules, t, before, x);
        join_head(&mut order, &mut pending, rules, x, head)?;
    }
    Ok(listed_in(order))
}

/// None yet, with room for so many.
fn no_order(alloc: Global, many: usize) -> Result<Order, Memory>
    ensures events { IfOk result (λ o. o.events.items ≡ []) }
    ensures tracks { (x : HappenedView) → IfOk result (Tracks x) }
{
    let events = Vec::with_capacity(alloc, many)?;
    let there = Joined::new(alloc, many)?;
    let standing = Standing::new(alloc, many)?;
    Ok(Order {
        events,
        there,
        standing,
    })
}

/// The events of the order.
fn listed_in(order: Order) -> List<Prioritised>
    ensures { result.items ≡ order.events.items }
{
    let Order {
        events,
        there: _,
        standing: _,
    } = order;
    List::from(events)
}

/// Lets the triggers wait that have one of the signals in their bodies.
fn wake_by_signals(pending: &mut Vec<u32>, rules: &Rules, signals: &[Signal]) -> Result<(), Memory>
    ensures { OnOk result (pending.new.items ≡ pending.old.items
        ++ flat_map (with_signal rules.now) signals.now) }
{
    for s in signals {
        pending.extend_from_slice(rules.by_signal(*s))?;
    }
    Ok(())
}

/// Adds the events, and lets the triggers wait that have one of them in their bodies.
fn join_all(
    order: &mut Order,
    pending: &mut Vec<u32>,
    rules: &Rules,
    x: &Peaks,
    events: &[Prioritised],
) -> Result<(), Memory>
    ensures tracks { OnOk result (Tracks x.now order.old → Tracks x.now order.new) }
    ensures events { OnOk result (order.new.events.items ≡ order.old.events.items ++ events.now) }
    ensures pending { OnOk result (pending.new.items ≡ pending.old.items
        ++ flat_map (λ o. with_event rules.now o.event) events.now) }
{
    for e in events {
        join(order, pending, rules, x, e)?;
    }
    Ok(())
}

/// Adds the head, if there is one, and lets the triggers wait that have it in their bodies.
fn join_head(
    order: &mut Order,
    pending: &mut Vec<u32>,
    rules: &Rules,
    x: &Peaks,
    head: Option<Prioritised>,
) -> Result<(), Memory>
    ensures tracks { OnOk result (Tracks x.now order.old → Tracks x.now order.new) }
    ensures events { OnOk result (order.new.events.items ≡ with_head order.old.events.items head) }
    ensures pending { OnOk result (pending.new.items
        ≡ waiting_with rules.now pending.old.items head) }
{
    if let Some(head) = head {
        join(order, pending, rules, x, &head)?;
    }
    Ok(())
}

/// Adds the event, and lets the triggers wait that have it in their bodies.
fn join(
    order: &mut Order,
    pending: &mut Vec<u32>,
    rules: &Rules,
    x: &Peaks,
    e: &Prioritised,
) -> Result<(), Memory>
    ensures tracks { OnOk result (Tracks x.now order.old → Tracks x.now order.new) }
    ensures events { OnOk result (order.new.events.items ≡ order.old.events.items ++ e.now ∷ []) }
    ensures pending { OnOk result (pending.new.items
        ≡ pending.old.items ++ with_event rules.now e.now.event) }
{
    push(order, x, e)?;
    pending.extend_from_slice(rules.by_event(e.event))
}

/// The head of the trigger of this number, if it stands by those before and is not there yet.
fn head_next(
    order: &Order,
    rules: &Rules,
    t: u32,
    before: &Status,
    x: &Peaks,
) -> Option<Prioritised>
    requires { Tracks x.now order.now }
    ensures { result ≡ next_head (has before.now.set) x.now order.now.events.items
        (item_at rules.now t) }
{
    let r = rules.triggers().get(t as usize)?;
    if is_next(order, r, before, x) {
        Some(r.head)
    } else {
        None
    }
}

/// Whether the head of the trigger stands by those before and is not there yet.
fn is_next(order: &Order, r: &Trigger, before: &Status, x: &Peaks) -> bool
    requires { Tracks x.now order.now }
    ensures { result ≡ raises_next (has before.now.set) x.now order.now.events.items r.now }
{
    if r.delay > 0 || order.there.has(r.head) || !met_in(r, x, before) {
        return false;
    }
    all_stand(r.events.as_slice(), &order.standing)
}

/// Whether each of the events is there.
fn all_stand(events: &[Event], standing: &Standing) -> bool
    ensures { result ≡ list_all (stands_in standing.now) events.now }
{
    events.iter().all(|e| standing.has(*e))
}

/// Adds the event.
fn push(order: &mut Order, x: &Peaks, e: &Prioritised) -> Result<(), Memory>
    ensures tracks { OnOk result (Tracks x.now order.old → Tracks x.now order.new) }
    ensures events { OnOk result (order.new.events.items ≡ order.old.events.items ++ e.now ∷ []) }
{
    order.events.push(*e)?;
    order.there.add(*e)?;
    order.standing.note(x, e)
}
