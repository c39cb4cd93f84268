//! Pairs that are due far ahead, in no order.
ghost use Rattle.std.specs.Prelude.{◌≡◌, ◌≤◌, ◌+◌, ◌&&◌, ◌||◌, ◌∷◌, true, not, length, OnOk, vec_capacity, vec_len};
ghost use Rattle.gt_base.specs.declared.events.Prioritised.{Prioritised};
ghost use Rattle.gt_base.specs.Sets.{has};
ghost use Rattle.delay_agenda.specs.declared.pairs.Pending.{Pending as Pair};
ghost use Rattle.delay_agenda.specs.Due.{pending_at, is_due_at, count_due};
ghost use Rattle.delay_agenda.specs.Rows.{stands_in};
ghost use Rattle.delay_agenda.specs.Far.{AreBehind, all_over, more_in, more_due_in, soonest, soonest_over};

use crate::near::{Near, lesser};
use crate::pairs::Pending;
use gt_base::{Happened, Instant, Memory};

/// Whether the pair stands neither in the list nor in what is near.
fn is_lacking(list: &[Pending], near: &Near, p: &Pending) -> bool
    ensures { result ≡ not (has (all_over near.now.set list.now) p.now) }
{
    !list.contains(p) && !near.has(p)
}

/// Whether the pair is due at the instant, and stands neither in the list nor in what is near.
fn is_more_due(p: &Pending, list: &[Pending], near: &Near, t: Instant) -> bool
    ensures { result ≡ (is_due_at t p.now && not (has (all_over near.now.set list.now) p.now)) }
{
    p.due == t && is_lacking(list, near, p)
}

/// How many pairs it has that are not near.
pub(crate) fn count(far: &[Pending], near: &Near) -> usize
    ensures count { result ≡ more_in near.now.set far.now }
    ensures bound { result ≤ length far.now }
{
    let mut count = 0;
    let mut rest = far;
    while let [p, more @ ..] = rest {
        if is_lacking(more, near, p) {
            count += 1;
        }
        rest = more;
    }
    count
}

/// How many pairs are due at the instant that are not near.
pub(crate) fn count_due(far: &[Pending], near: &Near, t: Instant, horizon: u32) -> usize
    requires { AreBehind horizon far.now }
    ensures count { result + count_due near.now.set t
        ≡ count_due (all_over near.now.set far.now) t }
    ensures bound { result ≤ length far.now }
{
    if t.minute() <= horizon {
        0
    } else {
        count_all_due(far, near, t)
    }
}

/// The same, where some may be due then.
fn count_all_due(far: &[Pending], near: &Near, t: Instant) -> usize
    ensures count { result ≡ more_due_in near.now.set far.now t }
    ensures bound { result ≤ length far.now }
{
    let mut count = 0;
    let mut rest = far;
    while let [p, more @ ..] = rest {
        if is_more_due(p, more, near, t) {
            count += 1;
        }
        rest = more;
    }
    count
}

/// Adds the events that are due at the instant to the set, but for those that are near, where room
/// was made before.
pub(crate) fn tell(far: &[Pending], near: &Near, t: Instant, horizon: u32, into: &mut Happened)
    requires behind { AreBehind horizon far.now }
    requires room { count_due (all_over near.now.set far.now) t ≤ into.old.spare }
    ensures events { (e : Prioritised)
        → (has into.new.set.events e || has near.now.set (pending_at t e))
        ≡ (has into.old.set.events e || has (all_over near.now.set far.now) (pending_at t e)) }
    ensures signals { into.new.set.signals ≡ into.old.set.signals }
    ensures spare { into.old.spare + count_due near.now.set t
        ≤ into.new.spare + count_due (all_over near.now.set far.now) t }
{
    if t.minute() > horizon {
        tell_all(far, near, t, into);
    }
}

/// The same, where some may be due then.
fn tell_all(far: &[Pending], near: &Near, t: Instant, into: &mut Happened)
    requires { count_due (all_over near.now.set far.now) t ≤ into.old.spare }
    ensures events { (e : Prioritised)
        → (has into.new.set.events e || has near.now.set (pending_at t e))
        ≡ (has into.old.set.events e || has (all_over near.now.set far.now) (pending_at t e)) }
    ensures signals { into.new.set.signals ≡ into.old.set.signals }
    ensures spare { into.old.spare + count_due near.now.set t
        ≤ into.new.spare + count_due (all_over near.now.set far.now) t }
{
    let mut rest = far;
    while let [p, more @ ..] = rest {
        tell_one(p, more, near, t, into);
        rest = more;
    }
}

/// Adds the event of the pair to the set, if it is due at the instant, and neither near nor in the
/// list.
fn tell_one(p: &Pending, more: &[Pending], near: &Near, t: Instant, into: &mut Happened)
    requires { count_due (all_over near.now.set (p.now ∷ more.now)) t ≤ into.old.spare }
    ensures events { (e : Prioritised)
        → (has into.new.set.events e || has (all_over near.now.set more.now) (pending_at t e))
        ≡ (has into.old.set.events e
        || has (all_over near.now.set (p.now ∷ more.now)) (pending_at t e)) }
    ensures signals { into.new.set.signals ≡ into.old.set.signals }
    ensures spare { into.old.spare + count_due (all_over near.now.set more.now) t
        ≤ into.new.spare + count_due (all_over near.now.set (p.now ∷ more.now)) t }
{
    if is_more_due(p, more, near, t) {
        into.add(p.event);
    }
}

/// Takes out the pairs that are due at the instant.
pub(crate) fn forget(far: &mut Vec<Pending>, t: Instant, horizon: u32)
    requires { AreBehind horizon far.old.items }
    ensures items { (q : Pair) → stands_in far.new.items q
        ≡ (stands_in far.old.items q && not (is_due_at t q)) }
    ensures capacity { vec_capacity far.new ≡ vec_capacity far.old }
    ensures len { vec_len far.new ≤ vec_len far.old }
{
    if t.minute() > horizon {
        far.retain(|p| p.due != t);
    }
}

/// The least instant at which something is due: this one, or where it is behind the horizon, that
/// of a pair that is due sooner.
pub(crate) fn next_due(near: Option<Instant>, far: &[Pending], horizon: u32) -> Option<Instant>
    requires { AreBehind horizon far.now }
    ensures { result ≡ soonest_over near far.now }
{
    match near {
        Some(t) if t.minute() <= horizon => Some(t),
        _ => next_over(near, far),
    }
}

/// The same, by a look at each pair.
fn next_over(near: Option<Instant>, far: &[Pending]) -> Option<Instant>
    ensures { result ≡ soonest_over near far.now }
{
    let mut next = near;
    let mut rest = far;
    while let [p, more @ ..] = rest {
        next = Some(sooner(next, p.due));
        rest = more;
    }
    next
}

/// The sooner of the two.
fn sooner(next: Option<Instant>, t: Instant) -> Instant
    ensures { result ≡ soonest next t }
{
    match next {
        Some(u) => lesser(u, t),
        None => t,
    }
}

/// An eighth of the way from the soonest minute at which one is due to the latest, or 0.
pub(crate) fn further(far: &[Pending]) -> u32 {
    let mut least = u32::MAX;
    let mut greatest = 0;
    for p in far {
        least = least.min(p.due.minute());
        greatest = greatest.max(p.due.minute());
    }
    if least <= greatest {
        least + (greatest - least) / 8
    } else {
        0
    }
}

/// Puts the pairs that are due up to the minute among the near ones, and makes it the horizon,
/// unless the horizon is later. For want of memory it may refuse.
pub(crate) fn bring(
    near: &mut Near,
    far: &mut Vec<Pending>,
    horizon: &mut u32,
    to: u32,
) -> Result<(), Memory>
    requires { AreBehind horizon.old far.old.items }
    ensures behind { AreBehind horizon.new far.new.items }
    ensures set { all_over near.new.set far.new.items ≡ all_over near.old.set far.old.items }
    ensures spare { near.new.spare ≡ near.old.spare }
    ensures capacity { vec_capacity far.new ≡ vec_capacity far.old }
    ensures len { vec_len far.new ≤ vec_len far.old }
{
    if to > *horizon {
        insert_all(near, far, to)?;
        far.retain(|p| p.due.minute() > to);
        *horizon = to;
    }
    Ok(())
}

/// Adds those of the pairs that are due up to the minute to the near ones. For want of memory it
/// may refuse, with some of them added.
fn insert_all(near: &mut Near, far: &[Pending], to: u32) -> Result<(), Memory>
    ensures set { all_over near.new.set far.now ≡ all_over near.old.set far.now }
    ensures near { OnOk result ((q : Pair) → stands_in far.now q ≡ true → q.due ≤ to
        → has near.new.set q ≡ true) }
    ensures spare { near.new.spare ≡ near.old.spare }
{
    for p in far {
        if p.due.minute() <= to {
            near.insert(*p)?;
        }
    }
    Ok(())
}
