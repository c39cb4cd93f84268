//! When a timeline raises something next, and its base at an instant.
ghost use Rattle.std.specs.Prelude.{◌≡◌, ℕ, ◌<◌, ◌≤◌, ◌+◌, ◌*◌, ◌++◌, ◌||◌, length, IfOk, OnOk};
ghost use Rattle.std.specs.List.{list_any};
ghost use Rattle.std.specs.Ordering.{eq_by_cmp};
ghost use Rattle.gt_base.specs.declared.events.Fluent.{Fluent};
ghost use Rattle.gt_base.specs.declared.events.Prioritised.{Prioritised};
ghost use Rattle.gt_base.specs.declared.events.Signal.{Signal};
ghost use Rattle.gt_base.specs.Orders.{prioritised_cmp, signal_cmp};
ghost use Rattle.gt_base.specs.Sets.{has, none};
ghost use Rattle.gtrbac_model.specs.Base.{periodic, limited};
ghost use Rattle.gtrbac_model.specs.History.{is_some_item};
ghost use Rattle.delay_agenda.specs.Due.{pending_at};
ghost use Rattle.instant_bases.specs.Nexts.{IsNextOf};
ghost use Rattle.instant_bases.specs.Timelines.{StandsFor, base_in, due_events, signals_for, since_of, stirs_in};
ghost use Rattle.time_engine.specs.Kept.{view_of};
ghost use Rattle.time_engine.specs.Plans.{IsTimeline};

use crate::states::TimelineState;
use crate::traces::has_item;
use gt_base::{Happened, Instant, Looks, Memory, Prioritised};
use instant_bases::{
    add_events, add_signals, earlier, minute_after, next_limited_in_looks, next_periodic_in_looks,
    push_limited, push_periodic,
};
use policy_book::Policy;
use std::marker::Brand;
use std::sync::ledger::{Blank, Ledger};

/// The least instant after now at which something is raised, none exactly where there is none.
pub(crate) fn due(s: &TimelineState, policy: &Policy) -> Option<Instant>
    requires stands { StandsFor policy.now.policy (view_of s.now) }
    requires kept { IsTimeline (view_of s.now) }
    ensures { IsNextOf (stirs_in policy.now.policy (view_of s.now)) s.now.present result }
{
    due_over::<Brand>(s, policy, Blank::new(1))
}

/// The same instant, where nobody asks how often something is looked at.
fn due_over<L: Ledger>(s: &TimelineState, policy: &Policy, blank: Blank) -> Option<Instant>
    requires stands { StandsFor policy.now.policy (view_of s.now) }
    requires kept { IsTimeline (view_of s.now) }
    requires name { blank.name ≡ L.name }
    requires parts { blank.parts ≡ L.parts }
    requires some { 0 < blank.parts }
    ensures { IsNextOf (stirs_in policy.now.policy (view_of s.now)) s.now.present result }
{
    let mut looks: Looks<L> = Looks::new(blank);
    due_in_looks(s, policy, &mut looks)
}

/// The same instant, and how often something is looked at for it: at most twice for each entry and
/// for each limit, and once at what is due later and at the signals.
pub(crate) fn due_in_looks<L: Ledger>(
    s: &TimelineState,
    policy: &Policy,
    looks: &mut Looks<L>,
) -> Option<Instant>
    requires stands { StandsFor policy.now.policy (view_of s.now) }
    requires kept { IsTimeline (view_of s.now) }
    ensures next { IsNextOf (stirs_in policy.now.policy (view_of s.now)) s.now.present result }
    ensures cost { looks.new ≤ looks.old
        + 2 * (length policy.now.policy.entries + length policy.now.policy.limits + 1) }
{
    let raised = next_raised(s, policy, looks);
    let later = earlier(raised, next_pending(s, looks));
    earlier(later, next_signals(s, looks))
}

/// The least instant after now at which the policy raises something by itself.
fn next_raised<L: Ledger>(
    s: &TimelineState,
    policy: &Policy,
    looks: &mut Looks<L>,
) -> Option<Instant>
    requires stands { StandsFor policy.now.policy (view_of s.now) }
    requires kept { IsTimeline (view_of s.now) }
    ensures next { IsNextOf (λ t. is_some_item (periodic policy.now.policy s.now.ages.birth t)
        || is_some_item (limited policy.now.policy (has s.now.status.set)
        (since_of (view_of s.now)) t)) s.now.present result }
    ensures cost { looks.new ≤ looks.old
        + 2 * (length policy.now.policy.entries + length policy.now.policy.limits) }
{
    policy.keeps();
    let periods = s.watches.as_slice();
    let entries = policy.entries().as_slice();
    let limits = policy.limits().as_slice();
    let next = next_periodic_in_looks(periods, entries, s.ages.birth(), s.present, looks);
    earlier(
        next,
        next_limited_in_looks(periods, limits, &s.status, &s.ages, s.present, looks),
    )
}

/// The least instant at which something is due, in one look at the front.
fn next_pending<L: Ledger>(s: &TimelineState, looks: &mut Looks<L>) -> Option<Instant>
    requires { IsTimeline (view_of s.now) }
    ensures next { IsNextOf (λ t. is_some_item (due_events s.now.pending.set t))
        s.now.present result }
    ensures cost { looks.new ≡ looks.old + 1 }
{
    looks.look();
    s.pending.next_due()
}

/// The minute after now, where a signal waits, in one look at them.
fn next_signals<L: Ledger>(s: &TimelineState, looks: &mut Looks<L>) -> Option<Instant>
    ensures next { IsNextOf (λ t. is_some_item (signals_for s.now.present s.now.signals.set t))
        s.now.present result }
    ensures cost { looks.new ≡ looks.old + 1 }
{
    looks.look();
    if has_item(s.signals.as_slice()) {
        minute_after(s.present)
    } else {
        None
    }
}

/// The base at an instant after now.
pub(crate) fn base(s: &TimelineState, policy: &Policy, t: Instant) -> Result<Happened, Memory>
    requires stands { StandsFor policy.now.policy (view_of s.now) }
    requires born { s.now.ages.birth ≤ s.now.present }
    requires later { s.now.present < t }
    ensures { IfOk result (λ b. b.set ≡ base_in policy.now.policy (view_of s.now) t) }
{
    let mut base = raised(s, policy, t)?;
    add_due(s, t, &mut base)?;
    add_waiting(s, t, &mut base)?;
    Ok(base)
}

/// What the policy raises by itself.
fn raised(s: &TimelineState, policy: &Policy, t: Instant) -> Result<Happened, Memory>
    requires stands { StandsFor policy.now.policy (view_of s.now) }
    requires later { s.now.ages.birth < t }
    ensures events { IfOk result (λ b. (e : Prioritised)
        → has b.set.events e ≡ list_any (eq_by_cmp prioritised_cmp e)
        (periodic policy.now.policy s.now.ages.birth t
        ++ limited policy.now.policy (has s.now.status.set) (since_of (view_of s.now)) t)) }
    ensures signals { IfOk result (λ b. b.set.signals ≡ none) }
{
    let raised = raised_list(s, policy, t)?;
    let mut base = Happened::new(s.alloc);
    base.reserve(raised.len())?;
    add_events(&mut base, &raised);
    Ok(base)
}

/// The same as a list.
fn raised_list(s: &TimelineState, policy: &Policy, t: Instant) -> Result<Vec<Prioritised>, Memory>
    requires stands { StandsFor policy.now.policy (view_of s.now) }
    requires later { s.now.ages.birth < t }
    ensures { IfOk result (λ xs. xs.items ≡ periodic policy.now.policy s.now.ages.birth t
        ++ limited policy.now.policy (has s.now.status.set) (since_of (view_of s.now)) t) }
{
    policy.keeps();
    let periods = s.watches.as_slice();
    let mut raised = Vec::new(s.alloc);
    push_periodic(
        &mut raised,
        periods,
        policy.entries().as_slice(),
        s.ages.birth(),
        t,
    )?;
    push_limited(
        &mut raised,
        periods,
        policy.limits().as_slice(),
        &s.status,
        &s.ages,
        t,
    )?;
    Ok(raised)
}

/// Adds what is due.
fn add_due(s: &TimelineState, t: Instant, base: &mut Happened) -> Result<(), Memory>
    ensures events { OnOk result ((e : Prioritised)
        → has base.new.set.events e ≡ (has base.old.set.events e
        || has s.now.pending.set (pending_at t e))) }
    ensures signals { OnOk result (base.new.set.signals ≡ base.old.set.signals) }
{
    base.reserve(s.pending.due_count(t))?;
    s.pending.tell(t, base);
    Ok(())
}

/// Adds the signals that wait, in the minute after now.
fn add_waiting(s: &TimelineState, t: Instant, base: &mut Happened) -> Result<(), Memory>
    ensures events { OnOk result (base.new.set.events ≡ base.old.set.events) }
    ensures signals { OnOk result ((x : Signal) → has base.new.set.signals x
        ≡ (has base.old.set.signals x
        || list_any (eq_by_cmp signal_cmp x) (signals_for s.now.present s.now.signals.set t))) }
{
    if t.minute() == s.present.minute() + 1 {
        let signals = s.signals.as_slice();
        base.reserve(signals.len())?;
        add_signals(base, signals);
    }
    Ok(())
}
