//! Which version a policy is written in.
ghost use Rattle.std.specs.Prelude.{◌≡◌, ◌||◌, true, length};
ghost use Rattle.std.specs.List.{list_all, list_any};
ghost use Rattle.gt_base.specs.Sets.{has};
ghost use Rattle.policy_words.specs.declared.parts.Sort.TheVariants.{Linking};
ghost use Rattle.policy_words.specs.Sorts.{has_sort};
ghost use Rattle.policy_words.specs.Making.{edges_from};
ghost use Rattle.policy_words.specs.Canonical.{rule_names_edge, switches_edges, is_version_one, version_of};

use gt_base::{Cond, Event, Fluent, LimitRule, PeriodicEntry, Status, Trigger};
use policy_book::Policy;
use policy_words::Sort;

/// Whether a fluent is of an edge, whichever its state is.
fn is_linked(f: Fluent) -> bool
    ensures { result ≡ has_sort Linking f }
{
    Sort::Linking.has(f)
}

/// Whether an event of a body is of an edge.
fn some_event(events: &[Event]) -> bool
    ensures { result ≡ list_any (λ e. has_sort Linking e.fluent) events.now }
{
    events.iter().any(
        |e: &Event| -> bool
            ensures { result ≡ has_sort Linking e.now.fluent }
        { is_linked(e.fluent) },
    )
}

/// Whether a condition, settled or not, asks for an edge.
fn some_cond(conds: &[Cond]) -> bool
    ensures { result ≡ list_any (λ c. has_sort Linking c.fluent) conds.now }
{
    conds.iter().any(
        |c: &Cond| -> bool
            ensures { result ≡ has_sort Linking c.now.fluent }
        { is_linked(c.fluent) },
    )
}

/// Whether the body or the head of a trigger names an edge; signals have none.
fn trigger_names_edge(trigger: &Trigger) -> bool
    ensures { result ≡ rule_names_edge trigger.now }
{
    some_event(trigger.events.as_slice())
        || some_cond(trigger.conds.as_slice())
        || some_cond(trigger.settled.as_slice())
        || is_linked(trigger.head.event.fluent)
}

/// Whether a limit watches an edge.
fn some_limit(limits: &[LimitRule]) -> bool
    ensures { result ≡ list_any (λ l. has_sort Linking l.cond.fluent) limits.now }
{
    limits.iter().any(
        |l: &LimitRule| -> bool
            ensures { result ≡ has_sort Linking l.now.cond.fluent }
        { is_linked(l.cond.fluent) },
    )
}

/// Whether a periodic entry switches an edge.
fn some_entry(entries: &[PeriodicEntry]) -> bool
    ensures { result ≡ list_any (λ e. has_sort Linking e.head.event.fluent) entries.now }
{
    entries.iter().any(
        |e: &PeriodicEntry| -> bool
            ensures { result ≡ has_sort Linking e.now.head.event.fluent }
        { is_linked(e.head.event.fluent) },
    )
}

/// Whether a trigger names an edge, in its body or as its head.
fn some_trigger(triggers: &[Trigger]) -> bool
    ensures { result ≡ list_any rule_names_edge triggers.now }
{
    triggers.iter().any(
        |t: &Trigger| -> bool
            ensures { result ≡ rule_names_edge t.now }
        { trigger_names_edge(t) },
    )
}

/// Whether a limit, an entry or a trigger names an edge.
fn names_edges(p: &Policy) -> bool
    ensures { result ≡ switches_edges p.now.policy }
{
    some_limit(p.limits().as_slice())
        || some_entry(p.entries().as_slice())
        || some_trigger(p.triggers().as_slice())
}

/// Whether the edges below this number are all on.
fn are_linked(status: &Status, count: u32) -> bool
    ensures { result ≡ list_all (has status.now.set) (edges_from 0 count) }
{
    let mut n = count;
    while n > 0 {
        n -= 1;
        if !status.is_on(Fluent::Edge(n)) {
            return false;
        }
    }
    true
}

/// The number of edges; a policy has at most 4,000, so none is lost in 32 bits.
fn edge_count(p: &Policy) -> u32
    ensures { result ≡ length p.now.policy.edges }
{
    p.keeps();
    p.edges().len() as u32
}

/// Whether the policy is written in version 1: every edge is linked at first, and nothing else
/// names an edge.
pub(crate) fn is_version_one(p: &Policy) -> bool
    ensures { result ≡ is_version_one p.now.policy }
{
    are_linked(p.opening(), edge_count(p)) && !names_edges(p)
}

/// The version that the policy is written in, 1 or 2.
pub(crate) fn version_of(p: &Policy) -> u32
    ensures { result ≡ version_of p.now.policy }
{
    if is_version_one(p) { 1 } else { 2 }
}
