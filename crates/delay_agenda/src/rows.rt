//! Rising rows of pairs. What is due next stands last.
ghost use Rattle.std.specs.Prelude.{◌≡◌, ◌≤◌, ◌<◌, ◌+◌, ◌&&◌, ◌||◌, true, not, length, IfOk, IfErr, vec_capacity, vec_len};
ghost use Rattle.gt_base.specs.declared.events.Prioritised.{Prioritised};
ghost use Rattle.gt_base.specs.Sets.{has, set_of_rising, with_member, Rises, GoesIn};
ghost use Rattle.delay_agenda.specs.Due.{pending_cmp, is_due_at};
ghost use Rattle.delay_agenda.specs.Rows.{lists_event, new_due_in, new_in, others_in, stands_in};

use crate::pairs::Pending;
use gt_base::{Happened, Instant};
use std::collections::BTreeSet;

/// Where the pair stands, or where it goes in.
fn find(items: &[Pending], k: &Pending) -> Result<usize, usize>
    requires { Rises pending_cmp items.now }
    ensures found { IfOk result
        (λ _. (has (set_of_rising {R = pending_cmp} items.now) k.now ≡ true)
        × (with_member (set_of_rising {R = pending_cmp} items.now) k.now
        ≡ set_of_rising items.now)) }
    ensures place { IfErr result (λ i. i ≤ length items.now) }
    ensures absent { IfErr result (GoesIn pending_cmp k.now items.now) }
{
    items.binary_search(k)
}

/// Whether the pair stands in the row.
pub(crate) fn is_in(items: &[Pending], k: &Pending) -> bool
    requires { Rises pending_cmp items.now }
    ensures { result ≡ has (set_of_rising {R = pending_cmp} items.now) k.now }
{
    match find(items, k) {
        Ok(_) => true,
        Err(_) => false,
    }
}

/// Puts the pair in, unless it is there.
pub(crate) fn put(items: &mut Vec<Pending>, k: Pending)
    requires rises { Rises pending_cmp items.old.items }
    requires room { vec_len items.old < vec_capacity items.old }
    ensures rises { Rises pending_cmp items.new.items }
    ensures set { set_of_rising {R = pending_cmp} items.new.items
        ≡ with_member (set_of_rising items.old.items) k }
    ensures capacity { vec_capacity items.old ≤ vec_capacity items.new }
    ensures len { vec_len items.new ≤ vec_len items.old + 1 }
{
    if let Err(place) = find(items, &k) {
        match items.insert(place, k) {
            Ok(()) => {}
            Err(_) => unreachable!(),
        }
    }
}

/// Whether the tree lacks the pair.
pub(crate) fn is_new(tree: &BTreeSet<Pending>, p: &Pending) -> bool
    ensures { result ≡ not (stands_in tree.now.keys p.now) }
{
    !tree.contains(p)
}

/// Whether the pair is due at the instant and the tree lacks it.
fn is_new_at(tree: &BTreeSet<Pending>, p: &Pending, t: Instant) -> bool
    ensures { result ≡ (is_due_at t p.now && not (stands_in tree.now.keys p.now)) }
{
    p.due == t && is_new(tree, p)
}

/// How many pairs the tree lacks.
pub(crate) fn count_new(row: &[Pending], tree: &BTreeSet<Pending>) -> usize
    ensures count { result ≡ length (new_in tree.now.keys row.now) }
    ensures bound { result ≤ length row.now }
{
    row.iter().filter(|p| is_new(tree, p)).count()
}

/// How many pairs that the tree lacks are due at the instant.
pub(crate) fn count_due(row: &[Pending], tree: &BTreeSet<Pending>, t: Instant) -> usize
    ensures count { result ≡ length (new_due_in tree.now.keys row.now t) }
    ensures bound { result ≤ length row.now }
{
    row.iter().filter(|p| is_new_at(tree, p, t)).count()
}

/// Adds the events that are due at the instant to the set, but for those that the tree has, where
/// room was made before.
pub(crate) fn tell_due(row: &[Pending], tree: &BTreeSet<Pending>, t: Instant, into: &mut Happened)
    requires { length (new_due_in tree.now.keys row.now t) ≤ into.old.spare }
    ensures events { (e : Prioritised) → has into.new.set.events e
        ≡ (has into.old.set.events e || lists_event (new_due_in tree.now.keys row.now t) e) }
    ensures signals { into.new.set.signals ≡ into.old.set.signals }
    ensures spare { into.old.spare ≤ into.new.spare
        + length (new_due_in tree.now.keys row.now t) }
{
    for p in row {
        if is_new_at(tree, p, t) {
            into.add(p.event);
        }
    }
}

/// Takes out the pairs that are due at the instant.
pub(crate) fn forget_due(row: &mut Vec<Pending>, t: Instant)
    ensures items { row.new.items ≡ others_in row.old.items t }
    ensures capacity { vec_capacity row.new ≡ vec_capacity row.old }
    ensures len { vec_len row.new ≤ vec_len row.old }
{
    row.retain(|p| p.due != t);
}
