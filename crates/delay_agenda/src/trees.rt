//! Trees of pairs.
ghost use Rattle.std.specs.Prelude.{◌≡◌, ◌≤◌, ◌<◌, ◌+◌, ◌-◌, ◌^◌, ◌||◌, ◌↔◌, [], true, false, length, vec_capacity, vec_len, IfSome, IsNone, OnOk};
ghost use Rattle.std.specs.BTreeMap.Range.{is_past_end, IsLeBy, IsLtBy};
ghost use Rattle.std.specs.BTreeSet.{contains};
ghost use Rattle.std.specs.Map.Iter.{ShowsInOrder, deref};
ghost use Rattle.std.specs.Range.Bound.{IsForward};
ghost use Rattle.std.specs.declared.ops.Bound.TheVariants.{Included};
ghost use Rattle.gt_base.specs.declared.events.Prioritised.{Prioritised};
ghost use Rattle.gt_base.specs.Sets.{has};
ghost use Rattle.delay_agenda.specs.declared.pairs.Pending.{Pending as Pair};
ghost use Rattle.delay_agenda.specs.Due.{pending_at, pending_cmp};
ghost use Rattle.delay_agenda.specs.Rows.{due_in, first_event, lists_event, others_in, BothRise, pairs_of};

use crate::pairs::Pending;
use gt_base::{Event, Fluent, Happened, Instant, Memory, Prio, Prioritised, RoleId};
use std::collections::BTreeSet;
use std::collections::btree_set::Range;
use std::ops::Bound;

/// The pair, perhaps in no agenda, that stands first among those that are due at the instant.
fn first_at(due: Instant) -> Pending
    ensures { result ≡ pending_at due first_event }
{
    match Prio::new(0) {
        Some(prio) => Pending {
            due,
            event: Prioritised {
                prio,
                event: Event {
                    on: false,
                    fluent: Fluent::Enabled(RoleId(0)),
                },
            },
        },
        None => unreachable!(),
    }
}

/// Where the pairs begin that are due before the instant, if any can be.
fn end_at(t: Instant) -> Bound<Pending>
    ensures behind { (p : Pair) → p.due < t → is_past_end pending_cmp result p ≡ true }
    ensures before { (p : Pair) → t ≤ p.due → is_past_end pending_cmp result p ≡ false }
    ensures forward { IsForward (IsLeBy pending_cmp) (IsLtBy pending_cmp)
        (Included (pending_at t first_event)) result }
{
    match t.minute() {
        0 => Bound::Unbounded,
        m => match Instant::new(m - 1) {
            Some(before) => Bound::Excluded(first_at(before)),
            None => unreachable!(),
        },
    }
}

/// The pairs that are due at the instant.
fn due_in(tree: &BTreeSet<Pending>, t: Instant) -> Range<'_, Pending>
    ensures due { result ≡ due_in tree.now.keys t }
    ensures runs { ShowsInOrder (deref {X = Pair}) }
    ensures fits { length result < 2 ^ 63 }
{
    tree.range((Bound::Included(first_at(t)), end_at(t)))
}

/// Whether a pair may be due at the instant: the one that is due next is so then or before it.
fn reaches(tree: &BTreeSet<Pending>, t: Instant) -> bool
    ensures { result ≡ false → due_in tree.now.keys t ≡ [] }
{
    match tree.last() {
        Some(p) => p.due <= t,
        None => false,
    }
}

/// How many pairs are due at the instant.
pub(crate) fn count_due(tree: &BTreeSet<Pending>, t: Instant) -> usize
    ensures count { result ≡ length (due_in tree.now.keys t) }
    ensures fits { result < 2 ^ 63 }
{
    if reaches(tree, t) {
        due_in(tree, t).count()
    } else {
        0
    }
}

/// Adds the events that are due at the instant to the set, where room was made before.
pub(crate) fn tell_due(tree: &BTreeSet<Pending>, t: Instant, into: &mut Happened)
    requires { length (due_in tree.now.keys t) ≤ into.old.spare }
    ensures events { (e : Prioritised) → has into.new.set.events e
        ≡ (has into.old.set.events e || lists_event (due_in tree.now.keys t) e) }
    ensures signals { into.new.set.signals ≡ into.old.set.signals }
    ensures spare { into.old.spare ≤ into.new.spare + length (due_in tree.now.keys t) }
{
    if reaches(tree, t) {
        for p in due_in(tree, t) {
            into.add(p.event);
        }
    }
}

/// A pair that is due at the instant, if there is one.
fn some_due(tree: &BTreeSet<Pending>, t: Instant) -> Option<Pending>
    ensures none { IsNone result ↔ (due_in tree.now.keys t ≡ []) }
    ensures some { IfSome result (λ p. (p.due ≡ t) × (contains pending_cmp tree.now p ≡ true)) }
{
    if !reaches(tree, t) {
        return None;
    }
    match due_in(tree, t).next() {
        Some(p) => Some(*p),
        None => None,
    }
}

/// Takes out the pair that is due next, where it is due at the instant. Answers whether one is
/// taken out.
fn pop_due(tree: &mut BTreeSet<Pending>, t: Instant) -> bool
    ensures others { others_in tree.new.keys t ≡ others_in tree.old.keys t }
    ensures less { result ≡ true → length tree.new.keys < length tree.old.keys }
{
    let is_due = match tree.last() {
        Some(p) => p.due == t,
        None => false,
    };
    is_due && tree.pop_last().is_some()
}

/// Takes out the pairs that are due at the instant. They stand last, where none is due before it.
pub(crate) fn forget_due(tree: &mut BTreeSet<Pending>, t: Instant)
    ensures { tree.new.keys ≡ others_in tree.old.keys t }
{
    while pop_due(tree, t) {}
    while let Some(p) = some_due(tree, t) {
        tree.remove(&p);
    }
}

/// Moves the last pair of the row to the tree. For want of memory it may refuse; nothing is changed
/// then.
fn move_last(tree: &mut BTreeSet<Pending>, row: &mut Vec<Pending>) -> Result<(), Memory>
    requires { BothRise tree.old.keys row.old.items }
    ensures rise { BothRise tree.new.keys row.new.items }
    ensures set { pairs_of tree.new.keys row.new.items ≡ pairs_of tree.old.keys row.old.items }
    ensures capacity { vec_capacity row.new ≡ vec_capacity row.old }
    ensures len { vec_len row.new ≤ vec_len row.old }
    ensures less { OnOk result (vec_len row.new ≡ vec_len row.old - 1) }
{
    if let Some(p) = row.last() {
        let pair = *p;
        tree.insert(pair)?;
        row.pop();
    }
    Ok(())
}

/// Moves the pairs of the row to the tree. For want of memory it may refuse; those that have not
/// moved stand in the row then.
pub(crate) fn move_all(tree: &mut BTreeSet<Pending>, row: &mut Vec<Pending>) -> Result<(), Memory>
    requires { BothRise tree.old.keys row.old.items }
    ensures rise { BothRise tree.new.keys row.new.items }
    ensures set { pairs_of tree.new.keys row.new.items ≡ pairs_of tree.old.keys row.old.items }
    ensures capacity { vec_capacity row.new ≡ vec_capacity row.old }
    ensures len { vec_len row.new ≤ vec_len row.old }
{
    while !row.is_empty() {
        move_last(tree, row)?;
    }
    Ok(())
}
