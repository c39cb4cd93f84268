//! The triggers by what their bodies have, made in one pass over them.
ghost use Rattle.std.specs.Prelude.{◌≡◌, ◌≤◌, ◌++◌, [], ◌∷◌, cond, false, length, IfOk, OnOk};
ghost use Rattle.std.specs.List.{list_any};
ghost use Rattle.gt_base.specs.declared.events.Event.{Event};
ghost use Rattle.gt_base.specs.declared.events.Signal.{Signal};
ghost use Rattle.gt_base.specs.declared.limits.TheConstants.{MAX_TRIGGERS};
ghost use Rattle.indexmap.specs.IndexMap.{get};
ghost use Rattle.trigger_rules.specs.Indexed.{event_eq, signal_eq, with_event, with_signal, under, ended_by, ends_in};

use gt_base::{Event, Memory, Signal, Trigger};
use indexmap::IndexMap;
use std::alloc::Global;
use std::hash::Hash;

/// Under each event of a body, the numbers of the triggers that have it, ascending.
pub(crate) fn event_index(
    alloc: Global,
    triggers: &[Trigger],
) -> Result<IndexMap<Event, Vec<u32>>, Memory>
    requires { length triggers.now ≤ MAX_TRIGGERS }
    ensures { IfOk result (λ m. (e : Event) → under (get event_eq m e) (λ v. v.items)
        ≡ with_event triggers.now e) }
{
    let mut index = IndexMap::new(alloc);
    for n in 0..triggers.len() {
        let trigger = &triggers[n];
        add_number(alloc, &mut index, n as u32, trigger.events.as_slice())?;
    }
    Ok(index)
}

/// Under each signal of a body, the numbers of the triggers that have it, ascending.
pub(crate) fn signal_index(
    alloc: Global,
    triggers: &[Trigger],
) -> Result<IndexMap<Signal, Vec<u32>>, Memory>
    requires { length triggers.now ≤ MAX_TRIGGERS }
    ensures { IfOk result (λ m. (s : Signal) → under (get signal_eq m s) (λ v. v.items)
        ≡ with_signal triggers.now s) }
{
    let mut index = IndexMap::new(alloc);
    for n in 0..triggers.len() {
        let trigger = &triggers[n];
        add_number(alloc, &mut index, n as u32, trigger.signals.as_slice())?;
    }
    Ok(index)
}

/// Puts a number under each of the keys, once. It stands under none of them yet.
fn add_number<K: Eq + Hash + Copy + Drop>(
    alloc: Global,
    index: &mut IndexMap<K, Vec<u32>>,
    n: u32,
    keys: &[K],
) -> Result<(), Memory>
    requires { (k : K) → ends_in n (under (get K.eq index.old k) (λ v. v.items)) ≡ false }
    ensures { OnOk result ((k : K) → under (get K.eq index.new k) (λ v. v.items)
        ≡ under (get K.eq index.old k) (λ v. v.items)
        ++ cond (list_any (K.eq k) keys.now) (n ∷ []) []) }
{
    for key in keys {
        end_by(alloc, index, n, *key)?;
    }
    Ok(())
}

/// Puts a number at the end of those under the key, unless it stands there.
fn end_by<K: Eq + Hash + Copy + Drop>(
    alloc: Global,
    index: &mut IndexMap<K, Vec<u32>>,
    n: u32,
    key: K,
) -> Result<(), Memory>
    ensures { OnOk result ((k : K) → under (get K.eq index.new k) (λ v. v.items)
        ≡ cond (K.eq key k) (ended_by n (under (get K.eq index.old key) (λ v. v.items)))
        (under (get K.eq index.old k) (λ v. v.items))) }
{
    push_once(index.entry(key)?.or_insert(Vec::new(alloc)), n)
}

/// Puts a number at the end, unless it stands there.
fn push_once(numbers: &mut Vec<u32>, n: u32) -> Result<(), Memory>
    ensures { OnOk result (numbers.new.items ≡ ended_by n numbers.old.items) }
{
    if !ends_in(numbers, n) {
        numbers.push(n)?;
    }
    Ok(())
}

/// Whether the last number is this one.
fn ends_in(numbers: &[u32], n: u32) -> bool
    ensures { result ≡ ends_in n numbers.now }
{
    match numbers {
        [.., last] => *last == n,
        [] => false,
    }
}
