//! Settling against a search over all sets, on thousands of small random rules.
ghost use Rattle.std.specs.Prelude.{◌<◌, ◌≤◌, ◌+◌, length, IfOk};
ghost use Rattle.dependency_graph.specs.Nets.{IsWithinLimits};

use crate::drawing::draw;
use gt_base::{
    Cond, Event, Fluent, Happened, List, Memory, Prio, Prioritised, RoleId, Status, Trigger,
};
use instant_engine::settle;
use policy_safety::{NoLevels, levels};
use std::alloc::{AllocError, Global};
use std::test::Fail;
use trigger_rules::Rules;

/// Two priorities, the higher one last.
#[derive(Clone, Copy)]
struct Prios {
    low: Prio,
    high: Prio,
}

/// 50 and 60.
fn two_prios() -> Option<Prios> {
    Some(Prios {
        low: Prio::new(50)?,
        high: Prio::new(60)?,
    })
}

/// A trigger by numbers. Events are numbered 0 to 7, from `disable 0`, `enable 0` to `enable 3`;
/// prioritised events 0 to 15, first those of the low priority; conditions as events.
#[derive(Clone, Copy)]
struct Drawn {
    body: u32,
    other: Option<u32>,
    cond: Option<u32>,
    settled: Option<u32>,
    head: u32,
    delay: u32,
}

/// Four triggers, a base and a status; sets of prioritised events and of roles are kept as the bits
/// of a word.
#[derive(Clone, Copy)]
struct Case {
    rules: [Drawn; 4],
    base: u32,
    before: u32,
}

/// What a case showed.
enum Outcome {
    Unsafe,
    Agreed,
    Differed,
}

fn bit(n: u32) -> u32 {
    1 << (n % 32)
}

fn contains(set: u32, n: u32) -> bool {
    set & bit(n) != 0
}

/// An event or a condition, a third of the times.
fn draw_maybe(state: &mut u64) -> Option<u32> {
    if draw(state, 3) == 0 {
        Some(draw(state, 8))
    } else {
        None
    }
}

/// A trigger, one of six delayed.
fn draw_rule(state: &mut u64) -> Drawn {
    Drawn {
        body: draw(state, 8),
        other: draw_maybe(state),
        cond: draw_maybe(state),
        settled: draw_maybe(state),
        head: draw(state, 16),
        delay: if draw(state, 6) == 0 { 5 } else { 0 },
    }
}

/// Up to three events in the base, and any status.
fn draw_case(state: &mut u64) -> Case {
    let rules = [
        draw_rule(state),
        draw_rule(state),
        draw_rule(state),
        draw_rule(state),
    ];
    let mut base = 0;
    for _ in 0..draw(state, 4) {
        base |= bit(draw(state, 16));
    }
    let before = draw(state, 16);
    Case {
        rules,
        base,
        before,
    }
}

/// Whether the converse stands in the set at a priority that blocks the event: at equal priority a
/// disable wins.
fn is_blocked(set: u32, n: u32) -> bool {
    let low = n % 8 ^ 1;
    let high = low + 8;
    let is_low = n % 16 < 8;
    let is_enable = n % 2 == 1;
    match (is_low, is_enable) {
        (true, true) => contains(set, low) || contains(set, high),
        (true, false) => contains(set, high),
        (false, true) => contains(set, high),
        (false, false) => false,
    }
}

/// Whether the event stands among the earlier ones at a priority at which it is not blocked in the
/// set.
fn stands(set: u32, earlier: u32, event: u32) -> bool {
    let low = event % 8;
    let high = low + 8;
    contains(earlier, low) && !is_blocked(set, low)
        || contains(earlier, high) && !is_blocked(set, high)
}

/// Whether the role is enabled after the set.
fn is_on_after(set: u32, before: u32, role: u32) -> bool {
    let off = role % 4 * 2;
    stands(set, set, off ^ 1) || contains(before, role) && !stands(set, set, off)
}

fn is_met(rule: Drawn, set: u32, earlier: u32, before: u32) -> bool {
    let cond = match rule.cond {
        Some(c) => contains(before, c / 2) == (c % 2 == 1),
        None => true,
    } && match rule.settled {
        Some(c) => is_on_after(set, before, c / 2) == (c % 2 == 1),
        None => true,
    };
    let other = match rule.other {
        Some(event) => stands(set, set, event) && stands(set, earlier, event),
        None => true,
    };
    cond && other && stands(set, set, rule.body) && stands(set, earlier, rule.body)
}

/// The heads of the immediate triggers that are met in the set and whose body events stand earlier.
fn heads(case: &Case, set: u32, earlier: u32) -> u32 {
    let mut heads = 0;
    for rule in &case.rules {
        if rule.delay == 0 && is_met(*rule, set, earlier, case.before) {
            heads |= bit(rule.head);
        }
    }
    heads
}

/// The events of the set that the base supports, step by step.
fn supported(case: &Case, set: u32) -> u32 {
    let mut earlier = 0;
    for _ in 0..16 {
        earlier |= set & (case.base | heads(case, set, earlier));
    }
    earlier
}

fn is_settled(case: &Case, set: u32) -> bool {
    let owed = case.base | heads(case, set, set);
    set & owed == owed && supported(case, set) == set
}

/// The events that can stand in a settled set.
fn candidates(case: &Case) -> u32 {
    let mut all = case.base;
    for rule in &case.rules {
        if rule.delay == 0 {
            all |= bit(rule.head);
        }
    }
    all
}

/// The settled set, where just one of all sets of candidates is settled.
fn searched(case: &Case) -> Option<u32> {
    let all = candidates(case);
    let mut found = None;
    let mut set = 0u32;
    for _ in 0..128 {
        if is_settled(case, set) {
            if found.is_some() {
                return None;
            }
            found = Some(set);
        }
        set = set.wrapping_sub(all) & all;
        if set == 0 {
            return found;
        }
    }
    None
}

fn event(n: u32) -> Event {
    Event {
        on: n % 2 == 1,
        fluent: Fluent::Enabled(RoleId(n % 8 / 2)),
    }
}

fn prioritised(prios: &Prios, n: u32) -> Prioritised {
    Prioritised {
        prio: if n < 8 { prios.low } else { prios.high },
        event: event(n),
    }
}

/// A list of the condition, if there is one.
fn conditions(alloc: Global, cond: Option<u32>) -> Result<List<Cond>, Memory>
    ensures { IfOk result (λ conds. length conds.items ≤ 1) }
{
    let mut conds = List::new(alloc);
    conds.reserve(1)?;
    if let Some(c) = cond {
        conds.push(Cond {
            on: c % 2 == 1,
            fluent: Fluent::Enabled(RoleId(c / 2)),
        });
    }
    Ok(conds)
}

fn trigger(alloc: Global, prios: &Prios, rule: Drawn) -> Result<Trigger, Memory>
    ensures { IfOk result (λ t. length t.events + length t.settled ≤ 16) }
{
    let mut events = List::new(alloc);
    events.reserve(2)?;
    events.push(event(rule.body));
    if let Some(other) = rule.other {
        events.push(event(other));
    }
    Ok(Trigger {
        events,
        signals: List::new(alloc),
        conds: conditions(alloc, rule.cond)?,
        settled: conditions(alloc, rule.settled)?,
        head: prioritised(prios, rule.head),
        delay: rule.delay,
    })
}

fn four(
    alloc: Global,
    a: Trigger,
    b: Trigger,
    c: Trigger,
    d: Trigger,
) -> Result<List<Trigger>, Memory>
    requires a { length a.events + length a.settled ≤ 16 }
    requires b { length b.events + length b.settled ≤ 16 }
    requires c { length c.events + length c.settled ≤ 16 }
    requires d { length d.events + length d.settled ≤ 16 }
    ensures { IfOk result (λ list. IsWithinLimits list.items) }
{
    let mut list = List::new(alloc);
    list.reserve(4)?;
    list.push(a);
    list.push(b);
    list.push(c);
    list.push(d);
    Ok(list)
}

fn triggers(alloc: Global, prios: &Prios, rules: [Drawn; 4]) -> Result<List<Trigger>, Memory>
    ensures { IfOk result (λ list. IsWithinLimits list.items) }
{
    let [a, b, c, d] = rules;
    four(
        alloc,
        trigger(alloc, prios, a)?,
        trigger(alloc, prios, b)?,
        trigger(alloc, prios, c)?,
        trigger(alloc, prios, d)?,
    )
}

fn happened(alloc: Global, prios: &Prios, set: u32) -> Result<Happened, Memory> {
    let mut happened = Happened::new(alloc);
    for n in 0..16 {
        let event = prioritised(prios, n);
        if contains(set, n) {
            happened.reserve(1)?;
            happened.add(event);
        }
    }
    Ok(happened)
}

fn status(alloc: Global, roles: u32) -> Result<Status, Memory> {
    let mut status = Status::new(alloc);
    for n in 0..4 {
        status.reserve(1)?;
        status.set(Fluent::Enabled(RoleId(n)), contains(roles, n));
    }
    Ok(status)
}

/// Whether these are just the events of the set.
fn is_of(prios: &Prios, happened: &Happened, set: u32) -> bool {
    let listed = happened.events();
    let mut others = listed.len();
    for n in 0..16 {
        if happened.has(prioritised(prios, n)) != contains(set, n) {
            return false;
        }
        if contains(set, n) {
            others = others.wrapping_sub(1);
        }
    }
    others == 0
}

/// What the triggers make of a base; none where they are not safe.
fn settled(
    alloc: Global,
    triggers: &List<Trigger>,
    base: &Happened,
    before: &Status,
) -> Result<Option<Happened>, Memory>
    requires { IsWithinLimits triggers.now.items }
{
    let rules = Rules::new(alloc, triggers)?;
    match levels(alloc, triggers) {
        Ok((graph, strata)) => Ok(Some(settle(alloc, &rules, &graph, &strata, base, before)?)),
        Err(NoLevels::Cycle { .. }) => Ok(None),
        Err(NoLevels::Memory) => Err(AllocError),
    }
}

fn judged(alloc: Global, prios: &Prios, case: &Case) -> Result<Outcome, Memory> {
    let triggers = triggers(alloc, prios, case.rules)?;
    let base = happened(alloc, prios, case.base)?;
    let before = status(alloc, case.before)?;
    Ok(
        match (settled(alloc, &triggers, &base, &before)?, searched(case)) {
            (None, _) => Outcome::Unsafe,
            (Some(happened), Some(set)) if is_of(prios, &happened, set) => Outcome::Agreed,
            _ => Outcome::Differed,
        },
    )
}

/// Eight thousand cases, or those before the first that differs: how many agreed, none where one
/// differed.
fn agreed(alloc: Global, prios: &Prios) -> Result<Option<u32>, Memory> {
    let mut state = 2026;
    let mut count = 0u32;
    for _ in 0..8_000 {
        match judged(alloc, prios, &draw_case(&mut state))? {
            Outcome::Unsafe => {}
            Outcome::Agreed => count = count.wrapping_add(1),
            Outcome::Differed => return Ok(None),
        }
    }
    Ok(Some(count))
}

#[test]
fn settles_as_searched(rt: HostRuntime) -> Result<(), Fail> {
    let alloc = rt.alloc();
    let prios = &two_prios().ok_or("no priorities")?;
    let count = agreed(alloc, prios)?.ok_or("a set that the search does not give")?;
    assert!(rt; count >= 2_000, "only {count} cases were safe");
    Ok(())
}
