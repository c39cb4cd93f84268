//! A timeline that jumps from one stirring instant to the next, against one that is closed minute
//! after minute.
ghost use Rattle.std.specs.Prelude.{◌≡◌, ◌≤◌, IfOk, OnOk};
ghost use Rattle.instant_bases.specs.Timelines.{StandsFor};

use crate::building::{at, ground_of};
use crate::drawing::{draw, drawn_head, drawn_policy, drawn_signal};
use crate::moving::{jump, request, signal, step};
use gt_base::{Fluent, Happened, Instant, List, Memory};
use std::alloc::Global;
use std::test::Fail;
use time_engine::{Closed, Ground, RequestFault, Timeline, Trace};

/// 2026-01-05T12:00, a Monday.
const NOON: u32 = 13_682_160;

fn is_quiet(happened: &Happened) -> bool {
    happened.len() == 0 && happened.signal_len() == 0
}

fn are_same_sets(one: &Happened, other: &Happened) -> bool {
    one.events() == other.events() && one.signals() == other.signals()
}

fn are_same(one: &Closed, other: &Closed) -> bool {
    one.at == other.at
        && are_same_sets(&one.base, &other.base)
        && are_same_sets(&one.set, &other.set)
}

fn are_same_traces(one: &Trace, other: &Trace) -> bool {
    one.len() == other.len()
        && one
            .as_slice()
            .iter()
            .zip(other.as_slice())
            .all(|(a, b)| are_same(a, b))
}

/// Whether the status is just these fluents.
fn has_status(line: &Timeline, wanted: &List<Fluent>) -> Result<bool, Memory> {
    Ok(line.status().fluents()?.as_slice() == wanted.as_slice())
}

/// Whether the two timelines are at one instant with one status and one set.
fn are_alike(one: &Timeline, other: &Timeline) -> Result<bool, Memory> {
    let wanted = one.status().fluents()?;
    Ok(
        one.now() == other.now()
            && are_same_sets(one.happened(), other.happened())
            && has_status(other, &wanted)?,
    )
}

/// Closes minute after minute up to the one before this. Whether nothing happened and the status
/// stayed.
fn is_quiet_before(
    g: &Ground,
    steps: &mut Timeline,
    wanted: &List<Fluent>,
    to: Instant,
) -> Result<bool, Memory>
    requires stands { StandsFor g.now.policy steps.old.line }
    ensures stands { StandsFor g.now.policy steps.new.line }
{
    for _ in steps.now().minute() + 1..to.minute() {
        step(g, steps)?;
        if !is_quiet(steps.happened()) || !has_status(steps, wanted)? {
            return Ok(false);
        }
    }
    Ok(true)
}

/// Jumps once, and closes the other timeline minute after minute up to there. Whether nothing
/// happened in between, and just there the same, unless it is the bound.
fn goes_on(
    g: &Ground,
    jumps: &mut Timeline,
    steps: &mut Timeline,
    bound: Instant,
) -> Result<bool, Memory>
    requires jumps { StandsFor g.now.policy jumps.old.line }
    requires steps { StandsFor g.now.policy steps.old.line }
    ensures jumps { StandsFor g.now.policy jumps.new.line }
    ensures steps { StandsFor g.now.policy steps.new.line }
{
    if jumps.now() >= bound {
        return Ok(true);
    }
    let wanted = jumps.status().fluents()?;
    jump(g, jumps, bound)?;
    if !is_quiet_before(g, steps, &wanted, jumps.now())? {
        return Ok(false);
    }
    step(g, steps)?;
    let stirred = jumps.now() == bound || !is_quiet(jumps.happened());
    Ok(stirred && are_alike(jumps, steps)?)
}

/// Goes on by so many minutes. Whether both timelines agree all the way.
fn agree_for(
    g: &Ground,
    jumps: &mut Timeline,
    steps: &mut Timeline,
    minutes: u32,
) -> Result<bool, Memory>
    requires jumps { StandsFor g.now.policy jumps.old.line }
    requires steps { StandsFor g.now.policy steps.old.line }
    ensures jumps { StandsFor g.now.policy jumps.new.line }
    ensures steps { StandsFor g.now.policy steps.new.line }
{
    let bound = at(jumps.now().minute().saturating_add(minutes))?;
    for _ in 0..minutes {
        if !goes_on(g, jumps, steps, bound)? {
            return Ok(false);
        }
    }
    Ok(jumps.now() == bound && steps.now() == bound)
}

/// The instant at which a request is due, none where it is refused.
fn due(answer: Result<Instant, RequestFault>) -> Option<Instant> {
    match answer {
        Ok(t) => Some(t),
        Err(_) => None,
    }
}

/// Gives both timelines the same request or signal. Whether both answer the same.
fn is_stirred(
    g: &Ground,
    jumps: &mut Timeline,
    steps: &mut Timeline,
    state: &mut u64,
) -> Result<bool, Memory>
    requires jumps { StandsFor g.now.policy jumps.old.line }
    requires steps { StandsFor g.now.policy steps.old.line }
    ensures jumps { StandsFor g.now.policy jumps.new.line }
    ensures steps { StandsFor g.now.policy steps.new.line }
{
    if draw(state, 3) == 0 {
        let s = drawn_signal(state);
        signal(g, jumps, s)?;
        signal(g, steps, s)?;
        return Ok(true);
    }
    let head = drawn_head(state)?;
    let delay = draw(state, 20);
    let one = due(request(g, jumps, &head, delay));
    let other = due(request(g, steps, &head, delay));
    Ok(one == other)
}

/// Three stretches of up to 60 minutes, before each of which something is requested or signalled.
/// Whether both timelines agree all the way.
fn agree_thrice(
    g: &Ground,
    jumps: &mut Timeline,
    steps: &mut Timeline,
    state: &mut u64,
) -> Result<bool, Memory>
    requires jumps { StandsFor g.now.policy jumps.old.line }
    requires steps { StandsFor g.now.policy steps.old.line }
{
    for _ in 0..3 {
        let minutes = draw(state, 60) + 1;
        if !is_stirred(g, jumps, steps, state)? || !agree_for(g, jumps, steps, minutes)? {
            return Ok(false);
        }
    }
    Ok(true)
}

/// The number of sets that happened in these stretches; none where the timelines differ.
fn agreed(g: &Ground, state: &mut u64, alloc: Global) -> Result<Option<usize>, Memory> {
    let birth = at(NOON)?;
    let mut jumps = Timeline::new(alloc, g, birth)?;
    let mut steps = Timeline::new(alloc, g, birth)?;
    if agree_thrice(g, &mut jumps, &mut steps, state)?
        && are_same_traces(jumps.trace(), steps.trace())
    {
        Ok(Some(jumps.trace().len()))
    } else {
        Ok(None)
    }
}

/// How many policies were safe, and how many sets happened in all.
#[derive(Clone, Copy)]
struct SafeCount {
    policies: u32,
    sets: usize,
}

/// So many random policies; none where the timelines of one differ.
fn counted(alloc: Global, policies: u32) -> Result<Option<SafeCount>, Memory> {
    let mut state = 2026;
    let mut count = SafeCount {
        policies: 0,
        sets: 0,
    };
    for _ in 0..policies {
        let text = drawn_policy(alloc, &mut state)?;
        let Some(ground) = ground_of(alloc, &text)? else {
            continue;
        };
        let Some(sets) = agreed(&ground, &mut state, alloc)? else {
            return Ok(None);
        };
        count.policies = count.policies.saturating_add(1);
        count.sets = count.sets.saturating_add(sets);
    }
    Ok(Some(count))
}

#[test]
fn jumping_is_closing_minute_after_minute(rt: HostRuntime) -> Result<(), Fail> {
    let count = counted(rt.alloc(), 6_000)?.ok_or("two timelines of a policy differ")?;
    assert!(rt;
        count.policies >= 3_600,
        "only {} policies were safe",
        count.policies
    );
    assert!(rt; count.sets >= 80_000, "only {} sets happened", count.sets);
    Ok(())
}
