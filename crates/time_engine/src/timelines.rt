//! The timeline of a policy: closed from one instant that stirs to the next.
ghost use Rattle.std.specs.Prelude.{◌≡◌, ℕ, ◌<◌, ◌≤◌, ◌+◌, ◌*◌, nat_eq, cond, length, [], IfOk, IfErr, OnOk, OnErr};
ghost use Rattle.gt_base.specs.declared.events.Fluent.{Fluent};
ghost use Rattle.gt_base.specs.Happening.{nothing};
ghost use Rattle.gt_base.specs.Sets.{none};
ghost use Rattle.instant_bases.specs.Nexts.{IsNextOf};
ghost use Rattle.instant_bases.specs.Timelines.{StandsFor, since_of, stirs_in};
ghost use Rattle.time_engine.specs.Faults.{IsBeyond};
ghost use Rattle.time_engine.specs.Kept.{view_of};
ghost use Rattle.time_engine.specs.Plans.{ClosesTimeline, Fits, IsAfter, IsPlan, IsTimeline, NoneStirs, with_pending, with_signal, with_trace};
ghost use Rattle.time_engine.specs.Traces.{model_of};

use crate::closing::{follow, prepared};
use crate::copying::copied_trace;
use crate::dues::{due, due_in_looks};
use crate::grounds::Ground;
use crate::plans::Plan;
use crate::states::TimelineState;
use crate::traces::{Closed, Trace};
use crate::waiting::Waiting;
use delay_agenda::Agenda;
use duration_limits::Ages;
use gt_base::{Happened, Instant, LAST_MINUTE, List, Looks, Memory, Prioritised, Signal, Status};
use instant_bases::{WatchedPeriod, ask_all, copied_watches, watch_all};
use policy_book::Policy;
use std::alloc::Global;
use std::marker::Model;
use std::sync::ledger::Ledger;

/// Why an event was not queued. The timeline is then as it was.
#[derive(Clone, Copy, PartialEq, Eq)]
pub enum RequestFault {
    /// It would be due at this number of minutes since 2000-01-01T00:00, which is after the last
    /// instant.
    Beyond { due: u32 },
    /// There was no memory.
    Memory,
}

/// A run of a policy since its birth: the status of its instant, when fluents last changed, the
/// sets so far, the events that are due later, and the signals of the next minute. It is seen with
/// its room.
pub struct Timeline {
    state: TimelineState,
}

impl Model for Timeline {
    ghost use Rattle.std.specs.Prelude.{◌≡◌};
    ghost use Rattle.gt_base.specs.Happening.{nothing};
    ghost use Rattle.time_engine.specs.Plans.{TimelineValue, timeline_value_code, IsTimeline};

    ghost Value = { TimelineValue };

    ghost coded = { timeline_value_code };

    ghost use Rattle.time_engine.specs.Kept.{view_of, room_of};

    ghost view = { λ t. record {
      line = view_of t.state;
      spare = t.state.signals.spare;
      room = room_of t.state;
    } };

    ghost invariant = { λ t. IsTimeline (view_of t.state) × (t.state.quiet.set ≡ nothing) };
}

impl Drop for Timeline {
    fn drop(self) {
        let Timeline { state: _ } = self;
    }
}

impl Timeline {
    /// The timeline of the policy at its birth, at which nothing is raised. For want of memory it
    /// may refuse.
    pub fn new(alloc: Global, g: &Ground, birth: Instant) -> Result<Timeline, Memory>
        ensures stands { IfOk result (λ t. StandsFor g.now.policy t.line) }
        ensures born { IfOk result (λ t. (t.line.birth ≡ birth) × (t.line.now ≡ birth)) }
        ensures status { IfOk result (λ t. t.line.status ≡ g.now.policy.opening) }
        ensures ages { IfOk result (λ t. (f : Fluent) → since_of t.line f ≡ birth) }
        ensures empty { IfOk result (λ t. (t.line.trace ≡ []) × (t.line.pending ≡ none)
            × (t.line.signals ≡ none)) }
    {
        let policy = g.policy();
        let watches = asked(alloc, policy, birth)?;
        let status = policy.opening().copied()?;
        let state = TimelineState {
            alloc,
            watches,
            present: birth,
            status,
            ages: Ages::new(alloc, birth),
            trace: List::new(alloc),
            pending: Agenda::new(alloc),
            signals: Waiting::new(alloc),
            quiet: Happened::new(alloc),
        };
        Ok(Timeline { state })
    }

    /// What every timeline keeps.
    pub fn keeps(&self)
        ensures { IsTimeline self.now.line }
    {
        let _ = &self.state;
    }

    /// The instant up to which it is closed.
    pub fn now(&self) -> Instant
        ensures { result ≡ self.now.line.now }
    {
        self.state.present
    }

    /// The status after now.
    pub fn status(&self) -> &Status
        ensures { result.now.set ≡ self.now.line.status }
    {
        &self.state.status
    }

    /// The set of now; at the birth nothing happened.
    pub fn happened(&self) -> &Happened
        ensures { result.now.set ≡ model_of self.now.line.trace self.now.line.now }
    {
        happened(&self.state)
    }

    /// The nonempty sets so far, each with its instant and its base, by ascending instant.
    pub fn trace(&self) -> &Trace
        ensures { result.now.items ≡ self.now.line.trace }
    {
        &self.state.trace
    }

    /// The least instant after now at which something is raised while no request or signal comes,
    /// none exactly where there is none up to 2099-12-31T23:59. It takes no memory.
    pub fn due(&self, g: &Ground) -> Option<Instant>
        requires stands { StandsFor g.now.policy self.now.line }
        ensures { IsNextOf (stirs_in g.now.policy self.now.line) self.now.line.now result }
    {
        due(&self.state, g.policy())
    }

    /// The same instant, and how often something is looked at for it, however many minutes pass up
    /// to it: at most twice for each entry (its period is asked) and for each limit (its age and
    /// its period are), and once at the front of what is due later and at the signals that wait.
    /// The steps inside one search of the calendar are not counted.
    pub fn due_in_looks<L: Ledger>(&self, g: &Ground, looks: &mut Looks<L>) -> Option<Instant>
        requires stands { StandsFor g.now.policy self.now.line }
        ensures next { IsNextOf (stirs_in g.now.policy self.now.line) self.now.line.now result }
        ensures cost { looks.new ≤ looks.old
            + 2 * (length g.now.policy.entries + length g.now.policy.limits + 1) }
    {
        due_in_looks(&self.state, g.policy(), looks)
    }

    /// Closes the timeline at an instant after now that is not after the next one at which
    /// something is raised. For want of memory it may refuse; the timeline is then as it was.
    pub fn close(&mut self, g: &Ground, to: Instant) -> Result<(), Memory>
        requires stands { StandsFor g.now.policy self.old.line }
        requires later { self.old.line.now < to }
        requires skipped { NoneStirs g.now.policy self.old.line to }
        ensures ok { OnOk result (ClosesTimeline g.now.policy self.old.line to self.new.line) }
        ensures err { OnErr result (self.new.line ≡ self.old.line) }
        ensures spare { self.new.spare ≡ self.old.spare }
    {
        let plan = self.plan(g, to)?;
        self.commit(plan);
        Ok(())
    }

    /// What closing the timeline at this instant would give, with the room for it made. The
    /// timeline stays as it is seen, and loses no room. For want of memory it may refuse.
    pub fn plan(&mut self, g: &Ground, to: Instant) -> Result<Plan, Memory>
        requires stands { StandsFor g.now.policy self.old.line }
        requires later { self.old.line.now < to }
        requires skipped { NoneStirs g.now.policy self.old.line to }
        ensures line { self.new.line ≡ self.old.line }
        ensures spare { self.new.spare ≡ self.old.spare }
        ensures low { self.old.room ≤ self.new.room }
        ensures at { IfOk result (λ p. p.at ≡ to) }
        ensures plan { IfOk result (IsPlan g.now.policy self.old.line) }
        ensures fits { IfOk result (Fits self.old.line) }
        ensures room { IfOk result (λ p. p.need ≤ self.new.room) }
    {
        let plan = prepared(&mut self.state, g, to)?;
        Ok(plan)
    }

    /// Closes the timeline by a plan of it as it is now, into room that was made before. It takes
    /// no memory, and leaves the room for signals as it was.
    pub fn commit(&mut self, p: Plan)
        requires fits { Fits self.old.line p }
        requires room { p.need ≤ self.old.room }
        ensures after { IsAfter self.old.line p self.new.line }
        ensures spare { self.new.spare ≡ self.old.spare }
    {
        follow(&mut self.state, p);
    }

    /// Makes room for n more signals. For want of memory it may refuse. The timeline stays as it is
    /// seen, and loses no room.
    pub fn reserve(&mut self, n: usize) -> Result<(), Memory>
        ensures line { self.new.line ≡ self.old.line }
        ensures room { self.new.room ≡ self.old.room }
        ensures spare { self.old.spare ≤ self.new.spare }
        ensures made { OnOk result (n ≤ self.new.spare) }
    {
        self.state.signals.reserve(n)
    }

    /// Adds a signal of the minute after now, into room that was made before. At 2099-12-31T23:59
    /// it changes nothing.
    pub fn signal(&mut self, s: Signal)
        requires { 1 ≤ self.old.spare }
        ensures line { self.new.line ≡ with_signal self.old.line s }
        ensures room { self.new.room ≡ self.old.room }
        ensures spare { self.old.spare ≤ self.new.spare + 1 }
    {
        if self.state.present.minute() < LAST_MINUTE {
            self.state.signals.add(s);
        }
    }

    /// Queues an event that is due the delay, in minutes, after the minute after now, and answers
    /// that instant. It is refused exactly where the instant would be after 2099-12-31T23:59, or
    /// for want of memory; the timeline is then as it was.
    pub fn request(&mut self, p: Prioritised, delay: u32) -> Result<Instant, RequestFault>
        requires { delay ≤ LAST_MINUTE }
        ensures due { IfOk result (λ due. due ≡ self.old.line.now + 1 + delay) }
        ensures within { OnOk result (self.old.line.now + 1 + delay ≤ LAST_MINUTE) }
        ensures line { IfOk result (λ due. self.new.line ≡ with_pending self.old.line due p) }
        ensures err { OnErr result (self.new.line ≡ self.old.line) }
        ensures beyond { IfErr result (IsBeyond (self.old.line.now + 1 + delay)) }
        ensures spare { self.new.spare ≡ self.old.spare }
        ensures room { self.old.room ≤ self.new.room + 1 }
    {
        let minute = self.state.present.minute() + 1 + delay;
        let Some(due) = Instant::new(minute) else {
            return Err(RequestFault::Beyond { due: minute });
        };
        match self.state.pending.reserve(1) {
            Ok(()) => {}
            Err(_) => return Err(RequestFault::Memory),
        }
        self.state.pending.put(due, p);
        Ok(due)
    }

    /// An equal timeline, whose room may differ. For want of memory it may refuse.
    pub fn copied(&self) -> Result<Timeline, Memory>
        ensures { IfOk result (λ copy. copy.line ≡ self.now.line) }
    {
        let s = &self.state;
        let trace = copied_trace(s.alloc, &s.trace)?;
        let state = copied_over(s, trace)?;
        Ok(Timeline { state })
    }

    /// An equal timeline but for its trace, which is empty, and its room, which may differ. For
    /// want of memory it may refuse.
    pub fn copied_without_trace(&self) -> Result<Timeline, Memory>
        ensures { IfOk result (λ copy. copy.line ≡ with_trace self.now.line []) }
    {
        let s = &self.state;
        let state = copied_over(s, List::new(s.alloc))?;
        Ok(Timeline { state })
    }

    /// Empties the trace. Only `happened`, `trace` and `copied` look at it, so the timeline goes on
    /// as before.
    pub fn forget_trace(&mut self)
        ensures line { self.new.line ≡ with_trace self.old.line [] }
        ensures spare { self.new.spare ≡ self.old.spare }
    {
        self.state.trace = List::new(self.state.alloc);
    }
}

/// An equal state but for its trace, which is this one.
fn copied_over(s: &TimelineState, trace: Trace) -> Result<TimelineState, Memory>
    ensures view { IfOk result (λ copy. view_of copy ≡ with_trace (view_of s.now) trace.items) }
    ensures quiet { IfOk result (λ copy. copy.quiet.set ≡ nothing) }
{
    Ok(TimelineState {
        alloc: s.alloc,
        watches: copied_watches(s.alloc, &s.watches)?,
        present: s.present,
        status: s.status.copied()?,
        ages: s.ages.copied()?,
        trace,
        pending: s.pending.copied()?,
        signals: s.signals.copied()?,
        quiet: Happened::new(s.alloc),
    })
}

/// The periods of the policy, asked for what its entries and limits want to know.
fn asked(alloc: Global, policy: &Policy, birth: Instant) -> Result<Vec<WatchedPeriod>, Memory>
    ensures { IfOk result (λ watches. watches.items ≡ policy.now.policy.periods) }
{
    let mut watches = watch_all(alloc, policy.periods().as_slice(), birth)?;
    ask_all(
        &mut watches,
        policy.entries().as_slice(),
        policy.limits().as_slice(),
    );
    Ok(watches)
}

/// The set of now: the last one of the trace, where that is its instant.
fn happened(s: &TimelineState) -> &Happened
    requires kept { IsTimeline (view_of s.now) }
    requires quiet { s.now.quiet.set ≡ nothing }
    ensures { result.now.set ≡ model_of s.now.trace.items s.now.present }
{
    match s.trace.as_slice().last() {
        Some(last) => chosen(last, s.present, &s.quiet),
        None => &s.quiet,
    }
}

/// The set, where this is its instant, else the other.
fn chosen<'a>(last: &'a Closed, now: Instant, quiet: &'a Happened) -> &'a Happened
    ensures { result.now.set ≡ cond (nat_eq last.now.at now) last.now.set quiet.now.set }
{
    if last.at == now { &last.set } else { quiet }
}
