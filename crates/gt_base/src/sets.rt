//! Sets of events, signals and fluents, whose room is taken ahead: events and signals as rising
//! rows, fluents by flags and as words.
ghost use Rattle.std.specs.Prelude.{◌≡◌, ◌≤◌, ◌+◌, ◌<◌, if◌then◌else◌, length, slice_get, true, Some, OnOk, IfOk, IfSome, vec_capacity, vec_len};
ghost use Rattle.gt_base.specs.Sets.{has, members, none, with_member, without};
ghost use Rattle.gt_base.specs.Happening.{nothing};
ghost use Rattle.gt_base.specs.Words.{AreWords};
ghost use Rattle.gt_base.specs.Flags.{AreApart, IsOnlyGrant, set_of_parts};

use crate::events::{Event, Fluent, PermId, Prioritised, RoleId, Signal};
use crate::flags::{Flags, gathered, is_on_in, only_role_in};
use crate::lists::{List, Memory};
use crate::rows::{is_in, put};
use crate::words::{FlagWord, add_all, ascending, turn_off, turn_on};
use std::alloc::Global;
use std::marker::Model;

/// A set of events, seen as the set and the number of further events that it has room for.
#[derive(Drop)]
pub struct EventSet {
    events: Vec<Event>,
}

impl Model for EventSet {
    ghost use Rattle.std.specs.Prelude.{◌-◌, vec_capacity, vec_len};
    ghost use Rattle.gt_base.specs.Orders.{event_cmp};
    ghost use Rattle.gt_base.specs.Sets.{set_of_rising, Rises};
    ghost use Rattle.gt_base.specs.Happening.{Events, Roomier, events_code, roomier_code};

    ghost Value = { Roomier Events };

    ghost coded = { roomier_code events_code };

    ghost view = { λ s. record {
      set = set_of_rising s.events.items;
      spare = vec_capacity s.events - vec_len s.events;
    } };

    ghost invariant = { λ s. Rises event_cmp s.events.items };
}

impl EventSet {
    /// The empty set, which takes no memory yet.
    #[tactic(auto, using(crate::proofs::Rising::set_of_nothing))]
    pub fn new(alloc: Global) -> EventSet
        ensures { result.set ≡ none }
    {
        EventSet {
            events: Vec::new(alloc),
        }
    }

    /// Makes room for n more events. After a refusal the set is as it was.
    pub fn reserve(&mut self, n: usize) -> Result<(), Memory>
        ensures set { self.new.set ≡ self.old.set }
        ensures spare { self.old.spare ≤ self.new.spare }
        ensures room { OnOk result (n ≤ self.new.spare) }
    {
        self.events.reserve(n)
    }

    /// An equal set.
    pub fn copied(&self) -> Result<EventSet, Memory>
        ensures { IfOk result (λ copy. copy.set ≡ self.now.set) }
    {
        Ok(EventSet {
            events: Vec::from_slice(*self.events.allocator(), &self.events)?,
        })
    }

    /// How many events it has.
    pub fn len(&self) -> usize
        ensures { result ≡ length (members self.now.set) }
    {
        self.events.len()
    }

    /// The event at a place; each event stands at just one, in ascending order.
    pub fn at(&self, i: usize) -> Event
        requires { i < length (members self.now.set) }
        ensures { slice_get (members self.now.set) i ≡ Some result }
    {
        self.events[i]
    }

    /// The events, ascending.
    pub fn as_slice(&self) -> &[Event]
        ensures { result.now ≡ members self.now.set }
    {
        &self.events
    }

    /// Whether it has the event.
    pub fn has(&self, e: Event) -> bool
        ensures { result ≡ has self.now.set e }
    {
        is_in(&self.events, &e)
    }

    /// Adds the event, into room that was made before.
    pub fn add(&mut self, e: Event)
        requires { 1 ≤ self.old.spare }
        ensures set { self.new.set ≡ with_member self.old.set e }
        ensures spare { self.old.spare ≤ self.new.spare + 1 }
    {
        put(&mut self.events, e);
    }
}

/// What happens at an instant: a set of prioritised events and a set of signals, seen with the
/// number of further events, and as well of signals, that it has room for.
pub struct Happened {
    events: Vec<Prioritised>,
    signals: Vec<Signal>,
}

impl Drop for Happened {
    fn drop(self) {
        let Happened {
            events: _,
            signals: _,
        } = self;
    }
}

impl Model for Happened {
    ghost use Rattle.std.specs.Prelude.{◌-◌, min, vec_capacity, vec_len};
    ghost use Rattle.gt_base.specs.Orders.{prioritised_cmp, signal_cmp};
    ghost use Rattle.gt_base.specs.Sets.{set_of_rising, Rises};
    ghost use Rattle.gt_base.specs.Happening.{HappenedView, Roomier, happening_code, roomier_code};

    ghost Value = { Roomier HappenedView };

    ghost coded = { roomier_code happening_code };

    ghost view = { λ h. record {
      set = record {
        events = set_of_rising h.events.items;
        signals = set_of_rising h.signals.items;
      };
      spare = min (vec_capacity h.events - vec_len h.events)
          (vec_capacity h.signals - vec_len h.signals);
    } };

    ghost invariant = { λ h. Rises prioritised_cmp h.events.items
        × Rises signal_cmp h.signals.items };
}

impl Happened {
    /// The empty sets, which take no memory yet.
    #[tactic(auto, using(crate::proofs::Rising::set_of_nothing))]
    pub fn new(alloc: Global) -> Happened
        ensures { result.set ≡ nothing }
    {
        Happened {
            events: Vec::new(alloc),
            signals: Vec::new(alloc),
        }
    }

    /// Makes room for n more events and n more signals. After a refusal the sets are as they were.
    pub fn reserve(&mut self, n: usize) -> Result<(), Memory>
        ensures set { self.new.set ≡ self.old.set }
        ensures spare { self.old.spare ≤ self.new.spare }
        ensures room { OnOk result (n ≤ self.new.spare) }
    {
        self.events.reserve(n)?;
        self.signals.reserve(n)
    }

    /// Equal sets.
    pub fn copied(&self) -> Result<Happened, Memory>
        ensures { IfOk result (λ copy. copy.set ≡ self.now.set) }
    {
        let events = Vec::from_slice(*self.events.allocator(), &self.events)?;
        let signals = Vec::from_slice(*self.signals.allocator(), &self.signals)?;
        Ok(Happened { events, signals })
    }

    /// How many events it has, one event at two priorities counted twice.
    pub fn len(&self) -> usize
        ensures { result ≡ length (members self.now.set.events) }
    {
        self.events.len()
    }

    /// How many signals it has.
    pub fn signal_len(&self) -> usize
        ensures { result ≡ length (members self.now.set.signals) }
    {
        self.signals.len()
    }

    /// The event at a place; each stands at just one, in ascending order.
    pub fn at(&self, i: usize) -> Prioritised
        requires { i < length (members self.now.set.events) }
        ensures { slice_get (members self.now.set.events) i ≡ Some result }
    {
        self.events[i]
    }

    /// The signal at a place; each stands at just one, in ascending order.
    pub fn signal_at(&self, i: usize) -> Signal
        requires { i < length (members self.now.set.signals) }
        ensures { slice_get (members self.now.set.signals) i ≡ Some result }
    {
        self.signals[i]
    }

    /// The events with their priorities, ascending.
    pub fn events(&self) -> &[Prioritised]
        ensures { result.now ≡ members self.now.set.events }
    {
        &self.events
    }

    /// The signals, ascending.
    pub fn signals(&self) -> &[Signal]
        ensures { result.now ≡ members self.now.set.signals }
    {
        &self.signals
    }

    /// Whether it has the event at this priority.
    pub fn has(&self, p: Prioritised) -> bool
        ensures { result ≡ has self.now.set.events p }
    {
        is_in(&self.events, &p)
    }

    /// Whether it has the signal.
    pub fn signalled(&self, s: Signal) -> bool
        ensures { result ≡ has self.now.set.signals s }
    {
        is_in(&self.signals, &s)
    }

    /// Adds an event, into room that was made before.
    pub fn add(&mut self, p: Prioritised)
        requires { 1 ≤ self.old.spare }
        ensures events { self.new.set.events ≡ with_member self.old.set.events p }
        ensures signals { self.new.set.signals ≡ self.old.set.signals }
        ensures spare { self.old.spare ≤ self.new.spare + 1 }
    {
        put(&mut self.events, p);
    }

    /// Adds a signal, into room that was made before.
    pub fn add_signal(&mut self, s: Signal)
        requires { 1 ≤ self.old.spare }
        ensures events { self.new.set.events ≡ self.old.set.events }
        ensures signals { self.new.set.signals ≡ with_member self.old.set.signals s }
        ensures spare { self.old.spare ≤ self.new.spare + 1 }
    {
        put(&mut self.signals, s);
    }
}

/// Which fluents are on, seen as their set and the number of further words that it has room for.
/// Fluents that were on before have a flag each, in a row that copies share, so that a copy moves
/// the flags alone. For the others there are words of 64 fluents that stand side by side, and to
/// set one fluent on takes one further word at most.
pub struct Status {
    flags: Flags,
    words: Vec<FlagWord>,
}

impl Drop for Status {
    fn drop(self) {
        let Status { flags: _, words: _ } = self;
    }
}

impl Model for Status {
    ghost use Rattle.std.specs.Prelude.{◌-◌, vec_capacity, vec_len};
    ghost use Rattle.gt_base.specs.Happening.{Fluents, Roomier, fluents_code, roomier_code};
    ghost use Rattle.gt_base.specs.Words.{AreWords};
    ghost use Rattle.gt_base.specs.Flags.{set_of_parts, AreApart};

    ghost Value = { Roomier Fluents };

    ghost coded = { roomier_code fluents_code };

    ghost view = { λ s. record {
      set = set_of_parts s.flags s.words.items;
      spare = vec_capacity s.words - vec_len s.words;
    } };

    ghost invariant = { λ s. AreWords s.words.items × AreApart s.flags s.words.items };
}

impl Status {
    /// The status in which all is off, which takes no memory yet.
    #[tactic(auto, using(crate::proofs::FlagLaws::set_of_no_parts))]
    pub fn new(alloc: Global) -> Status
        ensures { result.set ≡ none }
    {
        Status {
            flags: Flags::new(alloc),
            words: Vec::new(alloc),
        }
    }

    /// Makes room for n more words, and so for n more fluents. After a refusal the status is as it
    /// was.
    pub fn reserve(&mut self, n: usize) -> Result<(), Memory>
        ensures set { self.new.set ≡ self.old.set }
        ensures spare { self.old.spare ≤ self.new.spare }
        ensures room { OnOk result (n ≤ self.new.spare) }
    {
        self.gather()?;
        self.words.reserve(n)
    }

    /// An equal status.
    pub fn copied(&self) -> Result<Status, Memory>
        ensures { IfOk result (λ copy. copy.set ≡ self.now.set) }
    {
        let mut copy = Status {
            flags: self.flags.copied()?,
            words: Vec::from_slice(*self.words.allocator(), &self.words)?,
        };
        let few = copy.flags.len() <= 2_048;
        let most = if few { 0 } else { copy.flags.len() / 32 };
        copy.gather_past(most)?;
        Ok(copy)
    }

    /// Gives each fluent of the words a flag, once they are many. After a refusal nothing is
    /// changed.
    fn gather(&mut self) -> Result<(), Memory>
        ensures set { self.new.set ≡ self.old.set }
        ensures spare { self.old.spare ≤ self.new.spare }
    {
        let most = self.flags.len() / 32;
        self.gather_past(most)
    }

    /// The same, once there are more words than so many.
    fn gather_past(&mut self, most: usize) -> Result<(), Memory>
        ensures set { self.new.set ≡ self.old.set }
        ensures spare { self.old.spare ≤ self.new.spare }
    {
        if self.words.len() > most {
            self.flags = gathered(*self.words.allocator(), &self.flags, &self.words)?;
            self.words.clear();
        }
        Ok(())
    }

    /// The fluents that are on, ascending: by sort, then by their numbers.
    pub fn fluents(&self) -> Result<List<Fluent>, Memory>
        ensures { IfOk result (λ fluents. fluents.items ≡ members self.now.set) }
    {
        let mut fluents = self.flags.lit(*self.words.allocator())?;
        add_all(&mut fluents, &self.words)?;
        Ok(List::from(ascending(fluents)))
    }

    /// Whether the fluent is on.
    pub fn is_on(&self, f: Fluent) -> bool
        ensures { result ≡ has self.now.set f }
    {
        is_on_in(&self.flags, &self.words, f)
    }

    /// A role such that the permission is granted to no other, and whether it is granted to it,
    /// where the status finds one without a look at many fluents; it may find none where there is
    /// one. It takes no memory.
    pub fn only_role(&self, perm: PermId) -> Option<(RoleId, bool)>
        ensures { IfSome result (IsOnlyGrant (has self.now.set) perm) }
    {
        only_role_in(&self.flags, &self.words, perm)
    }

    /// Sets the fluent on or off, into room that was made before.
    pub fn set(&mut self, f: Fluent, on: bool)
        requires { 1 ≤ self.old.spare }
        ensures set { self.new.set ≡ (if on then with_member self.old.set f
            else without self.old.set f) }
        ensures spare { self.old.spare ≤ self.new.spare + 1 }
    {
        if on {
            set_on(&mut self.flags, &mut self.words, f);
        } else {
            set_off(&mut self.flags, &mut self.words, f);
        }
    }
}

/// Sets the fluent on: by its flag, or, where it has none, by one further word at most.
fn set_on(flags: &mut Flags, words: &mut Vec<FlagWord>, f: Fluent)
    requires words { AreWords words.old.items }
    requires apart { AreApart flags.old words.old.items }
    requires room { vec_len words.old < vec_capacity words.old }
    ensures words { AreWords words.new.items }
    ensures apart { AreApart flags.new words.new.items }
    ensures set { set_of_parts flags.new words.new.items
        ≡ with_member (set_of_parts flags.old words.old.items) f }
    ensures capacity { vec_capacity words.old ≤ vec_capacity words.new }
    ensures len { vec_len words.new ≤ vec_len words.old + 1 }
{
    if !flags.turn_on(f) {
        turn_on(words, f);
    }
}

/// Sets the fluent off: by its flag, or, where it has none, by its word.
fn set_off(flags: &mut Flags, words: &mut Vec<FlagWord>, f: Fluent)
    requires words { AreWords words.old.items }
    requires apart { AreApart flags.old words.old.items }
    ensures words { AreWords words.new.items }
    ensures apart { AreApart flags.new words.new.items }
    ensures set { set_of_parts flags.new words.new.items
        ≡ without (set_of_parts flags.old words.old.items) f }
    ensures capacity { vec_capacity words.new ≡ vec_capacity words.old }
    ensures len { vec_len words.new ≡ vec_len words.old }
{
    if !flags.turn_off(f) {
        turn_off(words, f);
    }
}
