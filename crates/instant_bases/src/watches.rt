//! Periods that remember what was asked of them.
ghost use Rattle.std.specs.Prelude.{◌≡◌, ◌+◌, true, false, IfOk};
ghost use Rattle.calendar_match.specs.Next.{turns as turned};
ghost use Rattle.gtrbac_model.specs.Period.{inside as insides, starts};
ghost use Rattle.instant_bases.specs.Remembered.{IsNextAsked};
ghost use Rattle.instant_bases.specs.Nexts.{IsNextOf};

use crate::remembered::{Remembered, recalled, so_at};
use calendar_match::{inside, next_edge, next_inside, next_start, starts};
use gt_base::{Form, Instant, LimitRule, Looks, Memory, PeriodId, PeriodicEntry};
use periodic_expr::Period;
use std::alloc::Global;
use std::marker::Model;
use std::sync::ledger::Ledger;

/// A period with the next instants that were asked of it, each kept until it is past. It is seen as
/// the period.
pub struct WatchedPeriod {
    period: Period,
    at: Instant,
    inside: Remembered,
    start: Remembered,
    edge: Remembered,
}

impl Model for WatchedPeriod {
    ghost use Rattle.calendar_match.specs.Next.{turns as turned};
    ghost use Rattle.gtrbac_model.specs.Period.{Period as Bounded, period_code, inside as insides, starts};
    ghost use Rattle.instant_bases.specs.Remembered.{IsNextAsked};

    ghost Value = { Bounded };

    ghost coded = { period_code };

    ghost view = { λ w. w.period };

    ghost invariant = { λ w. IsNextAsked (insides w.period) w.at w.inside
        × IsNextAsked (starts w.period) w.at w.start × IsNextAsked (turned w.period) w.at w.edge };
}

impl Drop for WatchedPeriod {
    fn drop(self) {
        let WatchedPeriod {
            period: _,
            at: _,
            inside: _,
            start: _,
            edge: _,
        } = self;
    }
}

impl WatchedPeriod {
    /// The period, of which nothing was asked.
    fn new(period: Period, at: Instant) -> WatchedPeriod
        ensures { result ≡ period }
    {
        WatchedPeriod {
            period,
            at,
            inside: Remembered::Unasked,
            start: Remembered::Unasked,
            edge: Remembered::Unasked,
        }
    }

    /// An equal period, with what was asked of it.
    fn copied(&self, alloc: Global) -> Result<WatchedPeriod, Memory>
        ensures { IfOk result (λ copy. copy ≡ self.now) }
    {
        Ok(WatchedPeriod {
            period: self.period.copied(alloc)?,
            at: self.at,
            inside: self.inside,
            start: self.start,
            edge: self.edge,
        })
    }

    /// The least instant after this one that is inside.
    fn next_inside(&self, after: Instant) -> Option<Instant>
        ensures { IsNextOf (insides self.now) after result }
    {
        match recalled(self.inside, self.at, after) {
            Remembered::Next(t) => t,
            Remembered::Unasked => next_inside(&self.period, after),
        }
    }

    /// The least instant after this one at which the period starts.
    fn next_start(&self, after: Instant) -> Option<Instant>
        ensures { IsNextOf (starts self.now) after result }
    {
        match recalled(self.start, self.at, after) {
            Remembered::Next(t) => t,
            Remembered::Unasked => next_start(&self.period, after),
        }
    }

    /// The least instant after this one that is inside where the minute before is not, or the other
    /// way round.
    fn next_edge(&self, after: Instant) -> Option<Instant>
        ensures { IsNextOf (turned self.now) after result }
    {
        match recalled(self.edge, self.at, after) {
            Remembered::Next(t) => t,
            Remembered::Unasked => next_edge(&self.period, after),
        }
    }

    /// Whether the instant is inside.
    pub(crate) fn inside(&self, t: Instant) -> bool
        ensures { result ≡ insides self.now t }
    {
        match so_at(self.inside, self.at, t) {
            Some(holds) => holds,
            None => inside(&self.period, t),
        }
    }

    /// Whether the period starts at the instant.
    pub(crate) fn starts(&self, t: Instant) -> bool
        ensures { result ≡ starts self.now t }
    {
        match so_at(self.start, self.at, t) {
            Some(holds) => holds,
            None => starts(&self.period, t),
        }
    }

    /// The least instant after this one that is inside, asked in one look. What the watch remembers
    /// answers it, or one search of the calendar, whose steps are not counted.
    pub(crate) fn look_inside<L: Ledger>(
        &self,
        after: Instant,
        looks: &mut Looks<L>,
    ) -> Option<Instant>
        ensures next { IsNextOf (insides self.now) after result }
        ensures cost { looks.new ≡ looks.old + 1 }
    {
        looks.look();
        self.next_inside(after)
    }

    /// The least instant after this one at which the period starts, asked in one look.
    pub(crate) fn look_start<L: Ledger>(
        &self,
        after: Instant,
        looks: &mut Looks<L>,
    ) -> Option<Instant>
        ensures next { IsNextOf (starts self.now) after result }
        ensures cost { looks.new ≡ looks.old + 1 }
    {
        looks.look();
        self.next_start(after)
    }

    /// The least instant after this one at which the period turns, asked in one look.
    pub(crate) fn look_edge<L: Ledger>(
        &self,
        after: Instant,
        looks: &mut Looks<L>,
    ) -> Option<Instant>
        ensures next { IsNextOf (turned self.now) after result }
        ensures cost { looks.new ≡ looks.old + 1 }
    {
        looks.look();
        self.next_edge(after)
    }

    /// Whether the instant is inside, asked in one look.
    pub(crate) fn look_at<L: Ledger>(&self, t: Instant, looks: &mut Looks<L>) -> bool
        ensures same { result ≡ insides self.now t }
        ensures cost { looks.new ≡ looks.old + 1 }
    {
        looks.look();
        self.inside(t)
    }

    /// Whether it is known that the instant is inside exactly where the minute before is.
    pub(crate) fn keeps_on(&self, t: Instant) -> bool
        ensures { result ≡ true → turned self.now t ≡ false }
    {
        match so_at(self.edge, self.at, t) {
            Some(turns) => !turns,
            None => false,
        }
    }

    /// Asks what an entry of this form wants to know, unless it was asked.
    fn ask(&mut self, form: Form)
        ensures { self.new ≡ self.old }
    {
        match form {
            Form::Each => self.inside = Remembered::Next(self.next_inside(self.at)),
            Form::Start => self.start = Remembered::Next(self.next_start(self.at)),
            Form::Span => self.edge = Remembered::Next(self.next_edge(self.at)),
        }
    }

    /// What is kept of the next minute inside, looked for anew; what nobody asks stays unasked.
    fn inside_from(&self, now: Instant) -> Remembered
        ensures { IsNextAsked (insides self.now) now result }
    {
        match self.inside {
            Remembered::Next(_) => Remembered::Next(self.next_inside(now)),
            Remembered::Unasked => Remembered::Unasked,
        }
    }

    /// What is kept of the next start, looked for anew; what nobody asks stays unasked.
    fn start_from(&self, now: Instant) -> Remembered
        ensures { IsNextAsked (starts self.now) now result }
    {
        match self.start {
            Remembered::Next(_) => Remembered::Next(self.next_start(now)),
            Remembered::Unasked => Remembered::Unasked,
        }
    }

    /// What is kept of the next edge, looked for anew; what nobody asks stays unasked.
    fn edge_from(&self, now: Instant) -> Remembered
        ensures { IsNextAsked (turned self.now) now result }
    {
        match self.edge {
            Remembered::Next(_) => Remembered::Next(self.next_edge(now)),
            Remembered::Unasked => Remembered::Unasked,
        }
    }

    /// Asks again what is past at the instant.
    fn pass(&mut self, now: Instant)
        ensures { self.new ≡ self.old }
    {
        let inside = self.inside_from(now);
        let start = self.start_from(now);
        let edge = self.edge_from(now);
        self.inside = inside;
        self.start = start;
        self.edge = edge;
        self.at = now;
    }
}

/// Copies of the periods, of which nothing was asked.
pub fn watch_all(
    alloc: Global,
    periods: &[Period],
    at: Instant,
) -> Result<Vec<WatchedPeriod>, Memory>
    ensures { IfOk result (λ watches. watches.items ≡ periods.now) }
{
    let mut watches = Vec::new(alloc);
    for p in periods {
        watches.push(WatchedPeriod::new(p.copied(alloc)?, at))?;
    }
    Ok(watches)
}

/// Equal periods, with what was asked of them.
pub fn copied_watches(
    alloc: Global,
    watches: &[WatchedPeriod],
) -> Result<Vec<WatchedPeriod>, Memory>
    ensures { IfOk result (λ copies. copies.items ≡ watches.now) }
{
    let mut copies = Vec::new(alloc);
    for w in watches {
        copies.push(w.copied(alloc)?)?;
    }
    Ok(copies)
}

/// Asks what the entries and the limits want to know of their periods, once of each. It takes no
/// memory.
pub fn ask_all(watches: &mut [WatchedPeriod], entries: &[PeriodicEntry], limits: &[LimitRule])
    ensures { watches.new ≡ watches.old }
{
    ask_entries(watches, entries);
    ask_limits(watches, limits);
}

/// Has the watches keep what the periodic entries ask of their periods.
fn ask_entries(watches: &mut [WatchedPeriod], entries: &[PeriodicEntry])
    ensures { watches.new ≡ watches.old }
{
    for e in entries {
        ask_one(watches, e.period, e.form);
    }
}

/// Has the watches keep what the limits ask: the next minute inside, where a limit has a period.
fn ask_limits(watches: &mut [WatchedPeriod], limits: &[LimitRule])
    ensures { watches.new ≡ watches.old }
{
    for limit in limits {
        if let Some(id) = limit.period {
            ask_one(watches, id, Form::Each);
        }
    }
}

/// Has one watch keep what a form asks; a number that is no period's changes nothing.
fn ask_one(watches: &mut [WatchedPeriod], id: PeriodId, form: Form)
    ensures { watches.new ≡ watches.old }
{
    let n = id.0 as usize;
    if n < watches.len() {
        watches[n].ask(form);
    }
}

/// Asks again what is past at the instant. It takes no memory.
pub fn pass_all(watches: &mut Vec<WatchedPeriod>, now: Instant)
    ensures { watches.new.items ≡ watches.old.items }
{
    for w in watches.iter_mut() {
        w.pass(now);
    }
}
