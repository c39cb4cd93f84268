//! The names that a policy declares.
ghost use Rattle.std.specs.Prelude.{◌≡◌, IfOk, OnOk};
ghost use Rattle.policy_words.specs.Seen.{seen_said};
ghost use Rattle.policy_words.specs.Naming.{role_of, user_of, perm_of, period_of, limit_of, fluent_of, event_of, cond_of, signal_of, head_of};
ghost use Rattle.policy_words.specs.Making.{naming, no_names, names_of};
ghost use Rattle.policy_words.specs.LinesTogether.{said_in};
ghost use Rattle.policy_book.specs.Seen.{seen_names};
ghost use Rattle.policy_book.specs.Numbers.{edge_number};

use crate::lines::Part;
use crate::tables::{PairTable, Table};
use gt_base::{
    Cond, Event, Fluent, LimitId, Memory, Name, PeriodId, PermId, Prioritised, RoleId, Signal,
    UserId,
};
use policy_words::{NamedCond, NamedEvent, NamedFluent, NamedHead, NamedSignal, Said};
use std::alloc::Global;

/// The names of each kind, each at its number, and the pairs of the edges.
pub(crate) struct NameTables {
    pub roles: Table,
    pub users: Table,
    pub perms: Table,
    pub periods: Table,
    pub limits: Table,
    pub edges: PairTable,
}

impl Drop for NameTables {
    fn drop(self) {
        let NameTables {
            roles: _,
            users: _,
            perms: _,
            periods: _,
            limits: _,
            edges: _,
        } = self;
    }
}

impl NameTables {
    /// No names, which takes no memory yet.
    fn new(alloc: Global) -> NameTables
        ensures { seen_names result ≡ no_names }
    {
        NameTables {
            roles: Table::new(alloc),
            users: Table::new(alloc),
            perms: Table::new(alloc),
            periods: Table::new(alloc),
            limits: Table::new(alloc),
            edges: PairTable::new(alloc),
        }
    }

    /// Declares the name of a line that declares one, or the pair of an edge.
    fn declare(&mut self, said: &Said) -> Result<(), Memory>
        ensures { OnOk result (seen_names self.new ≡ naming (seen_names self.old)
            (seen_said said.now)) }
    {
        match said {
            Said::Role(name) => self.roles.declare(*name)?,
            Said::User(name) => self.users.declare(*name)?,
            Said::Perm(name) => self.perms.declare(*name)?,
            Said::Period { name, .. } => self.periods.declare(*name)?,
            Said::Limit { name, .. } => self.limits.declare(*name)?,
            Said::Edge { senior, junior, .. } => self.edges.declare(*senior, *junior)?,
            Said::Version(_)
            | Said::Cap { .. }
            | Said::Admin(_)
            | Said::Opening(_)
            | Said::Entry { .. }
            | Said::When { .. } => false,
        };
        Ok(())
    }

    /// The number of a role, none exactly where no line declares the name.
    pub(crate) fn role(&self, n: &Name) -> Option<RoleId>
        ensures { result ≡ role_of (seen_names self.now) n.now }
    {
        Some(RoleId(self.roles.number(n)?))
    }

    /// The number of a user, none exactly where no line declares the name.
    pub(crate) fn user(&self, n: &Name) -> Option<UserId>
        ensures { result ≡ user_of (seen_names self.now) n.now }
    {
        Some(UserId(self.users.number(n)?))
    }

    /// The number of a permission, none exactly where no line declares the name.
    pub(crate) fn perm(&self, n: &Name) -> Option<PermId>
        ensures { result ≡ perm_of (seen_names self.now) n.now }
    {
        Some(PermId(self.perms.number(n)?))
    }

    /// The number of a period, none exactly where no line declares the name.
    pub(crate) fn period(&self, n: &Name) -> Option<PeriodId>
        ensures { result ≡ period_of (seen_names self.now) n.now }
    {
        Some(PeriodId(self.periods.number(n)?))
    }

    /// The number of a limit, none exactly where no line declares the name.
    pub(crate) fn limit(&self, n: &Name) -> Option<LimitId>
        ensures { result ≡ limit_of (seen_names self.now) n.now }
    {
        Some(LimitId(self.limits.number(n)?))
    }

    /// The number of the edge from a senior to a junior, none exactly where no line declares a name
    /// or no edge joins the two.
    fn edge(&self, senior: &Name, junior: &Name) -> Option<u32>
        ensures { result ≡ edge_number (seen_names self.now) senior.now junior.now }
    {
        self.role(senior)?;
        self.role(junior)?;
        self.edges.number(senior, junior)
    }

    /// The assignment in numbers.
    fn assigned(&self, u: &Name, r: &Name) -> Option<Fluent>
        ensures { result ≡ fluent_of (seen_names self.now) (NamedFluent.Assigned u.now r.now) }
    {
        Some(Fluent::Assigned(self.user(u)?, self.role(r)?))
    }

    /// The grant in numbers.
    fn granted(&self, p: &Name, r: &Name) -> Option<Fluent>
        ensures { result ≡ fluent_of (seen_names self.now) (NamedFluent.Granted p.now r.now) }
    {
        Some(Fluent::Granted(self.perm(p)?, self.role(r)?))
    }

    /// The fluent in numbers, none exactly where a name of it is not declared, or no edge has its
    /// pair.
    pub(crate) fn fluent(&self, f: &NamedFluent) -> Option<Fluent>
        ensures { result ≡ fluent_of (seen_names self.now) f.now }
    {
        match f {
            NamedFluent::Enabled(r) => Some(Fluent::Enabled(self.role(r)?)),
            NamedFluent::Assigned(u, r) => self.assigned(u, r),
            NamedFluent::Granted(p, r) => self.granted(p, r),
            NamedFluent::Limit(l) => Some(Fluent::Limit(self.limit(l)?)),
            NamedFluent::Edge(s, j) => Some(Fluent::Edge(self.edge(s, j)?)),
        }
    }

    /// The event in numbers, none exactly where a name of it is not declared.
    pub(crate) fn event(&self, e: &NamedEvent) -> Option<Event>
        ensures { result ≡ event_of (seen_names self.now) e.now }
    {
        let fluent = self.fluent(&e.fluent)?;
        Some(Event { on: e.on, fluent })
    }

    /// The condition in numbers, none exactly where a name of it is not declared.
    pub(crate) fn cond(&self, c: &NamedCond) -> Option<Cond>
        ensures { result ≡ cond_of (seen_names self.now) c.now }
    {
        let fluent = self.fluent(&c.fluent)?;
        Some(Cond { on: c.on, fluent })
    }

    /// The signal in numbers, none exactly where a name of it is not declared.
    pub(crate) fn signal(&self, s: &NamedSignal) -> Option<Signal>
        ensures { result ≡ signal_of (seen_names self.now) s.now }
    {
        let user = self.user(&s.user)?;
        let role = self.role(&s.role)?;
        Some(Signal {
            start: s.start,
            user,
            role,
        })
    }

    /// The head in numbers, none exactly where a name of it is not declared.
    pub(crate) fn head(&self, h: &NamedHead) -> Option<Prioritised>
        ensures { result ≡ head_of (seen_names self.now) h.now }
    {
        let event = self.event(&h.event)?;
        Some(Prioritised {
            prio: h.prio,
            event,
        })
    }
}

/// The names that the lines declare, in the order of the lines.
pub(crate) fn names_in(alloc: Global, parts: &[Part]) -> Result<NameTables, Memory>
    ensures { IfOk result (λ names. seen_names names ≡ names_of (said_in parts.now)) }
{
    let mut names = NameTables::new(alloc);
    for part in parts {
        names.declare(&part.said)?;
    }
    Ok(names)
}
