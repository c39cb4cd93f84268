//! The policy: built from its lines, or their first fault, and what it answers.
ghost use Rattle.std.specs.Prelude.{◌≡◌, ◌<◌, ◌≤◌, length, position, slice_get, Some, Ok, IfOk, IfErr};
ghost use Rattle.policy_words.specs.Naming.{role_of, user_of, perm_of, period_of, limit_of, event_of, cond_of, head_of};
ghost use Rattle.policy_words.specs.Valid.{IsWellFormed};
ghost use Rattle.policy_words.specs.LinesTogether.{build};
ghost use Rattle.policy_book.specs.Faults.{IsFault};
ghost use Rattle.policy_book.specs.Pairs.{joins_pair};
ghost use Rattle.gtrbac_model.specs.Same.{lists, same_user};

use crate::building::{are_second, sound_draft};
use crate::copying::{copied_periods, copied_triggers};
use crate::faults::BookFault;
use crate::finishing::finished;
use crate::lines::Parts;
use crate::names::{NameTables, names_in};
use gt_base::{
    Caps, Cond, Event, HierEdge, LimitId, LimitRule, List, Memory, Name, PeriodId, PeriodicEntry,
    PermId, Prioritised, RoleId, Status, Trigger, UserId,
};
use periodic_expr::Period;
use policy_words::{NamedCond, NamedEvent, NamedHead};
use std::alloc::Global;
use std::marker::Model;

/// A policy with the names that its lines declare, each at its number, from 0 in the order of the
/// lines. It is seen as its names and the model's policy, and keeps what every policy keeps:
/// numbers in range, lists within their limits, valid periods, no two edges of one ordered pair and
/// no cycle of edges, and a record of caps for each role.
pub struct Policy {
    pub(crate) alloc: Global,
    pub(crate) names: NameTables,
    pub(crate) periods: List<Period>,
    pub(crate) limits: List<LimitRule>,
    pub(crate) edges: List<HierEdge>,
    pub(crate) caps: List<Caps>,
    pub(crate) admins: List<UserId>,
    pub(crate) opening: Status,
    pub(crate) entries: List<PeriodicEntry>,
    pub(crate) triggers: List<Trigger>,
}

impl Model for Policy {
    ghost use Rattle.policy_words.specs.Naming.{NamedPolicy, named_policy_code};

    ghost Value = { NamedPolicy };

    ghost coded = { named_policy_code };

    ghost use Rattle.policy_words.specs.Valid.{IsWellFormed};
    ghost use Rattle.policy_book.specs.Policies.{seen_policy};

    ghost view = { seen_policy };

    ghost invariant = { λ p. IsWellFormed (seen_policy p) };
}

impl Drop for Policy {
    fn drop(self) {
        let Policy {
            alloc: _,
            names: _,
            periods: _,
            limits: _,
            edges: _,
            caps: _,
            admins: _,
            opening: _,
            entries: _,
            triggers: _,
        } = self;
    }
}

impl Policy {
    /// The policy of the lines, or the first fault of the lines together.
    pub fn build(alloc: Global, parts: Parts) -> Result<Policy, BookFault>
        ensures ok { IfOk result (λ policy. build parts ≡ Ok policy) }
        ensures fault { IfErr result (IsFault parts) }
    {
        let parts = parts.parts;
        let names = names_in(alloc, &parts)?;
        let second = are_second(&parts);
        match sound_draft(alloc, &names, parts) {
            Ok(draft) => Ok(finished(alloc, names, second, draft)?),
            Err(fault) => Err(fault),
        }
    }

    /// An equal policy.
    pub fn copied(&self) -> Result<Policy, Memory>
        ensures { IfOk result (λ copy. copy ≡ self.now) }
    {
        let periods = copied_periods(self.alloc, self.periods.as_slice())?;
        let triggers = copied_triggers(self.alloc, self.triggers.as_slice())?;
        Ok(Policy {
            alloc: self.alloc,
            limits: self.limits.copied()?,
            edges: self.edges.copied()?,
            caps: self.caps.copied()?,
            admins: self.admins.copied()?,
            opening: self.opening.copied()?,
            entries: self.entries.copied()?,
            names: self.names.copied()?,
            periods: List::from(periods),
            triggers: List::from(triggers),
        })
    }

    /// What every policy keeps.
    pub fn keeps(&self)
        ensures { IsWellFormed self.now }
    {
        let _ = &self.edges;
    }

    /// The number of a role, none exactly where no line declares the name.
    pub fn role(&self, n: &Name) -> Option<RoleId>
        ensures { result ≡ role_of self.now.names n.now }
    {
        self.names.role(n)
    }

    /// The number of a user, none exactly where no line declares the name.
    pub fn user(&self, n: &Name) -> Option<UserId>
        ensures { result ≡ user_of self.now.names n.now }
    {
        self.names.user(n)
    }

    /// The number of a permission, none exactly where no line declares the name.
    pub fn perm(&self, n: &Name) -> Option<PermId>
        ensures { result ≡ perm_of self.now.names n.now }
    {
        self.names.perm(n)
    }

    /// The number of a period, none exactly where no line declares the name.
    pub fn period_named(&self, n: &Name) -> Option<PeriodId>
        ensures { result ≡ period_of self.now.names n.now }
    {
        self.names.period(n)
    }

    /// The number of a limit, none exactly where no line declares the name.
    pub fn limit_named(&self, n: &Name) -> Option<LimitId>
        ensures { result ≡ limit_of self.now.names n.now }
    {
        self.names.limit(n)
    }

    /// The event in numbers, none exactly where no line declares a name of it.
    pub fn event(&self, e: &NamedEvent) -> Option<Event>
        ensures { result ≡ event_of self.now.names e.now }
    {
        self.names.event(e)
    }

    /// The condition in numbers, none exactly where no line declares a name of it.
    pub fn cond(&self, c: &NamedCond) -> Option<Cond>
        ensures { result ≡ cond_of self.now.names c.now }
    {
        self.names.cond(c)
    }

    /// The prioritised event in numbers, none exactly where no line declares a name of it.
    pub fn head(&self, h: &NamedHead) -> Option<Prioritised>
        ensures { result ≡ head_of self.now.names h.now }
    {
        self.names.head(h)
    }

    /// The name of a role of the policy.
    pub fn role_name(&self, r: RoleId) -> Name
        requires { r.0 < length self.now.names.roles }
        ensures { slice_get self.now.names.roles r.0 ≡ Some result }
    {
        self.names.roles.name(r.0)
    }

    /// The name of a user of the policy.
    pub fn user_name(&self, u: UserId) -> Name
        requires { u.0 < length self.now.names.users }
        ensures { slice_get self.now.names.users u.0 ≡ Some result }
    {
        self.names.users.name(u.0)
    }

    /// The name of a permission of the policy.
    pub fn perm_name(&self, p: PermId) -> Name
        requires { p.0 < length self.now.names.perms }
        ensures { slice_get self.now.names.perms p.0 ≡ Some result }
    {
        self.names.perms.name(p.0)
    }

    /// The name of a period of the policy.
    pub fn period_name(&self, p: PeriodId) -> Name
        requires { p.0 < length self.now.names.periods }
        ensures { slice_get self.now.names.periods p.0 ≡ Some result }
    {
        self.names.periods.name(p.0)
    }

    /// The name of a limit of the policy.
    pub fn limit_name(&self, l: LimitId) -> Name
        requires { l.0 < length self.now.names.limits }
        ensures { slice_get self.now.names.limits l.0 ≡ Some result }
    {
        self.names.limits.name(l.0)
    }

    /// A period of the policy.
    pub fn period(&self, p: PeriodId) -> &Period
        requires { p.0 < length self.now.policy.periods }
        ensures { slice_get self.now.policy.periods p.0 ≡ Some result.now }
    {
        &self.periods.as_slice()[p.0 as usize]
    }

    /// The periods, by number.
    pub fn periods(&self) -> &List<Period>
        ensures { result.now.items ≡ self.now.policy.periods }
    {
        &self.periods
    }

    /// The number of the edge from a senior to a junior, none exactly where no edge has that
    /// ordered pair.
    pub fn edge_between(&self, senior: RoleId, junior: RoleId) -> Option<u32>
        ensures { result ≡ position (joins_pair senior junior) self.now.policy.edges }
    {
        number_between(self.edges.as_slice(), senior, junior)
    }

    /// The periodic entries, in the order of their lines.
    pub fn entries(&self) -> &List<PeriodicEntry>
        ensures { result.now.items ≡ self.now.policy.entries }
    {
        &self.entries
    }

    /// The triggers, in the order of their lines.
    pub fn triggers(&self) -> &List<Trigger>
        ensures { result.now.items ≡ self.now.policy.triggers }
    {
        &self.triggers
    }

    /// The duration limits, by number.
    pub fn limits(&self) -> &List<LimitRule>
        ensures { result.now.items ≡ self.now.policy.limits }
    {
        &self.limits
    }

    /// The edges of the hierarchy, in the order of their lines.
    pub fn edges(&self) -> &List<HierEdge>
        ensures { result.now.items ≡ self.now.policy.edges }
    {
        &self.edges
    }

    /// The caps of each role.
    pub fn caps(&self) -> &List<Caps>
        ensures { result.now.items ≡ self.now.policy.caps }
    {
        &self.caps
    }

    /// The administrators, ascending.
    pub fn admins(&self) -> &List<UserId>
        ensures { result.now.items ≡ self.now.policy.admins }
    {
        &self.admins
    }

    /// How many roles are declared.
    pub fn role_count(&self) -> u32
        ensures value { result ≡ self.now.policy.roles }
        ensures names { result ≡ length self.now.names.roles }
    {
        self.names.roles.len()
    }

    /// How many users are declared.
    pub fn user_count(&self) -> u32
        ensures value { result ≡ self.now.policy.users }
        ensures names { result ≡ length self.now.names.users }
    {
        self.names.users.len()
    }

    /// How many permissions are declared.
    pub fn perm_count(&self) -> u32
        ensures value { result ≡ self.now.policy.perms }
        ensures names { result ≡ length self.now.names.perms }
    {
        self.names.perms.len()
    }

    /// How many periods are declared.
    pub fn period_count(&self) -> u32
        ensures value { result ≡ length self.now.policy.periods }
        ensures names { result ≡ length self.now.names.periods }
    {
        self.periods.len() as u32
    }

    /// How many limits are declared.
    pub fn limit_count(&self) -> u32
        ensures value { result ≡ length self.now.policy.limits }
        ensures names { result ≡ length self.now.names.limits }
    {
        self.limits.len() as u32
    }

    /// Whether the user is an administrator.
    pub fn is_admin(&self, u: UserId) -> bool
        requires { u.0 < self.now.policy.users }
        ensures { result ≡ lists same_user self.now.policy.admins u }
    {
        self.admins.as_slice().iter().any(|a| is_same(*a, u))
    }

    /// What is on at first.
    pub fn opening(&self) -> &Status
        ensures { result.now.set ≡ self.now.policy.opening }
    {
        &self.opening
    }
}

/// Whether the two are one user.
fn is_same(a: UserId, u: UserId) -> bool
    ensures { result ≡ same_user u a }
{
    a.0 == u.0
}

/// Whether the edge is from the senior to the junior.
fn joins(edge: &HierEdge, senior: RoleId, junior: RoleId) -> bool
    ensures { result ≡ joins_pair senior junior edge.now }
{
    edge.senior.0 == senior.0 && edge.junior.0 == junior.0
}

/// The place of the first edge from the senior to the junior.
fn place_between(edges: &[HierEdge], senior: RoleId, junior: RoleId) -> Option<usize>
    ensures { result ≡ position (joins_pair senior junior) edges.now }
{
    edges.iter().position(|edge| joins(edge, senior, junior))
}

/// The number of the first edge from the senior to the junior.
fn number_between(edges: &[HierEdge], senior: RoleId, junior: RoleId) -> Option<u32>
    requires { length edges.now ≤ u32.MAX }
    ensures { result ≡ position (joins_pair senior junior) edges.now }
{
    match place_between(edges, senior, junior) {
        Some(number) => Some(number as u32),
        None => None,
    }
}
