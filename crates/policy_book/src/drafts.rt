//! What the lines of a policy make, one after the other, before it is whole.
ghost use Rattle.std.specs.Prelude.{◌≡◌, ◌<◌, [], length, replicate, OnOk, IfOk, IsTrue};
ghost use Rattle.gtrbac_model.specs.Same.{same_user, same_fluent};
ghost use Rattle.policy_words.specs.Sayings.{is_saying};
ghost use Rattle.policy_words.specs.Seen.{seen_said};
ghost use Rattle.policy_words.specs.CapKinds.{no_caps, with_cap};
ghost use Rattle.policy_words.specs.Making.{changed_at, with_item, with_new, with_caps_said, fresh, adding, drafted};
ghost use Rattle.policy_words.specs.Valid.{IsWellFormed};
ghost use Rattle.policy_words.specs.LinesTogether.{said_in};
ghost use Rattle.policy_book.specs.Said.{are_sayings};
ghost use Rattle.policy_book.specs.Seen.{seen_names};
ghost use Rattle.policy_book.specs.Drafts.{seen_draft, adding_numbers, policy_with};

use crate::books::Policy;
use crate::lines::Part;
use crate::names::NameTables;
use crate::rules::{admin_in, edge_in, entry_in, limit_in, opening_in, period_in, trigger_in};
use gt_base::{
    Caps, Fluent, HierEdge, LimitRule, List, Memory, PeriodicEntry, Status, Trigger, UserId,
};
use indexmap::IndexSet;
use periodic_expr::Period;
use policy_words::{CapKind, Said, uncapped};
use std::alloc::Global;

/// What the lines so far make.
pub(crate) struct Draft {
    pub periods: Vec<Period>,
    pub limits: Vec<LimitRule>,
    pub edges: Vec<HierEdge>,
    pub caps: Vec<Caps>,
    pub admins: IndexSet<UserId>,
    pub on_at_first: IndexSet<Fluent>,
    pub entries: Vec<PeriodicEntry>,
    pub triggers: Vec<Trigger>,
}

impl Drop for Draft {
    fn drop(self) {
        let Draft {
            periods: _,
            limits: _,
            edges: _,
            caps: _,
            admins: _,
            on_at_first: _,
            entries: _,
            triggers: _,
        } = self;
    }
}

/// Adds an item at the end, if there is one.
fn add_item<T: Drop>(items: &mut Vec<T>, item: Option<T>) -> Result<(), Memory>
    ensures { OnOk result (items.new.items ≡ with_item item items.old.items) }
{
    if let Some(item) = item {
        items.push(item)?;
    }
    Ok(())
}

/// Adds a user, unless it is there.
fn add_user(users: &mut IndexSet<UserId>, user: Option<UserId>) -> Result<(), Memory>
    ensures { OnOk result (users.new.keys ≡ with_new same_user user users.old.keys) }
{
    if let Some(user) = user {
        users.insert(user)?;
    }
    Ok(())
}

/// Adds a fluent, unless it is there.
fn add_fluent(fluents: &mut IndexSet<Fluent>, fluent: Option<Fluent>) -> Result<(), Memory>
    ensures { OnOk result (fluents.new.keys ≡ with_new same_fluent fluent fluents.old.keys) }
{
    if let Some(fluent) = fluent {
        fluents.insert(fluent)?;
    }
    Ok(())
}

/// Changes the caps of one role.
fn change(caps: &mut Vec<Caps>, role: usize, kind: CapKind, n: u32)
    ensures { caps.new.items ≡ changed_at (with_cap kind n) role caps.old.items }
{
    if role < caps.len() {
        caps[role] = kind.with(n, caps[role]);
    }
}

/// Changes the caps of the role that a line caps.
fn cap(caps: &mut Vec<Caps>, names: &NameTables, said: &Said)
    ensures { caps.new.items ≡ with_caps_said (seen_names names.now)
        (seen_said said.now) caps.old.items }
{
    let Said::Cap { kind, role, n } = said else {
        return;
    };
    if let Some(role) = names.role(role) {
        change(caps, role.0 as usize, *kind, *n);
    }
}

/// As many records without caps as there are roles.
fn no_caps_of(alloc: Global, roles: usize) -> Result<Vec<Caps>, Memory>
    ensures { IfOk result (λ caps. caps.items ≡ replicate roles no_caps) }
{
    let mut caps = Vec::new(alloc);
    for _ in 0..roles {
        caps.push(uncapped())?;
    }
    Ok(caps)
}

impl Draft {
    /// No rules, and no caps for each role.
    fn new(alloc: Global, names: &NameTables) -> Result<Draft, Memory>
        ensures { IfOk result (λ draft. seen_draft draft ≡ fresh (seen_names names.now)) }
    {
        Ok(Draft {
            periods: Vec::new(alloc),
            limits: Vec::new(alloc),
            edges: Vec::new(alloc),
            caps: no_caps_of(alloc, names.roles.len() as usize)?,
            admins: IndexSet::new(alloc),
            on_at_first: IndexSet::new(alloc),
            entries: Vec::new(alloc),
            triggers: Vec::new(alloc),
        })
    }

    /// Adds what a line says but for its period.
    fn add_numbers(&mut self, alloc: Global, names: &NameTables, said: &Said) -> Result<(), Memory>
        ensures { OnOk result (seen_draft self.new ≡ adding_numbers (seen_names names.now)
            (seen_draft self.old) (seen_said said.now)) }
    {
        add_item(&mut self.limits, limit_in(names, said))?;
        add_item(&mut self.edges, edge_in(names, said))?;
        cap(&mut self.caps, names, said);
        add_user(&mut self.admins, admin_in(names, said))?;
        add_fluent(&mut self.on_at_first, opening_in(names, said))?;
        add_item(&mut self.entries, entry_in(names, said))?;
        let trigger = trigger_in(alloc, names, said)?;
        add_item(&mut self.triggers, trigger)?;
        Ok(())
    }

    /// Adds what a line says.
    fn add(&mut self, alloc: Global, names: &NameTables, said: Said) -> Result<(), Memory>
        requires { IsTrue (is_saying (seen_said said)) }
        ensures { OnOk result (seen_draft self.new ≡ adding (seen_names names.now)
            (seen_draft self.old) (seen_said said)) }
    {
        self.add_numbers(alloc, names, &said)?;
        add_item(&mut self.periods, period_in(said))?;
        Ok(())
    }

    /// The policy of the rules with its names, these administrators and what is on at first.
    pub(crate) fn with(
        self,
        alloc: Global,
        names: NameTables,
        admins: Vec<UserId>,
        opening: Status,
    ) -> Policy
        requires { IsWellFormed (policy_with (seen_names names)
            (seen_draft self) admins.items opening.set) }
        ensures { result ≡ policy_with (seen_names names)
            (seen_draft self) admins.items opening.set }
    {
        let Draft {
            periods,
            limits,
            edges,
            caps,
            admins: _,
            on_at_first: _,
            entries,
            triggers,
        } = self;
        Policy {
            alloc,
            names,
            periods: List::from(periods),
            limits: List::from(limits),
            edges: List::from(edges),
            caps: List::from(caps),
            admins: List::from(admins),
            opening,
            entries: List::from(entries),
            triggers: List::from(triggers),
        }
    }
}

/// What all lines make.
pub(crate) fn draft_of(alloc: Global, names: &NameTables, parts: Vec<Part>) -> Result<Draft, Memory>
    requires { IsTrue (are_sayings parts.items) }
    ensures { IfOk result (λ draft. seen_draft draft
        ≡ drafted (seen_names names.now) (fresh (seen_names names.now)) (said_in parts.items)) }
{
    let mut draft = Draft::new(alloc, names)?;
    let mut rest = parts.into_iter();
    while let Some(part) = rest.next() {
        draft.add(alloc, names, part.into_said())?;
    }
    Ok(draft)
}
