//! What is kept of the lines before a line, and what is wrong with the line beside them.
ghost use Rattle.std.specs.Prelude.{◌≡◌, ◌<◌, None, OnOk};
ghost use Rattle.gtrbac_model.specs.Same.{lists};
ghost use Rattle.policy_words.specs.Seen.{seen_said};
ghost use Rattle.policy_words.specs.Making.{with_new};
ghost use Rattle.policy_words.specs.LinesTogether.{claim_of, fluent_claim, same_claim, may_be_again, kind_of, fluent_kind, most_of};
ghost use Rattle.policy_book.specs.Seen.{seen_names};
ghost use Rattle.policy_book.specs.Tallies.{seen_tally, count_in, one_more, no_counts, nothing_told, is_claimed, is_full, full_kind, fault_in, with_count, tallied};

use crate::known::is_known;
use crate::names::NameTables;
use gt_base::{
    MAX_ASSIGNED, MAX_EDGES, MAX_ENTRIES, MAX_GRANTED, MAX_LIMITS, MAX_PERIODS, MAX_PERMS,
    MAX_ROLES, MAX_TRIGGERS, MAX_USERS, Memory,
};
use indexmap::IndexSet;
use policy_words::{Claim, Kind, NamedFluent, Said};
use std::alloc::Global;

/// What is wrong with a line beside the other lines.
#[derive(Clone, Copy)]
pub(crate) enum TallyFault {
    Unknown,
    Twice,
    TooMany(Kind),
}

/// How many lines of each kind there are.
#[derive(Clone, Copy)]
pub(crate) struct Counts {
    roles: u32,
    users: u32,
    perms: u32,
    periods: u32,
    limits: u32,
    edges: u32,
    entries: u32,
    triggers: u32,
    assigned: u32,
    granted: u32,
}

impl Counts {
    /// The counts of no line.
    fn none() -> Counts
        ensures { result ≡ no_counts }
    {
        Counts {
            roles: 0,
            users: 0,
            perms: 0,
            periods: 0,
            limits: 0,
            edges: 0,
            entries: 0,
            triggers: 0,
            assigned: 0,
            granted: 0,
        }
    }

    /// How many lines of this kind there are; of assignments and grants, how many distinct pairs.
    fn of(&self, kind: Kind) -> u32
        ensures { result ≡ count_in self.now kind }
    {
        match kind {
            Kind::Roles => self.roles,
            Kind::Users => self.users,
            Kind::Perms => self.perms,
            Kind::Periods => self.periods,
            Kind::Limits => self.limits,
            Kind::Edges => self.edges,
            Kind::Entries => self.entries,
            Kind::Triggers => self.triggers,
            Kind::Assigned => self.assigned,
            Kind::Granted => self.granted,
        }
    }

    /// Whether there are as many of the kind as may be.
    fn is_full(&self, kind: Kind) -> bool
        ensures { result ≡ is_full self.now kind }
    {
        most_of(kind) <= self.of(kind)
    }

    /// One more of the kind.
    fn add(&mut self, kind: Kind)
        requires { count_in self.old kind < u32.MAX }
        ensures { self.new ≡ one_more self.old kind }
    {
        match kind {
            Kind::Roles => self.roles += 1,
            Kind::Users => self.users += 1,
            Kind::Perms => self.perms += 1,
            Kind::Periods => self.periods += 1,
            Kind::Limits => self.limits += 1,
            Kind::Edges => self.edges += 1,
            Kind::Entries => self.entries += 1,
            Kind::Triggers => self.triggers += 1,
            Kind::Assigned => self.assigned += 1,
            Kind::Granted => self.granted += 1,
        }
    }
}

/// How many lines of the kind a policy may have.
fn most_of(kind: Kind) -> u32
    ensures { result ≡ most_of kind }
{
    match kind {
        Kind::Roles => MAX_ROLES,
        Kind::Users => MAX_USERS,
        Kind::Perms => MAX_PERMS,
        Kind::Periods => MAX_PERIODS,
        Kind::Limits => MAX_LIMITS,
        Kind::Edges => MAX_EDGES,
        Kind::Entries => MAX_ENTRIES,
        Kind::Triggers => MAX_TRIGGERS,
        Kind::Assigned => MAX_ASSIGNED,
        Kind::Granted => MAX_GRANTED,
    }
}

/// The pair that an opening line claims, which counts once; None where nothing is counted.
fn fluent_claim(fluent: &NamedFluent) -> Option<Claim>
    ensures { result ≡ fluent_claim fluent.now }
{
    match fluent {
        NamedFluent::Assigned(user, role) => Some(Claim::Assigned(*user, *role)),
        NamedFluent::Granted(perm, role) => Some(Claim::Granted(*perm, *role)),
        NamedFluent::Enabled(_) | NamedFluent::Limit(_) | NamedFluent::Edge(..) => None,
    }
}

/// What a line claims.
fn claim_of(said: &Said) -> Option<Claim>
    ensures { result ≡ claim_of (seen_said said.now) }
{
    match said {
        Said::Role(name) => Some(Claim::Role(*name)),
        Said::User(name) => Some(Claim::User(*name)),
        Said::Perm(name) => Some(Claim::Perm(*name)),
        Said::Period { name, .. } => Some(Claim::Period(*name)),
        Said::Limit { name, .. } => Some(Claim::Limit(*name)),
        Said::Edge { senior, junior, .. } => Some(Claim::Edge(*senior, *junior)),
        Said::Cap { kind, role, .. } => Some(Claim::Cap(*kind, *role)),
        Said::Opening(fluent) => fluent_claim(fluent),
        Said::Version(_) | Said::Admin(_) | Said::Entry { .. } | Said::When { .. } => None,
    }
}

/// Whether another line may claim the same.
fn may_be_again(said: &Said) -> bool
    ensures { result ≡ may_be_again (seen_said said.now) }
{
    matches!(said, Said::Opening(_))
}

/// The kind that an opening line counts for; None where such lines are not counted.
fn fluent_kind(fluent: &NamedFluent) -> Option<Kind>
    ensures { result ≡ fluent_kind fluent.now }
{
    match fluent {
        NamedFluent::Assigned(..) => Some(Kind::Assigned),
        NamedFluent::Granted(..) => Some(Kind::Granted),
        NamedFluent::Enabled(_) | NamedFluent::Limit(_) | NamedFluent::Edge(..) => None,
    }
}

/// The kind that a line counts for.
fn kind_of(said: &Said) -> Option<Kind>
    ensures { result ≡ kind_of (seen_said said.now) }
{
    match said {
        Said::Role(_) => Some(Kind::Roles),
        Said::User(_) => Some(Kind::Users),
        Said::Perm(_) => Some(Kind::Perms),
        Said::Period { .. } => Some(Kind::Periods),
        Said::Limit { .. } => Some(Kind::Limits),
        Said::Edge { .. } => Some(Kind::Edges),
        Said::Entry { .. } => Some(Kind::Entries),
        Said::When { .. } => Some(Kind::Triggers),
        Said::Opening(fluent) => fluent_kind(fluent),
        Said::Version(_) | Said::Cap { .. } | Said::Admin(_) => None,
    }
}

/// What the lines before claim, and how many of each kind they have.
pub(crate) struct ClaimTally {
    claims: IndexSet<Claim>,
    counts: Counts,
}

impl Drop for ClaimTally {
    fn drop(self) {
        let ClaimTally {
            claims: _,
            counts: _,
        } = self;
    }
}

/// Whether one of the claims is this.
#[tactic(auto, using(crate::proofs::SameClaims::found))]
fn has(claims: &IndexSet<Claim>, claim: &Claim) -> bool
    ensures { result ≡ lists same_claim claims.now.keys claim.now }
{
    claims.contains(claim)
}

/// Adds the claim of a line that claims something.
fn put(claims: &mut IndexSet<Claim>, claim: Option<Claim>) -> Result<(), Memory>
    ensures { OnOk result (claims.new.keys ≡ with_new same_claim claim claims.old.keys) }
{
    if let Some(claim) = claim {
        claims.insert(claim)?;
    }
    Ok(())
}

impl ClaimTally {
    /// Of no line, which takes no memory yet.
    pub(crate) fn new(alloc: Global) -> ClaimTally
        ensures { seen_tally result ≡ nothing_told }
    {
        ClaimTally {
            claims: IndexSet::new(alloc),
            counts: Counts::none(),
        }
    }

    /// Whether a line before claims the same.
    fn is_claimed(&self, said: &Said) -> bool
        ensures { result ≡ is_claimed (seen_tally self.now) (seen_said said.now) }
    {
        match claim_of(said) {
            Some(claim) => has(&self.claims, &claim),
            None => false,
        }
    }

    /// The kind of the line, where there are as many before it as may be.
    fn full_kind(&self, said: &Said) -> Option<TallyFault>
        ensures { result ≡ full_kind (seen_tally self.now) (seen_said said.now)
            (kind_of (seen_said said.now)) }
    {
        let kind = kind_of(said)?;
        if !self.is_claimed(said) && self.counts.is_full(kind) {
            Some(TallyFault::TooMany(kind))
        } else {
            None
        }
    }

    /// What is wrong with a line, if anything: a name is unknown, what it claims is claimed, or it
    /// is one too many.
    pub(crate) fn fault(&self, names: &NameTables, said: &Said) -> Option<TallyFault>
        ensures { result ≡ fault_in (seen_names names.now) (seen_tally self.now)
            (seen_said said.now) }
    {
        if !is_known(names, said) {
            return Some(TallyFault::Unknown);
        }
        if !may_be_again(said) && self.is_claimed(said) {
            return Some(TallyFault::Twice);
        }
        self.full_kind(said)
    }

    /// Adds a line with which nothing is wrong.
    pub(crate) fn add(&mut self, said: &Said) -> Result<(), Memory>
        requires { full_kind (seen_tally self.old) (seen_said said.now)
            (kind_of (seen_said said.now)) ≡ None }
        ensures { OnOk result (seen_tally self.new ≡ tallied (seen_tally self.old)
            (seen_said said.now)) }
    {
        if self.is_claimed(said) {
            return Ok(());
        }
        put(&mut self.claims, claim_of(said))?;
        if let Some(kind) = kind_of(said) {
            self.counts.add(kind);
        }
        Ok(())
    }
}
