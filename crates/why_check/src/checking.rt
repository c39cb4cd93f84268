//! Checking a certificate: the entries are played once, and at each instant at which a tick stopped
//! the listed set is held against the definitions.
ghost use Rattle.std.specs.Prelude.{Option as OptionOf, ◌≡◌, ◌<◌, ◌≤◌, ◌↔◌, IsTrue, length, slice_get, Some, IfOk};
ghost use Rattle.gt_base.specs.Sets.{has};
ghost use Rattle.gt_base.specs.declared.limits.TheConstants.{MAX_STEPS};
ghost use Rattle.gtrbac_model.specs.Safety.{IsSafe};
ghost use Rattle.session_table.specs.Tables.{NotBefore};
ghost use Rattle.why_check.specs.Certificates.{Listed as ListedOf, Accepts, IsLegal, set_in, says_something};
ghost use Rattle.why_check.specs.Kept.{base_in, IsBegun, IsGood, IsLater};
ghost use Rattle.why_check.specs.Steps.{IsReadyStep, IsHeld, IsPlayed, held_count};

use crate::bases::base;
use crate::blocking::Peaks;
use crate::certificates::{Cert, Listing};
use crate::closing::{ask, close};
use crate::heads::Headed;
use crate::replays::Replay;
use crate::showing::{has_item, is_empty, is_shown, set_listed};
use duration_limits::Ages;
use gt_base::{Entry, Happened, Instant, List, Memory, Step};
use indexmap::IndexMap;
use policy_book::Policy;
use session_table::Sessions;
use std::alloc::Global;

/// What a step has to do with the next listing: it is of the instant that the step closed, or it is
/// not looked at, or the certificate is wrong.
#[derive(Clone, Copy)]
pub(crate) enum Held {
    Listed,
    Passed,
    Wrong,
}

/// By what a certificate is judged: the policy, and its triggers by what they head.
#[derive(Clone, Copy)]
struct Judging<'a> {
    policy: &'a Policy,
    rules: &'a Headed,
    ghost same: { rules.now ≡ policy.now.policy.triggers },
}

/// Whether the certificate is one of the history with these entries, by the definitions of
/// conflict, triggers, base and settled sets alone. The entries are a legal history of the policy
/// since its birth, at most 1,000,000 of them, and the policy is safe. Only want of memory is free.
pub fn accept(
    policy: &Policy,
    birth: Instant,
    entries: &List<Entry>,
    cert: &Cert,
) -> Result<bool, Memory>
    requires legal { IsLegal policy.now.policy birth entries.now.items }
    requires safe { IsSafe policy.now.policy.triggers }
    requires few { length entries.now.items ≤ MAX_STEPS }
    ensures { IfOk result (λ yes. IsTrue yes ↔ Accepts policy.now.policy birth entries.now.items
        cert.now) }
{
    policy.keeps();
    let rules = Headed::new(cert.alloc, policy.triggers())?;
    let by = Judging {
        policy,
        rules: &rules,
    };
    let mut replay = begin(cert.alloc, policy, birth)?;
    let many = cert.len();
    let mut place = 0;
    for entry in entries.as_slice() {
        let held = step(&mut replay, &by, entry, cert, place)?;
        if is_wrong(held) {
            return Ok(false);
        }
        place += count(held);
    }
    Ok(place == many)
}

/// Whether the certificate is wrong.
fn is_wrong(held: Held) -> bool
    ensures { IsTrue result ↔ (held ≡ Held.Wrong) }
{
    matches!(held, Held::Wrong)
}

/// How many listings were held against the step.
fn count(held: Held) -> usize
    ensures { result ≡ held_count held }
{
    match held {
        Held::Listed => 1,
        Held::Passed | Held::Wrong => 0,
    }
}

/// The state at the birth.
fn begin(alloc: Global, policy: &Policy, birth: Instant) -> Result<Replay, Memory>
    ensures { IfOk result (IsBegun policy.now.policy birth) }
{
    Ok(Replay {
        alloc,
        present: birth,
        status: policy.opening().copied()?,
        ages: Ages::new(alloc, birth),
        due: IndexMap::new(alloc),
        table: Sessions::new(alloc),
        waiting: Vec::new(alloc),
    })
}

/// Plays one entry.
fn step(
    s: &mut Replay,
    by: &Judging,
    entry: &Entry,
    cert: &Cert,
    place: usize,
) -> Result<Held, Memory>
    requires { IsReadyStep by.now.policy.now.policy s.old entry.now.what }
    ensures { IfOk result (λ held. IsPlayed by.now.policy.now.policy s.old entry.now.what
        (slice_get cert.now place) held s.new) }
{
    match &entry.what {
        Step::Tick { upto: _, to } => {
            to.keeps();
            tick(s, by, *to, cert, place)
        }
        Step::Ask {
            actor,
            request,
            reply,
        } => {
            ask(s, by.policy, *actor, request, reply)?;
            Ok(Held::Passed)
        }
    }
}

/// Goes on to the instant at which a tick stopped, and holds the next listing against it.
fn tick(
    s: &mut Replay,
    by: &Judging,
    to: Instant,
    cert: &Cert,
    place: usize,
) -> Result<Held, Memory>
    requires later { s.old.present < to }
    requires born { s.old.ages.birth < to }
    requires charged { NotBefore s.old.table.charged_to s.old.present }
    ensures { IfOk result (λ held. IsHeld by.now.policy.now.policy s.old to
        (slice_get cert.now place) held s.new) }
{
    let base = base(s, by.policy, to)?;
    match cert.listings.get(place) {
        Some(listing) => hold(s, by, to, &base, listing),
        None => pass(s, by.policy, to, &base),
    }
}

/// The same, over its base, where this is the next listing.
fn hold(
    s: &mut Replay,
    by: &Judging,
    to: Instant,
    base: &Happened,
    listing: &Listing,
) -> Result<Held, Memory>
    requires later { s.old.present < to }
    requires charged { NotBefore s.old.table.charged_to s.old.present }
    requires base { base.now.set ≡ base_in by.now.policy.now.policy s.old to }
    ensures { IfOk result (λ held. IsHeld by.now.policy.now.policy s.old to
        (Some listing.now) held s.new) }
{
    if listing.at > to {
        return pass(s, by.policy, to, base);
    }
    if listing.at < to {
        return Ok(Held::Wrong);
    }
    hold_here(s, by, to, base, listing)
}

/// The same, where the listing is of this instant.
fn hold_here(
    s: &mut Replay,
    by: &Judging,
    to: Instant,
    base: &Happened,
    listing: &Listing,
) -> Result<Held, Memory>
    requires later { s.old.present < to }
    requires charged { NotBefore s.old.table.charged_to s.old.present }
    requires base { base.now.set ≡ base_in by.now.policy.now.policy s.old to }
    requires here { listing.now.at ≡ to }
    ensures { IfOk result (λ held. IsHeld by.now.policy.now.policy s.old to
        (Some listing.now) held s.new) }
{
    let set = set_listed(s.alloc, listing)?;
    let x = Peaks::new(s.alloc, set)?;
    hold_set(s, by, to, base, &x, listing)
}

/// The same, with the set of the listing.
fn hold_set(
    s: &mut Replay,
    by: &Judging,
    to: Instant,
    base: &Happened,
    x: &Peaks,
    listing: &Listing,
) -> Result<Held, Memory>
    requires later { s.old.present < to }
    requires charged { NotBefore s.old.table.charged_to s.old.present }
    requires base { base.now.set ≡ base_in by.now.policy.now.policy s.old to }
    requires here { listing.now.at ≡ to }
    requires set { x.now ≡ set_in listing.now }
    ensures { IfOk result (λ held. IsHeld by.now.policy.now.policy s.old to
        (Some listing.now) held s.new) }
{
    if !is_good(s, by, base, x, listing)? {
        return Ok(Held::Wrong);
    }
    close(s, by.policy, to, x)?;
    Ok(Held::Listed)
}

/// Whether the listing, which is of the instant of this base and has this set, says something and
/// is shown.
fn is_good(
    s: &Replay,
    by: &Judging,
    base: &Happened,
    x: &Peaks,
    listing: &Listing,
) -> Result<bool, Memory>
    requires { x.now ≡ set_in listing.now }
    ensures { IfOk result (λ yes. IsTrue yes ↔ IsGood by.now.policy.now.policy base.now.set
        (has s.now.status.set) listing.now.at listing.now) }
{
    if !says_something(listing) {
        return Ok(false);
    }
    is_shown(s.alloc, by.rules, base, &s.status, x, listing)
}

/// Whether the listing has an event or a signal.
fn says_something(listing: &Listing) -> bool
    ensures { result ≡ says_something listing.now }
{
    has_item(listing.events.as_slice()) || has_item(listing.signals.as_slice())
}

/// Goes on to an instant that is not listed, unless its base has something.
fn pass(s: &mut Replay, policy: &Policy, to: Instant, base: &Happened) -> Result<Held, Memory>
    requires later { s.old.present < to }
    requires charged { NotBefore s.old.table.charged_to s.old.present }
    requires base { base.now.set ≡ base_in policy.now.policy s.old to }
    ensures { (next : OptionOf ListedOf) → IsLater to next
        → IfOk result (λ held. IsHeld policy.now.policy s.old to next held s.new) }
{
    if !is_empty(base) {
        return Ok(Held::Wrong);
    }
    let x = Peaks::new(s.alloc, Happened::new(s.alloc))?;
    close(s, policy, to, &x)?;
    Ok(Held::Passed)
}
