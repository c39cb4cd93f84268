//! Fluents in one ascending row that many copies of a status share, and where each stands in it.
ghost use Rattle.std.specs.Prelude.{◌≡◌, ◌≤◌, ◌<◌, ◌+◌, ◌-◌, ◌⊎◌, true, false, length, IfOk, IfSome};
ghost use Rattle.std.specs.List.{HoldsAt};
ghost use Rattle.std.specs.declared.cmp.Ordering.TheVariants.{Less, Greater};
ghost use Rattle.gt_base.specs.declared.events.RoleId.{RoleId};
ghost use Rattle.gt_base.specs.declared.events.Fluent.TheVariants.{Granted};
ghost use Rattle.gt_base.specs.Orders.{fluent_cmp};
ghost use Rattle.gt_base.specs.Sets.{Rises};
ghost use Rattle.gt_base.specs.Flags.{is_among, IsPlace};

use crate::events::{Fluent, PermId, RoleId};
use crate::lists::Memory;
use std::alloc::Global;
use std::marker::Model;

/// Fluents in ascending order, seen as their list. Beside them stands where to look for each, which
/// is a hint: what is found there is looked at before it is told.
pub(crate) struct Known {
    fluents: Vec<Fluent>,
    /// How many fluents stand before those of each sort and first name, sort by sort; the names
    /// from `width - 1` on count as one.
    starts: Vec<u32>,
    /// The second name of each fluent, 0 where it has none.
    seconds: Vec<u32>,
    width: u32,
}

impl Drop for Known {
    fn drop(self) {
        let Known {
            fluents: _,
            starts: _,
            seconds: _,
            width: _,
        } = self;
    }
}

impl Model for Known {
    ghost use Rattle.std.specs.Prelude.{List};
    ghost use Rattle.gt_base.specs.declared.events.Fluent.{Fluent};
    ghost use Rattle.gt_base.specs.Orders.{fluent_cmp};
    ghost use Rattle.gt_base.specs.Sets.{Rises};

    ghost Value = { List Fluent };

    ghost view = { λ k. k.fluents.items };

    ghost invariant = { λ k. Rises fluent_cmp k.fluents.items };
}

impl Known {
    /// The row of these fluents.
    pub(crate) fn of(alloc: Global, fluents: Vec<Fluent>) -> Result<Known, Memory>
        requires { Rises fluent_cmp fluents.items }
        ensures { IfOk result (λ known. known ≡ fluents.items) }
    {
        let width = width_for(&fluents);
        let starts = starts_of(alloc, &fluents, width)?;
        let seconds = seconds_of(alloc, &fluents)?;
        Ok(Known {
            fluents,
            starts,
            seconds,
            width,
        })
    }

    /// The fluents, ascending.
    pub(crate) fn as_slice(&self) -> &[Fluent]
        ensures value { result.now ≡ self.now }
        ensures rises { Rises fluent_cmp self.now }
    {
        &self.fluents
    }

    /// Where the fluent stands.
    pub(crate) fn place(&self, f: Fluent) -> Option<usize>
        ensures { IsPlace self.now f result }
    {
        place_by(&self.fluents, self.guess(f), f)
    }

    /// The only role to which a known fluent grants the permission, and where the fluent stands, if
    /// it is quickly found that there is just one.
    pub(crate) fn only_role(&self, perm: PermId) -> Option<(RoleId, usize)>
        ensures there { IfSome result (λ (role, at). (at < length self.now)
            × HoldsAt (λ k. k ≡ Granted perm role) self.now at) }
        ensures alone { IfSome result (λ (role, at). (r : RoleId)
            → is_among self.now (Granted perm r) ≡ true → r ≡ role) }
    {
        let at = self.guess(Fluent::Granted(perm, RoleId(0)));
        let role = only_at(&self.fluents, at, perm)?;
        Some((role, at))
    }

    /// Where to look for the fluent first.
    fn guess(&self, f: Fluent) -> usize {
        let (_, _, second) = names_of(f);
        let slot = slot_of(self.width, f);
        let low = start_at(&self.starts, slot);
        if second == 0 {
            return low;
        }
        let high = start_at(&self.starts, slot.saturating_add(1));
        match self.seconds.get(low..high) {
            Some(span) => low + place_in(span, second),
            None => low,
        }
    }
}

/// The sort of the fluent, its first name and its second, 0 where it has none.
fn names_of(f: Fluent) -> (usize, u32, u32)
    ensures { result.0 ≤ 4 }
{
    match f {
        Fluent::Enabled(role) => (0, role.0, 0),
        Fluent::Assigned(user, role) => (1, user.0, role.0),
        Fluent::Granted(perm, role) => (2, perm.0, role.0),
        Fluent::Limit(limit) => (3, limit.0, 0),
        Fluent::Edge(edge) => (4, edge, 0),
    }
}

/// Where the fluent's sort and first name are counted.
fn slot_of(width: u32, f: Fluent) -> usize {
    let (sort, first, _) = names_of(f);
    sort * width as usize + first.min(width.saturating_sub(1)) as usize
}

/// Where the name stands among ascending ones, or where it would go in: looked for first where it
/// stands if no name is left out before it.
fn place_in(names: &[u32], name: u32) -> usize
    ensures { result ≤ length names.now }
{
    if let Some(first) = names.first() {
        let at = name.saturating_sub(*first) as usize;
        if names.get(at).copied() == Some(name) {
            return at;
        }
    }
    names.partition_point(|n| *n < name)
}

/// How many fluents stand before a slot; 0 for a slot that is none, since it is a hint alone.
fn start_at(starts: &[u32], slot: usize) -> usize {
    match starts.get(slot) {
        Some(start) => *start as usize,
        None => 0,
    }
}

/// One more than the greatest first name, but in proportion to how many fluents there are.
fn width_for(fluents: &[Fluent]) -> u32 {
    let many = u32::try_from(fluents.len()).unwrap_or(u32::MAX);
    let mut width = 1;
    for f in fluents {
        let (_, first, _) = names_of(*f);
        width = first.saturating_add(1).max(width);
    }
    width.min(many.saturating_mul(2).saturating_add(64))
}

/// How many fluents stand before those of each sort and first name.
fn starts_of(alloc: Global, fluents: &[Fluent], width: u32) -> Result<Vec<u32>, Memory> {
    let mut starts = vec![in alloc; 0; 5 * width as usize + 1]?;
    for f in fluents {
        count(&mut starts, slot_of(width, *f));
    }
    for slot in 1..starts.len() {
        starts[slot] = starts[slot].saturating_add(starts[slot - 1]);
    }
    Ok(starts)
}

/// Counts a fluent for the slot after its own.
fn count(starts: &mut [u32], slot: usize) {
    if let Some(n) = starts.get_mut(slot.saturating_add(1)) {
        *n = n.saturating_add(1);
    }
}

/// The second name of each fluent, 0 where it has none.
fn seconds_of(alloc: Global, fluents: &[Fluent]) -> Result<Vec<u32>, Memory> {
    fluents.iter().map(|f| names_of(*f).2).collect(alloc)
}

/// Where the fluent stands: looked for at the guess, and, if the guess is no good, by halves.
fn place_by(fluents: &[Fluent], guess: usize, f: Fluent) -> Option<usize>
    requires { Rises fluent_cmp fluents.now }
    ensures { IsPlace fluents.now f result }
{
    if stands_at(fluents, guess, f) {
        return Some(guess);
    }
    if goes_in_at(fluents, guess, f) {
        return None;
    }
    search(fluents, f)
}

/// Whether the fluent stands at the place.
fn stands_at(fluents: &[Fluent], at: usize, f: Fluent) -> bool
    ensures { result ≡ true → (at < length fluents.now) × HoldsAt (λ k. k ≡ f) fluents.now at }
{
    match fluents.get(at) {
        Some(there) => *there == f,
        None => false,
    }
}

/// Whether the fluent lies between what stands before the place and what stands at it.
fn goes_in_at(fluents: &[Fluent], at: usize, f: Fluent) -> bool
    requires { Rises fluent_cmp fluents.now }
    ensures { result ≡ true → is_among fluents.now f ≡ false }
{
    if !is_after(fluents, at, f) {
        return false;
    }
    is_before(fluents, at, f)
}

/// Whether nothing stands before the place, or the fluent is above it.
fn is_after(fluents: &[Fluent], at: usize, f: Fluent) -> bool
    ensures { result ≡ true → (at ≡ 0)
        ⊎ ((at - 1 < length fluents.now)
        × HoldsAt (λ k. fluent_cmp k f ≡ Less) fluents.now (at - 1)) }
{
    if at == 0 {
        return true;
    }
    is_below(fluents, at - 1, f)
}

/// Whether nothing stands from the place on, or the fluent is below it.
fn is_before(fluents: &[Fluent], at: usize, f: Fluent) -> bool
    ensures { result ≡ true → (at ≡ length fluents.now)
        ⊎ ((at < length fluents.now) × HoldsAt (λ k. fluent_cmp k f ≡ Greater) fluents.now at) }
{
    if at == fluents.len() {
        return true;
    }
    is_above(fluents, at, f)
}

/// The role to which the fluent at the place grants the permission, if it does, and its neighbours
/// grant it to nobody.
fn only_at(fluents: &[Fluent], at: usize, perm: PermId) -> Option<RoleId>
    requires { Rises fluent_cmp fluents.now }
    ensures there { IfSome result (λ role. (at < length fluents.now)
        × HoldsAt (λ k. k ≡ Granted perm role) fluents.now at) }
    ensures alone { IfSome result (λ role. (r : RoleId)
        → is_among fluents.now (Granted perm r) ≡ true → r ≡ role) }
{
    let role = granted_at(fluents, at, perm)?;
    if is_first(fluents, at, perm) && is_last(fluents, at, perm) {
        Some(role)
    } else {
        None
    }
}

/// The role to which the fluent at the place grants the permission, if it does.
fn granted_at(fluents: &[Fluent], at: usize, perm: PermId) -> Option<RoleId>
    ensures { IfSome result (λ role. (at < length fluents.now)
        × HoldsAt (λ k. k ≡ Granted perm role) fluents.now at) }
{
    match fluents.get(at) {
        Some(Fluent::Granted(p, role)) if p.0 == perm.0 => Some(*role),
        _ => None,
    }
}

/// Whether nothing stands before the place, or what stands there is below each fluent that grants
/// the permission.
fn is_first(fluents: &[Fluent], at: usize, perm: PermId) -> bool
    ensures { result ≡ true → (at ≡ 0)
        ⊎ ((at - 1 < length fluents.now)
        × HoldsAt (λ k. (r : RoleId) → fluent_cmp k (Granted perm r) ≡ Less) fluents.now (at - 1)) }
{
    if at == 0 {
        return true;
    }
    match fluents.get(at - 1) {
        Some(there) => is_below_all(*there, perm),
        None => false,
    }
}

/// Whether nothing stands after the place, or what stands there is above each fluent that grants
/// the permission.
fn is_last(fluents: &[Fluent], at: usize, perm: PermId) -> bool
    requires { at < length fluents.now }
    ensures { result ≡ true → (at + 1 ≡ length fluents.now)
        ⊎ ((at + 1 < length fluents.now)
        × HoldsAt (λ k. (r : RoleId) → fluent_cmp k (Granted perm r) ≡ Greater) fluents.now
        (at + 1)) }
{
    match fluents.get(at + 1) {
        Some(there) => is_above_all(*there, perm),
        None => true,
    }
}

/// Whether the fluent is below each that grants the permission.
fn is_below_all(f: Fluent, perm: PermId) -> bool
    ensures { result ≡ true → (r : RoleId) → fluent_cmp f (Granted perm r) ≡ Less }
{
    match f {
        Fluent::Enabled(_) | Fluent::Assigned(_, _) => true,
        Fluent::Granted(p, _) => p.0 < perm.0,
        Fluent::Limit(_) | Fluent::Edge(_) => false,
    }
}

/// Whether the fluent is above each that grants the permission.
fn is_above_all(f: Fluent, perm: PermId) -> bool
    ensures { result ≡ true → (r : RoleId) → fluent_cmp f (Granted perm r) ≡ Greater }
{
    match f {
        Fluent::Enabled(_) | Fluent::Assigned(_, _) => false,
        Fluent::Granted(p, _) => p.0 > perm.0,
        Fluent::Limit(_) | Fluent::Edge(_) => true,
    }
}

/// Whether what stands at the place is below the fluent.
fn is_below(fluents: &[Fluent], at: usize, f: Fluent) -> bool
    ensures { result ≡ true → (at < length fluents.now)
        × HoldsAt (λ k. fluent_cmp k f ≡ Less) fluents.now at }
{
    match fluents.get(at) {
        Some(there) => there.cmp(&f).is_lt(),
        None => false,
    }
}

/// Whether what stands at the place is above the fluent.
fn is_above(fluents: &[Fluent], at: usize, f: Fluent) -> bool
    ensures { result ≡ true → (at < length fluents.now)
        × HoldsAt (λ k. fluent_cmp k f ≡ Greater) fluents.now at }
{
    match fluents.get(at) {
        Some(there) => there.cmp(&f).is_gt(),
        None => false,
    }
}

/// Where the fluent stands, looked for by halves.
fn search(fluents: &[Fluent], f: Fluent) -> Option<usize>
    requires { Rises fluent_cmp fluents.now }
    ensures { IsPlace fluents.now f result }
{
    match fluents.binary_search(&f) {
        Ok(at) => Some(at),
        Err(_) => None,
    }
}
