//! The greatest priorities at which fluents are set on and off, found at once: those of roles by
//! their numbers, those of other fluents by what these are.
ghost use Rattle.std.specs.Prelude.{◌≡◌, ◌<◌, cond, None, Some, length, replicate, slice_get, slice_set, IfOk, IfSome, OnOk};
ghost use Rattle.gt_base.specs.declared.events.Event.{Event as EventOf};
ghost use Rattle.gt_base.specs.declared.events.Fluent.{Fluent as FluentOf};
ghost use Rattle.gt_base.specs.Orders.{fluent_eq};
ghost use Rattle.gtrbac_model.specs.Same.{same_event};
ghost use Rattle.indexmap.specs.IndexMap.{get};
ghost use Rattle.why_check.specs.Peaks.{peak_with, peak_in, role_place, side, sides_in, sides_with};

use gt_base::{Event, Fluent, MAX_ROLES, Memory};
use indexmap::IndexMap;
use std::alloc::Global;

/// The greatest priorities at which a fluent is set on and off.
#[derive(Clone, Copy)]
pub(crate) struct Sides {
    on: Option<u8>,
    off: Option<u8>,
}

/// A fluent that is set neither on nor off.
const UNSET: Sides = Sides {
    on: None,
    off: None,
};

/// The sides of fluents. Roles with low numbers stand in a row by them, in proportion to how many
/// events were foretold, and one more event moves none.
pub(crate) struct SideTable {
    roles: Vec<Sides>,
    others: IndexMap<Fluent, Sides>,
}

impl Drop for SideTable {
    fn drop(self) {
        let SideTable {
            roles: _,
            others: _,
        } = self;
    }
}

impl SideTable {
    /// No fluent is set yet; there is room for so many events.
    pub(crate) fn new(alloc: Global, many: usize) -> Result<SideTable, Memory>
        ensures { IfOk result (λ t. (e : EventOf) → peak_in (sides_in t) e ≡ None) }
    {
        let roles = unset(alloc, many.saturating_mul(4).min(MAX_ROLES as usize))?;
        let others = no_others(alloc, many)?;
        Ok(SideTable { roles, others })
    }

    /// The sides of the fluent; none, or such as say nothing, where it is not set.
    pub(crate) fn of(&self, f: Fluent) -> Option<Sides>
        ensures { result ≡ sides_in self.now f }
    {
        match place(&self.roles, f) {
            Some(n) => self.roles.get(n).copied(),
            None => self.others.get(&f).copied(),
        }
    }

    /// Notes the priority of the event, unless a greater one is noted.
    pub(crate) fn note(&mut self, e: Event, prio: u8) -> Result<(), Memory>
        ensures { OnOk result ((d : EventOf) → peak_in (sides_in self.new) d
            ≡ cond (same_event e d) (Some (peak_with (peak_in (sides_in self.old) d) prio))
            (peak_in (sides_in self.old) d)) }
    {
        match place(&self.roles, e.fluent) {
            Some(n) => {
                note_role(&mut self.roles, n, e.on, prio);
                Ok(())
            }
            None => note_other(&mut self.others, e, prio),
        }
    }
}

/// So many roles that are not set.
fn unset(alloc: Global, many: usize) -> Result<Vec<Sides>, Memory>
    ensures { IfOk result (λ row. row.items ≡ replicate many (record { on = None; off = None })) }
{
    let mut row = Vec::new(alloc);
    row.resize(many, UNSET)?;
    Ok(row)
}

/// No fluents, with room for so many.
fn no_others(alloc: Global, many: usize) -> Result<IndexMap<Fluent, Sides>, Memory>
    ensures { IfOk result (λ m. (f : FluentOf) → get fluent_eq m f ≡ None) }
{
    IndexMap::with_capacity(alloc, many)
}

/// Where the fluent stands in the row of the roles, if it stands there.
fn place(roles: &[Sides], f: Fluent) -> Option<usize>
    ensures place { result ≡ role_place (length roles.now) f }
    ensures within { IfSome result (λ n. n < length roles.now) }
{
    match f {
        Fluent::Enabled(role) => {
            if (role.0 as usize) < roles.len() {
                Some(role.0 as usize)
            } else {
                None
            }
        }
        Fluent::Assigned(_, _) | Fluent::Granted(_, _) | Fluent::Limit(_) | Fluent::Edge(_) => None,
    }
}

/// Notes the priority at a place of the row.
fn note_role(roles: &mut Vec<Sides>, n: usize, on: bool, prio: u8)
    requires { n < length roles.old.items }
    ensures { roles.new.items
        ≡ slice_set roles.old.items n (sides_with (slice_get roles.old.items n) on prio) }
{
    let mut sides = roles[n];
    raise(&mut sides, on, prio);
    roles[n] = sides;
}

/// Notes the priority under the event's fluent.
fn note_other(others: &mut IndexMap<Fluent, Sides>, e: Event, prio: u8) -> Result<(), Memory>
    ensures { OnOk result ((f : FluentOf) → get fluent_eq others.new f
        ≡ cond (fluent_eq e.fluent f)
        (Some (sides_with (get fluent_eq others.old e.fluent) e.on prio))
        (get fluent_eq others.old f)) }
{
    raise(others.entry(e.fluent)?.or_insert(UNSET), e.on, prio);
    Ok(())
}

/// Raises the side to the priority, unless it is a greater one.
fn raise(sides: &mut Sides, on: bool, prio: u8)
    ensures { sides.new ≡ sides_with (Some sides.old) on prio }
{
    if on {
        sides.on = Some(greater(sides.on, prio));
    } else {
        sides.off = Some(greater(sides.off, prio));
    }
}

/// The greater of the peak so far, if there is one, and one priority more.
fn greater(peak: Option<u8>, prio: u8) -> u8
    ensures { result ≡ peak_with peak prio }
{
    match peak {
        Some(q) => { if prio < q { q } else { prio } }
        None => prio,
    }
}

/// The greatest priority at which the fluent of the sides is set so.
pub(crate) fn side(sides: Option<Sides>, on: bool) -> Option<u8>
    ensures { result ≡ side on sides }
{
    match sides {
        Some(s) => { if on { s.on } else { s.off } }
        None => None,
    }
}
