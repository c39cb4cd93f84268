//! Fluents with a flag each: the row of fluents is shared by copies, and the flags are each copy's
//! own.
ghost use Rattle.std.specs.Prelude.{◌≡◌, ◌<◌, [], ◌++◌, true, false, map, length, flat_map, slice_index_or, slice_set, IfOk, IfSome, MatchOption};
ghost use Rattle.std.specs.List.{HoldsAt};
ghost use Rattle.gt_base.specs.declared.events.Fluent.{Fluent};
ghost use Rattle.gt_base.specs.declared.events.RoleId.{RoleId};
ghost use Rattle.gt_base.specs.declared.events.Fluent.TheVariants.{Granted};
ghost use Rattle.gt_base.specs.Orders.{fluent_cmp};
ghost use Rattle.gt_base.specs.Sets.{has, members, set_of, Rises};
ghost use Rattle.gt_base.specs.Words.{fluents_of, AreWords};
ghost use Rattle.gt_base.specs.Flags.{flagged, is_among, is_lit, IsPlace, IsWith, IsWithout, AreApart, IsOnlyGrant, set_of_parts};

use crate::events::{Fluent, PermId, RoleId};
use crate::known::Known;
use crate::lists::Memory;
use crate::words::{FlagWord, add_all, ascending, grant_nothing, is_on};
use std::alloc::{AllocError, Global};
use std::marker::Model;
use std::sync::Arc;

/// Fluents in ascending order with a flag each, which tells whether the fluent is on.
pub(crate) struct Flags {
    known: Option<Arc<Known, Global>>,
    on: Vec<bool>,
}

impl Drop for Flags {
    fn drop(self) {
        let Flags { known: _, on: _ } = self;
    }
}

impl Model for Flags {
    ghost use Rattle.std.specs.Prelude.{◌≡◌, length};
    ghost use Rattle.std.specs.Arc.{arc_value};
    ghost use Rattle.gt_base.specs.Orders.{fluent_cmp};
    ghost use Rattle.gt_base.specs.Sets.{Rises};
    ghost use Rattle.gt_base.specs.Flags.{Flagged, none_or};

    ghost Value = { Flagged };

    ghost view = { λ s. record { known = none_or arc_value s.known; on = s.on.items } };

    ghost invariant = { λ s. Rises fluent_cmp (none_or arc_value s.known)
        × (length s.on.items ≡ length (none_or arc_value s.known)) };
}

impl Flags {
    /// No fluents, which take no memory.
    pub(crate) fn new(alloc: Global) -> Flags
        ensures { result ≡ record { known = []; on = [] } }
    {
        Flags {
            known: None,
            on: Vec::new(alloc),
        }
    }

    /// Equal fluents and flags. The fluents are shared.
    pub(crate) fn copied(&self) -> Result<Flags, Memory>
        ensures { IfOk result (λ copy. copy ≡ self.now) }
    {
        let known = match &self.known {
            Some(known) => Some(Arc::try_clone(known)?),
            None => None,
        };
        let on = Vec::from_slice(*self.on.allocator(), &self.on)?;
        Ok(Flags { known, on })
    }

    /// How many fluents have a flag.
    pub(crate) fn len(&self) -> usize {
        self.on.len()
    }

    /// The fluents that have a flag, ascending.
    fn fluents(&self) -> &[Fluent]
        ensures { result.now ≡ self.now.known }
    {
        match &self.known {
            Some(known) => known.as_slice(),
            None => &[],
        }
    }

    /// Where the fluent's flag stands; None where it has none.
    fn place(&self, f: Fluent) -> Option<usize>
        ensures { IsPlace self.now.known f result }
    {
        match &self.known {
            Some(known) => known.place(f),
            None => None,
        }
    }

    /// Whether the fluent is on by its flag, if it has one.
    fn flag(&self, f: Fluent) -> Option<bool>
        ensures { MatchOption result (is_among self.now.known f ≡ false)
            (λ flag. (is_among self.now.known f ≡ true) × (flag ≡ is_lit self.now f)) }
    {
        match self.place(f) {
            Some(at) => Some(self.flag_at(at)),
            None => None,
        }
    }

    /// The flag of the fluent that stands at the place.
    fn flag_at(&self, at: usize) -> bool
        requires { at < length self.now.known }
        ensures { (f : Fluent) → HoldsAt (λ k. k ≡ f) self.now.known at
            → (is_among self.now.known f ≡ true) × (result ≡ is_lit self.now f) }
    {
        flag_at(&self.on, at)
    }

    /// The only role to which a fluent with a flag grants the permission, with the flag, where it
    /// is quickly found that there is just one.
    fn only_known(&self, perm: PermId) -> Option<(RoleId, bool)>
        ensures flag { IfSome result (λ (role, flag).
            (is_among self.now.known (Granted perm role) ≡ true)
            × (flag ≡ is_lit self.now (Granted perm role))) }
        ensures alone { IfSome result (λ (role, flag). (r : RoleId)
            → is_among self.now.known (Granted perm r) ≡ true → r ≡ role) }
    {
        match &self.known {
            Some(known) => {
                let (role, at) = known.only_role(perm)?;
                Some((role, self.flag_at(at)))
            }
            None => None,
        }
    }

    /// Sets the fluent's flag, if it has one, and tells whether it has.
    pub(crate) fn turn_on(&mut self, f: Fluent) -> bool
        ensures known { result ≡ true → IsWith f self.old self.new }
        ensures unknown { result ≡ false
            → (self.new ≡ self.old) × (is_among self.old.known f ≡ false) }
        ensures same { self.new.known ≡ self.old.known }
    {
        match self.place(f) {
            Some(at) => {
                put_flag(&mut self.on, at, true);
                true
            }
            None => false,
        }
    }

    /// Clears the fluent's flag, if it has one, and tells whether it has.
    pub(crate) fn turn_off(&mut self, f: Fluent) -> bool
        ensures without { IsWithout f self.old self.new }
        ensures known { result ≡ true → is_among self.old.known f ≡ true }
        ensures same { self.new.known ≡ self.old.known }
    {
        match self.place(f) {
            Some(at) => {
                put_flag(&mut self.on, at, false);
                true
            }
            None => false,
        }
    }

    /// The fluents whose flags are set.
    pub(crate) fn lit(&self, alloc: Global) -> Result<Vec<Fluent>, Memory>
        ensures { IfOk result (λ fluents. fluents.items ≡ flagged self.now.known self.now.on) }
    {
        lit_of(alloc, self.fluents(), &self.on)
    }
}

/// The flag at a place, which must be one of them.
fn flag_at(on: &[bool], at: usize) -> bool
    requires { at < length on.now }
    ensures { result ≡ slice_index_or on.now at false }
{
    on[at]
}

/// Sets the flag at a place, which must be one of them.
fn put_flag(on: &mut Vec<bool>, at: usize, is_set: bool)
    requires { at < length on.old.items }
    ensures { on.new.items ≡ slice_set on.old.items at is_set }
{
    on[at] = is_set;
}

/// Those whose flags are set.
fn lit_of(alloc: Global, fluents: &[Fluent], on: &[bool]) -> Result<Vec<Fluent>, Memory>
    requires { length on.now ≡ length fluents.now }
    ensures { IfOk result (λ lit. lit.items ≡ flagged fluents.now on.now) }
{
    let mut lit = Vec::new(alloc);
    for at in 0..fluents.len() {
        if on[at] {
            lit.push(fluents[at])?;
        }
    }
    Ok(lit)
}

/// Whether the fluent is on: by its flag, or, if it has none, by a word.
pub(crate) fn is_on_in(flags: &Flags, more: &[FlagWord], f: Fluent) -> bool
    requires words { AreWords more.now }
    requires apart { AreApart flags.now more.now }
    ensures { result ≡ has (set_of_parts flags.now more.now) f }
{
    match flags.flag(f) {
        Some(flag) => flag,
        None => is_on(more, f),
    }
}

/// So many words are looked at quickly.
const FEW: usize = 16;

/// The only role to which a fluent that is on may grant the permission, and whether it does, where
/// it is quickly found that no other is.
pub(crate) fn only_role_in(flags: &Flags, more: &[FlagWord], perm: PermId) -> Option<(RoleId, bool)>
    requires words { AreWords more.now }
    requires apart { AreApart flags.now more.now }
    ensures { IfSome result (IsOnlyGrant (has (set_of_parts flags.now more.now)) perm) }
{
    if more.len() <= FEW && grant_nothing(more) {
        flags.only_known(perm)
    } else {
        None
    }
}

/// All fluents that have a flag or that a word stands for, ascending.
fn all_known(alloc: Global, flags: &Flags, more: &[FlagWord]) -> Result<Vec<Fluent>, Memory>
    requires { AreWords more.now }
    ensures { IfOk result (λ all. all.items ≡ members
        (set_of {R = fluent_cmp} (flags.now.known ++ flat_map fluents_of more.now))) }
{
    let mut all = Vec::from_slice(alloc, flags.fluents())?;
    add_all(&mut all, more)?;
    Ok(ascending(all))
}

/// Flags for all fluents that have a flag or that a word stands for, each set where the fluent is
/// on.
pub(crate) fn gathered(alloc: Global, flags: &Flags, more: &[FlagWord]) -> Result<Flags, Memory>
    requires words { AreWords more.now }
    requires apart { AreApart flags.now more.now }
    ensures { IfOk result (λ all. set_of_parts all [] ≡ set_of_parts flags.now more.now) }
{
    let fluents = all_known(alloc, flags, more)?;
    let on = flags_for(alloc, &fluents, flags, more)?;
    let all = flags_of(alloc, fluents, on)?;
    Ok(all)
}

/// For each fluent whether it is on.
fn flags_for(
    alloc: Global,
    fluents: &[Fluent],
    flags: &Flags,
    more: &[FlagWord],
) -> Result<Vec<bool>, Memory>
    requires words { AreWords more.now }
    requires apart { AreApart flags.now more.now }
    ensures { IfOk result (λ on. on.items ≡ map (has (set_of_parts flags.now more.now))
        fluents.now) }
{
    let mut on = Vec::with_capacity(alloc, fluents.len())?;
    for f in fluents {
        on.push(is_on_in(flags, more, *f))?;
    }
    Ok(on)
}

/// These fluents with these flags.
fn flags_of(alloc: Global, fluents: Vec<Fluent>, on: Vec<bool>) -> Result<Flags, Memory>
    requires rises { Rises fluent_cmp fluents.items }
    requires length { length on.items ≡ length fluents.items }
    ensures { IfOk result (λ flags. flags ≡ record { known = fluents.items; on = on.items }) }
{
    let known = Known::of(alloc, fluents)?;
    match Arc::new(alloc, known) {
        Ok(known) => Ok(Flags {
            known: Some(known),
            on,
        }),
        Err(_) => Err(AllocError),
    }
}
