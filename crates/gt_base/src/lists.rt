//! Lists whose room is taken ahead.
ghost use Rattle.std.specs.Prelude.{◌≡◌, ◌≤◌, ◌+◌, ◌<◌, [], ◌∷◌, ◌++◌, length, slice_get, Some, None, OnOk, OnErr, IfOk, IfSome, IfNone};

use std::alloc::{AllocError, Global};
use std::marker::Model;

/// Want of memory, the one free answer of a call that allocates.
pub type Memory = AllocError;

/// A list, seen as its items and the number of further items that it has room for.
#[derive(Drop)]
pub struct List<T> {
    items: Vec<T>,
}

impl<T> Model for List<T> {
    ghost use Rattle.std.specs.Prelude.{◌-◌, vec_capacity, vec_len};
    ghost use Rattle.gt_base.specs.Roomy.{Roomy};

    ghost Value = { Roomy T };

    ghost view = { λ l. record {
      items = l.items.items;
      spare = vec_capacity l.items - vec_len l.items;
    } };
}

impl<T> List<T> {
    /// An empty list, which takes no memory yet.
    pub fn new(alloc: Global) -> List<T>
        ensures { result.items ≡ [] }
    {
        List {
            items: Vec::new(alloc),
        }
    }

    /// How many items it has.
    pub fn len(&self) -> usize
        ensures { result ≡ length self.now.items }
    {
        self.items.len()
    }

    /// Makes room for n more items. After a refusal the list is as it was.
    pub fn reserve(&mut self, n: usize) -> Result<(), Memory>
        ensures items { self.new.items ≡ self.old.items }
        ensures spare { self.old.spare ≤ self.new.spare }
        ensures room { OnOk result (n ≤ self.new.spare) }
    {
        self.items.reserve(n)
    }

    /// Adds an item at the end, into room that was made before.
    pub fn push(&mut self, v: T)
        requires { 1 ≤ self.old.spare }
        ensures items { self.new.items ≡ self.old.items ++ v ∷ [] }
        ensures spare { self.old.spare ≤ self.new.spare + 1 }
    {
        match self.items.push(v) {
            Ok(()) => {}
            Err(_) => unreachable!(),
        }
    }

    /// Takes out all items. Their room stays, for others.
    pub fn clear(&mut self)
    where
        T: Drop,
        ensures items { self.new.items ≡ [] }
        ensures spare { self.new.spare ≡ self.old.spare + length self.old.items }
    {
        self.items.clear();
    }

    /// The item at a place from 0, none at the length and beyond.
    pub fn get(&self, i: usize) -> Option<&T>
        ensures some { IfSome result (λ v. slice_get self.now.items i ≡ Some v.now) }
        ensures none { IfNone result (length self.now.items ≤ i) }
    {
        self.items.get(i)
    }

    /// The items as a slice.
    pub fn as_slice(&self) -> &[T]
        ensures { result.now ≡ self.now.items }
    {
        self.items.as_slice()
    }
}

impl<T: Copy> List<T> {
    /// Adds copies of the items at the end, into room that was made before.
    pub fn extend_from_slice(&mut self, items: &[T])
        requires { length items.now ≤ self.old.spare }
        ensures items { self.new.items ≡ self.old.items ++ items.now }
        ensures spare { self.old.spare ≤ self.new.spare + length items.now }
    {
        match self.items.extend_from_slice(items) {
            Ok(()) => {}
            Err(_) => unreachable!(),
        }
    }

    /// Takes room for copies of the items, and adds them at the end. After a refusal the list is as
    /// it was.
    pub fn push_all(&mut self, items: &[T]) -> Result<(), Memory>
        ensures ok { OnOk result (self.new.items ≡ self.old.items ++ items.now) }
        ensures err { OnErr result (self.new.items ≡ self.old.items) }
    {
        self.reserve(items.len())?;
        self.extend_from_slice(items);
        Ok(())
    }

    /// A list with the same items.
    pub fn copied(&self) -> Result<List<T>, Memory>
        ensures { IfOk result (λ copy. copy.items ≡ self.now.items) }
    {
        let alloc = *self.items.allocator();
        if self.items.is_empty() {
            return Ok(List::new(alloc));
        }
        Ok(List {
            items: Vec::from_slice(alloc, &self.items)?,
        })
    }
}

impl<T> From<Vec<T>> for List<T> {
    ghost from_gives = { λ items list. list.items ≡ items.items };

    fn from(items: Vec<T>) -> List<T> {
        List { items }
    }
}
