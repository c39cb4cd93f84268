//! Walks by the numbers of their edges.
ghost use Rattle.std.specs.Prelude.{◌≡◌, ◌≤◌, [], ◌∷◌, ◌++◌, length, slice_get, Some, OnOk, OnErr, IfSome, IfNone};

use std::alloc::{AllocError, Global};
use std::marker::Model;

/// Numbers of edges, in order.
#[derive(Drop)]
pub struct EdgeList {
    numbers: Vec<u32>,
}

impl Model for EdgeList {
    ghost use Rattle.std.specs.Prelude.{ℕ, List};

    ghost Value = { List ℕ };

    ghost view = { λ l. l.numbers.items };
}

impl EdgeList {
    /// An empty list.
    pub fn new(alloc: Global) -> EdgeList
        ensures { result ≡ [] }
    {
        EdgeList {
            numbers: Vec::new(alloc),
        }
    }

    /// How many numbers it has.
    pub fn len(&self) -> usize
        ensures { result ≡ length self.now }
    {
        self.numbers.len()
    }

    /// The number at a place, from 0.
    pub fn get(&self, i: usize) -> Option<&u32>
        ensures some { IfSome result (λ n. slice_get self.now i ≡ Some n.now) }
        ensures none { IfNone result (length self.now ≤ i) }
    {
        self.numbers.get(i)
    }

    /// The numbers as a slice.
    pub fn as_slice(&self) -> &[u32]
        ensures { result.now ≡ self.now }
    {
        self.numbers.as_slice()
    }

    /// Adds a number at the end. After a refusal the list is as it was.
    pub fn push(&mut self, n: u32) -> Result<(), AllocError>
        ensures ok { OnOk result (self.new ≡ self.old ++ n ∷ []) }
        ensures err { OnErr result (self.new ≡ self.old) }
    {
        self.numbers.push(n)?;
        Ok(())
    }
}

/// A walk: the node where it begins, and the numbers of its edges, one after the other.
#[derive(Drop)]
pub struct Path {
    pub start: u32,
    pub edges: EdgeList,
}
