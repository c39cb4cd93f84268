//! Tables of names, and of pairs of names.
ghost use Rattle.std.specs.Prelude.{◌≡◌, ◌<◌, not, [], length, position, slice_get, Some, IfOk, OnErr};
ghost use Rattle.std.specs.List.{list_any};
ghost use Rattle.gt_base.specs.Names.{place_of, lists_name, with_name};
ghost use Rattle.policy_words.specs.Naming.{same_pair};
ghost use Rattle.policy_words.specs.Making.{with_pair};

use crate::keys::Key;
use gt_base::{Memory, Name};
use indexmap::IndexSet;
use std::alloc::{AllocError, Global};
use std::marker::Model;

/// Declared names, at most 4,294,967,295 of them, seen as their list. The number of a name is its
/// place, from 0.
pub struct Table {
    names: IndexSet<Key>,
}

impl Drop for Table {
    fn drop(self) {
        let Table { names: _ } = self;
    }
}

impl Model for Table {
    ghost use Rattle.std.specs.Prelude.{List, ℕ, ◌≤◌, length};
    ghost use Rattle.gt_base.specs.declared.limits.TheConstants.{MAX_NUMBER};

    ghost Value = { List (List ℕ) };

    ghost view = { λ s. s.names.keys };

    ghost invariant = { λ s. length s.names.keys ≤ MAX_NUMBER };
}

impl Table {
    /// No names, which takes no memory yet.
    pub fn new(alloc: Global) -> Table
        ensures { result ≡ [] }
    {
        Table {
            names: IndexSet::new(alloc),
        }
    }

    /// How many names are declared.
    pub fn len(&self) -> u32
        ensures { result ≡ length self.now }
    {
        self.names.len() as u32
    }

    /// Declares a name, and says whether it is new; a name that was declared before keeps its
    /// number. There is no room for more than 4,294,967,295 names. After a refusal the table is as
    /// it was.
    pub fn declare(&mut self, name: Name) -> Result<bool, Memory>
        ensures fresh { IfOk result (λ fresh. fresh ≡ not (lists_name self.old name)) }
        ensures names { IfOk result (λ _. self.new ≡ with_name self.old name) }
        ensures err { OnErr result (self.new ≡ self.old) }
    {
        if self.names.len() >= u32::MAX as usize {
            return Err(AllocError);
        }
        let (_number, fresh) = self.names.insert_full(Key { name })?;
        Ok(fresh)
    }

    /// An equal table.
    pub fn copied(&self) -> Result<Table, Memory>
        ensures { IfOk result (λ copy. copy ≡ self.now) }
    {
        match self.names.clone() {
            Ok(names) => Ok(Table { names }),
            Err(_) => Err(AllocError),
        }
    }

    /// Whether the name is declared. It takes no memory.
    pub fn has(&self, name: &Name) -> bool
        ensures { result ≡ lists_name self.now name.now }
    {
        self.names.get_index_of(&Key { name: *name }).is_some()
    }

    /// The number of a name, none exactly where it is not declared. It takes no memory.
    pub fn number(&self, name: &Name) -> Option<u32>
        ensures { result ≡ place_of self.now name.now }
    {
        match self.names.get_index_of(&Key { name: *name }) {
            Some(place) => Some(place as u32),
            None => None,
        }
    }

    /// The name of a number. It takes no memory.
    pub fn name(&self, number: u32) -> Name
        requires { number < length self.now }
        ensures { slice_get self.now number ≡ Some result }
    {
        self.names.get_index(number as usize).unwrap().name
    }
}

/// Ordered pairs of names, at most 4,294,967,295 of them, seen as their list. The number of a pair
/// is its place, from 0.
pub(crate) struct PairTable {
    pairs: IndexSet<(Key, Key)>,
}

impl Drop for PairTable {
    fn drop(self) {
        let PairTable { pairs: _ } = self;
    }
}

impl Model for PairTable {
    ghost use Rattle.std.specs.Prelude.{List, ◌≤◌, length};
    ghost use Rattle.gt_base.specs.declared.limits.TheConstants.{MAX_NUMBER};
    ghost use Rattle.policy_words.specs.Naming.{NamePair, pair_list_code};

    ghost Value = { List NamePair };

    ghost coded = { pair_list_code };

    ghost view = { λ s. s.pairs.keys };

    ghost invariant = { λ s. length s.pairs.keys ≤ MAX_NUMBER };
}

impl PairTable {
    /// No pairs, which takes no memory yet.
    pub(crate) fn new(alloc: Global) -> PairTable
        ensures { result ≡ [] }
    {
        PairTable {
            pairs: IndexSet::new(alloc),
        }
    }

    /// Declares a pair, and says whether it is new; a pair that was declared before keeps its
    /// number. There is no room for more than 4,294,967,295 pairs. After a refusal the table is as
    /// it was.
    pub(crate) fn declare(&mut self, first: Name, second: Name) -> Result<bool, Memory>
        ensures fresh { IfOk result (λ fresh. fresh
            ≡ not (list_any (same_pair (first, second)) self.old)) }
        ensures pairs { IfOk result (λ _. self.new ≡ with_pair self.old (first, second)) }
        ensures err { OnErr result (self.new ≡ self.old) }
    {
        if self.pairs.len() >= u32::MAX as usize {
            return Err(AllocError);
        }
        let (_number, fresh) = self
            .pairs
            .insert_full((Key { name: first }, Key { name: second }))?;
        Ok(fresh)
    }

    /// An equal table.
    pub(crate) fn copied(&self) -> Result<PairTable, Memory>
        ensures { IfOk result (λ copy. copy ≡ self.now) }
    {
        match self.pairs.clone() {
            Ok(pairs) => Ok(PairTable { pairs }),
            Err(_) => Err(AllocError),
        }
    }

    /// The number of a pair, none exactly where it is not declared. It takes no memory.
    pub(crate) fn number(&self, first: &Name, second: &Name) -> Option<u32>
        ensures { result ≡ position (same_pair (first.now, second.now)) self.now }
    {
        let pair = (Key { name: *first }, Key { name: *second });
        match self.pairs.get_index_of(&pair) {
            Some(place) => Some(place as u32),
            None => None,
        }
    }
}
