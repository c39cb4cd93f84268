//! The list of a lock's value as a pass gave it back.
ghost use Rattle.std.specs.Prelude.{◌≡◌, length};

use gt_base::Keeps;
use std::marker::Model;
use std::snapshot::Snapshot;

/// The list of entries that a lock's value kept when it was given back. It is seen as that list,
/// and holds its length alone.
pub struct Front<M: Keeps> {
    len: u64,
    of: Snapshot<M>,
}

impl<M: Keeps> Model for Front<M> {
    ghost use Rattle.std.specs.Prelude.{◌≡◌, List, length};
    ghost use Rattle.gt_base.specs.declared.requests.Entry.{Entry};

    ghost Value = { List Entry };

    ghost view = { λ f. M.list f.of.value };

    ghost invariant = { λ f. f.len ≡ length (M.list f.of.value) };
}

impl<M: Keeps> Front<M> {
    /// The front of a value as it stands: its snapshot, and how many entries it keeps.
    pub(crate) fn of(value: &M) -> Front<M>
        ensures { result ≡ M.list value.now }
    {
        Front {
            len: value.kept(),
            of: Snapshot::of(value),
        }
    }

    /// How many entries the list has.
    pub fn len(&self) -> u64
        ensures { result ≡ length self.now }
    {
        self.len
    }
}

impl<M: Keeps> Drop for Front<M> {
    fn drop(self) {
        let Self { len: _, of: _ } = self;
    }
}
