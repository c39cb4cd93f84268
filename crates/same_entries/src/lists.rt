//! Whether a list begins another.
ghost use Rattle.std.specs.Prelude.{◌↔◌, IsTrue};
ghost use mathlib.Core.List.{IsPrefix};

use crate::same::same_entry;
use gt_base::Entry;

/// Whether the entries are the first ones of the others.
pub fn begins(entries: &[Entry], others: &[Entry]) -> bool
    ensures { IsTrue result ↔ IsPrefix entries.now others.now }
{
    if others.len() < entries.len() {
        return false;
    }
    for i in 0..entries.len() {
        if !same_entry(&entries[i], &others[i]) {
            return false;
        }
    }
    true
}
