//! The numbered calls of an object in memory.
ghost use Rattle.std.specs.Prelude.{◌≡◌, ◌≤◌, if◌then◌else◌, MatchOption};
ghost use Rattle.gt_io.specs.Memory.{none_made, one_more, is_listed, fails_next, answered, refused};

use gt_base::List;
use std::marker::Model;

/// Calls numbered from 1, of which those of a list fail. They are seen as the numbers of those that
/// fail, how many were made and how many have failed.
#[derive(Drop)]
pub struct Calls {
    failing: List<u64>,
    made: u64,
    faults: u64,
}

impl Model for Calls {
    ghost use Rattle.gt_io.specs.Memory.{FailingCalls};

    ghost Value = { FailingCalls };

    ghost view = { λ c. record { failing = c.failing.items; made = c.made; faults = c.faults } };
}

/// Whether the number of the call behind so many is listed.
pub(crate) fn is_listed(numbers: &List<u64>, made: u64) -> bool
    ensures { result ≡ is_listed made numbers.now.items }
{
    numbers.as_slice().contains(&made.saturating_add(1))
}

/// How many reads have told the end, behind one that gave `n` bytes, up to the end of its type.
pub fn count_end(ends: u64, n: usize) -> u64
    ensures end { n ≡ 0 → result ≡ one_more ends }
    ensures more { (n ≡ 0 → ⊥) → result ≡ ends }
{
    if n == 0 { ends.saturating_add(1) } else { ends }
}

/// How many calls gave none, behind one that gave this, up to the end of its type.
pub fn count_none<T>(ends: u64, given: &Option<T>) -> u64
    ensures { MatchOption given.now (result ≡ one_more ends) (λ _. result ≡ ends) }
{
    match given {
        Some(_) => ends,
        None => ends.saturating_add(1),
    }
}

impl Calls {
    /// No call made yet; the numbers are those of the calls that are to fail, from 1.
    pub fn new(failing: List<u64>) -> Calls
        ensures { result ≡ none_made failing.items }
    {
        Calls {
            failing,
            made: 0,
            faults: 0,
        }
    }

    /// Counts one more call, and answers whether it is to fail.
    pub fn begin(&mut self) -> bool
        ensures listed { result ≡ fails_next self.old }
        ensures made { self.new ≡ (if result then refused self.old else answered self.old) }
        ensures later { self.old.faults ≤ self.new.faults }
    {
        self.made = self.made.saturating_add(1);
        if self.failing.as_slice().contains(&self.made) {
            self.faults = self.faults.saturating_add(1);
            return true;
        }
        false
    }

    /// The call that was begun last fails for another cause.
    pub fn fail(&mut self)
        ensures failed { self.new ≡ record self.old { faults = one_more self.old.faults } }
        ensures later { self.old.faults ≤ self.new.faults }
    {
        self.faults = self.faults.saturating_add(1);
    }
}
