//! Which numbers a set of a part picks.
ghost use Rattle.std.specs.Prelude.{◌≡◌, ◌<◌, ◌≤◌, ◌+◌, ◌-◌, ◌^◌, option_map, nat_eq, nat_le, slice_index, IfSome, IfNone, IsTrue, None, Some};
ghost use Rattle.std.specs.List.{list_any, find};
ghost use Rattle.gtrbac_model.specs.Period.{picks};
ghost use Rattle.gtrbac_model.specs.Valid.{is_set};
ghost use Rattle.calendar_match.specs.Steps.{IsNextPicked, PicksNoneFrom, IsLastPicked, PicksNoneTo, last_low, LesserAreFirst, has_upto, picks_upto, dense_from, is_dense};

use gt_base::List;

/// Whether a number is one of these, which may be in any order.
fn has(numbers: &[u32], n: u64) -> bool
    ensures { result ≡ list_any (nat_eq n) numbers.now }
{
    numbers.iter().any(|m| n == u64::from(*m))
}

/// Whether the set picks the number.
pub(crate) fn picks(set: &Option<List<u32>>, n: u64) -> bool
    ensures { result ≡ picks (option_map (λ l. l.items) set.now) n }
{
    match set {
        None => true,
        Some(numbers) => has(numbers.as_slice(), n),
    }
}

/// Whether the first numbers are 1, 2 and so on up to this one.
fn is_run(numbers: &[u32], n: u64) -> bool
    requires { 1 ≤ n }
    ensures { result ≡ nat_eq (slice_index numbers.now (n - 1)) n }
{
    match numbers.get((n - 1) as usize) {
        None => false,
        Some(m) => u64::from(*m) == n,
    }
}

/// Whether the set picks each number from 1 to this one.
pub(crate) fn picks_upto(n: u64, set: &Option<List<u32>>) -> bool
    requires { 1 ≤ n }
    ensures { result ≡ picks_upto n (option_map (λ l. l.items) set.now) }
{
    match set {
        None => true,
        Some(numbers) => is_run(numbers.as_slice(), n),
    }
}

/// Whether each number from 1 to `most` is one of these, or fewer than `reach` above one.
fn is_dense_list(reach: u64, most: u64, numbers: &[u32]) -> bool
    requires { reach < 2 ^ 32 }
    ensures { result ≡ dense_from reach most 1 numbers.now }
{
    let mut next = 1;
    'numbers: for m in numbers {
        let m = u64::from(*m);
        if most < next {
            return true;
        }
        if next < m {
            return false;
        }
        next = m + reach;
    }
    most < next
}

/// Whether the set picks, of the numbers from 1 to `most`, each, or one fewer than `reach` below.
pub(crate) fn is_dense(reach: u64, most: u64, set: &Option<List<u32>>) -> bool
    requires { reach < 2 ^ 32 }
    ensures { result ≡ is_dense reach most (option_map (λ l. l.items) set.now) }
{
    match set {
        None => true,
        Some(numbers) => is_dense_list(reach, most, numbers.as_slice()),
    }
}

/// Whether one of the numbers is at most this.
fn has_low(numbers: &[u32], most: u64) -> bool
    ensures { result ≡ list_any (λ m. nat_le m most) numbers.now }
{
    numbers.iter().any(|m| u64::from(*m) <= most)
}

/// Whether the set picks any of the numbers up to this one.
pub(crate) fn has_upto(most: u64, set: &Option<List<u32>>) -> bool
    ensures { result ≡ has_upto most (option_map (λ l. l.items) set.now) }
{
    match set {
        None => true,
        Some(numbers) => has_low(numbers.as_slice(), most),
    }
}

/// How many of the numbers are less than n; they stand first.
fn count_below(numbers: &[u32], n: u64) -> usize
    requires { IsTrue (is_set (Some numbers.now)) }
    ensures { LesserAreFirst n numbers.now result }
{
    numbers.partition_point(|m| u64::from(*m) < n)
}

/// The least of the ascending numbers from n on; None where all are less.
fn first_from(numbers: &[u32], n: u64) -> Option<u64>
    requires { IsTrue (is_set (Some numbers.now)) }
    ensures { result ≡ find (nat_le n) numbers.now }
{
    match numbers.get(count_below(numbers, n)) {
        Some(m) => Some(u64::from(*m)),
        None => None,
    }
}

/// The least number from n on that the set picks.
#[tactic(auto, using(crate::proofs::Numbers::next_all))]
pub(crate) fn next_picked(set: &Option<List<u32>>, n: u64) -> Option<u64>
    requires { IsTrue (is_set (option_map (λ l. l.items) set.now)) }
    ensures some { IfSome result (λ k. IsNextPicked (option_map (λ l. l.items) set.now) n k) }
    ensures none { IfNone result (PicksNoneFrom (option_map (λ l. l.items) set.now) n) }
{
    match set {
        None => Some(n),
        Some(numbers) => first_from(numbers.as_slice(), n),
    }
}

/// How many of the numbers are at most n; they stand first.
fn count_upto(numbers: &[u32], n: u64) -> usize
    requires { IsTrue (is_set (Some numbers.now)) }
    ensures { LesserAreFirst (n + 1) numbers.now result }
{
    numbers.partition_point(|m| u64::from(*m) <= n)
}

/// The last of the numbers before the first that is greater than n.
fn last_upto(numbers: &[u32], n: u64) -> Option<u64>
    requires { IsTrue (is_set (Some numbers.now)) }
    ensures { result ≡ last_low n None numbers.now }
{
    let past = count_upto(numbers, n);
    if past == 0 {
        return None;
    }
    match numbers.get(past - 1) {
        Some(m) => Some(u64::from(*m)),
        None => None,
    }
}

/// The greatest number up to n, of those from 1 on, that the set picks.
#[tactic(auto, using(crate::proofs::Numbers::last_all))]
pub(crate) fn last_picked(set: &Option<List<u32>>, n: u64) -> Option<u64>
    requires sets { IsTrue (is_set (option_map (λ l. l.items) set.now)) }
    requires low { 1 ≤ n }
    ensures some { IfSome result (λ k. IsLastPicked (option_map (λ l. l.items) set.now) n k) }
    ensures none { IfNone result (PicksNoneTo (option_map (λ l. l.items) set.now) n) }
{
    match set {
        None => Some(n),
        Some(numbers) => last_upto(numbers.as_slice(), n),
    }
}
