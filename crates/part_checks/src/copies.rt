//! Copies that entries are played on, one of which refuses.
ghost use Rattle.std.specs.Prelude.{◌≡◌, ◌≤◌, ◌++◌, [], length};
ghost use mathlib.Core.List.{IsPrefix};

use gt_base::{Entry, Instant, Memory, Step, Who};
use left_right::Absorb;
use published_copies::{Batch, Copies, Replica, Sight};
use std::alloc::{AllocError, Global};
use std::collections::LinkedList;
use std::sync::Wait;
use std::test::Fail;

/// A list of batches, which refuses one while `refusals` is positive.
#[derive(Drop)]
struct Fake {
    taken: Vec<Batch>,
    refusals: u32,
}

impl Absorb<Batch> for Fake {
    type State = LinkedList<Entry>;

    ghost use Rattle.std.specs.Prelude.{◌++◌};
    ghost use Rattle.published_copies.specs.Copied.{joined};

    ghost state = { λ f. joined f.taken.items };

    ghost applied = { λ xs es. xs ++ es };

    fn absorb_first(&mut self, batch: &Batch, _other: &Fake) -> Result<(), AllocError> {
        if self.refusals > 0 {
            self.refusals -= 1;
            return Err(AllocError);
        }
        self.taken.push(batch.shared()?)?;
        Ok(())
    }
}

impl Replica for Fake {
    type Root = ();

    ghost use Rattle.std.specs.Prelude.{refl};

    ghost root = { λ s. tt };

    ghost list = { λ s. s };

    ghost sound = { λ s. Unit {0} };

    ghost adds = { λ s es. (refl, refl) };
}

/// A list of nothing, which refuses so many times.
fn make_fake(alloc: Global, refusals: u32) -> Fake
    ensures { result.taken.items ≡ [] }
{
    Fake {
        taken: Vec::new(alloc),
        refusals,
    }
}

/// How many entries were taken in.
fn count(fake: &Fake) -> usize {
    let mut n = 0_usize;
    for batch in fake.taken.as_slice() {
        n = n.saturating_add(batch.as_slice().len());
    }
    n
}

/// An entry that is a tick to this minute; None for a minute beyond the last.
fn tick(minute: u32) -> Option<Entry> {
    let at = Instant::new(minute)?;
    let who = Who { worker: 0, conn: 1 };
    Some(Entry {
        who,
        what: Step::Tick { upto: at, to: at },
    })
}

/// How many entries a reader sees.
fn seen(sight: Sight<Fake>) -> (Sight<Fake>, usize) {
    match sight.look() {
        Ok(looking) => {
            let n = count(looking.get());
            (looking.leave(), n)
        }
        Err(sight) => (sight, usize::MAX),
    }
}

/// Whether a call caught up, and how many entries a reader saw after it.
type Said = (bool, usize);

/// Catches up with the entries once.
fn once<R: Wait>(
    rt: &R,
    copies: Copies<Fake>,
    sight: Sight<Fake>,
    entries: &[Entry],
) -> (Copies<Fake>, Sight<Fake>, Said)
    requires { IsPrefix (copies.shown ++ copies.waiting) entries.now }
    ensures { IsPrefix (result.0.shown ++ result.0.waiting) entries.now }
{
    let (copies, done) = copies.catch_up(rt, entries);
    let (sight, n) = seen(sight);
    (copies, sight, (done.is_ok(), n))
}

/// Catches up with the first entry twice, and with all of them twice.
fn four_times<R: Wait>(
    rt: &R,
    alloc: Global,
    first: Fake,
    second: Fake,
    entries: &[Entry],
) -> Result<(Said, Said, Said, Said), Memory>
    requires empty { (first.taken.items ≡ []) × (second.taken.items ≡ []) }
    requires some { 1 ≤ length entries.now }
{
    let (front, _) = entries.split_at(1);
    let mut copies = Copies::new(rt, alloc, first, second, 1)?;
    match copies.reader() {
        Ok(sight) => {
            let (copies, sight, one) = once(rt, copies, sight, front);
            let (copies, sight, two) = once(rt, copies, sight, front);
            let (copies, sight, three) = once(rt, copies, sight, entries);
            let (copies, _sight, four) = once(rt, copies, sight, entries);
            copies.end(rt);
            Ok((one, two, three, four))
        }
        Err(fault) => {
            copies.end(rt);
            Err(fault)
        }
    }
}

/// What is said where the first copy to be brought up refuses so many entries, and the other one so
/// many.
fn played<R: Wait>(
    rt: &R,
    alloc: Global,
    refused: u32,
    refused_by_other: u32,
) -> Result<(Said, Said, Said, Said), Memory> {
    let mut entries = Vec::new(alloc);
    for minute in [5, 7] {
        let Some(entry) = tick(minute) else {
            return Err(AllocError);
        };
        entries.push(entry)?;
    }
    let first = make_fake(alloc, refused);
    let second = make_fake(alloc, refused_by_other);
    if entries.len() < 2 {
        return Err(AllocError);
    }
    four_times(rt, alloc, first, second, entries.as_slice())
}

/// The call that is refused says so; readers see its entry from the next call on.
#[test]
fn a_copy_that_refuses_once_is_brought_up_by_the_next_call(rt: HostRuntime) -> Result<(), Fail> {
    let said = played(&rt, rt.alloc(), 1, 0)?;
    assert!(rt; said == ((false, 0), (true, 1), (true, 2), (true, 2)));
    Ok(())
}

/// Where nothing is new the copy that is behind is not asked.
#[test]
fn a_copy_that_is_behind_may_refuse_too(rt: HostRuntime) -> Result<(), Fail> {
    let said = played(&rt, rt.alloc(), 0, 1)?;
    assert!(rt; said == ((true, 1), (true, 1), (false, 1), (true, 2)));
    Ok(())
}

/// Each call with a further entry is refused, and readers stay at the first one.
#[test]
fn past_a_copy_that_refuses_for_good_readers_see_nothing_new(rt: HostRuntime) -> Result<(), Fail> {
    let said = played(&rt, rt.alloc(), 0, 100)?;
    assert!(rt; said == ((true, 1), (true, 1), (false, 1), (false, 1)));
    Ok(())
}
