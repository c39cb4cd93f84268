//! When fluents changed.
use duration_limits::Ages;
use gt_base::{Fluent, Instant, Memory, RoleId};
use std::alloc::AllocError;
use std::test::Fail;

/// The instant of a minute; for a minute beyond the last, a test that fails.
pub(crate) fn at(minute: u32) -> Result<Instant, Memory> {
    match Instant::new(minute) {
        Some(t) => Ok(t),
        None => Err(AllocError),
    }
}

/// That a role is enabled, as a fluent.
fn role(n: u32) -> Fluent {
    Fluent::Enabled(RoleId(n))
}

/// The ages once more, with a change at the fluent, for which room is made first.
fn with(ages: Ages, f: Fluent, t: Instant) -> Result<Ages, Memory> {
    let mut ages = ages;
    ages.reserve(1)?;
    ages.changed(f, t);
    Ok(ages)
}

/// 300 fluents change a minute apart; a copy knows when, and the birth of one that never did.
#[test]
fn ample_memory_gives_room_and_copies(rt: HostRuntime) -> Result<(), Fail> {
    let mut ages = Ages::new(rt.alloc(), at(1_000)?);
    ages.reserve(10_000)?;
    for n in 0..300 {
        ages = with(ages, role(n), at(2_000 + n)?)?;
    }
    let copy = ages.copied()?;
    assert!(rt; copy.since(role(299)) == at(2_299)?);
    assert!(rt; copy.since(role(300)) == at(1_000)?);
    Ok(())
}
