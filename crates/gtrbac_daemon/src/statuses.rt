//! The status of a crew.
ghost use Rattle.std.specs.Prelude.{◌≡◌};
ghost use Rattle.std.specs.List.{list_any};
ghost use Rattle.gtrbac_daemon.specs.Crew.{is_memory, is_door_fault, is_spent, status_by};

use gt_io::{Clock, Door, Gate};
use line_server::{WorkEnd, Worker};

/// Whether a worker ended for want of memory: status 8.
pub(crate) fn some_out_of_memory<D: Door, C: Clock, G: Gate>(crew: &[Worker<D, C, G>]) -> bool
    ensures { result ≡ list_any (λ w. is_memory w.outcome) crew.now }
{
    crew.iter().any(
        |w: &Worker<D, C, G>| -> bool
            ensures { result ≡ is_memory w.now.outcome }
        { matches!(w.outcome, WorkEnd::Memory) },
    )
}

/// Whether a worker's port failed: status 10.
pub(crate) fn some_failed<D: Door, C: Clock, G: Gate>(crew: &[Worker<D, C, G>]) -> bool
    ensures { result ≡ list_any (λ w. is_door_fault w.outcome) crew.now }
{
    crew.iter().any(
        |w: &Worker<D, C, G>| -> bool
            ensures { result ≡ is_door_fault w.now.outcome }
        { matches!(w.outcome, WorkEnd::DoorFault) },
    )
}

/// Whether a worker served as many connections as it may, or took its last turn: status 11.
pub(crate) fn some_spent<D: Door, C: Clock, G: Gate>(crew: &[Worker<D, C, G>]) -> bool
    ensures { result ≡ list_any (λ w. is_spent w.outcome) crew.now }
{
    crew.iter().any(
        |w: &Worker<D, C, G>| -> bool
            ensures { result ≡ is_spent w.now.outcome }
        { matches!(w.outcome, WorkEnd::Enough | WorkEnd::Worn { .. }) },
    )
}

/// The status of a crew: 8 where a worker lacked memory, else 10 where a door failed, else 11 where
/// a worker is spent, else 0.
pub(crate) fn crew_status<D: Door, C: Clock, G: Gate>(crew: &[Worker<D, C, G>]) -> u8
    ensures { result ≡ status_by (list_any (λ w. is_memory w.outcome) crew.now)
        (list_any (λ w. is_door_fault w.outcome) crew.now)
        (list_any (λ w. is_spent w.outcome) crew.now) }
{
    if some_out_of_memory(crew) {
        8
    } else if some_failed(crew) {
        10
    } else if some_spent(crew) {
        11
    } else {
        0
    }
}
