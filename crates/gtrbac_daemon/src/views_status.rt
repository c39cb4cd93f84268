//! The status of a crew and of viewers.
ghost use Rattle.std.specs.Prelude.{◌≡◌, ◌||◌, true, false, is_some};
ghost use Rattle.std.specs.List.{list_any};
ghost use Rattle.snapshot_readers.specs.Crew.{all_lens};
ghost use Rattle.snapshot_readers.specs.Seats.{watchers};
ghost use Rattle.gtrbac_daemon.specs.Crew.{is_memory, is_door_fault, is_spent};
ghost use Rattle.gtrbac_daemon.specs.Views.{as_work, first_above, numbers_of, views_status_by};

use crate::statuses::{some_failed, some_out_of_memory, some_spent};
use gt_io::{Clock, Door, Gate};
use line_server::Worker;
use snapshot_readers::{Viewed, Viewer, ViewerEnd};

/// Whether a viewer ended for want of memory: status 8.
fn some_viewer_out_of_memory<D: Door, G: Gate>(viewers: &[Viewer<D, G>]) -> bool
    ensures { result ≡ list_any (λ v. is_memory (as_work v.outcome)) viewers.now }
{
    viewers.iter().any(
        |v: &Viewer<D, G>| -> bool
            ensures { result ≡ is_memory (as_work v.now.outcome) }
        { matches!(v.outcome, ViewerEnd::Memory) },
    )
}

/// Whether a viewer's port failed: status 10.
fn some_viewer_failed<D: Door, G: Gate>(viewers: &[Viewer<D, G>]) -> bool
    ensures { result ≡ list_any (λ v. is_door_fault (as_work v.outcome)) viewers.now }
{
    viewers.iter().any(
        |v: &Viewer<D, G>| -> bool
            ensures { result ≡ is_door_fault (as_work v.now.outcome) }
        { matches!(v.outcome, ViewerEnd::DoorFault) },
    )
}

/// Whether a viewer served as many connections as it may: status 11.
fn some_viewer_spent<D: Door, G: Gate>(viewers: &[Viewer<D, G>]) -> bool
    ensures { result ≡ list_any (λ v. is_spent (as_work v.outcome)) viewers.now }
{
    viewers.iter().any(
        |v: &Viewer<D, G>| -> bool
            ensures { result ≡ is_spent (as_work v.now.outcome) }
        { matches!(v.outcome, ViewerEnd::Enough) },
    )
}

/// The status of a crew and viewers: 8 where one lacked memory, else 10 where a door failed, else
/// 11 where one is spent, else 14 where a number is above the length of the history, else 0.
fn status_of_all<D: Door, C: Clock, G: Gate>(
    crew: &[Worker<D, C, G>],
    viewers: &[Viewer<D, G>],
    late: Option<u64>,
) -> u8
    ensures { result ≡ views_status_by
        (list_any (λ w. is_memory w.outcome) crew.now
        || list_any (λ v. is_memory (as_work v.outcome)) viewers.now)
        (list_any (λ w. is_door_fault w.outcome) crew.now
        || list_any (λ v. is_door_fault (as_work v.outcome)) viewers.now)
        (list_any (λ w. is_spent w.outcome) crew.now
        || list_any (λ v. is_spent (as_work v.outcome)) viewers.now)
        (is_some late) }
{
    if some_out_of_memory(crew) || some_viewer_out_of_memory(viewers) {
        8
    } else if some_failed(crew) || some_viewer_failed(viewers) {
        10
    } else if some_spent(crew) || some_viewer_spent(viewers) {
        11
    } else if late.is_some() {
        14
    } else {
        0
    }
}

/// The status that is due: 8 where a viewer's glass was not told the history, else that of crew and
/// viewers.
pub(crate) fn due_of_all<D: Door, C: Clock, G: Gate>(
    crew: &[Worker<D, C, G>],
    viewers: &[Viewer<D, G>],
    told: bool,
    late: Option<u64>,
) -> u8
    ensures told { told ≡ true → result ≡ views_status_by
        (list_any (λ w. is_memory w.outcome) crew.now
        || list_any (λ v. is_memory (as_work v.outcome)) viewers.now)
        (list_any (λ w. is_door_fault w.outcome) crew.now
        || list_any (λ v. is_door_fault (as_work v.outcome)) viewers.now)
        (list_any (λ w. is_spent w.outcome) crew.now
        || list_any (λ v. is_spent (as_work v.outcome)) viewers.now)
        (is_some late) }
    ensures untold { told ≡ false → result ≡ 8 }
{
    if told {
        status_of_all(crew, viewers, late)
    } else {
        8
    }
}

/// The first number that is above a length.
fn first_of(len: u64, numbers: &[u64]) -> Option<u64>
    ensures { result ≡ first_above len numbers.now }
{
    for n in numbers {
        if len < *n {
            return Some(*n);
        }
    }
    None
}

/// The first number of the links that is above a length.
fn first_of_links<L>(len: u64, served: &[Viewed<L>]) -> Option<u64>
    ensures { result ≡ first_above len (all_lens served.now) }
{
    for link in served {
        if let Some(n) = first_of(len, link.lens.as_slice()) {
            return Some(n);
        }
    }
    None
}

/// The first number, by viewer, link and line, that is above a length.
pub(crate) fn first_of_viewers<D: Door, G: Gate>(len: u64, viewers: &[Viewer<D, G>]) -> Option<u64>
    ensures { result ≡ first_above len (numbers_of (watchers D.doorway viewers.now)) }
{
    for viewer in viewers {
        if let Some(n) = first_of_links(len, viewer.served.as_slice()) {
            return Some(n);
        }
    }
    None
}
