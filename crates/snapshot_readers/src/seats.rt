//! Viewers at their seats, each with a glass, all at the same time.
ghost use Rattle.std.specs.Prelude.{◌≡◌, ◌≤◌, [], length, reverse, vec_len, vec_capacity, All};
ghost use Rattle.std.specs.List.{list_all};
ghost use Rattle.snapshot_readers.specs.Seats.{glasses_of, viewers_of, HasLooked, HasSettled, IsReadySeat, SeatBySeat};

use crate::glass::Glass;
use crate::glasses::Glasses;
use crate::viewers::{Viewer, view};
use gt_base::{Actor, Entry, Request};
use gt_io::{Door, Gate};
use policy_book::Policy;
use std::alloc::Global;
use std::sync::Wait;
use std::thread;
use std::thread::Threads;

/// A viewer with its glass and number, and whether the glass was told the whole history at the end.
pub struct ViewerSeat<D: Door, G: Gate> {
    pub viewer: Viewer<D, G>,
    pub glass: Glass,
    pub number: u32,
    pub told: bool,
}

/// Moves each viewer with a glass to a seat. The last one has the first seat.
pub fn take_seats<D: Door, G: Gate>(
    glasses: &mut Glasses,
    viewers: &mut Vec<Viewer<D, G>>,
    seats: &mut Vec<ViewerSeat<D, G>>,
)
    requires empty { seats.old.items ≡ [] }
    requires pairs { length glasses.old.items ≡ length viewers.old.items }
    requires few { length viewers.old.items ≤ 8 }
    requires room { length viewers.old.items ≤ vec_capacity seats.old }
    ensures glasses_are { reverse (glasses_of seats.new.items) ≡ glasses.old.items }
    ensures viewers_are { reverse (viewers_of seats.new.items) ≡ viewers.old.items }
    ensures numbers { All (λ s. s.number ≤ 7) seats.new.items }
    ensures left { (viewers.new.items ≡ [])
        × (vec_capacity viewers.new ≡ vec_capacity viewers.old) }
{
    while let Some(glass) = glasses.take() {
        let last = viewers.pop();
        let Some(viewer) = last else { unreachable!() };
        let number = viewers.len() as u32;
        seats.push_reserved(ViewerSeat {
            viewer,
            glass,
            number,
            told: false,
        });
    }
}

/// Moves the viewers back, in their order, and lets the glasses go.
pub fn leave_seats<D: Door, G: Gate>(
    viewers: &mut Vec<Viewer<D, G>>,
    mut seats: Vec<ViewerSeat<D, G>>,
)
    requires empty { viewers.old.items ≡ [] }
    requires room { vec_len seats ≤ vec_capacity viewers.old }
    ensures { viewers.new.items ≡ reverse (viewers_of seats.items) }
{
    while let Some(seat) = seats.pop() {
        let ViewerSeat {
            viewer,
            glass: _,
            number: _,
            told: _,
        } = seat;
        viewers.push_reserved(viewer);
    }
    seats.destroy_empty();
}

/// Serves the links of the viewer of one seat.
fn look_at<D: Door, G: Gate>(alloc: Global, policy: &Policy, seat: &mut ViewerSeat<D, G>)
    requires ready { IsReadySeat policy.now seat.old }
    ensures { HasLooked D.doorway D.L.traffic policy.now seat.old seat.new }
{
    view(
        alloc,
        &mut seat.glass,
        policy,
        seat.number,
        &mut seat.viewer,
    );
}

/// Serves the links of all viewers at the same time. What each came to holds of the seat at its
/// place.
pub fn run_seats<R: Threads + Wait + Sync, D: Door + Send, G: Gate + Send>(
    rt: &R,
    alloc: Global,
    policy: &Policy,
    seats: &mut Vec<ViewerSeat<D, G>>,
)
where
    D::L: Send,
    requires ready { All (λ s. IsReadySeat policy.now s) seats.old.items }
    ensures { SeatBySeat (HasLooked D.doorway D.L.traffic policy.now) seats.old.items
        seats.new.items }
{
    let all = seats.as_mut_slice();
    thread::for_each_mut(rt, all, 8, &|_, seat| { look_at(alloc, policy, seat) });
}

/// Looks, by the glass of one seat, whether these entries begin what was published last, and at the
/// history there, as far as there is memory.
fn settle<D: Door, G: Gate>(entries: &[Entry], seat: &mut ViewerSeat<D, G>)
    ensures { HasSettled entries.now seat.old seat.new }
{
    seat.told = false;
    if !seat.glass.told(entries) {
        return;
    }
    if let Ok(_shown) = seat.glass.glance(Actor::Operator, Request::Now) {
        seat.told = true;
    }
}

/// Tells each glass these entries, as far as there is memory.
pub fn settle_all<R: Threads + Wait + Sync, D: Door + Send, G: Gate + Send>(
    rt: &R,
    entries: &[Entry],
    seats: &mut [ViewerSeat<D, G>],
)
where
    D::L: Send,
    ensures { SeatBySeat (HasSettled entries.now) seats.old seats.new }
{
    thread::for_each_mut(rt, seats, 1, &|_, seat| { settle(entries, seat) });
}

/// Whether each glass was told.
pub fn all_told<D: Door, G: Gate>(seats: &[ViewerSeat<D, G>]) -> bool
    ensures { result ≡ list_all (λ s. s.told) seats.now }
{
    seats.iter().all(
        |s: &ViewerSeat<D, G>| -> bool
            ensures { result ≡ s.now.told }
        { s.told },
    )
}
