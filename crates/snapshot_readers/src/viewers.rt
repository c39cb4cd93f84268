//! The links of a viewer's door, one after the other.
ghost use Rattle.std.specs.Prelude.{◌≡◌, ◌≤◌, [], true};
ghost use Rattle.snapshot_readers.specs.Crew.{ViewsThrough};
ghost use Rattle.snapshot_readers.specs.Viewing.{CanShow, SameGlassRoot};

use crate::ends::{Viewed, ViewerEnd};
use crate::glass::Glass;
use crate::serve::view_link;
use crate::server::ViewServer;
use gt_base::{List, MAX_LINKS};
use gt_io::{Door, Gate, make_room};
use policy_book::Policy;
use std::alloc::Global;

/// A viewer with its door and gate, and what became of its links.
pub struct Viewer<D: Door, G: Gate> {
    pub door: D,
    pub gate: G,
    pub served: List<Viewed<D::L>>,
    pub outcome: ViewerEnd,
}

/// Serves the links of the door until it ends.
fn view_on<D: Door, G: Gate>(
    glass: &mut Glass,
    policy: &Policy,
    server: &ViewServer<'_, G>,
    door: &mut D,
    served: &mut List<Viewed<D::L>>,
) -> ViewerEnd
    requires shows { CanShow policy.now glass.old }
    requires empty { served.old.items ≡ [] }
    ensures glass { SameGlassRoot glass.old glass.new }
    ensures works { ViewsThrough D.L.traffic policy.now glass.old.birth
        (record { seen = glass.old.seen; door = D.doorway door.old })
        (record { seen = glass.new.seen; door = D.doorway door.new }) served.new.items result }
{
    let mut calls = 0;
    while served.len() < MAX_LINKS {
        if make_room(door, served).is_err() {
            return ViewerEnd::Memory;
        }
        match door.next() {
            Err(_) => return ViewerEnd::DoorFault,
            Ok(None) => return ViewerEnd::Done,
            Ok(Some(link)) => served.push(view_link(glass, policy, server, link, &mut calls)),
        }
    }
    ViewerEnd::Enough
}

/// Serves the links of the viewer's door one after the other, until the door has none left or
/// fails, 100,000 were served, or there is no memory for a further link. Then the door is closed.
/// The viewer `v` passes its gate as worker 8 + v.
pub fn view<D: Door, G: Gate>(
    alloc: Global,
    glass: &mut Glass,
    policy: &Policy,
    v: u32,
    viewer: &mut Viewer<D, G>,
)
    requires shows { CanShow policy.now glass.old }
    requires number { v ≤ 7 }
    requires fresh { (viewer.old.outcome ≡ ViewerEnd.Fresh) × (viewer.old.served.items ≡ []) }
    ensures glass { SameGlassRoot glass.old glass.new }
    ensures works { ViewsThrough D.L.traffic policy.now glass.old.birth
        (record { seen = glass.old.seen; door = D.doorway viewer.old.door })
        (record { seen = glass.new.seen; door = D.doorway viewer.new.door })
        viewer.new.served.items viewer.new.outcome }
    ensures closed { (D.doorway viewer.new.door).closed ≡ true }
{
    let server = ViewServer {
        alloc,
        gate: &viewer.gate,
        number: 8 + v,
    };
    viewer.outcome = view_on(glass, policy, &server, &mut viewer.door, &mut viewer.served);
    viewer.door.close();
}
