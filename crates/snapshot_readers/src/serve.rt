//! A viewer's link, from its first byte to its end.
ghost use Rattle.std.specs.Prelude.{◌≡◌, ◌+◌, ◌<◌, ◌≤◌, ◌^◌, ℕ, false};
ghost use Rattle.gt_base.specs.declared.limits.TheConstants.{MAX_BYTES};
ghost use Rattle.snapshot_readers.specs.Viewed.{link_end};
ghost use Rattle.snapshot_readers.specs.Viewing.{CanShow, SameGlassRoot, Views};

use crate::ends::{ViewEnd, Viewed};
use crate::glass::Glass;
use crate::guide::Guide;
use crate::server::ViewServer;
use connection_laws::{Hearing, LinkEnd, attend};
use gt_base::List;
use gt_io::{Gate, Link};
use policy_book::Policy;

/// The end of a viewer's link, which has no pass to be worn.
fn view_end(end: LinkEnd) -> ViewEnd
    requires { (n : ℕ) → end ≡ LinkEnd.Worn n → ⊥ }
    ensures { link_end result ≡ end }
{
    match end {
        LinkEnd::Ended => ViewEnd::Ended,
        LinkEnd::ReadFault => ViewEnd::ReadFault,
        LinkEnd::WriteFault => ViewEnd::WriteFault,
        LinkEnd::Spent => ViewEnd::Spent,
        LinkEnd::Worn { .. } => unreachable!(),
    }
}

/// Serves one link of a viewer, line by line: it passes the gate, and answers by a glance what only
/// looks. After the first read or write that fails it makes no further one, nor a read behind the
/// one that told the end. At the end it lets the link go, which is the last call on it. `calls`
/// counts the request lines of the viewer. Want of memory shows in the reply to a line.
pub fn view_link<L: Link, G: Gate>(
    glass: &mut Glass,
    policy: &Policy,
    server: &ViewServer<'_, G>,
    mut link: L,
    calls: &mut u64,
) -> Viewed<L>
    requires shows { CanShow policy.now glass.old }
    requires calls { calls.old < 2 ^ 63 }
    requires open { (L.traffic link).finished ≡ false }
    ensures glass { SameGlassRoot glass.old glass.new }
    ensures views { Views policy.now glass.old.birth glass.old.seen glass.new.seen
        result.lens.items result.denied calls.old calls.new (L.traffic link)
        (L.traffic result.link) result.outcome }
    ensures few { calls.new ≤ calls.old + MAX_BYTES }
{
    let mut hearing = Hearing::new(server.alloc, *calls);
    let mut lens = List::new(server.alloc);
    let end = attend(
        &mut Guide {
            server: &*server,
            policy: &*policy,
            glass,
            lens: &mut lens,
        },
        &mut link,
        &mut hearing,
    );
    *calls = hearing.talk.calls;
    Viewed {
        link,
        lens,
        denied: hearing.talk.denied,
        outcome: view_end(end),
    }
}
