//! Runs of the polling server, and how they are told.
ghost use Rattle.std.specs.Prelude.{◌<◌, ◌^◌, length, All, IfOk};
ghost use Rattle.gt_io.specs.MemoryPorts.{IsUnused};
ghost use Rattle.gt_io.specs.Ports.{IsUncalled};

use crate::fakes::{Scene, call, clock, stage_of};
use crate::telling::tell_end;
use gt_base::{List, Memory};
use gt_io::{Hitches, MemEvent, MemPort, MemPorts, OpenGate, Ports};
use gtrbac_daemon::daemon_poll;
use poll_front::{PollEnd, Polled};
use std::alloc::{AllocError, Global};
use std::sync::Wait;

/// What a link sends; how many of these bytes have come each time that it is ready; whether its
/// peer ends it; and the numbers of the read and of the write that fail, and of those that find
/// nothing yet, 0 where none is to.
#[derive(Clone, Copy)]
pub(crate) struct Cable<'a> {
    pub sends: &'a [u8],
    pub marks: &'a [usize],
    pub ends: bool,
    pub bad_read: u64,
    pub late_read: u64,
    pub bad_write: u64,
    pub late_write: u64,
}

/// What surrounds a run, its links, its events, the number of the call of `next` that fails, 0
/// where none is to, and the minute that the clock reads.
#[derive(Clone, Copy)]
pub(crate) struct Poll<'a> {
    pub scene: Scene<'static>,
    pub cables: &'a [Cable<'a>],
    pub events: &'a [MemEvent],
    pub bad_next: u64,
    pub now: u32,
}

fn port(alloc: Global, cable: &Cable<'_>) -> Result<MemPort, Memory>
    ensures { IfOk result IsUnused }
{
    let hitches = Hitches {
        bad_reads: call(alloc, cable.bad_read)?,
        late_reads: call(alloc, cable.late_read)?,
        bad_writes: call(alloc, cable.bad_write)?,
        late_writes: call(alloc, cable.late_write)?,
    };
    MemPort::new(
        alloc,
        cable.sends.to_vec(alloc)?.into(),
        cable.marks.to_vec(alloc)?.into(),
        cable.ends,
        400,
        100,
        hitches,
    )
}

fn ports(alloc: Global, cables: &[Cable<'_>]) -> Result<Vec<MemPort>, Memory>
    ensures { IfOk result (λ ports. All IsUnused ports.items) }
{
    let mut ports = Vec::new(alloc);
    for cable in cables {
        let port = port(alloc, cable)?;
        ports.push(port)?;
    }
    Ok(ports)
}

fn harbour(alloc: Global, poll: &Poll<'_>) -> Result<MemPorts, Memory>
    ensures { IfOk result (λ ports. IsUncalled (⟦<MemPorts as Ports>⟧.harbour ports)) }
{
    let ports = ports(alloc, poll.cables)?;
    if ports.len() as u64 >= 4_294_967_296 {
        return Err(AllocError);
    }
    Ok(MemPorts::new(
        poll.events.to_vec(alloc)?.into(),
        ports,
        call(alloc, poll.bad_next)?,
    ))
}

const ENDED: &[u8] = b"| ended\n";

const READ_FAULT: &[u8] = b"| read fault\n";

const WRITE_FAULT: &[u8] = b"| write fault\n";

const SPENT: &[u8] = b"| spent\n";

const FULL: &[u8] = b"| full\n";

const STOPPED: &[u8] = b"| stopped\n";

const WORN: &[u8] = b"| worn\n";

fn end_of_link(end: PollEnd) -> &'static [u8] {
    match end {
        PollEnd::Ended => ENDED,
        PollEnd::ReadFault => READ_FAULT,
        PollEnd::WriteFault => WRITE_FAULT,
        PollEnd::Spent => SPENT,
        PollEnd::Full => FULL,
        PollEnd::Stopped => STOPPED,
        PollEnd::Worn { .. } => WORN,
    }
}

/// What was given to each link, and how the first two and the last one ended.
fn tell_links(text: &mut Vec<u8>, ports: &MemPorts, ends: &[Polled]) -> Result<(), Memory> {
    let mut link = 0u32;
    for end in ends {
        link = link.saturating_add(1);
        if let Some(given) = ports.given(link) {
            text.extend_from_slice(given)?;
        }
        if link <= 2 || link as usize == ends.len() {
            text.extend_from_slice(end_of_link(end.outcome))?;
        }
    }
    Ok(())
}

/// What came of the links, the log and the status.
fn tell(
    alloc: Global,
    ports: &MemPorts,
    ends: &[Polled],
    written: &List<u8>,
    status: u8,
) -> Result<List<u8>, Memory> {
    let mut text = Vec::new(alloc);
    tell_links(&mut text, ports, ends)?;
    tell_end(&mut text, written, status)?;
    Ok(text.into())
}

/// Plays a run.
pub(crate) fn play<R: Wait>(rt: &R, alloc: Global, poll: &Poll<'_>) -> Result<List<u8>, Memory> {
    let mut stage = stage_of(alloc, &poll.scene)?;
    let mut now = clock(alloc, &[poll.now])?;
    let mut ports = harbour(alloc, poll)?;
    let mut ends = List::new(alloc);
    let status = daemon_poll(
        rt,
        alloc,
        &stage.words,
        &mut stage.shelf,
        &mut stage.birth,
        &mut ports,
        &mut now,
        &OpenGate,
        &mut ends,
        &mut stage.out,
    );
    tell(alloc, &ports, ends.as_slice(), stage.out.written(), status)
}
