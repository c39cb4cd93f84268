//! How a run of workers and viewers is told.
use crate::gates::{GateTurns, Watch};
use gt_base::{List, Memory};
use gt_io::{MemDoor, MemLink};
use gt_text::push_number;
use line_server::{LinkEnd, Served, WorkEnd, Worker};
use snapshot_readers::{ViewEnd, Viewed, Viewer, ViewerEnd};
use std::alloc::Global;

const ENDED: &[u8] = b" ended";

const READ_FAULT: &[u8] = b" read fault";

const WRITE_FAULT: &[u8] = b" write fault";

const SPENT: &[u8] = b" spent";

const WORN: &[u8] = b" worn";

fn end_of_link(end: LinkEnd) -> &'static [u8] {
    match end {
        LinkEnd::Ended => ENDED,
        LinkEnd::ReadFault => READ_FAULT,
        LinkEnd::WriteFault => WRITE_FAULT,
        LinkEnd::Spent => SPENT,
        LinkEnd::Worn { .. } => WORN,
    }
}

fn end_of_view(end: ViewEnd) -> &'static [u8] {
    match end {
        ViewEnd::Ended => ENDED,
        ViewEnd::ReadFault => READ_FAULT,
        ViewEnd::WriteFault => WRITE_FAULT,
        ViewEnd::Spent => SPENT,
    }
}

const FRESH: &[u8] = b" fresh\n";

const DONE: &[u8] = b" done\n";

const DOOR_FAULT: &[u8] = b" door fault\n";

const ENOUGH: &[u8] = b" enough\n";

const WORN_OUT: &[u8] = b" worn\n";

const MEMORY: &[u8] = b" memory\n";

fn end_of_worker(end: WorkEnd) -> &'static [u8] {
    match end {
        WorkEnd::Fresh => FRESH,
        WorkEnd::Done => DONE,
        WorkEnd::DoorFault => DOOR_FAULT,
        WorkEnd::Enough => ENOUGH,
        WorkEnd::Worn { .. } => WORN_OUT,
        WorkEnd::Memory => MEMORY,
    }
}

fn end_of_viewer(end: ViewerEnd) -> &'static [u8] {
    match end {
        ViewerEnd::Fresh => FRESH,
        ViewerEnd::Done => DONE,
        ViewerEnd::DoorFault => DOOR_FAULT,
        ViewerEnd::Enough => ENOUGH,
        ViewerEnd::Memory => MEMORY,
    }
}

/// What was given to a link, and behind a bar how it ended and how many lines were asked and
/// denied, and whether it is still held. A link to which nothing was given, that ended and was let
/// go, is passed over.
fn tell_link(text: &mut Vec<u8>, served: &Served<MemLink>) -> Result<(), Memory> {
    let given = served.link.given().as_slice();
    if given.is_empty() && served.report.outcome == LinkEnd::Ended && served.link.finished() {
        return Ok(());
    }
    text.extend_from_slice(given)?;
    text.extend_from_slice(b"|")?;
    text.extend_from_slice(end_of_link(served.report.outcome))?;
    text.extend_from_slice(b", asked ")?;
    push_number(text, served.report.asked)?;
    text.extend_from_slice(b", denied ")?;
    push_number(text, served.report.denied)?;
    if !served.link.finished() {
        text.extend_from_slice(b", held")?;
    }
    text.extend_from_slice(b"\n")
}

/// The links of a worker, how many they are and how it ended.
fn tell_worker(
    text: &mut Vec<u8>,
    worker: &Worker<MemDoor, Watch<'_>, GateTurns<'_>>,
) -> Result<(), Memory> {
    worker.clock.compare();
    for served in worker.served.as_slice() {
        tell_link(text, served)?;
    }
    push_number(text, worker.served.len() as u64)?;
    text.extend_from_slice(b" links,")?;
    text.extend_from_slice(end_of_worker(worker.outcome))
}

/// What a viewer's link was given, and behind a bar the numbers of its replies and how it ended.
fn tell_view(text: &mut Vec<u8>, view: &Viewed<MemLink>) -> Result<(), Memory> {
    text.extend_from_slice(view.link.given().as_slice())?;
    text.extend_from_slice(b"|")?;
    for n in view.lens.as_slice() {
        text.extend_from_slice(b" ")?;
        push_number(text, *n)?;
    }
    text.extend_from_slice(end_of_view(view.outcome))?;
    text.extend_from_slice(b"\n")
}

/// The links of a viewer and how it ended.
fn tell_viewer(text: &mut Vec<u8>, viewer: &Viewer<MemDoor, GateTurns<'_>>) -> Result<(), Memory> {
    for view in viewer.served.as_slice() {
        tell_view(text, view)?;
    }
    text.extend_from_slice(b"viewer")?;
    text.extend_from_slice(end_of_viewer(viewer.outcome))
}

/// What was written, and the status.
pub(crate) fn tell_end(text: &mut Vec<u8>, written: &List<u8>, status: u8) -> Result<(), Memory> {
    text.extend_from_slice(written.as_slice())?;
    text.extend_from_slice(b"status ")?;
    push_number(text, u64::from(status))?;
    text.extend_from_slice(b"\n")
}

/// The workers one after the other, the viewers, what was written, and the status.
pub(crate) fn tell(
    alloc: Global,
    crew: &[Worker<MemDoor, Watch<'_>, GateTurns<'_>>],
    viewers: &[Viewer<MemDoor, GateTurns<'_>>],
    written: &List<u8>,
    status: u8,
) -> Result<List<u8>, Memory> {
    let mut text = Vec::new(alloc);
    for worker in crew {
        tell_worker(&mut text, worker)?;
    }
    for viewer in viewers {
        tell_viewer(&mut text, viewer)?;
    }
    tell_end(&mut text, written, status)?;
    Ok(text.into())
}
