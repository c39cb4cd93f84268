//! Runs of a worker or two, and of a viewer beside them.
ghost use Rattle.std.specs.Prelude.{◌≤◌, length, All, IfOk};
ghost use Rattle.snapshot_readers.specs.Seats.{IsNewViewer};
ghost use Rattle.gtrbac_daemon.specs.Crew.{IsNew};

use crate::fakes::{Man, Scene, Surroundings, clock, door, stage_of};
use crate::gates::{GateTurns, Watch};
use crate::telling::tell;
use gt_base::{List, Memory};
use gt_io::MemDoor;
use gtrbac_daemon::{daemon, daemon_views};
use line_server::{WorkEnd, Worker};
use snapshot_readers::{Viewer, ViewerEnd};
use std::alloc::{AllocError, Global};
use std::sync::Wait;
use std::thread::Threads;

/// A run: what surrounds it, one worker, or two, and a viewer, or none.
#[derive(Clone, Copy)]
pub(crate) struct CrewRun<'a> {
    pub scene: Scene<'a>,
    pub zero: Man<'a>,
    pub one: Option<Man<'a>>,
    pub viewer: Option<Man<'a>>,
}

/// A worker that has not begun.
fn worker<'a>(
    alloc: Global,
    door: MemDoor,
    clock: Watch<'a>,
    gate: GateTurns<'a>,
) -> Worker<MemDoor, Watch<'a>, GateTurns<'a>>
    ensures { IsNew result }
{
    Worker {
        door,
        clock,
        gate,
        served: List::new(alloc),
        outcome: WorkEnd::Fresh,
    }
}

/// A viewer that has not begun.
fn viewer<'a>(alloc: Global, door: MemDoor, gate: GateTurns<'a>) -> Viewer<MemDoor, GateTurns<'a>>
    ensures { IsNewViewer result }
{
    Viewer {
        door,
        gate,
        served: List::new(alloc),
        outcome: ViewerEnd::Fresh,
    }
}

/// The door and the clock of the worker of this number.
fn recruit<'a>(
    alloc: Global,
    man: &Man<'_>,
    worker: u32,
    gate: GateTurns<'a>,
) -> Result<(MemDoor, Watch<'a>), Memory> {
    let clock = clock(alloc, man.readings)?;
    let watch = Watch {
        clock,
        gate,
        worker,
        read: 0,
    };
    let door = door(alloc, man)?;
    Ok((door, watch))
}

/// A crew of one worker, or of two.
fn hire<'a>(
    alloc: Global,
    first: (MemDoor, Watch<'a>),
    second: Option<(MemDoor, Watch<'a>)>,
    gate: GateTurns<'a>,
) -> Result<Vec<Worker<MemDoor, Watch<'a>, GateTurns<'a>>>, Memory>
    ensures size { IfOk result (λ crew. (1 ≤ length crew.items) × (length crew.items ≤ 2)) }
    ensures fresh { IfOk result (λ crew. All (λ w. IsNew w) crew.items) }
{
    let mut crew = Vec::with_capacity(alloc, 2)?;
    crew.push_reserved(worker(alloc, first.0, first.1, gate));
    let Some((door, clock)) = second else {
        return Ok(crew);
    };
    crew.push_reserved(worker(alloc, door, clock, gate));
    Ok(crew)
}

/// The crew of a run.
fn crew_of<'a>(
    alloc: Global,
    run: &CrewRun<'_>,
    gate: GateTurns<'a>,
) -> Result<Vec<Worker<MemDoor, Watch<'a>, GateTurns<'a>>>, Memory>
    ensures size { IfOk result (λ crew. (1 ≤ length crew.items) × (length crew.items ≤ 2)) }
    ensures fresh { IfOk result (λ crew. All (λ w. IsNew w) crew.items) }
{
    let first = recruit(alloc, &run.zero, 0, gate)?;
    let second = match &run.one {
        Some(man) => Some(recruit(alloc, man, 1, gate)?),
        None => None,
    };
    hire(alloc, first, second, gate)
}

/// The viewer of a run, if there is one.
fn seat<'a>(
    alloc: Global,
    man: Option<&Man<'_>>,
    gate: GateTurns<'a>,
) -> Result<Vec<Viewer<MemDoor, GateTurns<'a>>>, Memory>
    ensures few { IfOk result (λ viewers. length viewers.items ≤ 1) }
    ensures new { IfOk result (λ viewers. All (λ v. IsNewViewer v) viewers.items) }
{
    let Some(man) = man else {
        return Ok(Vec::new(alloc));
    };
    let door = door(alloc, man)?;
    let mut viewers = Vec::with_capacity(alloc, 1)?;
    viewers.push_reserved(viewer(alloc, door, gate));
    Ok(viewers)
}

/// Lets the workers go.
fn let_go<'a>(mut crew: Vec<Worker<MemDoor, Watch<'a>, GateTurns<'a>>>) {
    while let Some(worker) = crew.pop() {
        let Worker {
            door: _,
            clock: _,
            gate: _,
            served: _,
            outcome: _,
        } = worker;
    }
    crew.destroy_empty();
}

/// Lets the viewers go.
fn dismiss<'a>(mut viewers: Vec<Viewer<MemDoor, GateTurns<'a>>>) {
    while let Some(viewer) = viewers.pop() {
        let Viewer {
            door: _,
            gate: _,
            served: _,
            outcome: _,
        } = viewer;
    }
    viewers.destroy_empty();
}

/// Serves with a crew, and where there are viewers, with them beside it.
fn serve<'a, R: Threads + Wait + Sync>(
    rt: &R,
    alloc: Global,
    stage: &mut Surroundings,
    crew: &mut Vec<Worker<MemDoor, Watch<'a>, GateTurns<'a>>>,
    viewers: &mut Vec<Viewer<MemDoor, GateTurns<'a>>>,
) -> u8
    requires size { (1 ≤ length crew.old.items) × (length crew.old.items ≤ 2) }
    requires fresh { All (λ w. IsNew w) crew.old.items }
    requires few { length viewers.old.items ≤ 1 }
    requires new { All (λ v. IsNewViewer v) viewers.old.items }
{
    if viewers.len() == 0 {
        daemon(
            rt,
            alloc,
            &stage.words,
            &mut stage.shelf,
            &mut stage.birth,
            crew,
            &mut stage.out,
        )
    } else {
        daemon_views(
            rt,
            alloc,
            &stage.words,
            &mut stage.shelf,
            &mut stage.birth,
            crew,
            viewers,
            &mut stage.out,
        )
    }
}

/// Serves, tells what came of it, and lets workers and viewers go.
fn serve_told<'a, R: Threads + Wait + Sync>(
    rt: &R,
    alloc: Global,
    stage: &mut Surroundings,
    mut crew: Vec<Worker<MemDoor, Watch<'a>, GateTurns<'a>>>,
    mut viewers: Vec<Viewer<MemDoor, GateTurns<'a>>>,
) -> Result<List<u8>, Memory>
    requires size { (1 ≤ length crew.items) × (length crew.items ≤ 2) }
    requires fresh { All (λ w. IsNew w) crew.items }
    requires few { length viewers.items ≤ 1 }
    requires new { All (λ v. IsNewViewer v) viewers.items }
{
    let status = serve(rt, alloc, stage, &mut crew, &mut viewers);
    let text = tell(alloc, &crew, &viewers, stage.out.written(), status);
    let_go(crew);
    dismiss(viewers);
    text
}

/// Plays a run, with this gate for workers and viewer.
pub(crate) fn play<'a, R: Threads + Wait + Sync>(
    rt: &R,
    alloc: Global,
    run: &CrewRun<'_>,
    gate: GateTurns<'a>,
) -> Result<List<u8>, Memory> {
    let mut stage = stage_of(alloc, &run.scene)?;
    let crew = crew_of(alloc, run, gate)?;
    let Ok(viewers) = seat(alloc, run.viewer.as_ref(), gate) else {
        let_go(crew);
        return Err(AllocError);
    };
    serve_told(rt, alloc, &mut stage, crew, viewers)
}
