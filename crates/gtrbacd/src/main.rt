//! The program `gtrbacd`: serves a policy to connections of this machine, and writes the log at the
//! end: by four workers, each at a port of its own, with two viewers beside them or without, or on
//! one thread at one port.
#![tactic(auto)]

ghost use Rattle.std.specs.Prelude.{◌≡◌, ◌+◌, length, map, [], ◌∷◌, All, IfOk, Some};
ghost use Rattle.snapshot_readers.specs.Seats.{IsNewViewer};
ghost use Rattle.gtrbac_daemon.specs.Crew.{IsNew};

use gt_base::List;
use gt_host::{HostClock, HostDoor, HostPorts, HostShelf, Writing};
use gt_io::OpenGate;
use gtrbac_daemon::{Mode, daemon, daemon_poll, daemon_views, mode_of};
use line_server::{WorkEnd, Worker};
use snapshot_readers::{Viewer, ViewerEnd};
use std::alloc::AllocError;
use std::env;
use std::io::ErrorKind;
use std::process::ExitCode;
use std::sync::Wait;
use std::thread::Threads;

/// The port of the polling mode, and of the first worker; the others have those behind it.
const FIRST_PORT: u16 = 7743;

/// The port of the first viewer; the other one has that behind it.
const FIRST_VIEW: u16 = 7753;

/// A worker of this machine.
type Hired<'a> = Worker<HostDoor<'a, HostRuntime>, HostClock<'a, HostRuntime>, OpenGate>;

/// A viewer of this machine.
type Watching<'a> = Viewer<HostDoor<'a, HostRuntime>, OpenGate>;

/// The words after the program's name; none, which are no command, where they are no text.
fn words(rt: &HostRuntime) -> Result<Vec<String>, AllocError> {
    match env::args(rt) {
        Ok(args) => args.skip(1).collect(rt.alloc()),
        Err(fault) if fault.kind() == ErrorKind::OutOfMemory => Err(AllocError),
        Err(_) => Ok(Vec::new(rt.alloc())),
    }
}

/// A worker with a door at the port, the wall clock and an open gate.
fn worker<'a>(rt: &'a HostRuntime, port: u16) -> Hired<'a>
    ensures new { IsNew result }
    ensures port { result.door.port ≡ Some port }
{
    Worker {
        door: HostDoor::new(rt, rt.alloc(), port),
        clock: HostClock::new(rt),
        gate: OpenGate,
        served: List::new(rt.alloc()),
        outcome: WorkEnd::Fresh,
    }
}

/// The workers, at the first port and those behind it.
fn hire<'a>(rt: &'a HostRuntime) -> Result<Vec<Hired<'a>>, AllocError>
    ensures size { IfOk result (λ crew. length crew.items ≡ 4) }
    ensures fresh { IfOk result (λ crew. All (λ w. IsNew w) crew.items) }
    ensures ports { IfOk result (λ crew. map (λ w. w.door.port) crew.items
        ≡ Some FIRST_PORT ∷ Some (FIRST_PORT + 1) ∷ Some (FIRST_PORT + 2)
        ∷ Some (FIRST_PORT + 3) ∷ []) }
{
    let mut crew = Vec::with_capacity(rt.alloc(), 4)?;
    crew.push_reserved(worker(rt, FIRST_PORT));
    crew.push_reserved(worker(rt, FIRST_PORT + 1));
    crew.push_reserved(worker(rt, FIRST_PORT + 2));
    crew.push_reserved(worker(rt, FIRST_PORT + 3));
    Ok(crew)
}

/// Lets the workers go.
fn let_go(mut crew: Vec<Hired<'_>>) {
    while let Some(worker) = crew.pop() {
        let Worker {
            door: _,
            clock: _,
            gate: _,
            served: _,
            outcome: _,
        } = worker;
    }
    crew.destroy_empty();
}

/// A viewer with a door at the port and an open gate.
fn viewer<'a>(rt: &'a HostRuntime, port: u16) -> Watching<'a>
    ensures new { IsNewViewer result }
    ensures port { result.door.port ≡ Some port }
{
    Viewer {
        door: HostDoor::new(rt, rt.alloc(), port),
        gate: OpenGate,
        served: List::new(rt.alloc()),
        outcome: ViewerEnd::Fresh,
    }
}

/// The viewers, at their first port and the one behind it.
fn seat<'a>(rt: &'a HostRuntime) -> Result<Vec<Watching<'a>>, AllocError>
    ensures size { IfOk result (λ viewers. length viewers.items ≡ 2) }
    ensures fresh { IfOk result (λ viewers. All (λ v. IsNewViewer v) viewers.items) }
    ensures ports { IfOk result (λ viewers. map (λ v. v.door.port) viewers.items
        ≡ Some FIRST_VIEW ∷ Some (FIRST_VIEW + 1) ∷ []) }
{
    let mut viewers = Vec::with_capacity(rt.alloc(), 2)?;
    viewers.push_reserved(viewer(rt, FIRST_VIEW));
    viewers.push_reserved(viewer(rt, FIRST_VIEW + 1));
    Ok(viewers)
}

/// Lets the viewers go.
fn dismiss(mut viewers: Vec<Watching<'_>>) {
    while let Some(viewer) = viewers.pop() {
        let Viewer {
            door: _,
            gate: _,
            served: _,
            outcome: _,
        } = viewer;
    }
    viewers.destroy_empty();
}

/// Serves over the words with a crew and viewers, in threads of the handle.
fn serve_views<'a, R: Threads + Wait + Sync>(
    handle: &R,
    rt: &'a HostRuntime,
    words: &[String],
    crew: &mut Vec<Hired<'a>>,
) -> u8
    requires size { length crew.old.items ≡ 4 }
    requires fresh { All (λ w. IsNew w) crew.old.items }
{
    let Ok(mut viewers) = seat(rt) else {
        return 8;
    };
    let mut out = Writing::new(rt.stdout());
    let status = daemon_views(
        handle,
        rt.alloc(),
        words,
        &mut HostShelf::new(rt),
        &mut HostClock::new(rt),
        crew,
        &mut viewers,
        &mut out,
    );
    dismiss(viewers);
    status
}

/// One call of the server in the mode of its words; status 8 where there is no memory to begin.
fn main(rt: HostRuntime) -> ExitCode {
    let Ok(words) = words(&rt) else {
        return ExitCode::from(8);
    };
    let mut shelf = HostShelf::new(&rt);
    let mut birth = HostClock::new(&rt);
    let mut out = Writing::new(rt.stdout());
    let mode = mode_of(&words);
    if mode == Mode::Poll {
        let mut ports = HostPorts::new(&rt, rt.alloc(), FIRST_PORT);
        let mut clock = HostClock::new(&rt);
        let mut ends = List::new(rt.alloc());
        return ExitCode::from(daemon_poll(
            &rt,
            rt.alloc(),
            &words,
            &mut shelf,
            &mut birth,
            &mut ports,
            &mut clock,
            &OpenGate,
            &mut ends,
            &mut out,
        ));
    }
    let Ok(mut crew) = hire(&rt) else {
        return ExitCode::from(8);
    };
    let status = if mode == Mode::Views {
        serve_views(&rt, &rt, &words, &mut crew)
    } else {
        daemon(
            &rt,
            rt.alloc(),
            &words,
            &mut shelf,
            &mut birth,
            &mut crew,
            &mut out,
        )
    };
    let_go(crew);
    ExitCode::from(status)
}
