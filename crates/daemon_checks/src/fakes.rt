//! What surrounds a run, and links, doors and clocks, all in memory.
ghost use Rattle.std.specs.Prelude.{All, IfOk};
ghost use Rattle.gt_io.specs.Links.{IsFresh};

use gt_base::{Instant, List, Memory};
use gt_io::{Link, MemClock, MemDoor, MemFile, MemLink, MemShelf, MemSink};
use std::alloc::{AllocError, Global};
use std::collections::VecDeque;

/// How much is written to a link at most.
const ROOM: usize = 400;

/// What a link sends, the most that one read gives and one write takes, and the number of the read
/// and of the write that fails, 0 where none is to.
#[derive(Clone, Copy)]
pub(crate) struct Wire<'a> {
    pub sends: &'a [u8],
    pub read_piece: usize,
    pub write_piece: usize,
    pub bad_read: u64,
    pub bad_write: u64,
}

/// The links of a worker or a viewer, the minutes that a worker's clock reads, and the number of
/// the call of the door that fails, 0 where none is to.
#[derive(Clone, Copy)]
pub(crate) struct Man<'a> {
    pub wires: &'a [Wire<'a>],
    pub readings: &'a [u32],
    pub bad_call: u64,
}

/// The words after the program's name; the text of the policy P and the number of the call of the
/// shelf that fails; the minute of the birth; and the room of the output and the number of the
/// write that fails. 0 is the number of no call.
#[derive(Clone, Copy)]
pub(crate) struct Scene<'a> {
    pub words: &'a [&'a str],
    pub policy: &'a [u8],
    pub bad_find: u64,
    pub birth: u32,
    pub room: usize,
    pub bad_write: u64,
}

/// What surrounds a run.
pub(crate) struct Surroundings {
    pub words: Vec<String>,
    pub shelf: MemShelf,
    pub birth: MemClock,
    pub out: MemSink,
}

impl Drop for Surroundings {
    fn drop(self) {
        let Surroundings {
            words: _,
            shelf: _,
            birth: _,
            out: _,
        } = self;
    }
}

/// The number of the one call that is to fail.
pub(crate) fn call(alloc: Global, failing: u64) -> Result<List<u64>, Memory> {
    Ok(vec![in alloc; failing]?.into())
}

/// A link of which nothing was read and to which nothing was written, and that was not let go.
fn link(alloc: Global, wire: &Wire<'_>) -> Result<MemLink, Memory>
    ensures { IfOk result (λ link. IsFresh (⟦<MemLink as Link>⟧.traffic link)) }
{
    MemLink::new(
        alloc,
        wire.sends.to_vec(alloc)?.into(),
        ROOM,
        wire.read_piece.max(1),
        wire.write_piece.max(1),
        call(alloc, wire.bad_read)?,
        call(alloc, wire.bad_write)?,
    )
}

fn links(alloc: Global, wires: &[Wire<'_>]) -> Result<VecDeque<MemLink>, Memory>
    ensures { IfOk result (λ links. All (λ link. IsFresh
        (⟦<MemLink as Link>⟧.traffic link)) links.items) }
{
    let mut links = VecDeque::new(alloc);
    for wire in wires {
        let link = link(alloc, wire)?;
        links.push_back(link)?;
    }
    Ok(links)
}

/// The door of a worker or a viewer.
pub(crate) fn door(alloc: Global, man: &Man<'_>) -> Result<MemDoor, Memory> {
    Ok(MemDoor::new(links(alloc, man.wires)?, call(alloc, man.bad_call)?))
}

/// A clock that reads these minutes; one with no readings, and one past the last instant, count as
/// want of memory.
pub(crate) fn clock(alloc: Global, minutes: &[u32]) -> Result<MemClock, Memory> {
    let mut readings = List::new(alloc);
    for minute in minutes {
        let Some(reading) = Instant::new(*minute) else {
            return Err(AllocError);
        };
        readings.reserve(1)?;
        readings.push(reading);
    }
    if readings.len() == 0 {
        return Err(AllocError);
    }
    Ok(MemClock::new(readings))
}

fn words_of(alloc: Global, words: &[&str]) -> Result<Vec<String>, Memory> {
    let mut found = Vec::new(alloc);
    for word in words {
        let word = String::from_str(alloc, word)?;
        found.push(word)?;
    }
    Ok(found)
}

fn shelf_of(alloc: Global, scene: &Scene<'_>) -> Result<MemShelf, Memory> {
    let file = MemFile {
        name: b"P".to_vec(alloc)?.into(),
        bytes: scene.policy.to_vec(alloc)?.into(),
    };
    let files = vec![in alloc; file]?.into();
    Ok(MemShelf::new(files, 1_000, call(alloc, scene.bad_find)?))
}

/// What surrounds the run of a scene.
pub(crate) fn stage_of(alloc: Global, scene: &Scene<'_>) -> Result<Surroundings, Memory> {
    let words = words_of(alloc, scene.words)?;
    let shelf = shelf_of(alloc, scene)?;
    let birth = clock(alloc, &[scene.birth])?;
    let out = MemSink::new(alloc, scene.room, 1_000, call(alloc, scene.bad_write)?)?;
    Ok(Surroundings {
        words,
        shelf,
        birth,
        out,
    })
}
