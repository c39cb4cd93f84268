//! Sources, sinks, files, links, doors and clocks in memory, and the framer. What a test needs is
//! made in one function and tried in another, so that few exits drop it.
ghost use Rattle.std.specs.Prelude.{◌≡◌, false, IfOk};
ghost use Rattle.gt_io.specs.Links.{IsFresh};

use crate::ages::at;
use gt_base::{List, Memory};
use gt_io::{
    Clock, Door, Failed, Framed, Framer, Gate, Link, MemClock, MemDoor, MemFile, MemLink, MemShelf,
    MemSink, MemSource, OpenGate, ReadFault, find_all, read_all, send_all, write_all,
};
use std::alloc::Global;
use std::collections::VecDeque;
use std::test::Fail;

/// The number of the one call that is to fail, 0 where none is to.
fn call(alloc: Global, failing: u64) -> Result<List<u64>, Memory> {
    Ok(vec![in alloc; failing]?.into())
}

/// Whether this was read.
fn is_read(read: Result<Vec<u8>, ReadFault>, wanted: &[u8]) -> bool {
    match read {
        Ok(bytes) => bytes.as_slice() == wanted,
        Err(_) => false,
    }
}

/// Five bytes, two a call, of which one may fail.
fn source(alloc: Global, failing: u64) -> Result<MemSource, Memory> {
    let failing = call(alloc, failing)?;
    Ok(MemSource::new(b"hello".to_vec(alloc)?.into(), 2, failing))
}

#[test]
fn a_source_is_read_in_pieces(rt: HostRuntime) -> Result<(), Fail> {
    let mut source = source(rt.alloc(), 0)?;
    assert!(rt; is_read(read_all(rt.alloc(), &mut source, 5), b"hello"));
    Ok(())
}

#[test]
fn a_failing_call_is_told(rt: HostRuntime) -> Result<(), Fail> {
    let mut source = source(rt.alloc(), 3)?;
    assert!(rt; matches!(read_all(rt.alloc(), &mut source, 5), Err(ReadFault::Failed)));
    Ok(())
}

#[test]
fn a_limit_is_told(rt: HostRuntime) -> Result<(), Fail> {
    let mut source = source(rt.alloc(), 0)?;
    assert!(rt;
        matches!(
            read_all(rt.alloc(), &mut source, 4),
            Err(ReadFault::TooLong)
        )
    );
    Ok(())
}

/// Whether a write of five bytes, two a call, fails with this front of them written.
fn stops_behind(alloc: Global, room: usize, failing: u64, front: &[u8]) -> Result<bool, Memory> {
    let mut sink = MemSink::new(alloc, room, 2, call(alloc, failing)?)?;
    Ok(write_all(&mut sink, b"hello").is_err() && sink.written().as_slice() == front)
}

/// Where a call fails, or no room is left, the bytes before stand.
#[test]
fn a_front_is_written_up_to_the_failure(rt: HostRuntime) -> Result<(), Fail> {
    assert!(rt; stops_behind(rt.alloc(), 9, 3, b"hell")?);
    assert!(rt; stops_behind(rt.alloc(), 3, 0, b"hel")?);
    Ok(())
}

/// A shelf with one text.
fn shelf(alloc: Global) -> Result<MemShelf, Memory> {
    let file = MemFile {
        name: b"note".to_vec(alloc)?.into(),
        bytes: b"text".to_vec(alloc)?.into(),
    };
    Ok(MemShelf::new(vec![in alloc; file]?.into(), 3, List::new(alloc)))
}

/// Another name is not found.
#[test]
fn a_text_is_found_by_its_name(rt: HostRuntime) -> Result<(), Fail> {
    let mut shelf = shelf(rt.alloc())?;
    assert!(rt; find_all(rt.alloc(), &mut shelf, "other", 9).is_err());
    assert!(rt; is_read(find_all(rt.alloc(), &mut shelf, "note", 9), b"text"));
    Ok(())
}

/// A link that gives five bytes, three a call, and takes two a call; its second read and its third
/// write fail.
fn link(alloc: Global) -> Result<MemLink, Memory>
    ensures { IfOk result (λ link. IsFresh (⟦<MemLink as Link>⟧.traffic link)) }
{
    let bad_reads = call(alloc, 2)?;
    let bad_writes = call(alloc, 3)?;
    MemLink::new(
        alloc,
        b"hello".to_vec(alloc)?.into(),
        9,
        3,
        2,
        bad_reads,
        bad_writes,
    )
}

/// Whether it is read in pieces, up to its end.
fn gives(link: &mut MemLink) -> bool {
    let mut buf = [0u8; 8];
    link.read(&mut buf) == Ok(3)
        && link.read(&mut buf).is_err()
        && link.read(&mut buf) == Ok(2)
        && &buf[..2] == b"lo".as_slice()
        && link.read(&mut buf) == Ok(0)
}

/// Whether it takes two bytes, and of three those before the write that fails.
fn takes(link: &mut MemLink) -> bool
    requires { (⟦<MemLink as Link>⟧.traffic link.old).finished ≡ false }
{
    send_all(link, b"ok").is_ok()
        && send_all(link, b"yes").is_err()
        && link.given().as_slice() == b"okye".as_slice()
}

#[test]
fn a_link_is_read_in_pieces(rt: HostRuntime) -> Result<(), Fail> {
    let mut link = link(rt.alloc())?;
    assert!(rt; gives(&mut link));
    Ok(())
}

#[test]
fn a_link_is_written_in_pieces(rt: HostRuntime) -> Result<(), Fail> {
    let mut link = link(rt.alloc())?;
    assert!(rt; takes(&mut link));
    assert!(rt; !link.finished());
    link.finish();
    assert!(rt; link.finished());
    Ok(())
}

/// A door with one link, whose second call fails.
fn door(alloc: Global) -> Result<MemDoor, Memory> {
    let failing = call(alloc, 2)?;
    let mut links = VecDeque::new(alloc);
    links.push_back(link(alloc)?)?;
    Ok(MemDoor::new(links, failing))
}

/// Whether it gives one link, fails at its second call, and then gives none.
fn gives_one(door: &mut MemDoor) -> bool {
    matches!(door.next(), Ok(Some(_)))
        && matches!(door.next(), Err(Failed))
        && matches!(door.next(), Ok(None))
}

#[test]
fn a_door_gives_its_links_in_order(rt: HostRuntime) -> Result<(), Fail> {
    let mut door = door(rt.alloc())?;
    assert!(rt; gives_one(&mut door) && !door.closed());
    door.close();
    assert!(rt; door.closed());
    Ok(())
}

/// A clock that reads five, and then four.
fn clock(alloc: Global) -> Result<MemClock, Memory> {
    let readings = [at(5)?, at(4)?];
    Ok(MemClock::new(Vec::from_slice(alloc, &readings)?.into()))
}

/// Two readings, the later one earlier, and the last again.
#[test]
fn a_clock_repeats_its_last_reading(rt: HostRuntime) -> Result<(), Fail> {
    let mut clock = clock(rt.alloc())?;
    for minute in [5, 4, 4] {
        assert!(rt; clock.now().minute() == minute);
    }
    OpenGate.pass(0, 1);
    Ok(())
}

/// What a framer makes of a line feed behind so many bytes, none where the line ends before it.
fn framed(framer: &mut Framer, bytes: u32) -> Option<Framed> {
    for _ in 0..bytes {
        if framer.push(b'a') != Framed::More {
            return None;
        }
    }
    Some(framer.push(b'\n'))
}

/// A line of 512 bytes is whole, one of 513 too long, and the next one is whole again.
#[test]
fn a_framer_tells_lines_apart(rt: HostRuntime) {
    let mut framer = Framer::new();
    assert!(rt; framed(&mut framer, 512) == Some(Framed::Whole));
    assert!(rt; framer.line().len() == 512);
    assert!(rt; framed(&mut framer, 513) == Some(Framed::Long));
    assert!(rt; framed(&mut framer, 1) == Some(Framed::Whole));
    assert!(rt; framer.line() == b"a".as_slice());
}
