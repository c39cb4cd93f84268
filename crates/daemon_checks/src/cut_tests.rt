//! Lines of 512 bytes and more in pieces, and each of their reads and writes failing in turn.
use crate::crews::CrewRun;
use crate::fakes::{Man, Wire};
use crate::tests::{MAN, RUN, WIRE, is_told};
use gt_base::Memory;
use std::alloc::Global;
use std::sync::Wait;
use std::test::Fail;
use std::thread::Threads;

const BEGIN: &[u8] = b"as u\nnow";

const SECOND: &[u8] = b"\nnow ";

const END: &[u8] = b"\nnow";

/// The lines `as u`, `now` in 512 bytes and `now` in 513, and `now` without its end.
fn long_lines(alloc: Global) -> Result<Vec<u8>, Memory> {
    let spaces = vec![in alloc; b' '; 509]?;
    let mut text = BEGIN.to_vec(alloc)?;
    text.extend_from_slice(&spaces)?;
    text.extend_from_slice(SECOND)?;
    text.extend_from_slice(&spaces)?;
    text.extend_from_slice(END)?;
    Ok(text)
}

const WHOLE: &[u8] = b"ok
now 2026-01-05T10:00
bad long
| ended, asked 1, denied 0
1 links, done
born 2026-01-05T10:00
ask 0.1 u now = now 2026-01-05T10:00
status 0
";

const REPLIES: &[u8] = b"ok\nnow 2026-01-05T10:00\nbad long\n";

const READ_FAULT: &[u8] = b"| read fault, asked ";

const WRITE_FAULT: &[u8] = b"| write fault, asked ";

const NONE: &[u8] = b"0";

const ONCE: &[u8] = b"1";

const BEHIND: &[u8] = b", denied 0
ok
now 2026-01-05T10:00
| ended, asked 1, denied 0
2 links, done
born 2026-01-05T10:00
";

const NO_ENTRY: &[u8] = b"";

const ENTRY: &[u8] = b"ask 0.1 u now = now 2026-01-05T10:00\n";

const LAST: &[u8] = b"ask 0.2 u now = now 2026-01-05T10:00\nstatus 0\n";

const OTHER: Wire<'static> = Wire {
    sends: b"as u\nnow\n",
    ..WIRE
};

/// The run of one worker with these links.
pub(crate) fn serving<'a>(wires: &'a [Wire<'a>]) -> CrewRun<'a> {
    CrewRun {
        zero: Man { wires, ..MAN },
        ..RUN
    }
}

/// Whether of a link with a fault so many bytes of the replies are given, and the second line is
/// asked or not, and another link is served behind it.
fn is_cut<R: Threads + Wait + Sync>(
    rt: &R,
    alloc: Global,
    bad: Wire<'_>,
    given: usize,
    end: &[u8],
    is_asked: bool,
) -> Result<bool, Memory> {
    let (asked, entry) = if is_asked {
        (ONCE, ENTRY)
    } else {
        (NONE, NO_ENTRY)
    };
    let replies = &REPLIES[..given.min(REPLIES.len())];
    let wires = [bad, OTHER];
    let parts: [&[u8]; 6] = [replies, end, asked, BEHIND, entry, LAST];
    is_told(rt, alloc, &serving(&wires), &parts)
}

#[test]
fn lines_are_told_whatever_the_pieces(rt: HostRuntime) -> Result<(), Fail> {
    let sends = long_lines(rt.alloc())?;
    for piece in [1, 2, 511, 2_000] {
        let wires = [Wire {
            sends: &sends,
            read_piece: piece,
            write_piece: piece,
            ..WIRE
        }];
        assert!(rt;
            is_told(&rt, rt.alloc(), &serving(&wires), &[WHOLE])?,
            "in pieces of {piece}"
        );
    }
    Ok(())
}

#[test]
fn nothing_is_done_after_a_read_that_failed(rt: HostRuntime) -> Result<(), Fail> {
    let sends = long_lines(rt.alloc())?;
    for taken in 0..=sends.len() {
        let bad = Wire {
            sends: &sends,
            read_piece: 1,
            bad_read: taken as u64 + 1,
            ..WIRE
        };
        let given = if taken < 5 {
            0
        } else if taken < 518 {
            3
        } else if taken < 1_032 {
            24
        } else {
            33
        };
        assert!(rt;
            is_cut(&rt, rt.alloc(), bad, given, READ_FAULT, 518 <= taken)?,
            "after {taken} bytes"
        );
    }
    Ok(())
}

#[test]
fn nothing_is_done_after_a_write_that_failed(rt: HostRuntime) -> Result<(), Fail> {
    let sends = long_lines(rt.alloc())?;
    for given in 0..REPLIES.len() {
        let bad = Wire {
            sends: &sends,
            write_piece: 1,
            bad_write: given as u64 + 1,
            ..WIRE
        };
        assert!(rt;
            is_cut(&rt, rt.alloc(), bad, given, WRITE_FAULT, 3 <= given)?,
            "after {given} bytes"
        );
    }
    Ok(())
}
