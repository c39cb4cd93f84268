//! Runs of the polling server, and what is told of each.
use crate::fakes::Scene;
use crate::polls::{Cable, Poll, play};
use crate::tests::{SCENE, TEN};
use gt_base::{List, Memory};
use gt_io::MemEvent;
use std::alloc::Global;
use std::io::Write;
use std::sync::Wait;
use std::test::Fail;

/// A link without a hitch that sends nothing.
const SMOOTH: Cable<'static> = Cable {
    sends: b"",
    marks: &[],
    ends: false,
    bad_read: 0,
    late_read: 0,
    bad_write: 0,
    late_write: 0,
};

const FIRST: Cable<'static> = Cable {
    sends: b"as u\nnow\n",
    marks: &[6, 9],
    ends: true,
    ..SMOOTH
};

const SECOND: Cable<'static> = Cable {
    sends: b"as u\nopen\n",
    marks: &[10],
    ends: true,
    ..SMOOTH
};

/// Two links, of which the first one is ready once more than it has pieces.
const TWO: Poll<'static> = Poll {
    scene: Scene {
        words: &["poll", "P"],
        ..SCENE
    },
    cables: &[FIRST, SECOND],
    events: &[
        MemEvent::Open,
        MemEvent::Ready(1),
        MemEvent::Open,
        MemEvent::Ready(2),
        MemEvent::Ready(1),
        MemEvent::Ready(1),
        MemEvent::Ready(1),
        MemEvent::Ready(2),
    ],
    bad_next: 0,
    now: TEN + 5,
};

/// A run by its name, and what is told of it.
#[derive(Clone, Copy)]
struct PollRow<'a> {
    name: &'a str,
    poll: Poll<'a>,
    told: &'a [u8],
}

const TOLD: &[u8] = b"ok
now 2026-01-05T10:05
| ended
ok
session 1
| ended
born 2026-01-05T10:00
tick 0.2 to 2026-01-05T10:05 bound 2026-01-05T10:05
ask 0.2 u open = session 1
ask 0.1 u now = now 2026-01-05T10:05
status 0
";

const SIDE_BY_SIDE: PollRow<'static> = PollRow {
    name: "two links side by side",
    poll: Poll {
        events: &[
            MemEvent::Open,
            MemEvent::Ready(1),
            MemEvent::Open,
            MemEvent::Ready(2),
            MemEvent::Ready(1),
            MemEvent::Ready(1),
            MemEvent::Ready(2),
        ],
        ..TWO
    },
    told: TOLD,
};

const FAILED_NEXT: PollRow<'static> = PollRow {
    name: "a failed next ends the run",
    poll: Poll { bad_next: 1, ..TWO },
    told: b"born 2026-01-05T10:00\nstatus 10\n",
};

const LATE_FIRST_WRITE: PollRow<'static> = PollRow {
    name: "a first reply that finds no room holds back the next line",
    poll: Poll {
        cables: &[
            Cable {
                late_write: 1,
                ..FIRST
            },
            SECOND,
        ],
        ..TWO
    },
    told: TOLD,
};

const LATE_WRITE: PollRow<'static> = PollRow {
    name: "a reply that finds no room holds back the next line",
    poll: Poll {
        cables: &[
            Cable {
                late_write: 2,
                ..FIRST
            },
            SECOND,
        ],
        ..TWO
    },
    told: TOLD,
};

const LATE_FIRST_READ: PollRow<'static> = PollRow {
    name: "a first read that finds nothing changes nothing",
    poll: Poll {
        cables: &[
            Cable {
                late_read: 1,
                ..FIRST
            },
            SECOND,
        ],
        ..TWO
    },
    told: TOLD,
};

const LATE_READ: PollRow<'static> = PollRow {
    name: "a read that finds nothing changes nothing",
    poll: Poll {
        cables: &[
            Cable {
                late_read: 3,
                ..FIRST
            },
            SECOND,
        ],
        ..TWO
    },
    told: TOLD,
};

const BAD_FIRST_READ: PollRow<'static> = PollRow {
    name: "a first read that fails ends its link alone",
    poll: Poll {
        cables: &[
            Cable {
                bad_read: 1,
                ..FIRST
            },
            SECOND,
        ],
        ..TWO
    },
    told: b"| read fault
ok
session 1
| ended
born 2026-01-05T10:00
tick 0.2 to 2026-01-05T10:05 bound 2026-01-05T10:05
ask 0.2 u open = session 1
status 0
",
};

const BAD_READ: PollRow<'static> = PollRow {
    name: "a read that fails ends its link alone",
    poll: Poll {
        cables: &[
            Cable {
                bad_read: 3,
                ..FIRST
            },
            SECOND,
        ],
        ..TWO
    },
    told: b"ok
| read fault
ok
session 1
| ended
born 2026-01-05T10:00
tick 0.2 to 2026-01-05T10:05 bound 2026-01-05T10:05
ask 0.2 u open = session 1
status 0
",
};

const BAD_FIRST_WRITE: PollRow<'static> = PollRow {
    name: "a first write that fails ends its link alone",
    poll: Poll {
        cables: &[
            Cable {
                bad_write: 1,
                ..FIRST
            },
            SECOND,
        ],
        ..TWO
    },
    told: b"| write fault
ok
session 1
| ended
born 2026-01-05T10:00
tick 0.2 to 2026-01-05T10:05 bound 2026-01-05T10:05
ask 0.2 u open = session 1
status 0
",
};

const BAD_WRITE: PollRow<'static> = PollRow {
    name: "a write that fails ends its link alone",
    poll: Poll {
        cables: &[
            Cable {
                bad_write: 2,
                ..FIRST
            },
            SECOND,
        ],
        ..TWO
    },
    told: b"ok
| write fault
ok
session 1
| ended
born 2026-01-05T10:00
tick 0.2 to 2026-01-05T10:05 bound 2026-01-05T10:05
ask 0.2 u open = session 1
ask 0.1 u now = now 2026-01-05T10:05
status 0
",
};

const ROWS: [&PollRow<'static>; 10] = [
    &SIDE_BY_SIDE,
    &FAILED_NEXT,
    &LATE_FIRST_WRITE,
    &LATE_WRITE,
    &LATE_FIRST_READ,
    &LATE_READ,
    &BAD_FIRST_READ,
    &BAD_READ,
    &BAD_FIRST_WRITE,
    &BAD_WRITE,
];

#[test]
fn polls_are_told(rt: HostRuntime) -> Result<(), Fail> {
    for row in &ROWS {
        let text = play(&rt, rt.alloc(), &row.poll)?;
        assert!(rt; text.as_slice() == row.told, "{}", row.name);
    }
    Ok(())
}

const THREE: Poll<'static> = Poll {
    cables: &[
        SECOND,
        Cable {
            sends: b"now\n",
            marks: &[4],
            ..SECOND
        },
        SECOND,
    ],
    events: &[
        MemEvent::Open,
        MemEvent::Ready(1),
        MemEvent::Ready(1),
        MemEvent::Open,
        MemEvent::Ready(2),
        MemEvent::Ready(2),
        MemEvent::Open,
        MemEvent::Ready(3),
        MemEvent::Ready(3),
    ],
    ..TWO
};

const AS_NOBODY: &[u8] = b"ok
session 1
| ended
refused no-user
| ended
ok
session 2
| ended
born 2026-01-05T10:00
tick 0.1 to 2026-01-05T10:05 bound 2026-01-05T10:05
ask 0.1 u open = session 1
ask 0.2 - now = refused no-user
ask 0.3 u open = session 2
status 0
";

/// Plays three links, each over before the next one comes. bench/fail_alloc_poll.py refuses the
/// allocations of this test one at a time, and reads what it writes.
#[test]
fn each_link_begins_as_nobody(rt: HostRuntime) -> Result<(), Fail> {
    let text = play(&rt, rt.alloc(), &THREE)?;
    rt.stdout().write_all(text.as_slice())?;
    assert!(rt; text.as_slice() == AS_NOBODY);
    Ok(())
}

/// Plays so many links that are opened and never end.
fn opened<R: Wait>(rt: &R, alloc: Global, links: usize) -> Result<List<u8>, Memory> {
    let cables = Vec::from_elem(alloc, SMOOTH, links)?;
    let events = Vec::from_elem(alloc, MemEvent::Open, links)?;
    let poll = Poll {
        cables: &cables,
        events: &events,
        ..TWO
    };
    play(rt, alloc, &poll)
}

const ONE_IS_FULL: &[u8] = b"| stopped\n| stopped\n| full\nborn 2026-01-05T10:00\nstatus 0\n";

#[test]
fn one_link_more_than_may_be_open(rt: HostRuntime) -> Result<(), Fail> {
    let text = opened(&rt, rt.alloc(), 1_025)?;
    assert!(rt; text.as_slice() == ONE_IS_FULL);
    Ok(())
}

const ENOUGH: &[u8] = b"| stopped\n| stopped\n| full\nborn 2026-01-05T10:00\nstatus 11\n";

#[test]
fn a_hundred_thousand_links_end_the_run(rt: HostRuntime) -> Result<(), Fail> {
    let text = opened(&rt, rt.alloc(), 100_000)?;
    assert!(rt; text.as_slice() == ENOUGH);
    Ok(())
}
