//! Runs with workers, and what is told of each.
use crate::crews::{CrewRun, play};
use crate::fakes::{Man, Scene, Wire};
use crate::gates::{GateTurns, Rule};
use crate::view_tests::{
    A_VIEWER_IS_TOLD_WHAT_TWO_WORKERS_HAVE_DONE, A_VIEWER_SEES_WHAT_A_WORKER_HAS_DONE,
    A_VIEWER_SHOWS_AND_CHANGES_NOTHING, A_VIEWERS_DOOR_THAT_FAILS, FAULTY_WITH_A_VIEWER,
    WRONG_WORD_WITH_A_VIEWER,
};
use gt_base::{List, Memory};
use std::alloc::Global;
use std::io::Write;
use std::sync::Wait;
use std::sync::atomic::{AtomicBool, AtomicU64, Ordering};
use std::test::Fail;
use std::thread::Threads;

/// 2026-01-05T10:00
pub(crate) const TEN: u32 = 13_682_040;

const DAY: u32 = 1_440;

pub(crate) const WIRE: Wire<'static> = Wire {
    sends: b"",
    read_piece: 1_000,
    write_piece: 1_000,
    bad_read: 0,
    bad_write: 0,
};

pub(crate) const MAN: Man<'static> = Man {
    wires: &[],
    readings: &[TEN],
    bad_call: 0,
};

pub(crate) const SCENE: Scene<'static> = Scene {
    words: &["P"],
    policy: b"role a\nuser u\n",
    bad_find: 0,
    birth: TEN,
    room: 2_000,
    bad_write: 0,
};

pub(crate) const RUN: CrewRun<'static> = CrewRun {
    scene: SCENE,
    zero: MAN,
    one: None,
    viewer: None,
};

/// A run by its name, the rules of its gate, and the texts of which one is told, each in parts.
#[derive(Clone, Copy)]
pub(crate) struct CrewRow<'a> {
    pub name: &'a str,
    pub run: CrewRun<'a>,
    pub rules: &'a [Rule],
    pub told: &'a [&'a [&'a [u8]]],
}

pub(crate) const ROW: CrewRow<'static> = CrewRow {
    name: "",
    run: RUN,
    rules: &[],
    told: &[],
};

/// Whether the text is these parts one after the other.
fn is_joined(text: &[u8], parts: &[&[u8]]) -> bool {
    let mut rest = text;
    for part in parts {
        match rest.strip_prefix(*part) {
            Some(more) => rest = more,
            None => return false,
        }
    }
    rest.is_empty()
}

/// Whether the text is one of these.
fn is_one(text: &[u8], told: &[&[&[u8]]]) -> bool {
    for parts in told {
        if is_joined(text, parts) {
            return true;
        }
    }
    false
}

/// Plays a run, and sees whether a line is numbered otherwise, waits too long or does not pass the
/// gate before a clock is read.
fn played<R: Threads + Wait + Sync>(
    rt: &R,
    alloc: Global,
    run: &CrewRun<'_>,
    rules: &[Rule],
    is_wrong: &AtomicBool,
) -> Result<List<u8>, Memory> {
    let zero = AtomicU64::new(0);
    let one = AtomicU64::new(0);
    let two = AtomicU64::new(0);
    let gate = GateTurns {
        rules,
        zero: &zero,
        one: &one,
        two: &two,
        is_wrong,
    };
    play(rt, alloc, run, gate)
}

/// Whether a run is told by these parts one after the other.
pub(crate) fn is_told<R: Threads + Wait + Sync>(
    rt: &R,
    alloc: Global,
    run: &CrewRun<'_>,
    parts: &[&[u8]],
) -> Result<bool, Memory> {
    let is_wrong = AtomicBool::new(false);
    let text = played(rt, alloc, run, &[], &is_wrong)?;
    Ok(is_joined(text.as_slice(), parts) && !is_wrong.load(Ordering::SeqCst))
}

/// Whether the run of a row is told as it is to be.
fn is_row_told<R: Threads + Wait + Sync>(
    rt: &R,
    alloc: Global,
    row: &CrewRow<'_>,
) -> Result<bool, Memory> {
    let is_wrong = AtomicBool::new(false);
    let text = played(rt, alloc, &row.run, row.rules, &is_wrong)?;
    Ok(is_one(text.as_slice(), row.told) && !is_wrong.load(Ordering::SeqCst))
}

/// The name of the first of these rows that is told otherwise, empty where each is told as it is
/// to be.
fn first_wrong<'a, R: Threads + Wait + Sync>(
    rt: &R,
    alloc: Global,
    rows: &[&CrewRow<'a>],
) -> Result<&'a str, Memory> {
    for row in rows {
        if !is_row_told(rt, alloc, row)? {
            return Ok(row.name);
        }
    }
    Ok("")
}

const LINKS: [&CrewRow<'static>; 7] = [
    &LINES_PASS_THE_GATE,
    &A_REPLY_IS_CUT_AT_THE_SIXTH_WRITE,
    &A_LINE_WITHOUT_ITS_END_SAYS_NOTHING,
    &FAULTY_LINES_LEAVE_NO_ENTRY,
    &A_CONNECTION_HAS_NO_MINUTES,
    &A_DOOR_THAT_GAVE_NONE_IS_NOT_ASKED_AGAIN,
    &A_DOOR_THAT_FAILS_AT_ONCE,
];

#[test]
fn links_are_told(rt: HostRuntime) -> Result<(), Fail> {
    let name = first_wrong(&rt, rt.alloc(), &LINKS)?;
    assert!(rt; name.is_empty(), "{name}");
    Ok(())
}

const HISTORIES: [&CrewRow<'static>; 6] = [
    &A_DOOR_THAT_FAILS_ENDS_ITS_WORKER,
    &TIME_STAYS_WHERE_THE_CLOCK_FALLS,
    &TIME_STAYS_WHERE_THE_CLOCK_FALLS_BY_A_DAY,
    &TWO_WORKERS_RUN_BESIDE_EACH_OTHER,
    &A_FULL_HISTORY_TAKES_NO_STEP,
    &EACH_REQUEST_IS_LOGGED,
];

#[test]
fn histories_are_told(rt: HostRuntime) -> Result<(), Fail> {
    let name = first_wrong(&rt, rt.alloc(), &HISTORIES)?;
    assert!(rt; name.is_empty(), "{name}");
    Ok(())
}

const STATUSES: [&CrewRow<'static>; 10] = [
    &NO_WORD,
    &A_FLAG,
    &TWO_WORDS,
    &A_USAGE_THAT_IS_CUT,
    &A_FAULTY_POLICY,
    &A_POLICY_THAT_IS_NOT_SAFE,
    &NO_SUCH_FILE,
    &A_SHELF_THAT_FAILS,
    &A_LOG_THAT_FINDS_NO_ROOM,
    &A_LOG_WHOSE_FIRST_WRITE_FAILS,
];

#[test]
fn statuses_are_told(rt: HostRuntime) -> Result<(), Fail> {
    let name = first_wrong(&rt, rt.alloc(), &STATUSES)?;
    assert!(rt; name.is_empty(), "{name}");
    Ok(())
}

const VIEWED: [&CrewRow<'static>; 6] = [
    &A_VIEWER_SHOWS_AND_CHANGES_NOTHING,
    &A_VIEWER_SEES_WHAT_A_WORKER_HAS_DONE,
    &A_VIEWER_IS_TOLD_WHAT_TWO_WORKERS_HAVE_DONE,
    &A_VIEWERS_DOOR_THAT_FAILS,
    &WRONG_WORD_WITH_A_VIEWER,
    &FAULTY_WITH_A_VIEWER,
];

#[test]
fn viewers_are_told(rt: HostRuntime) -> Result<(), Fail> {
    let name = first_wrong(&rt, rt.alloc(), &VIEWED)?;
    assert!(rt; name.is_empty(), "{name}");
    Ok(())
}

#[test]
fn two_workers_share_a_history(rt: HostRuntime) -> Result<(), Fail> {
    for _ in 0..100 {
        assert!(rt; is_row_told(&rt, rt.alloc(), &SHARED)?);
    }
    Ok(())
}

/// bench/fail_alloc_daemon.py refuses the allocations of this test one at a time, and reads what it
/// writes.
#[test]
fn two_workers_are_told(rt: HostRuntime) -> Result<(), Fail> {
    let is_wrong = AtomicBool::new(false);
    let text = played(&rt, rt.alloc(), &SHARED.run, &[], &is_wrong)?;
    rt.stdout().write_all(text.as_slice())?;
    assert!(rt; is_one(text.as_slice(), SHARED.told));
    Ok(())
}

/// Each reading of the clock is another minute. The gate may wait, and has nothing to wait for.
const LINES_PASS_THE_GATE: CrewRow<'static> = CrewRow {
    name: "each request line passes the gate, and then the clock is read",
    run: CrewRun {
        zero: Man {
            wires: &[
                Wire {
                    sends: b"as u\nnow\n\nfrob\nnow\n",
                    ..WIRE
                },
                Wire {
                    sends: b"as u\nnow\n\nfrob\nnow\n",
                    ..WIRE
                },
            ],
            readings: &[TEN, TEN + 1, TEN + 2, TEN + 3],
            bad_call: 0,
        },
        ..RUN
    },
    rules: &[Rule {
        worker: 0,
        call: 1,
        other: 0,
        calls: 1,
    }],
    told: &[&[
        b"ok
now 2026-01-05T10:00
bad syntax
now 2026-01-05T10:01
| ended, asked 2, denied 0
ok
now 2026-01-05T10:02
bad syntax
now 2026-01-05T10:03
| ended, asked 2, denied 0
2 links, done
born 2026-01-05T10:00
ask 0.1 u now = now 2026-01-05T10:00
tick 0.1 to 2026-01-05T10:01 bound 2026-01-05T10:01
ask 0.1 u now = now 2026-01-05T10:01
tick 0.2 to 2026-01-05T10:02 bound 2026-01-05T10:02
ask 0.2 u now = now 2026-01-05T10:02
tick 0.2 to 2026-01-05T10:03 bound 2026-01-05T10:03
ask 0.2 u now = now 2026-01-05T10:03
status 0
",
    ]],
    ..ROW
};

const A_REPLY_IS_CUT_AT_THE_SIXTH_WRITE: CrewRow<'static> = CrewRow {
    name: "a reply is cut at the sixth write",
    run: CrewRun {
        zero: Man {
            wires: &[
                Wire {
                    sends: b"as u\nopen\n",
                    write_piece: 1,
                    bad_write: 6,
                    ..WIRE
                },
                Wire {
                    sends: b"as u\nopen\n",
                    ..WIRE
                },
            ],
            ..MAN
        },
        ..RUN
    },
    told: &[&[
        b"ok
se| write fault, asked 1, denied 0
ok
session 2
| ended, asked 1, denied 0
2 links, done
born 2026-01-05T10:00
ask 0.1 u open = session 1
ask 0.2 u open = session 2
status 0
",
    ]],
    ..ROW
};

const A_LINE_WITHOUT_ITS_END_SAYS_NOTHING: CrewRow<'static> = CrewRow {
    name: "a line without its end says nothing",
    run: CrewRun {
        zero: Man {
            wires: &[
                WIRE,
                Wire {
                    sends: b"as u\nopen",
                    ..WIRE
                },
            ],
            ..MAN
        },
        ..RUN
    },
    told: &[&[
        b"ok
| ended, asked 0, denied 0
2 links, done
born 2026-01-05T10:00
status 0
",
    ]],
    ..ROW
};

const FAULTY_LINES_LEAVE_NO_ENTRY: CrewRow<'static> = CrewRow {
    name: "faulty lines leave no entry",
    run: CrewRun {
        zero: Man {
            wires: &[Wire {
                sends: b"now\nfrob\nstatus enabled nobody\n\n# silent\n",
                ..WIRE
            }],
            ..MAN
        },
        ..RUN
    },
    told: &[&[
        b"refused no-user
bad syntax
bad name
| ended, asked 1, denied 0
1 links, done
born 2026-01-05T10:00
ask 0.1 - now = refused no-user
status 0
",
    ]],
    ..ROW
};

const A_CONNECTION_HAS_NO_MINUTES: CrewRow<'static> = CrewRow {
    name: "a connection has no minutes, and its dash is nobody",
    run: CrewRun {
        zero: Man {
            wires: &[Wire {
                sends: b"@ 2026-01-05T10:00\nas u\nnow\nas -\nnow\n",
                ..WIRE
            }],
            ..MAN
        },
        ..RUN
    },
    told: &[&[
        b"bad syntax
ok
now 2026-01-05T10:00
ok
refused no-user
| ended, asked 2, denied 0
1 links, done
born 2026-01-05T10:00
ask 0.1 u now = now 2026-01-05T10:00
ask 0.1 - now = refused no-user
status 0
",
    ]],
    ..ROW
};

const A_DOOR_THAT_GAVE_NONE_IS_NOT_ASKED_AGAIN: CrewRow<'static> = CrewRow {
    name: "a door that gave none is not asked again",
    run: CrewRun {
        zero: Man { bad_call: 2, ..MAN },
        ..RUN
    },
    told: &[&[
        b"0 links, done
born 2026-01-05T10:00
status 0
",
    ]],
    ..ROW
};

const TWO_FAULTY: &[Wire<'static>] = &[
    Wire {
        sends: b"frob\n",
        ..WIRE
    },
    Wire {
        sends: b"frob\n",
        ..WIRE
    },
];

const A_DOOR_THAT_FAILS_AT_ONCE: CrewRow<'static> = CrewRow {
    name: "a door that fails at once",
    run: CrewRun {
        zero: Man {
            wires: TWO_FAULTY,
            bad_call: 1,
            ..MAN
        },
        ..RUN
    },
    told: &[&[
        b"0 links, door fault
born 2026-01-05T10:00
status 10
",
    ]],
    ..ROW
};

const A_DOOR_THAT_FAILS_ENDS_ITS_WORKER: CrewRow<'static> = CrewRow {
    name: "a door that fails ends its worker",
    run: CrewRun {
        zero: Man {
            wires: TWO_FAULTY,
            bad_call: 2,
            ..MAN
        },
        ..RUN
    },
    told: &[&[
        b"bad syntax
| ended, asked 0, denied 0
1 links, door fault
born 2026-01-05T10:00
status 10
",
    ]],
    ..ROW
};

const ASKS_TWICE: &[Wire<'static>] = &[Wire {
    sends: b"as u\nnow\nnow\n",
    ..WIRE
}];

const TIME_STAYS_WHERE_THE_CLOCK_FALLS: CrewRow<'static> = CrewRow {
    name: "time stays where the clock falls",
    run: CrewRun {
        zero: Man {
            wires: ASKS_TWICE,
            readings: &[TEN + 5, TEN - 60],
            bad_call: 0,
        },
        ..RUN
    },
    told: &[&[
        b"ok
now 2026-01-05T10:05
now 2026-01-05T10:05
| ended, asked 2, denied 0
1 links, done
born 2026-01-05T10:00
tick 0.1 to 2026-01-05T10:05 bound 2026-01-05T10:05
ask 0.1 u now = now 2026-01-05T10:05
ask 0.1 u now = now 2026-01-05T10:05
status 0
",
    ]],
    ..ROW
};

const TIME_STAYS_WHERE_THE_CLOCK_FALLS_BY_A_DAY: CrewRow<'static> = CrewRow {
    name: "time stays where the clock falls by a day",
    run: CrewRun {
        zero: Man {
            wires: ASKS_TWICE,
            readings: &[TEN + DAY, TEN],
            bad_call: 0,
        },
        ..RUN
    },
    told: &[&[
        b"ok
now 2026-01-06T10:00
now 2026-01-06T10:00
| ended, asked 2, denied 0
1 links, done
born 2026-01-05T10:00
tick 0.1 to 2026-01-06T10:00 bound 2026-01-06T10:00
ask 0.1 u now = now 2026-01-06T10:00
ask 0.1 u now = now 2026-01-06T10:00
status 0
",
    ]],
    ..ROW
};

const BEFORE: &[u8] = b"ok
session 1
| ended, asked 1, denied 0
ok
now 2026-01-05T10:0";

const BETWEEN: &[u8] = b"
| ended, asked 1, denied 0
2 links, done
ok
now 2026-01-05T10:05
now 2026-01-05T10:05
| ended, asked 2, denied 0
1 links, done
born 2026-01-05T10:00
";

const TICK: &[u8] = b"tick 1.1 to 2026-01-05T10:05 bound 2026-01-05T10:05\n";

const OTHER: &[u8] = b"ask 1.1 u now = now 2026-01-05T10:05\n";

const OPEN: &[u8] = b"ask 0.1 u open = session 1\n";

const NOW_BEFORE: &[u8] = b"ask 0.2 u now = now 2026-01-05T10:00\n";

const NOW: &[u8] = b"ask 0.2 u now = now 2026-01-05T10:05\n";

const STATUS_0: &[u8] = b"status 0\n";

const ZERO: &[u8] = b"0";

const FIVE: &[u8] = b"5";

/// Two workers, of which the second is five minutes ahead at its first line: its tick and its two
/// asks stand before, between or behind those of the first one's connections.
const SHARED: CrewRow<'static> = CrewRow {
    name: "two workers share a history",
    run: CrewRun {
        zero: Man {
            wires: &[
                Wire {
                    sends: b"as u\nopen\n",
                    ..WIRE
                },
                Wire {
                    sends: b"as u\nnow\n",
                    ..WIRE
                },
            ],
            ..MAN
        },
        one: Some(Man {
            wires: ASKS_TWICE,
            readings: &[TEN + 5, TEN],
            bad_call: 0,
        }),
        ..RUN
    },
    told: &[
        &[
            BEFORE, ZERO, BETWEEN, OPEN, NOW_BEFORE, TICK, OTHER, OTHER, STATUS_0,
        ],
        &[
            BEFORE, FIVE, BETWEEN, OPEN, TICK, NOW, OTHER, OTHER, STATUS_0,
        ],
        &[
            BEFORE, FIVE, BETWEEN, TICK, OPEN, NOW, OTHER, OTHER, STATUS_0,
        ],
        &[
            BEFORE, FIVE, BETWEEN, OPEN, TICK, OTHER, NOW, OTHER, STATUS_0,
        ],
        &[
            BEFORE, FIVE, BETWEEN, TICK, OPEN, OTHER, NOW, OTHER, STATUS_0,
        ],
        &[
            BEFORE, FIVE, BETWEEN, TICK, OTHER, OPEN, NOW, OTHER, STATUS_0,
        ],
        &[
            BEFORE, FIVE, BETWEEN, OPEN, TICK, OTHER, OTHER, NOW, STATUS_0,
        ],
        &[
            BEFORE, FIVE, BETWEEN, TICK, OPEN, OTHER, OTHER, NOW, STATUS_0,
        ],
        &[
            BEFORE, FIVE, BETWEEN, TICK, OTHER, OPEN, OTHER, NOW, STATUS_0,
        ],
        &[
            BEFORE, FIVE, BETWEEN, TICK, OTHER, OTHER, OPEN, NOW, STATUS_0,
        ],
    ],
    ..ROW
};

const BESIDE: &[u8] = b"ok
session 1
| ended, asked 1, denied 0
1 links, done
ok
now 2026-01-05T10:00
now 2026-01-05T10:00
now 2026-01-05T10:00
| ended, asked 3, denied 0
1 links, done
born 2026-01-05T10:00
ask 1.1 u now = now 2026-01-05T10:00
ask 1.1 u now = now 2026-01-05T10:00
";

const THIRD: &[u8] = b"ask 1.1 u now = now 2026-01-05T10:00\n";

/// Worker 0's first request line is held until worker 1 comes to its third.
const TWO_WORKERS_RUN_BESIDE_EACH_OTHER: CrewRow<'static> = CrewRow {
    name: "two workers run beside each other",
    run: CrewRun {
        zero: Man {
            wires: &[Wire {
                sends: b"as u\nopen\n",
                ..WIRE
            }],
            ..MAN
        },
        one: Some(Man {
            wires: &[Wire {
                sends: b"as u\nnow\nnow\nnow\n",
                ..WIRE
            }],
            ..MAN
        }),
        ..RUN
    },
    rules: &[Rule {
        worker: 0,
        call: 1,
        other: 1,
        calls: 3,
    }],
    told: &[
        &[BESIDE, OPEN, THIRD, STATUS_0],
        &[BESIDE, THIRD, OPEN, STATUS_0],
    ],
    ..ROW
};

/// The clock reads 2001-11-25T10:39, after 999,999 minutes.
const A_FULL_HISTORY_TAKES_NO_STEP: CrewRow<'static> = CrewRow {
    name: "a full history takes no step",
    run: CrewRun {
        scene: Scene {
            policy: b"role a\nperiod always * * all.Days\neach always 50:enable a\n",
            birth: 0,
            room: 178,
            ..SCENE
        },
        zero: Man {
            wires: &[Wire {
                sends: b"now\nnow\nnow\n",
                ..WIRE
            }],
            readings: &[999_999],
            bad_call: 0,
        },
        ..RUN
    },
    told: &[&[
        b"refused no-user
no steps
no steps
| ended, asked 1, denied 2
1 links, done
born 2000-01-01T00:00
tick 0.1 to 2000-01-01T00:01 bound 2001-11-25T10:39
tick 0.1 to 2000-01-01T00:02 bound 2001-11-25T10:39
tick 0.1 to 2000-01-01T00:03 bound 2001-11-25T10:39
status 5
",
    ]],
    ..ROW
};

const NOBODY: &[u8] = b"0 links, fresh\n";

const USAGE: &[u8] = b"usage: gtrbacd POLICY | views POLICY | poll POLICY\n";

const STATUS_1: &[u8] = b"status 1\n";

const NO_WORD: CrewRow<'static> = CrewRow {
    name: "no word",
    run: CrewRun {
        scene: Scene {
            words: &[],
            ..SCENE
        },
        ..RUN
    },
    told: &[&[NOBODY, USAGE, STATUS_1]],
    ..ROW
};

const A_FLAG: CrewRow<'static> = CrewRow {
    name: "a flag",
    run: CrewRun {
        scene: Scene {
            words: &["-P"],
            ..SCENE
        },
        ..RUN
    },
    told: &[&[NOBODY, USAGE, STATUS_1]],
    ..ROW
};

const TWO_WORDS: CrewRow<'static> = CrewRow {
    name: "two words",
    run: CrewRun {
        scene: Scene {
            words: &["P", "P"],
            ..SCENE
        },
        ..RUN
    },
    told: &[&[NOBODY, USAGE, STATUS_1]],
    ..ROW
};

const A_USAGE_THAT_IS_CUT: CrewRow<'static> = CrewRow {
    name: "a usage that is cut",
    run: CrewRun {
        scene: Scene {
            words: &[],
            room: 5,
            ..SCENE
        },
        ..RUN
    },
    told: &[&[NOBODY, b"usagestatus 5\n"]],
    ..ROW
};

const A_FAULTY_POLICY: CrewRow<'static> = CrewRow {
    name: "a faulty policy",
    run: CrewRun {
        scene: Scene {
            policy: b"frob\n",
            ..SCENE
        },
        ..RUN
    },
    told: &[&[NOBODY, b"policy 1: word\nstatus 2\n"]],
    ..ROW
};

const A_POLICY_THAT_IS_NOT_SAFE: CrewRow<'static> = CrewRow {
    name: "a policy that is not safe",
    run: CrewRun {
        scene: Scene {
            policy: b"role a
role b
when enable b then 50:enable a
when enable a then 50:disable b
",
            ..SCENE
        },
        ..RUN
    },
    told: &[&[
        NOBODY,
        b"unsafe
conflict 1.1 disable b > enable a
plain 2.1 enable a > disable b
status 3
",
    ]],
    ..ROW
};

const NO_SUCH_FILE: CrewRow<'static> = CrewRow {
    name: "no such file",
    run: CrewRun {
        scene: Scene {
            words: &["Q"],
            ..SCENE
        },
        ..RUN
    },
    told: &[&[NOBODY, b"read fault\nstatus 4\n"]],
    ..ROW
};

const A_SHELF_THAT_FAILS: CrewRow<'static> = CrewRow {
    name: "a shelf that fails",
    run: CrewRun {
        scene: Scene {
            bad_find: 2,
            ..SCENE
        },
        ..RUN
    },
    told: &[&[NOBODY, b"read fault\nstatus 4\n"]],
    ..ROW
};

const ASKS_ONCE: Man<'static> = Man {
    wires: &[Wire {
        sends: b"as u\nnow\n",
        ..WIRE
    }],
    ..MAN
};

const ASKED_ONCE: &[u8] = b"ok
now 2026-01-05T10:00
| ended, asked 1, denied 0
1 links, done
";

const A_LOG_THAT_FINDS_NO_ROOM: CrewRow<'static> = CrewRow {
    name: "a log that finds no room",
    run: CrewRun {
        scene: Scene { room: 29, ..SCENE },
        zero: ASKS_ONCE,
        ..RUN
    },
    told: &[&[ASKED_ONCE, b"born 2026-01-05T10:00\nask 0.1status 5\n"]],
    ..ROW
};

const A_LOG_WHOSE_FIRST_WRITE_FAILS: CrewRow<'static> = CrewRow {
    name: "a log whose first write fails",
    run: CrewRun {
        scene: Scene {
            bad_write: 1,
            ..SCENE
        },
        zero: ASKS_ONCE,
        ..RUN
    },
    told: &[&[ASKED_ONCE, b"status 5\n"]],
    ..ROW
};

/// One request of each kind, by the user of the session.
const EACH_REQUEST_IS_LOGGED: CrewRow<'static> = CrewRow {
    name: "each request is logged",
    run: CrewRun {
        scene: Scene {
            policy: b"policy 2
role s
role j
user u
perm p
perm q
edge i weak s j
linked s j
admin u
enabled s
enabled j
assigned u s
granted p j
granted q s
",
            ..SCENE
        },
        zero: Man {
            wires: &[Wire {
                sends: b"as u
now
open
activate 1 s
check 1 p
check 1 q
active 1 s
active 1 j
status linked s j
status deassigned u s
event enable s
request 50:unlink s j
request 60:disable j after 7
deactivate 1 s
close 1
",
                ..WIRE
            }],
            ..MAN
        },
        ..RUN
    },
    told: &[&[
        b"ok
now 2026-01-05T10:00
session 1
ok by s
permit by s>j
permit by s
yes
no
yes
no
no
queued 2026-01-05T10:01
queued 2026-01-05T10:08
ok
ok
| ended, asked 14, denied 0
1 links, done
born 2026-01-05T10:00
ask 0.1 u now = now 2026-01-05T10:00
ask 0.1 u open = session 1
ask 0.1 u activate 1 s = ok by s
ask 0.1 u check 1 p = permit by s>j
ask 0.1 u check 1 q = permit by s
ask 0.1 u active 1 s = yes
ask 0.1 u active 1 j = no
ask 0.1 u status linked s j = yes
ask 0.1 u status deassigned u s = no
ask 0.1 u event enable s = no
ask 0.1 u request 50:unlink s j = queued 2026-01-05T10:01
ask 0.1 u request 60:disable j after 7 = queued 2026-01-05T10:08
ask 0.1 u deactivate 1 s = ok
ask 0.1 u close 1 = ok
status 0
",
    ]],
    ..ROW
};
