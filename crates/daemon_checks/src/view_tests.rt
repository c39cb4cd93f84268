//! Runs with a viewer, and what is told of each. The test that plays them stands with the others.
use crate::crews::CrewRun;
use crate::fakes::{Man, Scene, Wire};
use crate::gates::Rule;
use crate::tests::{CrewRow, MAN, ROW, RUN, SCENE, TEN, WIRE};

/// What surrounds a run with a viewer.
const VIEWS: Scene<'static> = Scene {
    words: &["views", "P"],
    ..SCENE
};

/// A worker without links, and a viewer without links.
const WATCHED: CrewRun<'static> = CrewRun {
    scene: VIEWS,
    viewer: Some(MAN),
    ..RUN
};

/// Five minutes after the birth.
const LATER: &[u32] = &[TEN + 5];

pub(crate) const A_VIEWER_SHOWS_AND_CHANGES_NOTHING: CrewRow<'static> = CrewRow {
    name: "a viewer shows and changes nothing",
    run: CrewRun {
        viewer: Some(Man {
            wires: &[Wire {
                sends: b"as u\nnow\nopen\ncheck 1 x\n",
                ..WIRE
            }],
            ..MAN
        }),
        ..WATCHED
    },
    told: &[&[
        b"0 links, done
ok
now 2026-01-05T10:00
view only
bad name
| 0 ended
viewer done
born 2026-01-05T10:00
status 0
",
    ]],
    ..ROW
};

const ASKED_TWICE: &[u8] = b"ok
now 2026-01-05T10:05
now 2026-01-05T10:05
| ended, asked 2, denied 0
1 links, done
ok
now 2026-01-05T10:05
|";

const SEEN: &[u8] = b" ended
viewer done
born 2026-01-05T10:00
tick 0.1 to 2026-01-05T10:05 bound 2026-01-05T10:05
ask 0.1 u now = now 2026-01-05T10:05
ask 0.1 u now = now 2026-01-05T10:05
status 0
";

/// The viewer's first line is held until the worker comes to its second, so that it sees the tick of
/// the first. What only looks is published later.
pub(crate) const A_VIEWER_SEES_WHAT_A_WORKER_HAS_DONE: CrewRow<'static> = CrewRow {
    name: "a viewer sees what a worker has done",
    run: CrewRun {
        zero: Man {
            wires: &[Wire {
                sends: b"as u\nnow\nnow\n",
                ..WIRE
            }],
            readings: LATER,
            bad_call: 0,
        },
        viewer: Some(Man {
            wires: &[Wire {
                sends: b"as u\nnow\n",
                ..WIRE
            }],
            ..MAN
        }),
        ..WATCHED
    },
    rules: &[Rule {
        worker: 8,
        call: 1,
        other: 0,
        calls: 2,
    }],
    told: &[&[ASKED_TWICE, b" 1", SEEN]],
    ..ROW
};

const TEAM: &[u8] = b"role doctor
role nurse
user ada
user ben
perm read
admin ada
enabled doctor
assigned ben doctor
granted read doctor
";

const IN_TURN: &[u8] = b"ok
session 1
ok by doctor
permit by doctor
now 2026-01-05T10:05
| ended, asked 4, denied 0
1 links, done
ok
session 2
queued 2026-01-05T10:06
ok
now 2026-01-05T10:05
| ended, asked 4, denied 0
1 links, done
ok
yes
no
yes
permit by doctor
view only
| 7 7 7 7 ended
viewer done
born 2026-01-05T10:00
tick 0.1 to 2026-01-05T10:05 bound 2026-01-05T10:05
ask 0.1 ben open = session 1
ask 0.1 ben activate 1 doctor = ok by doctor
ask 0.1 ben check 1 read = permit by doctor
ask 1.1 ada open = session 2
ask 1.1 ada request 50:enable nurse = queued 2026-01-05T10:06
ask 1.1 ada close 2 = ok
";

const BEN: &[u8] = b"ask 0.1 ben now = now 2026-01-05T10:05\n";

const ADA: &[u8] = b"ask 1.1 ada now = now 2026-01-05T10:05\n";

const STATUS_0: &[u8] = b"status 0\n";

/// Worker 0 makes three requests, then worker 1 three, and then the viewer five; the fourth request
/// of either worker waits for that.
pub(crate) const A_VIEWER_IS_TOLD_WHAT_TWO_WORKERS_HAVE_DONE: CrewRow<'static> = CrewRow {
    name: "a viewer is told what two workers have done",
    run: CrewRun {
        scene: Scene {
            policy: TEAM,
            ..VIEWS
        },
        zero: Man {
            wires: &[Wire {
                sends: b"as ben\nopen\nactivate 1 doctor\ncheck 1 read\nnow\n",
                ..WIRE
            }],
            readings: LATER,
            bad_call: 0,
        },
        one: Some(Man {
            wires: &[Wire {
                sends: b"as ada\nopen\nrequest 50:enable nurse\nclose 2\nnow\n",
                ..WIRE
            }],
            readings: LATER,
            bad_call: 0,
        }),
        viewer: Some(Man {
            wires: &[Wire {
                sends: b"as ben
status enabled doctor
event enable doctor
active 1 doctor
check 1 read
open
",
                ..WIRE
            }],
            ..MAN
        }),
    },
    rules: &[
        Rule {
            worker: 1,
            call: 1,
            other: 0,
            calls: 4,
        },
        Rule {
            worker: 8,
            call: 1,
            other: 1,
            calls: 4,
        },
        Rule {
            worker: 0,
            call: 4,
            other: 8,
            calls: 5,
        },
        Rule {
            worker: 1,
            call: 4,
            other: 8,
            calls: 5,
        },
    ],
    told: &[
        &[IN_TURN, BEN, ADA, STATUS_0],
        &[IN_TURN, ADA, BEN, STATUS_0],
    ],
    ..ROW
};

pub(crate) const A_VIEWERS_DOOR_THAT_FAILS: CrewRow<'static> = CrewRow {
    name: "a viewer's door that fails is told with the log",
    run: CrewRun {
        zero: Man {
            wires: &[Wire {
                sends: b"as u\nnow\n",
                ..WIRE
            }],
            ..MAN
        },
        viewer: Some(Man { bad_call: 1, ..MAN }),
        ..WATCHED
    },
    told: &[&[
        b"ok
now 2026-01-05T10:00
| ended, asked 1, denied 0
1 links, done
viewer door fault
born 2026-01-05T10:00
ask 0.1 u now = now 2026-01-05T10:00
status 10
",
    ]],
    ..ROW
};

pub(crate) const WRONG_WORD_WITH_A_VIEWER: CrewRow<'static> = CrewRow {
    name: "a wrong word with a viewer",
    run: CrewRun {
        scene: Scene {
            words: &["views", "-P"],
            ..SCENE
        },
        ..WATCHED
    },
    told: &[&[
        b"0 links, fresh
viewer fresh
usage: gtrbacd POLICY | views POLICY | poll POLICY
status 1
",
    ]],
    ..ROW
};

pub(crate) const FAULTY_WITH_A_VIEWER: CrewRow<'static> = CrewRow {
    name: "a faulty policy with a viewer",
    run: CrewRun {
        scene: Scene {
            policy: b"frob\n",
            ..VIEWS
        },
        ..WATCHED
    },
    told: &[&[
        b"0 links, fresh
viewer fresh
policy 1: word
status 2
",
    ]],
    ..ROW
};
