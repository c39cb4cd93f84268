//! Random policies, requests and signals, by a linear congruential generator.
ghost use Rattle.std.specs.Prelude.{◌<◌, ◌≤◌, IfOk};
ghost use Rattle.gt_base.specs.declared.limits.TheConstants.{LAST_MINUTE};

use crate::building::prio;
use gt_base::{Event, Fluent, LimitId, Memory, PermId, Prioritised, RoleId, Signal, UserId};
use std::alloc::Global;

/// What each policy declares, and the lines that arm and enable by chance come after.
const HEAD: &[u8] = b"policy 2
role a
role b
role c
user u
perm p
edge ia weak a b
enabled c
";

const PERIODS: [&[u8]; 14] = [
    b"* * all.Minutes",
    b"* * all.Hours > 7.Minutes",
    b"* * all.Hours + {5,20,21}.Minutes > 4.Minutes",
    b"* * all.Hours + {10,13}.Minutes > 9.Minutes",
    b"* * all.Hours + {7}.Minutes > 53.Minutes",
    b"* * all.Days + {13}.Hours + {1,31}.Minutes > 2.Hours",
    b"* * all.Days + {13,15}.Hours > 45.Minutes",
    b"* * all.Weeks + {1}.Days + {14}.Hours + {3}.Minutes > 30.Minutes",
    b"* * all.Years + {1}.Months + {5}.Days + {14}.Hours",
    b"* * all.Years + {2}.Months + {30}.Days",
    b"2026-01-05T12:30 2026-01-05T14:10 all.Hours > 13.Minutes",
    b"2026-01-05T12:03 * all.Hours + {1,2,3,4}.Minutes",
    b"* 2026-01-05T13:40 all.Days + all.Hours + {9}.Minutes > 200.Minutes",
    b"2026-01-05T12:00 2026-01-05T12:00 all.Minutes",
];

const NAMES: [&[u8]; 3] = [b"x", b"y", b"z"];

const FORMS: [&[u8]; 4] = [b"each ", b"start ", b"span ", b"span "];

const EVENTS: [&[u8]; 14] = [
    b"enable a",
    b"disable a",
    b"enable b",
    b"disable b",
    b"enable c",
    b"disable c",
    b"assign u a",
    b"deassign u a",
    b"grant p b",
    b"revoke p b",
    b"arm l",
    b"disarm l",
    b"link a b",
    b"unlink a b",
];

const CONDS: [&[u8]; 12] = [
    b"enabled a",
    b"disabled a",
    b"enabled b",
    b"disabled b",
    b"disabled c",
    b"assigned u a",
    b"deassigned u a",
    b"granted p b",
    b"armed l",
    b"disarmed m",
    b"linked a b",
    b"unlinked a b",
];

const SIGNALS: [&[u8]; 2] = [b"activate u a", b"deactivate u a"];

const PRIOS: [&[u8]; 4] = [b"0:", b"1:", b"2:", b"50:"];

const AGES: [&[u8]; 5] = [b" max 1", b" max 2", b" max 7", b" max 12", b" max 60"];

const DELAYS: [&[u8]; 8] = [
    b"",
    b"",
    b"",
    b"",
    b" after 1",
    b" after 2",
    b" after 7",
    b" after 61",
];

/// A number below the limit.
pub(crate) fn draw(state: &mut u64, limit: u32) -> u32
    requires { 0 < limit }
    ensures { result < limit }
{
    *state = state
        .wrapping_mul(6364136223846793005)
        .wrapping_add(1442695040888963407);
    ((*state >> 33) % u64::from(limit)) as u32
}

/// A text and the state of the generator.
#[derive(Drop)]
struct DrawnText {
    text: Vec<u8>,
    state: u64,
}

impl DrawnText {
    fn chance(&mut self, of: u32) -> bool
        requires { 0 < of }
    {
        draw(&mut self.state, of) == 0
    }

    fn put(&mut self, piece: &[u8]) -> Result<(), Memory> {
        self.text.extend_from_slice(piece)
    }

    /// Adds one of the pieces.
    fn put_one(&mut self, pieces: &[&[u8]]) -> Result<(), Memory> {
        let Some(last) = pieces.len().checked_sub(1) else {
            return Ok(());
        };
        let place = draw(&mut self.state, 1_000) as usize % (last + 1);
        self.text.extend_from_slice(pieces[place])
    }

    /// Adds a prioritised event.
    fn put_head(&mut self) -> Result<(), Memory> {
        self.put_one(&PRIOS)?;
        self.put_one(&EVENTS)
    }

    fn put_period(&mut self, name: &[u8]) -> Result<(), Memory> {
        self.put(b"period ")?;
        self.put(name)?;
        self.put(b" ")?;
        self.put_one(&PERIODS)?;
        self.put(b"\n")
    }

    /// Adds a limit, half of the times within a period, and half of the times armed from the start.
    fn put_limit(&mut self, name: &[u8]) -> Result<(), Memory> {
        self.put(b"limit ")?;
        self.put(name)?;
        self.put(b" 1 ")?;
        self.put_one(&CONDS)?;
        self.put_one(&AGES)?;
        if self.chance(2) {
            self.put(b" during ")?;
            self.put_one(&NAMES)?;
        }
        if self.chance(2) {
            self.put(b"\narmed ")?;
            self.put(name)?;
        }
        self.put(b"\n")
    }

    fn put_entry(&mut self) -> Result<(), Memory> {
        self.put_one(&FORMS)?;
        self.put_one(&NAMES)?;
        self.put(b" ")?;
        self.put_head()?;
        self.put(b"\n")
    }

    /// Adds what a body has beside its event or signal: a further event, a condition, a settled
    /// one.
    fn put_items(&mut self) -> Result<(), Memory> {
        if self.chance(4) {
            self.put(b" and ")?;
            self.put_one(&EVENTS)?;
        }
        if self.chance(3) {
            self.put(b" and ")?;
            self.put_one(&CONDS)?;
        }
        if self.chance(4) {
            self.put(b" and settled ")?;
            self.put_one(&CONDS)?;
        }
        Ok(())
    }

    fn put_trigger(&mut self) -> Result<(), Memory> {
        self.put(b"when ")?;
        if self.chance(6) {
            self.put_one(&SIGNALS)?;
        } else {
            self.put_one(&EVENTS)?;
        }
        self.put_items()?;
        self.put(b" then ")?;
        self.put_head()?;
        self.put_one(&DELAYS)?;
        self.put(b"\n")
    }

    fn put_policy(&mut self) -> Result<(), Memory> {
        self.put(HEAD)?;
        for name in &NAMES {
            self.put_period(name)?;
        }
        self.put_limit(b"l")?;
        self.put_limit(b"m")?;
        for _ in 0..draw(&mut self.state, 5) {
            self.put_entry()?;
        }
        for _ in 0..draw(&mut self.state, 6) {
            self.put_trigger()?;
        }
        Ok(())
    }
}

/// A random policy, which may be unsafe.
pub(crate) fn drawn_policy(alloc: Global, state: &mut u64) -> Result<Vec<u8>, Memory> {
    let mut draft = DrawnText {
        text: Vec::new(alloc),
        state: *state,
    };
    draft.put_policy()?;
    *state = draft.state;
    Ok(draft.text)
}

fn drawn_fluent(state: &mut u64) -> Fluent {
    match draw(state, 8) {
        0 => Fluent::Assigned(UserId(0), RoleId(0)),
        1 => Fluent::Granted(PermId(0), RoleId(1)),
        2 => Fluent::Limit(LimitId(draw(state, 2))),
        3 => Fluent::Edge(0),
        _ => Fluent::Enabled(RoleId(draw(state, 3))),
    }
}

/// A random event of a priority up to 5.
pub(crate) fn drawn_head(state: &mut u64) -> Result<Prioritised, Memory> {
    Ok(Prioritised {
        prio: prio(draw(state, 6) as u8)?,
        event: Event {
            on: draw(state, 2) == 0,
            fluent: drawn_fluent(state),
        },
    })
}

/// The start or the end of an activation.
pub(crate) fn drawn_signal(state: &mut u64) -> Signal {
    Signal {
        start: draw(state, 2) == 0,
        user: UserId(0),
        role: RoleId(0),
    }
}
