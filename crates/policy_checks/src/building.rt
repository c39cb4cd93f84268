//! Policies that lines make, and the first faults of lines together.
ghost use Rattle.std.specs.Prelude.{◌≡◌, ◌≤◌, false, IfOk, IsTrue};
ghost use Rattle.gt_base.specs.Names.{is_name};
ghost use Rattle.policy_words.specs.Sayings.{is_saying, names_edge};
ghost use Rattle.policy_words.specs.Seen.{seen_said};
ghost use Rattle.policy_book.specs.Said.{are_before, is_version};

use gt_base::{Caps, Fluent, Form, Instant, List, Memory, Name, PeriodId, Prio, RoleId, UserId};
use periodic_expr::parse_expr;
use policy_book::{BookFault, Parts, Policy};
use policy_words::{
    CapKind, EdgeKind, Item, Kind, NamedCond, NamedEvent, NamedFluent, NamedHead, NamedSignal, Said,
};
use std::alloc::{AllocError, Global};
use std::test::Fail;

/// Lines, numbered from 1.
#[derive(Drop)]
struct Lines {
    alloc: Global,
    parts: Parts,
    line: u32,
    ghost later: { IsTrue (are_before line parts) },
}

/// A name, which the tests write in order; one that is none fails as memory does.
fn name(text: &[u8]) -> Result<Name, Memory>
    ensures { IfOk result (λ n. IsTrue (is_name n)) }
{
    match Name::new(text) {
        Some(name) => Ok(name),
        None => Err(AllocError),
    }
}

/// A priority, the same for all.
fn prio() -> Result<Prio, Memory>
    ensures { IfOk result (λ p. p ≤ 99) }
{
    match Prio::new(7) {
        Some(prio) => Ok(prio),
        None => Err(AllocError),
    }
}

impl Lines {
    /// No line yet; the first one is line 1.
    fn new(alloc: Global) -> Lines {
        Lines {
            alloc,
            parts: Parts::new(alloc),
            line: 1,
        }
    }

    /// Adds a line, numbered behind the last one.
    fn put(self, said: Said) -> Result<Lines, Memory>
        requires said { IsTrue (is_saying (seen_said said)) }
        requires version { is_version (seen_said said) ≡ false }
        requires edge { names_edge (seen_said said) ≡ false }
    {
        let Lines {
            alloc,
            mut parts,
            line,
        } = self;
        if line == u32::MAX {
            return Err(AllocError);
        }
        parts.add(line, said)?;
        Ok(Lines {
            alloc,
            parts,
            line: line + 1,
        })
    }

    /// A line that declares a role.
    fn role(self, n: &[u8]) -> Result<Lines, Memory> {
        self.put(Said::Role(name(n)?))
    }

    /// A line that declares a user.
    fn user(self, n: &[u8]) -> Result<Lines, Memory> {
        self.put(Said::User(name(n)?))
    }

    /// A line of an administrator.
    fn admin(self, n: &[u8]) -> Result<Lines, Memory> {
        self.put(Said::Admin(name(n)?))
    }

    /// A line of an assignment at first.
    fn assigned(self, user: &[u8], role: &[u8]) -> Result<Lines, Memory> {
        let fluent = NamedFluent::Assigned(name(user)?, name(role)?);
        self.put(Said::Opening(fluent))
    }

    /// A line of an edge, of a kind and a strength that play no part.
    fn edge(self, senior: &[u8], junior: &[u8]) -> Result<Lines, Memory> {
        let (senior, junior) = (name(senior)?, name(junior)?);
        self.put(Said::Edge {
            kind: EdgeKind::I,
            strong: false,
            senior,
            junior,
        })
    }

    /// A line of a cap, 5 of its kind.
    fn cap(self, kind: CapKind, role: &[u8]) -> Result<Lines, Memory> {
        let role = name(role)?;
        self.put(Said::Cap { kind, role, n: 5 })
    }

    /// A role is enabled where a period starts.
    fn entry(self, period: &[u8], role: &[u8]) -> Result<Lines, Memory> {
        let period = name(period)?;
        let head = enable(name(role)?)?;
        self.put(Said::Entry {
            form: Form::Start,
            period,
            head,
        })
    }

    /// The first ten minutes of each year.
    fn period(self, n: &[u8]) -> Result<Lines, Memory> {
        let name = name(n)?;
        let (Some(first), Some(last)) = (Instant::new(0), Instant::new(9)) else {
            return Err(AllocError);
        };
        let Ok(expr) = parse_expr(self.alloc, b"all.Years > 10.Minutes") else {
            return Err(AllocError);
        };
        expr.keeps();
        self.put(Said::Period {
            name,
            first,
            last,
            expr,
        })
    }

    /// A trigger of a condition, an event, a signal and another event, in this order.
    fn trigger(self, role: &[u8], user: &[u8]) -> Result<Lines, Memory> {
        let cond = NamedCond {
            on: true,
            fluent: NamedFluent::Enabled(name(role)?),
        };
        let on = NamedEvent {
            on: true,
            fluent: NamedFluent::Enabled(name(role)?),
        };
        let off = NamedEvent {
            on: false,
            fluent: NamedFluent::Enabled(name(role)?),
        };
        let signal = NamedSignal {
            start: true,
            user: name(user)?,
            role: name(role)?,
        };
        let head = enable(name(role)?)?;
        let items = vec![in self.alloc;
            Item::Cond(cond),
            Item::Event(on),
            Item::Signal(signal),
            Item::Event(off),
        ]?;
        self.put(Said::When {
            items: List::from(items),
            head,
            delay: 3,
        })
    }

    /// So many roles r0, r1, ..
    fn roles(mut self, n: u32) -> Result<Lines, Memory> {
        for k in 0..n {
            let text = format!(in self.alloc; "r{k}")?;
            self = self.role(text.as_bytes())?;
        }
        Ok(self)
    }

    /// Each of the first so many roles above each of the next four.
    fn edges(mut self, n: u32) -> Result<Lines, Memory>
        requires { n ≤ 990 }
    {
        for k in 0..4 * n {
            let senior = format!(in self.alloc; "r{}", k / 4)?;
            let junior = format!(in self.alloc; "r{}", k / 4 + k % 4 + 1)?;
            self = self.edge(senior.as_bytes(), junior.as_bytes())?;
        }
        Ok(self)
    }

    /// What the lines make, or their fault.
    fn build(self) -> Result<Policy, BookFault> {
        Policy::build(self.alloc, self.parts)
    }

    /// Whether the lines make what is asked, a policy or a fault.
    fn is(self, asked: AskedOf) -> bool {
        match self.build() {
            Ok(policy) => policy_is(&policy, asked),
            Err(fault) => fault_is(&fault, asked),
        }
    }

    /// What is told of the lines.
    fn told(self) -> BuildEnd {
        match self.build() {
            Ok(_) => BuildEnd::Nothing,
            Err(BookFault::Unknown { line }) => BuildEnd::Unknown(line),
            Err(BookFault::Twice { line }) => BuildEnd::Twice(line),
            Err(BookFault::TooMany { line, what }) => BuildEnd::TooMany(line, what),
            Err(BookFault::HierarchyCycle { .. }) => BuildEnd::Cycle,
            Err(BookFault::Memory) => BuildEnd::NoMemory,
        }
    }
}

/// What is asked of a policy, or of the fault of its lines.
#[derive(Clone, Copy)]
enum AskedOf {
    Names,
    Rules,
    Caps,
    CycleOfSecond,
}

#[derive(Clone, Copy, PartialEq, Eq)]
enum BuildEnd {
    Nothing,
    Unknown(u32),
    Twice(u32),
    TooMany(u32, Kind),
    Cycle,
    NoMemory,
}

/// The head that enables a role.
fn enable(role: Name) -> Result<NamedHead, Memory>
    requires { IsTrue (is_name role) }
    ensures { IfOk result (λ h. (h.prio ≤ 99) × (h.event.fluent ≡ NamedFluent.Enabled role)) }
{
    Ok(NamedHead {
        prio: prio()?,
        event: NamedEvent {
            on: true,
            fluent: NamedFluent::Enabled(role),
        },
    })
}

/// Whether a policy is what is asked.
fn policy_is(policy: &Policy, asked: AskedOf) -> bool {
    match asked {
        AskedOf::Names => are_named(policy) && are_once(policy),
        AskedOf::Rules => has_rules(policy),
        AskedOf::Caps => are_capped(policy),
        AskedOf::CycleOfSecond => false,
    }
}

/// Whether a fault is what is asked.
fn fault_is(fault: &BookFault, asked: AskedOf) -> bool {
    match (asked, fault) {
        (AskedOf::CycleOfSecond, BookFault::HierarchyCycle { edges, names }) => {
            edges.len() == 1 && are_second(names.as_slice())
        }
        _ => false,
    }
}

/// The name `b` twice.
fn are_second(names: &[Name]) -> bool {
    match (name(b"b"), names) {
        (Ok(b), [first, last]) => *first == b && *last == b,
        _ => false,
    }
}

#[test]
fn the_first_fault(rt: HostRuntime) -> Result<(), Fail> {
    // unknown before twice
    let lines = Lines::new(rt.alloc()).role(b"a")?.edge(b"a", b"z")?;
    assert!(rt; lines.edge(b"a", b"z")?.told() == BuildEnd::Unknown(2));
    // a later line's fault is not told first
    let lines = Lines::new(rt.alloc()).role(b"a")?.role(b"a")?;
    assert!(rt; lines.admin(b"u")?.told() == BuildEnd::Twice(2));
    Ok(())
}

#[test]
fn limits_of_kinds(rt: HostRuntime) -> Result<(), Fail> {
    let lines = Lines::new(rt.alloc()).roles(1_000)?.edges(990)?;
    assert!(rt; lines.told() == BuildEnd::Nothing);
    // twice before too many
    let lines = Lines::new(rt.alloc()).roles(1_000)?.role(b"r999")?;
    assert!(rt; lines.told() == BuildEnd::Twice(1_001));
    let lines = Lines::new(rt.alloc()).roles(1_001)?.role(b"r999")?;
    assert!(rt; lines.told() == BuildEnd::TooMany(1_001, Kind::Roles));
    Ok(())
}

/// Names are numbered in the order of their lines.
fn are_named(policy: &Policy) -> bool {
    let (Ok(a), Ok(b), Ok(u)) = (name(b"a"), name(b"b"), name(b"u")) else {
        return false;
    };
    policy.role(&a) == Some(RoleId(0))
        && policy.role(&b) == Some(RoleId(1))
        && policy.user(&u) == Some(UserId(1))
        && policy.user(&a) == None
}

/// Two administrators and an assignment.
fn are_once(policy: &Policy) -> bool {
    policy.admins().as_slice() == [UserId(0), UserId(1)].as_slice()
        && policy
            .opening()
            .is_on(Fluent::Assigned(UserId(1), RoleId(1)))
}

#[test]
fn used_before_declared(rt: HostRuntime) -> Result<(), Fail> {
    let lines = Lines::new(rt.alloc()).admin(b"u")?.assigned(b"u", b"b")?;
    let lines = lines.role(b"a")?.user(b"t")?.role(b"b")?.user(b"u")?;
    // said again: an administrator and an assignment
    let lines = lines.admin(b"u")?.assigned(b"u", b"b")?.admin(b"t")?;
    assert!(rt; lines.is(AskedOf::Names));
    Ok(())
}

/// One trigger, whose body is split.
fn is_split(policy: &Policy) -> bool {
    let [trigger] = policy.triggers().as_slice() else {
        return false;
    };
    let [first, second] = trigger.events.as_slice() else {
        return false;
    };
    first.on && !second.on && trigger.signals.len() == 1 && trigger.conds.len() == 1
}

/// Whether the one entry is of the period that was declared second.
fn is_of_second_period(policy: &Policy) -> bool {
    let [entry] = policy.entries().as_slice() else {
        return false;
    };
    entry.period == PeriodId(1) && entry.form == Form::Start && policy.period_count() == 2
}

/// Whether a copy of the policy has the trigger and the entry that were said.
fn has_rules(policy: &Policy) -> bool {
    match policy.copied() {
        Ok(copy) => is_split(&copy) && is_of_second_period(&copy),
        Err(_) => false,
    }
}

#[test]
fn rules(rt: HostRuntime) -> Result<(), Fail> {
    let lines = Lines::new(rt.alloc())
        .trigger(b"a", b"u")?
        .entry(b"p", b"a")?;
    let lines = lines.period(b"q")?.period(b"p")?.role(b"a")?.user(b"u")?;
    assert!(rt; lines.is(AskedOf::Rules));
    Ok(())
}

#[test]
fn cycles(rt: HostRuntime) -> Result<(), Fail> {
    let lines = Lines::new(rt.alloc()).role(b"a")?.role(b"b")?;
    let lines = lines.edge(b"a", b"b")?.edge(b"b", b"b")?;
    assert!(rt; lines.is(AskedOf::CycleOfSecond));
    Ok(())
}

/// Caps of the second role by three kinds, and of the first by one.
fn are_capped(policy: &Policy) -> bool {
    let a = Caps {
        total: None,
        user: Some(5),
        length: None,
        day: None,
    };
    let b = Caps {
        total: Some(5),
        user: None,
        length: Some(5),
        day: Some(5),
    };
    policy.caps().as_slice() == [a, b].as_slice()
}

#[test]
fn caps_of_a_role(rt: HostRuntime) -> Result<(), Fail> {
    let lines = Lines::new(rt.alloc()).role(b"a")?.role(b"b")?;
    let lines = lines.cap(CapKind::Day, b"b")?.cap(CapKind::Total, b"b")?;
    let lines = lines.cap(CapKind::Length, b"b")?.cap(CapKind::User, b"a")?;
    assert!(rt; lines.is(AskedOf::Caps));
    Ok(())
}
