//! Two tasks at the same time.
ghost use Rattle.std.specs.Thread.{IsSend, IsSync};
ghost use Rattle.gtrbac_daemon.specs.Tasks.{MayBeGiven, Changes};

use std::thread::{Threads, join_mut};

/// Calls f with x.
fn call<T, F: Fn(&mut T)>(f: &F, x: &mut T)
    requires { MayBeGiven F.Fn f.now x.old }
    ensures { Changes F.Fn f.now x.old x.new }
{
    f(x)
}

/// Calls f with a, and g with b, at the same time.
pub(crate) fn both<R: Threads + Sync, A: Send, B: Send, F: Fn(&mut A) + Sync, G: Fn(&mut B) + Sync>(
    rt: &R,
    f: &F,
    a: &mut A,
    g: &G,
    b: &mut B,
)
    requires first { MayBeGiven F.Fn f.now a.old }
    requires second { MayBeGiven G.Fn g.now b.old }
    ensures first { Changes F.Fn f.now a.old a.new }
    ensures second { Changes G.Fn g.now b.old b.new }
{
    let mut one = ||
        requires { IsSync F.row × IsSend A.row × MayBeGiven F.Fn f.now a.now }
        ensures { Changes F.Fn f.entry.now a.entry.now a.exit.now }
    { call(f, a) };
    let mut other = ||
        requires { IsSync G.row × IsSend B.row × MayBeGiven G.Fn g.now b.now }
        ensures { Changes G.Fn g.entry.now b.entry.now b.exit.now }
    { call(g, b) };
    join_mut(rt, &mut one, &mut other);
}
