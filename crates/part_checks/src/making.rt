//! Policies and scripts that are made by a seed and a size.
use policy_gen::make;
use std::test::Fail;

/// All of what seed 1 and size 1 make.
#[test]
fn one_round(rt: HostRuntime) -> Result<(), Fail> {
    let made = make(rt.alloc(), 1, 1)?;
    let policy = b"policy 1
role r1
user u1
perm p1
period hours * * all.Days + {9}.Hours > 8.Hours
admin u1
assigned u1 r1
granted p1 r1
span hours 50:enable r1
";
    assert!(rt; made.policy.as_slice() == policy.as_slice());
    let script = b"@ 2026-01-05T08:00
as u1
open
@ 2026-01-05T08:30
as u1
activate 1 r1
";
    assert!(rt; made.script.as_slice() == script.as_slice());
    Ok(())
}

/// All of what seed 1 and size 2 make: an edge, the triggers of the second role, two rounds.
#[test]
fn two_roles(rt: HostRuntime) -> Result<(), Fail> {
    let made = make(rt.alloc(), 1, 2)?;
    let policy = b"policy 1
role r1
role r2
user u1
user u2
perm p1
perm p2
period hours * * all.Days + {9}.Hours > 8.Hours
edge ia weak r1 r2
admin u1
assigned u1 r1
assigned u2 r2
granted p1 r1
granted p2 r2
span hours 50:enable r1
when enable r1 then 50:enable r2
when disable r1 then 50:disable r2
";
    assert!(rt; made.policy.as_slice() == policy.as_slice());
    let script = b"@ 2026-01-05T08:00
as u1
open
as u2
open
@ 2026-01-05T08:30
as u2
activate 2 r2
@ 2026-01-05T08:34
as u2
check 2 p2
";
    assert!(rt; made.script.as_slice() == script.as_slice());
    Ok(())
}

/// Above a size of 200 the policy stays, and the script alone grows.
#[test]
fn sizes_are_those_of_the_largest(rt: HostRuntime) -> Result<(), Fail> {
    let made = make(rt.alloc(), 18_446_744_073_709_551_615, 201)?;
    assert!(rt; made.policy.len() == 31_793);
    let less = make(rt.alloc(), 18_446_744_073_709_551_615, 200)?;
    assert!(rt; less.policy.as_slice() == made.policy.as_slice());
    assert!(rt; less.script.len() < made.script.len());
    Ok(())
}
