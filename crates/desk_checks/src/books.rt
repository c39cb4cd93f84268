//! A book of one role, and what the operator may ask it.
ghost use Rattle.std.specs.Prelude.{◌≡◌, ◌<◌, [], true, IfOk, IfSome};
ghost use Rattle.gt_base.specs.declared.requests.Actor.TheVariants.{Operator};
ghost use Rattle.core_machine.specs.Books.{IsNamedFor};
ghost use Rattle.desk_checks.specs.Requests.{first_role_status};

use core_machine::{Book, Safe};
use gt_base::{Cond, Fluent, Instant, Memory, Name, Request, RoleId};
use policy_book::{Parts, Policy, Said};
use std::alloc::{AllocError, Global};

/// The request whether role 0 is enabled.
pub fn role_status() -> Request
    ensures { result ≡ first_role_status }
{
    Request::Status(Cond {
        on: true,
        fluent: Fluent::Enabled(RoleId(0)),
    })
}

/// Whether a policy has a role.
fn has_a_role(policy: &Policy) -> bool
    ensures role { result ≡ true → 0 < policy.now.policy.roles }
{
    policy.role_count() > 0
}

/// The lines of a policy: one role.
fn one_role(alloc: Global, name: Name) -> Result<Parts, Memory> {
    let mut parts = Parts::new(alloc);
    let _is = name.bytes();
    parts.add(1, Said::Role(name))?;
    Ok(parts)
}

/// A safe policy of one role.
fn role_policy(alloc: Global) -> Option<Safe>
    ensures role { IfSome result (λ safe. 0 < safe.policy.roles) }
{
    let name = Name::new(b"duty")?;
    let parts = one_role(alloc, name).ok()?;
    let policy = Policy::build(alloc, parts).ok()?;
    let safe = Safe::admit(alloc, policy).ok()?;
    if has_a_role(safe.policy()) {
        Some(safe)
    } else {
        None
    }
}

/// A book of one role, which is disabled at the birth.
pub fn book_of_a_role(alloc: Global, birth: Instant) -> Result<Book, Memory>
    ensures empty { IfOk result (λ b. b.entries ≡ []) }
    ensures named { IfOk result (λ b. IsNamedFor b Operator first_role_status) }
{
    let Some(safe) = role_policy(alloc) else {
        return Err(AllocError);
    };
    match Book::new(alloc, safe, birth) {
        Ok(book) => Ok(book),
        Err(_) => Err(AllocError),
    }
}
