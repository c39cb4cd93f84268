//! Whether anything may raise an event of a fluent.
ghost use Rattle.std.specs.Prelude.{◌≡◌};
ghost use Rattle.gtrbac_model.specs.Same.{same_fluent};
ghost use Rattle.forecast.specs.Raised.{asked_by, in_entries, in_history, in_limits, in_triggers, is_raised};

use core_machine::Book;
use gt_base::{Entry, Fluent, LimitRule, PeriodicEntry, Request, Step, Trigger};

/// Whether a periodic entry, a trigger, a limit rule or a request of the history is for an event of
/// the fluent. Where none is, the fluent stays as it was at the birth.
pub(crate) fn is_raised(book: &Book, f: Fluent) -> bool
    ensures { result ≡ is_raised book.now.named.policy book.now.entries f }
{
    let policy = book.policy();
    is_in_entries(policy.entries().as_slice(), f)
        || is_in_triggers(policy.triggers().as_slice(), f)
        || is_in_limits(policy.limits().as_slice(), f)
        || is_in_history(book.entries().as_slice(), f)
}

/// Whether the two are the same.
fn is_same(a: Fluent, b: Fluent) -> bool
    ensures { result ≡ same_fluent a b }
{
    a.cmp(&b).is_eq()
}

/// Whether a periodic entry raises an event of the fluent.
fn is_in_entries(entries: &[PeriodicEntry], f: Fluent) -> bool
    ensures { result ≡ in_entries f entries.now }
{
    entries.iter().any(|e| is_same(e.head.event.fluent, f))
}

/// Whether a trigger's head is an event of the fluent.
fn is_in_triggers(triggers: &[Trigger], f: Fluent) -> bool
    ensures { result ≡ in_triggers f triggers.now }
{
    triggers.iter().any(|t| is_same(t.head.event.fluent, f))
}

/// Whether a limit watches the fluent, and so may turn it.
fn is_in_limits(limits: &[LimitRule], f: Fluent) -> bool
    ensures { result ≡ in_limits f limits.now }
{
    limits.iter().any(|l| is_same(l.cond.fluent, f))
}

/// Whether some entry of the history asked for an event of the fluent.
fn is_in_history(entries: &[Entry], f: Fluent) -> bool
    ensures { result ≡ in_history f entries.now }
{
    entries.iter().any(|e| is_asked_by(&e.what, f))
}

/// Whether the step asks for an event of the fluent.
fn is_asked_by(step: &Step, f: Fluent) -> bool
    ensures { result ≡ asked_by f step.now }
{
    match step {
        Step::Ask {
            request: Request::Raise { head, .. },
            ..
        } => is_same(head.event.fluent, f),
        _ => false,
    }
}
