//! Lines whose names are declared.
ghost use Rattle.std.specs.Prelude.{◌≡◌};
ghost use Rattle.std.specs.List.{list_all};
ghost use Rattle.policy_words.specs.Seen.{seen_said};
ghost use Rattle.policy_words.specs.LinesTogether.{is_known_item, is_known_period, is_known};
ghost use Rattle.policy_book.specs.Seen.{seen_names};

use crate::names::NameTables;
use gt_base::Name;
use policy_words::{Item, Said};

/// Whether each name in an item is declared, and the pair of an edge in it is an edge's.
fn is_known_item(names: &NameTables, item: &Item) -> bool
    ensures { result ≡ is_known_item (seen_names names.now) item.now }
{
    match item {
        Item::Event(event) => names.event(event).is_some(),
        Item::Signal(signal) => names.signal(signal).is_some(),
        Item::Cond(cond) | Item::Settled(cond) => names.cond(cond).is_some(),
    }
}

/// Whether each name in the items of a body is declared.
fn are_known(names: &NameTables, items: &[Item]) -> bool
    ensures { result ≡ list_all (is_known_item (seen_names names.now)) items.now }
{
    for item in items {
        if !is_known_item(names, item) {
            return false;
        }
    }
    true
}

/// Whether a limit's period is declared; None, for a limit that holds at all times, needs no name.
fn is_known_period(names: &NameTables, period: &Option<Name>) -> bool
    ensures { result ≡ is_known_period (seen_names names.now) period.now }
{
    match period {
        Some(name) => names.period(name).is_some(),
        None => true,
    }
}

/// Whether each name of the line is declared by some line, and each pair of an edge that it
/// switches is an edge's.
pub(crate) fn is_known(names: &NameTables, said: &Said) -> bool
    ensures { result ≡ is_known (seen_names names.now) (seen_said said.now) }
{
    match said {
        Said::Limit { cond, period, .. } => {
            names.cond(cond).is_some() && is_known_period(names, period)
        }
        Said::Edge { senior, junior, .. } => {
            names.role(senior).is_some() && names.role(junior).is_some()
        }
        Said::Cap { role, .. } => names.role(role).is_some(),
        Said::Admin(user) => names.user(user).is_some(),
        Said::Opening(fluent) => names.fluent(fluent).is_some(),
        Said::Entry { period, head, .. } => {
            names.period(period).is_some() && names.head(head).is_some()
        }
        Said::When { items, head, .. } => {
            are_known(names, items.as_slice()) && names.head(head).is_some()
        }
        Said::Version(_) | Said::Role(_) | Said::User(_) | Said::Perm(_) | Said::Period { .. } =>
            true,
    }
}
