//! Sayings that name an edge of the hierarchy, which version 1 has no words for.
ghost use Rattle.std.specs.Prelude.{◌≡◌, option_map};
ghost use Rattle.std.specs.List.{list_any};
ghost use Rattle.policy_words.specs.Sayings.{is_edge, item_names_edge, names_edge};
ghost use Rattle.policy_words.specs.Versions.{is_allowed};
ghost use Rattle.policy_words.specs.Seen.{seen_said};
ghost use Rattle.policy_words.specs.Reading.{formed_in};
ghost use Rattle.policy_lines.specs.Answered.{ReadsAs};

use policy_words::{Item, NamedFluent, Said, TextKind};

/// Whether a fluent is of an edge, and so has words in version 2 alone.
fn is_edge(fluent: &NamedFluent) -> bool
    ensures { result ≡ is_edge fluent.now }
{
    match fluent {
        NamedFluent::Edge(_, _) => true,
        _ => false,
    }
}

/// Whether an item of a body names an edge; a signal never does.
fn item_names_edge(item: &Item) -> bool
    ensures { result ≡ item_names_edge item.now }
{
    match item {
        Item::Event(event) => is_edge(&event.fluent),
        Item::Signal(_) => false,
        Item::Cond(cond) => is_edge(&cond.fluent),
        Item::Settled(cond) => is_edge(&cond.fluent),
    }
}

/// Whether one of the items of a body names an edge.
fn any_names_edge(items: &[Item]) -> bool
    ensures { result ≡ list_any item_names_edge items.now }
{
    items.iter().any(|item| item_names_edge(item))
}

/// Whether a saying links, unlinks or asks for an edge, which version 1 has no words for.
fn names_edge(said: &Said) -> bool
    ensures { result ≡ names_edge (seen_said said.now) }
{
    match said {
        Said::Limit { cond, .. } => is_edge(&cond.fluent),
        Said::Opening(fluent) => is_edge(fluent),
        Said::Entry { head, .. } => is_edge(&head.event.fluent),
        Said::When { items, head, .. } => {
            any_names_edge(items.as_slice()) || is_edge(&head.event.fluent)
        }
        _ => false,
    }
}

/// Whether the version has words for a saying; `edges` is whether it has words for edges.
pub(crate) fn is_allowed(edges: bool, said: &Said) -> bool
    ensures { result ≡ is_allowed edges (seen_said said.now) }
{
    !names_edge(said) || edges
}

/// A saying, or that the words have no form; where `edges` is false no form names an edge.
pub(crate) fn formed_in(edges: bool, said: Option<Said>) -> Result<Said, TextKind>
    ensures { ReadsAs result (formed_in edges (option_map seen_said said)) }
{
    let Some(said) = said else {
        return Err(TextKind::Form);
    };
    if is_allowed(edges, &said) {
        Ok(said)
    } else {
        Err(TextKind::Form)
    }
}
