//! The lines of what is on at first, a sort after another.
ghost use Rattle.std.specs.Prelude.{◌≡◌, ◌++◌, OnOk, IsTrue};
ghost use Rattle.std.specs.List.{list_all};
ghost use Rattle.gtrbac_model.specs.WholePolicy.{is_fluent};
ghost use Rattle.policy_text.specs.Sections.{line_text, opening_line, opening_text, opened_by, linked_from, opened_from, opened_text};

use crate::declarations::push_line;
use crate::versions::is_version_one;
use gt_base::{Fluent, Memory};
use policy_book::{Policy, named_fluent};
use policy_words::{Said, Sort};

/// Adds the line that says that a fluent is on at first.
fn push_opening(text: &mut Vec<u8>, p: &Policy, f: Fluent) -> Result<(), Memory>
    requires { IsTrue (is_fluent p.now.policy f) }
    ensures { OnOk result (text.new.items ≡ text.old.items
        ++ line_text (opening_line p.now.names f)) }
{
    push_line(text, &Said::Opening(named_fluent(p, f)))
}

/// Adds the line of a fluent, if it is of the sort.
fn push_of(text: &mut Vec<u8>, p: &Policy, sort: Sort, f: Fluent) -> Result<(), Memory>
    requires { IsTrue (is_fluent p.now.policy f) }
    ensures { OnOk result (text.new.items ≡ text.old.items
        ++ opening_text p.now.names sort f) }
{
    if sort.has(f) {
        push_opening(text, p, f)
    } else {
        Ok(())
    }
}

/// Adds those of the fluents that are of the sort.
fn push_sort(text: &mut Vec<u8>, p: &Policy, sort: Sort, fluents: &[Fluent]) -> Result<(), Memory>
    requires { IsTrue (list_all (is_fluent p.now.policy) fluents.now) }
    ensures { OnOk result (text.new.items ≡ text.old.items
        ++ opened_by p.now.names sort fluents.now) }
{
    for f in fluents {
        push_of(text, p, sort, *f)?;
    }
    Ok(())
}

/// Adds the edges that are linked, in version 2.
fn push_linked(text: &mut Vec<u8>, p: &Policy, fluents: &[Fluent]) -> Result<(), Memory>
    requires { IsTrue (list_all (is_fluent p.now.policy) fluents.now) }
    ensures { OnOk result (text.new.items ≡ text.old.items ++ linked_from p.now fluents.now) }
{
    if is_version_one(p) {
        Ok(())
    } else {
        push_sort(text, p, Sort::Linking, fluents)
    }
}

/// Adds the fluents, a sort after another.
fn push_sorts(text: &mut Vec<u8>, p: &Policy, fluents: &[Fluent]) -> Result<(), Memory>
    requires { IsTrue (list_all (is_fluent p.now.policy) fluents.now) }
    ensures { OnOk result (text.new.items ≡ text.old.items ++ opened_from p.now fluents.now) }
{
    push_sort(text, p, Sort::Enabling, fluents)?;
    push_sort(text, p, Sort::Assigning, fluents)?;
    push_sort(text, p, Sort::Granting, fluents)?;
    push_sort(text, p, Sort::Arming, fluents)?;
    push_linked(text, p, fluents)
}

/// Adds what is on at first: the roles that are enabled, the assignments, the grants, the limits
/// that are armed, and in version 2 the edges that are linked.
pub(crate) fn push_opened(text: &mut Vec<u8>, p: &Policy) -> Result<(), Memory>
    ensures { OnOk result (text.new.items ≡ text.old.items ++ opened_text p.now) }
{
    p.keeps();
    let opening = p.opening().fluents()?;
    push_sorts(text, p, opening.as_slice())
}
