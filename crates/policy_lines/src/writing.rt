//! Lines of a policy, written.
ghost use Rattle.std.specs.Prelude.{◌≡◌, ◌∷◌, ◌++◌, [], codes, decimal, OnOk};
ghost use Rattle.gt_text.specs.Words.{spaced};
ghost use Rattle.civil_time.specs.Text.{civil_text};
ghost use Rattle.periodic_expr.specs.Printed.{expr_text};
ghost use Rattle.policy_words.specs.Wording.{head_words, delay_words};
ghost use Rattle.policy_words.specs.Sayings.{said_words, version, limit, period, edge, cap, opening, entry, trigger, during_words, kind_word, strength_word, cap_word, form_word};
ghost use Rattle.policy_words.specs.Seen.{seen_said};
ghost use Rattle.policy_lines.specs.Spaces.{later, led};

use crate::part_texts::{
    add_cond, add_head, add_items, add_name, add_names, add_number, add_pair, add_word, push_delay,
};
use crate::verbs::cond_text;
use civil_time::write_civil;
use gt_base::{Form, Instant, Memory, Name, Prio};
use periodic_expr::{Expr, print_expr};
use policy_words::{CapKind, EdgeKind, Item, NamedCond, NamedFluent, NamedHead, Said};

/// Adds a verb and one name: the form of declarations and of administrators.
fn write_named(text: &mut Vec<u8>, verb: &[u8], name: &Name) -> Result<(), Memory>
    ensures { OnOk result (text.new.items ≡ text.old.items ++ led (verb.now ∷ name.now ∷ [])) }
{
    text.extend_from_slice(verb)?;
    add_name(text, name)
}

/// Adds a space and a minute; the first and the last one of all too, never `*`.
fn add_instant(text: &mut Vec<u8>, t: Instant) -> Result<(), Memory>
    ensures { OnOk result (text.new.items ≡ text.old.items ++ later (civil_text t ∷ [])) }
{
    add_word(text, &write_civil(t))
}

/// Adds a space and an expression with its length, also one that was left out.
fn add_expr(text: &mut Vec<u8>, expr: &Expr) -> Result<(), Memory>
    ensures { OnOk result (text.new.items ≡ text.old.items ++ later (expr_text expr.now ∷ [])) }
{
    let printed = print_expr(*text.allocator(), expr)?;
    add_word(text, printed.as_slice())
}

/// Adds the two bounds and the expression of a period.
fn add_period(text: &mut Vec<u8>, first: Instant, last: Instant, expr: &Expr) -> Result<(), Memory>
    ensures { OnOk result (text.new.items ≡ text.old.items
        ++ later (civil_text first ∷ civil_text last ∷ expr_text expr.now ∷ [])) }
{
    add_instant(text, first)?;
    add_instant(text, last)?;
    add_expr(text, expr)
}

/// Adds the line of a period.
fn write_period(
    text: &mut Vec<u8>,
    name: &Name,
    first: Instant,
    last: Instant,
    expr: &Expr,
) -> Result<(), Memory>
    ensures { OnOk result (text.new.items ≡ text.old.items
        ++ led (said_words (period name.now first last expr.now))) }
{
    write_named(text, b"period", name)?;
    add_period(text, first, last, expr)
}

/// Adds `during` and a period; nothing where a limit holds at all times.
fn add_during(text: &mut Vec<u8>, period: &Option<Name>) -> Result<(), Memory>
    ensures { OnOk result (text.new.items ≡ text.old.items ++ later (during_words period.now)) }
{
    match period {
        None => Ok(()),
        Some(name) => {
            add_word(text, b"during")?;
            add_name(text, name)
        }
    }
}

/// Adds `max`, the minutes, and the period where there is one.
fn add_most(text: &mut Vec<u8>, most: u32, period: &Option<Name>) -> Result<(), Memory>
    ensures { OnOk result (text.new.items ≡ text.old.items
        ++ later (codes "max" ∷ decimal most ∷ during_words period.now)) }
{
    add_word(text, b"max")?;
    add_number(text, most)?;
    add_during(text, period)
}

/// Adds the line of a limit.
fn write_limit(
    text: &mut Vec<u8>,
    name: &Name,
    prio: Prio,
    cond: &NamedCond,
    most: u32,
    period: &Option<Name>,
) -> Result<(), Memory>
    ensures { OnOk result (text.new.items ≡ text.old.items
        ++ led (said_words (limit name.now prio cond.now most period.now))) }
{
    write_named(text, b"limit", name)?;
    add_number(text, u32::from(prio.get()))?;
    add_cond(text, cond)?;
    add_most(text, most, period)
}

/// Adds the line of a version.
fn write_version(text: &mut Vec<u8>, n: u32) -> Result<(), Memory>
    ensures { OnOk result (text.new.items ≡ text.old.items ++ led (said_words (version n))) }
{
    text.extend_from_slice(b"policy")?;
    add_number(text, n)
}

/// The word of a kind of edge.
pub(crate) fn kind_text(kind: EdgeKind) -> &'static [u8]
    ensures { result.now ≡ kind_word kind }
{
    match kind {
        EdgeKind::I => b"i",
        EdgeKind::A => b"a",
        EdgeKind::Ia => b"ia",
    }
}

/// The word of an edge's strength.
pub(crate) fn strength_text(strong: bool) -> &'static [u8]
    ensures { result.now ≡ strength_word strong }
{
    if strong { b"strong" } else { b"weak" }
}

/// The word of a kind of cap.
pub(crate) fn cap_text(kind: CapKind) -> &'static [u8]
    ensures { result.now ≡ cap_word kind }
{
    match kind {
        CapKind::Total => b"total",
        CapKind::User => b"user",
        CapKind::Length => b"length",
        CapKind::Day => b"day",
    }
}

/// The word of an entry's form.
pub(crate) fn form_text(form: Form) -> &'static [u8]
    ensures { result.now ≡ form_word form }
{
    match form {
        Form::Each => b"each",
        Form::Start => b"start",
        Form::Span => b"span",
    }
}

/// Adds the line of an edge.
fn write_edge(
    text: &mut Vec<u8>,
    kind: EdgeKind,
    strong: bool,
    senior: &Name,
    junior: &Name,
) -> Result<(), Memory>
    ensures { OnOk result (text.new.items ≡ text.old.items
        ++ led (said_words (edge kind strong senior.now junior.now))) }
{
    text.extend_from_slice(b"edge")?;
    add_word(text, kind_text(kind))?;
    add_word(text, strength_text(strong))?;
    add_pair(text, senior, junior)
}

/// Adds the line of a cap; `n` counts activations or minutes, by its kind.
fn write_cap(text: &mut Vec<u8>, kind: CapKind, role: &Name, n: u32) -> Result<(), Memory>
    ensures { OnOk result (text.new.items ≡ text.old.items
        ++ led (said_words (cap kind role.now n))) }
{
    text.extend_from_slice(b"cap")?;
    add_word(text, cap_text(kind))?;
    add_name(text, role)?;
    add_number(text, n)
}

/// Adds the line that says that a fluent is on at first, with the verb of its condition.
fn write_opening(text: &mut Vec<u8>, fluent: &NamedFluent) -> Result<(), Memory>
    ensures { OnOk result (text.new.items ≡ text.old.items
        ++ led (said_words (opening fluent.now))) }
{
    text.extend_from_slice(cond_text(true, fluent.sort()))?;
    add_names(text, fluent)
}

/// Adds the line of a periodic entry, whose form is its first word.
fn write_entry(
    text: &mut Vec<u8>,
    form: Form,
    period: &Name,
    head: &NamedHead,
) -> Result<(), Memory>
    ensures { OnOk result (text.new.items ≡ text.old.items
        ++ led (said_words (entry form period.now head.now))) }
{
    write_named(text, form_text(form), period)?;
    add_head(text, head)
}

/// Adds what stands behind a body: `then`, the head and the delay, where it is not 0.
fn add_effect(text: &mut Vec<u8>, head: &NamedHead, delay: u32) -> Result<(), Memory>
    ensures { OnOk result (text.new.items ≡ text.old.items
        ++ later (codes "then" ∷ head_words head.now ++ delay_words delay)) }
{
    add_word(text, b"then")?;
    add_head(text, head)?;
    push_delay(text, delay)
}

/// Adds the line of a trigger.
fn write_trigger(
    text: &mut Vec<u8>,
    items: &[Item],
    head: &NamedHead,
    delay: u32,
) -> Result<(), Memory>
    ensures { OnOk result (text.new.items ≡ text.old.items
        ++ led (said_words (trigger items.now head.now delay))) }
{
    text.extend_from_slice(b"when")?;
    add_items(text, items)?;
    add_effect(text, head, delay)
}

/// Adds the line of a saying.
fn write_said(text: &mut Vec<u8>, said: &Said) -> Result<(), Memory>
    ensures { OnOk result (text.new.items ≡ text.old.items
        ++ led (said_words (seen_said said.now))) }
{
    match said {
        Said::Version(n) => write_version(text, *n),
        Said::Role(name) => write_named(text, b"role", name),
        Said::User(name) => write_named(text, b"user", name),
        Said::Perm(name) => write_named(text, b"perm", name),
        Said::Period {
            name,
            first,
            last,
            expr,
        } => write_period(text, name, *first, *last, expr),
        Said::Limit {
            name,
            prio,
            cond,
            most,
            period,
        } => write_limit(text, name, *prio, cond, *most, period),
        Said::Edge {
            kind,
            strong,
            senior,
            junior,
        } => write_edge(text, *kind, *strong, senior, junior),
        Said::Cap { kind, role, n } => write_cap(text, *kind, role, *n),
        Said::Admin(name) => write_named(text, b"admin", name),
        Said::Opening(fluent) => write_opening(text, fluent),
        Said::Entry { form, period, head } => write_entry(text, *form, period, head),
        Said::When { items, head, delay } => write_trigger(text, items.as_slice(), head, *delay),
    }
}

/// Adds the line that says it, without a line feed, words with one space between them.
pub fn push_said(text: &mut Vec<u8>, said: &Said) -> Result<(), Memory>
    ensures { OnOk result (text.new.items ≡ text.old.items
        ++ spaced (said_words (seen_said said.now))) }
{
    write_said(text, said)
}

/// Adds the line of a period, words with one space between them.
pub fn push_period(
    text: &mut Vec<u8>,
    name: &Name,
    first: Instant,
    last: Instant,
    expr: &Expr,
) -> Result<(), Memory>
    ensures { OnOk result (text.new.items ≡ text.old.items
        ++ spaced (said_words (period name.now first last expr.now))) }
{
    write_period(text, name, first, last, expr)
}
