//! The lines of the edges, the caps and the administrators.
ghost use Rattle.std.specs.Prelude.{◌≡◌, ◌<◌, ◌++◌, length, flat_map, OnOk, IsTrue};
ghost use Rattle.gtrbac_model.specs.WholePolicy.{is_edge};
ghost use Rattle.policy_words.specs.Naming.{role_name};
ghost use Rattle.policy_words.specs.Canonical.{edge_kind, edge_line, cap_line};
ghost use Rattle.policy_text.specs.Sections.{line_text, written, lines_by, numbered, kind_text, caps_text, admin_line, ranked_text};

use crate::declarations::push_line;
use gt_base::{Caps, HierEdge, Memory, RoleId, UserId};
use policy_book::Policy;
use policy_words::{CapKind, EdgeKind, Said};

/// The kind with these two flags; an edge with neither, which no policy has, is told as `a`.
fn edge_kind(inherits: bool, activates: bool) -> EdgeKind
    ensures { result ≡ edge_kind inherits activates }
{
    match (inherits, activates) {
        (true, true) => EdgeKind::Ia,
        (true, false) => EdgeKind::I,
        (false, _) => EdgeKind::A,
    }
}

/// Adds the line of one edge; whether it is linked is said by lines of their own.
fn push_edge(text: &mut Vec<u8>, p: &Policy, edge: HierEdge) -> Result<(), Memory>
    requires { IsTrue (is_edge p.now.policy edge) }
    ensures { OnOk result (text.new.items ≡ text.old.items
        ++ line_text (edge_line p.now.names edge)) }
{
    p.keeps();
    push_line(
        text,
        &Said::Edge {
            kind: edge_kind(edge.inherits, edge.activates),
            strong: edge.strong,
            senior: p.role_name(edge.senior),
            junior: p.role_name(edge.junior),
        },
    )
}

/// Adds the lines of all edges by number, on or off.
fn push_edges(text: &mut Vec<u8>, p: &Policy) -> Result<(), Memory>
    ensures { OnOk result (text.new.items ≡ text.old.items
        ++ lines_by (edge_line p.now.names) p.now.policy.edges) }
{
    p.keeps();
    let edges = p.edges().as_slice();
    for edge in edges {
        push_edge(text, p, *edge)?;
    }
    Ok(())
}

/// Adds the line of a cap, if there is one.
fn push_cap(
    text: &mut Vec<u8>,
    p: &Policy,
    kind: CapKind,
    r: RoleId,
    cap: Option<u32>,
) -> Result<(), Memory>
    requires { r.0 < length p.now.names.roles }
    ensures { OnOk result (text.new.items ≡ text.old.items
        ++ written (cap_line p.now.names kind (role_name p.now.names r) cap)) }
{
    let role = p.role_name(r);
    match cap {
        Some(n) => push_line(text, &Said::Cap { kind, role, n }),
        None => Ok(()),
    }
}

/// Adds the lines of the caps of these kinds that a role has.
fn push_kinds(
    text: &mut Vec<u8>,
    p: &Policy,
    r: RoleId,
    caps: Caps,
    kinds: &[CapKind],
) -> Result<(), Memory>
    requires { r.0 < length p.now.names.roles }
    ensures { OnOk result (text.new.items ≡ text.old.items
        ++ flat_map (kind_text p.now.names (r.0, caps)) kinds.now) }
{
    for kind in kinds {
        push_cap(text, p, *kind, r, kind.of(caps))?;
    }
    Ok(())
}

/// Adds the lines of a role's caps: total, user, length, day; none where it has no cap.
fn push_role_caps(text: &mut Vec<u8>, p: &Policy, r: RoleId, caps: Caps) -> Result<(), Memory>
    requires { r.0 < length p.now.names.roles }
    ensures { OnOk result (text.new.items ≡ text.old.items ++ caps_text p.now.names (r.0, caps)) }
{
    push_kinds(text, p, r, caps, &CapKind::all())
}

/// Adds the lines of all caps, by role.
fn push_caps(text: &mut Vec<u8>, p: &Policy) -> Result<(), Memory>
    ensures { OnOk result (text.new.items ≡ text.old.items
        ++ flat_map (caps_text p.now.names) (numbered p.now.policy.caps)) }
{
    p.keeps();
    let caps = p.caps().as_slice();
    for r in 0..p.role_count() {
        push_role_caps(text, p, RoleId(r), caps[r as usize])?;
    }
    Ok(())
}

/// Adds the line of one administrator, a declared user.
fn push_admin(text: &mut Vec<u8>, p: &Policy, u: UserId) -> Result<(), Memory>
    requires { u.0 < p.now.policy.users }
    ensures { OnOk result (text.new.items ≡ text.old.items
        ++ line_text (admin_line p.now.names u)) }
{
    p.keeps();
    push_line(text, &Said::Admin(p.user_name(u)))
}

/// Adds the lines of all administrators, in the order of the policy's list.
fn push_admins(text: &mut Vec<u8>, p: &Policy) -> Result<(), Memory>
    ensures { OnOk result (text.new.items ≡ text.old.items
        ++ lines_by (admin_line p.now.names) p.now.policy.admins) }
{
    p.keeps();
    let admins = p.admins().as_slice();
    for u in admins {
        push_admin(text, p, *u)?;
    }
    Ok(())
}

/// Adds the edges, the caps and the administrators.
pub(crate) fn push_ranked(text: &mut Vec<u8>, p: &Policy) -> Result<(), Memory>
    ensures { OnOk result (text.new.items ≡ text.old.items ++ ranked_text p.now) }
{
    push_edges(text, p)?;
    push_caps(text, p)?;
    push_admins(text, p)
}
