//! The lines of the names: roles, users and permissions, each by number.
ghost use Rattle.std.specs.Prelude.{◌≡◌, ◌<◌, ◌++◌, length, OnOk};
ghost use Rattle.policy_words.specs.Sayings.{version, role, user, perm};
ghost use Rattle.policy_words.specs.Seen.{seen_said};
ghost use Rattle.policy_words.specs.Canonical.{version_of};
ghost use Rattle.policy_words.specs.Naming.{role_name, user_name, perm_name};
ghost use Rattle.policy_text.specs.Sections.{line_text, lines_by, named_text};

use crate::versions::version_of;
use gt_base::{Memory, PermId, RoleId, UserId};
use policy_book::Policy;
use policy_lines::push_said;
use policy_words::Said;

/// Adds the line of a saying, with its line feed.
pub(crate) fn push_line(text: &mut Vec<u8>, said: &Said) -> Result<(), Memory>
    ensures { OnOk result (text.new.items ≡ text.old.items ++ line_text (seen_said said.now)) }
{
    push_said(text, said)?;
    text.extend_from_slice(b"\n")
}

/// Adds the first line: the version that the policy needs, whichever its own text had.
fn push_version(text: &mut Vec<u8>, p: &Policy) -> Result<(), Memory>
    ensures { OnOk result (text.new.items ≡ text.old.items
        ++ line_text (version (version_of p.now.policy))) }
{
    push_line(text, &Said::Version(version_of(p)))
}

/// Adds the line of one role by its number, which is a declared one.
fn push_role(text: &mut Vec<u8>, p: &Policy, r: RoleId) -> Result<(), Memory>
    requires { r.0 < length p.now.names.roles }
    ensures { OnOk result (text.new.items ≡ text.old.items
        ++ line_text (role (role_name p.now.names r))) }
{
    push_line(text, &Said::Role(p.role_name(r)))
}

/// Adds the line of one user by its number, which is a declared one.
fn push_user(text: &mut Vec<u8>, p: &Policy, u: UserId) -> Result<(), Memory>
    requires { u.0 < length p.now.names.users }
    ensures { OnOk result (text.new.items ≡ text.old.items
        ++ line_text (user (user_name p.now.names u))) }
{
    push_line(text, &Said::User(p.user_name(u)))
}

/// Adds the line of one permission by its number, which is a declared one.
fn push_perm(text: &mut Vec<u8>, p: &Policy, q: PermId) -> Result<(), Memory>
    requires { q.0 < length p.now.names.perms }
    ensures { OnOk result (text.new.items ≡ text.old.items
        ++ line_text (perm (perm_name p.now.names q))) }
{
    push_line(text, &Said::Perm(p.perm_name(q)))
}

/// Adds the lines of all roles by number, which is the order of their declarations.
fn push_roles(text: &mut Vec<u8>, p: &Policy) -> Result<(), Memory>
    ensures { OnOk result (text.new.items ≡ text.old.items
        ++ lines_by (λ n. role n) p.now.names.roles) }
{
    p.keeps();
    for r in 0..p.role_count() {
        push_role(text, p, RoleId(r))?;
    }
    Ok(())
}

/// Adds the lines of all users by number, which is the order of their declarations.
fn push_users(text: &mut Vec<u8>, p: &Policy) -> Result<(), Memory>
    ensures { OnOk result (text.new.items ≡ text.old.items
        ++ lines_by (λ n. user n) p.now.names.users) }
{
    p.keeps();
    for u in 0..p.user_count() {
        push_user(text, p, UserId(u))?;
    }
    Ok(())
}

/// Adds the lines of all permissions by number, which is the order of their declarations.
fn push_perms(text: &mut Vec<u8>, p: &Policy) -> Result<(), Memory>
    ensures { OnOk result (text.new.items ≡ text.old.items
        ++ lines_by (λ n. perm n) p.now.names.perms) }
{
    p.keeps();
    for q in 0..p.perm_count() {
        push_perm(text, p, PermId(q))?;
    }
    Ok(())
}

/// Adds the version, the roles, the users and the permissions.
pub(crate) fn push_named(text: &mut Vec<u8>, p: &Policy) -> Result<(), Memory>
    ensures { OnOk result (text.new.items ≡ text.old.items ++ named_text p.now) }
{
    push_version(text, p)?;
    push_roles(text, p)?;
    push_users(text, p)?;
    push_perms(text, p)
}
