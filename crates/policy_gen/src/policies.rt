//! The text of the made policy.
ghost use Rattle.std.specs.Prelude.{◌≡◌, ◌≤◌, ◌<◌, ◌+◌, ◌-◌, ◌++◌, ◌∷◌, [], codes, OnOk};
ghost use Rattle.gt_text.specs.Words.{as_text};
ghost use Rattle.policy_gen.specs.Texts.{one, two, for_each, all_for_each, name_lines, edge_lines, holding_lines, chain, policy_lines};

use gt_base::Memory;
use gt_text::push_number;

/// Adds a piece and a number.
pub(crate) fn push_one(text: &mut Vec<u8>, piece: &[u8], i: u32) -> Result<(), Memory>
    ensures { OnOk result (text.new.items ≡ text.old.items ++ one piece.now i) }
{
    text.extend_from_slice(piece)?;
    push_number(text, u64::from(i))
}

/// Adds two pieces, each with its number.
pub(crate) fn push_two(
    text: &mut Vec<u8>,
    first: &[u8],
    i: u32,
    second: &[u8],
    j: u32,
) -> Result<(), Memory>
    ensures { OnOk result (text.new.items ≡ text.old.items ++ two first.now i second.now j) }
{
    push_one(text, first, i)?;
    push_one(text, second, j)
}

/// Adds a line that ends with a number.
fn push_one_line(text: &mut Vec<u8>, piece: &[u8], i: u32) -> Result<(), Memory>
    ensures { OnOk result (text.new.items ≡ text.old.items ++ (one piece.now i ++ 10 ∷ [])) }
{
    push_one(text, piece, i)?;
    text.extend_from_slice(b"\n")
}

/// Adds a line with two numbers, each behind its piece.
fn push_two_line(
    text: &mut Vec<u8>,
    first: &[u8],
    i: u32,
    second: &[u8],
    j: u32,
) -> Result<(), Memory>
    ensures { OnOk result (text.new.items ≡ text.old.items
        ++ (two first.now i second.now j ++ 10 ∷ [])) }
{
    push_two(text, first, i, second, j)?;
    text.extend_from_slice(b"\n")
}

/// Adds the lines of the piece with the numbers 1 to k.
fn push_numbered(text: &mut Vec<u8>, piece: &[u8], k: u32) -> Result<(), Memory>
    requires { k ≤ 200 }
    ensures { OnOk result (text.new.items ≡ text.old.items
        ++ as_text (for_each (one piece.now) k)) }
{
    for n in 0..k {
        push_one_line(text, piece, n + 1)?;
    }
    Ok(())
}

/// Adds the lines in which both pieces have the same number, 1 to k.
fn push_matched(text: &mut Vec<u8>, first: &[u8], second: &[u8], k: u32) -> Result<(), Memory>
    requires { k ≤ 200 }
    ensures { OnOk result (text.new.items ≡ text.old.items
        ++ as_text (for_each (λ i. two first.now i second.now i) k)) }
{
    for n in 0..k {
        push_two_line(text, first, n + 1, second, n + 1)?;
    }
    Ok(())
}

/// Adds the edges from each role to the next.
fn push_edges(text: &mut Vec<u8>, k: u32) -> Result<(), Memory>
    requires { k ≤ 200 }
    ensures { OnOk result (text.new.items ≡ text.old.items ++ as_text (edge_lines k)) }
{
    for n in 0..k {
        push_two_line(text, b"edge ia weak r", n + 1, b" r", n + 2)?;
    }
    Ok(())
}

/// Adds the triggers of a role.
fn push_chain(text: &mut Vec<u8>, i: u32) -> Result<(), Memory>
    requires { i ≤ 200 }
    ensures { OnOk result (text.new.items ≡ text.old.items ++ as_text (chain i)) }
{
    push_two_line(text, b"when enable r", i, b" then 50:enable r", i + 1)?;
    push_two_line(text, b"when disable r", i, b" then 50:disable r", i + 1)
}

/// Adds the triggers of the roles 1 to k.
fn push_chains(text: &mut Vec<u8>, k: u32) -> Result<(), Memory>
    requires { k < 200 }
    ensures { OnOk result (text.new.items ≡ text.old.items ++ as_text (all_for_each chain k)) }
{
    for n in 0..k {
        push_chain(text, n + 1)?;
    }
    Ok(())
}

/// Adds the names.
fn push_names(text: &mut Vec<u8>, k: u32) -> Result<(), Memory>
    requires { k ≤ 200 }
    ensures { OnOk result (text.new.items ≡ text.old.items ++ as_text (name_lines k)) }
{
    push_numbered(text, b"role r", k)?;
    push_numbered(text, b"user u", k)?;
    push_numbered(text, b"perm p", k)
}

/// Adds who has which role and permission.
fn push_holding(text: &mut Vec<u8>, k: u32) -> Result<(), Memory>
    requires { k ≤ 200 }
    ensures { OnOk result (text.new.items ≡ text.old.items ++ as_text (holding_lines k)) }
{
    push_matched(text, b"assigned u", b" r", k)?;
    push_matched(text, b"granted p", b" r", k)
}

/// Adds the policy of k roles.
pub(crate) fn push_policy(text: &mut Vec<u8>, k: u32) -> Result<(), Memory>
    requires { (1 ≤ k) × (k ≤ 200) }
    ensures { OnOk result (text.new.items ≡ text.old.items ++ as_text (policy_lines k)) }
{
    text.extend_from_slice(b"policy 1\n")?;
    push_names(text, k)?;
    text.extend_from_slice(b"period hours * * all.Days + {9}.Hours > 8.Hours\n")?;
    push_edges(text, k - 1)?;
    text.extend_from_slice(b"admin u1\n")?;
    push_holding(text, k)?;
    text.extend_from_slice(b"span hours 50:enable r1\n")?;
    push_chains(text, k - 1)
}
