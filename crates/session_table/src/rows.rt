//! Rising rows of roles, searched by halves.
ghost use Rattle.std.specs.Prelude.{◌≡◌, ◌≤◌, true, not, length, IfOk, IfErr, OnOk, OnErr};
ghost use Rattle.std.specs.Ordering.{eq_by_cmp};
ghost use Rattle.gt_base.specs.Sets.{Rises, set_of_rising, has, with_member, without, GoesIn};
ghost use Rattle.session_table.specs.RoleSets.{role_cmp};

use gt_base::{Memory, RoleId};

/// Where the role stands, or where it goes in.
fn find(items: &[RoleId], k: RoleId) -> Result<usize, usize>
    requires { Rises role_cmp items.now }
    ensures found { IfOk result
        (λ _. (has (set_of_rising {R = role_cmp} items.now) k ≡ true)
        × (with_member (set_of_rising {R = role_cmp} items.now) k
        ≡ set_of_rising items.now)) }
    ensures place { IfErr result (λ i. i ≤ length items.now) }
    ensures absent { IfErr result (GoesIn role_cmp k items.now) }
{
    items.binary_search(&k)
}

/// Whether the row has the role.
pub(crate) fn is_in(items: &[RoleId], k: RoleId) -> bool
    requires { Rises role_cmp items.now }
    ensures { result ≡ has (set_of_rising {R = role_cmp} items.now) k }
{
    match find(items, k) {
        Ok(_) => true,
        Err(_) => false,
    }
}

/// Puts the role in, unless it is there. After a refusal the row is as it was.
pub(crate) fn put(items: &mut Vec<RoleId>, k: RoleId) -> Result<(), Memory>
    requires { Rises role_cmp items.old.items }
    ensures rises { Rises role_cmp items.new.items }
    ensures set { OnOk result
        (set_of_rising {R = role_cmp} items.new.items
        ≡ with_member (set_of_rising items.old.items) k) }
    ensures same { OnErr result (items.new.items ≡ items.old.items) }
{
    if let Err(place) = find(items, k) {
        items.insert(place, k)?;
    }
    Ok(())
}

/// Takes the role out, if it is there.
pub(crate) fn take_out(items: &mut Vec<RoleId>, k: RoleId)
    requires { Rises role_cmp items.old.items }
    ensures rises { Rises role_cmp items.new.items }
    ensures set { set_of_rising {R = role_cmp} items.new.items
        ≡ without (set_of_rising items.old.items) k }
{
    items.retain(
        |x: &RoleId| -> bool
            ensures { result ≡ not (eq_by_cmp role_cmp k x.now) }
        { !k.cmp(x).is_eq() },
    );
}
