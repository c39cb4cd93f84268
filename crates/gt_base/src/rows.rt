//! Rising rows of distinct items, searched by halves.
ghost use Rattle.std.specs.Prelude.{◌≡◌, ◌≤◌, ◌<◌, ◌+◌, true, length, IfOk, IfErr, vec_capacity, vec_len};
ghost use Rattle.gt_base.specs.Sets.{Rises, set_of_rising, has, with_member, GoesIn};

/// Where the item stands, or where it goes in.
fn find<K: Ord>(items: &[K], k: &K) -> Result<usize, usize>
    requires { Rises K.cmp items.now }
    ensures found { IfOk result (λ _. (has (set_of_rising {R = K.cmp} items.now) k.now ≡ true)
        × (with_member (set_of_rising {R = K.cmp} items.now) k.now ≡ set_of_rising items.now)) }
    ensures place { IfErr result (λ i. i ≤ length items.now) }
    ensures absent { IfErr result (GoesIn K.cmp k.now items.now) }
{
    items.binary_search(k)
}

/// Whether the row has the item.
pub(crate) fn is_in<K: Ord>(items: &[K], k: &K) -> bool
    requires { Rises K.cmp items.now }
    ensures { result ≡ has (set_of_rising {R = K.cmp} items.now) k.now }
{
    match find(items, k) {
        Ok(_) => true,
        Err(_) => false,
    }
}

/// Puts the item in, unless it is there.
pub(crate) fn put<K: Ord + Copy>(items: &mut Vec<K>, k: K)
    requires rises { Rises K.cmp items.old.items }
    requires room { vec_len items.old < vec_capacity items.old }
    ensures rises { Rises K.cmp items.new.items }
    ensures set { set_of_rising {R = K.cmp} items.new.items
        ≡ with_member (set_of_rising items.old.items) k }
    ensures capacity { vec_capacity items.old ≤ vec_capacity items.new }
    ensures len { vec_len items.new ≤ vec_len items.old + 1 }
{
    if let Err(place) = find(items, &k) {
        match items.insert(place, k) {
            Ok(()) => {}
            Err(_) => unreachable!(),
        }
    }
}
