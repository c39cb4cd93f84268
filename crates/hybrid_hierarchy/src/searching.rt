//! The least walk by a search from its starts outward, which asks of no edge and no role more than
//! it needs.
ghost use Rattle.std.specs.Prelude.{◌≡◌, ℕ, Bool, ◌+◌, ◌<◌, ◌≤◌, ◌⊎◌, [], ◌∷◌, ◌++◌, true, false, replicate, not, length, count_by, IfOk, OnOk, MatchOption, Some};
ghost use Rattle.gt_base.specs.declared.limits.TheConstants.{MAX_EDGES, MAX_ROLES};
ghost use Rattle.gtrbac_model.specs.Graph.{IsLeastWalk, item_at};
ghost use Rattle.gtrbac_model.specs.Hierarchy.{role_arcs};
ghost use Rattle.walk_laws.specs.Laws.{HasNoWalk};
ghost use Rattle.hybrid_hierarchy.specs.Nets.{AreWithin, IsHierarchy};
ghost use Rattle.hybrid_hierarchy.specs.Searches.{IsOutgoing, HasStops, IsWalkBy, HasSearched, IsGoalBy, AreNoGoals, is_seen, roles_of};

use crate::outgoing::{NO_EDGE, Outgoing, first_of};
use crate::questions::WalkQuestion;
use gt_base::{HierEdge, List, Memory, RoleId, Walk};
use std::alloc::Global;

/// Room for so many found roles is made at once: most searches end before they need more.
const MANY: usize = 64;

/// And for so many edges of a walk.
const FEW: usize = 16;

/// A role that was found: by the edge of this number from what was found at the place before, or,
/// where that is no edge, as the start of this place.
#[derive(Clone, Copy)]
pub(crate) struct FoundRole {
    pub(crate) role: u32,
    pub(crate) by: u32,
    pub(crate) before: usize,
}

/// The least walk over open edges from one of the starts to a goal: by the number of its edges,
/// then by the place of its start, then by the numbers of its edges.
pub(crate) fn least<Q: WalkQuestion>(
    alloc: Global,
    edges: &[HierEdge],
    out: &Outgoing,
    from: &[u32],
    asked: &Q,
) -> Result<Option<Walk>, Memory>
    requires hierarchy { IsHierarchy edges.now }
    requires outgoing { IsOutgoing edges.now out.now.first.items out.now.next.items }
    requires starts { (i s : ℕ) → item_at from.now i ≡ Some s → s < MAX_ROLES }
    ensures { IfOk result (λ found. MatchOption found
        (HasNoWalk (role_arcs (Q.passes asked.now) edges.now) (Q.goals asked.now)
        (roles_of from.now))
        (λ walk. IsLeastWalk (role_arcs (Q.passes asked.now) edges.now) (Q.goals asked.now)
        (roles_of from.now) (record { start = walk.start; arcs = walk.edges }))) }
{
    match first_goal(edges, from, asked) {
        Some(role) => Ok(Some(Walk {
            start: role,
            edges: List::new(alloc),
        })),
        None => least_on(alloc, edges, out, from, asked),
    }
}

/// The first start that is a goal itself.
fn first_goal<Q: WalkQuestion>(edges: &[HierEdge], from: &[u32], asked: &Q) -> Option<RoleId>
    ensures { MatchOption result (AreNoGoals (Q.goals asked.now) from.now)
        (λ role. IsLeastWalk (role_arcs (Q.passes asked.now) edges.now) (Q.goals asked.now)
        (roles_of from.now) (record { start = role; arcs = [] })) }
{
    for role in from {
        if asked.is_goal(RoleId(*role)) {
            return Some(RoleId(*role));
        }
    }
    None
}

/// The same where no start is a goal. Each role is asked whether it is one when it is found, so
/// that the search ends there.
fn least_on<Q: WalkQuestion>(
    alloc: Global,
    edges: &[HierEdge],
    out: &Outgoing,
    from: &[u32],
    asked: &Q,
) -> Result<Option<Walk>, Memory>
    requires hierarchy { IsHierarchy edges.now }
    requires outgoing { IsOutgoing edges.now out.now.first.items out.now.next.items }
    requires starts { (i s : ℕ) → item_at from.now i ≡ Some s → s < MAX_ROLES }
    requires no_goals { AreNoGoals (Q.goals asked.now) from.now }
    ensures { IfOk result (λ found. MatchOption found
        (HasNoWalk (role_arcs (Q.passes asked.now) edges.now) (Q.goals asked.now)
        (roles_of from.now))
        (λ walk. IsLeastWalk (role_arcs (Q.passes asked.now) edges.now) (Q.goals asked.now)
        (roles_of from.now) (record { start = walk.start; arcs = walk.edges }))) }
{
    let mut seen = [false; 1_000];
    let mut queue = begun(alloc, edges, asked, from, &mut seen)?;
    let mut head = 0;
    while head < queue.len() {
        if let Some(n) = follow(edges, out, from, asked, head, &mut seen, &mut queue)? {
            return Ok(Some(walk_by(alloc, &queue, head, n)?));
        }
        head += 1;
    }
    Ok(None)
}

/// The starts, each of them marked.
fn begun<Q: WalkQuestion>(
    alloc: Global,
    edges: &[HierEdge],
    asked: &Q,
    from: &[u32],
    seen: &mut [bool],
) -> Result<Vec<FoundRole>, Memory>
    requires unmarked { (v : ℕ) → is_seen seen.old v ≡ true → ⊥ }
    requires starts { (i s : ℕ) → item_at from.now i ≡ Some s → s < length seen.old }
    requires no_goals { AreNoGoals (Q.goals asked.now) from.now }
    ensures size { length seen.new ≡ length seen.old }
    ensures searched { IfOk result (λ queue. HasSearched (Q.passes asked.now)
        (Q.goals asked.now) edges.now from.now (length from.now) seen.new queue.items 0 0) }
{
    let mut queue = Vec::with_capacity(alloc, MANY)?;
    for (place, role) in from.iter().enumerate() {
        seen[*role as usize] = true;
        queue.push(FoundRole {
            role: *role,
            by: NO_EDGE,
            before: place,
        })?;
    }
    Ok(queue)
}

/// Follows the open edges of what was found at the head to each role that was not seen, until one
/// is a goal: then the edge that leads to it.
fn follow<Q: WalkQuestion>(
    edges: &[HierEdge],
    out: &Outgoing,
    from: &[u32],
    asked: &Q,
    head: usize,
    seen: &mut [bool],
    queue: &mut Vec<FoundRole>,
) -> Result<Option<u32>, Memory>
    requires hierarchy { (length edges.now ≤ MAX_EDGES) × AreWithin (length seen.old) edges.now }
    requires outgoing { IsOutgoing edges.now out.now.first.items out.now.next.items }
    requires head { head < length queue.old.items }
    requires searched { HasSearched (Q.passes asked.now) (Q.goals asked.now) edges.now from.now
        (length from.now) seen.old queue.old.items head 0 }
    ensures size { OnOk result (length seen.new ≡ length seen.old) }
    ensures fewer { OnOk result (length queue.new.items + count_by not seen.new
        ≤ length queue.old.items + count_by not seen.old) }
    ensures found { IfOk result (λ found. MatchOption found
        (HasSearched (Q.passes asked.now) (Q.goals asked.now) edges.now from.now
        (length from.now) seen.new queue.new.items (head + 1) 0)
        (λ n. IsGoalBy (Q.passes asked.now) (Q.goals asked.now) edges.now from.now queue.new.items
        head n)) }
{
    let role = queue[head].role;
    if !asked.may_leave(RoleId(role)) {
        return Ok(None);
    }
    let mut n = first_of(out, role);
    while n != NO_EDGE {
        let e = &edges[n as usize];
        let junior = e.junior.0;
        if !seen[junior as usize] && asked.may_pass(n, e) {
            if asked.is_goal(e.junior) {
                return Ok(Some(n));
            }
            seen[junior as usize] = true;
            queue.push(FoundRole {
                role: junior,
                by: n,
                before: head,
            })?;
        }
        n = out.next[n as usize];
    }
    Ok(None)
}

/// The walk by which the role at this place was found, and on by the last edge.
fn walk_by(alloc: Global, queue: &[FoundRole], at: usize, last: u32) -> Result<Walk, Memory>
    requires inside { at < length queue.now }
    requires tells { HasStops queue.now }
    ensures { IfOk result (λ walk. IsWalkBy queue.now at last walk.start.0 walk.edges) }
{
    let mut numbers = Vec::with_capacity(alloc, FEW)?;
    numbers.push(last)?;
    let mut i = at;
    while queue[i].by != NO_EDGE {
        numbers.push(queue[i].by)?;
        i = queue[i].before;
    }
    numbers.reverse();
    Ok(Walk {
        start: RoleId(queue[i].role),
        edges: List::from(numbers),
    })
}
