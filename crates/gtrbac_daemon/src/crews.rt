//! Workers and passes, to their posts and back.
ghost use Rattle.std.specs.Prelude.{◌≡◌, ◌+◌, ◌<◌, ◌≤◌, [], length, map, reverse, vec_len, vec_capacity};

use gt_io::{Clock, Door, Gate};
use line_server::{Post, Worker};
use turn_lock::Passes;

/// Moves each worker with its pass to a post. The last one has the first post.
pub(crate) fn man<M, D: Door, C: Clock, G: Gate>(
    passes: &mut Passes<M>,
    crew: &mut Vec<Worker<D, C, G>>,
    posts: &mut Vec<Post<M, D, C, G>>,
)
    requires empty { posts.old.items ≡ [] }
    requires pairs { length passes.old.items ≡ length crew.old.items }
    requires room { length crew.old.items ≤ vec_capacity posts.old }
    ensures passes_are { reverse (map (λ p. p.pass) posts.new.items) ≡ passes.old.items }
    ensures workers_are { reverse (map (λ p. p.worker) posts.new.items) ≡ crew.old.items }
    ensures passes_left { (passes.new.items ≡ [])
        × (passes.new.spare ≡ passes.old.spare + length passes.old.items) }
    ensures crew_left { (crew.new.items ≡ []) × (vec_capacity crew.new ≡ vec_capacity crew.old) }
{
    while let Some(pass) = passes.take() {
        let last = crew.pop();
        let Some(worker) = last else { unreachable!() };
        posts.push_reserved(Post { worker, pass });
    }
}

/// Moves workers and passes back, in their order.
pub(crate) fn relieve<M, D: Door, C: Clock, G: Gate>(
    passes: &mut Passes<M>,
    crew: &mut Vec<Worker<D, C, G>>,
    mut posts: Vec<Post<M, D, C, G>>,
)
    requires empty { (passes.old.items ≡ []) × (crew.old.items ≡ []) }
    requires passes_room { vec_len posts ≤ passes.old.spare }
    requires crew_room { vec_len posts ≤ vec_capacity crew.old }
    ensures passes_are { passes.new.items ≡ reverse (map (λ p. p.pass) posts.items) }
    ensures crew_is { crew.new.items ≡ reverse (map (λ p. p.worker) posts.items) }
{
    while let Some(post) = posts.pop() {
        let Post { worker, pass } = post;
        passes.put(pass);
        crew.push_reserved(worker);
    }
    posts.destroy_empty();
}
