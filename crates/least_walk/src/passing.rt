//! Which edges of a graph may be used.
ghost use Rattle.std.specs.Prelude.{◌≡◌, ℕ, Bool};

/// Tells which edges are open, by their numbers.
pub trait Passable {
    ghost passes: { Self → ℕ → Bool };

    /// Whether the edge of this number is open.
    fn may_pass(&self, n: u32) -> bool
        ensures { result ≡ passes self.now n };
}

/// Each edge is open.
pub(crate) struct Everywhere;

impl Passable for Everywhere {
    ghost use Rattle.least_walk.specs.Net.{every};

    ghost passes = { λ _. every };

    fn may_pass(&self, _n: u32) -> bool {
        true
    }
}
