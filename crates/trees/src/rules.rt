//! Which leaves are settled.
ghost use Rattle.std.specs.Prelude.{◌≡◌, ℕ, Bool};
ghost use Rattle.logic.specs.Partial.{PartialState};
ghost use Rattle.logic.specs.Views.{partial};

use logic::cube::Cube;

/// The rules of a proof's trees, one for each, by their numbers.
// Kept: a trait over numbers, by which the theorems count the trees; an `impl Fn` would put a `requires` on `check_body`.
pub trait LeafRules {
    ghost settles: { Self → ℕ → PartialState → Bool };

    /// Whether the rule settles a leaf with this cube.
    fn is_settled(&self, rule: usize, cube: &Cube) -> bool
        ensures { result ≡ settles self.now rule (partial cube.now) };
}
