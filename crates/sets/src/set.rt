//! A set of states: a width, its states, and one fixed answer to each cube.
ghost use Rattle.std.specs.Prelude.{◌≡◌, ℕ, Bool};
ghost use Rattle.logic.specs.Partial.{PartialState};
ghost use Rattle.logic.specs.Views.{partial};
ghost use Rattle.logic.specs.declared.truth.Truth.{Truth};
ghost use Rattle.sets.specs.Sets.{Laws};

use logic::cube::Cube;
use logic::truth::Truth;

/// Anything whose width, states and answers keep the laws of a set.
// Kept: each `ask` tests the cube's width itself; a provided method around a second one would give every set two.
pub trait StateSet {
    ghost wide: { Self → ℕ };

    ghost has: { Self → ℕ → Bool };

    ghost answer: { Self → PartialState → Truth };

    ghost meant: { (s : Self) → Laws (wide s) (has s) (answer s) };

    /// How many variables its states have.
    fn width(&self) -> u8
        ensures { result ≡ wide self.now };

    /// The answer to a cube.
    fn ask(&self, cube: &Cube) -> Truth
        ensures { result ≡ answer self.now (partial cube.now) };
}

/// A set that is lent is a set.
impl<'a, S: StateSet> StateSet for &'a S {
    ghost wide = { λ s. S.StateSet.wide s.now };

    ghost has = { λ s. S.StateSet.has s.now };

    ghost answer = { λ s. S.StateSet.answer s.now };

    ghost meant = { λ s. S.StateSet.meant s.now };

    fn width(&self) -> u8 {
        (**self).width()
    }

    fn ask(&self, cube: &Cube) -> Truth {
        (**self).ask(cube)
    }
}
