//! The smallest set of its own kind: one state.
ghost use Rattle.std.specs.Prelude.{◌≡◌, ℕ, Bool};
ghost use Rattle.sets.specs.Points.{point_has, point_answer, point_laws};

use crate::set::StateSet;
use logic::cube::Cube;
use logic::truth::Truth;

/// One state of a width; a word with a bit from the width up is no state, and the set is empty.
/// It says nothing of a cube that has free variables.
#[derive(Clone, Copy)]
pub struct Point {
    pub width: u8,
    pub state: u64,
}

impl StateSet for Point {
    ghost wide = { λ s. s.width };

    ghost has = { λ s. point_has s.width s.state };

    ghost answer = { λ s. point_answer s.width s.state };

    ghost meant = { λ s. point_laws s.width s.state };

    fn width(&self) -> u8 {
        self.width
    }

    fn ask(&self, cube: &Cube) -> Truth {
        if cube.width() != self.width {
            Truth::False
        } else if cube.free_count() != 0 {
            Truth::Open
        } else {
            Truth::from(cube.values() == self.state)
        }
    }
}
