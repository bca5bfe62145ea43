//! What a cube says of a variable and of a state.
ghost use Rattle.std.specs.Prelude.{◌≡◌};
ghost use Rattle.logic.specs.Partial.{is_free, truth, holds_state, free_count};
ghost use Rattle.logic.specs.Views.{partial};

use crate::cube::Cube;
use crate::cube::words::has;
use crate::truth::Truth;

impl Cube {
    /// How many variables its states have.
    pub fn width(&self) -> u8
        ensures { result ≡ (partial self.now).width }
    {
        self.width
    }

    /// The variables that are known to be true; of a cube of one state, that state.
    pub fn values(&self) -> u64
        ensures { result ≡ (partial self.now).value }
    {
        self.value
    }

    /// The truth of the variable `v`; one beyond the width is open.
    pub fn truth_of(&self, v: u8) -> Truth
        ensures { result ≡ truth (partial self.now) v }
    {
        if v >= self.width || !has(self.known, v) {
            return Truth::Open;
        }
        Truth::from(has(self.value, v))
    }

    /// Whether `v` is a variable of the width that the cube leaves free.
    pub fn is_free(&self, v: u8) -> bool
        ensures { result ≡ is_free (partial self.now) v }
    {
        v < self.width && !has(self.known, v)
    }

    /// Whether the word agrees with the cube's values on its known bits.
    pub fn agrees(&self, state: u64) -> bool
        ensures { result ≡ holds_state (partial self.now) state }
    {
        state & self.known == self.value
    }

    /// How many variables are free.
    pub fn free_count(&self) -> u32
        ensures { result ≡ free_count (partial self.now) }
    {
        u32::from(self.width) - self.known.count_ones()
    }
}
