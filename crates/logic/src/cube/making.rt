//! Making cubes: all states, one state, the halves of a split, a variable freed, a change applied.
ghost use Rattle.std.specs.Prelude.{◌≡◌, ℕ, ◌%◌, ◌^◌, ◌<◌, ◌≤◌, true, false, MatchOption};
ghost use Rattle.logic.specs.declared.truth.Truth.{Truth};
ghost use Rattle.logic.specs.Masks.{Alters};
ghost use Rattle.logic.specs.Partial.{whole, single, is_free, lower, upper, freed, changed};
ghost use Rattle.logic.specs.Views.{partial};

use crate::change::Change;
use crate::cube::Cube;
use crate::cube::words::{ones, without};

impl Cube {
    /// All states of a width; none where a word has fewer bits.
    pub fn all(width: u8) -> Option<Cube>
        ensures { MatchOption result (64 < width) (λ c. (width ≤ 64) × (partial c ≡ whole width)) }
    {
        if width > 64 {
            return None;
        }
        Some(Cube {
            width,
            known: 0,
            value: 0,
        })
    }

    /// The one state of this cube's width whose variables are the lowest bits of `state`.
    pub fn at(&self, state: u64) -> Cube
        ensures { partial result ≡ single self.now.width (state % 2 ^ self.now.width) }
    {
        let full = ones(self.width);
        Cube {
            width: self.width,
            known: full,
            value: state & full,
        }
    }

    /// The halves of the cube, where `v` is false and where it is true; none where `v` is not free.
    pub fn split(self, v: u8) -> Option<(Cube, Cube)>
        ensures { MatchOption result (is_free (partial self) v ≡ false) (λ p. (is_free (partial self) v ≡ true) × (partial p.0 ≡ lower (partial self) v) × (partial p.1 ≡ upper (partial self) v)) }
    {
        if !self.is_free(v) {
            return None;
        }
        let bit = 1u64 << v;
        let known = self.known | bit;
        let low = Cube {
            width: self.width,
            known,
            value: self.value,
        };
        let high = Cube {
            width: self.width,
            known,
            value: self.value | bit,
        };
        Some((low, high))
    }

    /// The cube in which `v` is free, and every other variable as it was.
    pub fn free(self, v: u8) -> Cube
        ensures { partial result ≡ freed (partial self) v }
    {
        if v >= 64 {
            return self;
        }
        Cube {
            width: self.width,
            known: without(self.known, v),
            value: without(self.value, v),
        }
    }

    /// The cube after a change: a variable is true if it is set, or was true and is not cleared.
    pub fn apply(&self, change: &Change) -> Cube
        ensures { (s k : ℕ → Truth) → Alters change.now s k → partial result ≡ changed (partial self.now) s k }
    {
        let full = ones(self.width);
        let value = (change.set.must | self.value & !change.clear.may) & full;
        let untrue = !change.set.may & (self.known & !self.value | change.clear.must);
        let known = (value | untrue) & full;
        Cube {
            width: self.width,
            known,
            value,
        }
    }
}
