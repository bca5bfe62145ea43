//! Which variables an effect sets and clears, for certain or perhaps.
ghost use Rattle.std.specs.Prelude.{◌≡◌, ℕ, ◌==◌};
ghost use Rattle.logic.specs.declared.truth.Truth.{Truth};
ghost use Rattle.logic.specs.declared.truth.Truth.TheVariants.{False, Open};
ghost use Rattle.logic.specs.Kleene.{and3, or3, given};
ghost use Rattle.logic.specs.Masks.{Stands, Alters};

/// Some variables for certain, and some perhaps, as words: bit v of `must`, and of `may`.
#[derive(Clone, Copy)]
pub struct Mask {
    pub must: u64,
    pub may: u64,
}

/// The variables that are set and those that are cleared.
#[derive(Clone, Copy)]
pub struct Change {
    pub set: Mask,
    pub clear: Mask,
}

impl Mask {
    /// No variable.
    pub fn none() -> Mask
        ensures { Stands result (λ u. False) }
    {
        Mask { must: 0, may: 0 }
    }

    /// The variable `v` for certain; none where a word has no such bit.
    pub fn one(v: u8) -> Mask
        ensures { Stands result (λ u. given (u == v)) }
    {
        let bit = if v < 64 { 1 << v } else { 0 };
        Mask {
            must: bit,
            may: bit,
        }
    }

    /// The variables of either.
    pub fn or(self, other: Mask) -> Mask
        ensures { (s t : ℕ → Truth) → Stands self s → Stands other t → Stands result (λ u. or3 (s u) (t u)) }
    {
        Mask {
            must: self.must | other.must,
            may: self.may | other.may,
        }
    }

    /// The same variables, each only perhaps.
    pub fn perhaps(self) -> Mask
        ensures { (s : ℕ → Truth) → Stands self s → Stands result (λ u. and3 Open (s u)) }
    {
        Mask {
            must: 0,
            may: self.may,
        }
    }
}

impl Change {
    /// No variable is set or cleared.
    pub fn none() -> Change
        ensures { Alters result (λ u. False) (λ u. False) }
    {
        let no_variable = Mask::none();
        Change {
            set: no_variable,
            clear: no_variable,
        }
    }

    /// The variable `v` is set.
    pub fn set(v: u8) -> Change
        ensures { Alters result (λ u. given (u == v)) (λ u. False) }
    {
        Change {
            set: Mask::one(v),
            clear: Mask::none(),
        }
    }

    /// The variable `v` is cleared.
    pub fn clear(v: u8) -> Change
        ensures { Alters result (λ u. False) (λ u. given (u == v)) }
    {
        Change {
            set: Mask::none(),
            clear: Mask::one(v),
        }
    }

    /// What either sets is set, and what either clears is cleared.
    pub fn or(self, other: Change) -> Change
        ensures { (s k t l : ℕ → Truth) → Alters self s k → Alters other t l → Alters result (λ u. or3 (s u) (t u)) (λ u. or3 (k u) (l u)) }
    {
        Change {
            set: self.set.or(other.set),
            clear: self.clear.or(other.clear),
        }
    }

    /// The same change, made only perhaps.
    pub fn perhaps(self) -> Change
        ensures { (s k : ℕ → Truth) → Alters self s k → Alters result (λ u. and3 Open (s u)) (λ u. and3 Open (k u)) }
    {
        Change {
            set: self.set.perhaps(),
            clear: self.clear.perhaps(),
        }
    }
}
