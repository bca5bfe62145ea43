//! The three truth values of Kleene's strong logic.
ghost use Rattle.std.specs.Prelude.{◌≡◌};
ghost use Rattle.logic.specs.Kleene.{not3, and3, or3, given, sure, refuted};

/// A formula's truth in a cube: it holds in none of the states, in some perhaps, or in all. And what a set answers to a
/// cube: none of its states is in the set, the set does not say, or all are. The falser is the less.
// Kept: no `Option<bool>`, whose order has the open below both others, so that and, or would not be the lesser, the greater.
#[derive(Clone, Copy, PartialEq, Eq, PartialOrd, Ord, Debug)]
pub enum Truth {
    False,
    Open,
    True,
}

/// The truth of what has a value.
impl From<bool> for Truth {
    ghost from_gives = { λ value truth. truth ≡ given value };

    fn from(value: bool) -> Truth {
        if value { Truth::True } else { Truth::False }
    }
}

impl Truth {
    /// Whether it is true for certain.
    pub fn is_true(self) -> bool
        ensures { result ≡ sure self }
    {
        self == Truth::True
    }

    /// Whether it is false for certain.
    pub fn is_false(self) -> bool
        ensures { result ≡ refuted self }
    {
        self == Truth::False
    }

    /// Kleene's and: the falser of the two.
    // Not in line: LLVM would take the calls of a formula's evaluation for a running total, which makes each dearer.
    #[inline(never)]
    pub fn and(self, other: Truth) -> Truth
        ensures { result ≡ and3 self other }
    {
        self.min(other)
    }

    /// Kleene's or: the truer of the two.
    // Not in line: LLVM would take the calls of a formula's evaluation for a running total, which makes each dearer.
    #[inline(never)]
    pub fn or(self, other: Truth) -> Truth
        ensures { result ≡ or3 self other }
    {
        self.max(other)
    }

    /// Kleene's not.
    pub fn not(self) -> Truth
        ensures { result ≡ not3 self }
    {
        match self {
            Truth::True => Truth::False,
            Truth::False => Truth::True,
            Truth::Open => Truth::Open,
        }
    }
}
