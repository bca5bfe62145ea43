//! Costs that are numbers.
ghost use Rattle.std.specs.Prelude.{◌≡◌, ℕ, Option, Some, decimal};
ghost use Rattle.costs.specs.declared.amount.Amount.{Amount};
ghost use Rattle.costs.specs.Kind.{Kind};
ghost use Rattle.costs.specs.Kinds.{counted, kind_ordered, kind_compared};

use crate::cost::Cost;
use std::fmt;
use std::marker::PhantomData;

/// What is counted, and how two counts are put together.
pub trait Quantity {
    /// The count of an operator that takes these minutes and this crew.
    ghost one: { ℕ → ℕ → ℕ };

    /// Both counts together, unless they are refused.
    ghost together: { ℕ → ℕ → Option ℕ };

    /// What kind of cost the count is.
    ghost kind: { Kind (Amount Self) };

    /// That kind counts an operator and puts two counts together by these.
    ghost counts: { kind ≡ counted one together };

    /// The count of an operator that takes these minutes and this crew.
    fn of(minutes: u32, crew: u32) -> u32
        ensures { result ≡ one minutes crew };

    /// Both counts together, or a refusal where no count is large enough.
    fn join(first: u32, second: u32) -> Option<u32>
        ensures { result ≡ together first second };
}

/// A cost that counts a quantity.
#[derive_where(Clone, Copy, PartialEq, Eq, PartialOrd, Ord)]
pub struct Amount<Q> {
    pub count: u32,
    pub of: PhantomData<Q>,
}

impl<Q> From<u32> for Amount<Q> {
    ghost from_gives = { λ x y. y.count ≡ x };

    fn from(count: u32) -> Amount<Q> {
        Amount {
            count,
            of: PhantomData,
        }
    }
}

impl<Q: Quantity> Cost for Amount<Q> {
    ghost kind = { Q.kind };

    ghost ordered = { kind_ordered Q.one Q.together Q.counts };

    ghost compared = { kind_compared Q.one Q.together Q.counts };

    fn zero() -> Amount<Q> {
        Amount::from(0)
    }

    fn of(minutes: u32, crew: u32) -> Amount<Q> {
        Amount::from(Q::of(minutes, crew))
    }

    fn join(self, other: Amount<Q>) -> Option<Amount<Q>> {
        let count = Q::join(self.count, other.count)?;
        Some(Amount::from(count))
    }
}

// Kept: by hand, since its contract says what is printed, and no derive gives one.
impl<Q> fmt::Display for Amount<Q> {
    ghost output = { λ cost. Some (decimal cost.count) };

    fn fmt<W: fmt::Write>(&self, f: &mut fmt::Formatter<W>) -> fmt::Result {
        write!(f, "{}", self.count)
    }
}
