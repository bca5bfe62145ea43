//! Pairs of costs.
ghost use Rattle.costs.specs.Kinds.{pair, pair_ordered, pair_compared};
ghost use Rattle.costs.specs.Printed.{parted};

use crate::cost::Cost;
use std::fmt;

/// Two costs, joined part by part, and ordered by the first part and then the second.
#[derive(Clone, Copy, PartialEq, Eq, PartialOrd, Ord)]
pub struct Pair<A, B> {
    pub first: A,
    pub second: B,
}

impl<A: Cost, B: Cost> Cost for Pair<A, B> {
    ghost kind = { pair A.Cost.kind B.Cost.kind };

    ghost ordered = { pair_ordered A.Cost.ordered B.Cost.ordered };

    ghost compared = { pair_compared A.Cost.kind B.Cost.kind A.cmp B.cmp A.Ord.total A.Cost.compared B.Cost.compared };

    fn zero() -> Pair<A, B> {
        Pair {
            first: A::zero(),
            second: B::zero(),
        }
    }

    fn of(minutes: u32, crew: u32) -> Pair<A, B> {
        Pair {
            first: A::of(minutes, crew),
            second: B::of(minutes, crew),
        }
    }

    fn join(self, other: Pair<A, B>) -> Option<Pair<A, B>> {
        let first = self.first.join(other.first)?;
        let second = self.second.join(other.second)?;
        Some(Pair { first, second })
    }
}

// Kept: by hand, since its contract says what is printed, and no derive gives one.
impl<A: fmt::Display, B: fmt::Display> fmt::Display for Pair<A, B> {
    ghost output = { λ cost. parted (A.Display.output cost.first) (B.Display.output cost.second) };

    fn fmt<W: fmt::Write>(&self, f: &mut fmt::Formatter<W>) -> fmt::Result {
        write!(f, "{},{}", self.first, self.second)
    }
}
