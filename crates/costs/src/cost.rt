//! What a plan may cost.
ghost use Rattle.std.specs.Prelude.{◌≡◌};
ghost use Rattle.std.specs.Ordering.{is_le};
ghost use Rattle.costs.specs.Kind.{Kind, Ordered};

/// A kind of cost: a zero, the cost of an operator, joining, and an order.
pub trait Cost: Copy + Ord {
    /// What the kind's zero, operators, joining and order are.
    ghost kind: { Kind Self };

    /// The order is total: any two costs are comparable, it is transitive, and two costs each at most the other are the same.
    ghost ordered: { Ordered kind };

    /// The cost of the empty plan.
    fn zero() -> Self
        ensures { result ≡ kind.zero };

    // Kept: two numbers, as an operator's record has them; a struct would make tasks depend on costs for two fields.
    /// The cost of an operator that takes these minutes and this crew.
    fn of(minutes: u32, crew: u32) -> Self
        ensures { result ≡ kind.one minutes crew };

    /// Both costs together, or a refusal where no cost of this kind is large enough.
    fn join(self, other: Self) -> Option<Self>
        ensures { result ≡ kind.join self other };

    /// Whether this cost is no larger than the other.
    final fn at_most(&self, other: &Self) -> bool
        ensures { result ≡ kind.le self.now other.now }
    {
        self <= other
    }

    /// The order that costs are compared by is the kind's.
    ghost compared: { (a b : Self) → is_le (Self.cmp a b) ≡ kind.le a b };
}
