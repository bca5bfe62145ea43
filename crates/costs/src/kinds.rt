//! The kinds of cost: minutes, crew, steps, and a pair of any two kinds.
ghost use Rattle.std.specs.Prelude.{refl};
ghost use Rattle.costs.specs.Kinds.{summed, larger, minutes, crew, steps};

use crate::amount::{Amount, Quantity};
pub use crate::pair::Pair;

/// Minutes of work, summed.
pub type Minutes = Amount<OfMinutes>;

/// People needed at once: the larger of two.
pub type Crew = Amount<OfCrew>;

/// Steps of a plan: 1 for each operator, summed.
pub type Steps = Amount<OfSteps>;

/// Counts minutes.
pub struct OfMinutes;

/// Counts people.
pub struct OfCrew;

/// Counts operators.
pub struct OfSteps;

impl Quantity for OfMinutes {
    ghost one = { λ m c. m };

    ghost together = { summed };

    ghost kind = { minutes };

    ghost counts = { refl };

    fn of(minutes: u32, _crew: u32) -> u32 {
        minutes
    }

    fn join(first: u32, second: u32) -> Option<u32> {
        first.checked_add(second)
    }
}

impl Quantity for OfCrew {
    ghost one = { λ m c. c };

    ghost together = { larger };

    ghost kind = { crew };

    ghost counts = { refl };

    fn of(_minutes: u32, crew: u32) -> u32 {
        crew
    }

    fn join(first: u32, second: u32) -> Option<u32> {
        Some(first.max(second))
    }
}

// Kept: `join` as minutes have it, since a default body cannot be proved for a `together` that is not known.
impl Quantity for OfSteps {
    ghost one = { λ m c. 1 };

    ghost together = { summed };

    ghost kind = { steps };

    ghost counts = { refl };

    fn of(_minutes: u32, _crew: u32) -> u32 {
        1
    }

    fn join(first: u32, second: u32) -> Option<u32> {
        first.checked_add(second)
    }
}
