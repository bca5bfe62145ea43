//! What a card shows.
ghost use Rattle.std.specs.Prelude.{◌≡◌};

use crate::card::{Card, Verdict};
use costs::cost::Cost;
use task::place::Task;

impl<C: Cost> Card<C> {
    /// The task that the card is about.
    pub fn task(&self) -> &Task
        ensures { result.now ≡ self.now.task }
    {
        &self.task
    }

    /// The least accepted cost, if a plan or a walk was accepted.
    pub fn cost(&self) -> Option<C>
        ensures { result ≡ self.now.cost }
    {
        self.cost
    }

    /// Whether a proof was accepted that no plan exists.
    pub fn impossible(&self) -> bool
        ensures { result ≡ self.now.impossible }
    {
        self.impossible
    }

    /// The latest verdict, if there is one.
    pub fn latest(&self) -> Option<Verdict<C>>
        ensures { result ≡ self.now.verdict }
    {
        self.verdict
    }
}
