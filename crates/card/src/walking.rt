//! The calls of a walk: step, finish and give up.
ghost use Rattle.std.specs.Prelude.{◌≡◌, ◌∷◌};
ghost use Rattle.planning.specs.Model.{Model};
ghost use Rattle.task.specs.Held.{model};
ghost use Rattle.plans.specs.Verdicts.{next, finished as finish_verdict};
ghost use Rattle.card.specs.Cards.{noted, moved};
ghost use Rattle.card.specs.History.{History, stepped, finished, given_up};
ghost use Rattle.card.specs.Law.{Keeps, Walks};

use crate::card::{Card, Walk};
use costs::cost::Cost;
use plans::judge::{finish, take_step};
use plans::verdict::{PlanFault, Reached};

impl<C: Cost> Walk<C> {
    /// Takes one step more; a refusal leaves the walk where it was.
    pub fn step(&mut self, operator: u16) -> Result<Reached<C>, PlanFault>
        ensures answer { result ≡ next C.Cost.kind (model self.old.card.task) self.old.reached operator }
        ensures after { self.new ≡ moved self.old result }
        ensures law { (m : Model) (h : History C) → Walks C.Cost.kind m h self.old → Walks C.Cost.kind m (stepped operator result ∷ h) self.new }
    {
        self.reached = take_step(&self.card.task, &self.reached, operator)?;
        Ok(self.reached)
    }

    /// Finishes the walk: the card comes back, judged as the plan of the accepted steps would be.
    pub fn finish(self) -> (Card<C>, Result<Reached<C>, PlanFault>)
        ensures answer { result.1 ≡ finish_verdict (model self.card.task) self.reached }
        ensures after { result.0 ≡ noted C.Cost.kind self.card result.1 }
        ensures law { (m : Model) (h : History C) → Walks C.Cost.kind m h self → Keeps C.Cost.kind m (finished result.1 ∷ h) result.0 }
    {
        let Walk { mut card, reached } = self;
        let answer = finish(&card.task, reached);
        card.note(answer);
        (card, answer)
    }

    /// Gives the walk up: the card comes back as it was.
    pub fn give_up(self) -> Card<C>
        ensures after { result ≡ self.card }
        ensures law { (m : Model) (h : History C) → Walks C.Cost.kind m h self → Keeps C.Cost.kind m (given_up ∷ h) result }
    {
        let Walk { card, reached: _ } = self;
        card
    }

    /// The card as it was before the walk.
    pub fn card(&self) -> &Card<C>
        ensures { result.now ≡ self.now.card }
    {
        &self.card
    }
}
