//! Opening a card, lodging plans and proofs upon it, and beginning a walk.
ghost use Rattle.std.specs.Prelude.{◌≡◌, ◌↔◌, [], ◌∷◌, Ok};
ghost use Rattle.planning.specs.Model.{Model};
ghost use Rattle.task.specs.Held.{model};
ghost use Rattle.plans.specs.Verdicts.{plan_verdict};
ghost use Rattle.plans.specs.Achieves.{Exact};
ghost use Rattle.judge.specs.Shown.{Shows};
ghost use Rattle.judge.specs.Verdict.{proof_verdict, Accepted};
ghost use Rattle.card.specs.Cards.{opened, better, noted, ruled, set_out};
ghost use Rattle.card.specs.History.{History, planned, proved, begun};
ghost use Rattle.card.specs.Law.{Keeps, Walks};

use crate::card::{Card, Verdict, Walk};
use costs::cost::Cost;
use judge::fault::ProofFault;
use judge::proof::judge_proof;
use plans::judge::{begin, judge_plan};
use plans::verdict::{PlanFault, Reached};
use sets::set::StateSet;
use task::place::Task;

// Kept: a card does not hold its history, so the law is a clause of each call and no invariant of the type.
impl<C: Cost> Card<C> {
    /// A card on a task, with no cost, mark or verdict: a new history begins.
    pub fn open(task: Task) -> Card<C>
        ensures after { result ≡ opened task }
        ensures law { Keeps C.Cost.kind (model task) [] result }
    {
        Card {
            task,
            cost: None,
            impossible: false,
            verdict: None,
        }
    }

    /// The cheaper of the card's cost and this one.
    fn better(&self, cost: C) -> C
        ensures { result ≡ better C.Cost.kind self.now.cost cost }
    {
        self.cost.map_or(cost, |old| old.min(cost))
    }

    /// Notes what a plan or a finished walk was answered.
    pub(crate) fn note(&mut self, answer: Result<Reached<C>, PlanFault>)
        ensures { self.new ≡ noted C.Cost.kind self.old answer }
    {
        if let Ok(reached) = &answer {
            self.cost = Some(self.better(reached.cost));
        }
        self.verdict = Some(Verdict::Plan(answer));
    }

    /// Notes what a proof was answered.
    fn rule(&mut self, answer: Result<(), ProofFault>)
        ensures { self.new ≡ ruled self.old answer }
    {
        self.impossible |= answer.is_ok();
        self.verdict = Some(Verdict::Proof(answer));
    }

    /// Lodges a plan: accepted exactly when it leads from the start to the goal, at a cost that its kind can hold.
    pub fn lodge_plan(&mut self, paper: &[u8]) -> Result<Reached<C>, PlanFault>
        ensures exact { Exact C.Cost.kind (model self.old.task) paper.now result }
        ensures answer { result ≡ plan_verdict C.Cost.kind (model self.old.task) paper.now }
        ensures after { self.new ≡ noted C.Cost.kind self.old result }
        ensures law { (m : Model) (h : History C) → Keeps C.Cost.kind m h self.old → Keeps C.Cost.kind m (planned paper.now result ∷ h) self.new }
    {
        let answer = judge_plan(&self.task, paper);
        self.note(answer);
        answer
    }

    /// Lodges a proof over a set: accepted exactly when the set holds the start and the body is lawful trees;
    /// then no sequence of operators, of whatever length, leads from the start to the goal.
    pub fn lodge_proof<S: StateSet>(&mut self, set: &S, paper: &[u8]) -> Result<(), ProofFault>
        ensures exact { (result ≡ Ok tt) ↔ Accepted (model self.old.task) (S.StateSet.answer set.now) paper.now }
        ensures sound { result ≡ Ok tt → Shows (model self.old.task) (S.StateSet.has set.now) }
        ensures answer { result ≡ proof_verdict (model self.old.task) (S.StateSet.answer set.now) paper.now }
        ensures after { self.new ≡ ruled self.old result }
        ensures law { (m : Model) (h : History C) → Keeps C.Cost.kind m h self.old → Keeps C.Cost.kind m (proved (S.StateSet.answer set.now) paper.now result ∷ h) self.new }
    {
        let answer = judge_proof(&self.task, set, paper);
        self.rule(answer);
        answer
    }

    /// Begins a walk at the start.
    pub fn begin(self) -> Walk<C>
        ensures after { result ≡ set_out C.Cost.kind self }
        ensures law { (m : Model) (h : History C) → Keeps C.Cost.kind m h self → Walks C.Cost.kind m (begun ∷ h) result }
    {
        let reached = begin(&self.task);
        Walk {
            card: self,
            reached,
        }
    }
}
