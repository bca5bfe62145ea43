//! Which leaves of a proof are settled, by a set and a task.
ghost use Rattle.std.specs.Prelude.{◌≡◌};
ghost use Rattle.std.specs.List.{slice_get};
ghost use Rattle.logic.specs.Kleene.{sure, refuted};
ghost use Rattle.logic.specs.Partial.{truth};
ghost use Rattle.logic.specs.Views.{partial};
ghost use Rattle.formulas.specs.Formula.{kleene};
ghost use Rattle.task.specs.Held.{model};
ghost use Rattle.judge.specs.Rules.{stays, settles as settled};
ghost use Rattle.judge.specs.Verdict.{start_answer};

use formulas::effects::successor;
use formulas::table::value;
use logic::cube::Cube;
use sets::set::StateSet;
use task::place::Task;
use trees::rules::LeafRules;

/// A set and the task that its proof is about.
#[derive(Clone, Copy)]
pub(crate) struct Leaves<'s, 't, S> {
    pub set: &'s S,
    pub task: &'t Task,
}

impl<'s, 't, S: StateSet> Leaves<'s, 't, S> {
    /// Whether the set answers inside to the task's start.
    pub(crate) fn holds_start(&self) -> bool
        ensures { result ≡ sure (start_answer (model self.now.task.now) (S.StateSet.answer self.now.set.now)) }
    {
        let start = self.task.states().at(self.task.start());
        self.set.ask(&start).is_true()
    }

    /// Whether the task's goal is false all over the cube.
    fn goal_is_false(&self, cube: &Cube) -> bool
        ensures { result ≡ refuted (kleene (truth (partial cube.now)) (model self.now.task.now).goal) }
    {
        self.task
            .goal()
            .is_none_or(|goal| value(self.task, goal as usize, cube).is_false())
    }

    /// Whether the operator applies nowhere in the cube, or leads from all of it into the set; not where there is none.
    fn operator_stays(&self, number: usize, cube: &Cube) -> bool
        ensures { result ≡ stays (S.StateSet.answer self.now.set.now) (slice_get (model self.now.task.now).operators number) (partial cube.now) }
    {
        // Kept: with `is_some_and` the proof was tried and did not close: the check met its limit of steps.
        match self.task.operator(number) {
            None => false,
            Some(operator) => {
                value(self.task, operator.precondition as usize, cube).is_false()
                    || self
                        .set
                        .ask(&successor(self.task, operator.effect as usize, cube))
                        .is_true()
            }
        }
    }
}

/// Rule 0 is the goal's, and rule i + 1 that of operator i.
impl<'s, 't, S: StateSet> LeafRules for Leaves<'s, 't, S> {
    ghost settles = { λ l. settled (S.StateSet.answer l.set.now) (model l.task.now) };

    fn is_settled(&self, rule: usize, cube: &Cube) -> bool {
        self.set.ask(cube).is_false()
            || match rule.checked_sub(1) {
                None => self.goal_is_false(cube),
                Some(number) => self.operator_stays(number, cube),
            }
    }
}
