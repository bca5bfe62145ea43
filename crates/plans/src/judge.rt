//! Judging plans, step by step.
ghost use Rattle.std.specs.Prelude.{◌≡◌};
ghost use Rattle.task.specs.Held.{model};
ghost use Rattle.plans.specs.Verdicts.{next, run, begin, finished, steps_in, plan_verdict};
ghost use Rattle.plans.specs.Achieves.{Exact};

use crate::verdict::{PlanFault, Reached};
use costs::cost::Cost;
use records::{PaperKind, single};
use task::place::Task;
use task::stepping::StepFault;

/// No plan has more steps.
const LONGEST: u16 = 4096;

/// Where a plan begins: the task's start, after no steps, at no cost.
pub fn begin<C: Cost>(task: &Task) -> Reached<C>
    ensures { result ≡ begin C.Cost.kind (model task.now) }
{
    Reached {
        state: task.start(),
        steps: 0,
        cost: C::zero(),
    }
}

/// Takes one step more.
pub fn take_step<C: Cost>(
    task: &Task,
    from: &Reached<C>,
    operator: u16,
) -> Result<Reached<C>, PlanFault>
    ensures { result ≡ next C.Cost.kind (model task.now) from.now operator }
{
    let step = from.steps;
    if step >= LONGEST {
        return Err(PlanFault::TooManySteps);
    }
    let arrival = task
        .step(operator, from.state)
        .map_err(|fault| match fault {
            StepFault::Missing => PlanFault::NoOperator { step },
            StepFault::Inapplicable => PlanFault::Inapplicable { step },
        })?;
    let price = C::of(arrival.minutes, arrival.crew);
    let cost = from
        .cost
        .join(price)
        .ok_or(PlanFault::CostRefused { step })?;
    Ok(Reached {
        state: arrival.state,
        steps: step + 1,
        cost,
    })
}

/// Takes the steps that a plan's body lists.
fn take_steps<C: Cost>(task: &Task, body: &[u8]) -> Result<Reached<C>, PlanFault>
    ensures { result ≡ run C.Cost.kind (model task.now) (begin C.Cost.kind (model task.now)) (steps_in body.now) }
{
    let mut reached = begin(task);
    let (steps, _) = body.as_chunks::<2>();
    for operator in steps {
        reached = take_step(task, &reached, u16::from_le_bytes(*operator))?;
    }
    Ok(reached)
}

/// Whether a plan's end is the goal.
pub fn finish<C: Cost>(task: &Task, reached: Reached<C>) -> Result<Reached<C>, PlanFault>
    ensures { result ≡ finished (model task.now) reached }
{
    if task.at_goal(reached.state) {
        Ok(reached)
    } else {
        Err(PlanFault::GoalFalse {
            steps: reached.steps,
        })
    }
}

/// What a plan's paper earns.
fn plan_verdict<C: Cost>(task: &Task, paper: &[u8]) -> Result<Reached<C>, PlanFault>
    ensures { result ≡ plan_verdict C.Cost.kind (model task.now) paper.now }
{
    let body = single(paper, PaperKind::Plan)?;
    if body.len() / 2 > LONGEST as usize {
        return Err(PlanFault::TooManySteps);
    }
    finish(task, take_steps(task, body)?)
}

/// Judges a plan's paper: accepted exactly when it leads from the start to the goal.
pub fn judge_plan<C: Cost>(task: &Task, paper: &[u8]) -> Result<Reached<C>, PlanFault>
    ensures verdict { result ≡ plan_verdict C.Cost.kind (model task.now) paper.now }
    ensures exact { Exact C.Cost.kind (model task.now) paper.now result }
{
    plan_verdict(task, paper)
}
