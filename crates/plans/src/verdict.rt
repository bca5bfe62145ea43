//! What a judge of plans answers.
ghost use Rattle.std.specs.Prelude.{◌≡◌};
ghost use Rattle.plans.specs.Faults.{number_of, layer_of, place_of};
ghost use Rattle.plans.specs.declared.verdict.PlanFault.TheVariants.{Record};

use records::{Fault, Layer, RecordFault};
use thiserror::Error;

/// Where a plan leads, in how many steps, and at what cost.
#[derive(Clone, Copy)]
pub struct Reached<C> {
    pub state: u64,
    pub steps: u16,
    pub cost: C,
}

/// The first fault of a plan, with the step at fault, counted from 0.
#[derive(Clone, Copy, Debug, PartialEq, Eq, Error)]
pub enum PlanFault {
    /// The paper is not one record of a plan.
    #[error(transparent)]
    Record(RecordFault),
    /// There are more than 4,096 steps.
    #[error("a plan has at most 4,096 steps")]
    TooManySteps,
    /// There is no operator of that number.
    #[error("step {step} names an operator that the task does not have")]
    NoOperator { step: u16 },
    /// The operator's precondition is false in the state reached.
    #[error("the precondition of the operator at step {step} is false in the state reached")]
    Inapplicable { step: u16 },
    /// The cost so far and the operator's cannot be joined.
    #[error("the cost after step {step} is beyond the largest that its kind can hold")]
    CostRefused { step: u16 },
    /// The goal is false after the last step.
    #[error("the goal is false after the last of {steps} steps")]
    GoalFalse { steps: u16 },
}

impl Fault for PlanFault {
    ghost number = { number_of };

    ghost layer = { layer_of };

    ghost place = { place_of };

    fn number(&self) -> u8 {
        match self {
            PlanFault::Record(fault) => fault.number(),
            PlanFault::TooManySteps => 9,
            PlanFault::NoOperator { .. } => 10,
            PlanFault::Inapplicable { .. } => 11,
            PlanFault::CostRefused { .. } => 12,
            PlanFault::GoalFalse { .. } => 13,
        }
    }

    fn layer(&self) -> Layer {
        match self {
            PlanFault::Record(fault) => fault.layer(),
            PlanFault::TooManySteps
            | PlanFault::NoOperator { .. }
            | PlanFault::Inapplicable { .. }
            | PlanFault::CostRefused { .. }
            | PlanFault::GoalFalse { .. } => Layer::Plan,
        }
    }

    /// The record's byte, the most steps, the step at fault, or how many steps there are.
    fn place(&self) -> usize {
        match self {
            PlanFault::Record(fault) => fault.place(),
            PlanFault::TooManySteps => 4096,
            PlanFault::NoOperator { step }
            | PlanFault::Inapplicable { step }
            | PlanFault::CostRefused { step } => *step as usize,
            PlanFault::GoalFalse { steps } => *steps as usize,
        }
    }
}

// Kept: by hand, a public conversion with a contract; a derived `From` has none.
impl From<RecordFault> for PlanFault {
    ghost from_gives = { λ x y. y ≡ Record x };

    fn from(fault: RecordFault) -> PlanFault {
        PlanFault::Record(fault)
    }
}
