//! A card, a card on a walk, and the latest verdict.
use judge::fault::ProofFault;
use plans::verdict::{PlanFault, Reached};
use task::place::Task;

/// What a plan, a step, a finished walk or a proof was answered.
#[derive(Clone, Copy)]
pub enum Verdict<C> {
    /// Where a plan or a walk leads, if it was accepted.
    Plan(Result<Reached<C>, PlanFault>),
    /// Whether a proof was accepted: then no plan exists.
    Proof(Result<(), ProofFault>),
}

/// A task, the least accepted cost, whether a proof was accepted that no plan exists, and the latest verdict.
#[derive(Drop)]
pub struct Card<C> {
    pub(crate) task: Task,
    pub(crate) cost: Option<C>,
    pub(crate) impossible: bool,
    pub(crate) verdict: Option<Verdict<C>>,
}

/// A card on a walk: where its accepted steps lead. It is finished or given up, and never let go.
pub struct Walk<C> {
    pub(crate) card: Card<C>,
    pub(crate) reached: Reached<C>,
}
