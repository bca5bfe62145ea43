//! A card, at rest or on a walk, and the calls that may be made on it.
use crate::card::{Card, Verdict, Walk};

/// A card at rest, or on a walk.
pub enum Desk<C> {
    Idle(Card<C>),
    Busy(Walk<C>),
}

/// A call on a card, with its set and its papers, which it owns or borrows.
#[derive(Clone, Copy, Drop)]
pub enum Call<S, P = Vec<u8>> {
    /// Lodges a plan.
    Plan(P),
    /// Lodges a proof over a set.
    Proof(S, P),
    /// Begins a walk.
    Begin,
    /// Takes a step of the walk.
    Step(u16),
    /// Finishes the walk.
    Finish,
    /// Gives the walk up.
    GiveUp,
}

/// What a call was answered.
// Kept: three answers by name, where a `Result` of an `Option` would say the same with two unnamed cases.
#[derive(Clone, Copy)]
pub enum Reply<C> {
    /// A plan, a step, a finish or a proof was judged.
    Judged(Verdict<C>),
    /// A walk was begun or given up.
    Done,
    /// The card cannot take the call as it stands: nothing was done.
    OutOfTurn,
}
