//! Judges proofs: sets of states that hold every reachable state and no goal state, with the trees that show it.
#![tactic(auto)]

pub mod fault;
mod leaves;
pub mod proof;
