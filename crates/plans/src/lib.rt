//! Judges plans: sequences of operators from the start to the goal.
#![tactic(auto)]

pub mod judge;
pub mod verdict;
