//! Proof trees over cubes of states: how they are written, which are lawful, and their check.
#![tactic(auto)]

pub mod check;
pub mod fault;
pub mod rules;
