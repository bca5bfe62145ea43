//! Kinds of cost, each with an order that is shown to be total.
#![tactic(auto)]

pub mod amount;
pub mod cost;
pub mod kinds;
mod pair;
