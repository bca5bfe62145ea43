//! Planning tasks: read from their papers into a place with room for the largest, and run.
#![tactic(auto)]

pub mod entries;
pub mod faults;
mod kind;
pub mod place;
mod stage;
pub mod stepping;
