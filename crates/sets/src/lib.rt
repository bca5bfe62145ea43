//! Sets of states, asked by cubes, and the layers over them.
#![tactic(auto)]

pub mod layers;
pub mod point;
pub mod set;
