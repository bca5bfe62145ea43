//! Three-valued logic, and cubes of states on whole words.
#![tactic(auto)]

pub mod change;
pub mod cube;
pub mod state;
pub mod truth;
