//! Formulas and effects as tables of nodes: their rules, their values in cubes, and what effects make of cubes.
#![tactic(auto)]

pub mod effects;
pub mod names;
pub mod node;
pub mod rules;
pub mod table;
