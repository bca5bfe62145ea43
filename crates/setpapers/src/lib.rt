//! Sets of states read where their papers lie: lists, decision diagrams and formulas.
#![tactic(auto)]

pub mod diagram;
pub mod entry;
pub mod fault;
pub mod formula;
pub mod kind;
pub mod list;
pub mod read_set;
