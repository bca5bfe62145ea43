//! The command language of the program: lines into commands.
#![tactic(auto)]

pub mod command;
pub mod fault;
pub mod kind;
pub mod paper;
pub mod set;
