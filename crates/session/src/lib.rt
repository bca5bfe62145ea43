//! Works the lines of a script on a task place and a card, and prints what comes of each.
#![tactic(auto)]

pub mod lines;
mod loading;
mod place;
mod printing;
pub mod run;
pub mod stop;
mod table;
