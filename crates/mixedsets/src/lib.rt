//! Sets of mixed kinds: set papers told apart by a tag, borrowed or owned, and layers over them, nested as they come.
#![tactic(auto)]

pub mod layered;
pub mod owned;
pub mod paper;
