//! The job card: what is known of a task, and the walks on it.
#![tactic(auto)]

pub mod card;
pub mod desk;
pub mod lodging;
pub mod showing;
pub mod walking;
pub mod working;
