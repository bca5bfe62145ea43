//! The lines of a script, one after another.

/// A reader, and how many lines were read from it.
#[derive(Drop)]
pub struct Lines<R> {
    pub reader: R,
    pub count: u64,
}
