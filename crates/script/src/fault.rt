//! What is wrong with a line, and what would be right.
use std::alloc::{AllocError, AllocFailed};
use thiserror::Error;

/// Why a line is no command. It prints as what is wrong and what would be right.
#[derive(Clone, Copy, Debug, Error)]
pub enum ScriptFault<'a> {
    /// The line begins with no command's name.
    #[error("unknown command {0}: write task, open, plan, proof, begin, step, finish, give-up or card")]
    UnknownCommand(&'a str),
    /// A command has too few or too many words; the text shows how it is written.
    #[error("too few or too many words: write {0}")]
    WrongWords(&'static str),
    /// A word names no kind of cost.
    #[error("unknown kind of cost {0}: write minutes, crew or steps, or two of them joined by a comma")]
    UnknownKind(&'a str),
    /// A word begins no set.
    #[error("unknown set {0}: write list, diagram, formula, complement, meeting or joining")]
    UnknownSet(&'a str),
    /// Layers of a set stand too deep inside each other.
    #[error("a set has too many layers: write at most 1000 inside each other")]
    DeepSet,
    /// A word is no operator number.
    #[error("{0} is no operator number: write 0 to 65535")]
    NoNumber(&'a str),
    /// A paper's hexadecimal digits are odd in number, or one is none.
    #[error("bad hexadecimal {0}: write hex: and an even number of digits 0 to 9 and a to f")]
    BadHex(&'a str),
    /// The line found no memory.
    #[error("the line found no memory: write a shorter one")]
    NoMemory,
}

// Kept: both impls by hand, since a derived `From` keeps the `AllocError`, and the crate `hex` gives none where it found no memory.
impl From<AllocError> for ScriptFault<'_> {
    fn from(_error: AllocError) -> Self {
        ScriptFault::NoMemory
    }
}

impl<T: Drop> From<AllocFailed<T>> for ScriptFault<'_> {
    fn from(_refused: AllocFailed<T>) -> Self {
        ScriptFault::NoMemory
    }
}

/// A word names nothing of its sort.
#[derive(Clone, Copy, Debug, PartialEq, Eq)]
pub struct NoName;
