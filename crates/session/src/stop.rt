//! Why a run ends before its script does.
use script::fault::ScriptFault;
use std::alloc::{AllocError, Global};
use std::io;
use thiserror::Error;

/// What ends a run. It prints as what is wrong and what would be right.
#[derive(Debug, Drop, Error)]
pub enum Stop {
    /// A line is no command, or names a file that cannot be read.
    #[error("{0}")]
    Line(String),
    /// The command wants a card, and none is open.
    #[error("no card is open: write open KIND first")]
    NoCard,
    /// The command wants a walk, and none is under way.
    #[error("no walk is under way: write begin first")]
    NoWalk,
    /// The command wants a card at rest, and a walk is under way.
    #[error("a walk is under way: write step, finish, give-up or card")]
    Walking,
    /// A line cannot be read, or the output cannot be written.
    #[error(transparent)]
    Io(#[from] io::Error),
    /// There is no memory.
    #[error("there is no memory left: work a smaller script")]
    NoMemory(#[from(alloc)] AllocError),
}

impl Stop {
    /// A line that is no command.
    pub(crate) fn line(heap: Global, fault: &ScriptFault<'_>) -> Stop {
        format!(in heap; "{fault}").map_or_else(Stop::from, Stop::Line)
    }
}
