//! What can be wrong with a task's paper.
ghost use Rattle.std.specs.Prelude.{◌≡◌};
ghost use Rattle.task.specs.Faults.{number_of, layer_of, place_of};
ghost use Rattle.task.specs.declared.faults.TaskFault.TheVariants.{Record};

use records::{Fault, Layer, RecordFault};
use thiserror::Error;

/// The first fault of a task's paper, with the byte at which the faulty record begins.
#[derive(Clone, Copy, Debug, PartialEq, Eq, Error)]
pub enum TaskFault {
    /// The records do not make up a task's paper.
    #[error(transparent)]
    Record(RecordFault),
    /// There are no variables, more than 64, or the start has a bit beyond them.
    #[error("a task has 1 to 64 variables, and its start no bit beyond them")]
    Header { at: usize },
    /// One node more than 1,024, or one operator more than 128.
    #[error("the record at byte {at} is the 1,025th node or the 129th operator")]
    TooMany { at: usize },
    /// A node breaks a rule on tags, operands or sorts, or a root is missing or of the wrong sort.
    #[error("the record at byte {at} breaks a rule on tags, operands or sorts, or names a root that is missing or of the wrong sort")]
    BadNode { at: usize },
    /// A node is named a second time.
    #[error("the record at byte {at} names a node that is named already")]
    NamedTwice { at: usize },
}

impl Fault for TaskFault {
    ghost number = { number_of };

    ghost layer = { layer_of };

    ghost place = { place_of };

    fn number(&self) -> u8 {
        match self {
            TaskFault::Record(fault) => fault.number(),
            TaskFault::Header { .. } => 5,
            TaskFault::TooMany { .. } => 6,
            TaskFault::BadNode { .. } => 7,
            TaskFault::NamedTwice { .. } => 8,
        }
    }

    fn layer(&self) -> Layer {
        match self {
            TaskFault::Record(fault) => fault.layer(),
            TaskFault::Header { .. }
            | TaskFault::TooMany { .. }
            | TaskFault::BadNode { .. }
            | TaskFault::NamedTwice { .. } => Layer::Task,
        }
    }

    /// The byte at which the faulty record begins.
    fn place(&self) -> usize {
        match self {
            TaskFault::Record(fault) => fault.place(),
            TaskFault::Header { at }
            | TaskFault::TooMany { at }
            | TaskFault::BadNode { at }
            | TaskFault::NamedTwice { at } => *at,
        }
    }
}

// Kept: by hand, a public conversion with a contract; a derived `From` has none.
impl From<RecordFault> for TaskFault {
    ghost from_gives = { λ x y. y ≡ Record x };

    fn from(fault: RecordFault) -> TaskFault {
        TaskFault::Record(fault)
    }
}
