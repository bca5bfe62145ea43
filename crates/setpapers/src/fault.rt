//! Why a paper is no set of its kind.
ghost use Rattle.std.specs.Prelude.{◌≡◌};
ghost use Rattle.setpapers.specs.declared.fault.SetFault.TheVariants.{Record as InRecord};
ghost use Rattle.setpapers.specs.Faults.{number_of, layer_of, place_of};

use records::{Fault, Layer, RecordFault};
use thiserror::Error;

/// A set paper is one record, has at most 1,024 entries, and each keeps its kind's rules.
#[derive(Clone, Copy, Debug, PartialEq, Eq, Error)]
pub enum SetFault {
    /// The paper's records are at fault.
    #[error(transparent)]
    Record(RecordFault),
    /// There are more than 1,024 entries.
    #[error("a set paper has at most 1,024 entries")]
    TooMany,
    /// The entry breaks a rule, or is missing.
    #[error("entry {entry} of the set paper breaks a rule of its kind, or is missing")]
    BadEntry { entry: usize },
}

// Kept: by hand, a public conversion with a contract; a derived `From` has none.
impl From<RecordFault> for SetFault {
    ghost from_gives = { λ cause fault. fault ≡ InRecord cause };

    fn from(cause: RecordFault) -> SetFault {
        SetFault::Record(cause)
    }
}

impl Fault for SetFault {
    ghost number = { number_of };

    ghost layer = { layer_of };

    ghost place = { place_of };

    fn number(&self) -> u8 {
        match self {
            SetFault::Record(fault) => fault.number(),
            SetFault::TooMany => 14,
            SetFault::BadEntry { .. } => 15,
        }
    }

    fn layer(&self) -> Layer {
        match self {
            SetFault::Record(fault) => fault.layer(),
            SetFault::TooMany | SetFault::BadEntry { .. } => Layer::Set,
        }
    }

    /// The byte at which the record begins, or the entry's number.
    fn place(&self) -> usize {
        match self {
            SetFault::Record(fault) => fault.place(),
            SetFault::TooMany => 1024,
            SetFault::BadEntry { entry } => *entry,
        }
    }
}
