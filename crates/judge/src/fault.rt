//! What can be wrong with a proof.
ghost use Rattle.std.specs.Prelude.{◌≡◌};
ghost use Rattle.judge.specs.Faults.{number_of, layer_of, place_of};
ghost use Rattle.judge.specs.declared.fault.ProofFault.TheVariants.{Record, Tree};

use records::{Fault, Layer, RecordFault};
use thiserror::Error;
use trees::fault::TreeFault;

/// The first fault of a proof.
#[derive(Clone, Copy, Debug, PartialEq, Eq, Error)]
pub enum ProofFault {
    /// The paper is not one record of a proof.
    #[error(transparent)]
    Record(RecordFault),
    /// The set does not answer inside to the start.
    #[error("the set does not answer inside to the start")]
    StartNotInside,
    /// The trees are at fault.
    #[error(transparent)]
    Tree(TreeFault),
}

impl Fault for ProofFault {
    ghost number = { number_of };

    ghost layer = { layer_of };

    ghost place = { place_of };

    fn number(&self) -> u8 {
        match self {
            ProofFault::Record(fault) => fault.number(),
            ProofFault::StartNotInside => 16,
            ProofFault::Tree(fault) => fault.number(),
        }
    }

    fn layer(&self) -> Layer {
        match self {
            ProofFault::Record(fault) => fault.layer(),
            ProofFault::StartNotInside => Layer::Proof,
            ProofFault::Tree(fault) => fault.layer(),
        }
    }

    /// The byte of the paper at which a record begins, or the offset in the body; 0 for the start.
    fn place(&self) -> usize {
        match self {
            ProofFault::Record(fault) => fault.place(),
            ProofFault::StartNotInside => 0,
            ProofFault::Tree(fault) => fault.place(),
        }
    }
}

// Kept: by hand, a public conversion with a contract; a derived `From` has none.
impl From<RecordFault> for ProofFault {
    ghost from_gives = { λ x y. y ≡ Record x };

    fn from(fault: RecordFault) -> ProofFault {
        ProofFault::Record(fault)
    }
}

// Kept: by hand, a public conversion with a contract; a derived `From` has none.
impl From<TreeFault> for ProofFault {
    ghost from_gives = { λ x y. y ≡ Tree x };

    fn from(fault: TreeFault) -> ProofFault {
        ProofFault::Tree(fault)
    }
}
