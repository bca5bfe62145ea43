//! What can be wrong with the trees of a proof.
ghost use Rattle.trees.specs.Faults.{number_of, layer_of, place_of};

use records::{Fault, Layer};
use thiserror::Error;

/// The first fault met from left to right; `at` is its offset in the body.
#[derive(Clone, Copy, Debug, PartialEq, Eq, Error)]
pub enum TreeFault {
    /// The byte is neither a leaf nor a free variable, or the body ends inside the trees.
    #[error("the body's byte {at} is neither a leaf nor a free variable, or the body ends there")]
    BadByte { at: usize },
    /// The leaf is not settled.
    #[error("the leaf at the body's byte {at} is not settled")]
    Unsettled { at: usize },
    /// Bytes follow the last tree.
    #[error("the trees end before the body's byte {at}")]
    Trailing { at: usize },
}

impl Fault for TreeFault {
    ghost number = { number_of };

    ghost layer = { layer_of };

    ghost place = { place_of };

    fn number(&self) -> u8 {
        match self {
            Self::BadByte { .. } => 17,
            Self::Unsettled { .. } => 18,
            Self::Trailing { .. } => 19,
        }
    }

    fn layer(&self) -> Layer {
        Layer::Proof
    }

    /// The offset in the body.
    fn place(&self) -> usize {
        match self {
            Self::BadByte { at } | Self::Unsettled { at } | Self::Trailing { at } => *at,
        }
    }
}
