//! A cube: all states of a width that agree with its values on its known variables.
ghost use Rattle.std.specs.Prelude.{◌≡◌, ◌^◌, ◌<◌, ◌≤◌, bit_and};

pub mod asking;
pub mod making;
mod words;

/// Bit v of `known` says whether variable v is known, and bit v of `value` its value there.
/// No variable from the width up is known, and no value bit stands outside the known bits.
#[derive(Clone, Copy)]
pub struct Cube {
    width: u8,
    known: u64,
    value: u64,
    ghost narrow: { width ≤ 64 },
    ghost within: { known < 2 ^ width },
    ghost part: { bit_and value known ≡ value },
}
