//! Words of 64 bits.
ghost use Rattle.std.specs.Prelude.{◌≡◌, ℕ, ◌-◌, ◌^◌, ◌<◌, ◌≤◌, true, false, if◌then◌else◌, nat_eq};
ghost use Rattle.logic.specs.Bit.{bit};

/// Whether bit `v` of the word is set.
pub(crate) fn has(word: u64, v: u8) -> bool
    requires { v < 64 }
    ensures { result ≡ bit v word }
{
    word >> v & 1 == 1
}

/// The word without its bit `v`.
pub(crate) fn without(word: u64, v: u8) -> u64
    requires { v < 64 }
    ensures { (u : ℕ) → bit u result ≡ (if nat_eq u v then false else bit u word) }
{
    word & !(1 << v)
}

/// The word whose lowest `width` bits are set.
pub(crate) fn ones(width: u8) -> u64
    requires { width ≤ 64 }
    ensures { result ≡ 2 ^ width - 1 }
{
    if width == 64 {
        u64::MAX
    } else {
        (1 << width) - 1
    }
}
