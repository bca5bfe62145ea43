//! States as words.
ghost use Rattle.std.specs.Prelude.{◌≡◌, ◌^◌, nat_lt};

/// Whether the word is a state of the width: it has no bit from the width up.
pub fn is_state(width: u8, word: u64) -> bool
    ensures { result ≡ nat_lt word (2 ^ width) }
{
    if width >= 64 {
        return true;
    }
    word >> width == 0
}
