//! Numbers of 32 bits.
ghost use Rattle.std.specs.Prelude.{◌≡◌};
ghost use Rattle.dwarf_forms.specs.Words.{low_word_signed};

/// The low 32 bits of a signed number: the number modulo 2^32.
pub fn low_word_signed(number: i64) -> u32
    ensures { result ≡ low_word_signed number }
{
    if number < 0 {
        let below = -(number + 1);
        return u32::MAX - (below as u64 % (1 << 32)) as u32;
    }
    (number as u64 % (1 << 32)) as u32
}
